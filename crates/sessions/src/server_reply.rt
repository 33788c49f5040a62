//! The JSON of what a server counts.

ghost use Rattle.std.specs.Prelude.{◌≡◌, ◌++◌, false, OnOk};
ghost use Rattle.serde_json.specs.Written.{compact_text};
ghost use Rattle.sessions.specs.Replies.{connections_data, job_totals_data, totals_data};
ghost use Rattle.sessions.specs.ServerTexts.{refusal_count_text, refusal_count_texts, totals_front};

use crate::reply::put_number;
use crate::result::put_comma;
use crate::server_totals::{ConnectionTotals, JobTotals, RefusalCount, ServerTotals};
use std::alloc::AllocError;

// The number of the protocol.
const PROTOCOL: u64 = 1;

fn write_connections(out: &mut Vec<u8>, connections: ConnectionTotals) -> Result<(), AllocError>
    ensures { OnOk result (out.new.items ≡ out.old.items
        ++ compact_text (connections_data connections)) }
{
    put_number(out, b"{\"open\":", connections.opened)?;
    put_number(out, b",\"taken\":", connections.taken)?;
    out.extend_from_slice(b"}")?;
    Ok(())
}

fn write_jobs(out: &mut Vec<u8>, jobs: JobTotals) -> Result<(), AllocError>
    ensures { OnOk result (out.new.items ≡ out.old.items ++ compact_text (job_totals_data jobs)) }
{
    put_number(out, b"{\"failed\":", jobs.failed)?;
    put_number(out, b",\"open\":", jobs.opened)?;
    put_number(out, b",\"over\":", jobs.over)?;
    put_number(out, b",\"taken\":", jobs.taken)?;
    put_number(out, b",\"waiting\":", jobs.waiting)?;
    out.extend_from_slice(b"}")?;
    Ok(())
}

// How many refusals had a number.
fn write_refusal_count(out: &mut Vec<u8>, refusal: RefusalCount) -> Result<(), AllocError>
    ensures { OnOk result (out.new.items ≡ out.old.items ++ refusal_count_text refusal) }
{
    put_number(out, b"{\"code\":", refusal.code)?;
    put_number(out, b",\"count\":", refusal.count)?;
    out.extend_from_slice(b"}")?;
    Ok(())
}

// The counts of refusals, with a comma between two.
fn write_refusal_counts(out: &mut Vec<u8>, refusals: &[RefusalCount]) -> Result<(), AllocError>
    ensures { OnOk result (out.new.items ≡ out.old.items
        ++ refusal_count_texts false refusals.now) }
{
    let mut is_later = false;
    for refusal in refusals {
        put_comma(out, is_later)?;
        write_refusal_count(out, *refusal)?;
        is_later = true;
    }
    Ok(())
}

// The members ahead of the lost lines.
fn write_front(
    out: &mut Vec<u8>,
    connections: ConnectionTotals,
    instance: u64,
    jobs: JobTotals,
) -> Result<(), AllocError>
    ensures { OnOk result (out.new.items ≡ out.old.items
        ++ totals_front connections instance jobs) }
{
    out.extend_from_slice(b"{\"connections\":")?;
    write_connections(out, connections)?;
    put_number(out, b",\"instance\":", instance)?;
    out.extend_from_slice(b",\"jobs\":")?;
    write_jobs(out, jobs)?;
    Ok(())
}

/// Writes the JSON of what a server counts.
pub(crate) fn write_server(out: &mut Vec<u8>, totals: &ServerTotals) -> Result<(), AllocError>
    ensures { OnOk result (out.new.items ≡ out.old.items ++ compact_text (totals_data totals.now)) }
{
    write_front(out, totals.connections, totals.instance, totals.jobs)?;
    put_number(out, b",\"lines_lost\":", totals.lines_lost)?;
    put_number(out, b",\"ok\":true,\"protocol\":", PROTOCOL)?;
    out.extend_from_slice(b",\"refusals\":[")?;
    write_refusal_counts(out, &totals.refusals)?;
    put_number(out, b"],\"seconds\":", totals.seconds)?;
    out.extend_from_slice(b",\"version\":\"0.1.0\"}")?;
    Ok(())
}
