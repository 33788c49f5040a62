//! The JSON of a listing of jobs, one after the other.

ghost use Rattle.std.specs.Prelude.{◌≡◌, ◌++◌, false, IfOk, OnOk, option_map};
ghost use Rattle.serde_json.specs.Data.{string};
ghost use Rattle.serde_json.specs.Written.{compact_text};
ghost use Rattle.accounts.specs.declared.listing.ListedState.TheVariants.{Open, Over, Failed};
ghost use Rattle.sessions.specs.Replies.{jobs_data, listed_data};
ghost use Rattle.sessions.specs.Replies as replies;
ghost use Rattle.sessions.specs.ListTexts.{key_text, listed_texts};

use crate::job_key::{JobKey, KeyedJob};
use crate::reply::put_number;
use crate::result::put_comma;
use accounts::{ListedJob, ListedState};
use serde_json::Value;
use std::alloc::{AllocError, Global};

// The key of a job, if it is among these.
fn key_among(keys: &[KeyedJob], job: u64) -> Option<&JobKey>
    ensures { option_map (λ k. k.now) result ≡ replies.key_among keys.now job }
{
    let mut rest = keys;
    'keys: while let Some((first, others)) = rest.split_first() {
        if first.job == job {
            return Some(&first.key);
        }
        rest = others;
    }
    None
}

// A key in quotes.
fn quote_key(alloc: Global, key: &JobKey) -> Result<Vec<u8>, AllocError>
    ensures { IfOk result (λ text. text.items ≡ compact_text (string key.now)) }
{
    let value = Value::String(String::from_str(alloc, key.as_str())?);
    value.to_vec(alloc)
}

// A job's key behind its number, if it has one.
fn put_key(alloc: Global, out: &mut Vec<u8>, key: Option<&JobKey>) -> Result<(), AllocError>
    ensures { OnOk result (out.new.items ≡ out.old.items
        ++ key_text (option_map (λ k. k.now) key.entry)) }
{
    match key {
        Some(key) => {
            let quoted = quote_key(alloc, key)?;
            out.extend_from_slice(b",\"key\":")?;
            out.extend_from_slice(quoted.as_slice())
        }
        None => Ok(()),
    }
}

// A job that isn't over.
fn write_open(
    alloc: Global,
    out: &mut Vec<u8>,
    job: u64,
    key: Option<&JobKey>,
) -> Result<(), AllocError>
    ensures { OnOk result (out.new.items ≡ out.old.items
        ++ compact_text (listed_data job (option_map (λ k. k.now) key.entry) Open)) }
{
    put_number(out, b"{\"job\":", job)?;
    put_key(alloc, out, key)?;
    out.extend_from_slice(b",\"state\":\"open\"}")?;
    Ok(())
}

// A job that has a report.
fn write_over(
    alloc: Global,
    out: &mut Vec<u8>,
    job: u64,
    key: Option<&JobKey>,
) -> Result<(), AllocError>
    ensures { OnOk result (out.new.items ≡ out.old.items
        ++ compact_text (listed_data job (option_map (λ k. k.now) key.entry) Over)) }
{
    put_number(out, b"{\"job\":", job)?;
    put_key(alloc, out, key)?;
    out.extend_from_slice(b",\"state\":\"over\"}")?;
    Ok(())
}

// A job that failed by this code.
fn write_failed(
    alloc: Global,
    out: &mut Vec<u8>,
    job: u64,
    key: Option<&JobKey>,
    code: u8,
) -> Result<(), AllocError>
    ensures { OnOk result (out.new.items ≡ out.old.items
        ++ compact_text (listed_data job (option_map (λ k. k.now) key.entry) (Failed code))) }
{
    put_number(out, b"{\"code\":", u64::from(code))?;
    put_number(out, b",\"job\":", job)?;
    put_key(alloc, out, key)?;
    out.extend_from_slice(b",\"state\":\"failed\"}")?;
    Ok(())
}

// A job that is listed, with its key, if it has one.
#[tactic(auto, using(crate::proofs::ListLemmas::listed_as))]
fn write_listed(
    alloc: Global,
    out: &mut Vec<u8>,
    listed: &ListedJob,
    key: Option<&JobKey>,
) -> Result<(), AllocError>
    ensures { OnOk result (out.new.items ≡ out.old.items
        ++ compact_text (listed_data listed.now.job (option_map (λ k. k.now) key.entry)
        listed.now.state)) }
{
    match listed.state {
        ListedState::Open => write_open(alloc, out, listed.job, key),
        ListedState::Over => write_over(alloc, out, listed.job, key),
        ListedState::Failed(code) => write_failed(alloc, out, listed.job, key, code),
    }
}

// The jobs, with a comma between two.
fn write_each(
    alloc: Global,
    out: &mut Vec<u8>,
    jobs: &[ListedJob],
    keys: &[KeyedJob],
) -> Result<(), AllocError>
    ensures { OnOk result (out.new.items ≡ out.old.items ++ listed_texts keys.now false jobs.now) }
{
    let mut is_later = false;
    for job in jobs {
        put_comma(out, is_later)?;
        let key = key_among(keys, job.job);
        write_listed(alloc, out, job, key)?;
        is_later = true;
    }
    Ok(())
}

/// Writes the JSON of a listing, of which the last job has the number `count`, with the key of each
/// job that is among these.
pub(crate) fn write_jobs(
    alloc: Global,
    out: &mut Vec<u8>,
    count: u64,
    jobs: &[ListedJob],
    keys: &[KeyedJob],
) -> Result<(), AllocError>
    ensures { OnOk result (out.new.items ≡ out.old.items
        ++ compact_text (jobs_data count jobs.now keys.now)) }
{
    put_number(out, b"{\"count\":", count)?;
    out.extend_from_slice(b",\"jobs\":[")?;
    write_each(alloc, out, jobs, keys)?;
    out.extend_from_slice(b"],\"ok\":true}")?;
    Ok(())
}
