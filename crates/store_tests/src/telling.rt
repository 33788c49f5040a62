//! Lines that tell records, and why there are none.

use desk_records::{
    StoredDesk, StoredJob, StoredKey, StoredOutcome, StoredRecords, StoredResult, StoredTenant,
};
use desk_store::StoreOpenFault;
use sqlite_value::value::Bytes;
use std::io;

fn text(bytes: &Bytes) -> &str {
    str::from_utf8(bytes.as_slice()).unwrap_or("?")
}

// A sum of bytes, which a flipped bit changes.
fn sum_of(bytes: &Bytes) -> u32 {
    let mut sum = 0u32;
    for byte in bytes.as_slice() {
        sum = sum
            .wrapping_mul(31)
            .wrapping_add(u32::from(*byte))
            .wrapping_add(1);
    }
    sum
}

fn tell_tenant(rt: &HostRuntime, tenant: &StoredTenant) -> io::Result<()> {
    let StoredTenant {
        number,
        desk,
        granted,
        spent,
        ..
    } = tenant;
    let name = text(&tenant.name);
    println!(rt; "tenant {number} {desk} {name} {granted} {spent}")
}

fn tell_job(rt: &HostRuntime, job: &StoredJob) -> io::Result<()> {
    let StoredJob {
        desk,
        number,
        credit,
        ..
    } = job;
    let tenant = text(&job.tenant);
    let programs = job.programs.as_slice().len();
    let sum = sum_of(&job.programs);
    let buffer = job.buffer.as_slice().len();
    println!(rt; "job {desk} {number} {tenant} {credit} {programs} {sum} {buffer}")
}

fn tell_outcome(rt: &HostRuntime, outcome: &StoredOutcome) -> io::Result<()> {
    let StoredOutcome { desk, number, .. } = outcome;
    match &outcome.outcome {
        StoredResult::Failed(code) => println!(rt; "outcome {desk} {number} failed {code}"),
        StoredResult::Reported(report) => {
            let spent = report.spent;
            let returned = report.returned;
            let buffer = report.buffer.as_slice().len();
            let sum = sum_of(&report.buffer);
            println!(rt; "outcome {desk} {number} reported {spent} {returned} {buffer} {sum}")
        }
    }
}

fn tell_desk(rt: &HostRuntime, desk: &StoredDesk) -> io::Result<()> {
    let StoredDesk { desk, taken } = desk;
    println!(rt; "desk {desk} {taken}")
}

fn tell_key(rt: &HostRuntime, key: &StoredKey) -> io::Result<()> {
    let StoredKey { desk, number, .. } = key;
    let text = text(&key.key);
    println!(rt; "key {desk} {number} {text}")
}

/// Tells each record, a line each.
pub fn tell_records(rt: &HostRuntime, records: &StoredRecords) -> io::Result<()> {
    for tenant in records.tenants.as_slice() {
        tell_tenant(rt, tenant)?;
    }
    for job in records.jobs.as_slice() {
        tell_job(rt, job)?;
    }
    for outcome in records.outcomes.as_slice() {
        tell_outcome(rt, outcome)?;
    }
    for desk in records.desks.as_slice() {
        tell_desk(rt, desk)?;
    }
    for key in records.keys.as_slice() {
        tell_key(rt, key)?;
    }
    Ok(())
}

/// Tells why no store was opened.
pub fn tell_refusal(rt: &HostRuntime, fault: &StoreOpenFault) -> io::Result<()> {
    match fault {
        StoreOpenFault::System(error) => println!(rt; "refused: {error}"),
        StoreOpenFault::NoRegularFile => println!(rt; "refused: no regular file"),
        StoreOpenFault::LostLink => println!(rt; "refused: a link to nowhere"),
        StoreOpenFault::NoStore(kind) => println!(rt; "refused: {kind:?}"),
        StoreOpenFault::Sqlite(error) => println!(rt; "refused: {error:?}"),
        StoreOpenFault::Store(error) => println!(rt; "refused: {error:?}"),
        StoreOpenFault::OtherTables => println!(rt; "refused: other tables"),
    }
}
