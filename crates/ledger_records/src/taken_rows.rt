//! The rows of a job that is taken.

ghost use Rattle.std.specs.Prelude.{◌≡◌, ◌+◌, ℕ, IfOk, option_map, string_bytes};
ghost use Rattle.desk_records.specs.Stored.{Ledgers};
ghost use Rattle.ledger_records.specs.ChangedRows.{AreRowsOfTaken, IsRowOfKey, first_dropped};
ghost use Rattle.ledger_records.specs.DeskRecords.{keyed_jobs_of};
ghost use Rattle.ledger_records.specs.LedgerRecords.{HasTaken};

use crate::written_rows::programs_written;
use desk_records::{NotedKey, StoredJob, StoredKey, TakenJob};
use job_core::ProgramBytes;
use sessions::KeyedJobs;
use sqlite_value::value::Bytes;
use std::alloc::{AllocError, Global};

// The job whose key is not remembered behind one more.
fn dropped_by(keys: &KeyedJobs) -> Option<u64>
    ensures { result ≡ first_dropped keys.now.jobs }
{
    match keys.as_slice().split_first() {
        Some((first, others)) => {
            if others.len() < 999 {
                None
            } else {
                Some(first.job)
            }
        }
        None => None,
    }
}

// The row of the key that a job came by, where the desk remembers these.
fn key_written(
    alloc: Global,
    desk: u16,
    number: u64,
    key: &Option<String>,
    keys: &KeyedJobs,
) -> Result<Option<NotedKey>, AllocError>
    ensures { IfOk result (λ row. (l : Ledgers) → keys.now.jobs ≡ keyed_jobs_of desk l.keys
        → IsRowOfKey desk l number (option_map string_bytes key.now) row) }
{
    let Some(key) = key else {
        return Ok(None);
    };
    let key = StoredKey {
        desk,
        number,
        key: Bytes::from_slice(alloc, key.as_bytes())?,
    };
    Ok(Some(NotedKey {
        key,
        dropped: dropped_by(keys),
    }))
}

/// The rows of a job that is taken as the desk's next one, where the desk remembers these keyed jobs.
pub fn taken_written(
    alloc: Global,
    desk: u16,
    number: u64,
    tenant: &str,
    key: &Option<String>,
    programs: &Vec<ProgramBytes>,
    credit: u32,
    buffer: &[u8],
    keys: &KeyedJobs,
) -> Result<TakenJob, AllocError>
    ensures { IfOk result (λ t. (l : Ledgers) → keys.now.jobs ≡ keyed_jobs_of desk l.keys
        → ((count : ℕ) → HasTaken desk l count → number ≡ count + 1)
        → AreRowsOfTaken desk l tenant.now (option_map string_bytes key.now) programs.now.items
        credit buffer.now t) }
{
    let job = StoredJob {
        desk,
        number,
        tenant: Bytes::from_slice(alloc, tenant.as_bytes())?,
        credit,
        programs: programs_written(alloc, programs)?,
        buffer: Bytes::from_slice(alloc, buffer)?,
    };
    let key = key_written(alloc, desk, number, key, keys)?;
    Ok(TakenJob { job, key })
}
