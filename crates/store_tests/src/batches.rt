//! The changes of each batch.

use desk_records::{
    ForgottenJobs, NotedKey, SettledJob, StoredChange, StoredDesk, StoredJob, StoredKey,
    StoredOutcome, StoredReport, StoredResult, StoredTenant, TakenJob,
};
use sqlite_value::value::Bytes;
use std::alloc::{AllocError, Global};

// A batch forgets the job so many numbers before.
const KEPT: u32 = 10;

// The bytes of a number: up to nine thousand, so that some take pages of their own.
fn bytes_for(alloc: Global, number: u32) -> Result<Bytes, AllocError> {
    let mark = u8::try_from(number % 251).unwrap_or(0);
    let mut bytes = Vec::new(alloc);
    for _ in 0..number.wrapping_mul(7919) % 9001 {
        bytes.push(mark)?;
    }
    Bytes::from_slice(alloc, bytes.as_slice())
}

fn tenant(alloc: Global, number: u32) -> Result<StoredTenant, AllocError> {
    Ok(StoredTenant {
        number: 1,
        desk: 2,
        name: Bytes::from_slice(alloc, b"ann")?,
        granted: u64::from(number) * 1000,
        spent: u64::from(number) * 3,
    })
}

// A job has a key where its number is even. The one so many numbers before is not remembered then.
fn key(alloc: Global, number: u32) -> Result<Option<NotedKey>, AllocError> {
    if number % 2 == 1 {
        return Ok(None);
    }
    let key = StoredKey {
        desk: 2,
        number: u64::from(number),
        key: Bytes::from_slice(alloc, b"again")?,
    };
    let dropped = if number > KEPT {
        Some(u64::from(number.saturating_sub(KEPT)))
    } else {
        None
    };
    Ok(Some(NotedKey { key, dropped }))
}

fn job(alloc: Global, number: u32) -> Result<StoredJob, AllocError> {
    Ok(StoredJob {
        desk: 2,
        number: u64::from(number),
        tenant: Bytes::from_slice(alloc, b"ann")?,
        credit: 10,
        programs: bytes_for(alloc, number)?,
        buffer: Bytes::from_slice(alloc, b"in")?,
    })
}

// Each third job failed.
fn result(alloc: Global, number: u32) -> Result<StoredResult, AllocError> {
    if number % 3 == 0 {
        return Ok(StoredResult::Failed(82));
    }
    Ok(StoredResult::Reported(StoredReport {
        spent: 3,
        returned: 7,
        buffer: bytes_for(alloc, number)?,
        tasks: Bytes::from_slice(alloc, &[])?,
    }))
}

fn outcome(alloc: Global, number: u32) -> Result<StoredOutcome, AllocError> {
    Ok(StoredOutcome {
        desk: 2,
        number: u64::from(number),
        outcome: result(alloc, number)?,
    })
}

fn taken(alloc: Global, number: u32) -> Result<TakenJob, AllocError> {
    Ok(TakenJob {
        job: job(alloc, number)?,
        key: key(alloc, number)?,
    })
}

fn settled(alloc: Global, number: u32) -> Result<SettledJob, AllocError> {
    Ok(SettledJob {
        outcome: outcome(alloc, number)?,
        tenant: tenant(alloc, number)?,
    })
}

fn forgotten(alloc: Global, number: u32) -> Result<ForgottenJobs, AllocError> {
    let mut numbers = Vec::with_capacity(alloc, 1)?;
    numbers.push(u64::from(number.saturating_sub(KEPT)))?;
    Ok(ForgottenJobs {
        desk: StoredDesk {
            desk: 2,
            taken: u64::from(number),
        },
        numbers,
    })
}

/// The batch of a number.
pub fn batch_of(alloc: Global, number: u32) -> Result<Vec<StoredChange>, AllocError> {
    let mut batch = Vec::with_capacity(alloc, 4)?;
    batch.push(StoredChange::Granted(tenant(alloc, number)?))?;
    batch.push(StoredChange::Taken(taken(alloc, number)?))?;
    batch.push(StoredChange::Settled(settled(alloc, number)?))?;
    if number > KEPT {
        batch.push(StoredChange::Forgotten(forgotten(alloc, number)?))?;
    }
    Ok(batch)
}
