//! A desk as it is put together from its records.

ghost use Rattle.std.specs.Prelude.{◌≡◌, All, IfOk, IsTrue, OnOk, find, option_map};
ghost use Rattle.desk_records.specs.Stored.{AreNarrow};
ghost use Rattle.ledger_records.specs.DeskRecords.{IsDeskOf};
ghost use Rattle.ledger_records.specs.LedgerRecords.{HasFewerTaken, is_row_of};
ghost use Rattle.ledger_records.specs.SoFar.{AreKeysSoFar, AreOpenJobs, TellsLast, NotesRow};

use crate::restored_job::RestoredJob;
use crate::restoring::{NO_MEMORY, damaged, restore_ledger};
use accounts::Desk;
use desk_records::{StoredDesk, StoredKey, StoredRecords};
use desk_store::{LoadFault, StoreTable};
use sessions::{JobKey, KeyedJobs};
use std::alloc::Global;

/// A desk numbers its jobs below this.
pub(crate) const MOST_NUMBERS: u64 = 100_000_000_000_000;

/// A desk, the keyed jobs that it remembers, and its open jobs in the order of their numbers.
#[derive(Drop)]
pub struct RestoredDesk {
    pub desk: Desk,
    pub keys: KeyedJobs,
    pub open_jobs: Vec<RestoredJob>,
}

// The row of a desk, if there is one.
fn desk_row(number: u16, desks: &[StoredDesk]) -> Option<&StoredDesk>
    ensures { option_map (λ d. d.now) result ≡ find (is_row_of number) desks.now }
{
    desks.iter().find(|row| row.desk == number)
}

fn tells_no_more(number: u16, row: &StoredDesk, count: u64) -> bool
    ensures { IsTrue result → HasFewerTaken number count row.now }
{
    row.desk != number || row.taken <= count
}

// Whether no row of the desk tells of more jobs.
fn tell_no_more(number: u16, desks: &[StoredDesk], count: u64) -> bool
    ensures { IsTrue result → All (HasFewerTaken number count) desks.now }
{
    for row in desks {
        if !tells_no_more(number, row, count) {
            return false;
        }
    }
    true
}

// Adds the forgotten jobs behind the last one that has a row.
fn add_last(number: u16, desk: &mut Desk, desks: &[StoredDesk]) -> Result<(), LoadFault>
    ensures { OnOk result (TellsLast number desks.now desk.old desk.new) }
{
    let wrong = LoadFault::Damaged(StoreTable::Desk, i64::from(number));
    let Some(row) = desk_row(number, desks) else {
        return Ok(());
    };
    let count = desk.job_count();
    if row.taken <= count {
        return Ok(());
    }
    if row.taken >= MOST_NUMBERS {
        return Err(wrong);
    }
    match desk.add_gone(row.taken - count) {
        Ok(()) => Ok(()),
        Err(_) => Err(wrong),
    }
}

// The key of a row.
fn key_of(alloc: Global, row: &StoredKey) -> Result<JobKey, LoadFault>
    ensures { IfOk result (λ key. key ≡ row.now.key) }
{
    match JobKey::of_bytes(alloc, row.key.as_slice()) {
        Ok(Some(key)) => Ok(key),
        Ok(None) => Err(damaged(StoreTable::Key, row.desk, row.number)),
        Err(_) => Err(NO_MEMORY),
    }
}

// Remembers the key of a row, where it is one of the desk, which took so many jobs.
fn note_row(
    alloc: Global,
    number: u16,
    count: u64,
    keys: &mut KeyedJobs,
    row: &StoredKey,
) -> Result<(), LoadFault>
    ensures { OnOk result (NotesRow number count row.now keys.old.jobs keys.new.jobs) }
{
    if row.desk != number {
        return Ok(());
    }
    if row.number > count {
        return Err(damaged(StoreTable::Key, row.desk, row.number));
    }
    if keys.as_slice().len() >= 1000 {
        return Err(damaged(StoreTable::Key, row.desk, row.number));
    }
    let key = key_of(alloc, row)?;
    if keys.reserve().is_err() {
        return Err(NO_MEMORY);
    }
    keys.note(row.number, key);
    Ok(())
}

// The keyed jobs of a desk that took so many.
fn restore_keys(
    alloc: Global,
    number: u16,
    count: u64,
    rows: &[StoredKey],
) -> Result<KeyedJobs, LoadFault>
    ensures { IfOk result (λ keys. AreKeysSoFar number count rows.now keys.jobs) }
{
    let mut keys = KeyedJobs::new(alloc);
    for row in rows {
        note_row(alloc, number, count, &mut keys, row)?;
    }
    Ok(keys)
}

/// Puts a desk together from the records of all desks, as they are loaded.
pub fn restore_desk(
    alloc: Global,
    number: u16,
    records: &StoredRecords,
) -> Result<RestoredDesk, LoadFault>
    requires { AreNarrow records.now }
    ensures desk { IfOk result (λ r. IsDeskOf number records.now (record {
      ledger = r.desk;
      keys = r.keys.jobs;
    })) }
    ensures jobs { IfOk result (λ r. AreOpenJobs number records.now.jobs records.now.outcomes
        r.open_jobs.items) }
{
    let (mut desk, open_jobs) = restore_ledger(alloc, number, records)?;
    add_last(number, &mut desk, records.desks.as_slice())?;
    let count = desk.job_count();
    if !tell_no_more(number, records.desks.as_slice(), count) {
        return Err(LoadFault::Damaged(StoreTable::Desk, i64::from(number)));
    }
    let keys = restore_keys(alloc, number, count, records.keys.as_slice())?;
    Ok(RestoredDesk {
        desk,
        keys,
        open_jobs,
    })
}
