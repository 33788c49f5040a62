//! The desks of a server as they are put together from its records.

ghost use Rattle.std.specs.Prelude.{◌≡◌, IfOk, OnOk, length};
ghost use Rattle.sqlite_keyed.specs.Keyed.{IsKeyedBy};
ghost use Rattle.desk_records.specs.Made.{key_id};
ghost use Rattle.desk_records.specs.Stored.{AreNarrow};
ghost use Rattle.ledger_records.specs.RestoredDesks.{AreRestored};

use crate::restored_desk::{MOST_NUMBERS, RestoredDesk, restore_desk};
use crate::restoring::{NO_MEMORY, damaged};
use desk_records::{StoredKey, StoredRecords};
use desk_store::{LoadFault, StoreTable};
use std::alloc::Global;

// The keys have to stand in the order of their rows.
fn check_order(keys: &[StoredKey]) -> Result<(), LoadFault>
    ensures { OnOk result (IsKeyedBy key_id keys.now) }
{
    let mut next: u64 = 0;
    for row in keys {
        if row.number >= MOST_NUMBERS {
            return Err(damaged(StoreTable::Key, row.desk, row.number));
        }
        let id = u64::from(row.desk) * MOST_NUMBERS + row.number;
        if id < next {
            return Err(damaged(StoreTable::Key, row.desk, row.number));
        }
        next = id + 1;
    }
    Ok(())
}

/// Puts the first so many desks together from the records of all, as they are loaded.
pub fn restore_desks(
    alloc: Global,
    count: u16,
    records: &StoredRecords,
) -> Result<Vec<RestoredDesk>, LoadFault>
    requires { AreNarrow records.now }
    ensures desks { IfOk result (λ desks. AreRestored records.now desks.items) }
    ensures count { IfOk result (λ desks. length desks.items ≡ count) }
{
    check_order(records.keys.as_slice())?;
    let mut desks = Vec::new(alloc);
    for number in 0..count {
        if desks.reserve(1).is_err() {
            return Err(NO_MEMORY);
        }
        let desk = restore_desk(alloc, number, records)?;
        desks.push_reserved(desk);
    }
    Ok(desks)
}
