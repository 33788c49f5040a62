//! The row of a key by which a job is remembered.

use crate::columns::{
    begin_row, bytes_at, desk_at, number_at, push_desk, push_number, push_text, stored_id,
};
use desk_store::{Record, StoreTable};
use sqlite_trees::error::StoreError;
use sqlite_value::row::Row;
use sqlite_value::value::Bytes;
use std::alloc::{AllocError, Global};

/// A job that was submitted by a key, which is remembered. It may be forgotten.
#[derive(Debug, Drop)]
pub struct StoredKey {
    pub desk: u16,
    pub number: u64,
    pub key: Bytes,
}

impl Record for StoredKey {
    ghost use Rattle.desk_store.specs.declared.table.StoreTable.TheVariants.{Key};
    ghost use Rattle.desk_records.specs.Records.{IsNarrowKey, key_of_row, key_row};
    ghost use Rattle.desk_records.specs.RecordLemmas.{key_back, key_is_row};

    ghost table = { Key };

    ghost stored = { key_row };

    ghost is_narrow = { IsNarrowKey };

    ghost in_row = { key_of_row };

    fn table() -> StoreTable {
        StoreTable::Key
    }

    fn write(&self, out: &mut Row) -> Result<(), StoreError> {
        begin_row(out, stored_id(self.desk, self.number)?)?;
        push_desk(out, self.desk)?;
        push_number(out, self.number)?;
        push_text(out, &self.key)
    }

    fn take(alloc: Global, from: &Row) -> Result<StoredKey, AllocError> {
        Ok(StoredKey {
            desk: desk_at(from, 2),
            number: number_at(from, 3),
            key: bytes_at(alloc, from, 4)?,
        })
    }

    ghost is_row = { key_is_row };

    ghost comes_back = { key_back };
}
