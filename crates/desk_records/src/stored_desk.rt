//! The row of a desk of which jobs are forgotten.

use crate::columns::{begin_at, desk_at, number_at, push_number};
use desk_store::{Record, StoreTable};
use sqlite_trees::error::StoreError;
use sqlite_value::row::Row;
use std::alloc::{AllocError, Global};

/// A desk of which jobs are forgotten, and how many it had taken by then.
#[derive(Debug, Drop)]
pub struct StoredDesk {
    pub desk: u16,
    pub taken: u64,
}

impl Record for StoredDesk {
    ghost use Rattle.desk_store.specs.declared.table.StoreTable.TheVariants.{Desk};
    ghost use Rattle.desk_records.specs.Records.{IsNarrowDesk, desk_of_row, desk_row};
    ghost use Rattle.desk_records.specs.RecordLemmas.{desk_back, desk_is_row};

    ghost table = { Desk };

    ghost stored = { desk_row };

    ghost is_narrow = { IsNarrowDesk };

    ghost in_row = { desk_of_row };

    fn table() -> StoreTable {
        StoreTable::Desk
    }

    fn write(&self, out: &mut Row) -> Result<(), StoreError> {
        begin_at(out, u32::from(self.desk))?;
        push_number(out, self.taken)
    }

    fn take(_alloc: Global, from: &Row) -> Result<StoredDesk, AllocError> {
        Ok(StoredDesk {
            desk: desk_at(from, 0),
            taken: number_at(from, 2),
        })
    }

    ghost is_row = { desk_is_row };

    ghost comes_back = { desk_back };
}
