//! A tenant's row.

use crate::columns::{
    begin_at, bytes_at, desk_at, narrow_at, number_at, push_desk, push_number, push_text,
};
use desk_store::{Record, StoreTable};
use sqlite_trees::error::StoreError;
use sqlite_value::row::Row;
use sqlite_value::value::Bytes;
use std::alloc::{AllocError, Global};

/// A tenant of a desk: the sum of its grants, and what its jobs spent, also those that are forgotten.
#[derive(Debug, Drop)]
pub struct StoredTenant {
    /// The number of its row.
    pub number: u32,
    pub desk: u16,
    pub name: Bytes,
    pub granted: u64,
    pub spent: u64,
}

impl Record for StoredTenant {
    ghost use Rattle.desk_store.specs.declared.table.StoreTable.TheVariants.{Tenant};
    ghost use Rattle.desk_records.specs.Records.{IsNarrowTenant, tenant_of_row, tenant_row};
    ghost use Rattle.desk_records.specs.RecordLemmas.{tenant_back, tenant_is_row};

    ghost table = { Tenant };

    ghost stored = { tenant_row };

    ghost is_narrow = { IsNarrowTenant };

    ghost in_row = { tenant_of_row };

    fn table() -> StoreTable {
        StoreTable::Tenant
    }

    fn write(&self, out: &mut Row) -> Result<(), StoreError> {
        begin_at(out, self.number)?;
        push_desk(out, self.desk)?;
        push_text(out, &self.name)?;
        push_number(out, self.granted)?;
        push_number(out, self.spent)
    }

    fn take(alloc: Global, from: &Row) -> Result<StoredTenant, AllocError> {
        Ok(StoredTenant {
            number: narrow_at(from, 0),
            desk: desk_at(from, 2),
            name: bytes_at(alloc, from, 3)?,
            granted: number_at(from, 4),
            spent: number_at(from, 5),
        })
    }

    ghost is_row = { tenant_is_row };

    ghost comes_back = { tenant_back };
}
