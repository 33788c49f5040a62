//! A job's row.

use crate::columns::{
    begin_row, bytes_at, desk_at, narrow_at, number_at, push_blob, push_desk, push_narrow,
    push_number, push_text, stored_id,
};
use desk_store::{Record, StoreTable};
use sqlite_trees::error::StoreError;
use sqlite_value::row::Row;
use sqlite_value::value::Bytes;
use std::alloc::{AllocError, Global};

/// A job that isn't forgotten, as it was taken.
#[derive(Debug, Drop)]
pub struct StoredJob {
    pub desk: u16,
    pub number: u64,
    /// Its tenant's name.
    pub tenant: Bytes,
    pub credit: u32,
    pub programs: Bytes,
    pub buffer: Bytes,
}

impl StoredJob {
    ghost use Rattle.std.specs.Prelude.{◌≡◌, ◌<◌, ◌^◌, ◌++◌, ◌∷◌, [], pos, IfErr, OnOk};
    ghost use Rattle.sqlite_value.specs.declared.value.Value.TheVariants.{Blob, Int, Text};
    ghost use Rattle.sqlite_trees.specs.declared.error.StoreError.TheVariants.{OutOfMemory};

    // Adds the columns that the submit gives.
    fn push_submit(&self, out: &mut Row) -> Result<(), StoreError>
        ensures ok { OnOk result (out.new ≡ out.old ++ (Text self.now.tenant
            ∷ Int (pos self.now.credit) ∷ Blob self.now.programs ∷ Blob self.now.buffer ∷ [])) }
        ensures narrow { OnOk result (self.now.credit < 2 ^ 32) }
        ensures stored { IfErr result (λ error. error ≡ OutOfMemory) }
    {
        push_text(out, &self.tenant)?;
        push_narrow(out, self.credit)?;
        push_blob(out, &self.programs)?;
        push_blob(out, &self.buffer)
    }
}

impl Record for StoredJob {
    ghost use Rattle.desk_store.specs.declared.table.StoreTable.TheVariants.{Job};
    ghost use Rattle.desk_records.specs.Records.{IsNarrowJob, job_of_row, job_row};
    ghost use Rattle.desk_records.specs.RecordLemmas.{job_back, job_is_row};

    ghost table = { Job };

    ghost stored = { job_row };

    ghost is_narrow = { IsNarrowJob };

    ghost in_row = { job_of_row };

    fn table() -> StoreTable {
        StoreTable::Job
    }

    fn write(&self, out: &mut Row) -> Result<(), StoreError> {
        begin_row(out, stored_id(self.desk, self.number)?)?;
        push_desk(out, self.desk)?;
        push_number(out, self.number)?;
        self.push_submit(out)
    }

    fn take(alloc: Global, from: &Row) -> Result<StoredJob, AllocError> {
        Ok(StoredJob {
            desk: desk_at(from, 2),
            number: number_at(from, 3),
            tenant: bytes_at(alloc, from, 4)?,
            credit: narrow_at(from, 5),
            programs: bytes_at(alloc, from, 6)?,
            buffer: bytes_at(alloc, from, 7)?,
        })
    }

    ghost is_row = { job_is_row };

    ghost comes_back = { job_back };
}
