//! The row of a job's outcome.

ghost use Rattle.std.specs.Prelude.{◌≡◌, ◌++◌, ◌∷◌, [], IfErr, IfOk, OnOk};
ghost use Rattle.sqlite_value.specs.declared.value.Value.TheVariants.{Null};
ghost use Rattle.desk_records.specs.declared.stored_outcome.StoredResult.TheVariants.{Failed, Reported};
ghost use Rattle.sqlite_trees.specs.declared.error.StoreError.TheVariants.{OutOfMemory};
ghost use Rattle.desk_records.specs.Records.{IsNarrow, report_of_row, result_of_row, result_values};

use crate::columns::{
    begin_row, bytes_at, code_at, desk_at, narrow_at, number_at, push_blob, push_code, push_desk,
    push_narrow, push_number, stored_id,
};
use desk_store::{Record, StoreTable};
use sqlite_trees::error::StoreError;
use sqlite_value::row::Row;
use sqlite_value::value::{Bytes, ValueRef};
use std::alloc::{AllocError, Global};

/// A job's report: its sums, its buffer and its tasks.
#[derive(Debug, Drop)]
pub struct StoredReport {
    pub spent: u32,
    pub returned: u32,
    pub buffer: Bytes,
    pub tasks: Bytes,
}

/// The outcome of a job.
#[derive(Debug, Drop)]
pub enum StoredResult {
    /// It failed with the refusal of this number.
    Failed(u8),
    Reported(StoredReport),
}

/// A job that is over, and what it came to.
#[derive(Debug, Drop)]
pub struct StoredOutcome {
    pub desk: u16,
    pub number: u64,
    pub outcome: StoredResult,
}

// Adds a column without a value.
fn push_null(row: &mut Row) -> Result<(), StoreError>
    ensures ok { OnOk result (row.new ≡ row.old ++ Null ∷ []) }
    ensures stored { IfErr result (λ error. error ≡ OutOfMemory) }
{
    row.push(ValueRef::Null)?;
    Ok(())
}

// Adds the columns of a failure.
fn push_failure(row: &mut Row, code: u8) -> Result<(), StoreError>
    ensures ok { OnOk result (row.new ≡ row.old ++ result_values (Failed code)) }
    ensures narrow { OnOk result (IsNarrow (Failed code)) }
    ensures stored { IfErr result (λ error. error ≡ OutOfMemory) }
{
    push_code(row, code)?;
    push_null(row)?;
    push_null(row)?;
    push_null(row)?;
    push_null(row)
}

// Adds the columns of a report.
fn push_report(row: &mut Row, report: &StoredReport) -> Result<(), StoreError>
    ensures ok { OnOk result (row.new ≡ row.old ++ result_values (Reported report.now)) }
    ensures narrow { OnOk result (IsNarrow (Reported report.now)) }
    ensures stored { IfErr result (λ error. error ≡ OutOfMemory) }
{
    push_null(row)?;
    push_narrow(row, report.spent)?;
    push_narrow(row, report.returned)?;
    push_blob(row, &report.buffer)?;
    push_blob(row, &report.tasks)
}

// Adds the columns of an outcome.
fn push_result(row: &mut Row, outcome: &StoredResult) -> Result<(), StoreError>
    ensures ok { OnOk result (row.new ≡ row.old ++ result_values outcome.now) }
    ensures narrow { OnOk result (IsNarrow outcome.now) }
    ensures stored { IfErr result (λ error. error ≡ OutOfMemory) }
{
    match outcome {
        StoredResult::Failed(code) => push_failure(row, *code),
        StoredResult::Reported(report) => push_report(row, report),
    }
}

// The report that has these columns, if one has them.
fn take_report(alloc: Global, from: &Row) -> Result<StoredReport, AllocError>
    ensures { IfOk result (λ report. report ≡ report_of_row from.now) }
{
    Ok(StoredReport {
        spent: narrow_at(from, 5),
        returned: narrow_at(from, 6),
        buffer: bytes_at(alloc, from, 7)?,
        tasks: bytes_at(alloc, from, 8)?,
    })
}

// The outcome that has these columns, if one has them.
fn take_result(alloc: Global, from: &Row) -> Result<StoredResult, AllocError>
    ensures { IfOk result (λ outcome. outcome ≡ result_of_row from.now) }
{
    match from.get(4) {
        ValueRef::Null => Ok(StoredResult::Reported(take_report(alloc, from)?)),
        _ => Ok(StoredResult::Failed(code_at(from, 4))),
    }
}

impl Record for StoredOutcome {
    ghost use Rattle.desk_store.specs.declared.table.StoreTable.TheVariants.{Outcome};
    ghost use Rattle.desk_records.specs.Records.{IsNarrowOutcome, outcome_of_row, outcome_row};
    ghost use Rattle.desk_records.specs.RecordLemmas.{outcome_back, outcome_is_row};

    ghost table = { Outcome };

    ghost stored = { outcome_row };

    ghost is_narrow = { IsNarrowOutcome };

    ghost in_row = { outcome_of_row };

    fn table() -> StoreTable {
        StoreTable::Outcome
    }

    fn write(&self, out: &mut Row) -> Result<(), StoreError> {
        begin_row(out, stored_id(self.desk, self.number)?)?;
        push_desk(out, self.desk)?;
        push_number(out, self.number)?;
        push_result(out, &self.outcome)
    }

    fn take(alloc: Global, from: &Row) -> Result<StoredOutcome, AllocError> {
        Ok(StoredOutcome {
            desk: desk_at(from, 2),
            number: number_at(from, 3),
            outcome: take_result(alloc, from)?,
        })
    }

    ghost is_row = { outcome_is_row };

    ghost comes_back = { outcome_back };
}
