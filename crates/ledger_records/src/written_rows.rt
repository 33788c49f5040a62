//! The rows of changes, as they are written.

ghost use Rattle.std.specs.Prelude.{◌≡◌, IfOk, Result};
ghost use Rattle.accounts.specs.Jobs.{settled};
ghost use Rattle.desk_journal.specs.Changes.{program_bytes, task_bytes};
ghost use Rattle.desk_journal.specs.Encodings.{list_bytes};
ghost use Rattle.accounts.specs.declared.jobs.JobStanding.TheVariants.{Reported};
ghost use Rattle.desk_records.specs.declared.stored_outcome.StoredResult.TheVariants.{Reported as StoredReported};
ghost use Rattle.ledger_records.specs.LedgerRecords.{CameTo};

use accounts::SharedReport;
use credit_book::{Report, TaskEnd};
use desk_journal::Encoded;
use desk_records::{StoredReport, StoredResult};
use job_core::ProgramBytes;
use sqlite_value::value::Bytes;
use std::alloc::{AllocError, Global};

// The tasks of a report as a row has them.
fn tasks_written(alloc: Global, tasks: &Vec<TaskEnd>) -> Result<Bytes, AllocError>
    ensures { IfOk result (λ bytes. bytes ≡ list_bytes task_bytes tasks.now.items) }
{
    let mut bytes = Vec::new(alloc);
    tasks.write(&mut bytes)?;
    Bytes::from_slice(alloc, bytes.as_slice())
}

/// The programs of a job as its row has them.
pub fn programs_written(alloc: Global, programs: &Vec<ProgramBytes>) -> Result<Bytes, AllocError>
    ensures { IfOk result (λ bytes. bytes ≡ list_bytes program_bytes programs.now.items) }
{
    let mut bytes = Vec::new(alloc);
    programs.write(&mut bytes)?;
    Bytes::from_slice(alloc, bytes.as_slice())
}

// A report as a row has it.
fn report_written(alloc: Global, report: &Report) -> Result<StoredReport, AllocError>
    ensures { IfOk result (λ row. CameTo (Reported report.now) (StoredReported row)) }
{
    Ok(StoredReport {
        spent: report.spent,
        returned: report.returned,
        buffer: Bytes::from_slice(alloc, report.buffer.as_slice())?,
        tasks: tasks_written(alloc, &report.tasks)?,
    })
}

/// The outcome of a job of this credit as its row has it: a report that does not account for the
/// credit counts as 82.
pub fn outcome_written(
    alloc: Global,
    credit: u32,
    outcome: &Result<SharedReport, u8>,
) -> Result<StoredResult, AllocError>
    ensures { IfOk result (λ row. CameTo (settled credit outcome.now) row) }
{
    match outcome {
        Ok(report) => {
            let report = report.get();
            if u64::from(report.spent) + u64::from(report.returned) != u64::from(credit) {
                return Ok(StoredResult::Failed(82));
            }
            Ok(StoredResult::Reported(report_written(alloc, report)?))
        }
        Err(code) => Ok(StoredResult::Failed(*code)),
    }
}
