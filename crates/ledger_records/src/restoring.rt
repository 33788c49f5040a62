//! Desks that are put together from their records.

ghost use Rattle.std.specs.Prelude.{◌≡◌, ◌≢◌, ◌⊎◌, ◌+◌, ℕ, IfOk, OnOk, length, option_map};
ghost use Rattle.accounts.specs.Ledgers.{Takes};
ghost use Rattle.accounts.specs.Restoring.{AddsGone, OpensAccount, Recalls};
ghost use Rattle.accounts.specs.declared.jobs.JobStanding.{JobStanding};
ghost use Rattle.accounts.specs.declared.jobs.JobStanding.TheVariants.{Reported};
ghost use Rattle.desk_records.specs.Stored.{AreNarrow};
ghost use Rattle.desk_records.specs.declared.stored_outcome.StoredResult.TheVariants.{Reported as StoredReported};
ghost use Rattle.desk_journal.specs.Changes.{program_bytes};
ghost use Rattle.desk_journal.specs.Encodings.{list_bytes};
ghost use Rattle.ledger_records.specs.LedgerRecords.{CameTo};
ghost use Rattle.ledger_records.specs.SoFar.{GoesPastRow, HasAccounts, IsAdmittedAs, IsSoFar, PutsRow, SplitsOutcome};

use crate::restored_job::RestoredJob;
use accounts::{Desk, JobStanding, KeptReport, RestoreFault, SubmitFault};
use credit_book::{Report, TaskEnd};
use desk_journal::{ReadFault, read_whole};
use desk_records::{
    StoredJob, StoredOutcome, StoredRecords, StoredReport, StoredResult, StoredTenant, row_id,
};
use desk_store::{LoadFault, StoreTable};
use job_core::{AdmitFault, ProgramBytes};
use sqlite_trees::error::StoreError;
use std::alloc::Global;

/// Memory is wanting.
pub(crate) const NO_MEMORY: LoadFault = LoadFault::Store(StoreError::OutOfMemory);

/// Tells a row of a job as damage.
pub(crate) fn damaged(table: StoreTable, desk: u16, number: u64) -> LoadFault {
    LoadFault::Damaged(table, row_id(desk, number).unwrap_or(0))
}

// Opens the account of a tenant's row, where it is a row of the desk.
fn open_account(
    alloc: Global,
    desk: &mut Desk,
    number: u16,
    row: &StoredTenant,
) -> Result<(), LoadFault>
    ensures { OnOk result (((row.now.desk ≢ number) × (desk.new ≡ desk.old))
        ⊎ ((row.now.desk ≡ number)
        × OpensAccount desk.old row.now.name row.now.granted row.now.spent desk.new)) }
{
    if row.desk != number {
        return Ok(());
    }
    let wrong = LoadFault::Damaged(StoreTable::Tenant, i64::from(row.number));
    let Ok(name) = str::from_utf8(row.name.as_slice()) else {
        return Err(wrong);
    };
    match desk.open_account(alloc, name, row.granted, row.spent) {
        Ok(()) => Ok(()),
        Err(RestoreFault::NoMemory) => Err(NO_MEMORY),
        Err(_) => Err(wrong),
    }
}

// A desk with the accounts of the tenants' rows that are its own.
pub(crate) fn open_accounts(
    alloc: Global,
    number: u16,
    tenants: &[StoredTenant],
) -> Result<Desk, LoadFault>
    ensures { IfOk result (HasAccounts number tenants.now) }
{
    let mut desk = Desk::new(alloc);
    for row in tenants {
        open_account(alloc, &mut desk, number, row)?;
    }
    Ok(desk)
}

// The report that a row has.
fn report_of(alloc: Global, row: &StoredReport) -> Result<Report, ReadFault>
    ensures { IfOk result (λ report. CameTo (Reported report) (StoredReported row.now)) }
{
    let tasks = read_whole::<Vec<TaskEnd>>(alloc, row.tasks.as_slice())?;
    Ok(Report {
        spent: row.spent,
        returned: row.returned,
        buffer: Vec::from_slice(alloc, row.buffer.as_slice())?,
        tasks,
    })
}

// The standing of a job that came to this.
fn standing_of(alloc: Global, told: &StoredResult) -> Result<JobStanding, ReadFault>
    ensures { IfOk result (λ standing. CameTo standing told.now) }
{
    match told {
        StoredResult::Failed(code) => Ok(JobStanding::Failed(*code)),
        StoredResult::Reported(row) => match report_of(alloc, row) {
            Ok(report) => Ok(JobStanding::Reported(KeptReport::new(report))),
            Err(fault) => Err(fault),
        },
    }
}

// Puts the job of a row behind the others, which came to this.
fn put_over(
    alloc: Global,
    desk: &mut Desk,
    row: &StoredJob,
    outcome: &StoredOutcome,
) -> Result<(), LoadFault>
    ensures { OnOk result ((standing : JobStanding) × CameTo standing outcome.now.outcome
        × Recalls desk.old row.now.tenant row.now.credit standing desk.new) }
{
    let standing = match standing_of(alloc, &outcome.outcome) {
        Ok(standing) => standing,
        Err(ReadFault::NoMemory) => return Err(NO_MEMORY),
        Err(ReadFault::NoValue) => {
            return Err(damaged(StoreTable::Outcome, row.desk, row.number));
        }
    };
    let Ok(name) = str::from_utf8(row.tenant.as_slice()) else {
        return Err(damaged(StoreTable::Job, row.desk, row.number));
    };
    match desk.recall(alloc, name, row.credit, standing) {
        Ok(()) => Ok(()),
        Err(RestoreFault::NoMemory) => Err(NO_MEMORY),
        Err(_) => Err(damaged(StoreTable::Job, row.desk, row.number)),
    }
}

// The programs of a row.
fn programs_of(alloc: Global, row: &StoredJob) -> Result<Vec<ProgramBytes>, LoadFault>
    ensures { IfOk result (λ programs.
        list_bytes program_bytes programs.items ≡ row.now.programs) }
{
    match read_whole::<Vec<ProgramBytes>>(alloc, row.programs.as_slice()) {
        Ok(programs) => Ok(programs),
        Err(ReadFault::NoMemory) => Err(NO_MEMORY),
        Err(ReadFault::NoValue) => Err(damaged(StoreTable::Job, row.desk, row.number)),
    }
}

// Puts the job of a row behind the others, which is open.
fn put_open(alloc: Global, desk: &mut Desk, row: &StoredJob) -> Result<RestoredJob, LoadFault>
    ensures job { IfOk result (IsAdmittedAs row.now) }
    ensures takes { OnOk result (Takes desk.old row.now.tenant row.now.credit desk.new) }
{
    let programs = programs_of(alloc, row)?;
    let Ok(name) = str::from_utf8(row.tenant.as_slice()) else {
        return Err(damaged(StoreTable::Job, row.desk, row.number));
    };
    let buffer = Vec::from_slice(alloc, row.buffer.as_slice())?;
    match desk.submit(alloc, name, &programs, row.credit, buffer) {
        Ok((_, job)) => Ok(RestoredJob {
            number: row.number,
            job,
        }),
        Err(SubmitFault::Admit(AdmitFault::NoMemory)) => Err(NO_MEMORY),
        Err(_) => Err(damaged(StoreTable::Job, row.desk, row.number)),
    }
}

// Adds forgotten jobs, so that the job of a row is the next one.
fn skip_to(desk: &mut Desk, row: &StoredJob) -> Result<(), LoadFault>
    ensures { OnOk result ((count : ℕ) × AddsGone desk.old count desk.new
        × (length desk.old.jobs + count + 1 ≡ row.now.number)) }
{
    let count = desk.job_count();
    if row.number <= count {
        return Err(damaged(StoreTable::Job, row.desk, row.number));
    }
    match desk.add_gone(row.number - 1 - count) {
        Ok(()) => Ok(()),
        Err(_) => Err(damaged(StoreTable::Job, row.desk, row.number)),
    }
}

// Puts the job of a row behind the others, with its outcome, if it has one.
fn put_row(
    alloc: Global,
    desk: &mut Desk,
    open_jobs: &mut Vec<RestoredJob>,
    row: &StoredJob,
    outcome: Option<&StoredOutcome>,
) -> Result<(), LoadFault>
    ensures { OnOk result (PutsRow row.now (option_map (λ o. o.now) outcome.entry) desk.old
        open_jobs.old.items desk.new open_jobs.new.items) }
{
    skip_to(desk, row)?;
    match outcome {
        Some(outcome) => put_over(alloc, desk, row, outcome),
        None => {
            open_jobs.reserve(1)?;
            let job = put_open(alloc, desk, row)?;
            open_jobs.push_reserved(job);
            Ok(())
        }
    }
}

// The same where the row is one of the desk. Any other is passed over.
fn restore_row(
    alloc: Global,
    number: u16,
    desk: &mut Desk,
    open_jobs: &mut Vec<RestoredJob>,
    row: &StoredJob,
    outcome: Option<&StoredOutcome>,
) -> Result<(), LoadFault>
    ensures { OnOk result (GoesPastRow number row.now (option_map (λ o. o.now) outcome.entry)
        desk.old open_jobs.old.items desk.new open_jobs.new.items) }
{
    if row.desk != number {
        return Ok(());
    }
    put_row(alloc, desk, open_jobs, row, outcome)
}

// The first of these outcomes, where it is that of the row's job, and the others.
fn split_outcome<'a>(
    row: &StoredJob,
    outcomes: &'a [StoredOutcome],
) -> (Option<&'a StoredOutcome>, &'a [StoredOutcome])
    ensures { SplitsOutcome row.now outcomes.now (option_map (λ o. o.now) result.0) result.1.now }
{
    let Some((outcome, others)) = outcomes.split_first() else {
        return (None, outcomes);
    };
    if outcome.desk != row.desk {
        return (None, outcomes);
    }
    if outcome.number != row.number {
        return (None, outcomes);
    }
    (Some(outcome), others)
}

/// The ledger of a desk, and its open jobs, from the rows of all desks.
pub(crate) fn restore_ledger(
    alloc: Global,
    number: u16,
    records: &StoredRecords,
) -> Result<(Desk, Vec<RestoredJob>), LoadFault>
    requires { AreNarrow records.now }
    ensures { IfOk result (λ r. IsSoFar number records.now.tenants records.now.jobs
        records.now.outcomes r.0 r.1.items) }
{
    let mut desk = open_accounts(alloc, number, records.tenants.as_slice())?;
    let mut open_jobs = Vec::new(alloc);
    let mut rows = records.jobs.as_slice();
    let mut outcomes = records.outcomes.as_slice();
    'rows: while let Some((row, others)) = rows.split_first() {
        let (outcome, behind) = split_outcome(row, outcomes);
        restore_row(alloc, number, &mut desk, &mut open_jobs, row, outcome)?;
        rows = others;
        outcomes = behind;
    }
    match outcomes.split_first() {
        Some((left, _)) => Err(damaged(StoreTable::Outcome, left.desk, left.number)),
        None => Ok((desk, open_jobs)),
    }
}
