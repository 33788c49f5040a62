//! The record of each change, made from what is there before the change.

ghost use Rattle.std.specs.Prelude.{◌≡◌, ℕ, Err, IfOk, IsErrOf, Ok, option_map, true, Vec};
ghost use Rattle.std.specs.declared.alloc.Global.{Global};
ghost use Rattle.credit_book.specs.declared.book.Report.{Report};
ghost use Rattle.desk_journal.specs.DeskChanges.{change_bytes};
ghost use Rattle.desk_journal.specs.declared.change.DeskChange.TheVariants.{Finished, Granted, Submitted};
ghost use Rattle.desk_recorder.specs.Recording.{IsEndRecord, IsForgettingRecord, IsGrantRecord, IsRecordWith, IsSubmitRecord, payload_by};
ghost use Rattle.journal.specs.Records.{FitsRecord};
ghost use Rattle.keyed_desk.specs.KeyedChanges.{by_key_bytes};
ghost use Rattle.recovery.specs.declared.fault.RecordFault.TheVariants.{TooLarge};
ghost use Rattle.sessions.specs.Grammar.{is_job_key};

use credit_book::Report;
use desk_journal::DeskChange;
use job_core::ProgramBytes;
use keyed_desk::KeyedChange;
use recovery::{RecordFault, record_bytes};
use sessions::JobKey;
use std::alloc::Global;

/// The record of a grant.
pub fn grant_record(alloc: Global, tenant: &str, amount: u32) -> Result<Vec<u8>, RecordFault>
    ensures record { IfOk result (λ bytes. IsGrantRecord bytes.items tenant.now amount) }
    ensures too_large { IsErrOf result TooLarge → (name : Vec ℕ Global) → name.items ≡ tenant.now
        → FitsRecord (change_bytes (Granted name amount)) → ⊥ }
{
    let Ok(tenant) = tenant.as_bytes().to_vec(alloc) else {
        return Err(RecordFault::NoMemory);
    };
    record_bytes(alloc, &DeskChange::Granted { tenant, amount })
}

// The record of a change by a key.
fn record_by_key(alloc: Global, key: &JobKey, change: DeskChange) -> Result<Vec<u8>, RecordFault>
    ensures record { IfOk result
        (λ bytes. IsRecordWith (by_key_bytes key.now (change_bytes change)) bytes.items) }
    ensures key { is_job_key key.now ≡ true }
    ensures too_large { IsErrOf result TooLarge
        → FitsRecord (by_key_bytes key.now (change_bytes change)) → ⊥ }
{
    let Ok(key) = key.as_str().as_bytes().to_vec(alloc) else {
        return Err(RecordFault::NoMemory);
    };
    record_bytes(alloc, &KeyedChange::ByKey { key, change })
}

/// The record of a job that is taken, with the key that it came by.
pub fn submit_record(
    alloc: Global,
    key: Option<&JobKey>,
    tenant: &str,
    programs: Vec<ProgramBytes>,
    credit: u32,
    buffer: Vec<u8>,
) -> Result<Vec<u8>, RecordFault>
    ensures record { IfOk result (λ bytes. IsSubmitRecord bytes.items
        (option_map (λ k. k.now) key.entry) tenant.now programs.items credit buffer.items) }
    ensures too_large { IsErrOf result TooLarge → (name : Vec ℕ Global) → name.items ≡ tenant.now
        → FitsRecord (payload_by (option_map (λ k. k.now) key.entry)
        (change_bytes (Submitted name programs credit buffer))) → ⊥ }
{
    let Ok(tenant) = tenant.as_bytes().to_vec(alloc) else {
        return Err(RecordFault::NoMemory);
    };
    let change = DeskChange::Submitted {
        tenant,
        programs,
        credit,
        buffer,
    };
    match key {
        Some(key) => record_by_key(alloc, key, change),
        None => record_bytes(alloc, &change),
    }
}

// The record of an open job's report, and the report, which isn't copied. (The proof's borrow checker
// wants each arm to take its variant's parts.)
fn report_record(alloc: Global, job: u64, report: Report) -> (Result<Vec<u8>, RecordFault>, Report)
    ensures record { IfOk result.0 (λ bytes. IsEndRecord bytes.items job (Ok report)) }
    ensures same { result.1 ≡ report }
    ensures too_large { IsErrOf result.0 TooLarge
        → FitsRecord (change_bytes (Finished job report)) → ⊥ }
{
    let change = DeskChange::Finished { job, report };
    let record = record_bytes(alloc, &change);
    match change {
        DeskChange::Finished { job: _job, report } => (record, report),
        DeskChange::Granted {
            tenant: _tenant,
            amount: _amount,
        } => unreachable!(),
        DeskChange::Submitted {
            tenant: _tenant,
            programs: _programs,
            credit: _credit,
            buffer: _buffer,
        } => unreachable!(),
        DeskChange::Failed {
            job: _job,
            code: _code,
        } => unreachable!(),
        DeskChange::Forgotten { ahead: _ahead } => unreachable!(),
        DeskChange::AccountOpened {
            tenant: _tenant,
            granted: _granted,
            spent: _spent,
        } => unreachable!(),
        DeskChange::JobsSkipped { count: _count } => unreachable!(),
        DeskChange::ReportKept {
            tenant: _tenant,
            credit: _credit,
            report: _report,
        } => unreachable!(),
        DeskChange::FailureKept {
            tenant: _tenant,
            credit: _credit,
            code: _code,
        } => unreachable!(),
    }
}

/// The record of an open job's failure.
pub fn failure_record(alloc: Global, job: u64, code: u8) -> Result<Vec<u8>, RecordFault>
    ensures record { IfOk result (λ bytes. IsEndRecord bytes.items job (Err code)) }
    ensures small { IsErrOf result TooLarge → ⊥ }
{
    record_bytes(alloc, &DeskChange::Failed { job, code })
}

/// The record of an open job's end, and what the job came to.
pub fn end_record(
    alloc: Global,
    job: u64,
    outcome: Result<Report, u8>,
) -> (Result<Vec<u8>, RecordFault>, Result<Report, u8>)
    ensures record { IfOk result.0 (λ bytes. IsEndRecord bytes.items job outcome) }
    ensures same { result.1 ≡ outcome }
    ensures too_large { IsErrOf result.0 TooLarge → (report : Report) × (outcome ≡ Ok report)
        × (FitsRecord (change_bytes (Finished job report)) → ⊥) }
{
    match outcome {
        Ok(report) => {
            let (record, report) = report_record(alloc, job, report);
            (record, Ok(report))
        }
        Err(code) => (failure_record(alloc, job, code), Err(code)),
    }
}

/// The record of what a desk forgets: of the first so many jobs, those that are over.
pub fn forgetting_record(alloc: Global, ahead: u64) -> Result<Vec<u8>, RecordFault>
    ensures record { IfOk result (λ bytes. IsForgettingRecord bytes.items ahead) }
    ensures small { IsErrOf result TooLarge → ⊥ }
{
    record_bytes(alloc, &DeskChange::Forgotten { ahead })
}
