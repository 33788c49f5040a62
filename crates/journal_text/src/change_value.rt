//! A change of a desk, and a key that a job has again, as a JSON value.

ghost use Rattle.std.specs.Prelude.{◌≡◌, IfOk, map};
ghost use Rattle.serde_json.specs.Data.{string};
ghost use Rattle.serde_json.specs.View.{view};
ghost use Rattle.sessions.specs.Replies.{task_data};
ghost use Rattle.journal_text.specs.ChangeData.{bytes_data, change_data, failed_data, finished_data, forgotten_data, granted_data, kept_data, kept_failure_data, kept_report_data, name_data, opened_data, skipped_data, submitted_data, submitted_program};
ghost use Rattle.journal_text.specs.KeyedData.{key_data, key_kept_data};

use credit_book::{Report, TaskEnd};
use desk_journal::DeskChange;
use job_core::ProgramBytes;
use serde_json::{Value, json};
use std::alloc::{AllocError, Global};

fn text_value(alloc: Global, text: &str) -> Result<Value, AllocError>
    ensures { IfOk result (λ v. view v ≡ string text.now) }
{
    let value = Value::String(String::from_str(alloc, text)?);
    Ok(value)
}

// Bytes that are no text.
fn bytes_value(alloc: Global, bytes: &[u8]) -> Result<Value, AllocError>
    ensures { IfOk result (λ v. view v ≡ bytes_data bytes.now) }
{
    let bytes = hex::encode(alloc, bytes)?;
    json!(in alloc; {"bytes": bytes.as_str()})
}

// A tenant's name or a job's key, or bytes that are none.
fn name_value(alloc: Global, name: &[u8]) -> Result<Value, AllocError>
    ensures { IfOk result (λ v. view v ≡ name_data name.now) }
{
    match str::from_utf8(name) {
        Ok(text) => text_value(alloc, text),
        Err(_) => bytes_value(alloc, name),
    }
}

#[tactic(auto, unfolding(crate::specs::ChangeData::submitted_program))]
fn program_value(alloc: Global, program: &ProgramBytes) -> Result<Value, AllocError>
    ensures { IfOk result (λ v. view v ≡ submitted_program program.now) }
{
    let code = hex::encode(alloc, &program.code)?;
    json!(in alloc; {"code": code.as_str(), "need": program.need})
}

fn program_values(alloc: Global, programs: &[ProgramBytes]) -> Result<Vec<Value>, AllocError>
    ensures { IfOk result (λ vs. map view vs.items ≡ map submitted_program programs.now) }
{
    let mut values = Vec::new(alloc);
    for program in programs {
        values.push(program_value(alloc, program)?)?;
    }
    Ok(values)
}

#[tactic(auto, unfolding(sessions::specs::Replies::task_data))]
fn task_value(alloc: Global, task: &TaskEnd) -> Result<Value, AllocError>
    ensures { IfOk result (λ v. view v ≡ task_data task.now) }
{
    json!(in alloc; {"number": task.number, "program": task.program, "r0": task.r0, "ran": task.ran, "rest": task.rest, "spent": task.spent})
}

fn task_values(alloc: Global, tasks: &[TaskEnd]) -> Result<Vec<Value>, AllocError>
    ensures { IfOk result (λ vs. map view vs.items ≡ map task_data tasks.now) }
{
    let mut values = Vec::new(alloc);
    for task in tasks {
        values.push(task_value(alloc, task)?)?;
    }
    Ok(values)
}

#[tactic(auto, unfolding(crate::specs::ChangeData::granted_data))]
fn granted_value(alloc: Global, at: u64, tenant: &[u8], amount: u32) -> Result<Value, AllocError>
    ensures { IfOk result (λ v. view v ≡ granted_data at tenant.now amount) }
{
    let tenant = name_value(alloc, tenant)?;
    json!(in alloc; {"amount": amount, "at": at, "change": "granted", "tenant": tenant})
}

#[tactic(auto, unfolding(crate::specs::ChangeData::submitted_data))]
fn submitted_value(
    alloc: Global,
    at: u64,
    job: u64,
    tenant: &[u8],
    programs: &[ProgramBytes],
    credit: u32,
    buffer: &[u8],
) -> Result<Value, AllocError>
    ensures { IfOk result (λ v. view v
        ≡ submitted_data at job tenant.now programs.now credit buffer.now) }
{
    let buffer = hex::encode(alloc, buffer)?;
    let programs = Value::Array(program_values(alloc, programs)?);
    let tenant = name_value(alloc, tenant)?;
    json!(in alloc; {"at": at, "buffer": buffer.as_str(), "change": "submitted", "credit": credit, "job": job, "programs": programs, "tenant": tenant})
}

#[tactic(auto, unfolding(crate::specs::ChangeData::finished_data))]
fn finished_value(alloc: Global, at: u64, job: u64, report: &Report) -> Result<Value, AllocError>
    ensures { IfOk result (λ v. view v ≡ finished_data at job report.now) }
{
    let buffer = hex::encode(alloc, &report.buffer)?;
    let tasks = Value::Array(task_values(alloc, &report.tasks)?);
    json!(in alloc; {"at": at, "buffer": buffer.as_str(), "change": "finished", "job": job, "returned": report.returned, "spent": report.spent, "tasks": tasks})
}

#[tactic(auto, unfolding(crate::specs::ChangeData::failed_data))]
fn failed_value(alloc: Global, at: u64, job: u64, code: u8) -> Result<Value, AllocError>
    ensures { IfOk result (λ v. view v ≡ failed_data at job code) }
{
    json!(in alloc; {"at": at, "change": "finished", "code": code, "job": job})
}

#[tactic(auto, unfolding(crate::specs::ChangeData::forgotten_data))]
fn forgotten_value(alloc: Global, at: u64, ahead: u64) -> Result<Value, AllocError>
    ensures { IfOk result (λ v. view v ≡ forgotten_data at ahead) }
{
    json!(in alloc; {"ahead": ahead, "at": at, "change": "forgotten"})
}

#[tactic(auto, unfolding(crate::specs::ChangeData::opened_data))]
fn opened_value(
    alloc: Global,
    at: u64,
    tenant: &[u8],
    granted: u64,
    spent: u64,
) -> Result<Value, AllocError>
    ensures { IfOk result (λ v. view v ≡ opened_data at tenant.now granted spent) }
{
    let tenant = name_value(alloc, tenant)?;
    json!(in alloc; {"at": at, "change": "account_opened", "granted": granted, "spent": spent, "tenant": tenant})
}

#[tactic(auto, unfolding(crate::specs::ChangeData::skipped_data))]
fn skipped_value(alloc: Global, at: u64, count: u64) -> Result<Value, AllocError>
    ensures { IfOk result (λ v. view v ≡ skipped_data at count) }
{
    json!(in alloc; {"at": at, "change": "jobs_skipped", "count": count})
}

#[tactic(auto, unfolding(crate::specs::ChangeData::kept_data))]
fn kept_value(alloc: Global, report: &Report) -> Result<Value, AllocError>
    ensures { IfOk result (λ v. view v ≡ kept_data report.now) }
{
    let buffer = hex::encode(alloc, &report.buffer)?;
    let tasks = Value::Array(task_values(alloc, &report.tasks)?);
    json!(in alloc; {"buffer": buffer.as_str(), "returned": report.returned, "spent": report.spent, "tasks": tasks})
}

#[tactic(auto, unfolding(crate::specs::ChangeData::kept_report_data))]
fn kept_report_value(
    alloc: Global,
    at: u64,
    job: u64,
    tenant: &[u8],
    credit: u32,
    report: &Report,
) -> Result<Value, AllocError>
    ensures { IfOk result (λ v. view v
        ≡ kept_report_data at job tenant.now credit report.now) }
{
    let report = kept_value(alloc, report)?;
    let tenant = name_value(alloc, tenant)?;
    json!(in alloc; {"at": at, "change": "report_kept", "credit": credit, "job": job, "report": report, "tenant": tenant})
}

#[tactic(auto, unfolding(crate::specs::ChangeData::kept_failure_data))]
fn kept_failure_value(
    alloc: Global,
    at: u64,
    job: u64,
    tenant: &[u8],
    credit: u32,
    code: u8,
) -> Result<Value, AllocError>
    ensures { IfOk result (λ v. view v ≡ kept_failure_data at job tenant.now credit code) }
{
    let tenant = name_value(alloc, tenant)?;
    json!(in alloc; {"at": at, "change": "failure_kept", "code": code, "credit": credit, "job": job, "tenant": tenant})
}

/// The change of the desk whose record begins at this byte; a job that it takes gets this number.
pub(crate) fn change_value(
    alloc: Global,
    at: u64,
    job: u64,
    change: &DeskChange,
) -> Result<Value, AllocError>
    ensures { IfOk result (λ v. view v ≡ change_data at job change.now) }
{
    match change {
        DeskChange::Granted { tenant, amount } => granted_value(alloc, at, tenant, *amount),
        DeskChange::Submitted {
            tenant,
            programs,
            credit,
            buffer,
        } => submitted_value(alloc, at, job, tenant, programs, *credit, buffer),
        DeskChange::Finished { job, report } => finished_value(alloc, at, *job, report),
        DeskChange::Failed { job, code } => failed_value(alloc, at, *job, *code),
        DeskChange::Forgotten { ahead } => forgotten_value(alloc, at, *ahead),
        DeskChange::AccountOpened {
            tenant,
            granted,
            spent,
        } => opened_value(alloc, at, tenant, *granted, *spent),
        DeskChange::JobsSkipped { count } => skipped_value(alloc, at, *count),
        DeskChange::ReportKept {
            tenant,
            credit,
            report,
        } => kept_report_value(alloc, at, job, tenant, *credit, report),
        DeskChange::FailureKept {
            tenant,
            credit,
            code,
        } => kept_failure_value(alloc, at, job, tenant, *credit, *code),
    }
}

/// An object with this key alone.
pub(crate) fn key_value(alloc: Global, key: &[u8]) -> Result<Value, AllocError>
    ensures { IfOk result (λ v. view v ≡ key_data key.now) }
{
    let key = name_value(alloc, key)?;
    json!(in alloc; {"key": key})
}

/// A job that has its key again.
#[tactic(auto, unfolding(crate::specs::KeyedData::key_kept_data))]
pub(crate) fn key_kept_value(
    alloc: Global,
    at: u64,
    job: u64,
    key: &[u8],
) -> Result<Value, AllocError>
    ensures { IfOk result (λ v. view v ≡ key_kept_data at job key.now) }
{
    let key = name_value(alloc, key)?;
    json!(in alloc; {"at": at, "change": "key_kept", "job": job, "key": key})
}
