//! The JSON of a request to a server, its frame, and the status by the reply.

ghost use Rattle.std.specs.Prelude.{◌≡◌, ◌≤◌, ◌<◌, ◌⊎◌, IfErr, IfOk, None, Some, length, map, option_map, string_bytes};
ghost use Rattle.serde_json.specs.Data.{Data};
ghost use Rattle.serde_json.specs.View.{view};
ghost use Rattle.serde_json.specs.Written.{compact_text};
ghost use Rattle.sessions.specs.Frames.{framed, longest_payload};
ghost use Rattle.sessions.specs.declared.fault.SessionFault.TheVariants as session_fault;
ghost use Rattle.bpfjobs_cli.specs.declared.ask.ServerQuestion.TheVariants as question_of;
ghost use Rattle.bpfjobs_cli.specs.AskRequests.{IsDeclinedBy, IsReplyStatus, IsRequestData, IsRequestFault, account_request, asked_program, grant_request, job_request, jobs_request, said_ok, server_request, submit_request};

use crate::ask::ServerQuestion;
use job_core::ProgramBytes;
use refusal::NoMemory;
use serde_json::{Category, Value, json};
use sessions::{JobObject, SessionFault, job_object};
use std::alloc::{AllocError, Global};

// The longest text that a server takes.
const LONGEST_REQUEST: usize = 1_048_576;

#[tactic(auto, unfolding(crate::specs::AskRequests::account_request))]
fn account_value(alloc: Global, tenant: &Option<String>) -> Result<Value, AllocError>
    ensures { IfOk result (λ v. view v ≡ account_request (option_map string_bytes tenant.now)) }
{
    match tenant {
        Some(tenant) => json!(in alloc; {"op": "account", "tenant": tenant.as_str()}),
        None => json!(in alloc; {"op": "account"}),
    }
}

/// The value of a program.
#[tactic(auto, unfolding(crate::specs::AskRequests::asked_program))]
pub(crate) fn program_value(alloc: Global, program: &ProgramBytes) -> Result<Value, AllocError>
    ensures { IfOk result (λ v. view v ≡ asked_program program.now) }
{
    let code = hex::encode(alloc, &program.code)?;
    json!(in alloc; {"code": code.as_str(), "need": program.need})
}

fn program_values(alloc: Global, programs: &[ProgramBytes]) -> Result<Vec<Value>, AllocError>
    ensures { IfOk result (λ vs. map view vs.items ≡ map asked_program programs.now) }
{
    let mut values = Vec::new(alloc);
    for program in programs {
        values.push(program_value(alloc, program)?)?;
    }
    Ok(values)
}

#[tactic(auto, unfolding(crate::specs::AskRequests::submit_request))]
fn own_submit_value(alloc: Global, job: &JobObject) -> Result<Value, AllocError>
    ensures { IfOk result (λ v. view v ≡ submit_request None None job.now) }
{
    let buffer = hex::encode(alloc, &job.buffer)?;
    let programs = Value::Array(program_values(alloc, &job.programs)?);
    json!(in alloc; {"buffer": buffer.as_str(), "credit": job.credit, "op": "submit", "programs": programs})
}

#[tactic(auto, unfolding(crate::specs::AskRequests::submit_request))]
fn own_keyed_value(alloc: Global, key: &str, job: &JobObject) -> Result<Value, AllocError>
    ensures { IfOk result (λ v. view v ≡ submit_request None (Some key.now) job.now) }
{
    let buffer = hex::encode(alloc, &job.buffer)?;
    let programs = Value::Array(program_values(alloc, &job.programs)?);
    json!(in alloc; {"buffer": buffer.as_str(), "credit": job.credit, "key": key, "op": "submit", "programs": programs})
}

#[tactic(auto, unfolding(crate::specs::AskRequests::submit_request))]
fn tenant_submit_value(alloc: Global, tenant: &str, job: &JobObject) -> Result<Value, AllocError>
    ensures { IfOk result (λ v. view v ≡ submit_request (Some tenant.now) None job.now) }
{
    let buffer = hex::encode(alloc, &job.buffer)?;
    let programs = Value::Array(program_values(alloc, &job.programs)?);
    json!(in alloc; {"buffer": buffer.as_str(), "credit": job.credit, "op": "submit", "programs": programs, "tenant": tenant})
}

#[tactic(auto, unfolding(crate::specs::AskRequests::submit_request))]
fn tenant_keyed_value(
    alloc: Global,
    tenant: &str,
    key: &str,
    job: &JobObject,
) -> Result<Value, AllocError>
    ensures { IfOk result (λ v. view v ≡ submit_request (Some tenant.now) (Some key.now) job.now) }
{
    let buffer = hex::encode(alloc, &job.buffer)?;
    let programs = Value::Array(program_values(alloc, &job.programs)?);
    json!(in alloc; {"buffer": buffer.as_str(), "credit": job.credit, "key": key, "op": "submit", "programs": programs, "tenant": tenant})
}

fn submit_value(
    alloc: Global,
    tenant: &Option<String>,
    key: &Option<String>,
    job: &JobObject,
) -> Result<Value, AllocError>
    ensures { IfOk result (λ v. view v ≡ submit_request (option_map string_bytes tenant.now)
        (option_map string_bytes key.now) job.now) }
{
    match tenant {
        Some(tenant) => match key {
            Some(key) => tenant_keyed_value(alloc, tenant, key, job),
            None => tenant_submit_value(alloc, tenant, job),
        },
        None => match key {
            Some(key) => own_keyed_value(alloc, key, job),
            None => own_submit_value(alloc, job),
        },
    }
}

#[tactic(auto, unfolding(crate::specs::AskRequests::job_request))]
fn job_value(alloc: Global, op: &str, job: u64) -> Result<Value, AllocError>
    ensures { IfOk result (λ v. view v ≡ job_request op.now job) }
{
    json!(in alloc; {"job": job, "op": op})
}

#[tactic(auto, unfolding(crate::specs::AskRequests::jobs_request))]
fn jobs_value(alloc: Global, from: Option<u64>) -> Result<Value, AllocError>
    ensures { IfOk result (λ v. view v ≡ jobs_request from) }
{
    match from {
        Some(from) => json!(in alloc; {"from": from, "op": "jobs"}),
        None => json!(in alloc; {"op": "jobs"}),
    }
}

#[tactic(auto, unfolding(crate::specs::AskRequests::grant_request))]
fn grant_value(alloc: Global, tenant: &str, amount: u32) -> Result<Value, AllocError>
    ensures { IfOk result (λ v. view v ≡ grant_request tenant.now amount) }
{
    json!(in alloc; {"amount": amount, "op": "grant", "tenant": tenant})
}

#[tactic(auto, unfolding(crate::specs::AskRequests::server_request))]
fn server_value(alloc: Global, op: &str) -> Result<Value, AllocError>
    ensures { IfOk result (λ v. view v ≡ server_request op.now) }
{
    json!(in alloc; {"op": op})
}

// The submit of the job that the input says.
fn submit_of_input(
    alloc: Global,
    tenant: &Option<String>,
    key: &Option<String>,
    input: &[u8],
) -> Result<Value, SessionFault>
    ensures ok { IfOk result (λ v.
        IsRequestData (question_of.Submit tenant.now key.now) input.now (view v)) }
    ensures err { IfErr result (λ fault. IsDeclinedBy input.now fault) }
{
    let job = match job_object(alloc, input, false) {
        Ok(job) => job,
        Err(fault) => return Err(fault),
    };
    match submit_value(alloc, tenant, key, &job) {
        Ok(value) => Ok(value),
        Err(_) => Err(SessionFault::NoMemory),
    }
}

fn request_value(
    alloc: Global,
    question: &ServerQuestion,
    input: &[u8],
) -> Result<Value, SessionFault>
    ensures ok { IfOk result (λ v. IsRequestData question.now input.now (view v)) }
    ensures err { IfErr result (λ fault. IsRequestFault question.now input.now fault) }
{
    let value = match question {
        ServerQuestion::Account { tenant } => account_value(alloc, tenant),
        ServerQuestion::Submit { tenant, key } => return submit_of_input(alloc, tenant, key, input),
        ServerQuestion::Status { job } => job_value(alloc, "status", *job),
        ServerQuestion::Result { job } => job_value(alloc, "result", *job),
        ServerQuestion::Jobs { from } => jobs_value(alloc, *from),
        ServerQuestion::Grant { tenant, amount } => grant_value(alloc, tenant, *amount),
        ServerQuestion::Server => server_value(alloc, "server"),
        ServerQuestion::Stop => server_value(alloc, "stop"),
    };
    match value {
        Ok(value) => Ok(value),
        Err(_) => Err(SessionFault::NoMemory),
    }
}

/// The JSON of a request: compact, with its members in ascending order of their names. A submit is of
/// the job object that the input says. Input that is none is refused by 72 or 73, and want of memory
/// is 99.
pub fn ask_request(
    alloc: Global,
    question: &ServerQuestion,
    input: &[u8],
) -> Result<Vec<u8>, SessionFault>
    ensures ok { IfOk result (λ text. (d : Data) × IsRequestData question.now input.now d
        × (text.items ≡ compact_text d)) }
    ensures err { IfErr result (λ fault. IsRequestFault question.now input.now fault) }
{
    let value = match request_value(alloc, question, input) {
        Ok(value) => value,
        Err(fault) => return Err(fault),
    };
    match value.to_vec(alloc) {
        Ok(text) => Ok(text),
        Err(_) => Err(SessionFault::NoMemory),
    }
}

/// A request's text behind its length. One of over 1,048,576 bytes is refused by 71, as by a server.
pub fn ask_frame(alloc: Global, text: &[u8]) -> Result<Vec<u8>, SessionFault>
    ensures ok { IfOk result (λ frame. (length text.now ≤ longest_payload)
        × (frame.items ≡ framed text.now)) }
    ensures err { IfErr result (λ fault. (fault ≡ session_fault.NoMemory)
        ⊎ ((fault ≡ session_fault.FrameTooLarge) × (longest_payload < length text.now))) }
{
    if text.len() > LONGEST_REQUEST {
        return Err(SessionFault::FrameTooLarge);
    }
    let mut frame = Vec::new(alloc);
    frame.extend_from_slice(&(text.len() as u32).to_be_bytes())?;
    frame.extend_from_slice(text)?;
    Ok(frame)
}

// Whether a reply is no refusal, if it says so.
fn said_ok(reply: &Value) -> Option<bool>
    ensures { result ≡ said_ok (view reply.now) }
{
    reply.get("ok").and_then(Value::as_bool)
}

/// The status by a reply: 0 where it is ok, 1 where it is a refusal; none where it is no reply.
pub fn reply_status(alloc: Global, reply: &[u8]) -> Result<Option<u8>, NoMemory>
    ensures { IfOk result (λ status. IsReplyStatus reply.now status) }
{
    let value = match Value::from_slice(alloc, reply) {
        Ok(value) => value,
        Err(e) if e.classify() == Category::Memory => return Err(NoMemory),
        Err(_) => return Ok(None),
    };
    match said_ok(&value) {
        Some(ok) => Ok(Some(if ok { 0 } else { 1 })),
        None => Ok(None),
    }
}
