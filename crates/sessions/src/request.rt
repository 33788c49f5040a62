//! Requests, and the JSON that says them.

ghost use Rattle.std.specs.Prelude.{◌≡◌, ◌≢◌, Some, None, IfOk, IfErr, map};
ghost use Rattle.serde_json.specs.View.{view};
ghost use Rattle.sessions.specs.Grammar.{program_from, programs_at, numbers_at, status_from, result_from, job_from, request_asked, job_asked, program_asked, object_from, object_asked};
ghost use Rattle.sessions.specs.Answers.{PayloadAnswer, ObjectAnswer};
ghost use Rattle.sessions.specs.OwnNames.{PayloadAnswerBy, account_by, form_by, grant_by, request_by, submit_by};
ghost use Rattle.sessions.specs.declared.fault.SessionFault.TheVariants.{BadRequest, NoMemory};

use crate::fault::SessionFault;
use crate::member::{
    bytes_member, list_member, number_member, number_of, tenant_member, text_member,
};
use crate::tenant_key::TenantKey;
use job_core::ProgramBytes;
use serde_json::{Category, Value};
use std::alloc::Global;

const MOST_IN_A_GRANT: u64 = 2_147_483_647;

const U32_MAX: u64 = 4_294_967_295;

/// What a tenant, or who runs the server, asks. A tenant's name has 1 to 32 of `a` to `z`, `0` to
/// `9`, `_` and `-`.
#[derive(Drop)]
pub enum Request {
    /// Credit for a tenant: 1 to 2,147,483,647.
    Grant {
        tenant: String,
        amount: u32,
    },
    /// What a tenant was granted, has open and has spent.
    Account {
        tenant: String,
    },
    /// A job of a tenant: its programs, of which number 0 is the root's, its credit and its buffer.
    Submit {
        tenant: String,
        programs: Vec<ProgramBytes>,
        credit: u32,
        buffer: Vec<u8>,
    },
    /// How far a job is.
    Status {
        job: u64,
    },
    /// What a job came to.
    Result {
        job: u64,
    },
}

// A job as it comes.
#[derive(Drop)]
struct JobText {
    programs: Vec<ProgramBytes>,
    credit: u32,
    buffer: Vec<u8>,
}

/// A job as a text says it, with the order of its steps where it has one.
#[derive(Drop)]
pub struct JobObject {
    pub programs: Vec<ProgramBytes>,
    pub credit: u32,
    pub buffer: Vec<u8>,
    /// Numbers of tasks, in order.
    pub schedule: Vec<u32>,
}

#[tactic(auto, unfolding(crate::specs::Grammar::program_from))]
fn read_program(alloc: Global, value: &Value) -> Result<ProgramBytes, SessionFault>
    ensures ok { IfOk result (λ p. program_from (view value.now) ≡ Some (program_asked p)) }
    ensures err { IfErr result (λ e. (e ≢ NoMemory) → (e ≡ BadRequest)
        × (program_from (view value.now) ≡ None)) }
{
    let Some(need) = number_member(value, "need", 0, U32_MAX) else {
        return Err(SessionFault::BadRequest);
    };
    let code = bytes_member(alloc, value, "code")?;
    Ok(ProgramBytes {
        need: need as u32,
        code,
    })
}

#[tactic(auto, unfolding(crate::specs::Grammar::programs_at))]
fn read_programs(alloc: Global, value: &Value) -> Result<Vec<ProgramBytes>, SessionFault>
    ensures ok { IfOk result (λ ps. programs_at (view value.now)
        ≡ Some (map program_asked ps.items)) }
    ensures err { IfErr result (λ e. (e ≢ NoMemory) → (e ≡ BadRequest)
        × (programs_at (view value.now) ≡ None)) }
{
    let Some(items) = list_member(value, "programs") else {
        return Err(SessionFault::BadRequest);
    };
    let mut programs = Vec::new(alloc);
    for item in items {
        let program = read_program(alloc, item)?;
        programs.push(program)?;
    }
    Ok(programs)
}

// The job that an object says.
#[tactic(auto, unfolding(crate::specs::Grammar::job_from))]
fn read_job(alloc: Global, value: &Value) -> Result<JobText, SessionFault>
    ensures ok { IfOk result (λ o. job_from (view value.now) ≡ Some (job_asked o)) }
    ensures err { IfErr result (λ e. (e ≢ NoMemory) → (e ≡ BadRequest)
        × (job_from (view value.now) ≡ None)) }
{
    let Some(credit) = number_member(value, "credit", 0, U32_MAX) else {
        return Err(SessionFault::BadRequest);
    };
    let buffer = bytes_member(alloc, value, "buffer")?;
    let programs = read_programs(alloc, value)?;
    Ok(JobText {
        programs,
        credit: credit as u32,
        buffer,
    })
}

#[tactic(auto, unfolding(crate::specs::Grammar::numbers_at))]
fn read_schedule(alloc: Global, value: &Value) -> Result<Vec<u32>, SessionFault>
    ensures ok { IfOk result (λ ns. numbers_at (view value.now) ≡ Some ns.items) }
    ensures err { IfErr result (λ e. (e ≢ NoMemory) → (e ≡ BadRequest)
        × (numbers_at (view value.now) ≡ None)) }
{
    let Some(items) = list_member(value, "schedule") else {
        return Err(SessionFault::BadRequest);
    };
    let mut schedule = Vec::new(alloc);
    for item in items {
        let Some(number) = number_of(item, 0, U32_MAX) else {
            return Err(SessionFault::BadRequest);
        };
        schedule.push(number as u32)?;
    }
    Ok(schedule)
}

#[tactic(auto, unfolding(crate::specs::OwnNames::grant_by))]
fn read_grant(alloc: Global, value: &Value, key: TenantKey) -> Result<Request, SessionFault>
    ensures ok { IfOk result (λ r. grant_by key (view value.now) ≡ Some (request_asked r)) }
    ensures err { IfErr result (λ e. (e ≢ NoMemory) → (e ≡ BadRequest)
        × (grant_by key (view value.now) ≡ None)) }
{
    let Some(tenant) = tenant_member(value, key) else {
        return Err(SessionFault::BadRequest);
    };
    let Some(amount) = number_member(value, "amount", 1, MOST_IN_A_GRANT) else {
        return Err(SessionFault::BadRequest);
    };
    Ok(Request::Grant {
        tenant: String::from_str(alloc, tenant)?,
        amount: amount as u32,
    })
}

#[tactic(auto, unfolding(crate::specs::OwnNames::account_by))]
fn read_account(alloc: Global, value: &Value, key: TenantKey) -> Result<Request, SessionFault>
    ensures ok { IfOk result (λ r. account_by key (view value.now) ≡ Some (request_asked r)) }
    ensures err { IfErr result (λ e. (e ≢ NoMemory) → (e ≡ BadRequest)
        × (account_by key (view value.now) ≡ None)) }
{
    let Some(tenant) = tenant_member(value, key) else {
        return Err(SessionFault::BadRequest);
    };
    Ok(Request::Account {
        tenant: String::from_str(alloc, tenant)?,
    })
}

#[tactic(auto, unfolding(crate::specs::Grammar::status_from))]
fn read_status(value: &Value) -> Result<Request, SessionFault>
    ensures ok { IfOk result (λ r. status_from (view value.now) ≡ Some (request_asked r)) }
    ensures err { IfErr result (λ e. (e ≡ BadRequest) × (status_from (view value.now) ≡ None)) }
{
    match number_member(value, "job", 0, u64::MAX) {
        Some(job) => Ok(Request::Status { job }),
        None => Err(SessionFault::BadRequest),
    }
}

#[tactic(auto, unfolding(crate::specs::OwnNames::submit_by))]
fn read_submit(alloc: Global, value: &Value, key: TenantKey) -> Result<Request, SessionFault>
    ensures ok { IfOk result (λ r. submit_by key (view value.now) ≡ Some (request_asked r)) }
    ensures err { IfErr result (λ e. (e ≢ NoMemory) → (e ≡ BadRequest)
        × (submit_by key (view value.now) ≡ None)) }
{
    let Some(tenant) = tenant_member(value, key) else {
        return Err(SessionFault::BadRequest);
    };
    let JobText {
        programs,
        credit,
        buffer,
    } = read_job(alloc, value)?;
    Ok(Request::Submit {
        tenant: String::from_str(alloc, tenant)?,
        programs,
        credit,
        buffer,
    })
}

#[tactic(auto, unfolding(crate::specs::Grammar::result_from))]
fn read_result(value: &Value) -> Result<Request, SessionFault>
    ensures ok { IfOk result (λ r. result_from (view value.now) ≡ Some (request_asked r)) }
    ensures err { IfErr result (λ e. (e ≡ BadRequest) × (result_from (view value.now) ≡ None)) }
{
    match number_member(value, "job", 0, u64::MAX) {
        Some(job) => Ok(Request::Result { job }),
        None => Err(SessionFault::BadRequest),
    }
}

// The request of the form that `op` names.
#[tactic(auto, unfolding(crate::specs::OwnNames::form_by))]
fn read_form(
    alloc: Global,
    op: &str,
    value: &Value,
    key: TenantKey,
) -> Result<Request, SessionFault>
    ensures ok { IfOk result (λ r. form_by key op.now (view value.now) ≡ Some (request_asked r)) }
    ensures err { IfErr result (λ e. (e ≢ NoMemory) → (e ≡ BadRequest)
        × (form_by key op.now (view value.now) ≡ None)) }
{
    if op == "grant" {
        return read_grant(alloc, value, key);
    }
    if op == "account" {
        return read_account(alloc, value, key);
    }
    if op == "submit" {
        return read_submit(alloc, value, key);
    }
    if op == "status" {
        return read_status(value);
    }
    if op == "result" {
        return read_result(value);
    }
    Err(SessionFault::BadRequest)
}

/// The request that a value says. JSON that is no request is 73, and a growth that was refused 99.
#[tactic(auto, unfolding(crate::specs::OwnNames::request_by))]
pub(crate) fn read_value(
    alloc: Global,
    value: &Value,
    key: TenantKey,
) -> Result<Request, SessionFault>
    ensures ok { IfOk result (λ r. request_by key (view value.now) ≡ Some (request_asked r)) }
    ensures err { IfErr result (λ e. (e ≢ NoMemory) → (e ≡ BadRequest)
        × (request_by key (view value.now) ≡ None)) }
{
    match text_member(value, "op") {
        Some(op) => read_form(alloc, op, value, key),
        None => Err(SessionFault::BadRequest),
    }
}

// The request that a frame's payload says.
pub(crate) fn read_request(alloc: Global, payload: &[u8]) -> Result<Request, SessionFault>
    ensures { PayloadAnswer result payload.now }
{
    read_request_by(alloc, payload, TenantKey::Required)
}

/// The request that a frame's payload says. Where the tenant's name may be left out and is, it is one
/// of the empty name.
///
/// What is no JSON is refused by 72, JSON that is no request by 73, and want of memory is 99.
pub fn read_request_by(
    alloc: Global,
    payload: &[u8],
    key: TenantKey,
) -> Result<Request, SessionFault>
    ensures { PayloadAnswerBy key result payload.now }
{
    match Value::from_slice(alloc, payload) {
        Ok(value) => read_value(alloc, &value, key),
        Err(e) if e.classify() == Category::Memory => Err(SessionFault::NoMemory),
        Err(_) => Err(SessionFault::NotJson),
    }
}

#[tactic(auto, unfolding(crate::specs::Grammar::object_from))]
fn read_object(
    alloc: Global,
    value: &Value,
    wants_schedule: bool,
) -> Result<JobObject, SessionFault>
    ensures ok { IfOk result (λ o. object_from wants_schedule (view value.now)
        ≡ Some (object_asked o)) }
    ensures err { IfErr result (λ e. (e ≢ NoMemory) → (e ≡ BadRequest)
        × (object_from wants_schedule (view value.now) ≡ None)) }
{
    let JobText {
        programs,
        credit,
        buffer,
    } = read_job(alloc, value)?;
    if !wants_schedule {
        return Ok(JobObject {
            programs,
            credit,
            buffer,
            schedule: Vec::new(alloc),
        });
    }
    let schedule = read_schedule(alloc, value)?;
    Ok(JobObject {
        programs,
        credit,
        buffer,
        schedule,
    })
}

/// The job that a text says: a submit without its `op` and `tenant`. Where a schedule is wanted the
/// text has to have it; where none is, it isn't looked at, and is empty.
///
/// What is no JSON is refused by 72, JSON that is no job object by 73, and want of memory is 99.
pub fn job_object(alloc: Global, text: &[u8], schedule: bool) -> Result<JobObject, SessionFault>
    ensures { ObjectAnswer schedule result text.now }
{
    match Value::from_slice(alloc, text) {
        Ok(value) => read_object(alloc, &value, schedule),
        Err(e) if e.classify() == Category::Memory => Err(SessionFault::NoMemory),
        Err(_) => Err(SessionFault::NotJson),
    }
}
