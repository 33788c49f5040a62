//! What a payload asks at a door.

ghost use Rattle.std.specs.Prelude.{◌≡◌, IfOk, MatchResult, None, Some};
ghost use Rattle.serde_json.specs.View.{view};
ghost use Rattle.sessions.specs.DoorForms.{AsksBeyond, ReadsPlainly, beyond_from, granter_form, job_key_from, jobs_from, key_of, keyed_from, own_form};
ghost use Rattle.sessions.specs.Grammar.{request_asked};
ghost use Rattle.sessions.specs.OwnNames.{request_by};

use crate::door_forms::{DoorForm, DoorForms};
use crate::fault::SessionFault;
use crate::job_key::JobKey;
use crate::member::{number_of, text_member};
use crate::request::{Request, read_value};
use crate::tenant_key::TenantKey;
use refusal::NoMemory;
use serde_json::{Category, Value};
use std::alloc::Global;

/// What a payload asks at a door: a request of the plain protocol, or the number of its refusal, and
/// what it asks beyond that.
#[derive(Drop)]
pub struct DoorRequest {
    pub plain: Result<Request, u8>,
    pub beyond: Option<DoorForm>,
}

impl DoorForms {
    /// Whether the plain protocol's requests have to name their tenant there.
    pub fn tenant_key(self) -> TenantKey
        ensures { result ≡ key_of self }
    {
        match self {
            DoorForms::Plain => TenantKey::Required,
            DoorForms::OwnDoor => TenantKey::Optional,
            DoorForms::Granter => TenantKey::Required,
        }
    }
}

#[tactic(auto, unfolding(crate::specs::DoorForms::jobs_from))]
fn read_jobs(value: &Value) -> Option<DoorForm>
    ensures { result ≡ jobs_from (view value.now) }
{
    let from = match value.get("from") {
        Some(number) => number_of(number, 1, u64::MAX)?,
        None => 1,
    };
    Some(DoorForm::Jobs { from })
}

// The key that a value is, if it is one.
#[tactic(auto, unfolding(crate::specs::DoorForms::job_key_from))]
fn read_key(alloc: Global, value: &Value) -> Result<Option<JobKey>, NoMemory>
    ensures { IfOk result (λ key. key ≡ job_key_from (view value.now)) }
{
    let Some(text) = value.as_str() else {
        return Ok(None);
    };
    JobKey::of_text(alloc, text)
}

// A submit that has a member `key`.
#[tactic(auto, unfolding(crate::specs::DoorForms::keyed_from))]
fn read_keyed(alloc: Global, value: &Value) -> Result<Option<DoorForm>, NoMemory>
    ensures { IfOk result (λ form. form ≡ keyed_from (view value.now)) }
{
    match value.get("key") {
        Some(member) => {
            let key = read_key(alloc, member)?;
            Ok(Some(DoorForm::Keyed { key }))
        }
        None => Ok(None),
    }
}

// The request of a tenant's own door that `op` names.
#[tactic(auto, unfolding(crate::specs::DoorForms::own_form))]
fn read_own_form(alloc: Global, op: &str, value: &Value) -> Result<Option<DoorForm>, NoMemory>
    ensures { IfOk result (λ form. form ≡ own_form op.now (view value.now)) }
{
    if op == "jobs" {
        return Ok(read_jobs(value));
    }
    if op == "submit" {
        return read_keyed(alloc, value);
    }
    Ok(None)
}

// The request of the door for grants that `op` names.
fn read_granter_form(op: &str) -> Option<DoorForm>
    ensures { result ≡ granter_form op.now }
{
    if op == "server" {
        return Some(DoorForm::Server { stops: false });
    }
    if op == "stop" {
        return Some(DoorForm::Server { stops: true });
    }
    None
}

// What is asked beyond the plain protocol, if something is.
#[tactic(auto, unfolding(crate::specs::DoorForms::beyond_from))]
fn read_beyond(alloc: Global, value: &Value, forms: DoorForms) -> Result<Option<DoorForm>, NoMemory>
    ensures { IfOk result (λ beyond. beyond ≡ beyond_from forms (view value.now)) }
{
    match forms {
        DoorForms::Plain => Ok(None),
        DoorForms::OwnDoor => match text_member(value, "op") {
            Some(op) => read_own_form(alloc, op, value),
            None => Ok(None),
        },
        DoorForms::Granter => match text_member(value, "op") {
            Some(op) => Ok(read_granter_form(op)),
            None => Ok(None),
        },
    }
}

// The request of the plain protocol that a value says, or the number of its refusal.
fn read_plainly(
    alloc: Global,
    value: &Value,
    key: TenantKey,
) -> Result<Result<Request, u8>, NoMemory>
    ensures { IfOk result (λ read. MatchResult read
        (λ request. request_by key (view value.now) ≡ Some (request_asked request))
        (λ code. (code ≡ 73) × (request_by key (view value.now) ≡ None))) }
{
    match read_value(alloc, value, key) {
        Ok(request) => Ok(Ok(request)),
        Err(SessionFault::NoMemory) => Err(NoMemory),
        Err(SessionFault::BadRequest) => Ok(Err(SessionFault::BadRequest.code())),
        Err(SessionFault::NotJson) => unreachable!(),
        Err(SessionFault::FrameTooLarge) => unreachable!(),
    }
}

/// What a payload asks at a door that hears these forms.
///
/// In the plain protocol what is no JSON is refused by 72, and JSON that is no request by 73. Refused
/// where there is no memory.
pub fn read_at_door(
    alloc: Global,
    payload: &[u8],
    forms: DoorForms,
) -> Result<DoorRequest, NoMemory>
    ensures plain { IfOk result (λ heard. ReadsPlainly (key_of forms) payload.now heard.plain) }
    ensures beyond { IfOk result (λ heard. AsksBeyond forms payload.now heard.beyond) }
{
    match Value::from_slice(alloc, payload) {
        Ok(value) => {
            let plain = read_plainly(alloc, &value, forms.tenant_key())?;
            let beyond = read_beyond(alloc, &value, forms)?;
            Ok(DoorRequest { plain, beyond })
        }
        Err(e) if e.classify() == Category::Memory => Err(NoMemory),
        Err(_) => Ok(DoorRequest {
            plain: Err(SessionFault::NotJson.code()),
            beyond: None,
        }),
    }
}
