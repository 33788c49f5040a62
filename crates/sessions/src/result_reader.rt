//! The JSON of a job's result, read back.

ghost use Rattle.std.specs.Prelude.{◌≡◌, ◌≢◌, Some, None, IfOk, IfErr};
ghost use Rattle.serde_json.specs.View.{view};
ghost use Rattle.sessions.specs.ResultObjects.{ResultAnswer, flag_at_key, contents_from, contents_of, task_from, tasks_at, totals_from};
ghost use Rattle.sessions.specs.declared.fault.SessionFault.TheVariants.{BadRequest, NoMemory};

use crate::fault::SessionFault;
use crate::member::{bytes_member, list_member, number_member};
use serde_json::{Category, Value};
use std::alloc::Global;

const U16_MAX: u64 = 65_535;

const U32_MAX: u64 = 4_294_967_295;

/// A task of a result.
#[derive(Clone, Copy, Debug, PartialEq, Eq)]
pub struct ResultTask {
    /// Its number in the run.
    pub number: u32,
    /// The number of its program.
    pub program: u16,
    pub r0: u64,
    /// Whether it ran.
    pub ran: bool,
    /// The credit that it returned.
    pub rest: u32,
    pub spent: u32,
}

/// A result, as a text has it.
#[derive(Drop)]
pub struct ResultObject {
    pub buffer: Vec<u8>,
    pub returned: u32,
    pub spent: u32,
    /// The tasks, in the order of the text.
    pub tasks: Vec<ResultTask>,
}

// The credit that all tasks returned and spent.
#[derive(Clone, Copy)]
struct CreditTotals {
    returned: u32,
    spent: u32,
}

// The truth value at a key.
fn flag_member(value: &Value, key: &str) -> Option<bool>
    ensures { result ≡ flag_at_key key.now (view value.now) }
{
    value.get(key).and_then(Value::as_bool)
}

#[tactic(auto, unfolding(crate::specs::ResultObjects::task_from))]
fn read_task(value: &Value) -> Option<ResultTask>
    ensures { result ≡ task_from (view value.now) }
{
    let number = number_member(value, "number", 0, U32_MAX)?;
    let program = number_member(value, "program", 0, U16_MAX)?;
    let r0 = number_member(value, "r0", 0, u64::MAX)?;
    let ran = flag_member(value, "ran")?;
    let rest = number_member(value, "rest", 0, U32_MAX)?;
    let spent = number_member(value, "spent", 0, U32_MAX)?;
    Some(ResultTask {
        number: number as u32,
        program: program as u16,
        r0,
        ran,
        rest: rest as u32,
        spent: spent as u32,
    })
}

#[tactic(auto, unfolding(crate::specs::ResultObjects::tasks_at))]
fn read_tasks(alloc: Global, value: &Value) -> Result<Vec<ResultTask>, SessionFault>
    ensures ok { IfOk result (λ ts. tasks_at (view value.now) ≡ Some ts.items) }
    ensures err { IfErr result (λ e. (e ≢ NoMemory) → (e ≡ BadRequest)
        × (tasks_at (view value.now) ≡ None)) }
{
    let Some(items) = list_member(value, "tasks") else {
        return Err(SessionFault::BadRequest);
    };
    let mut tasks = Vec::new(alloc);
    for item in items {
        let Some(task) = read_task(item) else {
            return Err(SessionFault::BadRequest);
        };
        tasks.push(task)?;
    }
    Ok(tasks)
}

// The credit of a reply that is `ok`.
#[tactic(auto, unfolding(crate::specs::ResultObjects::totals_from))]
fn read_totals(value: &Value) -> Option<CreditTotals>
    ensures { result ≡ totals_from (view value.now) }
{
    if !flag_member(value, "ok")? {
        return None;
    }
    let returned = number_member(value, "returned", 0, U32_MAX)?;
    let spent = number_member(value, "spent", 0, U32_MAX)?;
    Some(CreditTotals {
        returned: returned as u32,
        spent: spent as u32,
    })
}

#[tactic(auto, unfolding(crate::specs::ResultObjects::contents_from))]
fn read_result(alloc: Global, value: &Value) -> Result<ResultObject, SessionFault>
    ensures ok { IfOk result (λ o. contents_from (view value.now) ≡ Some (contents_of o)) }
    ensures err { IfErr result (λ e. (e ≢ NoMemory) → (e ≡ BadRequest)
        × (contents_from (view value.now) ≡ None)) }
{
    let Some(totals) = read_totals(value) else {
        return Err(SessionFault::BadRequest);
    };
    let buffer = bytes_member(alloc, value, "buffer")?;
    let tasks = read_tasks(alloc, value)?;
    Ok(ResultObject {
        buffer,
        returned: totals.returned,
        spent: totals.spent,
        tasks,
    })
}

/// The result that a text has: a reply to `result`, and what `run` prints.
///
/// A text that is no JSON is refused by 72, JSON that is no result by 73, and want of memory is 99.
pub fn result_object(alloc: Global, text: &[u8]) -> Result<ResultObject, SessionFault>
    ensures { ResultAnswer result text.now }
{
    match Value::from_slice(alloc, text) {
        Ok(value) => read_result(alloc, &value),
        Err(e) if e.classify() == Category::Memory => Err(SessionFault::NoMemory),
        Err(_) => Err(SessionFault::NotJson),
    }
}
