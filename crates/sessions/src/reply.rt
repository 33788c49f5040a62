//! Replies, and the JSON that says them.

ghost use Rattle.std.specs.Prelude.{◌≡◌, ◌≤◌, ◌++◌, None, false, IfOk, OnOk, decimal, length};
ghost use Rattle.serde_json.specs.View.{view};
ghost use Rattle.serde_json.specs.Written.{compact_text, has_float};
ghost use Rattle.sessions.specs.Frames.{framed};
ghost use Rattle.sessions.specs.Replies.{refusal_data, account_data, submit_data, status_data, play_data, text_of, frame_of, frame_or_refusal, longest_reply};
ghost use Rattle.sessions.specs.Outcomes.{outcome_data};

use crate::job_key::KeyedJob;
use crate::job_list::write_jobs;
use crate::result::{JobOutcome, result_frame, write_result};
use crate::server_reply::write_server;
use crate::server_totals::ServerTotals;
use accounts::ListedJob;
use credit_book::TaskEnd;
use itoa::Buffer;
use refusal::NoMemory;
use serde_json::{Value, json};
use std::alloc::{AllocError, Global};

/// Room for a reply without bytes and tasks.
const ROOM: usize = 128;

/// What is answered.
#[derive(Clone, Copy, Debug)]
pub enum Reply<'a> {
    /// The number of a refusal; of a program that isn't accepted also its place among the job's
    /// programs and, where it has one, the slot.
    Refused {
        code: u8,
        program: Option<u32>,
        slot: Option<u32>,
    },
    /// What a tenant was granted, what is left of it, what its open jobs hold, and what its jobs
    /// have spent.
    Account {
        balance: u64,
        granted: u64,
        opened: u64,
        spent: u64,
    },
    /// The number of the job that was taken.
    Submit {
        job: u64,
    },
    /// How far a job is.
    Status {
        complete: bool,
        returned: u32,
        spent: u32,
    },
    /// What a job came to, with its tasks in order of number.
    Result {
        buffer: &'a [u8],
        returned: u32,
        spent: u32,
        tasks: &'a [TaskEnd],
    },
    /// Which jobs a tenant has, of which the last one has the number `count`; and which of them
    /// have keys.
    Jobs {
        count: u64,
        jobs: &'a [ListedJob],
        keys: &'a [KeyedJob],
    },
    /// What a server counts.
    Server {
        totals: &'a ServerTotals,
    },
    /// How far a schedule brought a job.
    Play {
        buffer: &'a [u8],
        complete: bool,
        held: u32,
        returned: u32,
        spent: u32,
        used: u32,
    },
}

// Some JSON, and a number after it.
pub(crate) fn put_number(out: &mut Vec<u8>, lead: &[u8], number: u64) -> Result<(), AllocError>
    ensures { OnOk result (out.new.items ≡ out.old.items ++ (lead.now ++ decimal number)) }
{
    out.extend_from_slice(lead)?;
    let mut digits = Buffer::new();
    out.extend_from_slice(digits.format(number).as_bytes())
}

fn write_refusal(
    out: &mut Vec<u8>,
    code: u8,
    program: Option<u32>,
    slot: Option<u32>,
) -> Result<(), AllocError>
    ensures { OnOk result (out.new.items ≡ out.old.items
        ++ compact_text (refusal_data code program slot)) }
{
    put_number(out, b"{\"code\":", u64::from(code))?;
    let Some(program) = program else {
        out.extend_from_slice(b",\"ok\":false}")?;
        return Ok(());
    };
    put_number(out, b",\"ok\":false,\"program\":", u64::from(program))?;
    let Some(slot) = slot else {
        out.extend_from_slice(b"}")?;
        return Ok(());
    };
    put_number(out, b",\"slot\":", u64::from(slot))?;
    out.extend_from_slice(b"}")?;
    Ok(())
}

fn write_account(
    out: &mut Vec<u8>,
    balance: u64,
    granted: u64,
    opened: u64,
    spent: u64,
) -> Result<(), AllocError>
    ensures { OnOk result (out.new.items ≡ out.old.items
        ++ compact_text (account_data balance granted opened spent)) }
{
    put_number(out, b"{\"balance\":", balance)?;
    put_number(out, b",\"granted\":", granted)?;
    put_number(out, b",\"ok\":true,\"open\":", opened)?;
    put_number(out, b",\"spent\":", spent)?;
    out.extend_from_slice(b"}")?;
    Ok(())
}

fn write_submit(out: &mut Vec<u8>, job: u64) -> Result<(), AllocError>
    ensures { OnOk result (out.new.items ≡ out.old.items ++ compact_text (submit_data job)) }
{
    put_number(out, b"{\"job\":", job)?;
    out.extend_from_slice(b",\"ok\":true}")?;
    Ok(())
}

#[tactic(auto, unfolding(crate::specs::Replies::status_data))]
fn status_value(
    alloc: Global,
    complete: bool,
    returned: u32,
    spent: u32,
) -> Result<Value, AllocError>
    ensures { IfOk result (λ v. view v ≡ status_data complete returned spent) }
{
    json!(in alloc; {"complete": complete, "ok": true, "returned": returned, "spent": spent})
}

#[tactic(auto, unfolding(crate::specs::Replies::play_data))]
fn play_value(
    alloc: Global,
    buffer: &[u8],
    complete: bool,
    held: u32,
    returned: u32,
    spent: u32,
    used: u32,
) -> Result<Value, AllocError>
    ensures { IfOk result (λ v. view v ≡ play_data buffer.now complete held returned spent used) }
{
    let buffer = hex::encode(alloc, buffer)?;
    json!(in alloc; {"buffer": buffer.as_str(), "complete": complete, "held": held, "ok": true, "returned": returned, "spent": spent, "used": used})
}

// A reply that is asked for seldom goes by a value.
fn write_value(alloc: Global, out: &mut Vec<u8>, value: &Value) -> Result<(), AllocError>
    requires { has_float (view value.now) ≡ false }
    ensures { OnOk result (out.new.items ≡ out.old.items ++ compact_text (view value.now)) }
{
    let text = value.to_vec(alloc)?;
    out.extend_from_slice(text.as_slice())?;
    Ok(())
}

fn write_reply(alloc: Global, out: &mut Vec<u8>, reply: &Reply) -> Result<(), AllocError>
    ensures { OnOk result (out.new.items ≡ out.old.items ++ text_of reply.now) }
{
    match *reply {
        Reply::Refused {
            code,
            program,
            slot,
        } => write_refusal(out, code, program, slot),
        Reply::Account {
            balance,
            granted,
            opened,
            spent,
        } => write_account(out, balance, granted, opened, spent),
        Reply::Submit { job } => write_submit(out, job),
        Reply::Status {
            complete,
            returned,
            spent,
        } => write_value(alloc, out, &status_value(alloc, complete, returned, spent)?),
        Reply::Result {
            buffer,
            returned,
            spent,
            tasks,
        } => write_result(
            alloc,
            out,
            &JobOutcome {
                buffer,
                returned,
                spent,
                tasks,
            },
        ),
        Reply::Jobs { count, jobs, keys } => write_jobs(alloc, out, count, jobs, keys),
        Reply::Server { totals } => write_server(out, totals),
        Reply::Play {
            buffer,
            complete,
            held,
            returned,
            spent,
            used,
        } => write_value(
            alloc,
            out,
            &play_value(alloc, buffer, complete, held, returned, spent, used)?,
        ),
    }
}

/// The reply's JSON: compact, with its keys in ascending order.
pub fn reply_text(alloc: Global, reply: &Reply) -> Result<Vec<u8>, NoMemory>
    ensures { IfOk result (λ text. text.items ≡ text_of reply.now) }
{
    let mut text = Vec::with_capacity(alloc, ROOM)?;
    write_reply(alloc, &mut text, reply)?;
    Ok(text)
}

// A text behind its length.
fn framed(alloc: Global, text: &[u8]) -> Result<Vec<u8>, AllocError>
    requires { length text.now ≤ longest_reply }
    ensures { IfOk result (λ frame. frame.items ≡ framed text.now) }
{
    let mut frame = Vec::new(alloc);
    frame.extend_from_slice(&(text.len() as u32).to_be_bytes())?;
    frame.extend_from_slice(text)?;
    Ok(frame)
}

// The frame of refusal 65, for a reply that no frame holds.
fn refused_frame(alloc: Global) -> Result<Vec<u8>, NoMemory>
    ensures { IfOk result (λ frame. frame.items ≡ framed (compact_text (refusal_data 65 None None))) }
{
    let too_long = Reply::Refused {
        code: 65,
        program: None,
        slot: None,
    };
    let refusal = reply_text(alloc, &too_long)?;
    let frame = framed(alloc, refusal.as_slice())?;
    Ok(frame)
}

// The frame of a reply that isn't long, or of refusal 65.
#[tactic(auto, unfolding(crate::specs::Replies::frame_or_refusal, crate::specs::Replies::frame_of))]
fn short_frame(alloc: Global, reply: &Reply) -> Result<Vec<u8>, NoMemory>
    ensures { IfOk result (λ frame. frame.items ≡ frame_of reply.now) }
{
    let text = reply_text(alloc, reply)?;
    if text.len() <= u32::MAX as usize {
        let frame = framed(alloc, text.as_slice())?;
        return Ok(frame);
    }
    refused_frame(alloc)
}

// The frame of what a job came to, or of refusal 65.
#[tactic(auto, unfolding(crate::specs::Replies::frame_or_refusal))]
fn frame_of_result(alloc: Global, outcome: &JobOutcome<'_>) -> Result<Vec<u8>, NoMemory>
    ensures { IfOk result
        (λ frame. frame.items ≡ frame_or_refusal (outcome_data outcome.now)) }
{
    match result_frame(alloc, outcome)? {
        Some(frame) => Ok(frame),
        None => refused_frame(alloc),
    }
}

/// The reply's JSON behind its length of four bytes, the highest first; where it is over
/// 4,294,967,295 bytes, the frame of refusal 65. What a job came to is written once, and refused
/// before there is room for its tasks.
#[tactic(auto, unfolding(crate::specs::Replies::frame_of))]
pub fn reply_frame(alloc: Global, reply: &Reply) -> Result<Vec<u8>, NoMemory>
    ensures { IfOk result (λ frame. frame.items ≡ frame_of reply.now) }
{
    match *reply {
        Reply::Result {
            buffer,
            returned,
            spent,
            tasks,
        } => frame_of_result(
            alloc,
            &JobOutcome {
                buffer,
                returned,
                spent,
                tasks,
            },
        ),
        _ => short_frame(alloc, reply),
    }
}
