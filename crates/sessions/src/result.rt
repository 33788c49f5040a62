//! The JSON of what a job came to: how long it is, and its bytes, written once, one task after the
//! other.

ghost use Rattle.std.specs.Prelude.{◌≡◌, ◌≤◌, ◌<◌, ◌+◌, ◌++◌, false, length, sum_by, IfOk, IfSome, OnOk, MatchOption, decimal};
ghost use Rattle.serde_json.specs.Written.{comma_if, compact_text};
ghost use Rattle.serde_json.specs.Data.{boolean, string};
ghost use Rattle.hex.specs.Hex.{encode_lower};
ghost use Rattle.sessions.specs.Frames.{framed};
ghost use Rattle.sessions.specs.Replies.{longest_reply, task_data};
ghost use Rattle.sessions.specs.ResultTexts.{result_text, task_texts, weight};
ghost use Rattle.sessions.specs.Outcomes.{outcome_data};

use crate::reply::put_number;
use credit_book::TaskEnd;
use itoa::Buffer;
use serde_json::Value;
use std::alloc::{AllocError, Global};

/// The most bytes that a frame holds.
const LONGEST: u64 = 4_294_967_295;

/// How many bytes a task's text has beside its numbers and the word that tells whether it ran.
const TASK_FRAME: u64 = 52;

/// How many bytes a result's text has beside its numbers, its buffer and its tasks.
const RESULT_FRAME: u64 = 53;

/// What a job came to.
#[derive(Clone, Copy)]
pub(crate) struct JobOutcome<'a> {
    pub(crate) buffer: &'a [u8],
    pub(crate) returned: u32,
    pub(crate) spent: u32,
    pub(crate) tasks: &'a [TaskEnd],
}

// Some JSON, and a word of JSON after it.
fn put_word(out: &mut Vec<u8>, lead: &[u8], word: bool) -> Result<(), AllocError>
    ensures { OnOk result (out.new.items ≡ out.old.items ++ (lead.now ++ compact_text (boolean word))) }
{
    out.extend_from_slice(lead)?;
    if word {
        out.extend_from_slice(b"true")
    } else {
        out.extend_from_slice(b"false")
    }
}

/// A comma, where something stands before.
pub(crate) fn put_comma(out: &mut Vec<u8>, is_later: bool) -> Result<(), AllocError>
    ensures { OnOk result (out.new.items ≡ out.old.items ++ comma_if is_later) }
{
    if is_later {
        out.extend_from_slice(b",")
    } else {
        Ok(())
    }
}

// A task's JSON.
fn write_task(out: &mut Vec<u8>, task: &TaskEnd) -> Result<(), AllocError>
    ensures { OnOk result (out.new.items ≡ out.old.items ++ compact_text (task_data task.now)) }
{
    put_number(out, b"{\"number\":", u64::from(task.number))?;
    put_number(out, b",\"program\":", u64::from(task.program))?;
    put_number(out, b",\"r0\":", task.r0)?;
    put_word(out, b",\"ran\":", task.ran)?;
    put_number(out, b",\"rest\":", u64::from(task.rest))?;
    put_number(out, b",\"spent\":", u64::from(task.spent))?;
    out.extend_from_slice(b"}")?;
    Ok(())
}

// The tasks' JSON, with a comma between two.
fn write_tasks(out: &mut Vec<u8>, tasks: &[TaskEnd]) -> Result<(), AllocError>
    ensures { OnOk result (out.new.items ≡ out.old.items ++ task_texts false tasks.now) }
{
    let mut is_later = false;
    for task in tasks {
        put_comma(out, is_later)?;
        write_task(out, task)?;
        is_later = true;
    }
    Ok(())
}

// Bytes in hexadecimal, in quotes.
fn quote_bytes(alloc: Global, bytes: &[u8]) -> Result<Vec<u8>, AllocError>
    ensures { IfOk result (λ text. text.items ≡ compact_text (string (encode_lower bytes.now))) }
{
    let value = Value::String(hex::encode(alloc, bytes)?);
    value.to_vec(alloc)
}

// The JSON of what a job came to, whose buffer is in quotes already.
fn write_quoted(
    out: &mut Vec<u8>,
    buffer: &[u8],
    returned: u32,
    spent: u32,
    tasks: &[TaskEnd],
) -> Result<(), AllocError>
    ensures { OnOk result (out.new.items ≡ out.old.items
        ++ result_text buffer.now returned spent tasks.now) }
{
    out.extend_from_slice(b"{\"buffer\":")?;
    out.extend_from_slice(buffer)?;
    put_number(out, b",\"ok\":true,\"returned\":", u64::from(returned))?;
    put_number(out, b",\"spent\":", u64::from(spent))?;
    out.extend_from_slice(b",\"tasks\":[")?;
    write_tasks(out, tasks)?;
    out.extend_from_slice(b"]}")?;
    Ok(())
}

/// Writes the JSON of what a job came to.
pub(crate) fn write_result(
    alloc: Global,
    out: &mut Vec<u8>,
    outcome: &JobOutcome<'_>,
) -> Result<(), AllocError>
    ensures { OnOk result (out.new.items ≡ out.old.items ++ compact_text (outcome_data outcome.now)) }
{
    let buffer = quote_bytes(alloc, outcome.buffer)?;
    write_quoted(out, &buffer, outcome.returned, outcome.spent, outcome.tasks)
}

// How many digits a number has.
fn digits(number: u64) -> u64
    ensures count { result ≡ length (decimal number) }
    ensures most { result ≤ 20 }
{
    let mut digits = Buffer::new();
    digits.format(number).len() as u64
}

// How many letters a word of JSON has.
fn word_length(word: bool) -> u64
    ensures count { result ≡ length (compact_text (boolean word)) }
    ensures most { result ≤ 5 }
{
    if word { 4 } else { 5 }
}

// How many bytes a task's JSON has.
fn task_length(task: &TaskEnd) -> u64
    ensures count { result ≡ length (compact_text (task_data task.now)) }
    ensures most { result ≤ 157 }
{
    let word = word_length(task.ran);
    let counts = digits(u64::from(task.number)) + digits(u64::from(task.program));
    let sums = digits(task.r0) + digits(u64::from(task.rest)) + digits(u64::from(task.spent));
    TASK_FRAME + word + counts + sums
}

// How many bytes the tasks' JSON has, with a comma ahead of each; none where these are too many.
fn tasks_length(tasks: &[TaskEnd]) -> Option<u64>
    ensures count { MatchOption result (longest_reply + 1 < sum_by weight tasks.now)
        (λ count. count ≡ sum_by weight tasks.now) }
    ensures most { IfSome result (λ count. count ≤ longest_reply + 1) }
{
    let mut count = 0;
    for task in tasks {
        count += task_length(task) + 1;
        if count > LONGEST + 1 {
            return None;
        }
    }
    Some(count)
}

// How many bytes the JSON of what a job came to has, whose buffer is in quotes already; none where
// no frame holds it.
fn quoted_length(buffer: &[u8], returned: u32, spent: u32, tasks: &[TaskEnd]) -> Option<u32>
    ensures count { MatchOption result
        (longest_reply < length (result_text buffer.now returned spent tasks.now))
        (λ count. count ≡ length (result_text buffer.now returned spent tasks.now)) }
    ensures most { IfSome result (λ count. count ≤ longest_reply) }
{
    let Some(tasks) = tasks_length(tasks) else {
        return None;
    };
    let numbers = digits(u64::from(returned)) + digits(u64::from(spent));
    let count = RESULT_FRAME + numbers + tasks.saturating_sub(1) + buffer.len() as u64;
    if count > LONGEST {
        return None;
    }
    Some(count as u32)
}

/// The JSON of what a job came to, behind its length of four bytes; none where that is over
/// 4,294,967,295, before any memory is asked for the tasks. It is written once, into its place.
pub(crate) fn result_frame(
    alloc: Global,
    outcome: &JobOutcome<'_>,
) -> Result<Option<Vec<u8>>, AllocError>
    ensures { IfOk result (λ made. MatchOption made
        (longest_reply < length (compact_text (outcome_data outcome.now)))
        (λ frame. (frame.items ≡ framed (compact_text (outcome_data outcome.now)))
        × (length (compact_text (outcome_data outcome.now)) ≤ longest_reply))) }
{
    let JobOutcome {
        buffer,
        returned,
        spent,
        tasks,
    } = *outcome;
    let buffer = quote_bytes(alloc, buffer)?;
    let Some(count) = quoted_length(&buffer, returned, spent, tasks) else {
        return Ok(None);
    };
    let mut frame = Vec::with_capacity(alloc, count as usize + 4)?;
    frame.extend_from_slice(&count.to_be_bytes())?;
    write_quoted(&mut frame, &buffer, returned, spent, tasks)?;
    Ok(Some(frame))
}
