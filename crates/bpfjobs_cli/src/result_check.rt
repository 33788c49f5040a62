//! The check of a result: whether it is the one answer of its job.

ghost use Rattle.std.specs.Prelude.{◌≡◌, ◌↔◌, map, IfOk, MatchOption};
ghost use Rattle.machine_model.specs.Memory.{written};
ghost use Rattle.reference.specs.Evaluating.{finished_of};
ghost use Rattle.sessions.specs.ResultObjects.{contents_of};
ghost use Rattle.task_trees.specs.Answer.{joined_bytes, spent_in};
ghost use Rattle.bpfjobs_cli.specs.ResultChecks.{AllResultsRan, ComparesTasks, DiffersBy, DiffersFirstAt, HasNotRun, IsAnswerOf, IsSaturated, IsResultVerdict};
ghost use Rattle.bpfjobs_cli.specs.declared.result_check.ResultVerdict.TheVariants as verdict;

use crate::requested_job::{RequestedJob, read_requested_job};
use crate::task_summaries::{UnsharedTask, answer_summaries, first_unshared, result_summaries};
use reference::{FinishedTask, Unanswered};
use refusal::NoMemory;
use run_trace::tree_of;
use sessions::{ResultObject, ResultTask, SessionFault, result_object};
use std::alloc::Global;
use std::fmt;

/// The first difference between a result and the answer of its job.
#[derive(Clone, Copy, Debug, PartialEq, Eq)]
pub enum ResultDifference {
    /// The task of this number didn't run.
    NotRun(u32),
    /// One of the two has a task's end more often.
    Task(UnsharedTask),
    /// The credit that the result says was spent, and the credit that the answer spends.
    Spent { result: u32, answer: u64 },
    /// The credit that the result says was returned, and the job's credit.
    Returned { result: u32, credit: u32 },
    /// The buffers differ at this byte, from 0 on, or one of them ends there.
    Buffer(usize),
}

impl fmt::Display for ResultDifference {
    fn fmt<W: fmt::Write>(&self, f: &mut fmt::Formatter<W>) -> fmt::Result {
        match self {
            ResultDifference::NotRun(number) => {
                write!(f, "task {number} didn't run: there was no memory for it")
            }
            ResultDifference::Task(UnsharedTask::Extra(end)) => {
                write!(f, "the answer has no such task: {end}")
            }
            ResultDifference::Task(UnsharedTask::Missing(end)) => {
                write!(
                    f,
                    "a task of the answer is missing: {end}\n\
                     its spawn was refused for want of memory, or this is no result of the job"
                )
            }
            ResultDifference::Spent { result, answer } => {
                write!(f, "spent is {result}, and {answer} in the answer")
            }
            ResultDifference::Returned { result, credit } => {
                write!(
                    f,
                    "returned is {result}, and isn't what is left of {credit}"
                )
            }
            ResultDifference::Buffer(at) => { write!(f, "the buffer differs from byte {at} on") }
        }
    }
}

/// The verdict on a result.
#[derive(Clone, Copy, Debug, PartialEq, Eq)]
pub enum ResultVerdict {
    /// It is the one answer of the job.
    Answer,
    /// It isn't.
    Differs(ResultDifference),
    /// The job's text says no job, or one that isn't admitted.
    NoJob,
    /// The text is no result: 72 where it is no JSON, 73 where it is other JSON.
    NoResult(SessionFault),
    /// The job comes to nothing. No job that is admitted does.
    NoAnswer,
}

impl fmt::Display for ResultVerdict {
    fn fmt<W: fmt::Write>(&self, f: &mut fmt::Formatter<W>) -> fmt::Result {
        match self {
            ResultVerdict::Answer => write!(f, "the result is the job's one answer"),
            ResultVerdict::Differs(difference) => {
                write!(f, "the result isn't the job's one answer: {difference}")
            }
            ResultVerdict::NoJob => write!(f, "the first file says no job that is admitted"),
            ResultVerdict::NoResult(_) => write!(f, "the second file says no result of a job"),
            ResultVerdict::NoAnswer => write!(f, "the job comes to nothing"),
        }
    }
}

impl ResultVerdict {
    /// The status of `check`: 0 for the answer, and else 1.
    pub fn status(&self) -> u8
        ensures answer { (result ≡ 0) ↔ (self.now ≡ verdict.Answer) }
        ensures refused { (result ≡ 0 → ⊥) → result ≡ 1 }
    {
        match self {
            ResultVerdict::Answer => 0,
            ResultVerdict::Differs(_) => 1,
            ResultVerdict::NoJob => 1,
            ResultVerdict::NoResult(_) => 1,
            ResultVerdict::NoAnswer => 1,
        }
    }
}

// The number of the first task that didn't run.
fn not_run(tasks: &[ResultTask]) -> Option<u32>
    ensures { MatchOption result (AllResultsRan tasks.now) (λ number. HasNotRun tasks.now number) }
{
    for task in tasks {
        if !task.ran {
            return Some(task.number);
        }
    }
    None
}

// The credit that the tasks spent, or 2^64 - 1 where it is more.
fn spent_by(tasks: &[FinishedTask]) -> u64
    ensures { IsSaturated (spent_in (map finished_of tasks.now)) result }
{
    let mut spent: u64 = 0;
    let mut left = tasks;
    'tasks: while let Some((task, others)) = left.split_first() {
        spent = spent.saturating_add(u64::from(task.ending.spent));
        left = others;
    }
    spent
}

// The memory with these bytes from a place on. It grows where they don't fit, as no task's bytes do.
fn write_over(mut memory: Vec<u8>, at: usize, bytes: &[u8]) -> Result<Vec<u8>, NoMemory>
    ensures { IfOk result (λ whole. whole.items ≡ written memory.items at bytes.now) }
{
    if at <= memory.len() && bytes.len() <= memory.len() - at {
        memory[at..at + bytes.len()].copy_from_slice(bytes);
        return Ok(memory);
    }
    memory.truncate(at);
    memory.extend_from_slice(bytes)?;
    Ok(memory)
}

// The buffer that the tasks of an answer leave, of so many bytes.
fn joined_bytes(alloc: Global, size: usize, tasks: &[FinishedTask]) -> Result<Vec<u8>, NoMemory>
    ensures { IfOk result (λ whole. whole.items ≡ joined_bytes size (map finished_of tasks.now)) }
{
    let mut whole = vec![in alloc; 0u8; size]?;
    let mut left = tasks;
    'tasks: while let Some((task, others)) = left.split_last() {
        whole = write_over(whole, task.ending.base, &task.bytes)?;
        left = others;
    }
    Ok(whole)
}

// The place from which on two buffers differ.
fn first_difference(given: &[u8], expected: &[u8]) -> Option<usize>
    ensures { MatchOption result (given.now ≡ expected.now)
        (λ at. DiffersFirstAt at given.now expected.now) }
{
    let mut at = 0;
    let mut left = given;
    let mut right = expected;
    'bytes: while let Some((byte, others)) = left.split_first() {
        let Some((wanted, rest)) = right.split_first() else {
            return Some(at);
        };
        if *byte != *wanted {
            return Some(at);
        }
        left = others;
        right = rest;
        at += 1;
    }
    if right.is_empty() { None } else { Some(at) }
}

// The first end that a result's and an answer's tasks don't have equally often.
fn unshared_task(
    alloc: Global,
    given: &[ResultTask],
    expected: &[FinishedTask],
) -> Result<Option<UnsharedTask>, NoMemory>
    ensures { IfOk result (λ found. ComparesTasks given.now (map finished_of expected.now) found) }
{
    let mut given = result_summaries(alloc, given)?;
    let mut expected = answer_summaries(alloc, expected)?;
    given.sort_unstable();
    expected.sort_unstable();
    Ok(first_unshared(&given, &expected))
}

// The first difference between a result and the answer of a job with this credit and a buffer of
// this size.
fn difference(
    alloc: Global,
    credit: u32,
    size: usize,
    given: &ResultObject,
    expected: &[FinishedTask],
) -> Result<Option<ResultDifference>, NoMemory>
    ensures { IfOk result (λ found. MatchOption found
        (IsAnswerOf credit size (map finished_of expected.now) (contents_of given.now))
        (λ d. DiffersBy credit size (map finished_of expected.now) (contents_of given.now) d)) }
{
    if let Some(number) = not_run(&given.tasks) {
        return Ok(Some(ResultDifference::NotRun(number)));
    }
    if let Some(task) = unshared_task(alloc, &given.tasks, expected)? {
        return Ok(Some(ResultDifference::Task(task)));
    }
    let answer = spent_by(expected);
    if u64::from(given.spent) != answer {
        let result = given.spent;
        return Ok(Some(ResultDifference::Spent { result, answer }));
    }
    if u64::from(given.returned) + u64::from(given.spent) != u64::from(credit) {
        let result = given.returned;
        return Ok(Some(ResultDifference::Returned { result, credit }));
    }
    let buffer = joined_bytes(alloc, size, expected)?;
    match first_difference(&given.buffer, &buffer) {
        Some(at) => Ok(Some(ResultDifference::Buffer(at))),
        None => Ok(None),
    }
}

/// The verdict on a result of the job that a text says: the job is evaluated again, task by task,
/// with each spawn taken. Refused for want of memory, and where a number on the way doesn't fit its
/// type.
pub fn check_result(
    alloc: Global,
    job_text: &[u8],
    result_text: &[u8],
) -> Result<ResultVerdict, Unanswered>
    ensures { IfOk result (λ verdict. IsResultVerdict job_text.now result_text.now verdict) }
{
    let given = match result_object(alloc, result_text) {
        Ok(given) => given,
        Err(SessionFault::NoMemory) => return Err(Unanswered::NoMemory),
        Err(fault) => return Ok(ResultVerdict::NoResult(fault)),
    };
    let Some(job) = read_requested_job(alloc, job_text, false)? else {
        return Ok(ResultVerdict::NoJob);
    };
    let RequestedJob {
        programs,
        credit,
        buffer,
        ..
    } = job;
    let size = buffer.as_slice().len();
    let Some(tree) = tree_of(alloc, &programs, credit, buffer)? else {
        return Ok(ResultVerdict::NoAnswer);
    };
    match difference(alloc, credit, size, &given, &tree.tasks)? {
        None => Ok(ResultVerdict::Answer),
        Some(difference) => Ok(ResultVerdict::Differs(difference)),
    }
}
