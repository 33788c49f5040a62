//! The ends of a job's tasks without their places and numbers, in order.

ghost use Rattle.std.specs.Prelude.{◌≡◌, map, IfOk, MatchOption};
ghost use Rattle.reference.specs.Evaluating.{finished_of};
ghost use Rattle.reference.specs.Records.{ended_of};
ghost use Rattle.bpfjobs_cli.specs.TaskSummaries.{Ascends, IsUnshared, result_summary, summary_of};

use reference::{EndedTask, FinishedTask};
use refusal::NoMemory;
use sessions::ResultTask;
use std::alloc::Global;
use std::cmp::Ordering;
use std::fmt;

/// A task's end, without its place and its number.
#[derive(Clone, Copy, Debug, PartialEq, Eq, PartialOrd, Ord)]
pub struct TaskSummary {
    /// The number of its program.
    pub program: u64,
    pub r0: u64,
    pub spent: u32,
    /// The credit that it returned.
    pub rest: u32,
}

impl fmt::Display for TaskSummary {
    fn fmt<W: fmt::Write>(&self, f: &mut fmt::Formatter<W>) -> fmt::Result {
        write!(
            f,
            "program {}, R0 {}, spent {}, returned {}",
            self.program, self.r0, self.spent, self.rest
        )
    }
}

/// A task whose end two lists don't have equally often.
#[derive(Clone, Copy, Debug, PartialEq, Eq)]
pub enum UnsharedTask {
    /// The first list has it more often.
    Extra(TaskSummary),
    /// The second list has it more often.
    Missing(TaskSummary),
}

fn summary_of(task: &EndedTask) -> TaskSummary
    ensures { result ≡ summary_of (ended_of task.now) }
{
    TaskSummary {
        program: task.program,
        r0: task.r0,
        spent: task.spent,
        rest: task.rest,
    }
}

fn result_summary(task: &ResultTask) -> TaskSummary
    ensures { result ≡ result_summary task.now }
{
    TaskSummary {
        program: u64::from(task.program),
        r0: task.r0,
        spent: task.spent,
        rest: task.rest,
    }
}

/// The ends of an answer's tasks.
pub(crate) fn answer_summaries(
    alloc: Global,
    tasks: &[FinishedTask],
) -> Result<Vec<TaskSummary>, NoMemory>
    ensures { IfOk result (λ found. found.items
        ≡ map (λ f. summary_of f.ending) (map finished_of tasks.now)) }
{
    let mut found = Vec::new(alloc);
    for task in tasks {
        found.push(summary_of(&task.ending))?;
    }
    Ok(found)
}

/// The ends of a result's tasks.
pub(crate) fn result_summaries(
    alloc: Global,
    tasks: &[ResultTask],
) -> Result<Vec<TaskSummary>, NoMemory>
    ensures { IfOk result (λ found. found.items ≡ map result_summary tasks.now) }
{
    let mut found = Vec::new(alloc);
    for task in tasks {
        found.push(result_summary(task))?;
    }
    Ok(found)
}

/// The first end that two ascending lists don't have equally often; none where they are the same.
pub(crate) fn first_unshared(
    given: &[TaskSummary],
    expected: &[TaskSummary],
) -> Option<UnsharedTask>
    requires given { Ascends given.now }
    requires expected { Ascends expected.now }
    ensures { MatchOption result (given.now ≡ expected.now)
        (λ unshared. IsUnshared given.now expected.now unshared) }
{
    let mut left = given;
    let mut right = expected;
    'ends: while let Some((end, later)) = left.split_first() {
        let Some((other, others)) = right.split_first() else {
            return Some(UnsharedTask::Extra(*end));
        };
        match end.cmp(other) {
            Ordering::Less => return Some(UnsharedTask::Extra(*end)),
            Ordering::Greater => return Some(UnsharedTask::Missing(*other)),
            Ordering::Equal => {}
        }
        left = later;
        right = others;
    }
    match right.split_first() {
        Some((other, _)) => Some(UnsharedTask::Missing(*other)),
        None => None,
    }
}
