//! The job on two workers, in this thread and in threads of its own.

ghost use Rattle.std.specs.Prelude.{◌≡◌, ◌≤◌, IfOk};

use crate::asking::{asked, awaited, start};
use crate::stop::{ScenarioFault, holds};
use crate::tree::{CREDIT, job, numbers, told as told_of};
use credit_book::{Board, Reader, Report};
use job_core::Job;
use job_pools::{JobRequest, JobThread, PoolRunner, start_thread};
use std::alloc::Global;
use std::sync::Wait;
use std::thread::Threads;
use streams::Runner;
use workers::{OpenGate, PoolFault, run_job, run_whole};

const WORKERS: u32 = 2;

/// What a task that wasn't run leaves, beside one that was: nothing is spent of what it was given.
fn told_by_pool(alloc: Global, report: &Report) -> Result<Vec<u64>, ScenarioFault> {
    let mut spent = 0u32;
    let mut rest = 0u32;
    let mut all_ran = true;
    for end in &report.tasks {
        spent = spent.saturating_add(end.spent);
        rest = rest.saturating_add(end.rest);
        all_ran &= end.ran;
        holds(end.ran || end.spent == 0, "a task that didn't run spent")?;
    }
    let sums = spent == report.spent && rest == report.returned;
    holds(sums, "the tasks' sums are not the report's")?;
    holds(
        report.spent.checked_add(report.returned) == Some(CREDIT),
        "the report doesn't add up",
    )?;
    if all_ran {
        told_of(alloc, report)
    } else {
        Err(ScenarioFault::Refused)
    }
}

/// The job's credit, which a board takes.
fn credit_of(job: &Job) -> Result<u32, ScenarioFault>
    ensures { IfOk result (λ credit. (credit ≡ job.now.credit) × (1 ≤ credit)
        × (credit ≤ 2147483647)) }
{
    let credit = job.credit();
    if credit < 1 || credit > 2_147_483_647 {
        return Err(ScenarioFault::Differs("the job has another credit"));
    }
    Ok(credit)
}

/// The board says what the report does.
fn agrees(board: &Board, reader: &mut Reader, report: &Report) -> Result<(), ScenarioFault>
    requires { reader.old.board ≡ board.now }
{
    let seen = board.look(reader);
    let same = seen.complete && (seen.spent, seen.returned) == (report.spent, report.returned);
    holds(same, "the board doesn't say what the report does")
}

/// The job on two workers, under a board that is looked at when it is over.
pub fn run_by_two<R: Threads + Wait + Sync>(
    rt: &R,
    alloc: Global,
) -> Result<Vec<u64>, ScenarioFault> {
    let job = job(alloc)?;
    let (board, post, mut reader) = Board::open(alloc, 1, credit_of(&job)?)?;
    match run_job(rt, alloc, job, post, WORKERS, &OpenGate) {
        Ok(report) => {
            agrees(&board, &mut reader, &report)?;
            told_by_pool(alloc, &report)
        }
        Err(PoolFault::NoMemory) | Err(PoolFault::NoWorker) => Err(ScenarioFault::Refused),
        Err(PoolFault::BookRefused) => Err(ScenarioFault::Differs("the book refused an end")),
    }
}

/// The job's one answer by two workers, of which this thread is one. It has the child, whatever was
/// refused.
pub fn run_whole_by_two<R: Threads + Wait + Sync>(
    rt: &R,
    alloc: Global,
) -> Result<Vec<u64>, ScenarioFault> {
    let job = job(alloc)?;
    let (board, post, mut reader) = Board::open(alloc, 1, credit_of(&job)?)?;
    match run_whole(rt, alloc, job, post, WORKERS, &OpenGate) {
        Ok(report) => {
            agrees(&board, &mut reader, &report)?;
            holds(
                report.tasks.len() == 2,
                "a refused spawn stands in an answer",
            )?;
            numbers(alloc, &report)
        }
        Err(_) => Err(ScenarioFault::Refused),
    }
}

/// The job in a thread of its own, taken when it has ended.
pub fn run_by_runner<R>(rt: R, alloc: Global) -> Result<Vec<u64>, ScenarioFault>
where
    R: Threads + Wait + Copy + Send + Sync + Drop + 'static,
{
    let starter = move |request: JobRequest| -> Option<JobThread> {
        start_thread(rt, request, WORKERS)
    };
    let mut runner = PoolRunner::new(rt, alloc, starter);
    if let Err(stop) = start(alloc, &mut runner) {
        runner.join_all();
        return Err(stop);
    }
    let given = awaited(&mut runner);
    runner.join_all();
    match given {
        Some((1, Ok(report))) => told_by_pool(alloc, &report),
        Some((1, Err(81))) | Some((1, Err(99))) => Err(ScenarioFault::Refused),
        Some(_) => Err(ScenarioFault::Differs("the job fails by another number")),
        None => Err(ScenarioFault::Differs("the job isn't given")),
    }
}

/// What a runner answers about a job.
pub fn answers<R>(rt: R, alloc: Global) -> Result<Vec<u64>, ScenarioFault>
where
    R: Threads + Wait + Copy + Send + Sync + Drop + 'static,
{
    let starter = move |request: JobRequest| -> Option<JobThread> {
        start_thread(rt, request, WORKERS)
    };
    let mut runner = PoolRunner::new(rt, alloc, starter);
    let mut told = Vec::new(alloc);
    let well = asked(alloc, &mut runner, &mut told);
    runner.join_all();
    well?;
    Ok(told)
}
