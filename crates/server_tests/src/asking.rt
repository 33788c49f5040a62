//! What a runner answers that is asked for the job of two tasks, whatever it runs jobs by.

use crate::stop::{ScenarioFault, holds};
use crate::tree::{job, numbers};
use credit_book::{Progress, Report};
use std::alloc::Global;
use streams::Runner;

/// How often a runner is asked for its job.
const PATIENCE: u32 = 1_000_000_000;

/// Gives the job to a runner as number 1. `false`: the start was refused, and the runner holds
/// nothing.
fn is_started<N: Runner>(alloc: Global, runner: &mut N) -> Result<bool, ScenarioFault>
    requires { N.ready runner.old }
    ensures { N.ready runner.new }
{
    let nothing = Progress {
        spent: 0,
        returned: 0,
        complete: false,
    };
    match runner.start(alloc, 1, job(alloc)?) {
        Ok(()) => return Ok(true),
        Err(code) => holds(
            code == 81 || code == 99,
            "a start is refused by another number",
        )?,
    }
    holds(
        runner.take().is_none(),
        "a start that was refused gives a job",
    )?;
    holds(
        runner.look(1) == nothing,
        "a start that was refused is seen",
    )?;
    Ok(false)
}

/// Gives the job to a runner, again where that is refused.
pub fn start<N: Runner>(alloc: Global, runner: &mut N) -> Result<(), ScenarioFault>
    requires { N.ready runner.old }
    ensures { N.ready runner.new }
{
    if is_started(alloc, runner)? || is_started(alloc, runner)? {
        Ok(())
    } else {
        Err(ScenarioFault::Differs("a start is refused twice"))
    }
}

/// The next job that a runner gives, which is waited for.
pub fn awaited<N: Runner>(runner: &mut N) -> Option<(u64, Result<Report, u8>)>
    requires { N.ready runner.old }
    ensures { N.ready runner.new }
{
    for _ in 0..PATIENCE {
        let given = runner.take();
        if given.is_some() {
            return given;
        }
    }
    None
}

/// Adds what a runner sees of a job.
fn add_look<N: Runner>(
    runner: &mut N,
    number: u64,
    told: &mut Vec<u64>,
) -> Result<(), ScenarioFault>
    requires { N.ready runner.old }
    ensures { N.ready runner.new }
{
    let seen = runner.look(number);
    told.push(u64::from(seen.spent))?;
    told.push(u64::from(seen.returned))?;
    told.push(u64::from(seen.complete))?;
    Ok(())
}

/// What a runner answers: a start, another under the same number, a look at a job that it hasn't,
/// the job that it gives, whether there is another, and a look at what it gave.
pub fn asked<N: Runner>(
    alloc: Global,
    runner: &mut N,
    told: &mut Vec<u64>,
) -> Result<(), ScenarioFault>
    requires { N.ready runner.old }
    ensures { N.ready runner.new }
{
    for _ in 0..2u8 {
        let code = runner.start(alloc, 1, job(alloc)?).err().unwrap_or(0);
        told.push(u64::from(code))?;
    }
    add_look(runner, 2, told)?;
    match awaited(runner) {
        Some((number, Ok(report))) => {
            told.push(number)?;
            told.extend_from_slice(&numbers(alloc, &report)?)?;
        }
        _ => return Err(ScenarioFault::Differs("the job isn't given")),
    }
    told.push(u64::from(runner.take().is_some()))?;
    add_look(runner, 1, told)
}
