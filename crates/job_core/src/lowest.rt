//! A job played in one thread.

ghost use Rattle.std.specs.Prelude.{IfOk};
ghost use Rattle.job_core.specs.PlaysLowest.{IsPlayed};

use crate::job::Job;
use crate::world::World;
use credit_book::Report;
use refusal::NoMemory;
use std::alloc::Global;

/// Plays a job to its end, always the live task of lowest number next.
///
/// A task that ended stays ended, and a child has a higher number than every task before it: so
/// each task is run on to its end, in order of number, and none is looked for.
pub fn play_lowest(alloc: Global, job: Job) -> Result<Report, NoMemory>
    ensures { IfOk result (λ report. IsPlayed job report) }
{
    let mut world = World::open(alloc, job)?;
    let mut number = 0;
    while number < world.len() {
        world.run(alloc, number, u32::MAX);
        number += 1;
    }
    match world.close() {
        Ok(report) => Ok(report),
        Err(_) => unreachable!(),
    }
}
