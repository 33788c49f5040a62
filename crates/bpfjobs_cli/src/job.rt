//! Jobs that are played by a schedule.

ghost use Rattle.std.specs.Prelude.{◌≡◌, IfOk};
ghost use Rattle.job_core.specs.Representation.{RepresentsJob};
ghost use Rattle.machine_model.specs.JobState as model;
ghost use Rattle.bpfjobs_cli.specs.Printed.{Prints};
ghost use Rattle.bpfjobs_cli.specs.Jobs.{PrintsPlay, PrintsProgress};

use crate::answer::{Answer, answer_failure, answer_reply};
use crate::declined::read_job;
use job_core::{World, play};
use refusal::NoMemory;
use sessions::Reply;
use std::alloc::Global;

// How far the job is.
fn answer_world(alloc: Global, world: &World) -> Result<Answer, NoMemory>
    ensures { IfOk result (λ answer. (j : model.JobState) → RepresentsJob world.now j
        → PrintsProgress j answer.text.items answer.status answer.code) }
{
    let buffer = world.buffer(alloc)?;
    let totals = world.totals();
    let reply = Reply::Play {
        buffer: &buffer,
        complete: world.report().is_some(),
        held: totals.held,
        returned: totals.returned,
        spent: totals.spent,
        used: totals.used,
    };
    answer_reply(alloc, &reply, 0)
}

/// How far the job that the input says comes by its schedule, as the reply; or the refusal as a
/// reply.
pub fn answer_play(alloc: Global, input: &[u8]) -> Result<Answer, NoMemory>
    ensures { IfOk result (λ answer. PrintsPlay input.now answer.text.items answer.status answer.code) }
{
    let (job, schedule) = match read_job(alloc, input, true) {
        Ok(order) => order,
        Err(why) => return why.answer(alloc),
    };
    match play(alloc, job, &schedule) {
        Ok(world) => answer_world(alloc, &world),
        Err(NoMemory) => answer_failure(alloc, 99),
    }
}
