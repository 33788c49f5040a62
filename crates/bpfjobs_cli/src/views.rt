//! The steps of a job along its schedule, and its tree.

ghost use Rattle.std.specs.Prelude.{◌≡◌, map, IfOk, MatchOption};
ghost use Rattle.reference.specs.Records.{move_of};
ghost use Rattle.reference.specs.Evaluating.{finished_of};
ghost use Rattle.bpfjobs_cli.specs.Shown.{AreStepsPlayed, HasNoSteps, HasNoTree, IsTreeRun, taken_move};

use crate::requested_job::{RequestedJob, read_requested_job};
use reference::{ReferenceMove, Unanswered};
use refusal::NoMemory;
use run_trace::{JobStep, Tree, trace_job, tree_of};
use std::alloc::Global;

/// The entries of a schedule, at which no spawn is refused.
fn moves_of(alloc: Global, schedule: &[u32]) -> Result<Vec<ReferenceMove>, NoMemory>
    ensures { IfOk result (λ moves. map move_of moves.items ≡ map taken_move schedule.now) }
{
    let mut moves = Vec::new(alloc);
    for number in schedule {
        moves.push(ReferenceMove {
            number: *number as usize,
            refuses: false,
        })?;
    }
    Ok(moves)
}

/// The steps of the job that the input says, along its schedule, where no spawn is refused that
/// passes its tests; none where there is no job. Refused for want of memory, and where a number on
/// the way doesn't fit its type.
pub fn steps_of(alloc: Global, input: &[u8]) -> Result<Option<Vec<JobStep>>, Unanswered>
    ensures { IfOk result (λ told. MatchOption told (HasNoSteps input.now)
        (λ steps. AreStepsPlayed input.now steps.items)) }
{
    let Some(job) = read_requested_job(alloc, input, true)? else {
        return Ok(None);
    };
    let RequestedJob {
        programs,
        credit,
        buffer,
        schedule,
    } = job;
    let moves = moves_of(alloc, &schedule)?;
    trace_job(alloc, &programs, credit, buffer, &moves)
}

/// The tree of the job that the input says, where no spawn is refused that passes its tests; none
/// where there is no job. Refused for want of memory, and where a number on the way doesn't fit its
/// type.
pub fn tree_in(alloc: Global, input: &[u8]) -> Result<Option<Tree>, Unanswered>
    ensures { IfOk result (λ found. MatchOption found (HasNoTree input.now)
        (λ tree. IsTreeRun input.now (map finished_of tree.tasks.items))) }
{
    let Some(job) = read_requested_job(alloc, input, false)? else {
        return Ok(None);
    };
    let RequestedJob {
        programs,
        credit,
        buffer,
        ..
    } = job;
    tree_of(alloc, &programs, credit, buffer)
}
