//! The steps of a job along a schedule.

ghost use Rattle.std.specs.Prelude.{◌≡◌, ◌++◌, map, slice_get, Err, IfOk, MatchOption, None, Some};
ghost use Rattle.machine_model.specs.JobState.{JobState, run, start, step};
ghost use Rattle.reference.specs.Records.{IsFarRun, IsFarStep, birth_from, effect_of, job_of, move_of, state_of};
ghost use Rattle.reference.specs.declared.records.JobMember.TheVariants as member;
ghost use Rattle.reference.specs.declared.records.Unanswered.TheVariants as untraced;
ghost use Rattle.flow_graph.specs.Program.{IsDecoded};
ghost use Rattle.run_trace.specs.Spelled.{AreListed, listings_of, programs_of};
ghost use Rattle.run_trace.specs.JobSteps.{AreStepsOf, IsStepIfAlive, born_as, listed_step};
ghost use Rattle.run_trace.specs.JobTelling.{IsEffectIn, IsToldBy};

use crate::job_programs::JobPrograms;
use crate::job_step::{Born, Came, JobStep};
use crate::tracing::{Listing, step_between};
use insn_codec::Placed;
use reference::{
    Child, JobMember, LiveTask, ReferenceJob, ReferenceMove, Running, StepOutcome, Unanswered,
    effect, start, state_in, step,
};
use refusal::NoMemory;
use std::alloc::Global;

/// The task with the bytes that it keeps of its part.
fn cut(alloc: Global, state: &Running, taken: &Running) -> Result<Running, NoMemory>
    ensures { IfOk result (λ s. state_of s
        ≡ record (state_of state.now) { part = (state_of taken.now).part }) }
{
    let mut part = Vec::new(alloc);
    part.extend_from_slice(&taken.part)?;
    Ok(Running {
        slot: state.slot,
        registers: state.registers,
        stack: state.stack,
        part,
        held: state.held,
        used: state.used,
    })
}

/// The child of this number.
fn born(child: &Child, number: usize) -> Born
    ensures { result ≡ born_as number (birth_from child.now) }
{
    let bytes = child.bytes.as_slice();
    Born {
        number,
        program: child.program,
        share: child.share,
        arg: child.arg,
        size: bytes.len(),
    }
}

/// What is told of an effect on task `number` of so many; none where the job doesn't go on.
fn tell(
    alloc: Global,
    placed: &[Placed],
    before: &Running,
    outcome: &StepOutcome,
    entry: ReferenceMove,
    count: usize,
) -> Result<Option<JobStep>, NoMemory>
    requires turn { IsDecoded placed.now }
    requires effect { IsEffectIn placed.now (state_of before.now) (effect_of outcome.now) }
    ensures { IfOk result (λ told. IsToldBy placed.now entry.number count entry.refuses
        (state_of before.now) told (effect_of outcome.now)) }
{
    let listing = Listing { placed, lines: &[] };
    let task = entry.number;
    match outcome {
        StepOutcome::Continues(next) => {
            let step = step_between(alloc, &listing, before, next)?;
            let came = Came::Continued;
            Ok(Some(JobStep { task, step, came }))
        }
        StepOutcome::Ends(r0, last) => {
            let step = step_between(alloc, &listing, before, last)?;
            let came = Came::Ended(*r0);
            Ok(Some(JobStep { task, step, came }))
        }
        StepOutcome::Spawns(child, taken, refused) => {
            if entry.refuses {
                let step = step_between(alloc, &listing, before, refused)?;
                let came = Came::Continued;
                Ok(Some(JobStep { task, step, came }))
            } else {
                let kept = cut(alloc, before, taken)?;
                let step = step_between(alloc, &listing, &kept, taken)?;
                let came = Came::Spawned(born(child, count));
                Ok(Some(JobStep { task, step, came }))
            }
        }
        StepOutcome::Calls(..) => Ok(None),
        StepOutcome::Traps(_) => Ok(None),
    }
}

/// What is told of a step of a live task.
fn told_of(
    alloc: Global,
    programs: &JobPrograms,
    job: &ReferenceJob,
    task: &LiveTask,
    entry: ReferenceMove,
) -> Result<Option<JobStep>, Unanswered>
    requires listed { AreListed (listings_of programs.now) (programs_of programs.now) }
    requires alive { slice_get job.now.tasks.items entry.number ≡ Some (member.Live task.now) }
    ensures told { IfOk result (λ told. (next : JobState)
        → step (programs_of programs.now) (job_of job.now) entry.number entry.refuses ≡ Some next
        → IsStepIfAlive (listings_of programs.now) (programs_of programs.now) (job_of job.now)
        (move_of entry) told) }
    ensures far { result ≡ Err untraced.TooLarge
        → IsFarStep (programs_of programs.now) (job_of job.now) entry.number entry.refuses }
{
    let place = task.program as usize;
    match programs.programs.get(place) {
        None => Ok(None),
        Some(program) => {
            let before = state_in(alloc, &job.buffer, task)?;
            let state = state_in(alloc, &job.buffer, task)?;
            let outcome = effect(alloc, program, &programs.programs, state)?;
            let placed = &programs.listings[place].placed;
            let count = job.tasks.len();
            let told = tell(alloc, placed, &before, &outcome, entry, count)?;
            Ok(told)
        }
    }
}

/// What is told of an entry, if the job goes on there.
fn told_at(
    alloc: Global,
    programs: &JobPrograms,
    job: &ReferenceJob,
    entry: ReferenceMove,
) -> Result<Option<JobStep>, Unanswered>
    requires listed { AreListed (listings_of programs.now) (programs_of programs.now) }
    ensures told { IfOk result (λ told. (next : JobState)
        → step (programs_of programs.now) (job_of job.now) entry.number entry.refuses ≡ Some next
        → IsStepIfAlive (listings_of programs.now) (programs_of programs.now) (job_of job.now)
        (move_of entry) told) }
    ensures far { result ≡ Err untraced.TooLarge
        → IsFarStep (programs_of programs.now) (job_of job.now) entry.number entry.refuses }
{
    match job.tasks.get(entry.number) {
        None => Ok(None),
        Some(member) => match member {
            JobMember::Ended(_) => Ok(None),
            JobMember::Live(task) => told_of(alloc, programs, job, task, entry),
        },
    }
}

/// The steps with one more, if there is one.
fn extended(mut steps: Vec<JobStep>, told: Option<JobStep>) -> Result<Vec<JobStep>, NoMemory>
    ensures { IfOk result (λ more. more.items ≡ steps.items ++ listed_step told) }
{
    if let Some(step) = told {
        steps.push(step)?;
    }
    Ok(steps)
}

/// The steps of a job along these entries, in their order, from its start with this credit and
/// buffer: each as the definitions' step makes it, with the number of its task. An entry whose
/// number is that of no live task tells nothing. None where a task traps on the way, as no task of
/// an admitted job does. Refused for want of memory, and where a number on the way doesn't fit its
/// type.
pub fn trace_job(
    alloc: Global,
    programs: &JobPrograms,
    credit: u32,
    buffer: Vec<u8>,
    moves: &[ReferenceMove],
) -> Result<Option<Vec<JobStep>>, Unanswered>
    requires { AreListed (listings_of programs.now) (programs_of programs.now) }
    ensures steps { IfOk result (λ told. MatchOption told
        (run (programs_of programs.now) (start credit buffer.items) (map move_of moves.now) ≡ None)
        (λ steps. AreStepsOf (listings_of programs.now) (programs_of programs.now)
        (start credit buffer.items) (map move_of moves.now) steps.items)) }
    ensures far { result ≡ Err untraced.TooLarge
        → IsFarRun (programs_of programs.now) (start credit buffer.items)
        (map move_of moves.now) }
{
    let mut job = start(alloc, credit, buffer)?;
    let mut steps = Vec::new(alloc);
    for entry in moves {
        let told = told_at(alloc, programs, &job, *entry)?;
        if !step(
            alloc,
            &programs.programs,
            &mut job,
            entry.number,
            entry.refuses,
        )? {
            return Ok(None);
        }
        steps = extended(steps, told)?;
    }
    Ok(Some(steps))
}
