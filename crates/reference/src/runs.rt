//! Runs of a job, computed as the definitions say.

ghost use Rattle.std.specs.Prelude.{◌≡◌, ℕ, suc, ◌+◌, ◌^◌, ◌<◌, ◌≤◌, ◌⊎◌, length, take, drop, slice_set, map, option_map, slice_get, Bool, false, List, Option, Some, Ok, Err, IfOk, OnOk};
ghost use Rattle.machine_model.specs.JobState.{JobState, applied, run, start, state_in, step, with_state, child_of, ending_of, entry_registers, goes_on};
ghost use Rattle.machine_model.specs.Machine.{Ends, Spawns, State};
ghost use Rattle.task_trees.specs.Eval.{root};
ghost use Rattle.reference.specs.declared.records.Change.{Change};
ghost use Rattle.reference.specs.declared.records.Unanswered.{Unanswered};
ghost use Rattle.reference.specs.declared.records.Unanswered.TheVariants as unanswered;
ghost use Rattle.machine_model.specs.Memory.{written};
ghost use Rattle.reference.specs.Records.{BearsFar, IsFarRun, IsFarStep, birth_from, changed_by, step_by, effect_of, ended_of, job_of, member_of, move_of, program_of, registers_of, state_of, task_of, when};

use crate::effects::effect;
use crate::records::{
    Change, Child, Content, EndedTask, JobMember, LiveTask, ReferenceJob, ReferenceMove,
    ReferenceProgram, Running, StepOutcome, Unanswered,
};
use std::alloc::Global;

fn take_first(bytes: &[u8], count: usize) -> &[u8]
    ensures { result.now ≡ take count bytes.now }
{
    if count < bytes.len() {
        &bytes[..count]
    } else {
        bytes
    }
}

fn drop_first(bytes: &[u8], count: usize) -> &[u8]
    ensures { result.now ≡ drop count bytes.now }
{
    if count < bytes.len() {
        &bytes[count..]
    } else {
        &[]
    }
}

fn copy_places(alloc: Global, places: &[u64]) -> Result<Vec<u64>, Unanswered>
    ensures value { IfOk result (λ v. v.items ≡ places.now) }
    ensures memory { (error : Unanswered) → result ≡ Err error → error ≡ unanswered.NoMemory }
{
    let mut copy = Vec::new(alloc);
    copy.extend_from_slice(places)?;
    Ok(copy)
}

/// The state of a task, with the bytes of its range.
pub fn state_in(alloc: Global, buffer: &[u8], task: &LiveTask) -> Result<Running, Unanswered>
    ensures value { IfOk result (λ s. state_of s ≡ state_in buffer.now (task_of task.now)) }
    ensures memory { (error : Unanswered) → result ≡ Err error → error ≡ unanswered.NoMemory }
{
    let mut part = Vec::new(alloc);
    part.extend_from_slice(take_first(drop_first(buffer, task.base), task.size))?;
    Ok(Running {
        slot: task.slot,
        registers: task.registers,
        stack: task.stack,
        part,
        held: task.held,
        used: task.used,
    })
}

/// The buffer with these bytes from a place on.
fn write_over(alloc: Global, buffer: &[u8], at: usize, bytes: &[u8]) -> Result<Vec<u8>, Unanswered>
    ensures value { IfOk result (λ v. v.items ≡ written buffer.now at bytes.now) }
    ensures memory { (error : Unanswered) → result ≡ Err error → error ≡ unanswered.NoMemory }
{
    let mut whole = Vec::new(alloc);
    whole.extend_from_slice(take_first(buffer, at))?;
    whole.extend_from_slice(bytes)?;
    whole.extend_from_slice(drop_first(drop_first(buffer, at), bytes.len()))?;
    Ok(whole)
}

fn with_state(alloc: Global, task: &LiveTask, state: &Running) -> Result<LiveTask, Unanswered>
    ensures value { IfOk result (λ t. task_of t
        ≡ with_state (task_of task.now) (state_of state.now)) }
    ensures memory { (error : Unanswered) → result ≡ Err error → error ≡ unanswered.NoMemory }
{
    let place = copy_places(alloc, &task.place)?;
    let part = state.part.as_slice();
    Ok(LiveTask {
        program: task.program,
        arg: task.arg,
        given: task.given,
        place,
        children: task.children,
        slot: state.slot,
        registers: state.registers,
        stack: state.stack,
        base: task.base,
        size: part.len(),
        held: state.held,
        used: state.used,
    })
}

/// R1 points to the part, R2 has its length, R3 the argument, and R10 points to the stack's end.
pub(crate) fn entry_registers(size: usize, arg: u64) -> [Content; 11]
    ensures { registers_of result ≡ entry_registers size arg }
{
    [
        Content::Unset,
        Content::Part(0),
        Content::Num(size as u64),
        Content::Num(arg),
        Content::Unset,
        Content::Unset,
        Content::Unset,
        Content::Unset,
        Content::Unset,
        Content::Unset,
        Content::Stack(512),
    ]
}

/// The child of a task that now has this state: of all its children the one with this number,
/// counted from 1.
pub(crate) fn child_of(
    alloc: Global,
    task: &LiveTask,
    state: &Running,
    child: &Child,
    number: u64,
) -> Result<LiveTask, Unanswered>
    requires { number ≡ suc task.now.children }
    ensures value { IfOk result (λ t. task_of t
        ≡ child_of (task_of task.now) (state_of state.now) (birth_from child.now)) }
    ensures far { result ≡ Err unanswered.TooLarge
        → 2 ^ 64 ≤ task.now.base + length state.now.part.items }
{
    let mut place = copy_places(alloc, &task.place)?;
    place.push(number)?;
    let part = state.part.as_slice();
    let Some(base) = task.base.checked_add(part.len()) else {
        return Err(Unanswered::TooLarge);
    };
    let bytes = child.bytes.as_slice();
    Ok(LiveTask {
        program: child.program,
        arg: child.arg,
        given: child.share,
        place,
        children: 0,
        slot: 0,
        registers: entry_registers(bytes.len(), child.arg),
        stack: [0; 512],
        base,
        size: bytes.len(),
        held: child.share,
        used: 0,
    })
}

/// What is left of a task that ends in this state, with R0.
pub(crate) fn ending_of(
    alloc: Global,
    task: &LiveTask,
    state: &Running,
    r0: u64,
) -> Result<EndedTask, Unanswered>
    ensures value { IfOk result (λ e. ended_of e
        ≡ ending_of (task_of task.now) (state_of state.now) r0) }
    ensures memory { (error : Unanswered) → result ≡ Err error → error ≡ unanswered.NoMemory }
{
    let place = copy_places(alloc, &task.place)?;
    Ok(EndedTask {
        program: task.program,
        arg: task.arg,
        given: task.given,
        place,
        base: task.base,
        size: task.size,
        spent: state.used,
        rest: state.held.saturating_sub(state.used),
        r0,
    })
}

/// What a task that goes on in this state makes of the job.
fn go_on(
    alloc: Global,
    buffer: &[u8],
    task: &LiveTask,
    next: &Running,
) -> Result<Change, Unanswered>
    ensures value { IfOk result (λ c. (j : JobState) (n : ℕ) → j.buffer ≡ buffer.now →
        changed_by j n c ≡ goes_on j n (task_of task.now) (state_of next.now)) }
    ensures memory { (error : Unanswered) → result ≡ Err error → error ≡ unanswered.NoMemory }
{
    let buffer = write_over(alloc, buffer, task.base, &next.part)?;
    let live = with_state(alloc, task, next)?;
    Ok(Change {
        buffer,
        member: JobMember::Live(live),
        born: None,
    })
}

fn copy_bytes(alloc: Global, bytes: &[u8]) -> Result<Vec<u8>, Unanswered>
    ensures value { IfOk result (λ v. v.items ≡ bytes.now) }
    ensures memory { (error : Unanswered) → result ≡ Err error → error ≡ unanswered.NoMemory }
{
    let mut copy = Vec::new(alloc);
    copy.extend_from_slice(bytes)?;
    Ok(copy)
}

/// What a task that ends makes of the job.
fn end_task(
    alloc: Global,
    buffer: &[u8],
    task: &LiveTask,
    last: &Running,
    r0: u64,
) -> Result<Change, Unanswered>
    ensures value { IfOk result (λ c. (j : JobState) (n : ℕ) → j.buffer ≡ buffer.now
        → (refuses : Bool) →
        Some (changed_by j n c)
        ≡ applied j n (task_of task.now) refuses (Ends r0 (state_of last.now))) }
    ensures memory { (error : Unanswered) → result ≡ Err error → error ≡ unanswered.NoMemory }
{
    let buffer = copy_bytes(alloc, buffer)?;
    let ended = ending_of(alloc, task, last, r0)?;
    Ok(Change {
        buffer,
        member: JobMember::Ended(ended),
        born: None,
    })
}

/// What a spawn that is taken makes of the job.
fn bear_child(
    alloc: Global,
    buffer: &[u8],
    task: &LiveTask,
    child: &Child,
    taken: &Running,
) -> Result<Change, Unanswered>
    ensures value { IfOk result (λ c. (j : JobState) (n : ℕ) → j.buffer ≡ buffer.now
        → (refused : State) →
        Some (changed_by j n c)
        ≡ applied j n (task_of task.now) false
        (Spawns (birth_from child.now) (state_of taken.now) refused)) }
    ensures far { result ≡ Err unanswered.TooLarge →
        (2 ^ 64 ≤ task.now.base + length taken.now.part.items) ⊎ (2 ^ 64 ≤ task.now.children + 1) }
{
    let buffer = copy_bytes(alloc, buffer)?;
    let mut parent = with_state(alloc, task, taken)?;
    let Some(children) = task.children.checked_add(1) else {
        return Err(Unanswered::TooLarge);
    };
    parent.children = children;
    let born = child_of(alloc, task, taken, child, children)?;
    Ok(Change {
        buffer,
        member: JobMember::Live(parent),
        born: Some(born),
    })
}

/// What an effect on a live task makes of the job. None after a trap.
fn change(
    alloc: Global,
    buffer: &[u8],
    task: &LiveTask,
    refuses: bool,
    outcome: &StepOutcome,
) -> Result<Option<Change>, Unanswered>
    ensures value { IfOk result (λ o. (j : JobState) (n : ℕ) → j.buffer ≡ buffer.now →
        option_map (changed_by j n) o
        ≡ applied j n (task_of task.now) refuses (effect_of outcome.now)) }
    ensures far { result ≡ Err unanswered.TooLarge
        → BearsFar (task_of task.now) refuses (effect_of outcome.now) }
{
    match outcome {
        StepOutcome::Continues(next) => Ok(Some(go_on(alloc, buffer, task, next)?)),
        StepOutcome::Ends(r0, last) => Ok(Some(end_task(alloc, buffer, task, last, *r0)?)),
        StepOutcome::Spawns(child, taken, refused) => {
            if refuses {
                Ok(Some(go_on(alloc, buffer, task, refused)?))
            } else {
                Ok(Some(bear_child(alloc, buffer, task, child, taken)?))
            }
        }
        StepOutcome::Calls(..) | StepOutcome::Traps(_) => Ok(None),
    }
}

/// Puts the change of task `n` into the job.
fn apply(job: &mut ReferenceJob, n: usize, change: Change) -> Result<(), Unanswered>
    requires { n < length job.old.tasks.items }
    ensures value { OnOk result (job_of job.new ≡ changed_by (job_of job.old) n change) }
    ensures memory { (error : Unanswered) → result ≡ Err error → error ≡ unanswered.NoMemory }
{
    let Change {
        buffer,
        member,
        born,
    } = change;
    job.buffer = buffer;
    job.tasks[n] = member;
    if let Some(task) = born {
        job.tasks.push(JobMember::Live(task))?;
    }
    Ok(())
}

/// What a step of task `n` makes of the job, where the task is alive. The first is None where no
/// step is done, and the second where it traps.
fn step_change(
    alloc: Global,
    programs: &[ReferenceProgram],
    job: &ReferenceJob,
    n: usize,
    refuses: bool,
) -> Result<Option<Option<Change>>, Unanswered>
    ensures steps { IfOk result (λ o. step_by (job_of job.now) n o
        ≡ step (map program_of programs.now) (job_of job.now) n refuses) }
    ensures within { IfOk result (λ o. (c : Option Change) → o ≡ Some c
        → n < length job.now.tasks.items) }
    ensures far { result ≡ Err unanswered.TooLarge
        → IsFarStep (map program_of programs.now) (job_of job.now) n refuses }
{
    match job.tasks.get(n) {
        None => Ok(None),
        Some(member) => match member {
            JobMember::Ended(_) => Ok(None),
            JobMember::Live(task) => match programs.get(task.program as usize) {
                None => Ok(Some(None)),
                Some(program) => {
                    let state = state_in(alloc, &job.buffer, task)?;
                    let outcome = effect(alloc, program, programs, state)?;
                    let change = change(alloc, &job.buffer, task, refuses, &outcome)?;
                    Ok(Some(change))
                }
            },
        },
    }
}

/// One step of task `n`. False where it traps: the job is then as it was.
pub fn step(
    alloc: Global,
    programs: &[ReferenceProgram],
    job: &mut ReferenceJob,
    n: usize,
    refuses: bool,
) -> Result<bool, Unanswered>
    ensures value { IfOk result (λ went. when went (job_of job.new)
        ≡ step (map program_of programs.now) (job_of job.old) n refuses) }
    ensures kept { result ≡ Ok false → job_of job.new ≡ job_of job.old }
    ensures far { result ≡ Err unanswered.TooLarge
        → IsFarStep (map program_of programs.now) (job_of job.old) n refuses }
{
    match step_change(alloc, programs, job, n, refuses)? {
        None => Ok(true),
        Some(None) => Ok(false),
        Some(Some(change)) => {
            apply(job, n, change)?;
            Ok(true)
        }
    }
}

/// The root of a job at its start, with all the credit and so many bytes.
pub(crate) fn root(alloc: Global, credit: u32, size: usize) -> LiveTask
    ensures { (buffer : List ℕ) → length buffer ≡ size → task_of result ≡ root credit buffer }
{
    LiveTask {
        program: 0,
        arg: 0,
        given: credit,
        place: Vec::new(alloc),
        children: 0,
        slot: 0,
        registers: entry_registers(size, 0),
        stack: [0; 512],
        base: 0,
        size,
        held: credit,
        used: 0,
    }
}

/// The root alone, with all the credit and the whole buffer.
pub fn start(alloc: Global, credit: u32, buffer: Vec<u8>) -> Result<ReferenceJob, Unanswered>
    ensures value { IfOk result (λ j. job_of j ≡ start credit buffer.items) }
    ensures memory { (error : Unanswered) → result ≡ Err error → error ≡ unanswered.NoMemory }
{
    let size = buffer.as_slice().len();
    let mut tasks = Vec::new(alloc);
    tasks.push(JobMember::Live(root(alloc, credit, size)))?;
    Ok(ReferenceJob { buffer, tasks })
}

/// The job after these moves, from the start of one with this credit and buffer. None where a task
/// traps on the way. An Err says that there is no answer: for want of memory, or where a number on
/// the way doesn't fit its type.
pub fn run(
    alloc: Global,
    programs: &[ReferenceProgram],
    credit: u32,
    buffer: Vec<u8>,
    moves: &[ReferenceMove],
) -> Result<Option<ReferenceJob>, Unanswered>
    ensures value { IfOk result (λ o. option_map job_of o
        ≡ run (map program_of programs.now) (start credit buffer.items) (map move_of moves.now)) }
    ensures far { result ≡ Err unanswered.TooLarge →
        IsFarRun (map program_of programs.now) (start credit buffer.items) (map move_of moves.now) }
{
    let mut job = start(alloc, credit, buffer)?;
    for entry in moves {
        if !step(alloc, programs, &mut job, entry.number, entry.refuses)? {
            return Ok(None);
        }
    }
    Ok(Some(job))
}
