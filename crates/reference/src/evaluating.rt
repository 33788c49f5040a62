//! What a job comes to where each spawn is taken, computed as the definition says: a child to its
//! end, and then its parent on.

ghost use Rattle.std.specs.Prelude.{◌≡◌, ◌↔◌, ◌<◌, ◌≤◌, List, Vec, ◌⊎◌, ◌∷◌, ◌++◌, [], map, Contains, true, false, Ok, Err};
ghost use Rattle.std.specs.declared.alloc.Global.{Global};
ghost use Rattle.machine_model.specs.JobState.{with_state};
ghost use Rattle.task_trees.specs.Answer.{RootComes, spent_in};
ghost use Rattle.task_trees.specs.Eval.{Finished, root, state_with};
ghost use Rattle.reference.specs.Records.{program_of, state_of, task_of};
ghost use Rattle.reference.specs.Evaluating.{ComesFar, PathComes, finished_of, used_so_far};
ghost use Rattle.reference.specs.declared.evaluating.Evaluation.TheVariants as evaluation;
ghost use Rattle.reference.specs.declared.evaluating.FinishedTask.{FinishedTask};
ghost use Rattle.reference.specs.declared.evaluating.Pending.{Pending};
ghost use Rattle.reference.specs.declared.records.Unanswered.TheVariants as unanswered;

use crate::effects::effect;
use crate::records::{EndedTask, LiveTask, ReferenceProgram, Running, StepOutcome, Unanswered};
use crate::runs::{child_of, ending_of, root};
use std::alloc::Global;

/// A task that ended, with the bytes of the range that it left.
#[derive(Drop)]
pub struct FinishedTask {
    pub ending: EndedTask,
    pub bytes: Vec<u8>,
}

/// What an evaluation comes to.
#[derive(Drop)]
pub enum Evaluation {
    /// Each task at its end: the children in order, each after those that it spawned, and the root
    /// last.
    Comes(Vec<FinishedTask>),
    /// A task traps, so that the root comes to nothing.
    Traps,
    /// The job takes as many instructions as there may be, or more. Each spends 1 of the credit at
    /// least.
    GoesOn,
}

/// A live task with the bytes of its range.
#[derive(Drop)]
pub struct Pending {
    pub task: LiveTask,
    pub bytes: Vec<u8>,
}

/// The state of a task.
fn state_of(task: &LiveTask, bytes: Vec<u8>) -> Running
    ensures { state_of result ≡ state_with (task_of task.now) bytes.items }
{
    Running {
        slot: task.slot,
        registers: task.registers,
        stack: task.stack,
        part: bytes,
        held: task.held,
        used: task.used,
    }
}

/// A task that goes on in this state.
fn with_state(task: LiveTask, state: Running) -> Pending
    ensures task { task_of result.task ≡ with_state (task_of task) (state_of state) }
    ensures bytes { result.bytes.items ≡ state.part.items }
{
    let task = LiveTask {
        slot: state.slot,
        registers: state.registers,
        stack: state.stack,
        size: state.part.as_slice().len(),
        held: state.held,
        used: state.used,
        ..task
    };
    Pending {
        task,
        bytes: state.part,
    }
}

/// One instruction of a task: the task comes back to the path, its child after it if it spawns one,
/// or to those that are done. False where the task traps.
fn advance(
    alloc: Global,
    programs: &[ReferenceProgram],
    path: &mut Vec<Pending>,
    done: &mut Vec<FinishedTask>,
    next: Pending,
) -> Result<bool, Unanswered>
    ensures goes { result ≡ Ok true → (fs : List Finished) →
        PathComes (map program_of programs.now) (path.old.items ++ next ∷ []) done.old.items fs
        ↔ PathComes (map program_of programs.now) path.new.items done.new.items fs }
    ensures traps { result ≡ Ok false → (fs : List Finished) →
        PathComes (map program_of programs.now) (path.old.items ++ next ∷ []) done.old.items fs
        → ⊥ }
    ensures spends { result ≡ Ok true →
        used_so_far (path.old.items ++ next ∷ []) done.old.items
        < used_so_far path.new.items done.new.items }
    ensures far { result ≡ Err unanswered.TooLarge
        → ComesFar (map program_of programs.now) (task_of next.task) next.bytes.items }
    ensures onward { result ≡ Ok true → (p : Pending) → Contains path.new.items p
        → Contains path.old.items p
        ⊎ (ComesFar (map program_of programs.now) (task_of p.task) p.bytes.items
        → ComesFar (map program_of programs.now) (task_of next.task) next.bytes.items) }
{
    let Pending { task, bytes } = next;
    let Some(program) = programs.get(task.program as usize) else {
        return Ok(false);
    };
    let state = state_of(&task, bytes);
    match effect(alloc, program, programs, state)? {
        StepOutcome::Continues(state) => path.push(with_state(task, state))?,
        StepOutcome::Ends(r0, last) => {
            let ending = ending_of(alloc, &task, &last, r0)?;
            done.push(FinishedTask {
                ending,
                bytes: last.part,
            })?;
        }
        StepOutcome::Spawns(child, taken, _) => {
            let Some(children) = task.children.checked_add(1) else {
                return Err(Unanswered::TooLarge);
            };
            let born = child_of(alloc, &task, &taken, &child, children)?;
            path.push(with_state(LiveTask { children, ..task }, taken))?;
            path.push(Pending {
                task: born,
                bytes: child.bytes,
            })?;
        }
        StepOutcome::Calls(..) => return Ok(false),
        StepOutcome::Traps(_) => return Ok(false),
    }
    Ok(true)
}

/// What the root of a job comes to with all that it spawns, where each spawn that passes its tests
/// is taken, in fewer instructions of all tasks together than `steps`. An Err says that there is no
/// answer: for want of memory, or where a number on the way doesn't fit its type.
pub fn evaluate(
    alloc: Global,
    programs: &[ReferenceProgram],
    credit: u32,
    buffer: Vec<u8>,
    steps: u32,
) -> Result<Evaluation, Unanswered>
    ensures comes { (fs : Vec FinishedTask Global) → result ≡ Ok (evaluation.Comes fs) →
        RootComes (map program_of programs.now) credit buffer.items (map finished_of fs.items) }
    ensures traps { result ≡ Ok evaluation.Traps → (fs : List Finished)
        → RootComes (map program_of programs.now) credit buffer.items fs → ⊥ }
    ensures goes_on { result ≡ Ok evaluation.GoesOn → (fs : List Finished)
        → RootComes (map program_of programs.now) credit buffer.items fs
        → steps ≤ spent_in fs }
    ensures far { result ≡ Err unanswered.TooLarge
        → ComesFar (map program_of programs.now) (root credit buffer.items) buffer.items }
{
    let root = root(alloc, credit, buffer.as_slice().len());
    let mut path = Vec::new(alloc);
    path.push(Pending {
        task: root,
        bytes: buffer,
    })?;
    let mut done = Vec::new(alloc);
    for _ in 0..steps {
        let Some(next) = path.pop() else {
            return Ok(Evaluation::Comes(done));
        };
        if !advance(alloc, programs, &mut path, &mut done, next)? {
            return Ok(Evaluation::Traps);
        }
    }
    Ok(Evaluation::GoesOn)
}
