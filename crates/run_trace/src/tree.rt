//! The tasks of a job at their ends, as a tree.

ghost use Rattle.std.specs.Prelude.{◌≡◌, ◌≤◌, option_map, map, Err, IfOk, MatchOption};
ghost use Rattle.machine_model.specs.Limits.{max_credit};
ghost use Rattle.task_trees.specs.Eval.{root};
ghost use Rattle.reference.specs.Evaluating.{ComesFar, finished_of};
ghost use Rattle.reference.specs.declared.records.Unanswered.TheVariants as untraced;
ghost use Rattle.run_trace.specs.Spelled.{programs_of};
ghost use Rattle.run_trace.specs.Trees.{IsParentOf, IsTree, NoTree};

use crate::job_programs::JobPrograms;
use reference::{Evaluation, FinishedTask, Unanswered, evaluate};
use std::alloc::Global;

/// Each task of a job at its end: a task follows all that come of it, and the root is last.
#[derive(Drop)]
pub struct Tree {
    pub tasks: Vec<FinishedTask>,
}

/// The place of the parent of the task at this place. The root has none.
pub fn parent_of(place: &[u64]) -> Option<&[u64]>
    ensures { IsParentOf place.now (option_map (λ parent. parent.now) result) }
{
    if place.is_empty() {
        return None;
    }
    Some(&place[..place.len() - 1])
}

/// What a job comes to where each spawn that passes its tests is taken: each task once, at its end.
/// None where it comes to nothing, as no admitted job does. Refused for want of memory, and where a
/// number on the way doesn't fit its type.
pub fn tree_of(
    alloc: Global,
    programs: &JobPrograms,
    credit: u32,
    buffer: Vec<u8>,
) -> Result<Option<Tree>, Unanswered>
    requires { credit ≤ max_credit }
    ensures tree { IfOk result (λ found. MatchOption found
        (NoTree (programs_of programs.now) credit buffer.items)
        (λ tree. IsTree (programs_of programs.now) credit buffer.items
        (map finished_of tree.tasks.items))) }
    ensures far { result ≡ Err untraced.TooLarge
        → ComesFar (programs_of programs.now) (root credit buffer.items) buffer.items }
{
    match evaluate(alloc, &programs.programs, credit, buffer, credit + 1)? {
        Evaluation::Comes(tasks) => Ok(Some(Tree { tasks })),
        Evaluation::Traps => Ok(None),
        Evaluation::GoesOn => Ok(None),
    }
}
