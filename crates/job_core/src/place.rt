//! Where a task stands in its tree.

ghost use Rattle.std.specs.Prelude.{◌≡◌, ℕ, ◌≤◌, List, length, slice_get, Some, IfOk};
ghost use Rattle.machine_model.specs.JobState.{Member};
ghost use Rattle.task_trees.specs.Families.{AreParents, children_of, place_of};

use refusal::NoMemory;
use std::alloc::Global;

/// How many of these tasks have this parent.
fn count(parents: &[u32], parent: u32) -> usize
    ensures count { result ≡ children_of parent parents.now }
    ensures most { result ≤ length parents.now }
{
    parents.iter().filter(|p| **p == parent).count()
}

/// A task's place, from the parents of all tasks after the root.
pub fn place_in(alloc: Global, parents: &[u32], number: u32) -> Result<Vec<u32>, NoMemory>
    requires parents { (tasks : List Member) × AreParents parents.now tasks }
    requires given { number ≤ length parents.now }
    ensures { IfOk result (λ place. (tasks : List Member) (m : Member)
        → AreParents parents.now tasks →
        slice_get tasks number ≡ Some m → place.items ≡ place_of m) }
{
    let mut place = Vec::new(alloc);
    let mut at = number;
    while at > 0 {
        let before = (at - 1) as usize;
        let parent = parents[before];
        let nth = count(&parents[..before], parent) + 1;
        place.push(nth as u32)?;
        at = parent;
    }
    place.reverse();
    Ok(place)
}
