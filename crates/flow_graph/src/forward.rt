//! Programs whose edges all lead to later slots, which are an order as they stand.

ghost use Rattle.std.specs.Prelude.{◌≡◌, ◌⊎◌, ℕ, ◌<◌, length, IfOk, IsTrue, MatchOption};
ghost use Rattle.machine_model.specs.Edges.{Begins};
ghost use Rattle.flow_graph.specs.Cycles.{IsJoint};
ghost use Rattle.flow_graph.specs.Flow.{IsJoined};
ghost use Rattle.flow_graph.specs.Forward.{IsForward};
ghost use Rattle.flow_graph.specs.Reached.{IsMarked};

use crate::graph::{Next, begins_at, next_of};
use insn_codec::Insn;
use refusal::NoMemory;
use std::alloc::Global;

/// Marks the slots that an instruction leads to. Tells whether all of them stand after it.
fn follow(code: &[Option<Insn>], marks: &mut Vec<bool>, slot: u32) -> bool
    requires joined { IsJoined code.now }
    requires begins { Begins code.now slot }
    requires slots { length marks.old.items ≡ length code.now }
    ensures slots { length marks.new.items ≡ length code.now }
    ensures onward { IsTrue result → (s : ℕ) → IsJoint code.now slot s → slot < s }
    ensures marked { (s : ℕ) → IsMarked marks.new.items s
        → IsMarked marks.old.items s ⊎ IsJoint code.now slot s }
{
    match next_of(code, slot) {
        Next::Zero => true,
        Next::One(to) => {
            marks[to as usize] = true;
            slot < to
        }
        Next::Two(following, to) => {
            marks[following as usize] = true;
            marks[to as usize] = true;
            slot < following.min(to)
        }
    }
}

/// The slots where instructions begin, if each edge leads to a later one and paths lead to all.
pub(crate) fn slots_in_turn(
    alloc: Global,
    code: &[Option<Insn>],
) -> Result<Option<Vec<u32>>, NoMemory>
    requires { IsJoined code.now }
    ensures { IfOk result (λ order. MatchOption order (Unit {0})
        (λ order. IsForward code.now order.items)) }
{
    let mut marks = vec![in alloc; false; code.len()]?;
    marks[0] = true;
    let mut order = Vec::with_capacity(alloc, code.len())?;
    let slots = code.len() as u32;
    for slot in 0..slots {
        if begins_at(code, slot) {
            if !marks[slot as usize] {
                return Ok(None);
            }
            if !follow(code, &mut marks, slot) {
                return Ok(None);
            }
            order.push(slot)?;
        }
    }
    Ok(Some(order))
}
