//! Which instructions paths lead to.

ghost use Rattle.std.specs.Prelude.{◌≡◌, ℕ, ◌<◌, length, IfOk, MatchOption};
ghost use Rattle.machine_model.specs.Edges.{Begins};
ghost use Rattle.machine_model.specs.Paths.{IsReached};
ghost use Rattle.flow_graph.specs.Flow.{IsJoined};
ghost use Rattle.flow_graph.specs.Reached.{AreAhead, IsMarkedOn, IsFirstUnreached};

use crate::graph::{Next, begins_at, next_of};
use insn_codec::Insn;
use refusal::NoMemory;
use std::alloc::Global;

/// Marks a slot that a path leads to.
fn mark_on(marks: &mut Vec<bool>, pending: &mut Vec<u32>, slot: u32) -> Result<(), NoMemory>
    requires { slot < length marks.old.items }
    ensures { IfOk result
        (λ _. IsMarkedOn marks.old.items marks.new.items pending.old.items pending.new.items
        slot) }
{
    if !marks[slot as usize] {
        pending.push(slot)?;
        marks[slot as usize] = true;
    }
    Ok(())
}

/// Marks the slots that a path of one edge or more leads to from this one.
pub(crate) fn slots_ahead(
    alloc: Global,
    code: &[Option<Insn>],
    from: u32,
) -> Result<Vec<bool>, NoMemory>
    requires joined { IsJoined code.now }
    requires begins { Begins code.now from }
    ensures { IfOk result (λ marks. AreAhead code.now from marks.items) }
{
    let mut marks = vec![in alloc; false; code.len()]?;
    let mut pending = Vec::new(alloc);
    pending.push(from)?;
    while let Some(slot) = pending.pop() {
        match next_of(code, slot) {
            Next::Zero => {}
            Next::One(to) => mark_on(&mut marks, &mut pending, to)?,
            Next::Two(following, to) => {
                mark_on(&mut marks, &mut pending, following)?;
                mark_on(&mut marks, &mut pending, to)?;
            }
        }
    }
    Ok(marks)
}

/// The lowest instruction that no path from slot 0 leads to.
pub(crate) fn first_unreached(alloc: Global, code: &[Option<Insn>]) -> Result<Option<u32>, NoMemory>
    requires { IsJoined code.now }
    ensures { IfOk result (λ slot. MatchOption slot ((s : ℕ) → Begins code.now s
        → IsReached code.now s)
        (λ slot. IsFirstUnreached code.now slot)) }
{
    let marks = slots_ahead(alloc, code, 0)?;
    let slots = code.len() as u32;
    for slot in 1..slots {
        if begins_at(code, slot) {
            if !marks[slot as usize] {
                return Ok(Some(slot));
            }
        }
    }
    Ok(None)
}
