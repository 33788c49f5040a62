//! A way from slot 0 to a slot, through the slots that lead there.

ghost use Rattle.std.specs.Prelude.{◌≡◌, ◌<◌, ◌≤◌, ◌↔◌, ℕ, length, IfOk, IsTrue, MatchOption};
ghost use Rattle.machine_model.specs.Edges.{Begins};
ghost use Rattle.flow_graph.specs.Cycles.{IsJoint};
ghost use Rattle.flow_graph.specs.Reached.{IsMarked};
ghost use Rattle.explain.specs.Leading.{AreLeading};
ghost use Rattle.explain.specs.Ways.{IsWayTo};

use flow_graph::{Graph, Next};
use refusal::NoMemory;
use std::alloc::Global;

/// Whether the slot is marked.
fn is_marked(marks: &[bool], slot: u32) -> bool
    requires { slot < length marks.now }
    ensures { IsTrue result ↔ IsMarked marks.now slot }
{
    marks[slot as usize]
}

/// A marked slot that the instruction at a slot leads to: the following one, where both are.
fn marked_after(graph: &Graph, marks: &[bool], from: u32) -> Option<u32>
    requires begins { Begins graph.now.code from }
    requires slots { length marks.now ≡ length graph.now.code }
    ensures { MatchOption result ((next : ℕ) → IsJoint graph.now.code from next
        → IsMarked marks.now next → ⊥)
        (λ next. IsJoint graph.now.code from next × IsMarked marks.now next) }
{
    let _slots = graph.slots();
    match graph.successors(from) {
        Next::Zero => None,
        Next::One(to) => {
            if is_marked(marks, to) {
                return Some(to);
            }
            None
        }
        Next::Two(following, to) => {
            if is_marked(marks, following) {
                return Some(following);
            }
            if is_marked(marks, to) {
                return Some(to);
            }
            None
        }
    }
}

/// Marks the slots from which a way leads to the slot.
fn leading(alloc: Global, graph: &Graph, slot: u32) -> Result<Vec<bool>, NoMemory>
    requires begins { Begins graph.now.code slot }
    ensures { IfOk result (λ marks. AreLeading graph.now.code slot marks.items) }
{
    let slots = graph.slots();
    let mut marks = vec![in alloc; false; slots as usize]?;
    marks[slot as usize] = true;
    let order = graph.order();
    let mut place = order.len();
    while place > 0 {
        place -= 1;
        let from = order[place];
        match marked_after(graph, &marks, from) {
            None => {}
            Some(_) => marks[from as usize] = true,
        }
    }
    Ok(marks)
}

/// The slots of a way from slot 0 to the slot.
pub(crate) fn way_to(alloc: Global, graph: &Graph, slot: u32) -> Result<Vec<u32>, NoMemory>
    requires begins { Begins graph.now.code slot }
    ensures { IfOk result (λ way. IsWayTo graph.now.code slot way.items) }
{
    let _slots = graph.slots();
    let marks = leading(alloc, graph, slot)?;
    let order = graph.order();
    let mut way = Vec::new(alloc);
    way.push(0)?;
    let mut at = 0;
    for place in 0..order.len() {
        if at == slot {
            return Ok(way);
        }
        if order[place] == at {
            match marked_after(graph, &marks, at) {
                None => unreachable!(),
                Some(next) => {
                    way.push(next)?;
                    at = next;
                }
            }
        }
    }
    Ok(way)
}
