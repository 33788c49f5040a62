//! From a decoder's list to the graph.

ghost use Rattle.std.specs.Prelude.{◌≡◌, ◌≤◌, length, IfOk, MatchResult};
ghost use Rattle.flow_graph.specs.Program.{code_of, IsDecoded};
ghost use Rattle.flow_graph.specs.Refusals.{Refuses, IsBuilt};

use crate::checks::first_fault;
use crate::cycle::first_on_cycle;
use crate::fault::FlowFault;
use crate::forward::slots_in_turn;
use crate::graph::Graph;
use crate::reach::first_unreached;
use crate::walk::{Walked, order_of, walk_all};
use insn_codec::{Insn, Placed};
use refusal::NoMemory;
use std::alloc::Global;

/// The code by slot.
pub(crate) fn code_of(alloc: Global, placed: &[Placed]) -> Result<Vec<Option<Insn>>, NoMemory>
    ensures { IfOk result (λ code. code.items ≡ code_of placed.now) }
{
    let mut code = Vec::with_capacity(alloc, placed.len())?;
    for place in placed {
        code.push(Some(place.insn))?;
        if let Insn::LoadWide { .. } = place.insn {
            code.push(None)?;
        }
    }
    Ok(code)
}

/// The graph of a program as a decoder gives it, or why it has none: the first fault of an edge,
/// else the first slot on a cycle, else the first instruction that isn't reached.
pub fn build(alloc: Global, placed: &[Placed]) -> Result<Graph, FlowFault>
    requires { IsDecoded placed.now }
    ensures { MatchResult result (λ graph. IsBuilt (code_of placed.now) graph)
        (λ fault. Refuses (code_of placed.now) fault) }
{
    let code = code_of(alloc, placed)?;
    if let Some(fault) = first_fault(&code) {
        return Err(fault);
    }
    if let Some(order) = slots_in_turn(alloc, &code)? {
        return Ok(Graph::of(code, order));
    }
    match walk_all(alloc, &code)? {
        Walked::Cycle(known) => {
            let slot = first_on_cycle(alloc, &code, known)?;
            Err(FlowFault::Cycle(slot))
        }
        Walked::All(walk) => match first_unreached(alloc, &code)? {
            Some(slot) => Err(FlowFault::Unreachable(slot)),
            None => Ok(Graph::of(code, order_of(walk))),
        },
    }
}
