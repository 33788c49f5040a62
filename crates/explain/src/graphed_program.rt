//! The programs that have a graph.

ghost use Rattle.std.specs.Prelude.{◌≡◌, None, MatchResult};
ghost use Rattle.helpers.specs.Table.{Table};
ghost use Rattle.verifier.specs.Refusals.{RefusesProgram};
ghost use Rattle.explain.specs.Told.{ruled_slot};
ghost use Rattle.explain.specs.Graphed.{HasGraph};

use flow_graph::{Graph, build};
use insn_codec::{Placed, decode};
use std::alloc::Global;
use verifier::Refusal;

/// The greatest need of a program.
const GREATEST_NEED: u32 = 65536;

/// A program's instructions, and its graph.
#[derive(Drop)]
pub(crate) struct GraphedProgram {
    pub(crate) placed: Vec<Placed>,
    pub(crate) graph: Graph,
}

/// A program that has a graph, or why it has none: its need, then its bytes, then its edges.
pub(crate) fn graphed(alloc: Global, need: u32, code: &[u8]) -> Result<GraphedProgram, Refusal>
    ensures { MatchResult result (λ whole. HasGraph need code.now whole)
        (λ refusal. ((helpers : Table) → RefusesProgram need code.now helpers refusal)
        × (ruled_slot refusal ≡ None)) }
{
    if need > GREATEST_NEED {
        return Err(Refusal::NeedTooLarge);
    }
    let placed = decode(alloc, code)?;
    let graph = build(alloc, &placed)?;
    Ok(GraphedProgram { placed, graph })
}
