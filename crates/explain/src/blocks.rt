//! The basic blocks of a program.

ghost use Rattle.std.specs.Prelude.{◌≡◌, ◌+◌, ◌-◌, ◌≤◌, ◌<◌, ◌↔◌, ◌⊎◌, ℕ, length, slice_index, IfOk, IsTrue};
ghost use Rattle.machine_model.specs.Edges.{Begins};
ghost use Rattle.machine_model.specs.Limits.{max_part};
ghost use Rattle.machine_model.specs.Paths.{AreCosts};
ghost use Rattle.flow_graph.specs.Cycles.{IsJoint};
ghost use Rattle.verifier.specs.Sources.{AreLinked};
ghost use Rattle.explain.specs.Arriving.{AreArrivals, arriving, subject_of_program};
ghost use Rattle.explain.specs.Blocks.{AreBegun, AreBlocks, IsBlock, IsStraight, IsToldOf, slots_in};

use crate::arriving::{AnalyzedProgram, Arrival, arrivals};
use crate::predecessors::Predecessors;
use cost_bound::{Costs, costs};
use flow_graph::{Graph, Next};
use insn_codec::Placed;
use refusal::NoMemory;
use std::alloc::Global;
use verifier::AbsState;

/// Instructions in turn, of which each but the last leads straight to the next: by its only edge,
/// which is the only one there.
#[derive(Drop)]
pub struct Block {
    /// The number of its first instruction in the program, from 0 on.
    pub first: usize,
    /// The number behind that of its last instruction.
    pub end: usize,
    /// The greatest cost from its first instruction to an exit.
    pub cost: u32,
    /// What is known of each register ahead of it, on every way; `None` where a way there passes an
    /// instruction that isn't allowed.
    pub known: Option<AbsState>,
    /// The slots that its last instruction leads to, the following one first.
    pub next: Next,
}

/// Whether each edge to the one slot comes from the other, which leads there.
fn is_sole(graph: &Graph, predecessors: &Predecessors, from: u32, to: u32) -> bool
    requires joint { IsJoint graph.now.code from to }
    requires linked { AreLinked graph.now.code predecessors.now 0 }
    ensures { IsTrue result ↔ ((k : ℕ) → IsJoint graph.now.code k to → k ≡ from) }
{
    let slots = graph.slots();
    prove!(from < slots);
    prove!(to < slots);
    match predecessors.first(to) {
        None => false,
        Some(first) => {
            if first != from {
                return false;
            }
            match predecessors.after(graph.successors(from), from, to) {
                None => true,
                Some(_) => false,
            }
        }
    }
}

/// Whether the one slot leads straight to the other.
fn is_straight(graph: &Graph, predecessors: &Predecessors, from: u32, to: u32) -> bool
    requires begins { Begins graph.now.code from }
    requires linked { AreLinked graph.now.code predecessors.now 0 }
    ensures { IsTrue result ↔ IsStraight graph.now.code from to }
{
    match graph.successors(from) {
        Next::Zero => false,
        Next::One(one) => {
            if one != to {
                return false;
            }
            is_sole(graph, predecessors, from, to)
        }
        Next::Two(_, _) => false,
    }
}

/// The slot of the instruction of this number.
fn slot_at(placed: &[Placed], index: usize) -> u32
    requires { index < length placed.now }
    ensures { result ≡ slice_index (slots_in placed.now) index }
{
    placed[index].slot
}

/// The number behind that of the last instruction to which the first one leads straight on.
fn end_of(graph: &Graph, predecessors: &Predecessors, placed: &[Placed], first: usize) -> usize
    requires linked { AreLinked graph.now.code predecessors.now 0 }
    requires first { first < length placed.now }
    requires begun { AreBegun graph.now.code (slots_in placed.now) }
    ensures some { first < result }
    ensures within { result ≤ length placed.now }
    ensures straight { (k : ℕ) → first ≤ k → k + 1 < result
        → IsStraight graph.now.code (slice_index (slots_in placed.now) k)
        (slice_index (slots_in placed.now) (k + 1)) }
    ensures ceases { (result ≡ length placed.now)
        ⊎ (IsStraight graph.now.code (slice_index (slots_in placed.now) (result - 1))
        (slice_index (slots_in placed.now) result) → ⊥) }
{
    let mut end = first + 1;
    while end < placed.len() {
        if !is_straight(
            graph,
            predecessors,
            slot_at(placed, end - 1),
            slot_at(placed, end),
        ) {
            return end;
        }
        end += 1;
    }
    end
}

/// What is known where this arrives.
fn known_of(arrival: &Arrival) -> Option<AbsState>
    ensures { IsToldOf (arriving arrival.now) result }
{
    match arrival {
        Arrival::Unreached => None,
        Arrival::Undefined => None,
        Arrival::Reached(state) => Some(*state),
    }
}

/// The block that begins at an instruction.
fn block_from(
    analyzed: &AnalyzedProgram<'_>,
    predecessors: &Predecessors,
    table: &[Arrival],
    costs: &Costs,
    placed: &[Placed],
    first: usize,
) -> Block
    requires linked { AreLinked analyzed.now.graph.now.code predecessors.now 0 }
    requires first { first < length placed.now }
    requires begun { AreBegun analyzed.now.graph.now.code (slots_in placed.now) }
    requires table { AreArrivals (subject_of_program analyzed.now) table.now }
    requires costs { AreCosts analyzed.now.graph.now.code costs.now }
    ensures block { IsBlock (subject_of_program analyzed.now) (slots_in placed.now) result }
    ensures first { result.first ≡ first }
{
    let end = end_of(analyzed.graph, predecessors, placed, first);
    let head = slot_at(placed, first);
    let last = slot_at(placed, end - 1);
    Block {
        first,
        end,
        cost: costs.at(head),
        known: known_of(&table[head as usize]),
        next: analyzed.graph.successors(last),
    }
}

/// The blocks of a program, in the order of its instructions.
pub(crate) fn blocks(
    alloc: Global,
    analyzed: &AnalyzedProgram<'_>,
    placed: &[Placed],
) -> Result<Vec<Block>, NoMemory>
    requires need { analyzed.now.need ≤ max_part }
    requires begun { AreBegun analyzed.now.graph.now.code (slots_in placed.now) }
    ensures { IfOk result
        (λ blocks. AreBlocks (subject_of_program analyzed.now) placed.now blocks.items) }
{
    // the borrow checker's part of the proof has to hear of the type
    let _known: Option<AbsState> = None;
    let costs = costs(alloc, analyzed.graph)?;
    let predecessors = Predecessors::of(alloc, analyzed.graph)?;
    let table = arrivals(alloc, analyzed, &predecessors)?;
    let mut blocks = Vec::new(alloc);
    let mut first = 0;
    while first < placed.len() {
        let block = block_from(analyzed, &predecessors, &table, &costs, placed, first);
        first = block.end;
        blocks.push(block)?;
    }
    Ok(blocks)
}
