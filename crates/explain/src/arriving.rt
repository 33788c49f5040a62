//! What arrives at each slot of a program that has a graph, by the definition: what passes each
//! edge that leads to a slot, joined.

ghost use Rattle.std.specs.Prelude.{◌≡◌, ℕ, ◌<◌, ◌≤◌, length, slice_index_or, IfOk, Some, if◌then◌else◌};
ghost use Rattle.machine_model.specs.Edges.{NotTaken, Taken, insn_at};
ghost use Rattle.machine_model.specs.Limits.{max_part};
ghost use Rattle.instruction_rules.specs.declared.state.AbsState.{AbsState};
ghost use Rattle.verifier.specs.InStates.{Reached, if_leads_to, in_state, in_state_by, joined_edges, joined_in_state, out_state};
ghost use Rattle.verifier.specs.Sources.{AreLinked};
ghost use Rattle.explain.specs.Arriving.{AreArrivals, arriving, arriving_at, joined_from, subject_of_program};
ghost use Rattle.explain.specs.declared.arriving.Arrival.TheVariants as arrival;

use crate::predecessors::Predecessors;
use flow_graph::{Graph, Next};
use helpers::HelperTable;
use insn_codec::Insn;
use instruction_rules::{AbsState, judge, transfer};
use refusal::NoMemory;
use std::alloc::Global;
use value_ranges::Abs;

/// What arrives at a slot.
#[derive(Drop)]
pub(crate) enum Arrival {
    /// No path leads there.
    Unreached,
    /// An instruction ahead isn't allowed.
    Undefined,
    /// This is known of the registers.
    Reached(AbsState),
}

/// A program, the bytes that it needs and the helpers that it may call.
#[derive(Clone, Copy)]
pub(crate) struct AnalyzedProgram<'a> {
    pub(crate) need: u32,
    pub(crate) helpers: &'a HelperTable,
    pub(crate) graph: &'a Graph,
}

impl Arrival {
    /// What arrives where this comes one way, and more comes another.
    fn join(self, more: Arrival) -> Arrival
        ensures { arriving result ≡ joined_in_state (arriving self) (arriving more) }
    {
        match self {
            Arrival::Unreached => more,
            Arrival::Undefined => Arrival::Undefined,
            Arrival::Reached(mut state) => match more {
                Arrival::Unreached => Arrival::Reached(state),
                Arrival::Undefined => Arrival::Undefined,
                Arrival::Reached(other) => {
                    state.join(&other);
                    Arrival::Reached(state)
                }
            },
        }
    }
}

/// What passes an instruction along an edge, where this arrives at it.
fn pass(analyzed: &AnalyzedProgram<'_>, arrival: &Arrival, insn: &Insn, taken: bool) -> Arrival
    ensures { arriving result
        ≡ out_state (subject_of_program analyzed.now) (Some insn.now)
        (if taken then Taken else NotTaken)
        (arriving arrival.now) }
{
    match arrival {
        Arrival::Unreached => Arrival::Unreached,
        Arrival::Undefined => Arrival::Undefined,
        Arrival::Reached(state) => match judge(analyzed.need, analyzed.helpers, insn, state) {
            Err(_) => Arrival::Undefined,
            Ok(left) => {
                let mut next = *state;
                transfer(&mut next, insn, taken, &left);
                Arrival::Reached(next)
            }
        },
    }
}

/// An instruction, and what arrives at it.
#[derive(Clone, Copy)]
struct VisitedInstruction<'a> {
    insn: &'a Insn,
    arrival: &'a Arrival,
}

/// Joins what passes an edge to `next`, if that is the slot.
fn join_edge(
    analyzed: &AnalyzedProgram<'_>,
    visit: &VisitedInstruction<'_>,
    taken: bool,
    next: u32,
    slot: u32,
    joined: Arrival,
) -> Arrival
    ensures { arriving result
        ≡ joined_in_state (arriving joined) (if_leads_to (Some next) slot
        (out_state (subject_of_program analyzed.now) (Some visit.now.insn.now)
        (if taken then Taken else NotTaken) (arriving visit.now.arrival.now))) }
{
    if next == slot {
        joined.join(pass(analyzed, visit.arrival, visit.insn, taken))
    } else {
        joined
    }
}

/// Joins what passes the edges from one slot to another.
fn join_from(
    analyzed: &AnalyzedProgram<'_>,
    table: &[Arrival],
    from: u32,
    slot: u32,
    joined: Arrival,
) -> Arrival
    requires from { from < length analyzed.now.graph.now.code }
    requires slots { length table.now ≡ length analyzed.now.graph.now.code }
    ensures { arriving result
        ≡ joined_from (subject_of_program analyzed.now) (arriving_at table.now) slot from
        (arriving joined) }
{
    let Some(insn) = analyzed.graph.insn(from) else {
        return joined;
    };
    let visit = VisitedInstruction {
        insn,
        arrival: &table[from as usize],
    };
    match analyzed.graph.successors(from) {
        Next::Zero => joined,
        Next::One(to) => join_edge(analyzed, &visit, false, to, slot, joined),
        Next::Two(following, to) => {
            let joined = join_edge(analyzed, &visit, false, following, slot, joined);
            join_edge(analyzed, &visit, true, to, slot, joined)
        }
    }
}

/// What passes all edges to a slot, joined.
fn join_all(
    analyzed: &AnalyzedProgram<'_>,
    predecessors: &Predecessors,
    table: &[Arrival],
    slot: u32,
) -> Arrival
    requires slot { slot < length analyzed.now.graph.now.code }
    requires linked { AreLinked analyzed.now.graph.now.code predecessors.now 0 }
    requires slots { length table.now ≡ length analyzed.now.graph.now.code }
    ensures { arriving result
        ≡ joined_edges (subject_of_program analyzed.now) (arriving_at table.now) slot
        (length analyzed.now.graph.now.code) }
{
    let _slots = analyzed.graph.slots();
    let mut joined = Arrival::Unreached;
    let mut source = predecessors.first(slot);
    while let Some(from) = source {
        joined = join_from(analyzed, table, from, slot, joined);
        source = predecessors.after(analyzed.graph.successors(from), from, slot);
    }
    joined
}

/// What arrives at a slot, where the table has what arrives at those that lead there.
fn arrive(
    analyzed: &AnalyzedProgram<'_>,
    predecessors: &Predecessors,
    table: &[Arrival],
    slot: u32,
) -> Arrival
    requires need { analyzed.now.need ≤ max_part }
    requires slot { slot < length analyzed.now.graph.now.code }
    requires linked { AreLinked analyzed.now.graph.now.code predecessors.now 0 }
    requires slots { length table.now ≡ length analyzed.now.graph.now.code }
    ensures { arriving result
        ≡ in_state_by (subject_of_program analyzed.now) (arriving_at table.now) slot
        (length analyzed.now.graph.now.code) }
{
    if slot == 0 {
        return Arrival::Reached(AbsState::entry(analyzed.need));
    }
    join_all(analyzed, predecessors, table, slot)
}

/// A table in which nothing arrives.
fn nowhere(alloc: Global, slots: u32) -> Result<Vec<Arrival>, NoMemory>
    ensures slots { IfOk result (λ table. length table.items ≡ slots) }
    ensures each { IfOk result (λ table. (s : ℕ)
        → slice_index_or table.items s arrival.Unreached ≡ arrival.Unreached) }
{
    // The borrow checker's part of the proof has to hear of the types.
    let _known: Option<(AbsState, Abs)> = None;
    let mut table = Vec::with_capacity(alloc, slots as usize)?;
    for _ in 0..slots {
        table.push(Arrival::Unreached)?;
    }
    Ok(table)
}

/// What arrives at each slot.
pub(crate) fn arrivals(
    alloc: Global,
    analyzed: &AnalyzedProgram<'_>,
    predecessors: &Predecessors,
) -> Result<Vec<Arrival>, NoMemory>
    requires need { analyzed.now.need ≤ max_part }
    requires linked { AreLinked analyzed.now.graph.now.code predecessors.now 0 }
    ensures { IfOk result (λ table. AreArrivals (subject_of_program analyzed.now) table.items) }
{
    let mut table = nowhere(alloc, analyzed.graph.slots())?;
    let order = analyzed.graph.order();
    for place in 0..order.len() {
        let slot = order[place];
        let arrival = arrive(analyzed, predecessors, &table, slot);
        table[slot as usize] = arrival;
    }
    Ok(table)
}

/// The state that arrives at a slot where one does.
pub(crate) fn state_at(
    alloc: Global,
    analyzed: &AnalyzedProgram<'_>,
    slot: u32,
) -> Result<AbsState, NoMemory>
    requires need { analyzed.now.need ≤ max_part }
    requires slot { slot < length analyzed.now.graph.now.code }
    requires arrives { (state : AbsState)
        × (in_state (subject_of_program analyzed.now) slot ≡ Reached state) }
    ensures { IfOk result
        (λ state. in_state (subject_of_program analyzed.now) slot ≡ Reached state) }
{
    let predecessors = Predecessors::of(alloc, analyzed.graph)?;
    let table = arrivals(alloc, analyzed, &predecessors)?;
    match &table[slot as usize] {
        Arrival::Reached(state) => Ok(*state),
        _ => unreachable!(),
    }
}
