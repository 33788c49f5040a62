//! The in-state of each slot: a dataflow analysis that visits a program's instructions in an order
//! in which each edge leads to a later place.

ghost use Rattle.std.specs.Prelude.{◌≡◌, ◌≢◌, ℕ, ◌+◌, ◌<◌, ◌≤◌, length, slice_index, slice_index_or, suc, Option, Some, None, true, IfOk, OnOk, MatchResult, if◌then◌else◌};
ghost use Rattle.machine_model.specs.Edges.{Begins, insn_at, leads_at, Always, NotTaken, Taken};
ghost use Rattle.predecoding.specs.declared.region.Region.TheVariants.{Stack};
ghost use Rattle.flow_graph.specs.Cycles.{IsJoint};
ghost use Rattle.flow_graph.specs.Flow.{AreNext};
ghost use Rattle.instruction_rules.specs.declared.state.AbsState.{AbsState};
ghost use Rattle.instruction_rules.specs.States.{entry_state, transferred};
ghost use Rattle.instruction_rules.specs.Judged.{destination_left};
ghost use Rattle.verifier.specs.InStates.{in_state, joined_in_state, if_leads_to, Reached};
ghost use Rattle.verifier.specs.Verdict.{RefusesStates, in_state_of};
ghost use Rattle.verifier.specs.Propagation.{HasPropagated, IsAmong, IsVisitResult, IsVisited, earlier};
ghost use Rattle.helpers.specs.Table.{Table};
ghost use Rattle.verifier.specs.Sources.{IsLinked, IsNextSource};
ghost use Rattle.verifier.specs.Survey.{subject_of, IsRegionThere, IsSurveyed};
ghost use Rattle.machine_model.specs.Limits.{max_part};

use crate::held::{Boxes, Held};
use crate::refusals::Refusal;
use crate::regions::region_there;
use crate::sources::Sources;
use flow_graph::{Graph, Next};
use helpers::HelperTable;
use insn_codec::Insn;
use instruction_rules::{AbsState, Rule, judge};
use predecoding::Region;
use refusal::NoMemory;
use std::alloc::Global;
use value_ranges::Abs;

/// An instruction that isn't allowed, and the rule of the lowest number that it breaks.
#[derive(Clone, Copy)]
pub(crate) struct Fault {
    slot: u32,
    rule: Rule,
}

/// What is surveyed: a program, the bytes that its tasks need, and the helpers that it may call.
#[derive(Clone, Copy)]
pub(crate) struct Survey<'a> {
    pub(crate) need: u32,
    pub(crate) helpers: &'a HelperTable,
    pub(crate) graph: &'a Graph,
}

/// An instruction that was visited: its slot, where it leads, and what it leaves in its
/// destination.
#[derive(Clone, Copy)]
struct Visited<'a> {
    from: u32,
    next: Next,
    insn: &'a Insn,
    left: Abs,
}

/// The state at a place: a copy if the place keeps it, else the state itself.
#[inline(always)]
fn take_or_copy(
    boxes: &mut Boxes,
    place: &mut Option<Held>,
    keep: bool,
) -> Result<Option<Held>, NoMemory>
    ensures held { IfOk result (λ held. held ≡ place.old) }
    ensures place { OnOk result (place.new ≡ if keep then place.old else None) }
{
    if !keep {
        return Ok(place.take());
    }
    match place {
        None => Ok(None),
        Some(state) => Ok(Some(boxes.copy(state.get())?)),
    }
}

/// Joins the state that leaves a visited instruction along one edge into the in-state of `to`. The
/// visited slot keeps its own state if `keep`.
#[inline(always)]
fn propagate_edge(
    boxes: &mut Boxes,
    states: &mut [Option<Held>],
    visited: &Visited<'_>,
    to: u32,
    taken: bool,
    keep: bool,
) -> Result<(), NoMemory>
    requires other { visited.now.from ≢ to }
    requires from { visited.now.from < length states.old }
    requires to { to < length states.old }
    requires left { (state : AbsState)
        → Some state ≡ slice_index_or states.old visited.now.from None
        → visited.now.left ≡ destination_left visited.now.insn.now state }
    ensures slots { OnOk result (length states.new ≡ length states.old) }
    ensures others { OnOk result ((s : ℕ) → s ≢ to → s ≢ visited.now.from
        → slice_index_or states.new s None ≡ slice_index_or states.old s None) }
    ensures from { OnOk result (slice_index_or states.new visited.now.from None
        ≡ if keep then slice_index_or states.old visited.now.from None else None) }
    ensures joined { OnOk result ((state : AbsState)
        → Some state ≡ slice_index_or states.old visited.now.from None →
        in_state_of (slice_index_or states.new to None)
        ≡ joined_in_state (in_state_of (slice_index_or states.old to None))
        (Reached (transferred visited.now.insn.now (if taken then Taken else NotTaken) state))) }
{
    let held = take_or_copy(boxes, &mut states[visited.from as usize], keep)?;
    if let Some(mut state) = held {
        state.transfer(visited.insn, taken, &visited.left);
        state.join_into(&mut states[to as usize], boxes);
    }
    Ok(())
}

/// Joins what leaves a visited instruction along each edge to `to` into the in-state of `to`.
#[inline(always)]
fn propagate_edges(
    boxes: &mut Boxes,
    states: &mut [Option<Held>],
    graph: &Graph,
    visited: &Visited<'_>,
    to: u32,
    keep: bool,
) -> Result<(), NoMemory>
    requires next { AreNext graph.now.code visited.now.from visited.now.next }
    requires joint { IsJoint graph.now.code visited.now.from to }
    requires other { visited.now.from ≢ to }
    requires slots { length states.old ≡ length graph.now.code }
    requires from { visited.now.from < length states.old }
    requires to { to < length states.old }
    requires left { (state : AbsState)
        → Some state ≡ slice_index_or states.old visited.now.from None
        → visited.now.left ≡ destination_left visited.now.insn.now state }
    ensures slots { OnOk result (length states.new ≡ length states.old) }
    ensures others { OnOk result ((s : ℕ) → s ≢ to → s ≢ visited.now.from
        → slice_index_or states.new s None ≡ slice_index_or states.old s None) }
    ensures from { OnOk result (slice_index_or states.new visited.now.from None
        ≡ if keep then slice_index_or states.old visited.now.from None else None) }
    ensures joined { OnOk result ((state : AbsState)
        → Some state ≡ slice_index_or states.old visited.now.from None →
        in_state_of (slice_index_or states.new to None)
        ≡ joined_in_state (joined_in_state
        (joined_in_state (in_state_of (slice_index_or states.old to None))
        (if_leads_to (leads_at graph.now.code visited.now.from Always) to
        (Reached (transferred visited.now.insn.now Always state))))
        (if_leads_to (leads_at graph.now.code visited.now.from NotTaken) to
        (Reached (transferred visited.now.insn.now NotTaken state))))
        (if_leads_to (leads_at graph.now.code visited.now.from Taken) to
        (Reached (transferred visited.now.insn.now Taken state)))) }
{
    match visited.next {
        Next::Zero => unreachable!(),
        Next::One(_) => propagate_edge(boxes, states, visited, to, false, keep),
        Next::Two(following, target) => {
            if following != to {
                return propagate_edge(boxes, states, visited, to, true, keep);
            }
            if target != to {
                return propagate_edge(boxes, states, visited, to, false, keep);
            }
            propagate_edge(boxes, states, visited, to, false, true)?;
            propagate_edge(boxes, states, visited, to, true, keep)
        }
    }
}

/// Propagates from a visited slot to `to`, whose next source it is. The visited slot keeps its
/// state as long as another slot needs it.
#[inline(always)]
fn propagate_to(
    boxes: &mut Boxes,
    states: &mut [Option<Held>],
    sources: &mut Sources,
    graph: &Graph,
    visited: &Visited<'_>,
    to: u32,
) -> Result<(), NoMemory>
    requires next { AreNext graph.now.code visited.now.from visited.now.next }
    requires joint { IsJoint graph.now.code visited.now.from to }
    requires linked { IsLinked graph.now.code sources.old }
    requires slots { length states.old ≡ length graph.now.code }
    requires first { slice_index_or sources.old.first to None ≡ Some visited.now.from }
    requires left { (state : AbsState)
        → Some state ≡ slice_index_or states.old visited.now.from None
        → visited.now.left ≡ destination_left visited.now.insn.now state }
    ensures linked { OnOk result (IsLinked graph.now.code sources.new) }
    ensures slots { OnOk result (length states.new ≡ length states.old) }
    ensures from { OnOk result ((state : AbsState)
        → Some state ≡ slice_index_or states.new visited.now.from None
        → Some state ≡ slice_index_or states.old visited.now.from None) }
    ensures firsts { OnOk result ((s : ℕ) → s ≢ to
        → slice_index_or sources.new.first s None ≡ slice_index_or sources.old.first s None) }
    ensures first { OnOk result
        (IsNextSource graph.now.code to (suc visited.now.from)
        (slice_index_or sources.new.first to None)) }
    ensures propagated { OnOk result ((need : ℕ) (helpers : Table) (n : ℕ) (state : AbsState) →
        HasPropagated (record { need = need; helpers = helpers; code = graph.now.code }) graph.now.order n
        sources.old states.old →
        IsAmong graph.now.order n visited.now.from → (IsAmong graph.now.order n to → ⊥) →
        insn_at graph.now.code visited.now.from ≡ Some visited.now.insn.now →
        slice_index_or states.old visited.now.from None ≡ Some state →
        HasPropagated (record { need = need; helpers = helpers; code = graph.now.code }) graph.now.order n
        sources.new states.new) }
{
    let slots = graph.slots();
    prove!(visited.from < slots);
    prove!(to < slots);
    let keep = !sources.is_taken_beside(graph, visited.next, visited.from, to);
    propagate_edges(boxes, states, graph, visited, to, keep)?;
    sources.note(visited.next, visited.from, to);
    Ok(())
}

/// The slot at a place of the order.
pub(crate) fn slot_at(graph: &Graph, place: usize) -> u32
    requires { place < length graph.now.order }
    ensures slot { result ≡ slice_index graph.now.order place }
    ensures begins { Begins graph.now.code result }
    ensures within { result < length graph.now.code }
{
    let _slots = graph.slots();
    graph.order()[place]
}

/// The visit of an instruction with this in-state.
fn visit_again<'a>(survey: &Survey<'a>, from: u32, state: &AbsState) -> Visited<'a>
    requires { IsVisited (subject_of survey.now) from state.now }
    ensures from { result.from ≡ from }
    ensures insn { insn_at survey.now.graph.now.code from ≡ Some result.insn.now }
    ensures next { AreNext survey.now.graph.now.code from result.next }
    ensures left { result.left ≡ destination_left result.insn.now state.now }
{
    let next = survey.graph.successors(from);
    match survey.graph.insn(from) {
        None => unreachable!(),
        Some(insn) => match judge(survey.need, survey.helpers, insn, state) {
            Err(_) => unreachable!(),
            Ok(left) => Visited {
                from,
                next,
                insn,
                left,
            },
        },
    }
}

/// Propagates to the slot at a place from those of its sources that were visited, lowest first.
#[inline(always)]
pub(crate) fn propagate_waiting(
    boxes: &mut Boxes,
    states: &mut [Option<Held>],
    sources: &mut Sources,
    survey: &Survey<'_>,
    place: usize,
) -> Result<(), NoMemory>
    requires place { place < length survey.now.graph.now.order }
    requires propagated { HasPropagated (subject_of survey.now) survey.now.graph.now.order place
        sources.old
        states.old }
    ensures propagated { OnOk result
        (HasPropagated (subject_of survey.now) survey.now.graph.now.order place sources.new
        states.new) }
    ensures rest { OnOk result ((q : ℕ)
        → slice_index_or sources.new.first (slice_index survey.now.graph.now.order place) None
        ≡ Some q →
        slice_index_or states.new q None ≡ None) }
{
    let slot = slot_at(survey.graph, place);
    let slots = survey.graph.slots();
    prove!(slot < slots);
    while let Some(from) = sources.first(slot) {
        let visited = match &states[from as usize] {
            None => return Ok(()),
            Some(state) => visit_again(survey, from, state.get()),
        };
        propagate_to(boxes, states, sources, survey.graph, &visited, slot)?;
    }
    Ok(())
}

/// Propagates from a visited slot to `to`, if it is the next source of `to`.
#[inline(always)]
fn propagate_in_turn(
    boxes: &mut Boxes,
    states: &mut [Option<Held>],
    sources: &mut Sources,
    graph: &Graph,
    visited: &Visited<'_>,
    to: u32,
) -> Result<(), NoMemory>
    requires next { AreNext graph.now.code visited.now.from visited.now.next }
    requires joint { IsJoint graph.now.code visited.now.from to }
    requires linked { IsLinked graph.now.code sources.old }
    requires slots { length states.old ≡ length graph.now.code }
    requires left { (state : AbsState)
        → Some state ≡ slice_index_or states.old visited.now.from None
        → visited.now.left ≡ destination_left visited.now.insn.now state }
    ensures linked { OnOk result (IsLinked graph.now.code sources.new) }
    ensures slots { OnOk result (length states.new ≡ length states.old) }
    ensures from { OnOk result ((state : AbsState)
        → Some state ≡ slice_index_or states.new visited.now.from None
        → Some state ≡ slice_index_or states.old visited.now.from None) }
    ensures propagated { OnOk result ((need : ℕ) (helpers : Table) (n : ℕ) →
        HasPropagated (record { need = need; helpers = helpers; code = graph.now.code }) graph.now.order n
        sources.old states.old →
        IsAmong graph.now.order n visited.now.from → (IsAmong graph.now.order n to → ⊥) →
        insn_at graph.now.code visited.now.from ≡ Some visited.now.insn.now →
        HasPropagated (record { need = need; helpers = helpers; code = graph.now.code }) graph.now.order n
        sources.new states.new) }
{
    let slots = graph.slots();
    prove!(visited.from < slots);
    prove!(to < slots);
    match sources.first(to) {
        Some(first) if first == visited.from => match &states[first as usize] {
            Some(_) => propagate_to(boxes, states, sources, graph, visited, to),
            None => Ok(()),
        },
        _ => Ok(()),
    }
}

/// Propagates from a visited slot to each slot that it leads to and whose next source it is.
#[inline(always)]
fn propagate(
    boxes: &mut Boxes,
    states: &mut [Option<Held>],
    sources: &mut Sources,
    graph: &Graph,
    visited: &Visited<'_>,
) -> Result<(), NoMemory>
    requires next { AreNext graph.now.code visited.now.from visited.now.next }
    requires insn { insn_at graph.now.code visited.now.from ≡ Some visited.now.insn.now }
    requires linked { IsLinked graph.now.code sources.old }
    requires slots { length states.old ≡ length graph.now.code }
    requires left { (state : AbsState)
        → Some state ≡ slice_index_or states.old visited.now.from None
        → visited.now.left ≡ destination_left visited.now.insn.now state }
    ensures propagated { OnOk result ((need : ℕ) (helpers : Table) (n : ℕ) →
        HasPropagated (record { need = need; helpers = helpers; code = graph.now.code }) graph.now.order
        (suc n) sources.old states.old →
        n < length graph.now.order → slice_index graph.now.order n ≡ visited.now.from →
        HasPropagated (record { need = need; helpers = helpers; code = graph.now.code }) graph.now.order
        (suc n) sources.new states.new) }
{
    let slots = graph.slots();
    prove!(visited.from < slots);
    match visited.next {
        Next::Zero => {
            states[visited.from as usize] = None;
            Ok(())
        }
        Next::One(to) => propagate_in_turn(boxes, states, sources, graph, visited, to),
        Next::Two(following, to) => {
            propagate_in_turn(boxes, states, sources, graph, visited, following)?;
            propagate_in_turn(boxes, states, sources, graph, visited, to)
        }
    }
}

/// Visits the slot at a place: judges its instruction by its in-state, and propagates from there.
/// Tells the instruction's fault if it has one, and notes the region of its access.
#[inline(always)]
pub(crate) fn visit(
    boxes: &mut Boxes,
    states: &mut [Option<Held>],
    sources: &mut Sources,
    regions: &mut [Region],
    survey: &Survey<'_>,
    place: usize,
) -> Result<Option<Fault>, NoMemory>
    requires place { place < length survey.now.graph.now.order }
    requires propagated { HasPropagated (subject_of survey.now) survey.now.graph.now.order place
        sources.old
        states.old }
    requires regions { length regions.old ≡ length survey.now.graph.now.code }
    ensures propagated { OnOk result
        (HasPropagated (subject_of survey.now) survey.now.graph.now.order (suc place) sources.new
        states.new) }
    ensures found { IfOk result
        (λ fault. IsVisitResult (subject_of survey.now) survey.now.graph.now.order place
        (slice_index survey.now.graph.now.order place) fault) }
    ensures regions { OnOk result (length regions.new ≡ length regions.old) }
    ensures others { OnOk result ((s : ℕ) → s ≢ slice_index survey.now.graph.now.order place
        → slice_index_or regions.new s Stack ≡ slice_index_or regions.old s Stack) }
    ensures region { OnOk result
        (IsRegionThere (subject_of survey.now) (slice_index survey.now.graph.now.order place)
        (slice_index_or regions.new (slice_index survey.now.graph.now.order place) Stack)) }
{
    propagate_waiting(boxes, states, sources, survey, place)?;
    let slot = slot_at(survey.graph, place);
    let slots = survey.graph.slots();
    prove!(slot < slots);
    if let Some(_) = sources.first(slot) {
        states[slot as usize] = None;
        return Ok(None);
    }
    let next = survey.graph.successors(slot);
    let insn = survey.graph.insn(slot).unwrap();
    let judged = match &states[slot as usize] {
        None => unreachable!(),
        Some(state) => {
            regions[slot as usize] = region_there(insn, state.get());
            judge(survey.need, survey.helpers, insn, state.get())
        }
    };
    match judged {
        Err(rule) => {
            states[slot as usize] = None;
            Ok(Some(Fault { slot, rule }))
        }
        Ok(left) => {
            let visited = Visited {
                from: slot,
                next,
                insn,
                left,
            };
            propagate(boxes, states, sources, survey.graph, &visited)?;
            Ok(None)
        }
    }
}

/// The first of two faults, of different slots.
fn earlier(first: Option<Fault>, fault: Fault) -> Fault
    ensures { result ≡ earlier first fault }
{
    match first {
        Some(before) if before.slot < fault.slot => before,
        _ => fault,
    }
}

/// A place for the state at each slot, with the entry state at the first.
pub(crate) fn places(alloc: Global, need: u32, slots: u32) -> Result<Vec<Option<Held>>, NoMemory>
    requires need { need ≤ max_part }
    requires slots { 0 < slots }
    ensures slots { IfOk result (λ states. length states.items ≡ slots) }
    ensures first { IfOk result (λ states. slice_index_or states.items 0 None
        ≡ Some (entry_state need)) }
    ensures others { IfOk result (λ states. (s : ℕ) → 0 < s → s < slots
        → slice_index_or states.items s None ≡ None) }
{
    let mut states = Vec::with_capacity(alloc, slots as usize)?;
    states.push_reserved(Some(Held::new(alloc, &AbsState::entry(need))?));
    for slot in 1..slots {
        prove!(slot > 0);
        states.push_reserved(None);
    }
    Ok(states)
}

/// What was found out of a program whose instructions are allowed: how many merge points it has,
/// and the regions of its accesses.
#[derive(Drop)]
pub(crate) struct Found {
    pub(crate) merges: u32,
    pub(crate) regions: Vec<Region>,
}

/// The merge points and the regions of the accesses, or the first instruction that isn't allowed.
pub(crate) fn states(
    alloc: Global,
    need: u32,
    helpers: &HelperTable,
    graph: &Graph,
) -> Result<Found, Refusal>
    requires need { need ≤ max_part }
    ensures { MatchResult result
        (λ found. IsSurveyed
        (record { need = need; helpers = helpers.now; code = graph.now.code }) found)
        (λ refusal. RefusesStates
        (record { need = need; helpers = helpers.now; code = graph.now.code }) refusal) }
{
    let slots = graph.slots();
    let survey = Survey {
        need,
        helpers,
        graph,
    };
    let mut sources = Sources::of(alloc, graph)?;
    let mut states = places(alloc, need, slots)?;
    let mut regions = vec![in alloc; Region::Stack; slots as usize]?;
    let mut boxes = Boxes::new(alloc);
    let mut first = None;
    for place in 0..graph.order().len() {
        let fault = visit(
            &mut boxes,
            &mut states,
            &mut sources,
            &mut regions,
            &survey,
            place,
        )?;
        match fault {
            None => {}
            Some(fault) => first = Some(earlier(first, fault)),
        }
    }
    match first {
        None => Ok(Found {
            merges: sources.merges(graph),
            regions,
        }),
        Some(fault) => Err(Refusal::at(fault.slot, fault.rule)),
    }
}
