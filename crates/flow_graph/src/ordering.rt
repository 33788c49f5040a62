//! Whether a list is an order of a program's instructions.

ghost use Rattle.std.specs.Prelude.{◌≡◌, ◌↔◌, ℕ, length, IsTrue, IfOk, MatchOption, None};
ghost use Rattle.machine_model.specs.Edges.{Begins};
ghost use Rattle.flow_graph.specs.Faults.{fault_at};
ghost use Rattle.flow_graph.specs.Flow.{IsJoined, IsOrder};
ghost use Rattle.flow_graph.specs.Places.{ArePlaces, IsBefore, IsPlaced, place_at};
ghost use Rattle.flow_graph.specs.Program.{code_of, IsDecoded};

use crate::building::code_of;
use crate::graph::{Next, begins_at, next_of};
use insn_codec::{Insn, Placed};
use refusal::NoMemory;
use std::alloc::Global;

/// The place of each slot in the list, if instructions begin at all of its slots and none stands
/// there twice.
fn places_of(
    alloc: Global,
    code: &[Option<Insn>],
    order: &[u32],
) -> Result<Option<Vec<Option<usize>>>, NoMemory>
    ensures { IfOk result (λ places. MatchOption places (IsOrder code.now order.now → ⊥)
        (λ places. ArePlaces code.now order.now places.items (length order.now))) }
{
    let mut places = vec![in alloc; None; code.len()]?;
    for place in 0..order.len() {
        let slot = order[place];
        if !begins_at(code, slot) {
            return Ok(None);
        }
        if let Some(_) = places[slot as usize] {
            return Ok(None);
        }
        places[slot as usize] = Some(place);
    }
    Ok(Some(places))
}

/// Whether there are two places, the first before the second.
fn is_before(place: Option<usize>, later: Option<usize>) -> bool
    ensures { IsTrue result ↔ IsBefore place later }
{
    match (place, later) {
        (Some(place), Some(later)) => place < later,
        _ => false,
    }
}

/// Whether the slot has a place, and each of its edges leads to a later one.
fn is_placed(code: &[Option<Insn>], places: &[Option<usize>], slot: u32) -> bool
    requires joined { IsJoined code.now }
    requires begins { Begins code.now slot }
    requires slots { length places.now ≡ length code.now }
    ensures { IsTrue result ↔ IsPlaced code.now places.now slot }
{
    let place = places[slot as usize];
    match next_of(code, slot) {
        Next::Zero => place.is_some(),
        Next::One(to) => is_before(place, places[to as usize]),
        Next::Two(following, to) => {
            is_before(place, places[following as usize]) && is_before(place, places[to as usize])
        }
    }
}

/// Whether each instruction's slot stands once in the list and each edge leads to a later place.
/// The program's edges have no fault.
pub fn check_order(alloc: Global, placed: &[Placed], order: &[u32]) -> Result<bool, NoMemory>
    requires decoded { IsDecoded placed.now }
    requires faultless { (slot : ℕ) → fault_at (code_of placed.now) slot ≡ None }
    ensures { IfOk result (λ holds. IsTrue holds ↔ IsOrder (code_of placed.now) order.now) }
{
    let code = code_of(alloc, placed)?;
    let Some(places) = places_of(alloc, &code, order)? else {
        return Ok(false);
    };
    let slots = code.len() as u32;
    for slot in 0..slots {
        if begins_at(&code, slot) {
            if !is_placed(&code, &places, slot) {
                return Ok(false);
            }
        }
    }
    Ok(true)
}
