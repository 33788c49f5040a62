//! The lowest slot on a cycle.

ghost use Rattle.std.specs.Prelude.{◌≡◌, ◌↔◌, IsTrue, IfOk};
ghost use Rattle.machine_model.specs.Edges.{Begins};
ghost use Rattle.flow_graph.specs.Cycles.{IsOnCycle, IsFirstOnCycle};
ghost use Rattle.flow_graph.specs.Flow.{IsJoined};
ghost use Rattle.flow_graph.specs.Numbers.{NeverFall, LeadsOn, LeadsUp};

use crate::components::{component_numbers, number_of};
use crate::graph::{Next, begins_at, next_of};
use crate::reach::slots_ahead;
use insn_codec::Insn;
use refusal::NoMemory;
use std::alloc::Global;

/// Whether each edge from the slot leads to a number that isn't smaller.
fn leads_on(code: &[Option<Insn>], numbers: &[u32], slot: u32) -> bool
    requires joined { IsJoined code.now }
    requires begins { Begins code.now slot }
    ensures { IsTrue result → LeadsOn code.now numbers.now slot }
{
    let number = number_of(numbers, slot);
    match next_of(code, slot) {
        Next::Zero => true,
        Next::One(to) => number <= number_of(numbers, to),
        Next::Two(following, to) => {
            number <= number_of(numbers, following).min(number_of(numbers, to))
        }
    }
}

/// Whether each edge from the slot leads to a larger number.
fn leads_up(code: &[Option<Insn>], numbers: &[u32], slot: u32) -> bool
    requires joined { IsJoined code.now }
    requires begins { Begins code.now slot }
    ensures { IsTrue result → LeadsUp code.now numbers.now slot }
{
    let number = number_of(numbers, slot);
    match next_of(code, slot) {
        Next::Zero => true,
        Next::One(to) => number < number_of(numbers, to),
        Next::Two(following, to) => {
            number < number_of(numbers, following).min(number_of(numbers, to))
        }
    }
}

/// Whether no edge leads to a smaller number.
fn never_fall(code: &[Option<Insn>], numbers: &[u32]) -> bool
    requires { IsJoined code.now }
    ensures { IsTrue result → NeverFall code.now numbers.now }
{
    let slots = code.len() as u32;
    for slot in 0..slots {
        if begins_at(code, slot) {
            if !leads_on(code, numbers, slot) {
                return false;
            }
        }
    }
    true
}

/// Numbers of the slots that don't fall along an edge. What the components' numbers are is tested
/// here. If they fell somewhere, all slots would have one number, and the search would take longer.
fn numbers_along(alloc: Global, code: &[Option<Insn>]) -> Result<Vec<u32>, NoMemory>
    requires { IsJoined code.now }
    ensures { IfOk result (λ numbers. NeverFall code.now numbers.items) }
{
    let numbers = component_numbers(alloc, code)?;
    if never_fall(code, &numbers) {
        return Ok(numbers);
    }
    Ok(Vec::new(alloc))
}

/// Whether a path of one edge or more leads from the slot back to it. None does where the numbers
/// grow along each of its edges.
fn is_on_cycle(
    alloc: Global,
    code: &[Option<Insn>],
    numbers: &[u32],
    slot: u32,
) -> Result<bool, NoMemory>
    requires joined { IsJoined code.now }
    requires begins { Begins code.now slot }
    requires numbered { NeverFall code.now numbers.now }
    ensures { IfOk result (λ closed. IsTrue closed ↔ IsOnCycle code.now slot) }
{
    if leads_up(code, numbers, slot) {
        return Ok(false);
    }
    let ahead = slots_ahead(alloc, code, slot)?;
    Ok(ahead[slot as usize])
}

/// The lowest slot on a cycle, where one is known. By the components' numbers only this one needs
/// a walk, so the time is linear in the slots.
pub(crate) fn first_on_cycle(
    alloc: Global,
    code: &[Option<Insn>],
    known: u32,
) -> Result<u32, NoMemory>
    requires joined { IsJoined code.now }
    requires known { IsOnCycle code.now known }
    ensures { IfOk result (λ slot. IsFirstOnCycle code.now slot) }
{
    let numbers = numbers_along(alloc, code)?;
    for slot in 0..known {
        if begins_at(code, slot) {
            if is_on_cycle(alloc, code, &numbers, slot)? {
                return Ok(slot);
            }
        }
    }
    Ok(known)
}
