//! The faults of a program's edges.

ghost use Rattle.std.specs.Prelude.{◌≡◌, ℕ, ◌<◌, ◌≤◌, length, Option, Some, None, MatchOption};
ghost use Rattle.machine_model.specs.Edges.{target};
ghost use Rattle.flow_graph.specs.Faults.{jump_fault, fall_fault, onward_fault, fault_at};
ghost use Rattle.flow_graph.specs.Refusals.{Refuses};
ghost use Rattle.insn_codec.specs.Limits.{max_slots};

use crate::fault::FlowFault;
use crate::onward::{Onward, onward_of, target};
use insn_codec::Insn;

/// What is wrong with a jump.
fn jump_fault(code: &[Option<Insn>], slot: u32, offset: i32) -> Option<FlowFault>
    requires { slot < max_slots }
    ensures { result ≡ jump_fault code.now slot (target slot offset) }
{
    let Some(to) = target(slot, offset) else {
        return Some(FlowFault::JumpOut(slot));
    };
    match code.get(to as usize) {
        None => Some(FlowFault::JumpOut(slot)),
        Some(None) => Some(FlowFault::IntoWide(slot)),
        Some(Some(_)) => None,
    }
}

/// What is wrong with an instruction that goes on to this slot.
fn fall_fault(code: &[Option<Insn>], slot: u32, to: u32) -> Option<FlowFault>
    ensures { result ≡ fall_fault code.now slot to }
{
    if (to as usize) < code.len() {
        None
    } else {
        Some(FlowFault::FallsOff(slot))
    }
}

/// The fault of lowest number.
fn onward_fault(code: &[Option<Insn>], slot: u32, onward: Onward) -> Option<FlowFault>
    requires { slot < max_slots }
    ensures { result ≡ onward_fault code.now slot onward }
{
    match onward {
        Onward::Steps => fall_fault(code, slot, slot + 1),
        Onward::StepsWide => fall_fault(code, slot, slot + 2),
        Onward::Jumps(offset) => jump_fault(code, slot, offset),
        Onward::Branches(offset) => match jump_fault(code, slot, offset) {
            Some(fault) => Some(fault),
            None => fall_fault(code, slot, slot + 1),
        },
        Onward::Ends => None,
    }
}

/// The fault of lowest number at the slot.
fn fault_at(code: &[Option<Insn>], slot: u32) -> Option<FlowFault>
    requires range { slot < length code.now }
    requires few { length code.now ≤ max_slots }
    ensures { result ≡ fault_at code.now slot }
{
    match &code[slot as usize] {
        Some(insn) => onward_fault(code, slot, onward_of(insn)),
        None => None,
    }
}

/// The first fault: at the lowest slot, of the lowest number.
pub(crate) fn first_fault(code: &[Option<Insn>]) -> Option<FlowFault>
    requires { length code.now ≤ max_slots }
    ensures { MatchOption result ((slot : ℕ)
        → fault_at code.now slot ≡ None) (λ fault. Refuses code.now fault) }
{
    let slots = code.len() as u32;
    for slot in 0..slots {
        if let Some(fault) = fault_at(code, slot) {
            return Some(fault);
        }
    }
    None
}
