//! The order of a program's instructions, by its graph.

ghost use Rattle.flow_graph.specs.Program.{IsDecoded};

use flow_graph::{FlowFault, build, check_order};
use insn_codec::{Placed, decode};
use std::alloc::Global;

/// A refusal's number, and its slot.
pub fn refused(alloc: Global, number: u8, slot: Option<u32>) -> anyhow::Result<String> {
    match slot {
        Some(slot) => Ok(format!(in alloc; "{number} at {slot}")?),
        None => Ok(format!(in alloc; "{number}")?),
    }
}

/// The numbers with spaces between them, of many of them the first 16 and the last.
fn listed(alloc: Global, numbers: &[u32]) -> anyhow::Result<String> {
    let mut text = String::new(alloc);
    for number in numbers.iter().take(16) {
        text = format!(in alloc; "{text}{number} ")?;
    }
    match numbers.get(16..) {
        Some([.., last]) => Ok(format!(in alloc; "{text}.. {last}")?),
        _ => Ok(String::from_str(alloc, text.as_str().trim())?),
    }
}

fn slot_of(fault: &FlowFault) -> Option<u32> {
    match fault {
        FlowFault::JumpOut(slot)
        | FlowFault::IntoWide(slot)
        | FlowFault::Cycle(slot)
        | FlowFault::FallsOff(slot)
        | FlowFault::Unreachable(slot) => Some(*slot),
        FlowFault::NoMemory => None,
    }
}

/// The order of the program's graph, or why it has none.
pub fn order(alloc: Global, code: &[u8]) -> anyhow::Result<String> {
    let placed = decode(alloc, code)?;
    match build(alloc, &placed) {
        Ok(graph) => listed(alloc, graph.order()),
        Err(fault) => refused(alloc, fault.code(), slot_of(&fault)),
    }
}

/// Whether these slots are an order of the instructions, or why edges don't land.
fn checked(alloc: Global, placed: &[Placed], order: &[u32]) -> anyhow::Result<String>
    requires { IsDecoded placed.now }
{
    let answer = match build(alloc, placed) {
        Ok(_) => check_order(alloc, placed, order)?,
        Err(FlowFault::Cycle(_)) => check_order(alloc, placed, order)?,
        Err(FlowFault::Unreachable(_)) => check_order(alloc, placed, order)?,
        Err(fault) => return refused(alloc, fault.code(), slot_of(&fault)),
    };
    Ok(format!(in alloc; "{answer}")?)
}

/// The same for slots that are written.
pub fn is_order(alloc: Global, slots: &[&str], code: &[u8]) -> anyhow::Result<String> {
    let placed = decode(alloc, code)?;
    let mut order = Vec::new(alloc);
    for slot in slots {
        order.push(slot.parse::<u32>()?)?;
    }
    checked(alloc, &placed, &order)
}
