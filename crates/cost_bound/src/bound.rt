//! The greatest sum of prices from each slot.

ghost use Rattle.std.specs.Prelude.{◌≡◌, ◌+◌, ◌*◌, ◌≤◌, ◌<◌, length, slice_index, IfOk};
ghost use Rattle.machine_model.specs.Paths.{IsCost, AreCosts};
ghost use Rattle.cost_bound.specs.Table.{AreCostsFrom};

use crate::table::Costs;
use flow_graph::{Graph, Next};
use machine_model::price;
use refusal::NoMemory;
use std::alloc::Global;

/// The cost of the slot at a place of the order, from those of the slots that it leads to.
fn cost_of(graph: &Graph, table: &[u32], place: u32) -> u32
    requires place { place < length graph.now.order }
    requires later { AreCostsFrom graph.now table.now (place + 1) }
    ensures cost { IsCost graph.now.code (slice_index graph.now.order place) result }
    ensures few { result + 32 * place ≤ 32 * length graph.now.order }
{
    let slots = graph.slots();
    let slot = graph.order()[place as usize];
    prove!(slot < slots);
    let insn = graph.insn(slot).unwrap();
    let onward = match graph.successors(slot) {
        Next::Zero => 0,
        Next::One(to) => table[to as usize],
        Next::Two(following, to) => table[following as usize].max(table[to as usize]),
    };
    price(insn) + onward
}

/// The cost of each slot of a program, in one pass along its order from the last place down.
pub fn costs(alloc: Global, graph: &Graph) -> Result<Costs, NoMemory>
    ensures { IfOk result (λ costs. AreCosts graph.now.code costs) }
{
    let slots = graph.slots();
    let order = graph.order();
    let mut table = vec![in alloc; 0u32; slots as usize]?;
    let mut place = order.len() as u32;
    while place > 0 {
        place -= 1;
        let cost = cost_of(graph, &table, place);
        table[order[place as usize] as usize] = cost;
    }
    Ok(Costs::of(table))
}
