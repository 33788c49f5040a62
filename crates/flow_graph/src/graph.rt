//! The graph of a program.

ghost use Rattle.std.specs.Prelude.{◌≡◌, ◌<◌, length};
ghost use Rattle.std.specs.Option.{option_copied};
ghost use Rattle.machine_model.specs.Edges.{insn_at};

use crate::onward::{Onward, onward_of, target};
use insn_codec::Insn;
use std::marker::Model;

/// The slots that an instruction leads to, the following one first.
#[derive(Clone, Copy, Debug, PartialEq, Eq, Hash)]
pub enum Next {
    Zero,
    One(u32),
    Two(u32, u32),
}

/// A program whose edges lead to instructions and close no cycle, and which reaches each of its
/// instructions.
#[derive(Drop)]
pub struct Graph {
    code: Vec<Option<Insn>>,
    order: Vec<u32>,
}

impl Model for Graph {
    ghost use Rattle.flow_graph.specs.Flow.{Flow, IsFlow};

    ghost Value = { Flow };

    ghost view = { λ g. record { code = g.code.items; order = g.order.items } };

    ghost invariant = { λ g. IsFlow (record { code = g.code.items; order = g.order.items }) };
}

impl Graph {
    ghost use Rattle.machine_model.specs.Edges.{Begins};
    ghost use Rattle.flow_graph.specs.Flow.{AreNext, IsFlow, IsOrder};

    /// The graph of a code whose edges lead onward in an order.
    pub(crate) fn of(code: Vec<Option<Insn>>, order: Vec<u32>) -> Graph
        requires { IsFlow (record { code = code.items; order = order.items }) }
        ensures code { result.code ≡ code.items }
        ensures order { result.order ≡ order.items }
    {
        Graph { code, order }
    }

    /// How many slots the program has.
    pub fn slots(&self) -> u32
        ensures slots { result ≡ length self.now.code }
        ensures flow { IsFlow self.now }
    {
        self.code.len() as u32
    }

    /// The instruction that begins at the slot.
    pub fn insn(&self, slot: u32) -> Option<&Insn>
        ensures { option_copied result ≡ insn_at self.now.code slot }
    {
        insn_at(&self.code, slot)
    }

    /// The slots that the instruction at the slot leads to.
    pub fn successors(&self, slot: u32) -> Next
        requires { Begins self.now.code slot }
        ensures { AreNext self.now.code slot result }
    {
        next_of(&self.code, slot)
    }

    /// The slots where instructions begin, each once, in an order in which all edges lead onward.
    pub fn order(&self) -> &[u32]
        ensures order { result.now ≡ self.now.order }
        ensures onward { IsOrder self.now.code self.now.order }
    {
        &self.order
    }

    /// The instruction that begins at each slot.
    pub fn into_code(self) -> Vec<Option<Insn>>
        ensures { result.items ≡ self.code }
    {
        let Graph { code, .. } = self;
        code
    }
}

ghost use Rattle.std.specs.Prelude.{◌↔◌, IsTrue};
ghost use Rattle.machine_model.specs.Edges.{Begins};
ghost use Rattle.flow_graph.specs.Flow.{AreNext, IsJoined, IsNext, HasTarget};
ghost use Rattle.insn_codec.specs.Limits.{max_slots};

/// The instruction that begins at the slot.
fn insn_at(code: &[Option<Insn>], slot: u32) -> Option<&Insn>
    ensures { option_copied result ≡ insn_at code.now slot }
{
    match code.get(slot as usize) {
        Some(Some(insn)) => Some(insn),
        _ => None,
    }
}

/// Whether an instruction begins at the slot.
pub(crate) fn begins_at(code: &[Option<Insn>], slot: u32) -> bool
    ensures { IsTrue result ↔ Begins code.now slot }
{
    match insn_at(code, slot) {
        Some(_) => true,
        None => false,
    }
}

/// The slots that an instruction leads to which goes on in this way.
#[inline(always)]
fn next_after(onward: Onward, slot: u32) -> Next
    requires slot { slot < max_slots }
    requires target { HasTarget onward slot }
    ensures { IsNext onward slot result }
{
    match onward {
        Onward::Steps => Next::One(slot + 1),
        Onward::StepsWide => Next::One(slot + 2),
        Onward::Jumps(offset) => Next::One(target(slot, offset).unwrap()),
        Onward::Branches(offset) => Next::Two(slot + 1, target(slot, offset).unwrap()),
        Onward::Ends => Next::Zero,
    }
}

/// The slots that the instruction at the slot leads to.
#[inline(always)]
pub(crate) fn next_of(code: &[Option<Insn>], slot: u32) -> Next
    requires joined { IsJoined code.now }
    requires begins { Begins code.now slot }
    ensures { AreNext code.now slot result }
{
    match &code[slot as usize] {
        Some(insn) => next_after(onward_of(insn), slot),
        None => Next::Zero,
    }
}
