//! A picture of a program, in the language DOT.

ghost use Rattle.std.specs.Prelude.{◌↔◌, IsTrue};
ghost use Rattle.run_trace.specs.Ways.{IsOnWay, IsStepOn};

use explain::{AbsText, Block, Explanation, InstructionPlace, Picture};
use flow_graph::Next;
use insn_codec::Register;
use std::fmt;
use value_ranges::Abs;
use verifier::AbsState;

/// Ends a line of a box, at its left.
const END: &str = "<br align=\"left\"/>";

/// Whether an instruction at this slot isn't allowed, and is the one that the refusal tells of.
fn is_refused(why: &Option<Explanation>, slot: u32) -> bool {
    match why {
        Some(why) => why.refusal.slot() == Some(slot),
        None => false,
    }
}

/// The slots of the way to the instruction that isn't allowed.
fn way_in(why: &Option<Explanation>) -> &[u32] {
    match why {
        Some(
            Explanation {
                known: Some(known),
                ..
            },
        ) => &known.way,
        _ => &[],
    }
}

/// Whether the way passes the slot.
fn is_on_way(way: &[u32], slot: u32) -> bool
    ensures { IsTrue result ↔ IsOnWay way.now slot }
{
    for place in 0..way.len() {
        if way[place] == slot {
            return true;
        }
    }
    false
}

/// Whether the way goes from the one slot to the other at once.
fn is_step(way: &[u32], from: u32, to: u32) -> bool
    ensures { IsTrue result ↔ IsStepOn way.now from to }
{
    for place in 1..way.len() {
        let begins = way[place - 1] == from;
        let ends = way[place] == to;
        if begins && ends {
            return true;
        }
    }
    false
}

/// A line for each register that is set.
#[derive(Clone, Copy)]
struct StateLines(Option<AbsState>);

impl fmt::Display for StateLines {
    fn fmt<W: fmt::Write>(&self, f: &mut fmt::Formatter<W>) -> fmt::Result {
        let Some(state) = &self.0 else {
            return write!(f, "nothing known{END}");
        };
        for number in 0..11 {
            let known = state.at(Register::new(number));
            match known {
                Abs::Unset => {}
                known => write!(f, "r{number} {}{END}", AbsText(known))?,
            }
        }
        Ok(())
    }
}

/// An instruction's line in its box.
#[derive(Clone, Copy)]
struct InstructionRow<'a>(&'a Picture, &'a InstructionPlace);

impl<'a> fmt::Display for InstructionRow<'a> {
    fn fmt<W: fmt::Write>(&self, f: &mut fmt::Formatter<W>) -> fmt::Result {
        if is_refused(&self.0.why, self.1.slot) {
            write!(f, "<font color=\"red\">{}</font>{END}", self.1)
        } else {
            write!(f, "{}{END}", self.1)
        }
    }
}

/// The attribute that makes a box or an edge red.
fn red(is_red: bool) -> &'static str {
    if is_red { ", color=red" } else { "" }
}

/// A box.
#[derive(Clone, Copy)]
struct BlockBox<'a>(&'a Picture, &'a Block, u32);

impl<'a> fmt::Display for BlockBox<'a> {
    fn fmt<W: fmt::Write>(&self, f: &mut fmt::Formatter<W>) -> fmt::Result {
        let (picture, block, head) = (self.0, self.1, self.2);
        let cost = block.cost;
        write!(
            f,
            "  s{head} [label=<<font color=\"gray40\">cost {cost}{END}{}</font>",
            StateLines(block.known)
        )?;
        for index in block.first..block.end {
            if let Some(place) = picture.places.get(index) {
                write!(f, "{}", InstructionRow(picture, place))?;
            }
        }
        let on_way = is_on_way(way_in(&picture.why), head);
        write!(f, ">{}];\n", red(on_way))
    }
}

/// The edge from a block to a slot, with what is told of it.
#[derive(Clone, Copy)]
struct Edge<'a>(&'a Picture, Ends, &'static str);

/// The slots of a block's first and last instructions, and the one that an edge leads to.
#[derive(Clone, Copy)]
struct Ends {
    head: u32,
    last: u32,
    to: u32,
}

impl<'a> fmt::Display for Edge<'a> {
    fn fmt<W: fmt::Write>(&self, f: &mut fmt::Formatter<W>) -> fmt::Result {
        let Ends { head, last, to } = self.1;
        let on_way = is_step(way_in(&self.0.why), last, to);
        write!(
            f,
            "  s{head} -> s{to} [label=\"{}\"{}];\n",
            self.2,
            red(on_way)
        )
    }
}

/// The edges from a block.
#[derive(Clone, Copy)]
struct Edges<'a>(&'a Picture, &'a Block, u32);

impl<'a> fmt::Display for Edges<'a> {
    fn fmt<W: fmt::Write>(&self, f: &mut fmt::Formatter<W>) -> fmt::Result {
        let (picture, head) = (self.0, self.2);
        let last = match picture.places.get(self.1.end.saturating_sub(1)) {
            Some(place) => place.slot,
            None => head,
        };
        match self.1.next {
            Next::Zero => Ok(()),
            Next::One(to) => write!(f, "{}", Edge(picture, Ends { head, last, to }, "")),
            Next::Two(following, to) => {
                let on = Ends {
                    head,
                    last,
                    to: following,
                };
                let taken = Ends { head, last, to };
                write!(
                    f,
                    "{}{}",
                    Edge(picture, on, "not taken"),
                    Edge(picture, taken, "taken")
                )
            }
        }
    }
}

/// The picture as a graph in the language DOT: a box a block, with its cost, what is known of the
/// registers ahead of it, and its instructions. Red are the instruction that isn't allowed and a
/// way there.
#[derive(Clone, Copy)]
pub struct Drawing<'a>(pub &'a Picture);

impl<'a> fmt::Display for Drawing<'a> {
    fn fmt<W: fmt::Write>(&self, f: &mut fmt::Formatter<W>) -> fmt::Result {
        let picture = self.0;
        write!(
            f,
            "digraph program {{\n  node [shape=box, fontname=\"monospace\"];\n"
        )?;
        for block in &picture.blocks {
            if let Some(place) = picture.places.get(block.first) {
                write!(
                    f,
                    "{}{}",
                    BlockBox(picture, block, place.slot),
                    Edges(picture, block, place.slot)
                )?;
            }
        }
        write!(f, "}}\n")
    }
}
