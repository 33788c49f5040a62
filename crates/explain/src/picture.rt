//! A picture of a program: its basic blocks, the edges between them, and why it is refused.

ghost use Rattle.std.specs.Prelude.{◌≡◌, ◌<◌, None, length, map, option_map, IfOk, MatchResult};
ghost use Rattle.verifier.specs.Refusals.{RefusesProgram};
ghost use Rattle.explain.specs.Blocks.{AreInstructionPlaces, IsNumbered};
ghost use Rattle.explain.specs.Lines.{numbered_text};
ghost use Rattle.explain.specs.Pictures.{IsPicture};
ghost use Rattle.explain.specs.Told.{ruled_slot};

use crate::arriving::AnalyzedProgram;
use crate::blocks::{Block, blocks};
use crate::explaining::explain;
use crate::explanation::{Explanation, InstructionPlace};
use crate::graphed_program::graphed;
use crate::instruction_places::{lines_for, number_at};
use crate::lines::SourceLine;
use disassembler::line;
use helpers::HelperTable;
use insn_codec::Placed;
use refusal::NoMemory;
use std::alloc::Global;
use verifier::Refusal;

/// A program that has a graph.
#[derive(Drop)]
pub struct Picture {
    /// The instructions, in order.
    pub places: Vec<InstructionPlace>,
    /// The basic blocks, in the order of their instructions.
    pub blocks: Vec<Block>,
    /// Why the program is refused, if it is.
    pub why: Option<Explanation>,
}

/// The instruction of this number, with the number of its line.
fn place_at(
    alloc: Global,
    placed: &[Placed],
    lines: &[SourceLine<'_>],
    index: usize,
) -> Result<InstructionPlace, NoMemory>
    requires { index < length placed.now }
    ensures { IfOk result
        (λ place. IsNumbered placed.now (map numbered_text lines.now) index place) }
{
    let text = line(alloc, &placed[index].insn)?;
    Ok(InstructionPlace {
        slot: placed[index].slot,
        line: number_at(lines, index),
        text,
    })
}

/// The instructions, with the numbers of their lines.
fn places(
    alloc: Global,
    placed: &[Placed],
    lines: &[SourceLine<'_>],
) -> Result<Vec<InstructionPlace>, NoMemory>
    ensures { IfOk result
        (λ places. AreInstructionPlaces placed.now (map numbered_text lines.now) places.items) }
{
    let mut places = Vec::with_capacity(alloc, placed.len())?;
    for index in 0..placed.len() {
        let place = place_at(alloc, placed, lines, index)?;
        places.push(place)?;
    }
    Ok(places)
}

/// The picture of a program of this need, also of one whose instructions aren't all allowed, or the
/// refusal of a program that has no graph.
pub fn picture_of(
    alloc: Global,
    need: u32,
    code: &[u8],
    helpers: &HelperTable,
    source: Option<&str>,
) -> Result<Picture, Refusal>
    ensures { MatchResult result
        (λ picture. IsPicture need code.now helpers.now (option_map (λ text. text.now) source.entry)
        picture)
        (λ refusal. RefusesProgram need code.now helpers.now refusal
        × (ruled_slot refusal ≡ None)) }
{
    let whole = graphed(alloc, need, code)?;
    let analyzed = AnalyzedProgram {
        need,
        helpers,
        graph: &whole.graph,
    };
    let blocks = blocks(alloc, &analyzed, &whole.placed)?;
    let lines = lines_for(alloc, code, source)?;
    let places = places(alloc, &whole.placed, &lines)?;
    let why = explain(alloc, need, code, helpers, source)?;
    Ok(Picture {
        places,
        blocks,
        why,
    })
}
