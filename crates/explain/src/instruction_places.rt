//! The instruction at a slot, and its line in a source text.

ghost use Rattle.std.specs.Prelude.{◌≡◌, ◌↔◌, IsTrue, map, option_map, slice_get, IfOk};
ghost use Rattle.explain.specs.Lines.{AreLinesFor, IsIndex, IsPlaceAt, IsPlaceIn, IsPlaceOf, IsSourceOf, lines_in, numbered_text};

use crate::explanation::InstructionPlace;
use crate::lines::{SourceLine, lines_of};
use assembler::{TextFault, assemble};
use disassembler::line;
use insn_codec::{CodecFault, Placed, decode};
use refusal::NoMemory;
use std::alloc::Global;

/// The number of the instruction at a slot, from 0 on.
pub fn index_of(placed: &[Placed], slot: u32) -> Option<usize>
    ensures { IsIndex slot placed.now result }
{
    let mut index = 0;
    while index < placed.len() {
        if placed[index].slot == slot {
            return Some(index);
        }
        index += 1;
    }
    None
}

/// The line at a place, from 0 on.
pub fn line_at<'a>(lines: &[SourceLine<'a>], place: usize) -> Option<SourceLine<'a>>
    ensures { result ≡ slice_get lines.now place }
{
    if place < lines.len() {
        Some(lines[place])
    } else {
        None
    }
}

/// The number of the line at a place, from 0 on.
pub(crate) fn number_at(lines: &[SourceLine<'_>], index: usize) -> Option<u64>
    ensures { result ≡ option_map (λ line. line.0) (slice_get (map numbered_text lines.now) index) }
{
    match line_at(lines, index) {
        Some(line) => Some(line.number),
        None => None,
    }
}

/// The instruction at a slot of a program, if one begins there, with the number of its line.
pub fn place_in(
    alloc: Global,
    placed: &[Placed],
    lines: &[SourceLine<'_>],
    slot: u32,
) -> Result<Option<InstructionPlace>, NoMemory>
    ensures { IfOk result (λ place. IsPlaceIn placed.now (map numbered_text lines.now) slot place) }
{
    let Some(index) = index_of(placed, slot) else {
        return Ok(None);
    };
    let text = line(alloc, &placed[index].insn)?;
    Ok(Some(InstructionPlace {
        slot,
        line: number_at(lines, index),
        text,
    }))
}

/// The lines of a source text, if there is one.
pub fn lines_in<'a>(alloc: Global, source: Option<&'a str>) -> Result<Vec<SourceLine<'a>>, NoMemory>
    ensures { IfOk result (λ lines. map numbered_text lines.items
        ≡ lines_in (option_map (λ text. text.now) source.entry)) }
{
    match source {
        Some(source) => lines_of(alloc, source.as_bytes()),
        None => Ok(Vec::new(alloc)),
    }
}

/// Whether the source text assembles to the bytes.
fn is_source_of(alloc: Global, source: &str, code: &[u8]) -> Result<bool, NoMemory>
    ensures { IfOk result (λ holds. IsTrue holds ↔ IsSourceOf source.now code.now) }
{
    match assemble(alloc, source) {
        Ok(bytes) => Ok(bytes.as_slice() == code),
        Err(TextFault::NoMemory) => Err(NoMemory),
        Err(_) => Ok(false),
    }
}

/// The lines of a source text, if there is one and it assembles to the bytes.
pub(crate) fn lines_for<'a>(
    alloc: Global,
    code: &[u8],
    source: Option<&'a str>,
) -> Result<Vec<SourceLine<'a>>, NoMemory>
    ensures { IfOk result (λ lines. AreLinesFor code.now
        (option_map (λ text. text.now) source.entry) (map numbered_text lines.items)) }
{
    match source {
        Some(text) => {
            if is_source_of(alloc, text, code)? {
                return lines_of(alloc, text.as_bytes());
            }
            Ok(Vec::new(alloc))
        }
        None => Ok(Vec::new(alloc)),
    }
}

/// The instruction at a slot, where the bytes are a program that has one there.
fn place_at(
    alloc: Global,
    code: &[u8],
    source: Option<&str>,
    slot: u32,
) -> Result<Option<InstructionPlace>, NoMemory>
    ensures { IfOk result (λ place. IsPlaceAt code.now
        (option_map (λ text. text.now) source.entry) slot place) }
{
    let placed = match decode(alloc, code) {
        Ok(placed) => placed,
        Err(CodecFault::NoMemory) => return Err(NoMemory),
        Err(_) => return Ok(None),
    };
    let lines = lines_for(alloc, code, source)?;
    place_in(alloc, &placed, &lines, slot)
}

/// The instruction at the slot that a refusal tells, if it tells one.
pub(crate) fn place_of(
    alloc: Global,
    code: &[u8],
    source: Option<&str>,
    slot: Option<u32>,
) -> Result<Option<InstructionPlace>, NoMemory>
    ensures { IfOk result (λ place. IsPlaceOf code.now
        (option_map (λ text. text.now) source.entry) slot place) }
{
    match slot {
        Some(slot) => place_at(alloc, code, source, slot),
        None => Ok(None),
    }
}
