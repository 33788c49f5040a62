//! The programs that are run, each of a given number of slots.

use assembler::assemble;
use job_core::ProgramBytes;
use std::alloc::Global;

/// What a program does over and over until its `exit`.
#[derive(Clone, Copy, Debug, PartialEq, Eq)]
pub enum Scenario {
    /// Sums, products, shifts and bit operations of both widths.
    Arithmetic,
    /// Half loads and stores of the stack and the part, half arithmetic.
    Memory,
    /// Conditional jumps to the next slot but one, half of them taken.
    Ladder,
    /// Conditional jumps to the last slots, none of them taken: each path joins there.
    Comb,
    /// Pieces of two slots, each with a jump to the next one, which stands elsewhere: half of the
    /// jumps lead backward.
    Shuffled,
}

impl Scenario {
    /// The name that is printed.
    pub fn name(self) -> &'static str {
        match self {
            Scenario::Arithmetic => "arithmetic",
            Scenario::Memory => "memory",
            Scenario::Ladder => "ladder",
            Scenario::Comb => "comb",
            Scenario::Shuffled => "shuffled",
        }
    }
}

/// The instructions of a kind that computes, by their number.
fn arithmetic(place: u32) -> &'static str {
    match place % 8 {
        0 => "add64 r0, 7",
        1 => "xor64 r4, r0",
        2 => "mul32 r5, 3",
        3 => "sub64 r0, r5",
        4 => "rsh64 r4, 3",
        5 => "add32 r4, r5",
        6 => "or64 r5, 1",
        _ => "and64 r0, 65535",
    }
}

/// A load or store at each even place.
fn memory(place: u32) -> &'static str {
    match place % 8 {
        0 => "stxdw [r10-8], r0",
        2 => "ldxw r4, [r10-8]",
        4 => "stxb [r1+3], r4",
        6 => "ldxh r5, [r1+2]",
        _ => arithmetic(place),
    }
}

/// A jump at each third place: past the instruction behind it where R0 is odd, which every other
/// time it is.
fn ladder(place: u32) -> &'static str {
    match place % 3 {
        0 => "jset r0, 1, +1",
        1 => "add64 r0, 2",
        _ => "add64 r0, 1",
    }
}

/// A jump at each even place: to the last slot but one, where R0 is above what it comes to.
fn comb(alloc: Global, place: u32, body: u32) -> anyhow::Result<String> {
    if place % 2 != 0 {
        return Ok(String::from_str(alloc, "add64 r0, 1")?);
    }
    let left = body.saturating_sub(place).saturating_sub(1);
    Ok(format!(in alloc; "jgt r0, 2147483647, +{left}")?)
}

/// How many pieces on the next one stands. It has no factor in common with how many pieces there
/// are.
const STRIDE: u32 = 1009;

/// A jump at each odd place: to the piece that comes next, and from the last one behind all pieces.
fn shuffled(alloc: Global, place: u32, body: u32) -> anyhow::Result<String> {
    if place % 2 == 0 {
        return Ok(String::from_str(alloc, "add64 r0, 1")?);
    }
    let pieces = body / 2;
    let piece = (place / 2).saturating_add(STRIDE).checked_rem(pieces);
    let next = match piece {
        None | Some(0) => pieces,
        Some(piece) => piece,
    };
    let offset = 2 * i64::from(next) - i64::from(place) - 1;
    if offset < 0 {
        return Ok(format!(in alloc; "ja {offset}")?);
    }
    Ok(format!(in alloc; "ja +{offset}")?)
}

/// The line at a place of the scenario's body.
fn line(alloc: Global, scenario: Scenario, place: u32, body: u32) -> anyhow::Result<String> {
    let line = match scenario {
        Scenario::Arithmetic => arithmetic(place),
        Scenario::Memory => memory(place),
        Scenario::Ladder => ladder(place),
        Scenario::Comb => return comb(alloc, place, body),
        Scenario::Shuffled => return shuffled(alloc, place, body),
    };
    Ok(String::from_str(alloc, line)?)
}

/// The program of this scenario with so many slots, from 8 to 4,096. It needs 8 bytes.
pub fn program(alloc: Global, scenario: Scenario, slots: u32) -> anyhow::Result<ProgramBytes> {
    let body = slots.saturating_sub(5);
    let mut text = String::from_str(alloc, "mov64 r0, 1\nmov64 r4, 2\nmov64 r5, 3\n")?;
    for place in 0..body {
        text.push_str(line(alloc, scenario, place, body)?.as_str())?;
        text.push('\n')?;
    }
    text.push_str("add64 r0, 0\nexit\n")?;
    Ok(ProgramBytes {
        need: 8,
        code: assemble(alloc, text.as_str())?,
    })
}
