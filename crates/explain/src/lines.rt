//! The lines of a source text that say an instruction.

ghost use Rattle.std.specs.Prelude.{◌≡◌, ◌++◌, map, IfOk};
ghost use Rattle.assembler.specs.Source.{source_lines};
ghost use Rattle.explain.specs.Lines.{said, numbered_text};

use assembler::{split_before, stripped_line};
use refusal::NoMemory;
use std::alloc::Global;

/// A line that says something.
#[derive(Clone, Copy)]
pub struct SourceLine<'a> {
    /// From 1 on.
    pub number: u64,
    /// What stands on it, without its comment and the blanks at both ends.
    pub text: &'a [u8],
}

// The lines, with this one if it says something.
fn extended<'a>(
    mut lines: Vec<SourceLine<'a>>,
    number: u64,
    text: &'a [u8],
) -> Result<Vec<SourceLine<'a>>, NoMemory>
    ensures { IfOk result
        (λ more. map numbered_text more.items ≡ map numbered_text lines.entry.items
        ++ said number text.now) }
{
    if !text.is_empty() {
        lines.push(SourceLine { number, text })?;
    }
    Ok(lines)
}

/// The lines of a source text that say something, in their order: those that the assembler reads.
pub fn lines_of(alloc: Global, source: &[u8]) -> Result<Vec<SourceLine<'_>>, NoMemory>
    ensures { IfOk result (λ lines. map numbered_text lines.items ≡ source_lines source.now) }
{
    let mut lines = Vec::new(alloc);
    let mut rest = source;
    let mut number = 1;
    loop {
        let (line, tail) = split_before(rest, b'\n', b'\n');
        lines = extended(lines, number, stripped_line(line))?;
        if tail.is_empty() {
            return Ok(lines);
        }
        rest = tail.split_at(1).1;
        number += 1;
    }
}
