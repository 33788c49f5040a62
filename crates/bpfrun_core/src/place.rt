//! The line of the source text that a refusal is about, and what it quotes of it.

ghost use Rattle.std.specs.Prelude.{option_map, IfOk};
ghost use Rattle.assembler.specs.Source.{source_lines};
ghost use Rattle.bpfrun_core.specs.FaultLines.{IsAtSlot, IsLineNumbered, IsFaultPlace, IsQuote};

use crate::fault::RunFault;
use crate::form::FileForm;
use assembler::line_with_number;
use explain::{SourceLine, index_of, line_at, lines_of};
use insn_codec::{CodecFault, decode};
use refusal::NoMemory;
use std::alloc::Global;

// The line of this number.
fn numbered(source: &[u8], number: u64) -> Option<SourceLine<'_>>
    ensures { IsLineNumbered number (source_lines source.now) result }
{
    let text = line_with_number(source, number)?;
    Some(SourceLine { number, text })
}

// The line of the instruction at a slot.
fn at_slot<'a>(
    alloc: Global,
    source: &'a [u8],
    code: &[u8],
    slot: u32,
) -> Result<Option<SourceLine<'a>>, NoMemory>
    ensures { IfOk result (λ place. IsAtSlot slot code.now (source_lines source.now) place) }
{
    let placed = match decode(alloc, code) {
        Ok(placed) => placed,
        Err(CodecFault::NoMemory) => return Err(NoMemory),
        Err(_) => return Ok(None),
    };
    match index_of(&placed, slot) {
        Some(index) => Ok(line_at(&lines_of(alloc, source)?, index)),
        None => Ok(None),
    }
}

/// The line of a source text that a refusal is about: the one that is no instruction's, or that of
/// the instruction at the slot that the verifier tells. None where the refusal tells neither, and
/// where the file is no source text.
pub fn place_of<'a>(
    alloc: Global,
    form: FileForm,
    input: &'a [u8],
    code: &[u8],
    fault: &RunFault,
) -> Result<Option<SourceLine<'a>>, NoMemory>
    ensures { IfOk result (λ place. IsFaultPlace form fault.now input.now code.now place) }
{
    match form {
        FileForm::Text => match fault {
            RunFault::Text(fault) => match fault.line() {
                Some(number) => Ok(numbered(input, number)),
                None => Ok(None),
            },
            RunFault::Program(refusal) => match refusal.slot() {
                Some(slot) => at_slot(alloc, input, code, slot),
                None => Ok(None),
            },
            _ => Ok(None),
        },
        FileForm::Hexadecimal | FileForm::Bytes => Ok(None),
    }
}

/// What a refusal quotes of a source text: the word of its line, or the operands. None where the
/// refusal isn't of a line.
pub fn quote_of<'a>(input: &'a [u8], fault: &RunFault) -> Option<&'a str>
    ensures { IsQuote fault.now input.now (option_map (λ part. part.now) result) }
{
    match fault {
        RunFault::Text(fault) => fault.quoted(str::from_utf8(input).ok()?),
        _ => None,
    }
}
