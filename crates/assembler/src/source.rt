//! Reading a source text line by line.

ghost use Rattle.std.specs.Prelude.{◌≡◌, ◌++◌, reverse, IfOk, IfErr, IsSome};
ghost use Rattle.insn_codec.specs.declared.insn.Insn.{Insn};
ghost use Rattle.assembler.specs.Source.{code_part, without_blanks, stripped, source_lines, AreLinesOf, IsTextRefusal, SaysInsn, RefusesLine, listed};

use crate::cut::split_before;
use crate::fault::TextFault;
use crate::line::{fault_of, insn_from};
use insn_codec::{Insn, Operand};
use std::alloc::{AllocError, Global};

fn is_blank(byte: u8) -> bool
    ensures { result ≡ Rattle.assembler.specs.Source.is_blank byte }
{
    matches!(byte, b' ' | b'\t' | b'\r')
}

fn without_comment(line: &[u8]) -> &[u8]
    ensures { result.now ≡ code_part line.now }
{
    split_before(line, b';', b';').0
}

fn without_leading_blanks(text: &[u8]) -> &[u8]
    ensures { result.now ≡ without_blanks text.now }
{
    let mut rest = text;
    while !rest.is_empty() && is_blank(rest[0]) {
        rest = rest.split_at(1).1;
    }
    rest
}

fn without_trailing_blanks(text: &[u8]) -> &[u8]
    ensures { result.now ≡ reverse (without_blanks (reverse text.now)) }
{
    let mut rest = text;
    while !rest.is_empty() && is_blank(rest[rest.len() - 1]) {
        rest = rest.split_at(rest.len() - 1).0;
    }
    rest
}

/// What a line of a source text says: the line without its comment and the blanks at both ends.
pub fn stripped_line(line: &[u8]) -> &[u8]
    ensures { result.now ≡ stripped line.now }
{
    without_trailing_blanks(without_leading_blanks(without_comment(line)))
}

/// The instruction that a line says, if it says one.
fn insn_of(line: &[u8], number: u64) -> Result<Option<Insn>, TextFault>
    ensures said { IfOk result (λ insn. SaysInsn line.now insn) }
    ensures refused { IfErr result (λ e. RefusesLine e number line.now) }
{
    let text = stripped_line(line);
    if text.is_empty() {
        return Ok(None);
    }
    match insn_from(text) {
        Some(insn) => Ok(Some(insn)),
        None => Err(fault_of(text, number)),
    }
}

/// The items, with one more if there is one.
fn push_option<T: Drop>(mut items: Vec<T>, more: Option<T>) -> Result<Vec<T>, AllocError>
    ensures more { IfOk result (λ new. new.items ≡ items.items ++ listed more) }
    ensures refused { IfErr result (λ _. IsSome more) }
{
    match more {
        Some(item) => {
            items.push(item)?;
            Ok(items)
        }
        None => Ok(items),
    }
}

/// The instructions that the lines of a source text say.
pub fn insns_from(alloc: Global, source: &[u8]) -> Result<Vec<Insn>, TextFault>
    ensures found { IfOk result (λ insns. AreLinesOf insns.items (source_lines source.now)) }
    ensures refused { IfErr result (λ e. IsTextRefusal e (source_lines source.now)) }
{
    // The borrow checker's part of the proof has to hear of the type.
    let _operand: Option<Operand> = None;
    let mut insns = Vec::new(alloc);
    let mut rest = source;
    let mut number = 1;
    loop {
        let (line, tail) = split_before(rest, b'\n', b'\n');
        insns = push_option(insns, insn_of(line, number)?)?;
        if tail.is_empty() {
            return Ok(insns);
        }
        rest = tail.split_at(1).1;
        number += 1;
    }
}
