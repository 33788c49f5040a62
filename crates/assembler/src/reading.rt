//! Reading one operand: a number, a register, an offset or a place in memory.

ghost use Rattle.assembler.specs.Reading.{ReadsValue, ReadsRegister, ReadsImm, ReadsWideOffset, ReadsOffset, ReadsOperand, ReadsMemory, ReadsNegative, ReadsPositive};

use crate::cut::split_before;
use crate::number::{Number, number_from};
use insn_codec::{Operand, Register};

/// A decimal number.
pub fn value_from(digits: &[u8]) -> Option<u64>
    ensures { ReadsValue digits.now result }
{
    match number_from(digits)? {
        Number::Small(value) => Some(value),
        Number::Large => None,
    }
}

fn negative_from(digits: &[u8]) -> Option<i32>
    ensures { ReadsNegative digits.now result }
{
    let size = value_from(digits)?;
    if size > 0 && size <= 0x8000_0000 {
        Some((-(size as i64)) as i32)
    } else {
        None
    }
}

fn positive_from(digits: &[u8]) -> Option<i32>
    ensures { ReadsPositive digits.now result }
{
    let size = value_from(digits)?;
    if size < 0x8000_0000 {
        Some(size as i32)
    } else {
        None
    }
}

/// A register, as `r10`.
pub fn register_from(text: &[u8]) -> Option<Register>
    ensures { ReadsRegister text.now result }
{
    if text.is_empty() || text[0] != b'r' {
        return None;
    }
    let number = value_from(text.split_at(1).1)?;
    if number <= 10 {
        Some(Register::new(number as u8))
    } else {
        None
    }
}

/// A number of 32 bits with its sign, as `-8`.
pub fn imm_from(text: &[u8]) -> Option<i32>
    ensures { ReadsImm text.now result }
{
    if !text.is_empty() && text[0] == b'-' {
        negative_from(text.split_at(1).1)
    } else {
        positive_from(text)
    }
}

/// An offset of 32 bits, as `+8`.
pub fn wide_offset_from(text: &[u8]) -> Option<i32>
    ensures { ReadsWideOffset text.now result }
{
    if text.is_empty() {
        return None;
    }
    match text[0] {
        b'-' => negative_from(text.split_at(1).1),
        b'+' => positive_from(text.split_at(1).1),
        _ => None,
    }
}

/// An offset of 16 bits.
pub fn offset_from(text: &[u8]) -> Option<i16>
    ensures { ReadsOffset text.now result }
{
    match i16::try_from(wide_offset_from(text)?) {
        Ok(offset) => Some(offset),
        Err(_) => None,
    }
}

/// A register or a number.
pub fn operand_from(text: &[u8]) -> Option<Operand>
    ensures { ReadsOperand text.now result }
{
    match register_from(text) {
        Some(src) => Some(Operand::Reg(src)),
        None => Some(Operand::Imm(imm_from(text)?)),
    }
}

/// A place in memory, as `[r10-8]`.
pub fn memory_from(text: &[u8]) -> Option<(Register, i16)>
    ensures { ReadsMemory text.now result }
{
    if text.len() < 2 || text[0] != b'[' || text[text.len() - 1] != b']' {
        return None;
    }
    let inner = text.split_at(1).1;
    let (base, offset) = split_before(inner.split_at(inner.len() - 1).0, b'+', b'-');
    register_from(base).zip(offset_from(offset))
}
