//! Reading operands that a comma and a space join.

ghost use Rattle.std.specs.Prelude.{ℕ, ℤ};
ghost use Rattle.std.specs.Fmt.{decimal, signed_decimal};
ghost use Rattle.insn_codec.specs.Spelling.{IsOperand};
ghost use Rattle.disassembler.specs.Line.{register_text, signed_text};
ghost use Rattle.disassembler.specs.Line.{operand_text};
ghost use Rattle.assembler.specs.Reading.{ReadsPair, IsRegisterNumber, IsOffset, IsImm, IsUnsigned64, IsPlace, place_text, IsTested, tested_text};

use crate::cut::two_from;
use crate::reading::{imm_from, memory_from, offset_from, operand_from, register_from, value_from};
use insn_codec::{Operand, Register};

pub fn register_and_operand(text: &[u8]) -> Option<(Register, Operand)>
    ensures { ReadsPair register_text IsRegisterNumber operand_text IsOperand text.now result }
{
    let (front, back) = two_from(text)?;
    register_from(front).zip(operand_from(back))
}

pub fn two_registers(text: &[u8]) -> Option<(Register, Register)>
    ensures { ReadsPair register_text IsRegisterNumber register_text IsRegisterNumber
        text.now result }
{
    let (front, back) = two_from(text)?;
    register_from(front).zip(register_from(back))
}

pub fn register_and_value(text: &[u8]) -> Option<(Register, u64)>
    ensures { ReadsPair register_text IsRegisterNumber decimal IsUnsigned64 text.now result }
{
    let (front, back) = two_from(text)?;
    register_from(front).zip(value_from(back))
}

pub fn register_and_memory(text: &[u8]) -> Option<(Register, (Register, i16))>
    ensures { ReadsPair register_text IsRegisterNumber place_text IsPlace text.now result }
{
    let (front, back) = two_from(text)?;
    register_from(front).zip(memory_from(back))
}

pub fn memory_and_imm(text: &[u8]) -> Option<((Register, i16), i32)>
    ensures { ReadsPair place_text IsPlace signed_decimal IsImm text.now result }
{
    let (front, back) = two_from(text)?;
    memory_from(front).zip(imm_from(back))
}

pub fn memory_and_register(text: &[u8]) -> Option<((Register, i16), Register)>
    ensures { ReadsPair place_text IsPlace register_text IsRegisterNumber text.now result }
{
    let (front, back) = two_from(text)?;
    memory_from(front).zip(register_from(back))
}

pub fn operand_and_offset(text: &[u8]) -> Option<(Operand, i16)>
    ensures { ReadsPair operand_text IsOperand signed_text IsOffset text.now result }
{
    let (front, back) = two_from(text)?;
    operand_from(front).zip(offset_from(back))
}

pub fn register_and_tested(text: &[u8]) -> Option<(Register, (Operand, i16))>
    ensures { ReadsPair register_text IsRegisterNumber tested_text IsTested text.now result }
{
    let (front, back) = two_from(text)?;
    register_from(front).zip(operand_and_offset(back))
}
