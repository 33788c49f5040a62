//! The instruction of a word and its operands.

ghost use Rattle.disassembler.specs.declared.word.Word.TheVariants as word;
ghost use Rattle.assembler.specs.Reading.{ReadsInsn};

use crate::pair::{
    memory_and_imm, memory_and_register, register_and_memory, register_and_operand,
    register_and_tested, register_and_value, two_registers,
};
use crate::reading::{offset_from, register_from, value_from, wide_offset_from};
use disassembler::Word;
use insn_codec::{
    AluOp, ByteOrder, Condition, EndSize, Insn, LoadKind, SignExtension, Size, Width,
};

fn alu_with(width: Width, op: AluOp, operands: &[u8]) -> Option<Insn>
    ensures { ReadsInsn (word.Alu width op) operands.now result }
{
    let (dst, src) = register_and_operand(operands)?;
    Some(Insn::Alu {
        width,
        op,
        dst,
        src,
    })
}

fn mov_with(width: Width, operands: &[u8]) -> Option<Insn>
    ensures { ReadsInsn (word.Mov width) operands.now result }
{
    let (dst, src) = register_and_operand(operands)?;
    Some(Insn::Mov { width, dst, src })
}

fn mov_sx_with(extension: SignExtension, operands: &[u8]) -> Option<Insn>
    ensures { ReadsInsn (word.MovSx extension) operands.now result }
{
    let (dst, src) = two_registers(operands)?;
    Some(Insn::MovSx {
        extension,
        dst,
        src,
    })
}

fn neg_with(width: Width, operands: &[u8]) -> Option<Insn>
    ensures { ReadsInsn (word.Neg width) operands.now result }
{
    let dst = register_from(operands)?;
    Some(Insn::Neg { width, dst })
}

fn end_with(order: ByteOrder, size: EndSize, operands: &[u8]) -> Option<Insn>
    ensures { ReadsInsn (word.End order size) operands.now result }
{
    let dst = register_from(operands)?;
    Some(Insn::End { order, size, dst })
}

fn load_wide_with(operands: &[u8]) -> Option<Insn>
    ensures { ReadsInsn word.LoadWide operands.now result }
{
    let (dst, value) = register_and_value(operands)?;
    Some(Insn::LoadWide { dst, value })
}

fn load_with(kind: LoadKind, operands: &[u8]) -> Option<Insn>
    ensures { ReadsInsn (word.Load kind) operands.now result }
{
    let (dst, (base, offset)) = register_and_memory(operands)?;
    Some(Insn::Load {
        kind,
        dst,
        base,
        offset,
    })
}

fn store_with(size: Size, operands: &[u8]) -> Option<Insn>
    ensures { ReadsInsn (word.Store size) operands.now result }
{
    let ((base, offset), imm) = memory_and_imm(operands)?;
    Some(Insn::Store {
        size,
        base,
        offset,
        imm,
    })
}

fn store_register_with(size: Size, operands: &[u8]) -> Option<Insn>
    ensures { ReadsInsn (word.StoreRegister size) operands.now result }
{
    let ((base, offset), src) = memory_and_register(operands)?;
    Some(Insn::StoreRegister {
        size,
        base,
        offset,
        src,
    })
}

fn jump_with(operands: &[u8]) -> Option<Insn>
    ensures { ReadsInsn word.Jump operands.now result }
{
    let offset = offset_from(operands)?;
    Some(Insn::Jump { offset })
}

fn jump32_with(operands: &[u8]) -> Option<Insn>
    ensures { ReadsInsn word.Jump32 operands.now result }
{
    let offset = wide_offset_from(operands)?;
    Some(Insn::Jump32 { offset })
}

fn jump_if_with(width: Width, condition: Condition, operands: &[u8]) -> Option<Insn>
    ensures { ReadsInsn (word.JumpIf width condition) operands.now result }
{
    let (dst, (src, offset)) = register_and_tested(operands)?;
    Some(Insn::JumpIf {
        width,
        condition,
        dst,
        src,
        offset,
    })
}

fn call_with(operands: &[u8]) -> Option<Insn>
    ensures { ReadsInsn word.Call operands.now result }
{
    let helper = value_from(operands)?;
    if helper < 0x1_0000_0000 {
        Some(Insn::Call {
            helper: helper as u32,
        })
    } else {
        None
    }
}

fn exit_with(operands: &[u8]) -> Option<Insn>
    ensures { ReadsInsn word.Exit operands.now result }
{
    if operands.is_empty() {
        Some(Insn::Exit)
    } else {
        None
    }
}

/// The instruction with this word and these operands.
pub fn insn_with(word: Word, operands: &[u8]) -> Option<Insn>
    ensures { ReadsInsn word operands.now result }
{
    match word {
        Word::Alu(width, op) => alu_with(width, op, operands),
        Word::Mov(width) => mov_with(width, operands),
        Word::MovSx(extension) => mov_sx_with(extension, operands),
        Word::Neg(width) => neg_with(width, operands),
        Word::End(order, size) => end_with(order, size, operands),
        Word::LoadWide => load_wide_with(operands),
        Word::Load(kind) => load_with(kind, operands),
        Word::Store(size) => store_with(size, operands),
        Word::StoreRegister(size) => store_register_with(size, operands),
        Word::Jump => jump_with(operands),
        Word::Jump32 => jump32_with(operands),
        Word::JumpIf(width, condition) => jump_if_with(width, condition, operands),
        Word::Call => call_with(operands),
        Word::Exit => exit_with(operands),
    }
}
