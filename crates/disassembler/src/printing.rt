//! The line of an instruction.

ghost use Rattle.std.specs.Prelude.{◌≡◌, List, IfOk, IfErr, string_bytes};
ghost use Rattle.insn_codec.specs.declared.insn.Insn.{Insn};
ghost use Rattle.insn_codec.specs.Spelling.{IsRefusal};
ghost use Rattle.disassembler.specs.Line.{line_text, IsListing};

use crate::signed_number::SignedNumber;
use crate::word::Word;
use insn_codec::{CodecFault, Insn, Operand, Register, decode};
use refusal::NoMemory;
use std::alloc::Global;
use std::fmt;

/// A register, as `r10`.
#[derive(Clone, Copy)]
struct Name(Register);

impl fmt::Display for Name {
    ghost use Rattle.std.specs.Prelude.{Some};
    ghost use Rattle.disassembler.specs.Line.{register_text};

    ghost output = { λ name. Some (register_text name.0) };

    fn fmt<W: fmt::Write>(&self, f: &mut fmt::Formatter<W>) -> fmt::Result {
        write!(f, "r{}", self.0.number())
    }
}

/// A register, or a number.
#[derive(Clone, Copy)]
struct SourceOperand(Operand);

impl fmt::Display for SourceOperand {
    ghost use Rattle.std.specs.Prelude.{Some};
    ghost use Rattle.disassembler.specs.Line.{operand_text};

    ghost output = { λ value. Some (operand_text value.0) };

    fn fmt<W: fmt::Write>(&self, f: &mut fmt::Formatter<W>) -> fmt::Result {
        match self.0 {
            Operand::Imm(imm) => write!(f, "{imm}"),
            Operand::Reg(src) => write!(f, "{}", Name(src)),
        }
    }
}

/// A place in memory, as `[r10-8]`.
#[derive(Clone, Copy)]
struct MemoryOperand(Register, i16);

impl fmt::Display for MemoryOperand {
    ghost use Rattle.std.specs.Prelude.{Some};
    ghost use Rattle.disassembler.specs.Line.{memory_text};

    ghost output = { λ place. Some (memory_text place.0 place.1) };

    fn fmt<W: fmt::Write>(&self, f: &mut fmt::Formatter<W>) -> fmt::Result {
        write!(f, "[{}{}]", Name(self.0), SignedNumber(i64::from(self.1)))
    }
}

/// What a conditional jump tests and how far it goes, as `r3, 15, +3`.
#[derive(Clone, Copy)]
struct Branch(Register, Operand, i16);

impl fmt::Display for Branch {
    ghost use Rattle.std.specs.Prelude.{Some};
    ghost use Rattle.disassembler.specs.Line.{branch_text};

    ghost output = { λ branch. Some (branch_text branch.0 branch.1 branch.2) };

    fn fmt<W: fmt::Write>(&self, f: &mut fmt::Formatter<W>) -> fmt::Result {
        let (dst, src) = (Name(self.0), SourceOperand(self.1));
        write!(f, "{dst}, {src}, {}", SignedNumber(i64::from(self.2)))
    }
}

/// What follows the word of a line: the operands, with a space in front.
#[derive(Clone, Copy)]
struct Tail(Insn);

impl fmt::Display for Tail {
    ghost use Rattle.std.specs.Prelude.{Some};
    ghost use Rattle.disassembler.specs.Line.{tail_text};

    ghost output = { λ tail. Some (tail_text tail.0) };

    fn fmt<W: fmt::Write>(&self, f: &mut fmt::Formatter<W>) -> fmt::Result {
        match self.0 {
            Insn::Alu { dst, src, .. } | Insn::Mov { dst, src, .. } => {
                let (dst, src) = (Name(dst), SourceOperand(src));
                write!(f, " {dst}, {src}")
            }
            Insn::MovSx { dst, src, .. } => write!(f, " {}, {}", Name(dst), Name(src)),
            Insn::Neg { dst, .. } | Insn::End { dst, .. } => write!(f, " {}", Name(dst)),
            Insn::LoadWide { dst, value } => write!(f, " {}, {value}", Name(dst)),
            Insn::Load {
                dst,
                base,
                offset,
                ..
            } => write!(f, " {}, {}", Name(dst), MemoryOperand(base, offset)),
            Insn::Store {
                base,
                offset,
                imm,
                ..
            } => write!(f, " {}, {imm}", MemoryOperand(base, offset)),
            Insn::StoreRegister {
                base,
                offset,
                src,
                ..
            } => write!(f, " {}, {}", MemoryOperand(base, offset), Name(src)),
            Insn::Jump { offset } => write!(f, " {}", SignedNumber(i64::from(offset))),
            Insn::Jump32 { offset } => write!(f, " {}", SignedNumber(i64::from(offset))),
            Insn::JumpIf {
                dst,
                src,
                offset,
                ..
            } => write!(f, " {}", Branch(dst, src, offset)),
            Insn::Call { helper } => write!(f, " {helper}"),
            Insn::Exit => Ok(()),
        }
    }
}

/// The line of an instruction, without a line end.
pub fn line(alloc: Global, insn: &Insn) -> Result<String, NoMemory>
    ensures { IfOk result (λ text. string_bytes text ≡ line_text insn.now) }
{
    Ok(format!(in alloc; "{}{}", Word::of(insn), Tail(*insn))?)
}

/// The lines of the instructions that the bytes spell, each with a line feed after it.
pub fn disassemble(alloc: Global, bytes: &[u8]) -> Result<String, CodecFault>
    ensures found { IfOk result (λ text. (insns : List Insn)
        × IsListing (string_bytes text) bytes.now insns) }
    ensures refused { IfErr result (λ e. IsRefusal e bytes.now) }
{
    let mut text = String::new(alloc);
    for placed in &decode(alloc, bytes)? {
        text.push_str(line(alloc, &placed.insn)?.as_str())?;
        text.push('\n')?;
    }
    Ok(text)
}
