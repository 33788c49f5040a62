//! Arithmetic and moves on abstract values.

ghost use Rattle.std.specs.Prelude.{◌≡◌, IfOk};
ghost use Rattle.value_ranges.specs.Covers.{CoversOutcomes};
ghost use Rattle.value_ranges.specs.Tables.{IsArithmetic, IsReadSet, alu_table, part_pointers, stack_pointers, move_table, number_ranges, coded_value_table, value_table};

use crate::abs::{Abs, Reach};
use crate::fault::PointerFault;
use crate::numbers::{Numbers, beside};
use crate::pointers::{positions_after, positions_onto};
use crate::rows::{cut, number_range};
use crate::signed_rows::signed_row;
use crate::unary_rows::{extension_range, negated_range, ordered_range};
use insn_codec::{AluOp, Insn, Width};

/// What is known of a pointer into the stack.
fn in_stack(p: Result<Reach, PointerFault>) -> Result<Abs, PointerFault>
    ensures { result ≡ stack_pointers p }
{
    match p {
        Ok(p) => Ok(Abs::Stack(p)),
        Err(fault) => Err(fault),
    }
}

/// What is known of a pointer into the part.
fn in_part(p: Result<Reach, PointerFault>) -> Result<Abs, PointerFault>
    ensures { result ≡ part_pointers p }
{
    match p {
        Ok(p) => Ok(Abs::Part(p)),
        Err(fault) => Err(fault),
    }
}

/// What an operator gives on numbers: of more than one it may tell the signed range too.
#[inline(always)]
fn number_ranges(width: Width, op: AluOp, a: Numbers, b: Numbers) -> Numbers
    ensures { result ≡ number_ranges width op a b }
{
    let range = number_range(op, width, a.unsigned(), b.unsigned());
    if a.unsigned().is_single() && b.unsigned().is_single() {
        return Numbers::spanned(range);
    }
    beside(range, signed_row(op, width, a, b))
}

/// What an operator gives where the second operand is a number.
#[inline(always)]
fn with_number(width: Width, op: AluOp, dst: Abs, b: Numbers) -> Result<Abs, PointerFault>
    ensures { result ≡ alu_table width op dst (Abs.Num b) }
{
    match dst {
        Abs::Num(a) => Ok(Abs::Num(number_ranges(width, op, a, b))),
        Abs::Stack(p) => in_stack(positions_after(width, op, p, b)),
        Abs::Part(p) => in_part(positions_after(width, op, p, b)),
        Abs::Unset => Err(PointerFault::NoResult),
    }
}

/// What an operator gives.
#[inline(always)]
fn binary(width: Width, op: AluOp, dst: Abs, src: Abs) -> Result<Abs, PointerFault>
    ensures { result ≡ alu_table width op dst src }
{
    match src {
        Abs::Num(b) => with_number(width, op, dst, b),
        Abs::Stack(p) => match dst {
            Abs::Num(a) => in_stack(positions_onto(width, op, a, p)),
            _ => Err(PointerFault::NoResult),
        },
        Abs::Part(p) => match dst {
            Abs::Num(a) => in_part(positions_onto(width, op, a, p)),
            _ => Err(PointerFault::NoResult),
        },
        Abs::Unset => Err(PointerFault::NoResult),
    }
}

/// What a move leaves: one of 32 bits is of numbers alone.
#[inline(always)]
fn move_value(width: Width, src: Abs) -> Result<Abs, PointerFault>
    ensures { result ≡ move_table width src }
{
    match (width, src) {
        (Width::W64, _) => Ok(src),
        (Width::W32, Abs::Num(r)) => Ok(Abs::Num(Numbers::spanned(cut(width, r.unsigned())))),
        (Width::W32, _) => Err(PointerFault::NoResult),
    }
}

/// What an arithmetic instruction or a move leaves, from what is known of its operands.
#[inline(always)]
fn by_table(insn: &Insn, dst: Abs, src: Abs) -> Result<Abs, PointerFault>
    ensures { result ≡ value_table insn.now dst src }
{
    match *insn {
        Insn::Alu { width, op, .. } => binary(width, op, dst, src),
        Insn::Mov { width, .. } => move_value(width, src),
        Insn::MovSx { extension, .. } => match src {
            Abs::Num(r) => Ok(Abs::Num(Numbers::spanned(extension_range(extension, r.unsigned())))),
            _ => Err(PointerFault::NoResult),
        },
        Insn::Neg { width, .. } => match dst {
            Abs::Num(r) => Ok(Abs::Num(Numbers::spanned(negated_range(width, r.unsigned())))),
            _ => Err(PointerFault::NoResult),
        },
        Insn::End { order, size, .. } => match dst {
            Abs::Num(r) => Ok(Abs::Num(Numbers::spanned(ordered_range(order, size, r.unsigned())))),
            _ => Err(PointerFault::NoResult),
        },
        _ => Err(PointerFault::NoResult),
    }
}

/// What an arithmetic instruction or a move leaves in its destination, from what is known of the
/// destination and of the second operand.
#[inline(always)]
#[tactic(auto, using(crate::proofs::TableLemmas::table_covers))]
pub fn compute(insn: &Insn, dst: Abs, src: Abs) -> Result<Abs, PointerFault>
    requires arithmetic { IsArithmetic insn.now }
    requires set { IsReadSet insn.now dst src }
    ensures table { result ≡ value_table insn.now dst src }
    ensures covered { IfOk result (CoversOutcomes insn.now dst src) }
{
    by_table(insn, dst, src)
}

/// What `compute` gives, with the number of its fault: 34 where there is a pointer and no result on
/// it, and 35 where a pointer may go too far.
#[inline(always)]
pub fn alu(insn: &Insn, dst: Abs, src: Abs) -> Result<Abs, u8>
    requires arithmetic { IsArithmetic insn.now }
    requires set { IsReadSet insn.now dst src }
    ensures table { result ≡ coded_value_table insn.now dst src }
    ensures covered { IfOk result (CoversOutcomes insn.now dst src) }
{
    match compute(insn, dst, src) {
        Ok(left) => Ok(left),
        Err(fault) => Err(fault.code()),
    }
}
