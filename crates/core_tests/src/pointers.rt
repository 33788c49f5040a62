//! Values that no accepted program has ahead of an instruction: pointers that are compared, and
//! ranges that have no number in common.

ghost use Rattle.std.specs.Prelude.{IsTrue};
ghost use Rattle.value_ranges.specs.Refinements.{IsConditional};
ghost use Rattle.value_ranges.specs.Tables.{IsSet};

use crate::scenarios::Findings;
use anyhow::bail;
use insn_codec::{AluOp, Condition, Insn, Operand, Register, Width};
use std::alloc::Global;
use value_ranges::{Abs, Numbers, Range, Reach, SignedRange, alu, immediate, join, refine};

const SIGNED: [Condition; 4] = [
    Condition::SignedLess,
    Condition::SignedLessEqual,
    Condition::SignedGreater,
    Condition::SignedGreaterEqual,
];

fn range(lo: u64, hi: u64) -> anyhow::Result<Range> {
    if lo > hi {
        bail!("a range without numbers");
    }
    Ok(Range::new(lo, hi))
}

fn signed(lo: i64, hi: i64) -> anyhow::Result<SignedRange> {
    if lo > hi {
        bail!("a range without numbers");
    }
    Ok(SignedRange::new(lo, hi))
}

fn pointer(lo: i32, hi: i32) -> anyhow::Result<Abs> {
    if lo > hi {
        bail!("a reach without places");
    }
    Ok(Abs::Part(Reach::new(lo, hi)))
}

fn is_set(value: &Abs) -> bool
    ensures { IsTrue result → IsSet value.now }
{
    match value {
        Abs::Unset => false,
        Abs::Num(_) => true,
        Abs::Stack(_) => true,
        Abs::Part(_) => true,
    }
}

/// An operator on two values, or the number of its fault.
fn of_two(width: Width, op: AluOp, dst: &Abs, src: &Abs) -> Option<Result<Abs, u8>> {
    if !is_set(dst) {
        return None;
    }
    if !is_set(src) {
        return None;
    }
    let insn = Insn::Alu {
        width,
        op,
        dst: Register::new(1),
        src: Operand::Reg(Register::new(3)),
    };
    Some(alu(&insn, *dst, *src))
}

/// A jump of R3 on a number.
fn jump(width: Width, condition: Condition, number: i32) -> Insn
    ensures { IsConditional result }
{
    Insn::JumpIf {
        width,
        condition,
        dst: Register::new(3),
        src: Operand::Imm(number),
        offset: 3,
    }
}

/// Neither edge of a comparison narrows a pointer.
fn compared(findings: &mut Findings) -> anyhow::Result<()> {
    let first = pointer(0, 0)?;
    let two = immediate(2);
    for condition in SIGNED {
        let insn = jump(Width::W64, condition, 2);
        let taken = refine(&insn, true, first, two);
        findings.holds(taken == (first, two), "a pointer is narrowed (1)");
        let passed = refine(&insn, false, first, two);
        findings.holds(passed == (first, two), "a pointer is narrowed (2)");
    }
    let below = Abs::Num(Numbers::spanned(range(5, 20)?));
    let insn = jump(Width::W32, Condition::Greater, 2);
    let taken = refine(&insn, true, first, below);
    findings.holds(taken == (first, below), "a pointer is narrowed (3)");
    Ok(())
}

/// Ranges of which the signed one says something else than the unsigned one.
fn apart(findings: &mut Findings) -> anyhow::Result<()> {
    let numbers = Abs::Num(Numbers::new(range(5, 6)?, signed(100, 101)?));
    findings.holds(join(numbers, numbers) == numbers, "ranges apart meet");
    let more = Abs::Num(Numbers::spanned(range(1, 2)?));
    let wanted = Abs::Num(Numbers::spanned(range(6, 8)?));
    let sum = of_two(Width::W64, AluOp::Add, &numbers, &more);
    findings.holds(sum == Some(Ok(wanted)), "ranges apart are added");
    let numbers = Abs::Num(Numbers::new(range(0, 9)?, signed(-4, 3)?));
    let two = immediate(2);
    let insn = jump(Width::W32, Condition::Equal, 2);
    let taken = refine(&insn, true, numbers, two);
    findings.holds(taken == (two, two), "ranges apart are narrowed");
    Ok(())
}

/// Goes through all of it.
pub fn go_through(_alloc: Global, findings: &mut Findings) -> anyhow::Result<()> {
    compared(findings)?;
    apart(findings)
}
