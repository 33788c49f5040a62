//! What is known of a conditional jump's operands on each of its edges.

ghost use Rattle.std.specs.Prelude.{pos, ◌≡◌, ◌+ℤ◌, ◌-ℤ◌};
ghost use Rattle.value_ranges.specs.Interval.{interval};
ghost use Rattle.value_ranges.specs.Numbers.{some_span};
ghost use Rattle.value_ranges.specs.Refinements.{CoversEdge, IsConditional, compared, is_other, is_register_operand, is_whole, narrowed_pair, refined_by, refined_pair, refined_ranges, relation_of, at_least, at_most, both, signed_narrowed, signed_pair, signed_relation_of, tidied_both, unless_empty, with_signed, with_unsigned, without};

use crate::abs::Abs;
use crate::numbers::{Numbers, meet, tidied};
use crate::range::{Range, SignedRange};
use crate::rows::cut;
use insn_codec::{Condition, Insn, Operand, Register, Width};

/// How the first operand stands to the second.
#[derive(Clone, Copy, Debug, PartialEq, Eq)]
pub enum Relation {
    Same,
    Differs,
    Above,
    AtLeast,
    Below,
    AtMost,
}

/// How they stand where the jump is taken, or where it isn't.
fn relation_of(condition: Condition, taken: bool) -> Option<Relation>
    ensures { result ≡ relation_of condition taken }
{
    match (condition, taken) {
        (Condition::Equal, true) | (Condition::NotEqual, false) => Some(Relation::Same),
        (Condition::Equal, false) | (Condition::NotEqual, true) => Some(Relation::Differs),
        (Condition::Greater, true) | (Condition::LessEqual, false) => Some(Relation::Above),
        (Condition::Greater, false) | (Condition::LessEqual, true) => Some(Relation::AtMost),
        (Condition::GreaterEqual, true) | (Condition::Less, false) => Some(Relation::AtLeast),
        (Condition::GreaterEqual, false) | (Condition::Less, true) => Some(Relation::Below),
        _ => None,
    }
}

/// How their signed readings stand: the jump compares 64 bits.
fn signed_relation_of(width: Width, condition: Condition, taken: bool) -> Option<Relation>
    ensures { result ≡ signed_relation_of width condition taken }
{
    match (width, condition, taken) {
        (Width::W64, Condition::SignedGreater, true)
        | (Width::W64, Condition::SignedLessEqual, false) => { Some(Relation::Above) }
        (Width::W64, Condition::SignedGreater, false)
        | (Width::W64, Condition::SignedLessEqual, true) => { Some(Relation::AtMost) }
        (Width::W64, Condition::SignedGreaterEqual, true)
        | (Width::W64, Condition::SignedLess, false) => { Some(Relation::AtLeast) }
        (Width::W64, Condition::SignedGreaterEqual, false)
        | (Width::W64, Condition::SignedLess, true) => { Some(Relation::Below) }
        _ => None,
    }
}

/// Two ranges, unless one of them is empty.
fn pair(a: (u128, u64), b: (u128, u64)) -> Option<(Range, Range)>
    ensures { result ≡ unless_empty (interval a.0 a.1, interval b.0 b.1) }
{
    if a.0 <= u128::from(a.1) && b.0 <= u128::from(b.1) {
        Some((Range::new(a.0 as u64, a.1), Range::new(b.0 as u64, b.1)))
    } else {
        None
    }
}

/// The range without this number, where that is an end of it.
fn without(a: Range, number: u64) -> (u128, u64)
    ensures { interval result.0 result.1 ≡ without a number }
{
    let lo = u128::from(a.lo());
    if a.lo() == number {
        (lo + 1, a.hi())
    } else if a.hi() == number {
        (lo, a.hi().saturating_sub(1))
    } else {
        (lo, a.hi())
    }
}

/// The numbers of two ranges that stand so, unless there are none, or the relation tells nothing of
/// them. A lower end may be one above the greatest `u64`.
#[inline(always)]
fn narrowed(relation: Relation, a: Range, b: Range) -> Option<(Range, Range)>
    ensures { result ≡ narrowed_pair relation a b }
{
    let a_lo = u128::from(a.lo());
    let b_lo = u128::from(b.lo());
    match relation {
        Relation::Same => {
            let both = (a_lo.max(b_lo), a.hi().min(b.hi()));
            pair(both, both)
        }
        Relation::Differs => {
            if !b.is_single() {
                return None;
            }
            pair(without(a, b.lo()), (b_lo, b.hi()))
        }
        Relation::Above => pair(
            (a_lo.max(b_lo + 1), a.hi()),
            (b_lo, b.hi().min(a.hi().saturating_sub(1))),
        ),
        Relation::AtLeast => pair((a_lo.max(b_lo), a.hi()), (b_lo, b.hi().min(a.hi()))),
        Relation::Below => pair(
            (a_lo, a.hi().min(b.hi().saturating_sub(1))),
            (b_lo.max(a_lo + 1), b.hi()),
        ),
        Relation::AtMost => pair((a_lo, a.hi().min(b.hi())), (b_lo.max(a_lo), b.hi())),
    }
}

/// The numbers of a signed range from `x` on, if there are any.
#[tactic(auto, using(crate::proofs::PointerLemmas::signed_values, std::proofs::lemmas::Int::clamps))]
fn at_least(r: SignedRange, x: i64) -> Option<SignedRange>
    ensures { result ≡ some_span (at_least r x) }
{
    let lo = r.lo().max(x);
    if lo <= r.hi() {
        Some(SignedRange::new(lo, r.hi()))
    } else {
        None
    }
}

/// Those up to `x`.
#[tactic(auto, using(crate::proofs::PointerLemmas::signed_values, std::proofs::lemmas::Int::clamps))]
fn at_most(r: SignedRange, x: i64) -> Option<SignedRange>
    ensures { result ≡ some_span (at_most r x) }
{
    let hi = r.hi().min(x);
    if r.lo() <= hi {
        Some(SignedRange::new(r.lo(), hi))
    } else {
        None
    }
}

/// Those over `x`.
#[tactic(auto, using(crate::proofs::PointerLemmas::signed_values, std::proofs::lemmas::Int::clamps))]
fn above(r: SignedRange, x: i64) -> Option<SignedRange>
    ensures { result ≡ some_span (at_least r (x +ℤ pos 1)) }
{
    if x == i64::MAX {
        let _greatest = r.hi();
        return None;
    }
    at_least(r, x + 1)
}

/// Those under `x`.
#[tactic(auto, using(crate::proofs::PointerLemmas::signed_values, std::proofs::lemmas::Int::clamps))]
fn below(r: SignedRange, x: i64) -> Option<SignedRange>
    ensures { result ≡ some_span (at_most r (x -ℤ pos 1)) }
{
    if x == i64::MIN {
        let _least = r.lo();
        return None;
    }
    at_most(r, x - 1)
}

/// Two ranges, if there are both.
fn both(a: Option<SignedRange>, b: Option<SignedRange>) -> Option<(SignedRange, SignedRange)>
    ensures { result ≡ both a b }
{
    match a {
        Some(a) => match b {
            Some(b) => Some((a, b)),
            None => None,
        },
        None => None,
    }
}

/// The signed numbers of two ranges that stand so, unless there are none.
#[tactic(auto, using(crate::proofs::PointerLemmas::signed_values))]
fn signed_narrowed(
    relation: Relation,
    a: SignedRange,
    b: SignedRange,
) -> Option<(SignedRange, SignedRange)>
    ensures { result ≡ signed_pair (signed_narrowed relation a b) }
{
    match relation {
        Relation::Same => both(meet(a, b), meet(a, b)),
        Relation::Differs => Some((a, b)),
        Relation::Above => both(above(a, b.lo()), below(b, a.hi())),
        Relation::AtLeast => both(at_least(a, b.lo()), at_most(b, a.hi())),
        Relation::Below => both(below(a, b.hi()), above(b, a.lo())),
        Relation::AtMost => both(at_most(a, b.hi()), at_least(b, a.lo())),
    }
}

/// Both tidied, unless one of them is left with nothing.
fn tidied_both(a: Numbers, b: Numbers) -> Option<(Numbers, Numbers)>
    ensures { result ≡ tidied_both a b }
{
    match tidied(a) {
        Some(a) => match tidied(b) {
            Some(b) => Some((a, b)),
            None => None,
        },
        None => None,
    }
}

/// What two numbers are where they stand so.
fn with_unsigned(relation: Relation, a: Numbers, b: Numbers) -> Option<(Numbers, Numbers)>
    ensures { result ≡ with_unsigned a b (narrowed_pair relation a.unsigned b.unsigned) }
{
    match narrowed(relation, a.unsigned(), b.unsigned()) {
        Some((r, s)) => tidied_both(Numbers::new(r, a.signed()), Numbers::new(s, b.signed())),
        None => None,
    }
}

/// What they are where their signed readings stand so.
fn with_signed(relation: Relation, a: Numbers, b: Numbers) -> Option<(Numbers, Numbers)>
    ensures { result ≡ with_signed a b (signed_pair (signed_narrowed relation a.signed b.signed)) }
{
    match signed_narrowed(relation, a.signed(), b.signed()) {
        Some((r, s)) => tidied_both(Numbers::new(a.unsigned(), r), Numbers::new(b.unsigned(), s)),
        None => None,
    }
}

#[inline(always)]
fn refined_ranges(
    relation: Option<Relation>,
    signed: Option<Relation>,
    a: Numbers,
    b: Numbers,
) -> Option<(Numbers, Numbers)>
    ensures { result ≡ refined_ranges relation signed a b }
{
    match relation {
        Some(relation) => with_unsigned(relation, a, b),
        None => match signed {
            Some(relation) => with_signed(relation, a, b),
            None => None,
        },
    }
}

fn is_register(operand: &Operand) -> bool
    ensures { result ≡ is_register_operand operand.now }
{
    match operand {
        Operand::Reg(_) => true,
        Operand::Imm(_) => false,
    }
}

/// Whether the second operand isn't the register of the first.
fn is_other(dst: Register, operand: &Operand) -> bool
    ensures { result ≡ is_other dst operand.now }
{
    match operand {
        Operand::Reg(src) => dst != *src,
        Operand::Imm(_) => true,
    }
}

/// What the jump compares the first operand with: an immediate is one number of the width.
fn compared(src: &Operand, width: Width, b: Numbers) -> Numbers
    ensures { result ≡ compared src.now width b }
{
    match src {
        Operand::Reg(_) => b,
        Operand::Imm(_) => Numbers::spanned(cut(width, b.unsigned())),
    }
}

/// Whether the jump compares the numbers as they are, and not their low bits.
fn is_whole(width: Width, a: Numbers, b: Numbers) -> bool
    ensures { result ≡ is_whole width a b }
{
    match width {
        Width::W64 => true,
        Width::W32 => a.greatest() < 1 << 32 && b.greatest() < 1 << 32,
    }
}

/// The new ranges, if there are any; an immediate keeps its own.
fn refined_pair(
    from_register: bool,
    a: Numbers,
    b: Numbers,
    new: Option<(Numbers, Numbers)>,
) -> (Abs, Abs)
    ensures { result ≡ refined_pair from_register a b new }
{
    match new {
        Some((a, refined)) => {
            let b = if from_register { refined } else { b };
            (Abs::Num(a), Abs::Num(b))
        }
        None => (Abs::Num(a), Abs::Num(b)),
    }
}

#[inline(always)]
fn jump_refined(insn: &Insn, taken: bool, a: Numbers, b: Numbers) -> (Abs, Abs)
    ensures { result ≡ refined_by insn.now taken (Abs.Num a) (Abs.Num b) }
{
    match insn {
        Insn::JumpIf {
            width,
            condition,
            dst,
            src,
            ..
        } => {
            let other = compared(src, *width, b);
            if is_other(*dst, src) && is_whole(*width, a, other) {
                let signed = signed_relation_of(*width, *condition, taken);
                let ranges = refined_ranges(relation_of(*condition, taken), signed, a, other);
                refined_pair(is_register(src), a, b, ranges)
            } else {
                (Abs::Num(a), Abs::Num(b))
            }
        }
        _ => (Abs::Num(a), Abs::Num(b)),
    }
}

#[inline(always)]
fn refined_by(insn: &Insn, taken: bool, dst: Abs, src: Abs) -> (Abs, Abs)
    ensures { result ≡ refined_by insn.now taken dst src }
{
    match dst {
        Abs::Num(a) => match src {
            Abs::Num(b) => jump_refined(insn, taken, a, b),
            src => (Abs::Num(a), src),
        },
        dst => (dst, src),
    }
}

/// What is known of the two operands of a conditional jump on one of its edges.
#[inline(always)]
pub fn refine(insn: &Insn, taken: bool, dst: Abs, src: Abs) -> (Abs, Abs)
    requires { IsConditional insn.now }
    ensures table { result ≡ refined_by insn.now taken dst src }
    ensures covered { CoversEdge insn.now taken dst src result }
{
    refined_by(insn, taken, dst, src)
}
