//! The rows of the operators: which numbers they can give on numbers of two ranges. Sums and
//! products are taken in 128 bits, so that a row reads as it is defined.

ghost use Rattle.std.specs.Prelude.{◌≡◌, ◌<◌, ◌^◌};
ghost use Rattle.machine_model.specs.Operators.{bits_of};
ghost use Rattle.value_ranges.specs.Tables.{number_range};
ghost use Rattle.value_ranges.specs.Ranges.{row_range, cut, ones, IsLeastMask, sum_range, difference_range, product_range, quotient_range, remainder_range, shifted_left_range, shifted_right_range};

use crate::range::Range;
use insn_codec::{AluOp, Width};
use machine_model::{apply_alu, bits, low_bits, shift_count};

/// The first number above those of the width.
fn modulus(width: Width) -> u128
    ensures { result ≡ 2 ^ bits_of width }
{
    1 << bits(width)
}

/// The low bits of the numbers.
pub fn cut(width: Width, r: Range) -> Range
    ensures value { result ≡ cut (bits_of width) r }
    ensures fits { result.hi < 2 ^ bits_of width }
{
    if r.is_single() {
        Range::single(low_bits(width, r.lo()))
    } else if u128::from(r.hi()) < modulus(width) {
        r
    } else {
        Range::full(width)
    }
}

/// The least number of the form 2^k - 1 that is `x` or more.
#[tactic(auto, using(crate::proofs::BitRows::max_shr, crate::proofs::BitRows::leading_most))]
fn mask_over(x: u64) -> u64
    ensures { result ≡ ones x }
{
    match u64::MAX.checked_shr(x.leading_zeros()) {
        Some(mask) => mask,
        None => 0,
    }
}

/// The least number of the form 2^k - 1 that is `x` or more.
#[tactic(auto, using(crate::proofs::BitRows::is_least_mask))]
fn ones(x: u64) -> u64
    ensures value { result ≡ ones x }
    ensures least { IsLeastMask x result }
{
    mask_over(x)
}

/// Sums.
fn sum(width: Width, a: Range, b: Range) -> Range
    requires a_fits { a.hi < 2 ^ bits_of width }
    requires b_fits { b.hi < 2 ^ bits_of width }
    ensures { result ≡ sum_range (bits_of width) a b }
{
    let modulus = modulus(width);
    let lo = u128::from(a.lo()) + u128::from(b.lo());
    let hi = u128::from(a.hi()) + u128::from(b.hi());
    if hi < modulus {
        Range::new(lo as u64, hi as u64)
    } else if lo >= modulus {
        Range::new((lo - modulus) as u64, (hi - modulus) as u64)
    } else {
        Range::full(width)
    }
}

/// Differences.
fn difference(width: Width, a: Range, b: Range) -> Range
    requires a_fits { a.hi < 2 ^ bits_of width }
    requires b_fits { b.hi < 2 ^ bits_of width }
    ensures { result ≡ difference_range (bits_of width) a b }
{
    if a.lo() >= b.hi() {
        Range::new(a.lo() - b.hi(), a.hi() - b.lo())
    } else if a.hi() < b.lo() {
        let lo = u128::from(a.lo()) + modulus(width) - u128::from(b.hi());
        let hi = u128::from(a.hi()) + modulus(width) - u128::from(b.lo());
        Range::new(lo as u64, hi as u64)
    } else {
        Range::full(width)
    }
}

/// Products.
fn product(width: Width, a: Range, b: Range) -> Range
    ensures { result ≡ product_range (bits_of width) a b }
{
    let lo = u128::from(a.lo()) * u128::from(b.lo());
    let hi = u128::from(a.hi()) * u128::from(b.hi());
    if hi < modulus(width) {
        Range::new(lo as u64, hi as u64)
    } else {
        Range::full(width)
    }
}

/// Quotients.
fn quotient(a: Range, b: Range) -> Range
    ensures { result ≡ quotient_range a b }
{
    if b.lo() >= 1 {
        Range::new(a.lo() / b.hi(), a.hi() / b.lo())
    } else {
        Range::new(0, a.hi())
    }
}

/// Remainders.
fn remainder(a: Range, b: Range) -> Range
    ensures { result ≡ remainder_range a b }
{
    if b.lo() >= 1 {
        Range::new(0, a.hi().min(b.hi() - 1))
    } else {
        Range::new(0, a.hi())
    }
}

/// Shifts to the left.
#[tactic(auto, using(crate::proofs::RowLemmas::shifted_wide, crate::proofs::RowLemmas::shifted_order))]
fn shifted_left(width: Width, a: Range, b: Range) -> Range
    ensures { result ≡ shifted_left_range (bits_of width) a b }
{
    let shift = shift_count(width, b.lo());
    let lo = u128::from(a.lo()) << shift;
    let hi = u128::from(a.hi()) << shift;
    if b.is_single() && hi < modulus(width) {
        Range::new(lo as u64, hi as u64)
    } else {
        Range::full(width)
    }
}

/// Shifts to the right that fill with zeros.
fn shifted_right(width: Width, a: Range, b: Range) -> Range
    ensures { result ≡ shifted_right_range (bits_of width) a b }
{
    if b.is_single() {
        let shift = shift_count(width, b.lo());
        Range::new(a.lo() >> shift, a.hi() >> shift)
    } else {
        Range::new(0, a.hi())
    }
}

/// What the operator gives where an operand is no single value.
fn row(op: AluOp, width: Width, a: Range, b: Range) -> Range
    requires a_fits { a.hi < 2 ^ bits_of width }
    requires b_fits { b.hi < 2 ^ bits_of width }
    ensures { result ≡ row_range op (bits_of width) a b }
{
    match op {
        AluOp::Add => sum(width, a, b),
        AluOp::Sub => difference(width, a, b),
        AluOp::Mul => product(width, a, b),
        AluOp::Div => quotient(a, b),
        AluOp::Mod => remainder(a, b),
        AluOp::And => Range::new(0, a.hi().min(b.hi())),
        AluOp::Or => Range::new(a.lo().max(b.lo()), ones(a.hi().max(b.hi()))),
        AluOp::Xor => Range::new(0, ones(a.hi().max(b.hi()))),
        AluOp::Lsh => shifted_left(width, a, b),
        AluOp::Rsh => shifted_right(width, a, b),
        AluOp::Arsh if u128::from(a.hi()) < modulus(width) / 2 => { shifted_right(width, a, b) }
        AluOp::Arsh | AluOp::Sdiv | AluOp::Smod => { Range::full(width) }
    }
}

/// The numbers that the operator can give on numbers of two ranges.
#[inline(always)]
pub fn number_range(op: AluOp, width: Width, a: Range, b: Range) -> Range
    ensures { result ≡ number_range width op a b }
{
    let a = cut(width, a);
    let b = cut(width, b);
    if a.is_single() && b.is_single() {
        Range::single(apply_alu(op, width, a.lo(), b.lo()))
    } else {
        row(op, width, a, b)
    }
}
