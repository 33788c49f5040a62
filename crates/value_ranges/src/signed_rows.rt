//! The rows of the operators on signed ranges. Sums are taken in 128 bits, so that a row reads as
//! it is defined.

ghost use Rattle.std.specs.Prelude.{◌≡◌, ◌+ℤ◌, ◌-ℤ◌, ◌≤ℤ◌, ◌<◌};
ghost use Rattle.value_ranges.specs.SignedRows.{fitting, signed_difference, signed_row, signed_shift, signed_sum};
ghost use Rattle.value_ranges.specs.Span.{span};

use crate::numbers::Numbers;
use crate::range::SignedRange;
use insn_codec::{AluOp, Width};
use machine_model::shift_count;

/// `a` and `b` together.
fn plus(a: i64, b: i64) -> i128
    ensures { result ≡ a +ℤ b }
{
    i128::from(a) + i128::from(b)
}

/// `a` less `b`.
fn minus(a: i64, b: i64) -> i128
    ensures { result ≡ a -ℤ b }
{
    i128::from(a) - i128::from(b)
}

/// The numbers from `lo` to `hi`, where all have 64 bits.
#[tactic(auto, using(crate::proofs::PointerLemmas::signed_values))]
fn fitting(lo: i128, hi: i128) -> Option<SignedRange>
    requires { lo ≤ℤ hi }
    ensures { result ≡ fitting (span lo hi) }
{
    if lo < i128::from(i64::MIN) || hi > i128::from(i64::MAX) {
        return None;
    }
    Some(SignedRange::new(lo as i64, hi as i64))
}

/// Sums.
#[tactic(auto, using(crate::proofs::PointerLemmas::signed_values))]
fn sum(a: SignedRange, b: SignedRange) -> Option<SignedRange>
    ensures { result ≡ fitting (signed_sum a b) }
{
    fitting(plus(a.lo(), b.lo()), plus(a.hi(), b.hi()))
}

/// Differences.
#[tactic(auto, using(crate::proofs::PointerLemmas::signed_values))]
fn difference(a: SignedRange, b: SignedRange) -> Option<SignedRange>
    ensures { result ≡ fitting (signed_difference a b) }
{
    fitting(minus(a.lo(), b.hi()), minus(a.hi(), b.lo()))
}

/// Shifts to the right that fill with the sign.
#[tactic(auto, using(crate::proofs::PointerLemmas::signed_values, crate::proofs::SignedLemmas::shr_order))]
fn shifted(a: SignedRange, shift: u64) -> SignedRange
    requires { shift < 64 }
    ensures { result ≡ signed_shift a shift }
{
    SignedRange::new(a.lo() >> shift, a.hi() >> shift)
}

/// The signed range that an operator on 64 bits has of its own.
pub fn signed_row(op: AluOp, width: Width, a: Numbers, b: Numbers) -> Option<SignedRange>
    ensures { result ≡ signed_row width op a b }
{
    match (width, op) {
        (Width::W64, AluOp::Add) => sum(a.signed(), b.signed()),
        (Width::W64, AluOp::Sub) => difference(a.signed(), b.signed()),
        (Width::W64, AluOp::Arsh) => {
            let by = b.unsigned();
            if by.is_single() {
                Some(shifted(a.signed(), shift_count(width, by.lo())))
            } else {
                None
            }
        }
        _ => None,
    }
}
