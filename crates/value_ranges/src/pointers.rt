//! Pointers moved by numbers.

ghost use Rattle.std.specs.Prelude.{◌≡◌, ◌+ℤ◌, ◌-ℤ◌, ◌≤ℤ◌};
ghost use Rattle.value_ranges.specs.Tables.{moved_down, moved_up, positions, positions_after, positions_onto};

use crate::abs::Reach;
use crate::fault::PointerFault;
use crate::numbers::Numbers;
use crate::range::SignedRange;
use insn_codec::{AluOp, Width};

/// `at` and `by` together.
fn above(at: i32, by: i64) -> i128
    ensures { result ≡ at +ℤ by }
{
    i128::from(at) + i128::from(by)
}

/// `at` less `by`.
fn below(at: i32, by: i64) -> i128
    ensures { result ≡ at -ℤ by }
{
    i128::from(at) - i128::from(by)
}

/// The positions from `lo` to `hi`, where none is too far.
fn positions(lo: i128, hi: i128) -> Result<Reach, PointerFault>
    requires { lo ≤ℤ hi }
    ensures { result ≡ positions lo hi }
{
    if lo < -1_048_576 || hi > 1_048_576 {
        return Err(PointerFault::TooFar);
    }
    Ok(Reach::new(lo as i32, hi as i32))
}

/// A pointer plus a number.
#[tactic(auto, using(crate::proofs::PointerLemmas::signed_values))]
fn moved_up(p: Reach, by: SignedRange) -> Result<Reach, PointerFault>
    ensures { result ≡ moved_up p by }
{
    positions(above(p.lo(), by.lo()), above(p.hi(), by.hi()))
}

/// A pointer less a number.
#[tactic(auto, using(crate::proofs::PointerLemmas::signed_values))]
fn moved_down(p: Reach, by: SignedRange) -> Result<Reach, PointerFault>
    ensures { result ≡ moved_down p by }
{
    positions(below(p.lo(), by.hi()), below(p.hi(), by.lo()))
}

/// A pointer with a number as the second operand.
pub fn positions_after(width: Width, op: AluOp, p: Reach, n: Numbers) -> Result<Reach, PointerFault>
    ensures { result ≡ positions_after width op p n }
{
    match (width, op) {
        (Width::W64, AluOp::Add) => moved_up(p, n.signed()),
        (Width::W64, AluOp::Sub) => moved_down(p, n.signed()),
        _ => Err(PointerFault::NoResult),
    }
}

/// A number with a pointer as the second operand.
pub fn positions_onto(width: Width, op: AluOp, n: Numbers, p: Reach) -> Result<Reach, PointerFault>
    ensures { result ≡ positions_onto width op n p }
{
    match (width, op) {
        (Width::W64, AluOp::Add) => moved_up(p, n.signed()),
        _ => Err(PointerFault::NoResult),
    }
}
