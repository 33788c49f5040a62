//! What is known of a register.

ghost use Rattle.std.specs.Prelude.{◌≡◌, ◌≤ℤ◌};

use crate::numbers::Numbers;
use std::marker::Model;

/// The positions from `lo` to `hi`, of which there is at least one. Positions have 32 bits; they
/// are kept in 64, as a `Range`'s ends are, so that an `Abs` of any kind is copied by whole words.
#[derive(Clone, Copy, Debug, PartialEq, Eq)]
pub struct Reach {
    lo: i64,
    hi: i64,
}

impl Model for Reach {
    ghost use Rattle.std.specs.Prelude.{◌≤ℤ◌, pos, negsuc};
    ghost use Rattle.value_ranges.specs.Span.{Span};

    ghost Value = { Span };

    ghost view = { λ r. record { lo = r.lo; hi = r.hi } };

    ghost invariant = { λ r. (r.lo ≤ℤ r.hi) × (negsuc 2147483647 ≤ℤ r.lo)
        × (r.hi ≤ℤ pos 2147483647) };

    ghost inverse = { λ v. record { lo = v.lo; hi = v.hi } };
}

impl Reach {
    /// The positions from `lo` to `hi`.
    pub fn new(lo: i32, hi: i32) -> Self
        requires { lo ≤ℤ hi }
        ensures { result ≡ record { lo = lo; hi = hi } }
    {
        Reach {
            lo: i64::from(lo),
            hi: i64::from(hi),
        }
    }

    /// The least of them.
    pub fn lo(self) -> i32
        ensures value { result ≡ self.lo }
        ensures ordered { self.lo ≤ℤ self.hi }
    {
        self.lo as i32
    }

    /// The greatest of them.
    pub fn hi(self) -> i32
        ensures value { result ≡ self.hi }
        ensures ordered { self.lo ≤ℤ self.hi }
    {
        self.hi as i32
    }
}

/// What is known of a register: nothing, or that it holds a number of two ranges, or a pointer into
/// the stack or into the part at a position of a reach.
#[derive(Clone, Copy, Debug, PartialEq, Eq)]
pub enum Abs {
    Unset,
    Num(Numbers),
    Stack(Reach),
    Part(Reach),
}
