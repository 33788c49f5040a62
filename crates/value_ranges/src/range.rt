//! Ranges of numbers.

ghost use Rattle.std.specs.Prelude.{◌≡◌, ◌≤◌, ◌≤ℤ◌};
ghost use Rattle.value_ranges.specs.Interval.{full, is_single, single};
ghost use Rattle.machine_model.specs.Operators.{bits_of};

use insn_codec::Width;
use machine_model::low_bits;
use std::marker::Model;

/// The numbers from `lo` to `hi`, of which there is at least one.
#[derive(Clone, Copy, Debug, PartialEq, Eq)]
pub struct Range {
    lo: u64,
    hi: u64,
}

impl Model for Range {
    ghost use Rattle.std.specs.Prelude.{◌≤◌};
    ghost use Rattle.value_ranges.specs.Interval.{Interval};

    ghost Value = { Interval };

    ghost view = { λ r. record { lo = r.lo; hi = r.hi } };

    ghost invariant = { λ r. r.lo ≤ r.hi };

    ghost inverse = { λ v. record { lo = v.lo; hi = v.hi } };
}

impl Range {
    /// The numbers from `lo` to `hi`.
    pub fn new(lo: u64, hi: u64) -> Self
        requires { lo ≤ hi }
        ensures { result ≡ record { lo = lo; hi = hi } }
    {
        Range { lo, hi }
    }

    /// This one number.
    pub fn single(x: u64) -> Self
        ensures { result ≡ single x }
    {
        Range { lo: x, hi: x }
    }

    /// The numbers of the width.
    pub fn full(width: Width) -> Self
        ensures { result ≡ full (bits_of width) }
    {
        Range {
            lo: 0,
            hi: low_bits(width, u64::MAX),
        }
    }

    /// The least of them.
    pub fn lo(self) -> u64
        ensures value { result ≡ self.lo }
        ensures ordered { self.lo ≤ self.hi }
    {
        self.lo
    }

    /// The greatest of them.
    pub fn hi(self) -> u64
        ensures value { result ≡ self.hi }
        ensures ordered { self.lo ≤ self.hi }
    {
        self.hi
    }

    /// Whether there is one alone.
    pub fn is_single(self) -> bool
        ensures { result ≡ is_single self }
    {
        self.lo == self.hi
    }
}

/// The signed numbers from `lo` to `hi`, of which there is at least one.
#[derive(Clone, Copy, Debug, PartialEq, Eq)]
pub struct SignedRange {
    lo: i64,
    hi: i64,
}

impl Model for SignedRange {
    ghost use Rattle.std.specs.Prelude.{◌≤ℤ◌};
    ghost use Rattle.value_ranges.specs.Span.{Span};

    ghost Value = { Span };

    ghost view = { λ r. record { lo = r.lo; hi = r.hi } };

    ghost invariant = { λ r. r.lo ≤ℤ r.hi };

    ghost inverse = { λ v. record { lo = v.lo; hi = v.hi } };
}

impl SignedRange {
    /// The numbers from `lo` to `hi`.
    pub fn new(lo: i64, hi: i64) -> Self
        requires { lo ≤ℤ hi }
        ensures { result ≡ record { lo = lo; hi = hi } }
    {
        SignedRange { lo, hi }
    }

    /// The least of them.
    pub fn lo(self) -> i64
        ensures value { result ≡ self.lo }
        ensures ordered { self.lo ≤ℤ self.hi }
    {
        self.lo
    }

    /// The greatest of them.
    pub fn hi(self) -> i64
        ensures value { result ≡ self.hi }
        ensures ordered { self.lo ≤ℤ self.hi }
    {
        self.hi
    }
}
