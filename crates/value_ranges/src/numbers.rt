//! Numbers of which two ranges are known, as they are and read as signed numbers.

ghost use Rattle.std.specs.Prelude.{◌≡◌, IsTrue};
ghost use Rattle.value_ranges.specs.Joins.{ranges_hull};
ghost use Rattle.value_ranges.specs.Numbers.{cut_signed, cut_unsigned, meet, nonempty, or_else, ranges, some_span, some_tidied, span_of, spanned};
ghost use Rattle.value_ranges.specs.SignedRows.{beside};
ghost use Rattle.value_ranges.specs.Words.{greatest};

use crate::range::{Range, SignedRange};
use std::marker::Model;

/// The numbers of 64 bits that lie in one range as they are, and in another read as signed numbers.
#[derive(Clone, Copy, Debug, PartialEq, Eq)]
pub struct Numbers {
    unsigned: Range,
    signed: SignedRange,
}

impl Model for Numbers {
    ghost use Rattle.value_ranges.specs.Numbers.{Ranges};

    ghost Value = { Ranges };

    ghost view = { λ n. record { unsigned = n.unsigned; signed = n.signed } };

    ghost inverse = { λ v. record { unsigned = v.unsigned; signed = v.signed } };
}

impl Numbers {
    /// The numbers of both ranges.
    pub fn new(unsigned: Range, signed: SignedRange) -> Self
        ensures { result ≡ ranges unsigned signed }
    {
        Numbers { unsigned, signed }
    }

    /// The numbers of a range.
    #[inline(always)]
    pub fn spanned(unsigned: Range) -> Self
        ensures { result ≡ spanned unsigned }
    {
        Numbers {
            unsigned,
            signed: span_of(unsigned),
        }
    }

    /// The range of the numbers as they are.
    pub fn unsigned(self) -> Range
        ensures { result ≡ self.unsigned }
    {
        self.unsigned
    }

    /// The range of their signed readings.
    pub fn signed(self) -> SignedRange
        ensures { result ≡ self.signed }
    {
        self.signed
    }

    /// The greatest of the numbers.
    pub fn greatest(self) -> u64
        ensures { result ≡ greatest self }
    {
        self.unsigned.hi()
    }
}

/// The signed readings of the numbers of a range: any of them where they have both signs.
#[inline(always)]
fn span_of(r: Range) -> SignedRange
    ensures { result ≡ span_of r }
{
    if r.hi() < 1 << 63 || r.lo() >= 1 << 63 {
        SignedRange::new(r.lo().cast_signed(), r.hi().cast_signed())
    } else {
        SignedRange::new(i64::MIN, i64::MAX)
    }
}

/// The numbers of both ranges, if there are any.
#[tactic(auto, using(crate::proofs::PointerLemmas::signed_values, std::proofs::lemmas::Int::clamps))]
pub(crate) fn meet(a: SignedRange, b: SignedRange) -> Option<SignedRange>
    ensures { result ≡ some_span (meet a b) }
{
    let lo = a.lo().max(b.lo());
    let hi = a.hi().min(b.hi());
    if lo <= hi {
        Some(SignedRange::new(lo, hi))
    } else {
        None
    }
}

/// The signed range, cut to the readings of the other one.
#[tactic(auto, using(crate::proofs::SignedLemmas::cut_some, crate::proofs::SignedLemmas::cut_none))]
fn cut_signed(n: Numbers) -> Option<Numbers>
    ensures { result ≡ nonempty (cut_signed n) }
{
    let unsigned = n.unsigned;
    let _least = unsigned.lo();
    match meet(n.signed, span_of(unsigned)) {
        Some(signed) => Some(Numbers { unsigned, signed }),
        None => None,
    }
}

/// The other range, cut to the numbers with these readings, where they have one sign.
#[tactic(auto, using(crate::proofs::PointerLemmas::signed_values))]
fn cut_unsigned(n: Numbers) -> Option<Numbers>
    ensures { result ≡ nonempty (cut_unsigned n) }
{
    let _greatest = n.unsigned.hi();
    if n.signed.lo() < 0 && n.signed.hi() >= 0 {
        return Some(n);
    }
    let lo = n.unsigned.lo().max(n.signed.lo().cast_unsigned());
    let hi = n.unsigned.hi().min(n.signed.hi().cast_unsigned());
    if lo <= hi {
        Some(Numbers {
            unsigned: Range::new(lo, hi),
            signed: n.signed,
        })
    } else {
        None
    }
}

/// Whether the signed range is all that the other one tells: then neither cuts the other.
#[inline(always)]
pub(crate) fn is_spanned(n: Numbers) -> bool
    ensures { IsTrue result → n ≡ spanned n.unsigned }
{
    let span = span_of(n.unsigned);
    n.signed.lo() == span.lo() && n.signed.hi() == span.hi()
}

/// Each range cut to what the other one tells, unless that leaves nothing.
#[inline(always)]
#[tactic(auto, using(crate::proofs::SignedLemmas::tidied_is, crate::proofs::SignedLemmas::none_first, crate::proofs::SignedLemmas::none_second, crate::proofs::SignedLemmas::spanned_is))]
pub(crate) fn tidied(n: Numbers) -> Option<Numbers>
    ensures { result ≡ some_tidied n }
{
    if is_spanned(n) {
        return Some(n);
    }
    match cut_signed(n) {
        Some(first) => match cut_unsigned(first) {
            Some(second) => cut_signed(second),
            None => None,
        },
        None => None,
    }
}

/// The numbers of a range, of which some operator tells their signed range too.
pub(crate) fn beside(unsigned: Range, signed: Option<SignedRange>) -> Numbers
    ensures { result ≡ beside unsigned signed }
{
    match signed {
        Some(signed) => match tidied(Numbers { unsigned, signed }) {
            Some(numbers) => numbers,
            None => Numbers::spanned(unsigned),
        },
        None => Numbers::spanned(unsigned),
    }
}
