//! What is known where two ways meet.

ghost use Rattle.std.specs.Prelude.{◌≡◌, IsTrue};
ghost use Rattle.value_ranges.specs.Covers.{CoversBoth};
ghost use Rattle.value_ranges.specs.Numbers.{or_else, some_tidied};
ghost use Rattle.value_ranges.specs.Joins.{hull, joined, ranges_hull, span_hull};

use crate::abs::{Abs, Reach};
use crate::numbers::{Numbers, is_spanned, tidied};
use crate::range::{Range, SignedRange};

/// The least range with both.
fn hull(a: Range, b: Range) -> Range
    ensures { result ≡ hull a b }
{
    Range::new(a.lo().min(b.lo()), a.hi().max(b.hi()))
}

/// The least reach with both.
#[tactic(auto, using(crate::proofs::PointerLemmas::signed_values, std::proofs::lemmas::Int::clamps))]
fn span_hull(p: Reach, q: Reach) -> Reach
    ensures { result ≡ span_hull p q }
{
    Reach::new(p.lo().min(q.lo()), p.hi().max(q.hi()))
}

/// The least signed range with both.
#[tactic(auto, using(crate::proofs::PointerLemmas::signed_values, std::proofs::lemmas::Int::clamps))]
fn signed_hull(p: SignedRange, q: SignedRange) -> SignedRange
    ensures { result ≡ span_hull p q }
{
    SignedRange::new(p.lo().min(q.lo()), p.hi().max(q.hi()))
}

/// The least two ranges with both.
fn ranges_hull(a: Numbers, b: Numbers) -> Numbers
    ensures { result ≡ ranges_hull a b }
{
    Numbers::new(
        hull(a.unsigned(), b.unsigned()),
        signed_hull(a.signed(), b.signed()),
    )
}

/// The same, tidied unless that leaves nothing.
fn numbers_joined(a: Numbers, b: Numbers) -> Numbers
    ensures { result ≡ or_else (ranges_hull a b) (some_tidied (ranges_hull a b)) }
{
    let hull = ranges_hull(a, b);
    match tidied(hull) {
        Some(numbers) => numbers,
        None => hull,
    }
}

/// Whether two ranges are the same.
fn is_same_range(a: Range, b: Range) -> bool
    ensures { IsTrue result → a ≡ b }
{
    a.lo() == b.lo() && a.hi() == b.hi()
}

/// Whether two signed ranges are the same.
fn is_same_span(p: SignedRange, q: SignedRange) -> bool
    ensures { IsTrue result → p ≡ q }
{
    p.lo() == q.lo() && p.hi() == q.hi()
}

/// Whether two reaches are the same.
fn is_same_reach(p: Reach, q: Reach) -> bool
    ensures { IsTrue result → p ≡ q }
{
    p.lo() == q.lo() && p.hi() == q.hi()
}

/// Whether numbers are the same.
fn are_same(a: Numbers, b: Numbers) -> bool
    ensures { IsTrue result → a ≡ b }
{
    is_same_range(a.unsigned(), b.unsigned()) && is_same_span(a.signed(), b.signed())
}

/// Whether numbers are the same and each range tells the other: then a join leaves them so.
#[inline(always)]
#[tactic(auto, using(crate::proofs::StayLemmas::ranges_stay))]
fn numbers_stay(a: Numbers, b: Numbers) -> bool
    ensures { IsTrue result → or_else (ranges_hull a b) (some_tidied (ranges_hull a b)) ≡ a }
{
    let unsigned = a.unsigned();
    let _least = unsigned.lo();
    if !are_same(a, b) {
        return false;
    }
    is_spanned(a)
}

/// Whether a join with the other leaves the one as it is. No register that isn't set needs a look
/// at the other.
#[inline(always)]
#[tactic(auto, using(crate::proofs::StayLemmas::spans_stay))]
fn stays(a: &Abs, b: &Abs) -> bool
    ensures { IsTrue result → joined a.now b.now ≡ a.now }
{
    match a {
        Abs::Num(r) => match b {
            Abs::Num(s) => numbers_stay(*r, *s),
            _ => false,
        },
        Abs::Stack(p) => match b {
            Abs::Stack(q) => is_same_reach(*p, *q),
            _ => false,
        },
        Abs::Part(p) => match b {
            Abs::Part(q) => is_same_reach(*p, *q),
            _ => false,
        },
        Abs::Unset => true,
    }
}

fn joined(a: Abs, b: Abs) -> Abs
    ensures { result ≡ joined a b }
{
    match a {
        Abs::Num(r) => match b {
            Abs::Num(s) => Abs::Num(numbers_joined(r, s)),
            _ => Abs::Unset,
        },
        Abs::Stack(p) => match b {
            Abs::Stack(q) => Abs::Stack(span_hull(p, q)),
            _ => Abs::Unset,
        },
        Abs::Part(p) => match b {
            Abs::Part(q) => Abs::Part(span_hull(p, q)),
            _ => Abs::Unset,
        },
        Abs::Unset => Abs::Unset,
    }
}

/// What is known where two ways meet: the least lower end and the greatest upper end of one kind,
/// and nothing of two kinds.
pub fn join(a: Abs, b: Abs) -> Abs
    ensures table { result ≡ joined a b }
    ensures covered { CoversBoth a b result }
{
    joined(a, b)
}

/// What is known at a place where another way meets the one there: what `join` gives. Most of what
/// two ways know is the same, and is left in its place.
#[inline(always)]
pub fn join_into(place: &mut Abs, other: &Abs)
    ensures table { place.new ≡ joined place.old other.now }
    ensures covered { CoversBoth place.old other.now place.new }
{
    if stays(place, other) {
        return;
    }
    *place = joined(*place, *other);
}
