//! What the definitions mean: joins of tidy numbers are hulls, so their order doesn't matter.

ghost use Rattle.std.specs.Prelude.{◌≡◌, ◌≤◌, ◌<◌, ◌^◌, Some};
ghost use Rattle.value_ranges.specs.Interval.{Interval};
ghost use Rattle.value_ranges.specs.Joins.{joined, ranges_hull};
ghost use Rattle.value_ranges.specs.Numbers.{Ranges, some_tidied, spanned};
ghost use Rattle.value_ranges.specs.Tidy.{HasWordEnds, IsTidy};
ghost use Rattle.value_ranges.specs.declared.abs.Abs.TheVariants.{Num};

/// The join of tidy numbers is the hull of both ranges, which is tidy again. So it is one, in
/// whichever order many are joined.
pub fn joins_are_hulls()
    ensures hull { (a b : Ranges) → IsTidy a → IsTidy b
        → joined (Num a) (Num b) ≡ Num (ranges_hull a b) }
    ensures tidy { (a b : Ranges) → IsTidy a → IsTidy b → IsTidy (ranges_hull a b) }
    ensures swapped { (a b : Ranges) → joined (Num a) (Num b) ≡ joined (Num b) (Num a) }
    ensures order { (a b c : Ranges) → IsTidy a → IsTidy b → IsTidy c
        → joined (joined (Num a) (Num b)) (Num c) ≡ joined (Num a) (joined (Num b) (Num c)) }
{}

/// What tidying leaves is tidy, and so are the numbers of one range alone.
pub fn tidied_is_tidy()
    ensures tidied { (n m : Ranges) → HasWordEnds n → some_tidied n ≡ Some m → IsTidy m }
    ensures spanned { (r : Interval) → r.lo ≤ r.hi → r.hi < 2 ^ 64 → IsTidy (spanned r) }
{}
