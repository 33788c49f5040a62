//! The words by which the layers above make abstract values.

ghost use Rattle.std.specs.Prelude.{◌≡◌, ◌≤◌, true};
ghost use Rattle.machine_model.specs.Operators.{residue};
ghost use Rattle.machine_model.specs.Value.{Num};
ghost use Rattle.value_ranges.specs.Covers.{Covers};
ghost use Rattle.value_ranges.specs.Tables.{IsSet, is_set};
ghost use Rattle.value_ranges.specs.Words.{CoversEntry, CoversLoads, any_number, between, entry, load_range, single_value};
ghost use Rattle.machine_model.specs.Limits.{max_part};

use crate::abs::{Abs, Reach};
use crate::numbers::Numbers;
use crate::range::Range;
use insn_codec::{LoadKind, Register};
use machine_model::MAX_PART;

impl Abs {
    /// Some number from `lo` to `hi`.
    pub fn between(lo: u64, hi: u64) -> Self
        requires { lo ≤ hi }
        ensures { result ≡ between lo hi }
    {
        Abs::Num(Numbers::spanned(Range::new(lo, hi)))
    }

    /// This one number.
    #[tactic(auto, using(crate::proofs::CoverLemmas::covers_single))]
    pub fn single(x: u64) -> Self
        ensures value { result ≡ single_value x }
        ensures covered { Covers result (Num x) }
    {
        Abs::between(x, x)
    }

    /// Whether anything is known.
    pub fn is_set(&self) -> bool
        ensures value { result ≡ is_set self.now }
        ensures set { result ≡ true → IsSet self.now }
    {
        match self {
            Abs::Unset => false,
            Abs::Num(_) | Abs::Stack(_) | Abs::Part(_) => true,
        }
    }

    /// Any number.
    pub fn any_number() -> Self
        ensures { result ≡ any_number }
    {
        Abs::between(0, u64::MAX)
    }
}

/// The number of an immediate operand.
pub fn immediate(value: i32) -> Abs
    ensures value { result ≡ single_value (residue 64 value) }
    ensures covered { Covers result (Num (residue 64 value)) }
{
    Abs::single(i64::from(value).cast_unsigned())
}

/// What a load gives.
#[tactic(auto, using(crate::proofs::WordLemmas::loaded_covers))]
pub fn loaded(kind: LoadKind) -> Abs
    ensures table { result ≡ load_range kind }
    ensures covered { CoversLoads kind result }
{
    match kind {
        LoadKind::Byte => Abs::between(0, 0xff),
        LoadKind::Half => Abs::between(0, 0xffff),
        LoadKind::Word => Abs::between(0, 0xffff_ffff),
        LoadKind::Double | LoadKind::SignedByte | LoadKind::SignedHalf | LoadKind::SignedWord =>
            Abs::any_number(),
    }
}

/// What a register holds at a task's start, in a program that needs so many bytes.
#[tactic(auto, using(crate::proofs::WordLemmas::entry_covers))]
pub fn entry(need: u32, register: Register) -> Abs
    requires { need ≤ max_part }
    ensures table { result ≡ entry need register }
    ensures covered { CoversEntry need register result }
{
    match register.number() {
        1 => Abs::Part(Reach::new(0, 0)),
        2 => Abs::between(u64::from(need), MAX_PART as u64),
        3 => Abs::any_number(),
        10 => Abs::Stack(Reach::new(512, 512)),
        _ => Abs::Unset,
    }
}
