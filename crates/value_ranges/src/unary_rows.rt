//! The rows of the operations with one operand.

ghost use Rattle.std.specs.Prelude.{◌≡◌, ◌-◌, ◌^◌};
ghost use Rattle.machine_model.specs.Outcomes.{bits_from, end_bits};
ghost use Rattle.value_ranges.specs.Tables.{extension_range, negated_range, ordered_range};

use crate::range::Range;
use crate::rows::cut;
use insn_codec::{ByteOrder, EndSize, SignExtension, Width};
use machine_model::{extension_width, negate, reorder_bytes, sign_extend};

/// The first number whose low bits read as a negative number.
fn sign(extension: SignExtension) -> u64
    ensures { result ≡ 2 ^ (bits_from extension - 1) }
{
    match extension {
        SignExtension::From8To32 | SignExtension::From8To64 => 0x80,
        SignExtension::From16To32 | SignExtension::From16To64 => 0x8000,
        SignExtension::From32To64 => 0x8000_0000,
    }
}

/// The numbers that a sign extension can give.
pub fn extension_range(extension: SignExtension, r: Range) -> Range
    ensures { result ≡ extension_range extension r }
{
    let width = extension_width(extension);
    let r = cut(width, r);
    if r.is_single() {
        Range::single(sign_extend(extension, r.lo()))
    } else if r.hi() < sign(extension) {
        r
    } else {
        Range::full(width)
    }
}

/// The numbers that a negation can give.
pub fn negated_range(width: Width, r: Range) -> Range
    ensures { result ≡ negated_range width r }
{
    if r.is_single() {
        Range::single(negate(width, r.lo()))
    } else {
        Range::full(width)
    }
}

/// The greatest number that a byte swap can give.
fn mask(size: EndSize) -> u64
    ensures { result ≡ 2 ^ end_bits size - 1 }
{
    match size {
        EndSize::Bits16 => 0xffff,
        EndSize::Bits32 => 0xffff_ffff,
        EndSize::Bits64 => u64::MAX,
    }
}

/// The numbers that a byte swap can give.
pub fn ordered_range(order: ByteOrder, size: EndSize, r: Range) -> Range
    ensures { result ≡ ordered_range order size r }
{
    if r.is_single() {
        Range::single(reorder_bytes(order, size, r.lo()))
    } else if matches!(order, ByteOrder::Little) && r.hi() <= mask(size) {
        r
    } else {
        Range::new(0, mask(size))
    }
}
