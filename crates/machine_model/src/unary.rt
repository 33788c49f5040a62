//! The operations with one operand, exactly: sign extension, negation and byte order (RFC 9669,
//! sections 4.1 and 4.2).

ghost use Rattle.std.specs.Prelude.{◌≡◌, ◌-◌, ◌%◌, ◌^◌, ◌<◌};
ghost use Rattle.machine_model.specs.Operators.{bits_of, signed};
ghost use Rattle.machine_model.specs.Outcomes.{bits_from, end_bits, extended_by, negated, ordered_by, width_to};

use crate::operators::{low_bits, residue};
use insn_codec::{ByteOrder, EndSize, SignExtension, Width};

/// The width that a sign extension works on.
#[inline]
pub fn extension_width(extension: SignExtension) -> Width
    ensures { result ≡ width_to extension }
{
    match extension {
        SignExtension::From8To32 | SignExtension::From16To32 => Width::W32,
        SignExtension::From8To64 | SignExtension::From16To64 | SignExtension::From32To64 =>
            Width::W64,
    }
}

/// The low bits of `x`, read as a signed number.
#[inline]
fn read_signed(extension: SignExtension, x: u64) -> i64
    ensures { result ≡ signed (bits_from extension) (x % 2 ^ bits_from extension) }
{
    match extension {
        SignExtension::From8To32 | SignExtension::From8To64 => {
            i64::from(((x & 0xff) as u8).cast_signed())
        }
        SignExtension::From16To32 | SignExtension::From16To64 => {
            i64::from(((x & 0xffff) as u16).cast_signed())
        }
        SignExtension::From32To64 => i64::from(((x & 0xffff_ffff) as u32).cast_signed()),
    }
}

/// The low bits of `x`, sign-extended.
#[inline]
#[tactic(auto, using(crate::proofs::OperatorLemmas::extended_by_low, crate::proofs::OperatorLemmas::signed_values))]
pub fn sign_extend(extension: SignExtension, x: u64) -> u64
    ensures { result ≡ extended_by extension x }
{
    residue(extension_width(extension), read_signed(extension, x))
}

/// Zero less `x`.
#[inline]
pub fn negate(width: Width, x: u64) -> u64
    ensures { result ≡ negated width x }
{
    low_bits(width, 0u64.wrapping_sub(x))
}

/// The low bits of `x`, as many as a byte swap keeps.
#[inline]
pub fn low_end(size: EndSize, x: u64) -> u64
    ensures { result ≡ x % 2 ^ end_bits size }
{
    match size {
        EndSize::Bits16 => x & 0xffff,
        EndSize::Bits32 => x & 0xffff_ffff,
        EndSize::Bits64 => x,
    }
}

/// The low bits of `x`, in this order of bytes.
#[inline]
pub fn reorder_bytes(order: ByteOrder, size: EndSize, x: u64) -> u64
    ensures { result ≡ ordered_by order size x }
{
    match (order, size) {
        (ByteOrder::Little, _) => low_end(size, x),
        (_, EndSize::Bits16) => u64::from((low_end(size, x) as u16).swap_bytes()),
        (_, EndSize::Bits32) => u64::from((low_end(size, x) as u32).swap_bytes()),
        (_, EndSize::Bits64) => x.swap_bytes(),
    }
}
