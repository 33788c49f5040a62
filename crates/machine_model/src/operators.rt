//! The operators with two operands and the conditions of jumps, exactly (RFC 9669, sections 4.1 and
//! 4.3).

ghost use Rattle.std.specs.Prelude.{◌≡◌, ◌%◌, ◌^◌, ◌<◌};
ghost use Rattle.machine_model.specs.Operators.{bits_of, holds, residue, result_of, signed};
ghost use Rattle.machine_model.specs.Outcomes.{number_result};

use insn_codec::{AluOp, Condition, Width};

/// How many bits.
#[inline]
pub fn bits(width: Width) -> u32
    ensures { result ≡ bits_of width }
{
    match width {
        Width::W32 => 32,
        Width::W64 => 64,
    }
}

/// The low bits of `x`.
#[inline]
pub fn low_bits(width: Width, x: u64) -> u64
    ensures { result ≡ x % 2 ^ bits_of width }
{
    match width {
        Width::W32 => x & 0xffff_ffff,
        Width::W64 => x,
    }
}

/// The bits of `x` read as a signed number.
#[inline]
pub fn signed(width: Width, x: u64) -> i64
    requires { x < 2 ^ bits_of width }
    ensures { result ≡ signed (bits_of width) x }
{
    match width {
        Width::W32 => i64::from((x as u32).cast_signed()),
        Width::W64 => x.cast_signed(),
    }
}

/// What is left of `z` in these bits.
#[inline]
pub fn residue(width: Width, z: i64) -> u64
    ensures { result ≡ residue (bits_of width) z }
{
    low_bits(width, z.cast_unsigned())
}

/// By how many bits a shift by `x` shifts.
#[inline]
pub fn shift_count(width: Width, x: u64) -> u64
    ensures { result ≡ x % bits_of width }
{
    match width {
        Width::W32 => x & 31,
        Width::W64 => x & 63,
    }
}

/// What the operator gives on two numbers of the width.
#[inline]
pub fn apply_alu(op: AluOp, width: Width, a: u64, b: u64) -> u64
    requires a_fits { a < 2 ^ bits_of width }
    requires b_fits { b < 2 ^ bits_of width }
    ensures { result ≡ result_of op (bits_of width) a b }
{
    match op {
        AluOp::Add => low_bits(width, a.wrapping_add(b)),
        AluOp::Sub => low_bits(width, a.wrapping_sub(b)),
        AluOp::Mul => low_bits(width, a.wrapping_mul(b)),
        AluOp::Div => a.checked_div(b).unwrap_or(0),
        AluOp::Sdiv if b == 0 => 0,
        AluOp::Sdiv => residue(width, signed(width, a).wrapping_div(signed(width, b))),
        AluOp::Or => a | b,
        AluOp::And => a & b,
        AluOp::Lsh => low_bits(width, a << shift_count(width, b)),
        AluOp::Rsh => a >> shift_count(width, b),
        AluOp::Mod => a.checked_rem(b).unwrap_or(a),
        AluOp::Smod if b == 0 => a,
        AluOp::Smod => residue(width, signed(width, a).wrapping_rem(signed(width, b))),
        AluOp::Xor => a ^ b,
        AluOp::Arsh => residue(width, signed(width, a) >> shift_count(width, b)),
    }
}

/// What an instruction with this operator gives on two registers' numbers. The width is told apart
/// first, so that the compiler can lay out each width's operators without a test of it.
#[inline(always)]
pub fn alu_number(op: AluOp, width: Width, x: u64, y: u64) -> u64
    ensures { result ≡ number_result width op x y }
{
    match width {
        Width::W32 => {
            let a = low_bits(Width::W32, x);
            let b = low_bits(Width::W32, y);
            apply_alu(op, Width::W32, a, b)
        }
        Width::W64 => apply_alu(op, Width::W64, x, y),
    }
}

/// Whether the condition holds of two numbers of the width.
#[inline]
pub fn holds(condition: Condition, width: Width, a: u64, b: u64) -> bool
    requires a_fits { a < 2 ^ bits_of width }
    requires b_fits { b < 2 ^ bits_of width }
    ensures { result ≡ holds condition (bits_of width) a b }
{
    match condition {
        Condition::Equal => a == b,
        Condition::NotEqual => a != b,
        Condition::Greater => a > b,
        Condition::GreaterEqual => a >= b,
        Condition::Less => a < b,
        Condition::LessEqual => a <= b,
        Condition::Set => a & b != 0,
        Condition::SignedGreater => signed(width, a) > signed(width, b),
        Condition::SignedGreaterEqual => signed(width, a) >= signed(width, b),
        Condition::SignedLess => signed(width, a) < signed(width, b),
        Condition::SignedLessEqual => signed(width, a) <= signed(width, b),
    }
}
