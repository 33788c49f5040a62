//! What is known of each register, as text.

ghost use Rattle.std.specs.Prelude.{◌≡◌, ◌≤◌};
ghost use Rattle.instruction_rules.specs.Covers.{abs_at};
ghost use Rattle.explain.specs.Texts.{is_any, is_narrow};

use disassembler::SignedNumber;
use insn_codec::Register;
use std::fmt;
use value_ranges::{Abs, Numbers, Reach, SignedRange};
use verifier::AbsState;

/// Whether some of the signed readings are ruled out.
fn is_narrow(range: SignedRange) -> bool
    ensures { result ≡ is_narrow range }
{
    i64::MIN < range.lo() || range.hi() < i64::MAX
}

/// Whether no number of 64 bits is ruled out.
fn is_any(numbers: Numbers) -> bool
    ensures { result ≡ is_any numbers }
{
    if numbers.unsigned().lo() != 0 {
        return false;
    }
    if numbers.unsigned().hi() != u64::MAX {
        return false;
    }
    !is_narrow(numbers.signed())
}

/// A number: its unsigned range, and its signed one where that says more.
#[derive(Clone, Copy)]
struct NumbersText(Numbers);

impl fmt::Display for NumbersText {
    ghost use Rattle.std.specs.Prelude.{Some};
    ghost use Rattle.explain.specs.Texts.{number_text};

    ghost output = { λ number. Some (number_text number.0) };

    fn fmt<W: fmt::Write>(&self, f: &mut fmt::Formatter<W>) -> fmt::Result {
        let unsigned = self.0.unsigned();
        let (lo, hi) = (unsigned.lo(), unsigned.hi());
        if lo == hi {
            return write!(f, "{lo}");
        }
        if hi < 9_223_372_036_854_775_808 {
            return write!(f, "{lo} to {hi}");
        }
        if is_any(self.0) {
            return write!(f, "any number");
        }
        let signed = self.0.signed();
        let (least, most) = (signed.lo(), signed.hi());
        write!(f, "{lo} to {hi}, signed {least} to {most}")
    }
}

/// Where a pointer leads, in bytes from its region's first.
#[derive(Clone, Copy)]
struct ReachText(Reach);

impl fmt::Display for ReachText {
    ghost use Rattle.std.specs.Prelude.{Some};
    ghost use Rattle.explain.specs.Texts.{reach_text};

    ghost output = { λ positions. Some (reach_text positions.0) };

    fn fmt<W: fmt::Write>(&self, f: &mut fmt::Formatter<W>) -> fmt::Result {
        let (lo, hi) = (self.0.lo(), self.0.hi());
        if lo < hi {
            write!(
                f,
                "{} to {}",
                SignedNumber(i64::from(lo)),
                SignedNumber(i64::from(hi))
            )
        } else {
            write!(f, "{}", SignedNumber(i64::from(lo)))
        }
    }
}

/// What is known of a register. Its text is one line.
#[derive(Clone, Copy)]
pub struct AbsText(pub Abs);

impl fmt::Display for AbsText {
    ghost use Rattle.std.specs.Prelude.{Some};
    ghost use Rattle.explain.specs.Texts.{known_text};

    ghost output = { λ content. Some (known_text content.0) };

    fn fmt<W: fmt::Write>(&self, f: &mut fmt::Formatter<W>) -> fmt::Result {
        match self.0 {
            Abs::Unset => write!(f, "unset"),
            Abs::Num(numbers) => write!(f, "{}", NumbersText(numbers)),
            Abs::Stack(reach) => write!(f, "stack{}", ReachText(reach)),
            Abs::Part(reach) => write!(f, "part{}", ReachText(reach)),
        }
    }
}

/// The line of a register.
#[derive(Clone, Copy)]
struct RegisterLine(u8, Abs);

impl fmt::Display for RegisterLine {
    ghost use Rattle.std.specs.Prelude.{Some};
    ghost use Rattle.explain.specs.Texts.{register_line};

    ghost output = { λ line. Some (register_line line.0 line.1) };

    fn fmt<W: fmt::Write>(&self, f: &mut fmt::Formatter<W>) -> fmt::Result {
        write!(f, "  r{} {}\n", self.0, AbsText(self.1))
    }
}

/// The line of a register in a state.
fn line_of(state: &AbsState, number: u8) -> RegisterLine
    requires { number ≤ 10 }
    ensures number { result.0 ≡ number }
    ensures known { result.1 ≡ abs_at state.now number }
{
    RegisterLine(number, state.at(Register::new(number)))
}

/// A line for each register.
#[derive(Clone, Copy)]
pub(crate) struct RegisterLines(pub(crate) AbsState);

impl fmt::Display for RegisterLines {
    ghost use Rattle.std.specs.Prelude.{Some};
    ghost use Rattle.explain.specs.Texts.{registers_text};

    ghost output = { λ registers. Some (registers_text registers.0) };

    fn fmt<W: fmt::Write>(&self, f: &mut fmt::Formatter<W>) -> fmt::Result {
        let state = &self.0;
        write!(
            f,
            "{}{}{}{}{}{}{}{}{}{}{}",
            line_of(state, 0),
            line_of(state, 1),
            line_of(state, 2),
            line_of(state, 3),
            line_of(state, 4),
            line_of(state, 5),
            line_of(state, 6),
            line_of(state, 7),
            line_of(state, 8),
            line_of(state, 9),
            line_of(state, 10)
        )
    }
}
