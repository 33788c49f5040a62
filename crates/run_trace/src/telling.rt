//! Steps as text, a line each.

use crate::step::{ChangedBytes, RegisterChange, Step};
use disassembler::SignedNumber;
use reference::Content;
use std::fmt;

/// What a register holds.
#[derive(Clone, Copy)]
pub(crate) struct Holding(pub(crate) Content);

impl fmt::Display for Holding {
    ghost use Rattle.std.specs.Prelude.{Some};
    ghost use Rattle.run_trace.specs.Texts.{content_text};

    ghost output = { λ holding. Some (content_text holding.0) };

    fn fmt<W: fmt::Write>(&self, f: &mut fmt::Formatter<W>) -> fmt::Result {
        match self.0 {
            Content::Unset => write!(f, "unset"),
            Content::Num(number) => write!(f, "{number}"),
            Content::Stack(position) => write!(f, "stack{}", SignedNumber(position)),
            Content::Part(position) => write!(f, "part{}", SignedNumber(position)),
        }
    }
}

impl fmt::Display for RegisterChange {
    ghost use Rattle.std.specs.Prelude.{Some};
    ghost use Rattle.run_trace.specs.Texts.{change_text};

    ghost output = { λ change. Some (change_text change) };

    fn fmt<W: fmt::Write>(&self, f: &mut fmt::Formatter<W>) -> fmt::Result {
        write!(f, "r{} {}", self.register, Holding(self.content))
    }
}

/// A byte in hexadecimal.
#[derive(Clone, Copy)]
struct HexByte(u8);

impl fmt::Display for HexByte {
    ghost use Rattle.std.specs.Prelude.{Some};
    ghost use Rattle.run_trace.specs.StepTexts.{hex_byte};

    ghost output = { λ byte. Some (hex_byte byte.0) };

    fn fmt<W: fmt::Write>(&self, f: &mut fmt::Formatter<W>) -> fmt::Result {
        let byte = self.0;
        write!(f, "{byte:02x}")
    }
}

/// Bytes in hexadecimal.
#[derive(Clone, Copy)]
pub(crate) struct Digits<'a>(pub(crate) &'a [u8]);

impl<'a> fmt::Display for Digits<'a> {
    ghost use Rattle.std.specs.Prelude.{Some};
    ghost use Rattle.run_trace.specs.StepTexts.{hex_text};

    ghost output = { λ digits. Some (hex_text digits.0.now) };

    fn fmt<W: fmt::Write>(&self, f: &mut fmt::Formatter<W>) -> fmt::Result {
        for byte in self.0 {
            write!(f, "{}", HexByte(*byte))?;
        }
        Ok(())
    }
}

/// What was written: where, and the bytes.
impl fmt::Display for ChangedBytes {
    ghost use Rattle.std.specs.Prelude.{Some};
    ghost use Rattle.run_trace.specs.StepTexts.{written_text};

    ghost output = { λ written. Some (written_text written) };

    fn fmt<W: fmt::Write>(&self, f: &mut fmt::Formatter<W>) -> fmt::Result {
        write!(f, "+{} {}", self.at, Digits(&self.bytes))
    }
}

/// The registers that changed.
#[derive(Clone, Copy)]
struct Changes<'a>(&'a [RegisterChange]);

impl<'a> fmt::Display for Changes<'a> {
    ghost use Rattle.std.specs.Prelude.{Some};
    ghost use Rattle.run_trace.specs.StepTexts.{changes_text};

    ghost output = { λ changes. Some (changes_text changes.0.now) };

    fn fmt<W: fmt::Write>(&self, f: &mut fmt::Formatter<W>) -> fmt::Result {
        for change in self.0 {
            write!(f, "{change}, ")?;
        }
        Ok(())
    }
}

/// The bytes of a region that changed, behind its name.
#[derive(Clone, Copy)]
struct WrittenRegion<'a>(&'a str, &'a Option<ChangedBytes>);

impl<'a> fmt::Display for WrittenRegion<'a> {
    ghost use Rattle.std.specs.Prelude.{Some};
    ghost use Rattle.run_trace.specs.StepTexts.{region_text};

    ghost output = { λ region. Some (region_text region.0.now region.1.now) };

    fn fmt<W: fmt::Write>(&self, f: &mut fmt::Formatter<W>) -> fmt::Result {
        match self.1 {
            Some(written) => write!(f, "{}{written}, ", self.0),
            None => Ok(()),
        }
    }
}

impl fmt::Display for Step {
    ghost use Rattle.std.specs.Prelude.{Some};
    ghost use Rattle.run_trace.specs.StepTexts.{step_text};

    ghost output = { λ step. Some (step_text step) };

    fn fmt<W: fmt::Write>(&self, f: &mut fmt::Formatter<W>) -> fmt::Result {
        let changes = Changes(&self.registers);
        let (stack, part) = (
            WrittenRegion("stack", &self.stack),
            WrittenRegion("part", &self.part),
        );
        write!(
            f,
            "{} ; {changes}{stack}{part}used {}",
            self.place, self.used
        )
    }
}
