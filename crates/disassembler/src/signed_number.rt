//! A number with its sign.

use std::fmt;

/// A number with its sign, also before zero, as the text of an offset or a position has it.
#[derive(Clone, Copy)]
pub struct SignedNumber(pub i64);

impl fmt::Display for SignedNumber {
    ghost use Rattle.std.specs.Prelude.{Some};
    ghost use Rattle.disassembler.specs.Line.{signed_text};

    ghost output = { λ number. Some (signed_text number.0) };

    fn fmt<W: fmt::Write>(&self, f: &mut fmt::Formatter<W>) -> fmt::Result {
        let size = self.0.unsigned_abs();
        if self.0 < 0 {
            write!(f, "-{size}")
        } else {
            write!(f, "+{size}")
        }
    }
}
