//! The refusals.

ghost use Rattle.std.specs.Prelude.{◌≡◌};
ghost use Rattle.assembler.specs.Fault.{code_of_text_fault, line_of};
ghost use Rattle.assembler.specs.declared.fault.TextFault.TheVariants as fault;

use std::alloc::{AllocError, AllocFailed};
use thiserror::Error;

/// Why a text is no program. The number is that of the line, counted from 1.
#[derive(Clone, Copy, Debug, PartialEq, Eq, Hash, Error)]
pub enum TextFault {
    /// What stands in front of the first space of the line is no word.
    #[error("11: line {0}: no instruction has this word")]
    UnknownWord(u64),
    /// What follows the word of the line is not of its forms.
    #[error("12: line {0}: the operands are not those of the word")]
    BadOperand(u64),
    /// The forms are right, but a number or a register of the line is out of range.
    #[error("13: line {0}: a number or a register is out of range")]
    NumberRange(u64),
    /// No line says an instruction.
    #[error("1: no instruction")]
    Empty,
    /// The instructions take more than 4,096 slots.
    #[error("3: more than 4096 slots")]
    TooLong,
    /// A growth was refused.
    #[error("99: out of memory")]
    NoMemory,
}

impl TextFault {
    /// The number of the refusal.
    pub fn code(&self) -> u8
        ensures { result ≡ code_of_text_fault self.now }
    {
        match self {
            TextFault::UnknownWord(_) => 11,
            TextFault::BadOperand(_) => 12,
            TextFault::NumberRange(_) => 13,
            TextFault::Empty => 1,
            TextFault::TooLong => 3,
            TextFault::NoMemory => 99,
        }
    }

    /// The line that it tells, counted from 1, if it tells one.
    pub fn line(&self) -> Option<u64>
        ensures { result ≡ line_of self.now }
    {
        match *self {
            TextFault::UnknownWord(line)
            | TextFault::BadOperand(line)
            | TextFault::NumberRange(line) => Some(line),
            TextFault::Empty | TextFault::TooLong | TextFault::NoMemory => None,
        }
    }
}

impl From<AllocError> for TextFault {
    ghost from_gives = { λ _ refusal. refusal ≡ fault.NoMemory };

    fn from(_error: AllocError) -> TextFault {
        TextFault::NoMemory
    }
}

impl<T: Drop> From<AllocFailed<T>> for TextFault {
    ghost from_gives = { λ _ refusal. refusal ≡ fault.NoMemory };

    fn from(_error: AllocFailed<T>) -> TextFault {
        TextFault::NoMemory
    }
}
