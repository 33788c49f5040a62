//! The refusals.

ghost use Rattle.std.specs.Prelude.{◌≡◌};
ghost use Rattle.insn_codec.specs.Fault.{code_of_fault, slot_of_fault};
ghost use Rattle.insn_codec.specs.declared.fault.CodecFault.TheVariants as fault;

use refusal::NoMemory;
use std::alloc::{AllocError, AllocFailed};
use thiserror::Error;

/// Why bytes are no program, or why a program has no bytes. The number is the slot.
#[derive(Clone, Copy, Debug, PartialEq, Eq, Hash, Error)]
pub enum CodecFault {
    #[error("1: no instruction")]
    Empty,
    #[error("2: the length is no multiple of 8")]
    Ragged,
    #[error("3: more than 4096 slots")]
    TooLong,
    #[error("4: unknown operation at slot {0}")]
    UnknownOp(u32),
    #[error("5: register over 10 at slot {0}")]
    BadRegister(u32),
    #[error("6: unused field that is not zero at slot {0}")]
    UnusedField(u32),
    #[error("7: half of a wide instruction at slot {0}")]
    HalfWide(u32),
    #[error("99: out of memory")]
    NoMemory,
}

impl CodecFault {
    /// The number of the refusal.
    pub fn code(&self) -> u8
        ensures { result ≡ code_of_fault self.now }
    {
        match self {
            CodecFault::Empty => 1,
            CodecFault::Ragged => 2,
            CodecFault::TooLong => 3,
            CodecFault::UnknownOp(_) => 4,
            CodecFault::BadRegister(_) => 5,
            CodecFault::UnusedField(_) => 6,
            CodecFault::HalfWide(_) => 7,
            CodecFault::NoMemory => 99,
        }
    }

    /// The slot that it tells, if it tells one.
    pub fn slot(&self) -> Option<u32>
        ensures { result ≡ slot_of_fault self.now }
    {
        match *self {
            CodecFault::UnknownOp(slot)
            | CodecFault::BadRegister(slot)
            | CodecFault::UnusedField(slot)
            | CodecFault::HalfWide(slot) => Some(slot),
            CodecFault::Empty | CodecFault::Ragged | CodecFault::TooLong | CodecFault::NoMemory => {
                None
            }
        }
    }
}

impl From<NoMemory> for CodecFault {
    ghost from_gives = { λ _ refusal. refusal ≡ fault.NoMemory };

    fn from(_error: NoMemory) -> CodecFault {
        CodecFault::NoMemory
    }
}

impl From<AllocError> for CodecFault {
    ghost from_gives = { λ _ refusal. refusal ≡ fault.NoMemory };

    fn from(_error: AllocError) -> CodecFault {
        CodecFault::NoMemory
    }
}

impl<T: Drop> From<AllocFailed<T>> for CodecFault {
    ghost from_gives = { λ _ refusal. refusal ≡ fault.NoMemory };

    fn from(_error: AllocFailed<T>) -> CodecFault {
        CodecFault::NoMemory
    }
}
