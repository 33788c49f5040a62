//! Why a program is refused.

ghost use Rattle.std.specs.Prelude.{◌≡◌, Some};
ghost use Rattle.verifier.specs.InStates.{Subject};
ghost use Rattle.verifier.specs.RefusalCodes.{code_of_refusal, refusal_at, slot_of_refusal};
ghost use Rattle.instruction_rules.specs.Rules.{number_of_rule};
ghost use Rattle.verifier.specs.Verdict.{IsFirstFaulty, RefusesStates};

use flow_graph::FlowFault;
use insn_codec::CodecFault;
use instruction_rules::Rule;
use refusal::NoMemory;
use std::alloc::{AllocError, AllocFailed};
use thiserror::Error;

/// Why a program isn't accepted. The number is the slot.
#[derive(Clone, Copy, Debug, PartialEq, Eq, Hash, Error)]
pub enum Refusal {
    /// The program needs more bytes than a part may have.
    #[error("38: need over 65536")]
    NeedTooLarge,
    /// The bytes are no program.
    #[error("{0}")]
    Codec(CodecFault),
    /// An edge of the program is refused, or an instruction isn't reached.
    #[error("{0}")]
    Flow(FlowFault),
    /// A register is read that may be unset.
    #[error("31: read of an unset register at slot {0}")]
    UnsetRead(u32),
    /// An access may leave the stack.
    #[error("32: access out of the stack at slot {0}")]
    OutOfStack(u32),
    /// An access may leave the part.
    #[error("33: access out of the part at slot {0}")]
    OutOfPart(u32),
    /// A number stands where a pointer is wanted, or a pointer where a number is.
    #[error("34: wrong kind of value at slot {0}")]
    BadKind(u32),
    /// A pointer may go too far.
    #[error("35: pointer out of range at slot {0}")]
    PointerRange(u32),
    /// R10 is written.
    #[error("36: write of r10 at slot {0}")]
    FramePointer(u32),
    /// The helper isn't in the table.
    #[error("37: unknown helper at slot {0}")]
    NoHelper(u32),
    /// A growth was refused.
    #[error("99: out of memory")]
    NoMemory,
}

impl Refusal {
    /// The number of the refusal.
    pub fn code(&self) -> u8
        ensures { result ≡ code_of_refusal self.now }
    {
        match self {
            Refusal::NeedTooLarge => 38,
            Refusal::Codec(fault) => fault.code(),
            Refusal::Flow(fault) => fault.code(),
            Refusal::UnsetRead(_) => Rule::UnsetRead.code(),
            Refusal::OutOfStack(_) => Rule::OutOfStack.code(),
            Refusal::OutOfPart(_) => Rule::OutOfPart.code(),
            Refusal::BadKind(_) => Rule::BadKind.code(),
            Refusal::PointerRange(_) => Rule::PointerRange.code(),
            Refusal::FramePointer(_) => Rule::FramePointer.code(),
            Refusal::NoHelper(_) => Rule::NoHelper.code(),
            Refusal::NoMemory => 99,
        }
    }

    /// The slot that it tells, if it tells one.
    pub fn slot(&self) -> Option<u32>
        ensures { result ≡ slot_of_refusal self.now }
    {
        match self {
            Refusal::Codec(fault) => fault.slot(),
            Refusal::Flow(fault) => fault.slot(),
            Refusal::UnsetRead(slot)
            | Refusal::OutOfStack(slot)
            | Refusal::OutOfPart(slot)
            | Refusal::BadKind(slot)
            | Refusal::PointerRange(slot)
            | Refusal::FramePointer(slot)
            | Refusal::NoHelper(slot) => Some(*slot),
            Refusal::NeedTooLarge | Refusal::NoMemory => None,
        }
    }

    /// The refusal of the instruction at the slot, which breaks the rule.
    pub(crate) fn at(slot: u32, rule: Rule) -> Refusal
        ensures first { (p : Subject) → IsFirstFaulty p slot rule → RefusesStates p result }
        ensures refusal { result ≡ refusal_at slot rule }
        ensures number { code_of_refusal result ≡ number_of_rule rule }
        ensures slot { slot_of_refusal result ≡ Some slot }
    {
        match rule {
            Rule::UnsetRead => Refusal::UnsetRead(slot),
            Rule::OutOfStack => Refusal::OutOfStack(slot),
            Rule::OutOfPart => Refusal::OutOfPart(slot),
            Rule::BadKind => Refusal::BadKind(slot),
            Rule::PointerRange => Refusal::PointerRange(slot),
            Rule::FramePointer => Refusal::FramePointer(slot),
            Rule::NoHelper => Refusal::NoHelper(slot),
        }
    }
}

impl From<NoMemory> for Refusal {
    ghost use Rattle.verifier.specs.declared.refusals.Refusal.TheVariants as refusal;

    ghost from_gives = { λ _ result. result ≡ refusal.NoMemory };

    fn from(_error: NoMemory) -> Refusal {
        Refusal::NoMemory
    }
}

impl From<AllocError> for Refusal {
    ghost use Rattle.verifier.specs.declared.refusals.Refusal.TheVariants as refusal;

    ghost from_gives = { λ _ result. result ≡ refusal.NoMemory };

    fn from(_error: AllocError) -> Refusal {
        Refusal::NoMemory
    }
}

impl<T: Drop> From<AllocFailed<T>> for Refusal {
    ghost use Rattle.verifier.specs.declared.refusals.Refusal.TheVariants as refusal;

    ghost from_gives = { λ _ result. result ≡ refusal.NoMemory };

    fn from(_error: AllocFailed<T>) -> Refusal {
        Refusal::NoMemory
    }
}

impl From<CodecFault> for Refusal {
    ghost use Rattle.verifier.specs.RefusalCodes.{from_codec};

    ghost from_gives = { λ fault result. result ≡ from_codec fault };

    fn from(fault: CodecFault) -> Refusal {
        match fault {
            CodecFault::NoMemory => Refusal::NoMemory,
            fault => Refusal::Codec(fault),
        }
    }
}

impl From<FlowFault> for Refusal {
    ghost use Rattle.verifier.specs.RefusalCodes.{from_flow};

    ghost from_gives = { λ fault result. result ≡ from_flow fault };

    fn from(fault: FlowFault) -> Refusal {
        match fault {
            FlowFault::NoMemory => Refusal::NoMemory,
            fault => Refusal::Flow(fault),
        }
    }
}
