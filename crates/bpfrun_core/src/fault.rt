//! Why a program doesn't run.

ghost use Rattle.std.specs.Prelude.{◌≡◌};
ghost use Rattle.bpfrun_core.specs.Faults.{number_of_run_fault};

use assembler::TextFault;
use refusal::NoMemory;
use std::alloc::AllocError;
use thiserror::Error;
use verifier::Refusal;

/// Why a program doesn't run.
#[derive(Clone, Copy, Debug, PartialEq, Eq, Hash, Error)]
pub enum RunFault {
    /// Source text is no UTF-8.
    #[error("73: the text is no UTF-8")]
    NotText,
    /// What is to be hexadecimal isn't.
    #[error("73: the file is no hexadecimal")]
    NotHexadecimal,
    /// A line is no instruction's, or there are none or too many.
    #[error("{0}")]
    Text(TextFault),
    /// The memory is longer than a part may be.
    #[error("65: a memory of over 65536 bytes")]
    MemoryTooLarge,
    /// The verifier refuses the program.
    #[error("{0}")]
    Program(Refusal),
    /// The credit is under the program's cost.
    #[error("42: a credit of {given}, under the program's cost of {wanted}")]
    CreditLow { wanted: u32, given: u32 },
    /// The memory is shorter than the program's need, both in bytes.
    #[error("43: a memory of {given} bytes, under the program's need of {wanted}")]
    MemoryShort { wanted: u32, given: u32 },
    /// A growth was refused.
    #[error("99: out of memory")]
    NoMemory,
}

impl RunFault {
    /// The number of the refusal: 73 no text or no hexadecimal, 65 too much memory, 42 too little
    /// credit, 43 too little memory, 99, or that of the assembler (1, 3, 11 to 13) or the verifier
    /// (1 to 7, 21 to 25, 31 to 38).
    pub fn code(&self) -> u8
        ensures { result ≡ number_of_run_fault self.now }
    {
        match self {
            RunFault::NotText | RunFault::NotHexadecimal => 73,
            RunFault::Text(fault) => fault.code(),
            RunFault::MemoryTooLarge => 65,
            RunFault::Program(refusal) => refusal.code(),
            RunFault::CreditLow { .. } => 42,
            RunFault::MemoryShort { .. } => 43,
            RunFault::NoMemory => 99,
        }
    }
}

impl From<NoMemory> for RunFault {
    ghost use Rattle.bpfrun_core.specs.declared.fault.RunFault.TheVariants as fault;

    ghost from_gives = { λ _ given. given ≡ fault.NoMemory };

    fn from(_refusal: NoMemory) -> RunFault {
        RunFault::NoMemory
    }
}

impl From<AllocError> for RunFault {
    ghost use Rattle.bpfrun_core.specs.declared.fault.RunFault.TheVariants as fault;

    ghost from_gives = { λ _ given. given ≡ fault.NoMemory };

    fn from(_refusal: AllocError) -> RunFault {
        RunFault::NoMemory
    }
}
