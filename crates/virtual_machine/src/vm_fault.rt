//! Why a single program isn't run.

ghost use Rattle.std.specs.Prelude.{◌≡◌};
ghost use Rattle.virtual_machine.specs.VmFaultCodes.{code_of_vm_fault};

use refusal::NoMemory;
use std::alloc::AllocError;
use thiserror::Error;

/// Why a single program isn't run.
#[derive(Clone, Copy, Debug, PartialEq, Eq, Hash, Error)]
pub enum VmFault {
    /// No program is set.
    #[error("41: no program is set")]
    NoProgram,
    /// The credit is under the program's cost.
    #[error("42: a credit of {given}, under the program's cost of {wanted}")]
    CreditLow { wanted: u32, given: u32 },
    /// The memory is shorter than the program's need, both in bytes.
    #[error("43: a memory of {given} bytes, under the program's need of {wanted}")]
    MemoryShort { wanted: u32, given: u32 },
    /// A growth was refused.
    #[error("99: out of memory")]
    NoMemory,
}

impl VmFault {
    /// The number of the refusal: 41, 42, 43 or 99.
    pub fn code(&self) -> u8
        ensures { result ≡ code_of_vm_fault self.now }
    {
        match self {
            VmFault::NoProgram => 41,
            VmFault::CreditLow { .. } => 42,
            VmFault::MemoryShort { .. } => 43,
            VmFault::NoMemory => 99,
        }
    }
}

impl From<NoMemory> for VmFault {
    ghost use Rattle.virtual_machine.specs.declared.vm_fault.VmFault.TheVariants as fault;

    ghost from_gives = { λ _ refusal. refusal ≡ fault.NoMemory };

    fn from(_refusal: NoMemory) -> VmFault {
        VmFault::NoMemory
    }
}

impl From<AllocError> for VmFault {
    ghost use Rattle.virtual_machine.specs.declared.vm_fault.VmFault.TheVariants as fault;

    ghost from_gives = { λ _ refusal. refusal ≡ fault.NoMemory };

    fn from(_refusal: AllocError) -> VmFault {
        VmFault::NoMemory
    }
}
