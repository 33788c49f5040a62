//! Why the desk refuses.

ghost use Rattle.std.specs.Prelude.{◌≡◌};
ghost use Rattle.accounts.specs.Faults.{desk_code, submit_code, submit_program, submit_slot};

use job_core::AdmitFault;
use refusal::NoMemory;
use std::alloc::AllocError;
use thiserror::Error;

/// Why an account or a job isn't told or changed.
#[derive(Clone, Copy, Debug, PartialEq, Eq, Hash, Error)]
pub enum DeskFault {
    /// The tenant was granted nothing: 74.
    #[error("74: no such tenant")]
    NoTenant,
    /// There is no such job, or none that is open: 76.
    #[error("76: no such job")]
    NoJob,
    /// The job is still open: 77.
    #[error("77: job under way")]
    NotComplete,
    /// A tenant's grants are at most 1,000,000,000,000 in all: 65.
    #[error("65: grants over their limit")]
    TooLarge,
    /// The job failed with the refusal of this number.
    #[error("{0}: job failed")]
    Failed(u8),
    /// A growth was refused: 99.
    #[error("99: out of memory")]
    NoMemory,
}

impl DeskFault {
    /// The number of the refusal.
    pub fn code(self) -> u8
        ensures { result ≡ desk_code self }
    {
        match self {
            DeskFault::NoTenant => 74,
            DeskFault::NoJob => 76,
            DeskFault::NotComplete => 77,
            DeskFault::TooLarge => 65,
            DeskFault::Failed(code) => code,
            DeskFault::NoMemory => 99,
        }
    }
}

impl From<NoMemory> for DeskFault {
    ghost use Rattle.accounts.specs.declared.fault.DeskFault.TheVariants as fault;

    ghost from_gives = { λ _ result. result ≡ fault.NoMemory };

    fn from(_error: NoMemory) -> DeskFault {
        DeskFault::NoMemory
    }
}

/// Why a job isn't taken.
#[derive(Clone, Copy, Debug, PartialEq, Eq, Hash, Error)]
pub enum SubmitFault {
    /// The tenant was granted nothing: 74.
    #[error("74: no such tenant")]
    NoTenant,
    /// The credit is over the balance: 75.
    #[error("75: credit over the balance")]
    BalanceLow,
    /// The job isn't admitted, or a growth was refused: the number is that of the refusal.
    #[error("{0}")]
    Admit(AdmitFault),
}

impl SubmitFault {
    /// The number of the refusal.
    pub fn code(&self) -> u8
        ensures { result ≡ submit_code self.now }
    {
        match self {
            SubmitFault::NoTenant => 74,
            SubmitFault::BalanceLow => 75,
            SubmitFault::Admit(fault) => fault.code(),
        }
    }

    /// The place of the program that isn't accepted, if that is why.
    pub fn program(&self) -> Option<u32>
        ensures { result ≡ submit_program self.now }
    {
        match self {
            SubmitFault::Admit(fault) => fault.program(),
            _ => None,
        }
    }

    /// The slot that isn't accepted, if one is told.
    pub fn slot(&self) -> Option<u32>
        ensures { result ≡ submit_slot self.now }
    {
        match self {
            SubmitFault::Admit(fault) => fault.slot(),
            _ => None,
        }
    }
}

impl From<AdmitFault> for SubmitFault {
    ghost use Rattle.accounts.specs.declared.fault.SubmitFault.TheVariants as fault;

    ghost from_gives = { λ e result. result ≡ fault.Admit e };

    fn from(error: AdmitFault) -> SubmitFault {
        SubmitFault::Admit(error)
    }
}

impl From<AllocError> for SubmitFault {
    ghost use Rattle.accounts.specs.declared.fault.SubmitFault.TheVariants as fault;
    ghost use Rattle.job_core.specs.declared.admission.AdmitFault.TheVariants as admit;

    ghost from_gives = { λ _ result. result ≡ fault.Admit admit.NoMemory };

    fn from(_error: AllocError) -> SubmitFault {
        SubmitFault::Admit(AdmitFault::NoMemory)
    }
}

/// The reason why a part of a desk isn't put back.
#[derive(Clone, Copy, Debug, PartialEq, Eq)]
pub enum RestoreFault {
    /// The desk has jobs already, and accounts are opened ahead of them.
    TooLate,
    /// The tenant is there already.
    KnownTenant,
    /// The tenant isn't there.
    UnknownTenant,
    /// More would be spent than was granted, more granted than may be, or a job would have spent
    /// more than forgotten ones did.
    WrongSums,
    /// The job isn't over.
    NotOver,
    /// No number is left for the job.
    TooManyJobs,
    /// A growth was refused.
    NoMemory,
}

impl From<NoMemory> for RestoreFault {
    ghost use Rattle.accounts.specs.declared.fault.RestoreFault.TheVariants as fault;

    ghost from_gives = { λ _ result. result ≡ fault.NoMemory };

    fn from(_error: NoMemory) -> RestoreFault {
        RestoreFault::NoMemory
    }
}

impl From<AllocError> for RestoreFault {
    ghost use Rattle.accounts.specs.declared.fault.RestoreFault.TheVariants as fault;

    ghost from_gives = { λ _ result. result ≡ fault.NoMemory };

    fn from(_error: AllocError) -> RestoreFault {
        RestoreFault::NoMemory
    }
}
