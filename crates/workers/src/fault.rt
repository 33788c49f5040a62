//! Why a job gave no report.

ghost use Rattle.std.specs.Prelude.{◌≡◌};
ghost use Rattle.workers.specs.PoolFaultCodes.{code_of_pool_fault};

use crate::locked_book::SpawnRefused;
use credit_book::Unopened;
use refusal::NoMemory;
use std::alloc::AllocError;
use thiserror::Error;

/// Why a job gave no report.
#[derive(Clone, Copy, Debug, PartialEq, Eq, Hash, Error)]
pub enum PoolFault {
    /// No thread could be started: 81.
    #[error("81: no worker could be started")]
    NoWorker,
    /// A task was alive when all workers had left: 82. The calls of this crate never give it: where
    /// one is alive, they work on.
    #[error("82: a task was alive when all workers had left")]
    BookRefused,
    /// A growth was refused: 99.
    #[error("99: out of memory")]
    NoMemory,
}

impl PoolFault {
    /// The number of the refusal.
    pub fn code(&self) -> u8
        ensures { result ≡ code_of_pool_fault self.now }
    {
        match self {
            PoolFault::NoWorker => 81,
            PoolFault::BookRefused => 82,
            PoolFault::NoMemory => 99,
        }
    }
}

/// Why a job has no whole report: for want of memory, 99.
#[derive(Clone, Copy, Debug, PartialEq, Eq, Hash, Error)]
pub enum NotWhole {
    /// A growth was refused ahead of the first task.
    #[error("99: out of memory")]
    NoMemory,
    /// A task found no frame, or was refused a spawn.
    #[error("99: out of memory for a task")]
    Refused(SpawnRefused),
}

impl NotWhole {
    /// The number of the refusal, 99.
    pub fn code(&self) -> u8
        ensures { result ≡ 99 }
    {
        PoolFault::NoMemory.code()
    }
}

impl From<NoMemory> for NotWhole {
    ghost use Rattle.std.specs.Prelude.{◌≡◌};
    ghost use Rattle.workers.specs.declared.fault.NotWhole.TheVariants as fault;

    ghost from_gives = { λ _ refusal. refusal ≡ fault.NoMemory };

    fn from(_error: NoMemory) -> NotWhole {
        NotWhole::NoMemory
    }
}

impl From<NoMemory> for PoolFault {
    ghost use Rattle.std.specs.Prelude.{◌≡◌};
    ghost use Rattle.workers.specs.declared.fault.PoolFault.TheVariants as fault;

    ghost from_gives = { λ _ refusal. refusal ≡ fault.NoMemory };

    fn from(_error: NoMemory) -> PoolFault {
        PoolFault::NoMemory
    }
}

impl From<Unopened> for PoolFault {
    ghost use Rattle.std.specs.Prelude.{◌≡◌};
    ghost use Rattle.workers.specs.declared.fault.PoolFault.TheVariants as fault;

    ghost from_gives = { λ _ refusal. refusal ≡ fault.NoMemory };

    fn from(_error: Unopened) -> PoolFault {
        PoolFault::NoMemory
    }
}

impl From<AllocError> for PoolFault {
    ghost use Rattle.std.specs.Prelude.{◌≡◌};
    ghost use Rattle.workers.specs.declared.fault.PoolFault.TheVariants as fault;

    ghost from_gives = { λ _ refusal. refusal ≡ fault.NoMemory };

    fn from(_error: AllocError) -> PoolFault {
        PoolFault::NoMemory
    }
}
