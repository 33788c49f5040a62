//! A runner that holds no more jobs than a host allows.

ghost use Rattle.std.specs.Prelude.{◌≡◌, true, false};
ghost use Rattle.job_pools.specs.Bounded.{IsFull};

use credit_book::{Progress, Report};
use job_core::Job;
use std::alloc::Global;
use streams::Runner;

/// A runner that tells how many jobs it holds.
pub trait CountedRunner: Runner {
    /// How many jobs it holds: those that were started and not yet taken.
    fn count(&self) -> u64
        ensures { result ≡ Self.held self.now };
}

/// Refuses each start by 81 while so many jobs are held; 0 allows any number. All else is the
/// runner's own.
#[derive(Drop)]
pub struct LimitedRunner<N> {
    runner: N,
    limit: u32,
}

impl<N: Drop> LimitedRunner<N> {
    ghost use Rattle.std.specs.Prelude.{◌≡◌};

    /// A runner with a limit.
    pub fn new(runner: N, limit: u32) -> LimitedRunner<N>
        ensures { (result.runner ≡ runner) × (result.limit ≡ limit) }
    {
        LimitedRunner { runner, limit }
    }
}

/// Whether no further job may be held.
pub(crate) fn is_full(limit: u32, held: u64) -> bool
    ensures full { result ≡ true → IsFull limit held }
    ensures room { result ≡ false → IsFull limit held → ⊥ }
{
    limit > 0 && held >= u64::from(limit)
}

impl<N: CountedRunner> Runner for LimitedRunner<N> {
    ghost use Rattle.job_pools.specs.Bounded.{looks_within, starts_within, takes_within};

    ghost held = { λ l. N.held l.runner };

    ghost ready = { λ l. N.ready l.runner };

    ghost starts = { starts_within N.held N.starts };

    ghost looks = { looks_within N.looks };

    ghost takes = { takes_within N.takes };

    fn start(&mut self, alloc: Global, number: u64, job: Job) -> Result<(), u8> {
        if is_full(self.limit, self.runner.count()) {
            return Err(81);
        }
        self.runner.start(alloc, number, job)
    }

    fn look(&mut self, number: u64) -> Progress {
        self.runner.look(number)
    }

    fn take(&mut self) -> Option<(u64, Result<Report, u8>)> {
        self.runner.take()
    }
}
