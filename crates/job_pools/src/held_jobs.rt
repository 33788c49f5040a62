//! The jobs that are held, by number.

ghost use Rattle.std.specs.Prelude.{◌≡◌, Some, IfSome};
ghost use Rattle.std.proofs.Props.{props};
ghost use Rattle.std.specs.BTreeMap as tree;
ghost use Rattle.std.specs.Ordering.{nat_cmp};
ghost use Rattle.slab.specs.Slab as slots;
ghost use Rattle.job_pools.specs.Holding.{AreKept, IsSeen};

use crate::ending::JobThread;
use crate::job_request::JobRequest;
use crate::keys::{forget, key_of, note};
use crate::running::{RunningJob, begin};
use credit_book::{Progress, Report};
use job_core::Job;
use slab::Slab;
use std::alloc::Global;
use std::collections::BTreeMap;
use std::sync::Wait;
use std::thread::Threads;

/// The jobs that were started and not yet taken, each with a place of its own, and their places by
/// number.
#[derive(Drop)]
pub(crate) struct HeldJobs {
    jobs: Slab<RunningJob>,
    keys: BTreeMap<u64, usize>,
    ghost kept: { AreKept (tree.get nat_cmp keys) (slots.get jobs) } by { Prim.hlevel props },
}

/// Looks at the job of this key.
fn look_at(jobs: &mut Slab<RunningJob>, key: usize) -> Progress
    requires { slots.ContainsKey jobs.old key }
    ensures { (old : _) × (new : _) × (slots.get jobs.old key ≡ Some old)
        × IsSeen old result new × slots.Updates jobs.old jobs.new key (Some new) }
{
    match jobs.get_mut(key) {
        Some(running) => running.look(),
        None => unreachable!(),
    }
}

/// The finished job of lowest number, with its key.
fn finished<R: Wait>(
    jobs: &Slab<RunningJob>,
    keys: &BTreeMap<u64, usize>,
    rt: &R,
) -> Option<(u64, usize)>
    ensures { IfSome result (λ found. (tree.get nat_cmp keys.now found.0 ≡ Some found.1)
        × ((held : _) × (slots.get jobs.now found.1 ≡ Some held))) }
{
    for (number, key) in keys {
        if let Some(running) = jobs.get(*key) {
            if running.is_done(rt) {
                return Some((*number, *key));
            }
        }
    }
    None
}

impl HeldJobs {
    ghost use Rattle.std.specs.Prelude.{◌≡◌, ℕ, None};
    ghost use Rattle.job_pools.specs.Holds.{held_at, count_of, Starts, TellsProgress, TakesReport};
    ghost use Rattle.job_pools.specs.Starting.{StartsOwn};

    /// No jobs are held yet.
    pub fn new(alloc: Global) -> HeldJobs
        ensures none { (n : ℕ) → held_at result n ≡ None }
        ensures count { count_of result ≡ 0 }
    {
        HeldJobs {
            jobs: Slab::new(alloc),
            keys: BTreeMap::new(alloc),
        }
    }

    /// Starts a job, whose places are made ahead of its thread and given up where the start is
    /// refused: by 99, or by 81 where no thread could be started, or a job of this number is held.
    pub fn start<F: Fn(JobRequest) -> Option<JobThread>>(
        &mut self,
        alloc: Global,
        starter: &F,
        number: u64,
        job: Job,
    ) -> Result<(), u8>
        requires callable { F.IsAlwaysCallable starter.now }
        requires own { StartsOwn (F.post starter.now) }
        ensures { Starts self.old number job result self.new }
    {
        if key_of(&self.keys, number).is_some() {
            return Err(81);
        }
        if self.jobs.reserve(1).is_err() {
            return Err(99);
        }
        let key = self.jobs.vacant_key();
        let Ok(()) = note(&mut self.keys, number, key) else {
            return Err(99);
        };
        match begin(alloc, starter, number, job) {
            Ok(running) => {
                self.jobs.insert_reserved(running);
                Ok(())
            }
            Err(code) => {
                forget(&mut self.keys, number);
                Err(code)
            }
        }
    }

    /// What the board of the job tells now; 0, 0 and not complete where the job isn't held.
    #[tactic(auto, unfolding(crate::specs::Holds::looks_by))]
    pub fn look(&mut self, number: u64) -> Progress
        ensures { TellsProgress self.old number result self.new }
    {
        let Some(key) = key_of(&self.keys, number) else {
            return Progress {
                spent: 0,
                returned: 0,
                complete: false,
            };
        };
        look_at(&mut self.jobs, key)
    }

    /// The finished job of lowest number and what it came to. It isn't held any more, and its
    /// thread has ended.
    pub fn take<R: Wait + Threads>(&mut self, rt: &R) -> Option<(u64, Result<Report, u8>)>
        ensures { TakesReport self.old result self.new }
    {
        let (number, key) = finished(&self.jobs, &self.keys, rt)?;
        forget(&mut self.keys, number);
        match self.jobs.try_remove(key) {
            Some(running) => Some((number, running.join(rt))),
            None => unreachable!(),
        }
    }

    /// Waits for the threads of all jobs.
    pub fn join_all<R: Threads>(self, rt: &R) {
        let HeldJobs { mut jobs, keys: _ } = self;
        for running in jobs.drain() {
            let _ = running.join(rt);
        }
    }
}
