//! A runner that runs each job in a thread of its own.

use crate::ending::JobThread;
use crate::held_jobs::HeldJobs;
use crate::job_request::JobRequest;
use credit_book::{Progress, Report};
use job_core::Job;
use std::alloc::Global;
use std::sync::Wait;
use std::thread::Threads;
use streams::Runner;

/// Runs each job in a thread of its own, which `starter` starts.
///
/// A method of a trait can't send its handle to a thread, so the caller gives a closure that does:
/// `|request| start_thread(rt, request, workers)`. It may be called on any request, and its threads
/// promise the end of the request's own job. That a thread is ever run, or a job ever finished, is
/// nowhere claimed.
#[derive(Drop)]
pub struct PoolRunner<R, F: Fn(JobRequest) -> Option<JobThread>> {
    rt: R,
    starter: F,
    places: HeldJobs,
}

impl<R: Drop, F: Fn(JobRequest) -> Option<JobThread> + Drop> PoolRunner<R, F> {
    ghost use Rattle.std.specs.Prelude.{◌≡◌, ℕ, None};
    ghost use Rattle.job_pools.specs.Holds.{held_at};

    /// A runner that holds no job.
    pub fn new(rt: R, alloc: Global, starter: F) -> PoolRunner<R, F>
        ensures starter { result.starter ≡ starter }
        ensures none { (n : ℕ) → held_at result.places n ≡ None }
    {
        PoolRunner {
            rt,
            starter,
            places: HeldJobs::new(alloc),
        }
    }
}

impl<R: Threads + Drop, F: Fn(JobRequest) -> Option<JobThread> + Drop> PoolRunner<R, F> {
    /// Waits for the threads of all jobs.
    pub fn join_all(self) {
        let PoolRunner {
            rt,
            starter: _,
            places,
        } = self;
        places.join_all(&rt);
    }
}

impl<R: Threads + Wait + Drop, F: Fn(JobRequest) -> Option<JobThread> + Drop> Runner
    for PoolRunner<R, F> {
    ghost use Rattle.job_pools.specs.Holds.{count_of, Starts, TellsProgress, TakesReport};
    ghost use Rattle.job_pools.specs.Starting.{StartsOwn};

    ghost held = { λ p. count_of p.places };

    ghost ready = { λ p. F.IsAlwaysCallable p.starter × StartsOwn (F.post p.starter) };

    ghost starts = { λ p number order result q. Starts p.places number order result q.places };

    ghost looks = { λ p number progress q. TellsProgress p.places number progress q.places };

    ghost takes = { λ p result q. TakesReport p.places result q.places };

    fn start(&mut self, alloc: Global, number: u64, job: Job) -> Result<(), u8> {
        self.places.start(alloc, &self.starter, number, job)
    }

    fn look(&mut self, number: u64) -> Progress {
        self.places.look(number)
    }

    fn take(&mut self) -> Option<(u64, Result<Report, u8>)> {
        self.places.take(&self.rt)
    }
}
