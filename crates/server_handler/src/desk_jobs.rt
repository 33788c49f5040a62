//! The runner of all jobs, for one desk.

ghost use Rattle.std.specs.Prelude.{◌≡◌, None};
ghost use Rattle.server_state.specs.States.{id_at};

use credit_book::{Progress, Report};
use job_core::Job;
use server_state::{JobId, JobRunner};
use std::alloc::Global;
use streams::Runner;

/// The runner of all jobs, by the numbers that one desk has for its jobs.
///
/// The ends of jobs are taken from the runner of all jobs alone.
#[derive(Drop)]
pub struct DeskJobs<N> {
    pub jobs: N,
    pub desk: u16,
}

impl<N: JobRunner> Runner for DeskJobs<N> {
    ghost held = { λ d. N.held d.jobs };

    ghost ready = { λ d. N.ready d.jobs };

    ghost starts = { λ old number job started new.
        N.starts old.jobs (id_at old.desk number) job started new.jobs × (new.desk ≡ old.desk) };

    ghost looks = { λ old number seen new.
        N.looks old.jobs (id_at old.desk number) seen new.jobs × (new.desk ≡ old.desk) };

    ghost takes = { λ old taken new. (taken ≡ None) × (new ≡ old) };

    fn start(&mut self, alloc: Global, number: u64, job: Job) -> Result<(), u8> {
        let id = JobId {
            desk: self.desk,
            number,
        };
        match self.jobs.start(alloc, id, job) {
            Ok(()) => Ok(()),
            Err(refused) => Err(refused.code),
        }
    }

    fn look(&mut self, number: u64) -> Progress {
        self.jobs.look(JobId {
            desk: self.desk,
            number,
        })
    }

    fn take(&mut self) -> Option<(u64, Result<Report, u8>)> {
        None
    }
}
