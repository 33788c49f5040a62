//! The jobs of a desk, as the list of all that it took.

ghost use Rattle.std.specs.Prelude.{◌≡◌, ◌++◌, ◌∷◌, [], ◌+◌, ◌-◌, ◌≤◌, All, List, length, IfOk, Ok, OnOk, OnErr, Some, option_map, slice_set};
ghost use Rattle.credit_book.specs.declared.book.Report.{Report};
ghost use Rattle.accounts.specs.declared.jobs.JobEntry.{JobEntry};
ghost use Rattle.accounts.specs.declared.jobs.JobStanding.TheVariants.{Open};
ghost use Rattle.accounts.specs.Jobs.{job_at};
ghost use Rattle.accounts.specs.Forgetting.{ForgetsJobs, IsGone};
ghost use Rattle.accounts.specs.Ledgers.{report_in};
ghost use Rattle.accounts.specs.Limits.{IsKeptWithin};
ghost use Rattle.accounts.specs.Listing.{listed_from};
ghost use Rattle.accounts.specs.Numbered.{most_jobs};
ghost use Rattle.accounts.specs.Restoring.{IsNextKept};

use crate::jobs::{JobEntry, JobStanding};
use crate::keep_limits::KeepLimits;
use crate::kept_jobs::{KeptJobs, MOST_JOBS, put_job, put_standing, share_report};
use crate::kept_report::SharedReport;
use refusal::NoMemory;
use std::alloc::{AllocError, Global};
use std::collections::BTreeMap;
use std::marker::Model;

/// The jobs of a desk, by their numbers, of which the first is 1.
///
/// Contracts see all, and in the place of each forgotten one the entry of a job that is gone.
#[derive(Drop)]
pub struct Jobs {
    inner: KeptJobs,
}

impl Model for Jobs {
    ghost use Rattle.std.specs.Prelude.{List};
    ghost use Rattle.accounts.specs.declared.jobs.JobEntry.{JobEntry};
    ghost use Rattle.accounts.specs.Numbered.{IsSound, jobs_numbered};

    ghost Value = { List JobEntry };

    ghost view = { λ j. jobs_numbered j.inner };

    ghost invariant = { λ j. IsSound j.inner };
}

impl Jobs {
    /// No job.
    pub fn new(alloc: Global) -> Jobs
        ensures { result ≡ [] }
    {
        Jobs {
            inner: KeptJobs {
                count: 0,
                held: 0,
                gone: JobEntry {
                    tenant: String::new(alloc),
                    credit: 0,
                    standing: JobStanding::Failed(76),
                },
                kept: BTreeMap::new(alloc),
            },
        }
    }

    /// How many there are, with those that are forgotten.
    pub fn count(&self) -> u64
        ensures { result ≡ length self.now }
    {
        self.inner.count
    }

    /// The job of this number.
    pub fn entry(&self, job: u64) -> Option<&JobEntry>
        ensures { option_map (λ e. e.now) result ≡ job_at self.now job }
    {
        if job == 0 {
            return None;
        }
        if job > self.inner.count {
            return None;
        }
        match self.inner.kept.get(&job) {
            Some(entry) => Some(entry),
            None => Some(&self.inner.gone),
        }
    }

    /// A number from this one on, past jobs that are forgotten: what is listed from there on is what
    /// is listed from this one on.
    pub fn kept_from(&self, number: u64) -> u64
        requires { 1 ≤ number }
        ensures later { number ≤ result }
        ensures same { listed_from self.now result ≡ listed_from self.now number }
    {
        self.inner.kept_from(number)
    }

    /// How many jobs may be added yet.
    pub fn room(&self) -> u64
        ensures { length self.now + result ≡ most_jobs }
    {
        MOST_JOBS - self.inner.count
    }

    /// Adds a job behind the others.
    pub fn add(&mut self, entry: JobEntry) -> Result<(), AllocError>
        ensures added { OnOk result (self.new ≡ self.old ++ entry ∷ []) }
        ensures unchanged { OnErr result (self.new ≡ self.old) }
    {
        if self.inner.count >= MOST_JOBS {
            return Err(AllocError);
        }
        let number = self.inner.count + 1;
        let bytes = entry.standing.held_bytes();
        put_job(&mut self.inner.kept, number, entry)?;
        self.inner.count = number;
        self.inner.held += bytes;
        Ok(())
    }

    /// Adds so many forgotten jobs behind the others.
    pub fn add_gone(&mut self, count: u64)
        requires { length self.old + count ≤ most_jobs }
        ensures { (gone : List JobEntry) × (length gone ≡ count) × All IsGone gone
            × (self.new ≡ self.old ++ gone) }
    {
        self.inner.count += count;
    }

    /// The number of the first job from this one on that isn't gone. Where there is none, a number that
    /// no job has: this one, or the first one behind all jobs.
    pub fn next_kept(&self, number: u64) -> u64
        requires { 1 ≤ number }
        ensures { IsNextKept self.now number result }
    {
        let last = self.inner.count;
        let mut next = number;
        while next <= last {
            let here = self.inner.kept_from(next);
            let Some(entry) = self.entry(here) else {
                return last + 1;
            };
            if !entry.is_gone() {
                return here;
            }
            next = here + 1;
        }
        next
    }

    /// Notes how an open job stands.
    pub fn note(&mut self, job: u64, standing: JobStanding)
        requires { (entry : JobEntry) × (job_at self.old job ≡ Some entry)
            × (entry.standing ≡ Open) }
        ensures { (entry : JobEntry) → job_at self.old job ≡ Some entry
            → self.new ≡ slice_set self.old (job - 1) (record entry { standing = standing }) }
    {
        self.inner.held += standing.held_bytes();
        put_standing(&mut self.inner.kept, job, standing);
    }

    /// The report of a job that has one, for one holder more. 99 where there was no memory.
    pub fn share(&mut self, alloc: Global, job: u64) -> Result<SharedReport, NoMemory>
        requires { (report : Report) × (report_in (job_at self.old job) ≡ Ok report) }
        ensures shared { IfOk result
            (λ report. report_in (job_at self.old job) ≡ Ok report) }
        ensures same { self.new ≡ self.old }
    {
        share_report(alloc, &mut self.inner.kept, job)
    }

    /// Forgets each of the first so many jobs that is over.
    pub fn forget(&mut self, ahead: u64)
        ensures { ForgetsJobs self.old ahead self.new }
    {
        self.inner.forget(ahead);
    }

    /// Forgets jobs that are over, the first ones first, until the others are within the limits.
    /// Answers the number of the last one that it forgot, or 0.
    pub fn keep_within(&mut self, limits: KeepLimits) -> u64
        ensures forgets { ForgetsJobs self.old result self.new }
        ensures within { IsKeptWithin limits self.old result self.new }
    {
        self.inner.keep_within(limits)
    }
}
