//! A job of a desk: whose it is, and how it stands.

ghost use Rattle.std.specs.Prelude.{◌≡◌, ◌≤◌, false, true, IfOk, Ok};
ghost use Rattle.credit_book.specs.declared.book.Report.{Report};
ghost use Rattle.accounts.specs.Jobs.{report_of, settled, spent_by_job, is_open};
ghost use Rattle.accounts.specs.Limits.{bytes_in};

use crate::kept_report::{KeptReport, SharedReport};
use credit_book::Report;
use refusal::NoMemory;
use std::alloc::Global;

// The bytes of a report that count for each of its tasks.
const BYTES_PER_TASK: u128 = 40;

/// How a job stands.
#[derive(Drop)]
pub enum JobStanding {
    /// It isn't over: its credit is neither spent nor back.
    Open,
    /// It came to this.
    Reported(KeptReport),
    /// It failed with the refusal of this number.
    Failed(u8),
}

impl JobStanding {
    /// Whether the job isn't over.
    pub fn is_open(&self) -> bool
        ensures { result ≡ is_open self.now }
    {
        match self {
            JobStanding::Open => true,
            _ => false,
        }
    }

    /// What the job spent, once it is over.
    pub fn spent(&self) -> u32
        ensures { result ≡ spent_by_job self.now }
    {
        match self {
            JobStanding::Reported(report) => report.get().spent,
            _ => 0,
        }
    }

    /// The bytes that the job's report holds: those of its buffer, and 40 for each task.
    pub fn held_bytes(&self) -> u128
        ensures { result ≡ bytes_in self.now }
    {
        match self {
            JobStanding::Reported(report) => {
                let report = report.get();
                report.buffer.len() as u128 + BYTES_PER_TASK * report.tasks.len() as u128
            }
            _ => 0,
        }
    }

    /// The report of a job that has one, for one holder more.
    pub(crate) fn share(&mut self, alloc: Global) -> Result<SharedReport, NoMemory>
        requires { (report : Report) × (report_of self.old ≡ Ok report) }
        ensures shared { IfOk result (λ report. report_of self.old ≡ Ok report) }
        ensures same { self.new ≡ self.old }
    {
        match self {
            JobStanding::Reported(report) => report.share(alloc),
            _ => unreachable!(),
        }
    }
}

/// A job: whose it is, its credit, and how it stands.
#[derive(Drop)]
pub struct JobEntry {
    pub tenant: String,
    pub credit: u32,
    pub standing: JobStanding,
}

impl JobEntry {
    ghost use Rattle.accounts.specs.Forgetting.{IsGone};

    /// Whether this is the entry of a forgotten job.
    pub fn is_gone(&self) -> bool
        ensures yes { result ≡ true → IsGone self.now }
        ensures no { result ≡ false → IsGone self.now → ⊥ }
    {
        match &self.standing {
            JobStanding::Open => false,
            JobStanding::Reported(_) => false,
            JobStanding::Failed(code) => {
                *code == 76 && self.credit == 0 && self.tenant.is_empty()
            }
        }
    }
}

/// How a job of this credit stands once it is over.
pub fn settle(credit: u32, outcome: Result<Report, u8>) -> JobStanding
    ensures settled { result ≡ settled credit outcome }
    ensures within { spent_by_job result ≤ credit }
    ensures over { is_open result ≡ false }
{
    match outcome {
        Ok(report) => {
            if u64::from(report.spent) + u64::from(report.returned) == u64::from(credit) {
                JobStanding::Reported(KeptReport::new(report))
            } else {
                JobStanding::Failed(82)
            }
        }
        Err(code) => JobStanding::Failed(code),
    }
}
