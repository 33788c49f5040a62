//! What a job's thread promises at its start.

use credit_book::Report;
use job_core::Job;
use std::snapshot::Snapshot;
use std::thread::{Promise, PromisedHandle};

/// The promise of a job's thread: the report of a whole run of this job under this number, or the
/// number of what it failed by.
#[derive(Drop)]
pub struct EndOf {
    pub(crate) number: u64,
    pub(crate) job: Snapshot<Job>,
}

impl Promise<Result<Report, u8>> for EndOf {
    ghost use Rattle.job_pools.specs.Endings.{IsReportedEnd};

    ghost kept_by = { λ promise end. IsReportedEnd promise.number promise.job.value end };
}

/// A job's thread, which has promised the job's end.
pub type JobThread = PromisedHandle<Result<Report, u8>, EndOf>;
