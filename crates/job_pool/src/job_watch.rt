//! Whoever is told of the jobs that a pool runs.

use credit_book::Report;
use job_core::Job;
use server_state::JobId;
use std::time::Instant;

/// The connection that asked for a job, if one did, and since when the job waits.
#[derive(Drop)]
pub struct JobOrigin {
    pub connection: Option<u64>,
    pub since: Option<Instant>,
}

/// Is told when a job comes into the queue, when it is run, and when it is over.
pub trait JobWatch<R> {
    /// A job comes into the queue now.
    fn queued(&self, rt: &R) -> JobOrigin;

    /// A worker runs the job from now on. The moment, if it is needed at the end.
    fn begun(&self, rt: &R, id: JobId, job: &Job, origin: &JobOrigin) -> Option<Instant>;

    /// The job is over, which was begun at this moment.
    fn ended(&self, rt: &R, id: JobId, end: &Result<Report, u8>, begun: Option<Instant>);
}
