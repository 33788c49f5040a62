//! An open job as it is put together from its row.

use job_core::Job;

/// A job that isn't over, with its number.
#[derive(Drop)]
pub struct RestoredJob {
    pub number: u64,
    pub job: Job,
}
