//! A job that waits for its thread, and what it does there.

ghost use Rattle.std.specs.Prelude.{◌≡◌, ◌≤◌};
ghost use Rattle.job_pools.specs.Endings.{IsReportedEnd};

use credit_book::{Post, Report};
use job_core::Job;
use std::alloc::Global;
use std::sync::{Arc, Mutex, Wait};
use std::thread::Threads;
use workers::{OpenGate, run_job};

/// A job that waits for its thread, with the post of its board.
#[derive(Drop)]
pub struct JobRequest {
    pub(crate) alloc: Global,
    pub(crate) number: u64,
    pub(crate) job: Job,
    pub(crate) post: Post,
    pub(crate) is_done: Arc<Mutex<bool>>,
    ghost board: { post.board.job ≡ number },
    ghost credit: { post.board.issued ≡ job.credit },
}

impl JobRequest {
    /// Runs the job on so many workers, 1 to 16, and says under its lock that it is done. What it
    /// came to.
    pub(crate) fn run<R: Threads + Wait + Sync>(self, rt: &R, workers: u32) -> Result<Report, u8>
        requires { (1 ≤ workers) × (workers ≤ 16) }
        ensures { IsReportedEnd self.number self.job result }
    {
        let JobRequest {
            alloc,
            number: _,
            job,
            post,
            is_done,
        } = self;
        let result = run_job(rt, alloc, job, post, workers, &OpenGate);
        *is_done.lock(rt) = true;
        match result {
            Ok(report) => Ok(report),
            Err(fault) => Err(fault.code()),
        }
    }
}
