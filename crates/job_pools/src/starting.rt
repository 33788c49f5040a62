//! The thread of a job.

ghost use Rattle.std.specs.Prelude.{◌≡◌, ◌≤◌, IfSome};
ghost use Rattle.job_pools.specs.Endings.{IsReportedEnd};
ghost use Rattle.job_pools.specs.Starting.{IsStarted};

use crate::ending::{EndOf, JobThread};
use crate::job_request::JobRequest;
use credit_book::Report;
use std::snapshot::Snapshot;
use std::sync::Wait;
use std::thread;
use std::thread::Threads;

/// Starts the thread of a job, which runs it on so many workers, 1 to 16, and promises its end.
/// `None`: no thread could be started.
pub fn start_thread<R: Threads + Wait + Copy + Send + Sync + 'static>(
    rt: R,
    request: JobRequest,
    workers: u32,
) -> Option<JobThread>
    requires { (1 ≤ workers) × (workers ≤ 16) }
    ensures { IfSome result (λ thread. IsStarted request thread) }
{
    let promise = EndOf {
        number: request.number,
        job: Snapshot::of(&request.job),
    };
    let work = move || -> Result<Report, u8>
        requires { (1 ≤ workers) × (workers ≤ 16) }
        ensures { IsReportedEnd request.number request.job result }
    { request.run(&rt, workers) };
    thread::spawn_with(&rt, promise, work).ok()
}
