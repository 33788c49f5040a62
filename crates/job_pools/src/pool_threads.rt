//! The workers of a lasting pool, each in a thread of its own.

ghost use Rattle.std.specs.Prelude.{◌≡◌, ◌≤◌, length};
ghost use Rattle.job_pools.specs.Queues.{AnswersEach};

use crate::job_seats::RegisterId;
use crate::queued_job::{EndedJob, QueuedJob};
use crate::queues::Inlet;
use crate::turn_ends::TurnOutlet;
use server_log::{ServerLog, millis_since};
use std::sync::Wait;
use std::thread::{Scope, Threads};
use std::time::Clock;

// Runs a job, a large one on so many threads, and tells a log of it.
fn run_told<R: Threads + Wait + Clock + Sync, J: RegisterId>(
    rt: &R,
    job: QueuedJob<J>,
    workers: u32,
    log: &ServerLog,
) -> EndedJob<J>
    requires { (1 ≤ workers) × (workers ≤ 16) }
    ensures { result ≡ job.seat }
{
    log.tell(rt, job.event(millis_since(rt, job.since)));
    let begun = log.moment(rt);
    let ended = job.run(rt, workers);
    log.tell(rt, ended.event(millis_since(rt, begun)));
    ended
}

// What a worker does: it runs jobs, one after the other, a large one on so many threads, and gives
// back what each came to, until no more can come, or nobody takes ends any more.
fn work<R: Threads + Wait + Clock + Sync, J: RegisterId>(
    rt: &R,
    jobs: &mut TurnOutlet<QueuedJob<J>, J>,
    endings: &mut Inlet<EndedJob<J>>,
    workers: u32,
    log: &ServerLog,
)
    requires { (1 ≤ workers) × (workers ≤ 16) }
    ensures { AnswersEach jobs.old jobs.new endings.old endings.new }
{
    for _ in rt.forever() {
        let Some(job) = jobs.take(rt) else {
            return;
        };
        let Ok(()) = endings.put(rt, run_told(rt, job, workers, log)) else {
            return;
        };
    }
}

/// Starts a worker for each of these ends of the queue of jobs, and tells how many could be started.
/// They end once the queue is closed: none begins with a job that waits then. A log is told of each
/// job. A large job is run on so many threads, 1 to 16.
pub fn start_workers<'s, E: 's, R: Threads + Wait + Clock + Sync, J: RegisterId + Send + Sync + 's>(
    rt: &'s R,
    scope: &Scope<'s, E>,
    jobs: Vec<TurnOutlet<QueuedJob<J>, J>>,
    endings: Inlet<EndedJob<J>>,
    workers: u32,
    log: &'s ServerLog,
) -> usize
    requires { (1 ≤ workers) × (workers ≤ 16) }
    ensures { result ≤ length jobs.items }
{
    let mut endings = endings;
    let mut started = 0;
    'starting: for outlet in jobs {
        let Ok(inlet) = endings.another() else {
            continue;
        };
        let worker = move ||
            requires { (1 ≤ workers) × (workers ≤ 16) }
        {
            let mut outlet = outlet;
            let mut inlet = inlet;
            work(rt, &mut outlet, &mut inlet, workers, log)
        };
        if scope.spawn(worker).is_ok() {
            started += 1;
        }
    }
    started
}
