//! The workers of a pool, each in a thread of its own.

ghost use Rattle.std.specs.Prelude.{◌≡◌, ◌≤◌, length};
ghost use Rattle.job_pool.specs.SeatSteps.{EndsEachTaken};

use crate::job_watch::JobWatch;
use crate::pool_ends::PoolWorker;
use seat_log::LogName;
use std::sync::Wait;
use std::thread::{Scope, Threads};

// The work of a worker: it runs jobs, one after the other, a large one on so many threads, and tells
// the end of each, until the pool is closed.
fn work<R: Threads + Wait + Sync, W: JobWatch<R>, J: LogName>(
    rt: &R,
    worker: &mut PoolWorker<J>,
    threads: u32,
    watch: &W,
)
    requires { (1 ≤ threads) × (threads ≤ 16) }
    ensures { EndsEachTaken worker.old worker.new }
{
    let mut done = None;
    for _ in rt.forever() {
        let Some(job) = worker.next(rt, done) else {
            return;
        };
        done = Some(job.run(rt, threads, watch));
    }
}

/// Starts a thread for each of these workers, and returns how many could be started. They end once the
/// pool is closed. A large job is run on so many threads, 1 to 16.
pub fn start_workers<
    's,
    E: 's,
    R: Threads + Wait + Sync,
    W: JobWatch<R> + Sync + 's,
    J: LogName + Send + Sync + 's,
>(rt: &'s R, scope: &Scope<'s, E>, workers: Vec<PoolWorker<J>>, threads: u32, watch: &'s W) -> usize
    requires { (1 ≤ threads) × (threads ≤ 16) }
    ensures { result ≤ length workers.items }
{
    let mut started = 0;
    'starting: for worker in workers {
        let thread = move ||
            requires { (1 ≤ threads) × (threads ≤ 16) }
        {
            let mut worker = worker;
            work(rt, &mut worker, threads, watch)
        };
        if scope.spawn(thread).is_ok() {
            started += 1;
        }
    }
    started
}
