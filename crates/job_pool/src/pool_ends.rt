//! The ends of a pool's queue between threads: the port by which jobs come and ends are collected,
//! the workers', and what waits for ends and closes the pool.

ghost use Rattle.std.specs.Prelude.{◌≡◌, ◌++◌, [], All, IfOk, MatchOption, MatchResult, length, option_to_list};
ghost use mathlib.Core.List.{IsPrefix};
ghost use Rattle.job_pool.specs.PoolSteps.{job_ended, job_taken, over_steps};
ghost use Rattle.job_pool.specs.SeatSteps.{CollectsEnd, no_steps, with_step};
ghost use Rattle.job_pool.specs.declared.pool_step.PoolStep.TheVariants.{Put, Started};

use crate::pool_queue::PoolQueue;
use crate::pool_step::{PoolMark, PoolStep};
use crate::pooled_run::{FinishedRun, PooledRun};
use credit_book::Report;
use refusal::NoMemory;
use seat_log::{LogName, LogNote, LogOpener, LogSeat, NewLog, SharedLog};
use server_state::JobId;
use std::alloc::Global;
use std::marker::Model;
use std::sync::{Arc, Condvar, Mutex, Wait};

/// The queue, which threads share, and whom a change of it wakes.
#[derive(Drop)]
pub(crate) struct PoolLock<J: LogName> {
    queue: Mutex<PoolQueue<J>>,
    work: Condvar,
    ends: Condvar,
    log: SharedLog<PoolStep, J>,
}

/// The end by which jobs come into the queue and ends are collected. Contracts see its steps.
#[derive(Drop)]
pub struct PoolPort<J: LogName> {
    lock: Arc<PoolLock<J>>,
    seat: LogSeat<PoolStep, J>,
}

impl<J: LogName> Model for PoolPort<J> {
    ghost use Rattle.std.specs.Prelude.{◌≡◌};
    ghost use Rattle.seat_log.specs.Seated.{SeatPart};
    ghost use Rattle.job_pool.specs.declared.pool_step.PoolStep.{PoolStep};

    ghost Value = { SeatPart PoolStep };

    ghost view = { λ p. p.seat };

    ghost invariant = { λ p. p.seat.number ≡ 0 };
}

/// A worker's end of the queue. Contracts see its steps.
#[derive(Drop)]
pub struct PoolWorker<J: LogName> {
    lock: Arc<PoolLock<J>>,
    seat: LogSeat<PoolStep, J>,
}

impl<J: LogName> Model for PoolWorker<J> {
    ghost use Rattle.seat_log.specs.Seated.{SeatPart};
    ghost use Rattle.job_pool.specs.declared.pool_step.PoolStep.{PoolStep};

    ghost Value = { SeatPart PoolStep };

    ghost view = { λ w. w.seat };
}

/// Waits for ends, and closes the pool.
#[derive(Drop)]
pub struct PoolSignal<J: LogName> {
    lock: Arc<PoolLock<J>>,
}

impl<J: LogName> PoolPort<J> {
    ghost use Rattle.std.specs.Prelude.{◌≡◌};

    /// Starts a job under its ticket.
    pub(crate) fn enter<R: Wait>(&mut self, rt: &R, started: PoolMark)
        ensures { self.new ≡ with_step self.old (Started started) }
    {
        let lock: &PoolLock<J> = &self.lock;
        lock.queue
            .lock(rt)
            .enter(&lock.log, &mut self.seat, started);
    }

    /// A note of the steps so far.
    pub(crate) fn note(&mut self) -> LogNote<PoolStep, J>
        ensures note { (result.number ≡ 0) × (result.part ≡ self.old.part) }
        ensures same { self.new ≡ self.old }
    {
        let lock: &PoolLock<J> = &self.lock;
        lock.log.note(&mut self.seat)
    }

    /// A note of this port has its first steps.
    pub(crate) fn read(&mut self, note: LogNote<PoolStep, J>)
        requires { note.number ≡ 0 }
        ensures same { self.new ≡ self.old }
        ensures begins { IsPrefix note.part self.old.part }
    {
        let lock: &PoolLock<J> = &self.lock;
        lock.log.read(&mut self.seat, note);
    }

    /// Puts a job behind those of its desk. It is returned, and not put, where there is no memory. A
    /// closed pool takes it too, and runs it no more than those that wait then.
    pub(crate) fn put<R: Wait>(&mut self, rt: &R, waiting: PooledRun<J>) -> Result<(), PooledRun<J>>
        ensures { MatchResult result (λ _. self.new ≡ with_step self.old (Put waiting))
            (λ back. (back ≡ waiting) × (self.new ≡ self.old)) }
    {
        let lock: &PoolLock<J> = &self.lock;
        let put = lock.queue.lock(rt).put(&lock.log, &mut self.seat, waiting);
        if put.is_ok() {
            lock.work.notify_one();
        }
        put
    }

    /// The end of a job that was told first and not yet collected, if there is one now: the ticket of
    /// the job's start, its name, and what it came to.
    pub(crate) fn collect<R: Wait>(&mut self, rt: &R) -> Option<(u64, JobId, Result<Report, u8>)>
        ensures { MatchOption result (self.new ≡ self.old)
            (λ told. CollectsEnd self.old told.0 told.1 told.2 self.new) }
    {
        let lock: &PoolLock<J> = &self.lock;
        lock.queue.lock(rt).collect(&lock.log, &mut self.seat)
    }
}

impl<J: LogName> PoolWorker<J> {
    ghost use Rattle.std.specs.Prelude.{◌≡◌};

    /// Tells the end of the last job, and takes the next one, once one waits: one visit to the lock.
    /// None once the pool is closed.
    pub(crate) fn next<R: Wait>(
        &mut self,
        rt: &R,
        done: Option<FinishedRun<J>>,
    ) -> Option<PooledRun<J>>
        ensures ended { over_steps job_ended self.new.part
            ≡ over_steps job_ended self.old.part ++ option_to_list done }
        ensures taken { over_steps job_taken self.new.part
            ≡ over_steps job_taken self.old.part ++ option_to_list result }
    {
        let lock: &PoolLock<J> = &self.lock;
        let mut queue = lock.queue.lock(rt);
        if queue.tell_some(rt, &lock.log, &mut self.seat, done) {
            lock.ends.notify_one();
        }
        let mut queue = lock.work.wait_while(rt, queue, |queue| queue.is_idle());
        queue.take(&lock.log, &mut self.seat)
    }
}

impl<J: LogName> PoolSignal<J> {
    /// Waits until the end of a job can be collected, or the pool is closed. Whether one can be.
    pub fn wait<R: Wait>(&self, rt: &R) -> bool {
        let lock: &PoolLock<J> = &self.lock;
        let queue = lock.ends.wait_while(rt, lock.queue.lock(rt), |queue| {
            !queue.has_ends() && !queue.is_closed()
        });
        queue.has_ends()
    }

    /// Closes the pool: workers end once they have told the ends of their jobs. The jobs that wait then
    /// are not run. They stay open.
    pub fn close<R: Wait>(&self, rt: &R) {
        let lock: &PoolLock<J> = &self.lock;
        lock.queue.lock(rt).close();
        lock.work.notify_all();
        lock.ends.notify_all();
    }
}

// One worker's end more.
fn open_worker<J: LogName>(
    shared: &Arc<PoolLock<J>>,
    opener: &mut LogOpener<PoolStep, J>,
) -> Result<PoolWorker<J>, NoMemory>
    ensures { IfOk result (λ worker. worker.part ≡ []) }
{
    let lock: &PoolLock<J> = shared;
    let seat = lock.log.open(opener);
    let lock = Arc::try_clone(shared)?;
    Ok(PoolWorker { lock, seat })
}

/// The port of a new pool, the ends of so many workers, and what waits for ends and closes the pool.
pub fn open_pool<J: LogName>(
    alloc: Global,
    new_log: NewLog<PoolStep>,
    workers: u32,
) -> Result<(PoolPort<J>, Vec<PoolWorker<J>>, PoolSignal<J>), NoMemory>
    requires { new_log ≡ J.table }
    ensures { IfOk result (λ pool. (pool.0 ≡ no_steps 0) × (length pool.1.items ≡ workers)
        × All (λ worker. worker.part ≡ []) pool.1.items) }
{
    let (log, keeper, mut opener) = new_log.named::<J>();
    let seat = log.open(&mut opener);
    let mut ends = Vec::with_capacity(alloc, workers as usize)?;
    let lock = PoolLock {
        queue: Mutex::new(PoolQueue::new(alloc, keeper)),
        work: Condvar::new(),
        ends: Condvar::new(),
        log,
    };
    let lock = Arc::new(alloc, lock)?;
    let signal = PoolSignal {
        lock: Arc::try_clone(&lock)?,
    };
    for _ in 0..workers {
        let worker = open_worker(&lock, &mut opener)?;
        ends.push_reserved(worker);
    }
    Ok((PoolPort { lock, seat }, ends, signal))
}
