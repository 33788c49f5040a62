//! The queue of a pool, under its lock: the jobs that wait, the ends that nobody has collected, and
//! the history that leads to both.

ghost use Rattle.std.specs.Prelude.{◌≡◌, ◌∷◌, ◌++◌, [], IfOk, IfSome, MatchOption, MatchResult, ℕ, length, option_to_list};
ghost use Rattle.job_pool.specs.PoolSteps.{job_ended, job_taken, over_steps};
ghost use Rattle.job_pool.specs.SeatSteps.{CollectsEnd, with_step};
ghost use Rattle.job_pool.specs.declared.pool_step.PoolStep.TheVariants.{Ended, Put, Started, Taken};

use crate::fair_queue::FairQueue;
use crate::pool_step::{PoolMark, PoolStep};
use crate::pooled_run::{FinishedRun, PooledEnd, PooledRun};
use credit_book::Report;
use seat_log::{LogKeeper, LogName, LogSeat, SharedLog};
use server_state::JobId;
use std::alloc::Global;
use std::collections::LinkedList;
use std::marker::Model;
use std::sync::Wait;

/// What lies under the lock of a pool.
#[derive(Drop)]
pub(crate) struct PoolQueue<J: LogName> {
    turns: FairQueue<PooledRun<J>>,
    over: LinkedList<PooledEnd<J>>,
    keeper: LogKeeper<PoolStep, J>,
    is_closed: bool,
}

impl<J: LogName> Model for PoolQueue<J> {
    ghost use Rattle.job_pool.specs.PoolSteps.{IsPoolHistory};

    ghost Value = { Unit {0} };

    ghost view = { λ _. tt };

    ghost invariant = { λ q. IsPoolHistory q.keeper q.turns q.over };
}

// Appends a list, which takes no memory. A list of 2^63 elements would wait for room.
fn append<R: Wait, T>(rt: &R, list: &mut LinkedList<T>, more: LinkedList<T>)
where
    T: Drop,
    ensures { list.new ≡ list.old ++ more }
{
    let mut rest = more;
    for _ in rt.forever() {
        if list.append(&mut rest).is_ok() {
            return;
        }
    }
    unreachable!()
}

impl<J: LogName> PoolQueue<J> {
    ghost use Rattle.std.specs.Prelude.{◌≡◌, []};

    /// Nothing waits yet, and nothing is over.
    pub fn new(alloc: Global, keeper: LogKeeper<PoolStep, J>) -> PoolQueue<J>
        requires { keeper ≡ [] }
    {
        PoolQueue {
            turns: FairQueue::new(alloc),
            over: LinkedList::new(alloc),
            keeper,
            is_closed: false,
        }
    }

    /// Starts a job under its ticket.
    pub fn enter(
        &mut self,
        log: &SharedLog<PoolStep, J>,
        seat: &mut LogSeat<PoolStep, J>,
        started: PoolMark,
    )
        ensures { seat.new ≡ with_step seat.old (Started started) }
    {
        log.add(seat, &mut self.keeper, &PoolStep::Started(started));
    }

    /// Puts a job behind those of its desk. Without memory it is returned, and is not put.
    pub fn put(
        &mut self,
        log: &SharedLog<PoolStep, J>,
        seat: &mut LogSeat<PoolStep, J>,
        waiting: PooledRun<J>,
    ) -> Result<(), PooledRun<J>>
        ensures { MatchResult result (λ _. seat.new ≡ with_step seat.old (Put waiting))
            (λ back. (back ≡ waiting) × (seat.new ≡ seat.old)) }
    {
        let mark = waiting.mark();
        match self.turns.put(u64::from(waiting.id.desk), waiting) {
            Ok(()) => {
                log.add(seat, &mut self.keeper, &PoolStep::Put(mark));
                Ok(())
            }
            Err(back) => Err(back),
        }
    }

    /// Takes the job whose turn it is; none where nothing waits, or the pool is closed.
    pub fn take(
        &mut self,
        log: &SharedLog<PoolStep, J>,
        seat: &mut LogSeat<PoolStep, J>,
    ) -> Option<PooledRun<J>>
        ensures { MatchOption result (seat.new ≡ seat.old)
            (λ run. (flow : ℕ) × (seat.new ≡ with_step seat.old (Taken flow run))) }
    {
        if self.is_closed {
            return None;
        }
        let (flow, first) = self.turns.take()?;
        let taken = PoolStep::Taken(flow, first.mark());
        log.add(seat, &mut self.keeper, &taken);
        Some(first)
    }

    /// Tells the end of a job, for which there is room.
    pub fn tell<R: Wait>(
        &mut self,
        rt: &R,
        log: &SharedLog<PoolStep, J>,
        seat: &mut LogSeat<PoolStep, J>,
        done: FinishedRun<J>,
    )
        ensures { seat.new ≡ with_step seat.old (Ended done) }
    {
        let (mark, room) = done.into_parts();
        log.add(seat, &mut self.keeper, &PoolStep::Ended(mark));
        append(rt, &mut self.over, room);
    }

    /// Tells the end of a job, if there is one.
    pub fn tell_some<R: Wait>(
        &mut self,
        rt: &R,
        log: &SharedLog<PoolStep, J>,
        seat: &mut LogSeat<PoolStep, J>,
        done: Option<FinishedRun<J>>,
    ) -> bool
        ensures ended { over_steps job_ended seat.new.part
            ≡ over_steps job_ended seat.old.part ++ option_to_list done }
        ensures taken { over_steps job_taken seat.new.part
            ≡ over_steps job_taken seat.old.part }
    {
        match done {
            Some(done) => {
                self.tell(rt, log, seat, done);
                true
            }
            None => false,
        }
    }

    /// The end of a job that was told and not yet collected, in the order of their ends: the ticket of
    /// the job's start, its name, and what it came to.
    pub fn collect(
        &mut self,
        log: &SharedLog<PoolStep, J>,
        seat: &mut LogSeat<PoolStep, J>,
    ) -> Option<(u64, JobId, Result<Report, u8>)>
        requires { seat.old.number ≡ 0 }
        ensures { MatchOption result (seat.new ≡ seat.old)
            (λ told. CollectsEnd seat.old told.0 told.1 told.2 seat.new) }
    {
        let ended = self.over.pop_front()?;
        log.add(seat, &mut self.keeper, &ended);
        let PooledEnd {
            ticket,
            id,
            end,
            note,
        } = ended;
        log.read(seat, note);
        Some((ticket, id, end))
    }

    /// Whether a worker has to wait.
    pub fn is_idle(&self) -> bool {
        self.turns.is_empty() && !self.is_closed
    }

    /// Whether the end of a job waits to be collected.
    pub fn has_ends(&self) -> bool {
        !self.over.is_empty()
    }

    /// Whether the pool is closed.
    pub fn is_closed(&self) -> bool {
        self.is_closed
    }

    /// No job is taken from now on.
    pub fn close(&mut self) {
        self.is_closed = true;
    }
}
