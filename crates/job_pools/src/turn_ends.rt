//! A queue between threads whose flows have their turns, and its ends, which know what they put into
//! it and what they took out.

ghost use Rattle.std.specs.Prelude.{◌≡◌, ◌%◌, [], All, IfOk, MatchOption, MatchResult, length};
ghost use Rattle.job_pools.specs.Queues.{nothing, with_put, with_taken};
ghost use Rattle.job_pools.specs.TurnHistories.{traffic_of};

use crate::job_seats::RegisterId;
use crate::queues::OfJob;
use crate::turn_history::{EndOpener, EndSeat, NewQueueHistory, QueueHistory, QueueRecorder};
use crate::turn_queue::TurnQueue;
use refusal::NoMemory;
use std::alloc::Global;
use std::marker::Model;
use std::snapshot::Snapshot;
use std::sync::{Arc, Condvar, Mutex, Wait};

/// What belongs to a job and tells its number.
pub trait NumberedJob: OfJob {
    /// The job's number.
    fn number(&self) -> u64
        ensures { result ≡ (Self.job self.now).number };
}

/// What lies under the lock: the jobs that wait, and the history that leads to them.
#[derive(Drop)]
pub(crate) struct TurnState<T: OfJob, J: RegisterId> {
    queue: TurnQueue<T>,
    recorder: QueueRecorder<J>,
    is_closed: bool,
}

impl<T: OfJob, J: RegisterId> Model for TurnState<T, J> {
    ghost use Rattle.job_pools.specs.TurnHistories.{LeadsToWaiting};

    ghost Value = { Unit {0} };

    ghost view = { λ _. tt };

    ghost invariant = { λ s. LeadsToWaiting T.job s.recorder s.queue };
}

impl<T: NumberedJob, J: RegisterId> TurnState<T, J> {
    ghost use Rattle.std.specs.Prelude.{◌≡◌, []};

    /// Nothing waits yet.
    pub fn new(alloc: Global, recorder: QueueRecorder<J>) -> TurnState<T, J>
        requires { recorder ≡ [] }
    {
        TurnState {
            queue: TurnQueue::new(alloc),
            recorder,
            is_closed: false,
        }
    }

    /// Puts this in, as a step of this end. It comes back where there is no room or no memory for it
    /// now, or the queue is closed.
    pub fn put(
        &mut self,
        history: &QueueHistory<J>,
        seat: &mut EndSeat<J>,
        item: T,
    ) -> Result<(), T>
        ensures { MatchResult result
            (λ _. traffic_of seat.new.1 ≡ with_put (traffic_of seat.old.1) (T.job item))
            (λ back. (back ≡ item) × (seat.new ≡ seat.old)) }
    {
        if self.is_closed {
            return Err(item);
        }
        let line = item.number() % 1000;
        let put = Snapshot::of(&item);
        match self.queue.put(line, item) {
            Ok(()) => {
                history.add(seat, &mut self.recorder, true, line, &put);
                Ok(())
            }
            Err(not_put) => Err(not_put.item),
        }
    }

    /// Takes what has its turn, as a step of this end; none where nothing waits, or the queue is
    /// closed.
    pub fn take(&mut self, history: &QueueHistory<J>, seat: &mut EndSeat<J>) -> Option<T>
        ensures { MatchOption result (seat.new ≡ seat.old)
            (λ item. traffic_of seat.new.1 ≡ with_taken (traffic_of seat.old.1) (T.job item)) }
    {
        if self.is_closed {
            return None;
        }
        let (flow, item) = self.queue.take()?;
        let taken = Snapshot::of(&item);
        history.add(seat, &mut self.recorder, false, flow, &taken);
        Some(item)
    }

    /// Whether one who takes has to wait.
    pub fn is_idle(&self) -> bool {
        self.queue.count() == 0 && !self.is_closed
    }

    /// Nothing is put in or taken from now on.
    pub fn close(&mut self) {
        self.is_closed = true;
    }
}

/// What the ends share.
#[derive(Drop)]
pub(crate) struct TurnLock<T: OfJob, J: RegisterId> {
    state: Mutex<TurnState<T, J>>,
    changed: Condvar,
    history: QueueHistory<J>,
}

/// An end that puts into a queue. Contracts see what it did.
#[derive(Drop)]
pub struct TurnInlet<T: OfJob, J: RegisterId> {
    shared: Arc<TurnLock<T, J>>,
    seat: EndSeat<J>,
}

impl<T: OfJob, J: RegisterId> Model for TurnInlet<T, J> {
    ghost use Rattle.job_pools.specs.TurnHistories.{traffic_of};
    ghost use Rattle.job_pools.specs.declared.queues.Traffic.{Traffic};

    ghost Value = { Traffic };

    ghost view = { λ i. traffic_of i.seat.1 };
}

/// An end that takes out of a queue. Contracts see what it did.
#[derive(Drop)]
pub struct TurnOutlet<T: OfJob, J: RegisterId> {
    shared: Arc<TurnLock<T, J>>,
    seat: EndSeat<J>,
}

impl<T: OfJob, J: RegisterId> Model for TurnOutlet<T, J> {
    ghost use Rattle.job_pools.specs.TurnHistories.{traffic_of};
    ghost use Rattle.job_pools.specs.declared.queues.Traffic.{Traffic};

    ghost Value = { Traffic };

    ghost view = { λ o. traffic_of o.seat.1 };
}

/// Closes a queue.
#[derive(Drop)]
pub struct TurnCloser<T: OfJob, J: RegisterId> {
    shared: Arc<TurnLock<T, J>>,
}

impl<T: NumberedJob, J: RegisterId> TurnInlet<T, J> {
    /// Puts this behind what waits of its line; a line of which nothing waits goes behind all others.
    /// It comes back where 16,384 wait, where there is no memory, or where the queue is closed.
    pub fn put_now<R: Wait>(&mut self, rt: &R, item: T) -> Result<(), T>
        ensures { MatchResult result (λ _. self.new ≡ with_put self.old (T.job item))
            (λ back. (back ≡ item) × (self.new ≡ self.old)) }
    {
        let shared: &TurnLock<T, J> = &self.shared;
        let put = shared
            .state
            .lock(rt)
            .put(&shared.history, &mut self.seat, item);
        if put.is_ok() {
            shared.changed.notify_one();
        }
        put
    }
}

impl<T: NumberedJob, J: RegisterId> TurnOutlet<T, J> {
    /// What has its turn, once something waits; none once the queue is closed.
    pub fn take<R: Wait>(&mut self, rt: &R) -> Option<T>
        ensures { MatchOption result (self.new ≡ self.old)
            (λ item. self.new ≡ with_taken self.old (T.job item)) }
    {
        let shared: &TurnLock<T, J> = &self.shared;
        let mut state = shared
            .changed
            .wait_while(rt, shared.state.lock(rt), |state| state.is_idle());
        state.take(&shared.history, &mut self.seat)
    }
}

impl<T: NumberedJob, J: RegisterId> TurnCloser<T, J> {
    /// Closes the queue: nothing is put in from now on, and who takes gets nothing more, whatever waits.
    pub fn close<R: Wait>(&self, rt: &R) {
        let shared: &TurnLock<T, J> = &self.shared;
        shared.state.lock(rt).close();
        shared.changed.notify_all();
    }
}

// One end more that takes out.
fn open_outlet<T: OfJob, J: RegisterId>(
    shared: &Arc<TurnLock<T, J>>,
    opener: &mut EndOpener<J>,
) -> Result<TurnOutlet<T, J>, NoMemory>
    ensures { IfOk result (λ outlet. outlet ≡ nothing) }
{
    let lock: &TurnLock<T, J> = shared;
    let seat = lock.history.open(opener);
    let shared = Arc::try_clone(shared)?;
    Ok(TurnOutlet { shared, seat })
}

/// A queue with one end that puts in, so many that take out, and what closes it.
pub fn queue_in_turns<T: NumberedJob, J: RegisterId>(
    alloc: Global,
    new_history: NewQueueHistory,
    takers: u32,
) -> Result<(TurnInlet<T, J>, Vec<TurnOutlet<T, J>>, TurnCloser<T, J>), NoMemory>
    requires { new_history ≡ J.turns }
    ensures { IfOk result (λ ends. (ends.0 ≡ nothing) × (length ends.1.items ≡ takers)
        × All (λ outlet. outlet ≡ nothing) ends.1.items) }
{
    let (history, recorder, mut opener) = new_history.named::<J>();
    let seat = history.open(&mut opener);
    let mut outlets = Vec::with_capacity(alloc, takers as usize)?;
    let lock = TurnLock {
        state: Mutex::new(TurnState::new(alloc, recorder)),
        changed: Condvar::new(),
        history,
    };
    let shared = Arc::new(alloc, lock)?;
    let closer = TurnCloser {
        shared: Arc::try_clone(&shared)?,
    };
    for _ in 0..takers {
        let outlet = open_outlet(&shared, &mut opener)?;
        outlets.push_reserved(outlet);
    }
    Ok((TurnInlet { shared, seat }, outlets, closer))
}
