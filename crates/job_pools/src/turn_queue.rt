//! A queue of flows that have their turns: first in, first out within a flow, and one of each flow
//! in turn.

ghost use Rattle.std.specs.Prelude.{◌≡◌, ◌≢◌, ◌<◌, ◌≤◌, ◌+◌, ◌++◌, ◌∷◌, ℕ, [], true, Some, IfSome, IfNone, IfErr, OnErr, OnOk, MatchOption, MatchResult, length, slice_index_or, set, nat_le};
ghost use Rattle.std.specs.VecDeque.{deque_capacity, deque_len};
ghost use Rattle.job_pools.specs.Turns.{AreFlows, TakesNext, WaitingFlow, put_behind, rest_of_flow, waiting_count};

use std::alloc::Global;
use std::collections::VecDeque;
use std::marker::Model;

/// How many may wait in a queue.
const ROOM: usize = 16_384;

/// The items of a flow that wait. Contracts see them as the flow.
#[derive(Drop)]
pub struct WaitingJobs<T> {
    number: u64,
    waiting: VecDeque<T>,
}

impl<T> Model for WaitingJobs<T> {
    ghost use Rattle.job_pools.specs.Turns.{WaitingFlow};

    ghost Value = { WaitingFlow T };

    ghost view = { λ f. record { number = f.number; waiting = f.waiting.items } };
}

/// An item that was not put into a queue: since the queue was full, or since there was no memory.
#[derive(Drop)]
pub struct NotPut<T> {
    pub item: T,
    pub was_full: bool,
}

/// Items that wait for their turns. Contracts see them as flows, the one whose turn it is in front.
#[derive(Drop)]
pub struct TurnQueue<T> {
    alloc: Global,
    flows: VecDeque<WaitingJobs<T>>,
    count: usize,
}

impl<T> Model for TurnQueue<T> {
    ghost use Rattle.std.specs.Prelude.{◌≡◌, List};
    ghost use Rattle.job_pools.specs.Turns.{AreFlows, WaitingFlow, waiting_count};

    ghost Value = { List (WaitingFlow T) };

    ghost view = { λ q. q.flows.items };

    ghost invariant = { λ q. AreFlows q.flows.items × (q.count ≡ waiting_count q.flows.items) };
}

// The place of a flow of which something waits.
fn place_of<T>(flows: &VecDeque<WaitingJobs<T>>, number: u64) -> Option<usize>
    ensures some { IfSome result (λ at. (at < length flows.now.items)
        × ((d : WaitingFlow T) → (slice_index_or flows.now.items at d).number ≡ number)) }
    ensures none { IfNone result ((at : ℕ) (d : WaitingFlow T) → at < length flows.now.items
        → (slice_index_or flows.now.items at d).number ≢ number) }
{
    let mut at = 0;
    while at < flows.len() {
        if flows[at].number == number {
            return Some(at);
        }
        at += 1;
    }
    None
}

// Puts an item behind those of the flow at this place.
fn put_at<T: Drop>(flows: &mut VecDeque<WaitingJobs<T>>, at: usize, item: T) -> Result<(), T>
    requires { at < length flows.old.items }
    ensures { MatchResult result
        (λ _. (old : WaitingFlow T) × ((d : WaitingFlow T) → slice_index_or flows.old.items at d ≡ old)
        × (flows.new.items ≡ set flows.old.items at (record { number = old.number; waiting = old.waiting ++ item ∷ [] })))
        (λ back. (back ≡ item) × (flows.new.items ≡ flows.old.items)) }
{
    match flows.get_mut(at) {
        Some(flow) => match flow.waiting.push_back(item) {
            Ok(()) => Ok(()),
            Err(failed) => Err(failed.value),
        },
        None => unreachable!(),
    }
}

// Puts an item into a new flow, behind all others.
fn put_last<T: Drop>(
    alloc: Global,
    flows: &mut VecDeque<WaitingJobs<T>>,
    number: u64,
    item: T,
) -> Result<(), T>
    ensures { MatchResult result
        (λ _. flows.new.items ≡ flows.old.items ++ record { number = number; waiting = item ∷ [] } ∷ [])
        (λ back. (back ≡ item) × (flows.new.items ≡ flows.old.items)) }
{
    if flows.reserve(1).is_err() {
        return Err(item);
    }
    let mut waiting = VecDeque::new(alloc);
    match waiting.push_back(item) {
        Ok(()) => {
            flows.push_back_reserved(WaitingJobs { number, waiting });
            Ok(())
        }
        Err(failed) => Err(failed.value),
    }
}

// Puts an item behind those of its flow, or into a new one.
fn put_in_flow<T: Drop>(
    alloc: Global,
    flows: &mut VecDeque<WaitingJobs<T>>,
    number: u64,
    item: T,
) -> Result<(), T>
    requires { AreFlows flows.old.items }
    ensures { MatchResult result
        (λ _. flows.new.items ≡ put_behind number item flows.old.items)
        (λ back. (back ≡ item) × (flows.new.items ≡ flows.old.items)) }
{
    match place_of(flows, number) {
        Some(at) => put_at(flows, at, item),
        None => put_last(alloc, flows, number, item),
    }
}

// Puts what is left of a flow behind all others.
fn put_left<T: Drop>(flows: &mut VecDeque<WaitingJobs<T>>, number: u64, waiting: VecDeque<T>)
    requires { deque_len flows.old < deque_capacity flows.old }
    ensures { flows.new.items ≡ flows.old.items ++ rest_of_flow number waiting.items }
{
    if waiting.is_empty() {
        return;
    }
    flows.push_back_reserved(WaitingJobs { number, waiting });
}

impl<T: Drop> TurnQueue<T> {
    ghost use Rattle.std.specs.Prelude.{◌≡◌, []};

    /// Nothing waits yet.
    pub fn new(alloc: Global) -> TurnQueue<T>
        ensures { result ≡ [] }
    {
        TurnQueue {
            alloc,
            flows: VecDeque::new(alloc),
            count: 0,
        }
    }

    /// How many items wait.
    pub fn count(&self) -> usize
        ensures { result ≡ waiting_count self.now }
    {
        self.count
    }

    /// Puts an item behind those of its flow. A flow of which nothing waited goes behind all others.
    /// The item comes back where 16,384 wait, or where there is no memory, and nothing changes.
    pub fn put(&mut self, number: u64, item: T) -> Result<(), NotPut<T>>
        ensures { MatchResult result
            (λ _. (self.new ≡ put_behind number item self.old) × (waiting_count self.old < 16384))
            (λ back. (back.item ≡ item) × (self.new ≡ self.old)
            × (back.was_full ≡ nat_le 16384 (waiting_count self.old))) }
    {
        if self.count >= ROOM {
            return Err(NotPut {
                item,
                was_full: true,
            });
        }
        match put_in_flow(self.alloc, &mut self.flows, number, item) {
            Ok(()) => {
                self.count += 1;
                Ok(())
            }
            Err(item) => Err(NotPut {
                item,
                was_full: false,
            }),
        }
    }

    /// Takes the first item of the flow whose turn it is, with the flow's number. The flow goes
    /// behind the others, if more of it waits.
    pub fn take(&mut self) -> Option<(u64, T)>
        ensures { MatchOption result ((self.old ≡ []) × (self.new ≡ self.old))
            (λ taken. TakesNext self.old taken.0 taken.1 self.new) }
    {
        let WaitingJobs {
            number,
            mut waiting,
        } = self.flows.pop_front()?;
        match waiting.pop_front() {
            Some(item) => {
                put_left(&mut self.flows, number, waiting);
                self.count -= 1;
                Some((number, item))
            }
            None => unreachable!(),
        }
    }
}
