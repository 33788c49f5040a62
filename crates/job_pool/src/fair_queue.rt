//! A queue of flows that have their turns: first in, first out within a flow, and one of each flow
//! in turn.

ghost use Rattle.std.specs.Prelude.{◌≡◌, ◌≢◌, ◌<◌, ◌↔◌, ◌++◌, ◌∷◌, ℕ, [], IfSome, IfNone, IsTrue, MatchOption, MatchResult, length, slice_index_or, set};
ghost use Rattle.std.specs.VecDeque.{deque_capacity, deque_len};
ghost use Rattle.job_pool.specs.FairTurns.{AreFairFlows, TakesTurn, FairFlow, queued_behind, flow_left};

use std::alloc::Global;
use std::collections::VecDeque;
use std::marker::Model;

/// The items of a flow that wait. Contracts see them as the flow.
#[derive(Drop)]
pub struct FlowItems<T> {
    number: u64,
    waiting: VecDeque<T>,
}

impl<T> Model for FlowItems<T> {
    ghost use Rattle.job_pool.specs.FairTurns.{FairFlow};

    ghost Value = { FairFlow T };

    ghost view = { λ f. record { number = f.number; waiting = f.waiting.items } };
}

/// Items that wait for their turns. Contracts see them as flows, the one whose turn it is in front.
#[derive(Drop)]
pub struct FairQueue<T> {
    alloc: Global,
    flows: VecDeque<FlowItems<T>>,
}

impl<T> Model for FairQueue<T> {
    ghost use Rattle.std.specs.Prelude.{List};
    ghost use Rattle.job_pool.specs.FairTurns.{AreFairFlows, FairFlow};

    ghost Value = { List (FairFlow T) };

    ghost view = { λ q. q.flows.items };

    ghost invariant = { λ q. AreFairFlows q.flows.items };
}

// The place of a flow of which something waits.
fn place_of<T>(flows: &VecDeque<FlowItems<T>>, number: u64) -> Option<usize>
    ensures some { IfSome result (λ at. (at < length flows.now.items)
        × ((d : FairFlow T) → (slice_index_or flows.now.items at d).number ≡ number)) }
    ensures none { IfNone result ((at : ℕ) (d : FairFlow T) → at < length flows.now.items
        → (slice_index_or flows.now.items at d).number ≢ number) }
{
    let mut at = 0;
    while at < flows.len() {
        if flows[at].number == number {
            return Some(at);
        }
        at += 1;
    }
    None
}

// Puts an item behind those of the flow at this place.
fn put_at<T: Drop>(flows: &mut VecDeque<FlowItems<T>>, at: usize, item: T) -> Result<(), T>
    requires { at < length flows.old.items }
    ensures { MatchResult result
        (λ _. (old : FairFlow T) × ((d : FairFlow T) → slice_index_or flows.old.items at d ≡ old)
        × (flows.new.items ≡ set flows.old.items at (record { number = old.number; waiting = old.waiting ++ item ∷ [] })))
        (λ back. (back ≡ item) × (flows.new.items ≡ flows.old.items)) }
{
    match flows.get_mut(at) {
        Some(flow) => match flow.waiting.push_back(item) {
            Ok(()) => Ok(()),
            Err(failed) => Err(failed.value),
        },
        None => unreachable!(),
    }
}

// Puts an item into a new flow, behind all others.
fn put_last<T: Drop>(
    alloc: Global,
    flows: &mut VecDeque<FlowItems<T>>,
    number: u64,
    item: T,
) -> Result<(), T>
    ensures { MatchResult result
        (λ _. flows.new.items ≡ flows.old.items ++ record { number = number; waiting = item ∷ [] } ∷ [])
        (λ back. (back ≡ item) × (flows.new.items ≡ flows.old.items)) }
{
    if flows.reserve(1).is_err() {
        return Err(item);
    }
    let mut waiting = VecDeque::new(alloc);
    match waiting.push_back(item) {
        Ok(()) => {
            flows.push_back_reserved(FlowItems { number, waiting });
            Ok(())
        }
        Err(failed) => Err(failed.value),
    }
}

// Puts an item behind those of its flow, or into a new one.
fn put_in_flow<T: Drop>(
    alloc: Global,
    flows: &mut VecDeque<FlowItems<T>>,
    number: u64,
    item: T,
) -> Result<(), T>
    requires { AreFairFlows flows.old.items }
    ensures { MatchResult result
        (λ _. flows.new.items ≡ queued_behind number item flows.old.items)
        (λ back. (back ≡ item) × (flows.new.items ≡ flows.old.items)) }
{
    match place_of(flows, number) {
        Some(at) => put_at(flows, at, item),
        None => put_last(alloc, flows, number, item),
    }
}

// Puts what is left of a flow behind all others.
fn put_left<T: Drop>(flows: &mut VecDeque<FlowItems<T>>, number: u64, waiting: VecDeque<T>)
    requires { deque_len flows.old < deque_capacity flows.old }
    ensures { flows.new.items ≡ flows.old.items ++ flow_left number waiting.items }
{
    if waiting.is_empty() {
        return;
    }
    flows.push_back_reserved(FlowItems { number, waiting });
}

impl<T: Drop> FairQueue<T> {
    ghost use Rattle.std.specs.Prelude.{◌≡◌, []};

    /// Nothing waits yet.
    pub fn new(alloc: Global) -> FairQueue<T>
        ensures { result ≡ [] }
    {
        FairQueue {
            alloc,
            flows: VecDeque::new(alloc),
        }
    }

    /// Whether nothing waits.
    pub fn is_empty(&self) -> bool
        ensures { IsTrue result ↔ (self.now ≡ []) }
    {
        self.flows.is_empty()
    }

    /// Puts an item behind those of its flow. A flow of which nothing waited goes behind all others.
    /// The item comes back where there is no memory, and nothing changes.
    pub fn put(&mut self, number: u64, item: T) -> Result<(), T>
        ensures { MatchResult result (λ _. self.new ≡ queued_behind number item self.old)
            (λ back. (back ≡ item) × (self.new ≡ self.old)) }
    {
        put_in_flow(self.alloc, &mut self.flows, number, item)
    }

    /// Takes the first item of the flow whose turn it is, with the flow's number. The flow goes
    /// behind the others, if more of it waits.
    pub fn take(&mut self) -> Option<(u64, T)>
        ensures { MatchOption result ((self.old ≡ []) × (self.new ≡ self.old))
            (λ taken. TakesTurn self.old taken.0 taken.1 self.new) }
    {
        let FlowItems {
            number,
            mut waiting,
        } = self.flows.pop_front()?;
        match waiting.pop_front() {
            Some(item) => {
                put_left(&mut self.flows, number, waiting);
                Some((number, item))
            }
            None => unreachable!(),
        }
    }
}
