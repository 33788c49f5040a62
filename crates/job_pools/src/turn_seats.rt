//! What each seat knows of the history of a queue, and the kinds of step.

use crate::job_seats::StartedJob;
use atomic_table::{Join, Play, Split, TableRule};
use std::collections::LinkedList;
use std::marker::{Brand, PhantomData};

/// A step of a queue's history: which end made it, whether it was a put, the flow that it was taken
/// from, and the job. No value of it is made.
pub struct QueueStep {
    pub end: u64,
    pub is_put: bool,
    pub flow: u64,
    pub job: StartedJob,
}

/// What a seat knows. No value of it is made.
///
/// The seat of an end knows the end's part of the history, the recorder the whole history, and the
/// opener how many ends were opened. For the time of a step the seat of an end is the recorder too.
pub struct TurnView {
    pub is_end: bool,
    pub number: u64,
    pub part: LinkedList<QueueStep>,
    pub is_opener: bool,
    pub opened: u64,
    pub is_recorder: bool,
    pub history: LinkedList<QueueStep>,
}

/// There is one history, of which each end knows its part.
pub struct OneQueueHistory;

impl TableRule<(), TurnView, ()> for OneQueueHistory {
    ghost use Rattle.job_pools.specs.TurnRule.{IsQueueHistory, turn_founder};

    ghost holds = { λ _ s. IsQueueHistory s.views };

    ghost first = { λ _. turn_founder };
}

/// A seat becomes the recorder too.
pub struct TakesHistory;

impl Join<TurnView> for TakesHistory {
    ghost use Rattle.job_pools.specs.TurnRule.{with_history, no_turn_view};

    ghost both = { with_history };

    ghost spent = { no_turn_view };
}

/// A seat is the recorder no more.
pub struct LeavesHistory;

impl Split<TurnView> for LeavesHistory {
    ghost use Rattle.job_pools.specs.TurnRule.{without_history, only_history};

    ghost left = { without_history };

    ghost right = { only_history };
}

/// A seat that knows nothing.
pub struct SparesSeat;

impl Split<TurnView> for SparesSeat {
    ghost use Rattle.job_pools.specs.TurnRule.{no_turn_view};

    ghost left = { λ v. v };

    ghost right = { λ _. no_turn_view };
}

/// The opener opens an end.
pub struct OpensEnd;

impl Split<TurnView> for OpensEnd {
    ghost use Rattle.job_pools.specs.TurnRule.{one_end_more, new_end_view};

    ghost left = { one_end_more };

    ghost right = { new_end_view };
}

/// Says which step of the queue may be added. Each call picks it.
pub trait StepRule {
    ghost use Rattle.job_pools.specs.declared.turn_seats.QueueStep.{QueueStep};

    ghost allows: { QueueStep → Type 0 };
}

impl StepRule for Brand {
    ghost allows = { λ _. Unit {0} };
}

/// One step of the queue more, of the end whose seat this is.
pub struct AddsQueueStep<E: StepRule> {
    of: PhantomData<E>,
}

impl<E: StepRule> Play<(), TurnView> for AddsQueueStep<E> {
    ghost use Rattle.job_pools.specs.TurnRule.{AddsStep};

    ghost then = { AddsStep E.allows };
}
