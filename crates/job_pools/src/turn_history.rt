//! The history of a queue, which exists in proofs alone, and the seats of the queue's ends.

ghost use Rattle.std.specs.Prelude.{◌≡◌, ◌+◌, [], ◌∷◌, ◌++◌};
ghost use Rattle.job_pools.specs.declared.turn_seats.QueueStep.{QueueStep};

use crate::job_seats::RegisterId;
use crate::queues::OfJob;
use crate::turn_seats::{
    AddsQueueStep, LeavesHistory, OneQueueHistory, OpensEnd, SparesSeat, StepRule, TakesHistory,
    TurnView,
};
use atomic_table::{Seat, Table};
use refusal::NoMemory;
use std::alloc::Global;
use std::marker::{Brand, Model, PhantomData};
use std::mem;
use std::snapshot::Snapshot;

/// An empty history that has no name yet, with its first seat.
#[derive(Drop)]
pub struct NewQueueHistory {
    table: Table<(), TurnView, (), OneQueueHistory, Global>,
    seat: Seat<(), TurnView>,
}

impl Model for NewQueueHistory {
    ghost use Rattle.std.specs.Prelude.{◌≡◌, []};
    ghost use Rattle.atomic_table.specs.Seated.{TableId};
    ghost use Rattle.job_pools.specs.TurnRule.{turn_founder};

    ghost Value = { TableId };

    ghost view = { λ h. h.table.shared.table_id };

    ghost invariant = { λ h. (h.table.shared.table_id.words ≡ 1)
        × (h.seat.table_id ≡ h.table.shared.table_id) × (h.seat.me ≡ (turn_founder, [])) };
}

/// The word that all steps are made on.
#[derive(Drop)]
pub(crate) struct QueueHistory<J: RegisterId> {
    table: Table<(), TurnView, (), OneQueueHistory, Global>,
    of: PhantomData<J>,
}

impl<J: RegisterId> Model for QueueHistory<J> {
    ghost use Rattle.std.specs.Prelude.{◌≡◌};

    ghost Value = { Unit {0} };

    ghost view = { λ _. tt };

    ghost invariant = { λ h. (h.table.shared.table_id ≡ J.turns)
        × (h.table.shared.table_id.words ≡ 1) };
}

/// What an end knows: its number, and its part of the history.
#[derive(Drop)]
pub(crate) struct EndSeat<J: RegisterId> {
    seat: Seat<(), TurnView>,
    of: PhantomData<J>,
}

impl<J: RegisterId> Model for EndSeat<J> {
    ghost use Rattle.std.specs.Prelude.{◌≡◌, ℕ, List, []};
    ghost use Rattle.job_pools.specs.TurnRule.{end_view};
    ghost use Rattle.job_pools.specs.declared.turn_seats.QueueStep.{QueueStep};

    ghost Value = { ℕ × List QueueStep };

    ghost view = { λ e. (e.seat.me.0.number, e.seat.me.0.part) };

    ghost invariant = { λ e. (e.seat.table_id ≡ J.turns)
        × (e.seat.me ≡ (end_view e.seat.me.0.number e.seat.me.0.part, [])) };
}

/// Knows the whole history.
#[derive(Drop)]
pub(crate) struct QueueRecorder<J: RegisterId> {
    seat: Seat<(), TurnView>,
    of: PhantomData<J>,
}

impl<J: RegisterId> Model for QueueRecorder<J> {
    ghost use Rattle.std.specs.Prelude.{◌≡◌, [], List};
    ghost use Rattle.job_pools.specs.TurnRule.{turn_recorder};
    ghost use Rattle.job_pools.specs.declared.turn_seats.QueueStep.{QueueStep};

    ghost Value = { List QueueStep };

    ghost view = { λ r. r.seat.me.0.history };

    ghost invariant = { λ r. (r.seat.table_id ≡ J.turns)
        × (r.seat.me ≡ (turn_recorder r.seat.me.0.history, [])) };
}

/// Opens ends, and knows how many it has opened.
#[derive(Drop)]
pub(crate) struct EndOpener<J: RegisterId> {
    seat: Seat<(), TurnView>,
    of: PhantomData<J>,
}

impl<J: RegisterId> Model for EndOpener<J> {
    ghost use Rattle.std.specs.Prelude.{◌≡◌, [], ℕ};
    ghost use Rattle.job_pools.specs.TurnRule.{end_opener};

    ghost Value = { ℕ };

    ghost view = { λ o. o.seat.me.0.opened };

    ghost invariant = { λ o. (o.seat.table_id ≡ J.turns)
        × (o.seat.me ≡ (end_opener o.seat.me.0.opened, [])) };
}

impl NewQueueHistory {
    /// An empty history. It may answer that there is no memory.
    pub fn new(alloc: Global) -> Result<NewQueueHistory, NoMemory> {
        match Table::of_words(alloc, &[0], &()) {
            Ok((table, seat)) => Ok(NewQueueHistory { table, seat }),
            Err(_) => Err(NoMemory),
        }
    }

    /// The history under a name, its recorder and its opener.
    pub(crate) fn named<J: RegisterId>(self) -> (QueueHistory<J>, QueueRecorder<J>, EndOpener<J>)
        requires { self ≡ J.turns }
        ensures { (result.1 ≡ []) × (result.2 ≡ 0) }
    {
        let NewQueueHistory { table, mut seat } = self;
        let recording = table.shared.split_seat::<LeavesHistory>(&mut seat);
        let history = QueueHistory {
            table,
            of: PhantomData,
        };
        let recorder = QueueRecorder {
            seat: recording,
            of: PhantomData,
        };
        let opener = EndOpener {
            seat,
            of: PhantomData,
        };
        (history, recorder, opener)
    }
}

impl<J: RegisterId> QueueHistory<J> {
    /// Opens an end, which has done nothing.
    pub fn open(&self, opener: &mut EndOpener<J>) -> EndSeat<J>
        ensures seat { result ≡ (opener.old, []) }
        ensures opener { opener.new ≡ opener.old + 1 }
    {
        let seat = self.table.shared.split_seat::<OpensEnd>(&mut opener.seat);
        EndSeat {
            seat,
            of: PhantomData,
        }
    }

    // Adds what the rule says, as a step of this end.
    fn add_as<E: StepRule, T>(
        &self,
        seat: &mut EndSeat<J>,
        recorder: &mut QueueRecorder<J>,
        is_put: bool,
        flow: u64,
        item: &Snapshot<T>,
    )
        requires { (e : QueueStep) × E.allows e × (e.end ≡ seat.old.0) }
        ensures { (e : QueueStep) × E.allows e × (e.end ≡ seat.old.0)
            × (recorder.new ≡ recorder.old ++ e ∷ [])
            × (seat.new ≡ (seat.old.0, seat.old.1 ++ e ∷ [])) }
    {
        let _ = is_put;
        let _ = flow;
        let _ = item;
        let spare = self.table.shared.split_seat::<SparesSeat>(&mut seat.seat);
        let held = mem::replace(&mut recorder.seat, spare);
        self.table
            .shared
            .join_seat::<TakesHistory>(&mut seat.seat, held);
        self.table
            .shared
            .load::<AddsQueueStep<E>>(&mut seat.seat, 0);
        let left = self
            .table
            .shared
            .split_seat::<LeavesHistory>(&mut seat.seat);
        recorder.seat = left;
    }

    /// Adds a step of this end: a put of what this item belongs to, or a take of it out of a flow.
    pub fn add<T: OfJob>(
        &self,
        seat: &mut EndSeat<J>,
        recorder: &mut QueueRecorder<J>,
        is_put: bool,
        flow: u64,
        item: &Snapshot<T>,
    )
        ensures { (e : QueueStep) × (e.is_put ≡ is_put) × (e.flow ≡ flow)
            × (e.job ≡ T.job item.now.value)
            × (recorder.new ≡ recorder.old ++ e ∷ [])
            × (seat.new ≡ (seat.old.0, seat.old.1 ++ e ∷ [])) }
    {
        self.add_as::<Brand, T>(seat, recorder, is_put, flow, item);
    }
}
