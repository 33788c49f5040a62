//! The history, which exists in proofs alone, and the seats of those who know of it.

ghost use Rattle.std.specs.Prelude.{◌≡◌, ◌+◌, ◌≤◌, [], ◌∷◌, ◌++◌, ℕ};
ghost use mathlib.Core.List.{IsPrefix};
ghost use Rattle.shared_desk.specs.Histories.{HistoryEntry, part_of};
ghost use Rattle.shared_desk.specs.Closed.{AreClosed};
ghost use Rattle.shared_desk.specs.declared.closed.ClosedConnection.{ClosedConnection};

use crate::passage::Passage;
use crate::seats::{
    Closes, ClosingRule, Compares, Counts, DeskView, EntryRule, HistoryId, LeavesRecorder,
    LogsEntry, OneHistory, Opens, SeesHistory, Spares, TakesRecorder,
};
use atomic_table::{Seat, Table};
use refusal::NoMemory;
use sessions::DoorForm;
use std::alloc::Global;
use std::marker::{Model, PhantomData};
use std::mem;
use std::snapshot::Snapshot;
use streams::{PendingReply, PreparedRequest, StreamFault};

/// An empty history that has no name yet, with its first seat.
#[derive(Drop)]
pub struct NewHistory {
    table: Table<(), DeskView, (), OneHistory, Global>,
    seat: Seat<(), DeskView>,
}

impl Model for NewHistory {
    ghost use Rattle.std.specs.Prelude.{◌≡◌, []};
    ghost use Rattle.atomic_table.specs.Seated.{TableId};
    ghost use Rattle.shared_desk.specs.Rule.{founder};

    ghost Value = { TableId };

    ghost view = { λ h. h.table.shared.table_id };

    ghost invariant = { λ h. (h.table.shared.table_id.words ≡ 1)
        × (h.seat.table_id ≡ h.table.shared.table_id) × (h.seat.me ≡ (founder, [])) };
}

/// The word that all steps are made on.
#[derive(Drop)]
pub struct SharedHistory<J: HistoryId> {
    table: Table<(), DeskView, (), OneHistory, Global>,
    of: PhantomData<J>,
}

impl<J: HistoryId> Model for SharedHistory<J> {
    ghost use Rattle.std.specs.Prelude.{◌≡◌};

    ghost Value = { Unit {0} };

    ghost view = { λ _. tt };

    ghost invariant = { λ h. (h.table.shared.table_id ≡ J.table)
        × (h.table.shared.table_id.words ≡ 1) };
}

/// What one connection knows.
#[derive(Drop)]
pub struct ClientSeat<J: HistoryId> {
    seat: Seat<(), DeskView>,
    of: PhantomData<J>,
}

impl<J: HistoryId> Model for ClientSeat<J> {
    ghost use Rattle.std.specs.Prelude.{◌≡◌, []};
    ghost use Rattle.shared_desk.specs.Rule.{client};
    ghost use Rattle.shared_desk.specs.ClientViews.{ClientView};

    ghost Value = { ClientView };

    ghost view = { λ c. record {
      number = c.seat.me.0.number;
      seen = c.seat.me.0.seen;
      part = c.seat.me.0.part;
    } };

    ghost invariant = { λ c. (c.seat.table_id ≡ J.table)
        × (c.seat.me ≡ (client c.seat.me.0.number c.seat.me.0.seen c.seat.me.0.part, [])) };
}

/// Knows the whole history, and alone adds to it. Contracts see it as the history and the
/// connections that are over.
#[derive(Drop)]
pub struct Recorder<J: HistoryId> {
    seat: Seat<(), DeskView>,
    of: PhantomData<J>,
}

impl<J: HistoryId> Model for Recorder<J> {
    ghost use Rattle.std.specs.Prelude.{◌≡◌, [], List};
    ghost use Rattle.shared_desk.specs.Rule.{recorder};
    ghost use Rattle.shared_desk.specs.Histories.{HistoryEntry};
    ghost use Rattle.shared_desk.specs.declared.closed.ClosedConnection.{ClosedConnection};

    ghost Value = { List HistoryEntry × List ClosedConnection };

    ghost view = { λ r. (r.seat.me.0.history, r.seat.me.0.closed) };

    ghost invariant = { λ r. (r.seat.table_id ≡ J.table)
        × (r.seat.me ≡ (recorder r.seat.me.0.history r.seat.me.0.closed, [])) };
}

/// Opens connections, and knows how many it has opened. Contracts see it as that number.
#[derive(Drop)]
pub struct Opener<J: HistoryId> {
    seat: Seat<(), DeskView>,
    of: PhantomData<J>,
}

impl<J: HistoryId> Model for Opener<J> {
    ghost use Rattle.std.specs.Prelude.{◌≡◌, [], ℕ};
    ghost use Rattle.shared_desk.specs.Rule.{opener};

    ghost Value = { ℕ };

    ghost view = { λ o. o.seat.me.0.opened };

    ghost invariant = { λ o. (o.seat.table_id ≡ J.table)
        × (o.seat.me ≡ (opener o.seat.me.0.opened, [])) };
}

impl NewHistory {
    /// An empty history. It may answer that there is no memory.
    pub fn new(alloc: Global) -> Result<NewHistory, NoMemory> {
        match Table::of_words(alloc, &[0], &()) {
            Ok((table, seat)) => Ok(NewHistory { table, seat }),
            Err(_) => Err(NoMemory),
        }
    }

    /// The history under a name, its recorder and its opener.
    pub fn named<J: HistoryId>(self) -> (SharedHistory<J>, Recorder<J>, Opener<J>)
        requires { self ≡ J.table }
        ensures { (result.1 ≡ ([], [])) × (result.2 ≡ 0) }
    {
        let NewHistory { table, mut seat } = self;
        let recording = table.shared.split_seat::<LeavesRecorder>(&mut seat);
        let history = SharedHistory {
            table,
            of: PhantomData,
        };
        let recorder = Recorder {
            seat: recording,
            of: PhantomData,
        };
        let opener = Opener {
            seat,
            of: PhantomData,
        };
        (history, recorder, opener)
    }
}

impl<J: HistoryId> SharedHistory<J> {
    /// Opens a connection, which has seen nothing.
    pub fn open(&self, opener: &mut Opener<J>) -> ClientSeat<J>
        ensures seat { (result.number ≡ opener.old) × (result.seen ≡ []) × (result.part ≡ []) }
        ensures opener { opener.new ≡ opener.old + 1 }
    {
        let seat = self.table.shared.split_seat::<Opens>(&mut opener.seat);
        ClientSeat {
            seat,
            of: PhantomData,
        }
    }

    /// Adds an entry, of this connection. The last arguments are for the proof of the caller alone,
    /// which says by them which entry it may be.
    pub fn add<E: EntryRule, D, H>(
        &self,
        seat: &mut ClientSeat<J>,
        recorder: &mut Recorder<J>,
        passage: Passage,
        request: &Snapshot<PreparedRequest>,
        beyond: &Snapshot<Option<DoorForm>>,
        desk_before: &Snapshot<D>,
        handler_before: &Snapshot<H>,
        desk: &D,
        handler: &H,
        reply: &Result<PendingReply, NoMemory>,
    )
        requires { (e : HistoryEntry) × E.allows e × (e.connection ≡ seat.old.number) }
        ensures { (e : HistoryEntry) × E.allows e × (e.connection ≡ seat.old.number)
            × IsPrefix seat.old.seen recorder.old.0
            × (recorder.new ≡ (recorder.old.0 ++ e ∷ [], recorder.old.1))
            × (seat.new.number ≡ seat.old.number)
            × (seat.new.seen ≡ recorder.old.0 ++ e ∷ [])
            × (seat.new.part ≡ seat.old.part ++ e ∷ [])
            × (part_of seat.old.number (recorder.old.0 ++ e ∷ []) ≡ seat.old.part ++ e ∷ []) }
    {
        let _ = passage;
        let _ = request;
        let _ = beyond;
        let _ = desk_before;
        let _ = handler_before;
        let _ = desk;
        let _ = handler;
        let _ = reply;
        let spare = self.table.shared.split_seat::<Spares>(&mut seat.seat);
        let held = mem::replace(&mut recorder.seat, spare);
        self.table
            .shared
            .join_seat::<TakesRecorder>(&mut seat.seat, held);
        self.table.shared.load::<LogsEntry<E>>(&mut seat.seat, 0);
        let left = self
            .table
            .shared
            .split_seat::<LeavesRecorder>(&mut seat.seat);
        recorder.seat = left;
    }

    /// A connection sees the whole history, of which it knows its part.
    pub fn look(&self, seat: &mut ClientSeat<J>, recorder: &mut Recorder<J>)
        ensures same { recorder.new ≡ recorder.old }
        ensures seat { (seat.new.number ≡ seat.old.number) × (seat.new.seen ≡ recorder.old.0)
            × (seat.new.part ≡ seat.old.part) }
        ensures own { part_of seat.old.number recorder.old.0 ≡ seat.old.part }
        ensures later { IsPrefix seat.old.seen recorder.old.0 }
    {
        let spare = self.table.shared.split_seat::<Spares>(&mut seat.seat);
        let held = mem::replace(&mut recorder.seat, spare);
        self.table
            .shared
            .join_seat::<TakesRecorder>(&mut seat.seat, held);
        self.table.shared.load::<SeesHistory>(&mut seat.seat, 0);
        let left = self
            .table
            .shared
            .split_seat::<LeavesRecorder>(&mut seat.seat);
        recorder.seat = left;
    }

    /// What a connection knows is its part of the whole history, which begins with what it has seen.
    pub fn compare(&self, seat: &mut ClientSeat<J>, recorder: &mut Recorder<J>)
        ensures same { (seat.new ≡ seat.old) × (recorder.new ≡ recorder.old) }
        ensures own { part_of seat.old.number recorder.old.0 ≡ seat.old.part }
        ensures later { IsPrefix seat.old.seen recorder.old.0 }
    {
        let spare = self.table.shared.split_seat::<Spares>(&mut seat.seat);
        let held = mem::replace(&mut recorder.seat, spare);
        self.table
            .shared
            .join_seat::<TakesRecorder>(&mut seat.seat, held);
        self.table.shared.load::<Compares>(&mut seat.seat, 0);
        let left = self
            .table
            .shared
            .split_seat::<LeavesRecorder>(&mut seat.seat);
        recorder.seat = left;
    }

    /// A connection is over. The last arguments are for the proof of the caller alone, which says by
    /// them what went through its ends.
    pub fn close<E: ClosingRule, S, W>(
        &self,
        seat: ClientSeat<J>,
        recorder: &mut Recorder<J>,
        passage: Passage,
        reader: &S,
        writer: &W,
        outcome: &Result<u64, StreamFault>,
    )
        requires { (c : ClosedConnection) × E.closes c × (c.connection ≡ seat.number)
            × (c.part ≡ seat.part) }
        ensures { (c : ClosedConnection) × E.closes c
            × (recorder.new ≡ (recorder.old.0, c ∷ recorder.old.1)) }
    {
        let _ = passage;
        let _ = reader;
        let _ = writer;
        let _ = outcome;
        let ClientSeat { mut seat, of: _ } = seat;
        let spare = self.table.shared.split_seat::<Spares>(&mut seat);
        let held = mem::replace(&mut recorder.seat, spare);
        self.table
            .shared
            .join_seat::<TakesRecorder>(&mut seat, held);
        self.table.shared.load::<Closes<E>>(&mut seat, 0);
        let left = self.table.shared.split_seat::<LeavesRecorder>(&mut seat);
        recorder.seat = left;
    }

    /// The history has no part of a connection that was not opened. Those that are over were opened,
    /// and have their parts.
    pub fn count(&self, opener: &mut Opener<J>, recorder: &mut Recorder<J>)
        ensures same { (opener.new ≡ opener.old) × (recorder.new ≡ recorder.old) }
        ensures others { (n : ℕ) → opener.old ≤ n → part_of n recorder.old.0 ≡ [] }
        ensures closed { AreClosed opener.old recorder.old.0 recorder.old.1 }
    {
        let spare = self.table.shared.split_seat::<Spares>(&mut opener.seat);
        let held = mem::replace(&mut recorder.seat, spare);
        self.table
            .shared
            .join_seat::<TakesRecorder>(&mut opener.seat, held);
        self.table.shared.load::<Counts>(&mut opener.seat, 0);
        let left = self
            .table
            .shared
            .split_seat::<LeavesRecorder>(&mut opener.seat);
        recorder.seat = left;
    }
}
