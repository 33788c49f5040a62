//! What each seat knows of the history, and the kinds of step.

use crate::closed::ClosedConnection;
use crate::passage::Passage;
use atomic_table::{Join, Play, Split, TableRule};
use sessions::{DoorForm, Request};
use std::collections::LinkedList;
use std::marker::{Brand, Model, PhantomData};

/// An entry of the history: a connection, what it asked by which passage, and the reply. No value of
/// it is made.
pub struct LogEntry {
    pub connection: u64,
    pub passage: Passage,
    pub request: Result<Request, u8>,
    pub beyond: Option<DoorForm>,
    pub reply: LinkedList<u8>,
}

impl Model for LogEntry {
    ghost use Rattle.streams.specs.Hearing.{query_of};
    ghost use Rattle.shared_desk.specs.Histories.{HistoryEntry};

    ghost Value = { HistoryEntry };

    ghost view = { λ e. record {
      connection = e.connection;
      query = record {
        passage = e.passage;
        asked = query_of e.request;
        beyond = e.beyond;
      };
      reply = e.reply;
    } };
}

/// What a seat knows. No value of it is made.
///
/// The seat of a connection knows a beginning of the history, and the connection's part of it. The
/// recorder knows the whole history and which connections are over, and the opener how many
/// connections were opened. For the time of a step the seat of a connection or of the opener is the
/// recorder too.
pub struct DeskView {
    pub is_client: bool,
    pub number: u64,
    pub seen: LinkedList<LogEntry>,
    pub part: LinkedList<LogEntry>,
    pub is_opener: bool,
    pub opened: u64,
    pub is_recorder: bool,
    pub history: LinkedList<LogEntry>,
    pub closed: LinkedList<ClosedConnection>,
}

/// Names one history, by its table, and says by which passages its connections come. Each call of a
/// program picks it.
pub trait HistoryId {
    ghost use Rattle.atomic_table.specs.Seated.{TableId};
    ghost use Rattle.shared_desk.specs.declared.passage.Passage.{Passage};

    ghost table: { TableId };

    ghost comes: { Passage → Type 0 };
}

impl HistoryId for Brand {
    ghost use Rattle.shared_desk.specs.Rule.{no_history_table};

    ghost table = { no_history_table };

    ghost comes = { λ _. Unit {0} };
}

/// Says what the desk and the handler may be at the start of the history.
pub trait Origin<D, H>: HistoryId {
    ghost begins: { D × H → Type 0 };
}

impl<D, H> Origin<D, H> for Brand {
    ghost begins = { λ _. Unit {0} };
}

/// There is one history, of which each connection knows its part.
pub struct OneHistory;

impl TableRule<(), DeskView, ()> for OneHistory {
    ghost use Rattle.shared_desk.specs.Rule.{IsShared, founder};

    ghost holds = { λ _ s. IsShared s.views };

    ghost first = { λ _. founder };
}

/// A seat becomes the recorder too.
pub struct TakesRecorder;

impl Join<DeskView> for TakesRecorder {
    ghost use Rattle.shared_desk.specs.Rule.{with_recorder, empty_desk_view};

    ghost both = { with_recorder };

    ghost spent = { empty_desk_view };
}

/// A seat is the recorder no more.
pub struct LeavesRecorder;

impl Split<DeskView> for LeavesRecorder {
    ghost use Rattle.shared_desk.specs.Rule.{without_recorder, only_recorder};

    ghost left = { without_recorder };

    ghost right = { only_recorder };
}

/// A seat that knows nothing.
pub struct Spares;

impl Split<DeskView> for Spares {
    ghost use Rattle.shared_desk.specs.Rule.{empty_desk_view};

    ghost left = { λ v. v };

    ghost right = { λ _. empty_desk_view };
}

/// The opener opens a connection.
pub struct Opens;

impl Split<DeskView> for Opens {
    ghost use Rattle.shared_desk.specs.Rule.{one_more_opened, new_client_view};

    ghost left = { one_more_opened };

    ghost right = { new_client_view };
}

/// Says which entry a step may add. Each call picks it.
pub trait EntryRule {
    ghost use Rattle.shared_desk.specs.Histories.{HistoryEntry};

    ghost allows: { HistoryEntry → Type 0 };
}

impl EntryRule for Brand {
    ghost allows = { λ _. Unit {0} };
}

/// One entry more, of the connection whose seat steps.
pub struct LogsEntry<E: EntryRule> {
    of: PhantomData<E>,
}

impl<E: EntryRule> Play<(), DeskView> for LogsEntry<E> {
    ghost use Rattle.shared_desk.specs.Rule.{AddsEntry};

    ghost then = { AddsEntry E.allows };
}

/// Says which connection a step may close. Each call picks it.
pub trait ClosingRule {
    ghost use Rattle.shared_desk.specs.declared.closed.ClosedConnection.{ClosedConnection};

    ghost closes: { ClosedConnection → Type 0 };
}

impl ClosingRule for Brand {
    ghost closes = { λ _. Unit {0} };
}

/// A connection is over.
pub struct Closes<E: ClosingRule> {
    of: PhantomData<E>,
}

impl<E: ClosingRule> Play<(), DeskView> for Closes<E> {
    ghost use Rattle.shared_desk.specs.Rule.{ClosesItself};

    ghost then = { ClosesItself E.closes };
}

/// A connection sees the whole history.
pub struct SeesHistory;

impl Play<(), DeskView> for SeesHistory {
    ghost use Rattle.shared_desk.specs.Rule.{SeesAll};

    ghost then = { SeesAll };
}

/// A connection compares what it knows with the whole history.
pub struct Compares;

impl Play<(), DeskView> for Compares {
    ghost use Rattle.shared_desk.specs.Rule.{KnowsItsPart};

    ghost then = { KnowsItsPart };
}

/// The opener looks at the whole history.
pub struct Counts;

impl Play<(), DeskView> for Counts {
    ghost use Rattle.shared_desk.specs.Rule.{KnowsTheCount};

    ghost then = { KnowsTheCount };
}
