//! A journal that many threads write to.

ghost use Rattle.std.specs.Prelude.{◌≡◌, [], false, true, IfOk, MatchBool, OnErr, OnOk};
ghost use mathlib.Core.List.{IsPrefix};
ghost use Rattle.journal_file.specs.FileLogs.{file_state};
ghost use Rattle.shared_journal.specs.JournalHistories.{HasAddedRecord, HasCommitted, HasStopped, KnowsTheSame, entries_by};

use crate::group_journal::GroupJournal;
use crate::journal_calls::{commit_all, put_record, reserve_room};
use crate::journal_follower::JournalFollower;
use crate::journal_table::{JournalSeat, JournalTable, NoteSeat};
use journal::LogFault;
use journal_file::FileLog;
use refusal::NoMemory;
use std::alloc::Global;
use std::sync::Wait;

/// A journal that the threads of a server share.
///
/// Records wait in memory until somebody commits. Who commits takes all that wait, writes them and
/// syncs, while others add further records; who comes meanwhile waits for that, and finds nothing
/// to do where its records went along. So one sync serves all that waited for it.
///
/// It has one history, in proofs alone: the records that were added, in order, of which a beginning
/// is durable. Each thread has a seat, which knows a beginning of the history. A record that a seat
/// adds stands behind all that the seat knew, once; and all that it knew is durable behind its
/// commit, or behind that of a note of what the seat has seen. What waits and what the log has are
/// tied to the history by the rule of a table, whichever thread holds them.
///
/// A server has one for each desk. Its place is that of the desk whose changes it keeps: so clauses
/// tell one journal from another.
#[derive(Drop)]
pub struct SharedJournal {
    place: usize,
    alloc: Global,
    history: JournalTable,
}

impl SharedJournal {
    /// A journal of the desk at a place, over a log that has these bytes, all of them durable, and who
    /// follows it.
    pub fn new(
        alloc: Global,
        place: usize,
        log: FileLog,
        bytes: Vec<u8>,
    ) -> Result<(SharedJournal, JournalFollower), NoMemory>
        requires { file_state log ≡ record { durable = bytes.items; pending = [] } }
        ensures place { IfOk result (λ made. made.0.place ≡ place) }
        ensures first { IfOk result (λ made. made.0.history.first ≡ bytes.items) }
        ensures follower { IfOk result (λ made. (made.1.journal ≡ made.0.history)
            × (made.1.is_lost ≡ false)) }
    {
        let len = bytes.len();
        let (history, seat) = JournalTable::new(alloc, log, bytes)?;
        let journal = SharedJournal {
            place,
            alloc,
            history,
        };
        Ok((journal, JournalFollower::new(alloc, seat, len)))
    }

    /// The place of the desk whose changes it keeps.
    pub fn place(&self) -> usize
        ensures { result ≡ self.now.place }
    {
        self.place
    }

    // The history of what was added.
    pub(crate) fn history(&self) -> &JournalTable
        ensures { result.now ≡ self.now.history }
    {
        &self.history
    }

    /// A seat for a thread, which has added nothing.
    pub fn watch(&self) -> JournalSeat
        ensures new { (result.journal ≡ self.now.history) × (result.own ≡ [])
            × (result.has_failed ≡ false) }
        ensures none { entries_by result.number result.seen ≡ [] }
    {
        self.history.watch()
    }

    /// A note of nothing, for a place to put notes into.
    pub(crate) fn blank_note(&self) -> NoteSeat
        ensures { (result.journal ≡ self.now.history) × (result.seen ≡ []) × (result.durable ≡ [])
            × (result.has_failed ≡ false) }
    {
        self.history.blank_note()
    }

    /// A note of all that the seat has seen.
    pub(crate) fn note(&self, seat: &mut JournalSeat) -> NoteSeat
        requires { seat.old.journal ≡ self.now.history }
        ensures same { seat.new ≡ seat.old }
        ensures journal { result.journal ≡ self.now.history }
        ensures seen { result.seen ≡ seat.old.seen }
        ensures durable { result.durable ≡ seat.old.durable }
        ensures has_failed { result.has_failed ≡ seat.old.has_failed }
    {
        self.history.note(seat)
    }

    /// Whether it has failed. From then on no commit answers `Ok`, and no record is taken.
    pub fn has_failed(&self) -> bool {
        self.history.has_failed()
    }

    /// Whether it has failed, as the seat then knows. A seat that knew so is told so.
    pub fn is_failed(&self, seat: &mut JournalSeat) -> bool
        requires { seat.old.journal ≡ self.now.history }
        ensures same { KnowsTheSame seat.old seat.new }
        ensures told { MatchBool result (seat.new.has_failed ≡ true)
            (seat.old.has_failed ≡ false) }
    {
        self.history.is_failed(&mut seat.seat)
    }

    /// A record is missing: nothing is to be committed from now on.
    pub fn fail(&self, seat: &mut JournalSeat)
        requires { seat.old.journal ≡ self.now.history }
        ensures same { KnowsTheSame seat.old seat.new }
        ensures failed { seat.new.has_failed ≡ true }
    {
        self.history.fail(&mut seat.seat);
    }

    /// Makes all records durable that were added before. After an error none that follows answers
    /// `Ok`, and the seat has stopped: none of its calls answers `Ok` either.
    pub fn commit<R: Wait>(&self, rt: &R, seat: &mut JournalSeat) -> Result<(), LogFault>
        requires { seat.old.journal ≡ self.now.history }
        ensures ok { OnOk result (HasCommitted seat.old seat.new) }
        ensures err { OnErr result (HasStopped seat.old seat.new) }
    {
        if commit_all(rt, self.alloc, &self.history, &mut seat.seat).is_err() {
            self.history.fail(&mut seat.seat);
            return Err(LogFault);
        }
        if self.history.is_failed(&mut seat.seat) {
            return Err(LogFault);
        }
        Ok(())
    }

    /// Commits a note: makes all records durable that were added before, and so all that it knows.
    /// After an error none that follows answers `Ok`, and the note knows that the journal has failed.
    pub(crate) fn commit_noted<R: Wait>(&self, rt: &R, note: &mut NoteSeat) -> Result<(), LogFault>
        requires { note.old.journal ≡ self.now.history }
        ensures same { note.new.journal ≡ note.old.journal }
        ensures seen { IsPrefix note.old.seen note.new.seen }
        ensures ok { OnOk result (note.new.durable ≡ note.new.seen) }
        ensures went_on { OnOk result (note.old.has_failed ≡ false) }
        ensures stopped { OnErr result (note.new.has_failed ≡ true) }
    {
        if commit_all(rt, self.alloc, &self.history, &mut note.seat).is_err() {
            self.history.fail(&mut note.seat);
            return Err(LogFault);
        }
        if self.history.is_failed(&mut note.seat) {
            return Err(LogFault);
        }
        Ok(())
    }

    /// Looks whether it has failed, as the note then says.
    pub(crate) fn look_noted(&self, note: &mut NoteSeat) -> Result<(), LogFault>
        requires { note.old.journal ≡ self.now.history }
        ensures same { (note.new.journal ≡ note.old.journal) × (note.new.seen ≡ note.old.seen)
            × (note.new.durable ≡ note.old.durable) }
        ensures sound { OnOk result (note.old.has_failed ≡ false) }
        ensures failed { OnErr result (note.new.has_failed ≡ true) }
    {
        match self.history.is_failed(&mut note.seat) {
            true => Err(LogFault),
            false => Ok(()),
        }
    }

    /// Makes room for so many bytes more among those that wait. A journal that has failed has none.
    pub fn reserve<R: Wait>(
        &self,
        rt: &R,
        seat: &mut JournalSeat,
        len: usize,
    ) -> Result<(), NoMemory>
        requires { seat.old.journal ≡ self.now.history }
        ensures { KnowsTheSame seat.old seat.new }
    {
        if self.history.is_failed(&mut seat.seat) {
            return Err(NoMemory);
        }
        reserve_room(rt, self.alloc, &self.history, &mut seat.seat, len)
    }

    /// Puts a record behind those that wait. One that has failed takes none.
    pub fn add<R: Wait>(&self, rt: &R, seat: &mut JournalSeat, bytes: &[u8]) -> Result<(), NoMemory>
        requires { seat.old.journal ≡ self.now.history }
        ensures ok { OnOk result (HasAddedRecord seat.old bytes.now seat.new) }
        ensures err { OnErr result (KnowsTheSame seat.old seat.new) }
    {
        if self.history.is_failed(&mut seat.seat) {
            return Err(NoMemory);
        }
        put_record(rt, self.alloc, &self.history, &mut seat.seat, bytes)
    }
}

impl GroupJournal for SharedJournal {
    ghost name = { λ journal. journal.history };

    // The seat that is given knows it.
    ghost committed = { λ _. Unit {0} };

    // The seat that is given knows it.
    ghost failed = { λ _. Unit {0} };

    fn commit_all<R: Wait>(&self, rt: &R) -> (JournalSeat, Result<(), LogFault>) {
        let mut seat = self.watch();
        let committed = self.commit(rt, &mut seat);
        (seat, committed)
    }
}
