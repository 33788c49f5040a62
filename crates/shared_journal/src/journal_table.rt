//! A journal's history, which exists in proofs alone, the seats of those who know of it, and the
//! two parts, each behind a word that is its lock.

ghost use Rattle.std.specs.Prelude.{◌≡◌, ◌<◌, ◌≤◌, ◌+◌, ◌⊎◌, ◌≢◌, ◌++◌, [], ◌∷◌, ℕ, Some, false, true, length, IfOk, MatchBool};
ghost use Rattle.journal_file.specs.FileLogs.{file_state};
ghost use Rattle.atomic_table.specs.Table as table;
ghost use Rattle.shared_journal.specs.JournalHistories as history;
ghost use Rattle.shared_journal.specs.JournalRule as rule;
ghost use Rattle.shared_journal.specs.declared.journal_part.JournalPart.{JournalPart};
ghost use Rattle.shared_journal.specs.declared.commit_log.CommitLog.{CommitLog};
ghost use Rattle.journal_file.specs.declared.file_log.FileLog.{FileLog};

use crate::commit_log::CommitLog;
use crate::journal_part::JournalPart;
use crate::seat_views::{
    BlankNote, CopyStep, CountLook, CountStep, DurableLook, DurableNote, EachLook, FailingStep,
    FailureLook, JournalView, LogReturn, LogTry, NoteSplit, OneJournal, RecordStep, SettlingStep,
    SleepMark, TakingStep, WaitingReturn, WaitingTry, Watching,
};
use atomic_table::{Seat, Table};
use journal_file::FileLog;
use refusal::NoMemory;
use std::alloc::Global;
use std::hint::spin_loop;
use std::marker::Model;
use std::snapshot::Snapshot;
use std::sync::Wait;
use std::thread::yield_now;

/// The word, and the slot, of the records that wait.
pub(crate) const WAITING: usize = 0;

/// The word, and the slot, of the log.
pub(crate) const LOG: usize = 1;

// The word that tells whether the journal has failed.
const FAILED: usize = 2;

// The word that counts the records that were added.
const ADDED: usize = 3;

// The word that tells how many of them are durable.
const DURABLE: usize = 4;

// A lock's word: it is free, held, or held while a thread may sleep.
const FREE: u64 = 0;

const HELD: u64 = 1;

const WANTED: u64 = 2;

// How often a held lock is looked at before its thread sleeps.
const LOOKS: u32 = 100;

// How often others may run before the log is written.
const MOMENTS: u32 = 50;

/// A seat that may hold parts of a journal.
pub(crate) type PartSeat = Seat<JournalPart, JournalView>;

/// One thread's knowledge of a journal. It has no bytes.
#[derive(Drop)]
pub struct JournalSeat {
    pub(crate) seat: Seat<JournalPart, JournalView>,
}

impl Model for JournalSeat {
    ghost use Rattle.std.specs.Prelude.{◌≡◌, [], false};
    ghost use Rattle.shared_journal.specs.JournalHistories.{JournalKnowledge};

    ghost Value = { JournalKnowledge };

    ghost view = { λ s. record {
      journal = record { table = s.seat.table_id; first = s.seat.me.0.first };
      number = s.seat.me.0.number;
      seen = s.seat.me.0.seen;
      own = s.seat.me.0.own;
      durable = s.seat.me.0.durable;
      has_failed = s.seat.me.0.is_failed;
    } };

    ghost invariant = { λ s. (s.seat.me.0.has_waiting ≡ false) × (s.seat.me.0.has_log ≡ false)
        × (s.seat.me.1 ≡ []) × (s.seat.me.0.is_note ≡ false) };
}

/// What a seat had seen of a journal: a beginning of its history. It puts nothing in, and has no bytes.
#[derive(Drop)]
pub(crate) struct NoteSeat {
    pub(crate) seat: Seat<JournalPart, JournalView>,
}

impl Model for NoteSeat {
    ghost use Rattle.std.specs.Prelude.{◌≡◌, [], false, true};
    ghost use Rattle.shared_journal.specs.JournalHistories.{NoteKnowledge};

    ghost Value = { NoteKnowledge };

    ghost view = { λ n. record {
      journal = record { table = n.seat.table_id; first = n.seat.me.0.first };
      seen = n.seat.me.0.seen;
      durable = n.seat.me.0.durable;
      has_failed = n.seat.me.0.is_failed;
    } };

    ghost invariant = { λ n. (n.seat.me.0.has_waiting ≡ false) × (n.seat.me.0.has_log ≡ false)
        × (n.seat.me.1 ≡ []) × (n.seat.me.0.is_note ≡ true) };
}

/// The knowledge of who follows a journal: the bytes of it that were given so far, and whether it has
/// failed. It has no bytes.
#[derive(Drop)]
pub(crate) struct FollowerSeat {
    pub(crate) seat: PartSeat,
}

impl Model for FollowerSeat {
    ghost use Rattle.shared_journal.specs.JournalHistories.{FollowerKnowledge};
    ghost use Rattle.shared_journal.specs.JournalRule.{IsFollower};

    ghost Value = { FollowerKnowledge };

    ghost view = { λ s. record {
      journal = record { table = s.seat.table_id; first = s.seat.me.0.first };
      copied = s.seat.me.0.copied;
      has_failed = s.seat.me.0.is_failed;
    } };

    ghost invariant = { λ s. IsFollower s.seat.me };
}

/// A journal's table. Contracts see which one it is, and the bytes that its log held at first.
#[derive(Drop)]
pub(crate) struct JournalTable {
    table: Table<JournalPart, JournalView, Snapshot<FileLog>, OneJournal, Global>,
}

impl Model for JournalTable {
    ghost use Rattle.std.specs.Prelude.{◌≡◌};
    ghost use Rattle.journal_file.specs.FileLogs.{file_state};
    ghost use Rattle.shared_journal.specs.JournalHistories.{JournalName};

    ghost Value = { JournalName };

    ghost view = { λ t. record {
      table = t.table.shared.table_id;
      first = (file_state t.table.shared.key.value).durable;
    } };

    ghost invariant = { λ t. (t.table.shared.table_id.words ≡ 5)
        × (t.table.shared.table_id.slots ≡ 2) };
}

impl JournalTable {
    /// A journal without records, over a log of which all is durable, and the seat of who follows it:
    /// these bytes, which the log has, are the first to be given.
    pub fn new(
        alloc: Global,
        log: FileLog,
        bytes: Vec<u8>,
    ) -> Result<(JournalTable, FollowerSeat), NoMemory>
        requires none_pending { (file_state log).pending ≡ [] }
        requires followed { bytes.items ≡ (file_state log).durable }
        ensures first { IfOk result (λ made. made.0.first ≡ (file_state log).durable) }
        ensures seat { IfOk result (λ made. (made.1.journal ≡ made.0) × (made.1.copied ≡ [])) }
    {
        let key = Snapshot::of(&log);
        let waiting = JournalPart {
            bytes: Vec::new(alloc),
            commits: None,
            batch: 0,
            is_followed: false,
        };
        let settled = JournalPart {
            bytes,
            commits: Some(CommitLog::new(alloc, log)),
            batch: 0,
            is_followed: true,
        };
        let mut parts = Vec::with_capacity(alloc, 2)?;
        parts.push_reserved(waiting);
        parts.push_reserved(settled);
        match Table::new(alloc, &[0, 0, 0, 0, 0], parts, &key) {
            Ok((table, seat)) => Ok((JournalTable { table }, FollowerSeat { seat })),
            Err(_) => Err(NoMemory),
        }
    }

    /// A seat that has put nothing in.
    pub fn watch(&self) -> JournalSeat
        ensures new { (result.journal ≡ self.now) × (result.own ≡ []) × (result.has_failed ≡ false) }
        ensures none { history.entries_by result.number result.seen ≡ [] }
    {
        let (_, seat) = self.table.shared.load_new_seat::<Watching>(FAILED);
        JournalSeat { seat }
    }

    /// A note of nothing.
    pub fn blank_note(&self) -> NoteSeat
        ensures { (result.journal ≡ self.now) × (result.seen ≡ []) × (result.durable ≡ [])
            × (result.has_failed ≡ false) }
    {
        let (_, seat) = self.table.shared.load_new_seat::<BlankNote>(FAILED);
        NoteSeat { seat }
    }

    /// A note of all that the seat has seen.
    pub fn note(&self, seat: &mut JournalSeat) -> NoteSeat
        requires { seat.old.journal ≡ self.now }
        ensures same { seat.new ≡ seat.old }
        ensures journal { result.journal ≡ self.now }
        ensures noted { (result.seen ≡ seat.old.seen) × (result.durable ≡ seat.old.durable)
            × (result.has_failed ≡ seat.old.has_failed) }
    {
        let noted = self.table.shared.split_seat::<NoteSplit>(&mut seat.seat);
        NoteSeat { seat: noted }
    }

    /// Whether the journal has failed, told to nobody's seat.
    pub fn has_failed(&self) -> bool {
        self.table.shared.peek(FAILED) != FREE
    }

    /// Whether the journal has failed.
    pub fn is_failed(&self, seat: &mut PartSeat) -> bool
        requires { seat.old.table_id ≡ self.now.table }
        ensures same { (seat.new.table_id ≡ seat.old.table_id) × (seat.new.id ≡ seat.old.id) }
        ensures told { MatchBool result
            (seat.new.me ≡ (record seat.old.me.0 { is_failed = true }, seat.old.me.1))
            ((seat.new.me ≡ seat.old.me) × (seat.old.me.0.is_failed ≡ false)) }
    {
        self.table.shared.load::<FailureLook>(seat, FAILED) != FREE
    }

    /// The journal fails.
    pub fn fail(&self, seat: &mut PartSeat)
        requires { seat.old.table_id ≡ self.now.table }
        ensures same { (seat.new.table_id ≡ seat.old.table_id) × (seat.new.id ≡ seat.old.id) }
        ensures failed { seat.new.me ≡ (record seat.old.me.0 { is_failed = true }, seat.old.me.1) }
    {
        self.table.shared.store::<FailingStep>(seat, FAILED, HELD);
    }

    // Looks at a lock for a while, as long as it isn't free.
    fn spin(&self, word: usize)
        requires { word < 5 }
    {
        for _ in 0..LOOKS {
            if self.table.shared.peek(word) == FREE {
                return;
            }
            spin_loop();
        }
    }

    // Sleeps where the lock isn't free, and tells whether it did. From then on others may sleep too,
    // so the lock is to be taken as one that is wanted.
    fn sleep<R: Wait>(&self, rt: &R, seat: &mut PartSeat, word: usize) -> bool
        requires table { seat.old.table_id ≡ self.now.table }
        requires word { (word ≡ 0) ⊎ (word ≡ 1) }
        ensures same { (seat.new.table_id ≡ seat.old.table_id) × (seat.new.id ≡ seat.old.id)
            × (seat.new.me ≡ seat.old.me) }
    {
        self.spin(word);
        let found = self
            .table
            .shared
            .compare_exchange::<SleepMark>(seat, word, HELD, WANTED);
        if found == FREE {
            return false;
        }
        self.table.shared.park(rt, word, 2);
        true
    }

    // Takes the records that wait, if their lock is free.
    fn try_waiting(&self, seat: &mut PartSeat, held: u64) -> bool
        requires table { seat.old.table_id ≡ self.now.table }
        requires held { held ≢ 0 }
        ensures same { (seat.new.table_id ≡ seat.old.table_id) × (seat.new.id ≡ seat.old.id) }
        ensures taken { MatchBool result (rule.TakesWaiting seat.old.me seat.new.me)
            (seat.new.me ≡ seat.old.me) }
    {
        self.table
            .shared
            .compare_exchange::<WaitingTry>(seat, WAITING, FREE, held)
            == FREE
    }

    // How many records were added, for a seat that holds those that wait.
    fn count(&self, seat: &mut PartSeat) -> u64
        requires table { seat.old.table_id ≡ self.now.table }
        requires held { seat.old.me.0.has_waiting ≡ true }
        ensures same { (seat.new.table_id ≡ seat.old.table_id) × (seat.new.id ≡ seat.old.id) }
        ensures found { (result ≡ seat.old.me.0.count) × (seat.new.me ≡ seat.old.me) }
    {
        self.table.shared.load::<CountLook>(seat, ADDED)
    }

    /// Takes the records that wait, once no other thread holds them. Tells how many were added.
    pub fn take_waiting<R: Wait>(&self, rt: &R, seat: &mut PartSeat) -> u64
        requires { seat.old.table_id ≡ self.now.table }
        ensures same { (seat.new.table_id ≡ seat.old.table_id) × (seat.new.id ≡ seat.old.id) }
        ensures taken { rule.TakesWaiting seat.old.me seat.new.me }
        ensures count { result ≡ seat.new.me.0.count }
    {
        let mut held = HELD;
        for _ in rt.forever() {
            if self.try_waiting(seat, held) {
                return self.count(seat);
            }
            if self.sleep(rt, seat, WAITING) {
                held = WANTED;
            }
        }
        unreachable!()
    }

    // Takes the log, if its lock is free.
    fn try_log(&self, seat: &mut PartSeat) -> bool
        requires { seat.old.table_id ≡ self.now.table }
        ensures same { (seat.new.table_id ≡ seat.old.table_id) × (seat.new.id ≡ seat.old.id) }
        ensures taken { MatchBool result (rule.TakesLog seat.old.me seat.new.me)
            (seat.new.me ≡ seat.old.me) }
    {
        self.table
            .shared
            .compare_exchange::<LogTry>(seat, LOG, FREE, HELD)
            == FREE
    }

    /// Sees all that was added so far. Tells how many records these are, or more.
    pub fn see_each(&self, seat: &mut PartSeat) -> u64
        requires { seat.old.table_id ≡ self.now.table }
        ensures same { (seat.new.table_id ≡ seat.old.table_id) × (seat.new.id ≡ seat.old.id) }
        ensures seen { rule.SeesEach seat.old.me result seat.new.me }
    {
        self.table.shared.load::<EachLook>(seat, ADDED)
    }

    // Whether all that the seat has seen is durable. It counted so many records then.
    fn is_durable(&self, seat: &mut PartSeat, count: u64) -> bool
        requires table { seat.old.table_id ≡ self.now.table }
        requires count { count ≡ seat.old.me.0.count }
        requires most { length seat.old.me.0.seen ≤ seat.old.me.0.count }
        ensures same { (seat.new.table_id ≡ seat.old.table_id) × (seat.new.id ≡ seat.old.id) }
        ensures told { MatchBool result (seat.new.me
            ≡ (record seat.old.me.0 { durable = seat.old.me.0.seen }, seat.old.me.1))
            (seat.new.me ≡ seat.old.me) }
    {
        count <= self.table.shared.load::<DurableLook>(seat, DURABLE)
    }

    /// Takes the log, once no other thread holds it. `false`: all that the seat has seen became
    /// durable meanwhile, and the log wasn't taken. It counted so many records when it saw them.
    pub fn take_log<R: Wait>(&self, rt: &R, seat: &mut PartSeat, count: u64) -> bool
        requires table { seat.old.table_id ≡ self.now.table }
        requires count { count ≡ seat.old.me.0.count }
        requires most { length seat.old.me.0.seen ≤ seat.old.me.0.count }
        ensures same { (seat.new.table_id ≡ seat.old.table_id) × (seat.new.id ≡ seat.old.id) }
        ensures taken { MatchBool result (rule.TakesLog seat.old.me seat.new.me)
            (seat.new.me
            ≡ (record seat.old.me.0 { durable = seat.old.me.0.seen }, seat.old.me.1)) }
    {
        for _ in rt.forever() {
            if self.is_durable(seat, count) {
                return false;
            }
            if self.try_log(seat) {
                return true;
            }
            self.sleep(rt, seat, LOG);
        }
        unreachable!()
    }

    /// Takes the log, once no other thread holds it, whether it has anything to write or not.
    pub fn hold_log<R: Wait>(&self, rt: &R, seat: &mut PartSeat)
        requires { seat.old.table_id ≡ self.now.table }
        ensures same { (seat.new.table_id ≡ seat.old.table_id) × (seat.new.id ≡ seat.old.id) }
        ensures taken { rule.TakesLog seat.old.me seat.new.me }
    {
        for _ in rt.forever() {
            if self.try_log(seat) {
                return;
            }
            self.sleep(rt, seat, LOG);
        }
        unreachable!()
    }

    /// Waits a moment for as many records that aren't durable as went along last time, so that
    /// those who were answered together are answered together again. Tells how many there are.
    pub fn gather(&self, last: u64) -> u64 {
        for _ in 0..MOMENTS {
            if self.count_waiting() >= last {
                return self.count_waiting();
            }
            yield_now();
        }
        self.count_waiting()
    }

    /// How many records are durable, as far as the words tell.
    pub fn count_durable(&self) -> u64 {
        self.table.shared.peek(DURABLE)
    }

    // How many records aren't durable, as far as the words tell.
    fn count_waiting(&self) -> u64 {
        self.table
            .shared
            .peek(ADDED)
            .saturating_sub(self.count_durable())
    }

    /// Counts so many records, for a seat that holds those that wait: no fewer than there are.
    pub fn set_count(&self, seat: &mut PartSeat, count: u64)
        requires table { seat.old.table_id ≡ self.now.table }
        requires held { seat.old.me.0.has_waiting ≡ true }
        requires most { length (seat.old.me.0.taken ++ seat.old.me.0.waits) ≤ count }
        ensures same { (seat.new.table_id ≡ seat.old.table_id) × (seat.new.id ≡ seat.old.id) }
        ensures counted { seat.new.me ≡ (record seat.old.me.0 { count = count }, seat.old.me.1) }
    {
        self.table.shared.store::<CountStep>(seat, ADDED, count);
    }

    // Tells all that so many records are durable.
    fn note_durable(&self, seat: &mut PartSeat, count: u64)
        requires table { seat.old.table_id ≡ self.now.table }
        requires durable { count ≡ length seat.old.me.0.durable }
        ensures same { (seat.new.table_id ≡ seat.old.table_id) × (seat.new.id ≡ seat.old.id)
            × (seat.new.me ≡ seat.old.me) }
    {
        self.table
            .shared
            .fetch_max::<DurableNote>(seat, DURABLE, count);
    }

    /// Changes the part that was taken last for another.
    pub fn exchange(&self, seat: &mut PartSeat, slot: usize, part: JournalPart) -> JournalPart
        requires table { seat.old.table_id ≡ self.now.table }
        requires held { (old : JournalPart)
            × (seat.old.me.1 ≡ (slot, old) ∷ table.rest seat.old.me.1) }
        ensures same { (seat.new.table_id ≡ seat.old.table_id) × (seat.new.id ≡ seat.old.id) }
        ensures part { seat.old.me.1 ≡ (slot, result) ∷ table.rest seat.old.me.1 }
        ensures held { seat.new.me ≡ (seat.old.me.0, (slot, part) ∷ table.rest seat.old.me.1) }
    {
        self.table.shared.exchange(seat, slot, part)
    }

    // Wakes a thread that sleeps, if one may.
    fn wake(&self, word: usize, found: u64)
        requires { word < 5 }
    {
        if found == WANTED {
            self.table.shared.wake_one(word);
        }
    }

    // Wakes all that sleep until the log is given back, if one may.
    fn wake_each(&self, found: u64) {
        if found == WANTED {
            self.table.shared.wake_all(LOG);
        }
    }

    /// Gives the records that wait back as they were.
    pub fn return_waiting(&self, seat: &mut PartSeat)
        requires table { seat.old.table_id ≡ self.now.table }
        requires held { (seat.old.me.0.has_waiting ≡ true) × ((part : JournalPart)
            × (seat.old.me.1 ≡ (0, part) ∷ table.rest seat.old.me.1)
            × (part.bytes.items ≡ history.journal_bytes seat.old.me.0.waits)) }
        requires counted { seat.old.me.0.count
            ≡ length (seat.old.me.0.taken ++ seat.old.me.0.waits) }
        ensures same { (seat.new.table_id ≡ seat.old.table_id) × (seat.new.id ≡ seat.old.id) }
        ensures given { seat.new.me
            ≡ (record seat.old.me.0 { has_waiting = false }, table.rest seat.old.me.1) }
    {
        let found = self.table.shared.swap::<WaitingReturn>(seat, WAITING, FREE);
        self.wake(WAITING, found);
    }

    /// Gives them back with a record behind them.
    pub fn return_record(&self, seat: &mut PartSeat, bytes: &[u8])
        requires table { seat.old.table_id ≡ self.now.table }
        requires is_seat { seat.old.me.0.is_note ≡ false }
        requires held { (seat.old.me.0.has_waiting ≡ true) × ((part : JournalPart)
            × (seat.old.me.1 ≡ (0, part) ∷ table.rest seat.old.me.1)
            × (part.bytes.items ≡ history.journal_bytes seat.old.me.0.waits ++ bytes.now)) }
        requires counted { seat.old.me.0.count
            ≡ length (seat.old.me.0.taken ++ seat.old.me.0.waits) + 1 }
        ensures same { (seat.new.table_id ≡ seat.old.table_id) × (seat.new.id ≡ seat.old.id) }
        ensures own { history.entries_by seat.old.me.0.number
            ((seat.old.me.0.taken ++ seat.old.me.0.waits)
            ++ rule.own_entry seat.old.me.0 bytes.now ∷ [])
            ≡ seat.old.me.0.own ++ rule.own_entry seat.old.me.0 bytes.now ∷ [] }
        ensures given { seat.new.me
            ≡ (
              rule.with_record seat.old.me.0 (rule.own_entry seat.old.me.0 bytes.now),
              table.rest seat.old.me.1,
            ) }
    {
        let _ = bytes;
        let found = self.table.shared.swap::<RecordStep>(seat, WAITING, FREE);
        self.wake(WAITING, found);
    }

    /// Gives the part back without records, where the seat holds the log too.
    pub fn return_none(&self, seat: &mut PartSeat)
        requires table { seat.old.table_id ≡ self.now.table }
        requires log { (seat.old.me.0.has_waiting ≡ true) × (seat.old.me.0.has_log ≡ true) }
        requires held { (part : JournalPart)
            × (seat.old.me.1 ≡ (0, part) ∷ table.rest seat.old.me.1)
            × (part.bytes.items ≡ []) }
        requires counted { seat.old.me.0.count
            ≡ length (seat.old.me.0.taken ++ seat.old.me.0.waits) }
        ensures same { (seat.new.table_id ≡ seat.old.table_id) × (seat.new.id ≡ seat.old.id) }
        ensures given { seat.new.me
            ≡ (rule.with_each_taken seat.old.me.0, table.rest seat.old.me.1) }
    {
        let found = self.table.shared.swap::<TakingStep>(seat, WAITING, FREE);
        self.wake(WAITING, found);
    }

    /// Gives the log back, in which all is durable that was taken, so many records.
    pub fn settle_log(&self, seat: &mut PartSeat, count: u64)
        requires table { seat.old.table_id ≡ self.now.table }
        requires held { (seat.old.me.0.has_log ≡ true) × ((part : JournalPart)
            × (commits : CommitLog FileLog)
            × (seat.old.me.1 ≡ (1, part) ∷ table.rest seat.old.me.1)
            × (part.commits ≡ Some commits)
            × rule.KeepsDurable seat.old.me.0.first seat.old.me.0.taken seat.old.me.0.taken
            commits
            × rule.HasCopies seat.old.me.0.first seat.old.me.0.taken seat.old.me.0.copied part) }
        requires count { count ≡ length seat.old.me.0.taken }
        ensures same { (seat.new.table_id ≡ seat.old.table_id) × (seat.new.id ≡ seat.old.id) }
        ensures given { seat.new.me
            ≡ (
              record seat.old.me.0 { has_log = false; durable = seat.old.me.0.taken },
              table.rest seat.old.me.1,
            ) }
    {
        let found = self.table.shared.swap::<SettlingStep>(seat, LOG, FREE);
        self.note_durable(seat, count);
        self.wake_each(found);
    }

    /// Gives the log back, in which no more is durable than before.
    pub fn return_log(&self, seat: &mut PartSeat)
        requires table { seat.old.table_id ≡ self.now.table }
        requires held { (seat.old.me.0.has_log ≡ true) × ((part : JournalPart)
            × (commits : CommitLog FileLog)
            × (seat.old.me.1 ≡ (1, part) ∷ table.rest seat.old.me.1)
            × (part.commits ≡ Some commits)
            × rule.KeepsDurable seat.old.me.0.first seat.old.me.0.taken seat.old.me.0.written
            commits
            × rule.HasCopies seat.old.me.0.first seat.old.me.0.written seat.old.me.0.copied part) }
        ensures same { (seat.new.table_id ≡ seat.old.table_id) × (seat.new.id ≡ seat.old.id) }
        ensures given { seat.new.me
            ≡ (record seat.old.me.0 { has_log = false }, table.rest seat.old.me.1) }
    {
        let found = self.table.shared.swap::<LogReturn>(seat, LOG, FREE);
        self.wake_each(found);
    }

    /// Gives the log back, all of whose durable bytes were given to the seat, which follows it. No more
    /// is durable than before.
    pub fn return_copied(&self, seat: &mut PartSeat)
        requires table { seat.old.table_id ≡ self.now.table }
        requires follows { (seat.old.me.0.is_note ≡ false) × (seat.old.me.0.number ≡ 0) }
        requires held { (seat.old.me.0.has_log ≡ true) × ((part : JournalPart)
            × (commits : CommitLog FileLog)
            × (seat.old.me.1 ≡ (1, part) ∷ table.rest seat.old.me.1)
            × (part.commits ≡ Some commits)
            × rule.KeepsDurable seat.old.me.0.first seat.old.me.0.taken seat.old.me.0.written
            commits
            × (part.bytes.items ≡ [])) }
        ensures same { (seat.new.table_id ≡ seat.old.table_id) × (seat.new.id ≡ seat.old.id) }
        ensures given { seat.new.me
            ≡ (rule.with_copies seat.old.me.0, table.rest seat.old.me.1) }
    {
        let found = self.table.shared.swap::<CopyStep>(seat, LOG, FREE);
        self.wake_each(found);
    }
}
