//! What each seat of a journal knows, and the kinds of step.

use crate::journal_part::JournalPart;
use atomic_table::{Play, Split, TableRule};
use journal_file::FileLog;
use std::collections::LinkedList;
use std::snapshot::Snapshot;

/// A record of a journal's history: the seat that put it in, and its bytes. No value of it is made.
pub struct JournalEntry {
    pub by: u64,
    pub bytes: LinkedList<u8>,
}

/// A seat's knowledge. No value of it is made.
///
/// Each seat knows its number, what the log held at first, a beginning of the history, its own
/// records, a beginning of what is durable, whether the journal failed, and how many records it
/// counted last. While it holds a part it knows the records that were taken, and those that wait,
/// or those that the log has. Who holds the log or follows the journal knows the bytes that were
/// given to who follows it. It may be a note of what another seat had seen, and puts nothing in then.
pub struct JournalView {
    pub number: u64,
    pub first: LinkedList<u8>,
    pub seen: LinkedList<JournalEntry>,
    pub own: LinkedList<JournalEntry>,
    pub durable: LinkedList<JournalEntry>,
    pub is_failed: bool,
    pub has_waiting: bool,
    pub has_log: bool,
    pub count: u64,
    pub taken: LinkedList<JournalEntry>,
    pub waits: LinkedList<JournalEntry>,
    pub written: LinkedList<JournalEntry>,
    pub copied: LinkedList<u8>,
    pub is_note: bool,
}

/// There is one history of a journal.
pub(crate) struct OneJournal;

impl TableRule<JournalPart, JournalView, Snapshot<FileLog>> for OneJournal {
    ghost use Rattle.journal_file.specs.FileLogs.{file_state};
    ghost use Rattle.shared_journal.specs.JournalRule.{IsJournal, journal_founder};

    ghost holds = { λ key s. IsJournal (file_state key.value).durable s.words s.homes s.views };

    ghost first = { λ key. journal_founder (file_state key.value).durable };
}

/// A new seat.
pub(crate) struct Watching;

impl Play<JournalPart, JournalView> for Watching {
    ghost use Rattle.shared_journal.specs.JournalRule.{Watches};

    ghost then = { Watches };
}

/// A new seat that is a note of nothing.
pub(crate) struct BlankNote;

impl Play<JournalPart, JournalView> for BlankNote {
    ghost use Rattle.shared_journal.specs.JournalRule.{IsBlankNote};

    ghost then = { IsBlankNote };
}

/// A note of what a seat had seen.
pub(crate) struct NoteSplit;

impl Split<JournalView> for NoteSplit {
    ghost use Rattle.shared_journal.specs.JournalRule.{noted_view};

    ghost left = { λ v. v };

    ghost right = { noted_view };
}

/// A try to hold the records that wait.
pub(crate) struct WaitingTry;

impl Play<JournalPart, JournalView> for WaitingTry {
    ghost use Rattle.shared_journal.specs.JournalRule.{TriesWaiting};

    ghost then = { TriesWaiting };
}

/// A mark that a thread sleeps.
pub(crate) struct SleepMark;

impl Play<JournalPart, JournalView> for SleepMark {
    ghost use Rattle.shared_journal.specs.JournalRule.{StaysAsItIs};

    ghost then = { StaysAsItIs };
}

/// Those that wait are given back.
pub(crate) struct WaitingReturn;

impl Play<JournalPart, JournalView> for WaitingReturn {
    ghost use Rattle.shared_journal.specs.JournalRule.{ReturnsWaiting};

    ghost then = { ReturnsWaiting };
}

/// One more record waits.
pub(crate) struct RecordStep;

impl Play<JournalPart, JournalView> for RecordStep {
    ghost use Rattle.shared_journal.specs.JournalRule.{AddsRecord};

    ghost then = { AddsRecord };
}

/// All that wait are taken.
pub(crate) struct TakingStep;

impl Play<JournalPart, JournalView> for TakingStep {
    ghost use Rattle.shared_journal.specs.JournalRule.{TakesEach};

    ghost then = { TakesEach };
}

/// A try to hold the log.
pub(crate) struct LogTry;

impl Play<JournalPart, JournalView> for LogTry {
    ghost use Rattle.shared_journal.specs.JournalRule.{TriesLog};

    ghost then = { TriesLog };
}

/// All that was taken is durable.
pub(crate) struct SettlingStep;

impl Play<JournalPart, JournalView> for SettlingStep {
    ghost use Rattle.shared_journal.specs.JournalRule.{SettlesLog};

    ghost then = { SettlesLog };
}

/// The log is given back.
pub(crate) struct LogReturn;

impl Play<JournalPart, JournalView> for LogReturn {
    ghost use Rattle.shared_journal.specs.JournalRule.{ReturnsLog};

    ghost then = { ReturnsLog };
}

/// The log is given back, and all that is durable was given to who follows the journal.
pub(crate) struct CopyStep;

impl Play<JournalPart, JournalView> for CopyStep {
    ghost use Rattle.shared_journal.specs.JournalRule.{CopiesLog};

    ghost then = { CopiesLog };
}

/// The journal fails.
pub(crate) struct FailingStep;

impl Play<JournalPart, JournalView> for FailingStep {
    ghost use Rattle.shared_journal.specs.JournalRule.{FailsIt};

    ghost then = { FailsIt };
}

/// A look whether the journal has failed.
pub(crate) struct FailureLook;

impl Play<JournalPart, JournalView> for FailureLook {
    ghost use Rattle.shared_journal.specs.JournalRule.{LooksAtIt};

    ghost then = { LooksAtIt };
}

/// A look at all that was added.
pub(crate) struct EachLook;

impl Play<JournalPart, JournalView> for EachLook {
    ghost use Rattle.shared_journal.specs.JournalRule.{LooksAtEach};

    ghost then = { LooksAtEach };
}

/// A look whether what the seat has seen is durable.
pub(crate) struct DurableLook;

impl Play<JournalPart, JournalView> for DurableLook {
    ghost use Rattle.shared_journal.specs.JournalRule.{LooksAtDurable};

    ghost then = { LooksAtDurable };
}

/// A look how many records were added, while the seat holds those that wait.
pub(crate) struct CountLook;

impl Play<JournalPart, JournalView> for CountLook {
    ghost use Rattle.shared_journal.specs.JournalRule.{FindsCount};

    ghost then = { FindsCount };
}

/// Another number of records.
pub(crate) struct CountStep;

impl Play<JournalPart, JournalView> for CountStep {
    ghost use Rattle.shared_journal.specs.JournalRule.{CountsRecords};

    ghost then = { CountsRecords };
}

/// It is told how many records are durable.
pub(crate) struct DurableNote;

impl Play<JournalPart, JournalView> for DurableNote {
    ghost use Rattle.shared_journal.specs.JournalRule.{StaysAsItIs};

    ghost then = { StaysAsItIs };
}
