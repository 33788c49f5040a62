//! A journal at a start, in whose place a snapshot of its desk comes where that is much shorter, and
//! the lines that tell of it.

ghost use Rattle.std.specs.Prelude.{◌≡◌, ℕ, List, [], IfOk};
ghost use Rattle.compaction.specs.Snapshots.{LeadsToHistory};
ghost use Rattle.keyed_desk.specs.KeyedSnapshots.{AreKeyedAlike};
ghost use Rattle.keyed_desk.specs.KeyedSteps.{IsNewKeyed, MakesKeyed};
ghost use Rattle.journal.specs.Records.{AllFitRecords, journal_of};
ghost use Rattle.journal_file.specs.FileLogs.{file_state};
ghost use Rattle.recovery.specs.Histories.{IsAfter};

use crate::host_notes::tell_host;
use crate::journal_faults::FileFault;
use journal_file::{FileLog, KeptBy, Shortened, shorten};
use keyed_desk::KeyedDesk;
use server_log::ServerLog;
use std::alloc::{AllocError, Global};
use std::fs::{File, Files};
use std::sync::Wait;
use std::time::Clock;

/// Tells that a snapshot took a journal's place, and how many bytes both have.
pub fn tell_compacted<R: Wait + Clock>(
    rt: &R,
    alloc: Global,
    log: &ServerLog,
    path: &str,
    old: usize,
    new: usize,
) {
    let text = format!(in alloc; "{path}: compacted from {old} to {new} bytes");
    tell_host(rt, log, text);
}

// The words that tell why a snapshot didn't take a journal's place.
fn kept_text(alloc: Global, path: &str, why: KeptBy) -> Result<String, AllocError> {
    match why {
        KeptBy::NoMemory => format!(in alloc; "{path}: not compacted: no memory for a snapshot"),
        KeptBy::TooLarge => format!(in alloc; "{path}: not compacted: a record is too large"),
        KeptBy::NotMade(error) => format!(in alloc; "{path}: not compacted: {error}"),
        KeptBy::NotWritten => format!(in alloc;
            "{path}: not compacted: a snapshot can't be written"
        ),
    }
}

/// Tells why a snapshot didn't take a journal's place.
pub fn tell_kept<R: Wait + Clock>(rt: &R, alloc: Global, log: &ServerLog, path: &str, why: KeptBy) {
    tell_host(rt, log, kept_text(alloc, path, why));
}

/// The log that a desk's journal goes on with, which was this one over the file of this path, and its
/// bytes. Where a snapshot of the desk has at most half as many bytes as the journal, it takes the
/// file's place, which a line tells. Else, and where it can't, the log is the one that there was.
///
/// Refused where it isn't known which file has the path. Each leads to this desk.
pub fn compacted<R: Files<File = File> + Wait + Clock>(
    rt: &R,
    alloc: Global,
    notes: &ServerLog,
    path: &str,
    log: FileLog,
    desk: &KeyedDesk,
    journal: Vec<u8>,
) -> Result<(FileLog, Vec<u8>), FileFault>
    requires { file_state log ≡ record { durable = journal.items; pending = [] } }
    ensures leads { (history : List (List ℕ)) → AllFitRecords history
        → IsAfter IsNewKeyed MakesKeyed history desk.now → journal.items ≡ journal_of history
        → IfOk result (λ settled. LeadsToHistory IsNewKeyed MakesKeyed AreKeyedAlike
        settled.1.items history desk.now) }
    ensures settled { IfOk result (λ settled. file_state settled.0
        ≡ record { durable = settled.1.items; pending = [] }) }
{
    match shorten(rt, alloc, path, log, desk, &journal) {
        Shortened::NotNeeded(log) => Ok((log, journal)),
        Shortened::Replaced(log, bytes) => {
            tell_compacted(rt, alloc, notes, path, journal.len(), bytes.len());
            Ok((log, bytes))
        }
        Shortened::Kept(log, why) => {
            tell_kept(rt, alloc, notes, path, why);
            Ok((log, journal))
        }
        Shortened::Unknown => Err(FileFault::NotReplaced),
    }
}
