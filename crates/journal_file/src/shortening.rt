//! A snapshot's file in the place of a journal's, where it is at most half as long.

ghost use Rattle.std.specs.Prelude.{◌≡◌, ℕ, List, [], IfOk};
ghost use Rattle.compaction.specs.Files.{newly_opened};
ghost use Rattle.compaction.specs.Snapshots.{LeadsToHistory};
ghost use Rattle.journal.specs.Records.{AllFitRecords, journal_of};
ghost use Rattle.journal_file.specs.FileLogs.{file_state};
ghost use Rattle.journal_file.specs.FilePairs.{pair_moments};
ghost use Rattle.journal_file.specs.Shortening.{AllGoOnBehind, IsShortened};
ghost use Rattle.recovery.specs.Histories.{IsAfter};

use crate::file_log::FileLog;
use crate::file_pair::{FilePair, JournalPaths};
use compaction::{
    CompactFault, JournalFiles, ReplaceFault, Snapshot, put_snapshot, snapshot_bytes,
};
use journal::round_trip;
use std::alloc::Global;
use std::fs::{File, Files};
use std::os::unix::fs::MetadataExt;
use std::path::Path;
use std::{fs, io};

// What the path of a journal's snapshot ends with until it takes the journal's place. It has two dots: a
// host may name other journals by this one's path, a dot and a word.
const ENDING: &str = ".snapshot.new";

// The permissions among the bits of a file's mode.
const PERMISSIONS: u32 = 0o777;

/// The reason why a snapshot didn't take a journal's place.
#[derive(Drop)]
pub enum KeptBy {
    /// A growth was refused.
    NoMemory,
    /// A record of the snapshot would have 2^32 bytes or more.
    TooLarge,
    /// The new file wasn't made, or it was in use.
    NotMade(io::Error),
    /// The new file wasn't written.
    NotWritten,
}

/// What a journal's file came to, with the log that goes on from there.
#[derive(Drop)]
pub enum Shortened {
    /// A snapshot would be more than half as long: the journal is as it was.
    NotNeeded(FileLog),
    /// A snapshot took its place: these bytes.
    Replaced(FileLog, Vec<u8>),
    /// A snapshot should have, and couldn't: the journal is as it was.
    Kept(FileLog, KeptBy),
    /// A call failed, and either file may have the journal's name. Neither may be written to.
    Unknown,
}

/// The folder of a path.
pub fn folder_of(path: &str) -> &str {
    let folder = match Path::new(path).parent() {
        Some(folder) => folder.as_str(),
        None => "/",
    };
    if folder.is_empty() { "." } else { folder }
}

// The paths of a journal, the new file beside it and their folder. A symlink is followed first, since a
// rename would take its place, and not that of the file.
fn paths_of<R: Files<File = File>>(rt: &R, alloc: Global, path: &str) -> io::Result<JournalPaths> {
    let journal = rt.canonicalize(alloc, path)?;
    let journal = String::from_str(alloc, journal.as_str())?;
    let folder = String::from_str(alloc, folder_of(&journal))?;
    let new = format!(in alloc; "{journal}{ENDING}")?;
    Ok(JournalPaths {
        journal,
        new,
        folder,
    })
}

// The file of this path, which has these bytes, and an empty one beside it with the same permissions.
pub(crate) fn pair_at<'a, R: Files<File = File>>(
    rt: &'a R,
    alloc: Global,
    path: &str,
    journal: &[u8],
) -> io::Result<FilePair<'a, R>>
    ensures { IfOk result (λ pair. pair_moments pair ≡ newly_opened journal.now) }
{
    let paths = paths_of(rt, alloc, path)?;
    let mode = fs::metadata(rt, path)?.mode() & PERMISSIONS;
    FilePair::create(rt, alloc, paths, mode, journal)
}

// The same as [`shorten`], without what the log's bytes lead to.
fn put_shorter<R: Files<File = File>, M: Snapshot>(
    rt: &R,
    alloc: Global,
    path: &str,
    log: FileLog,
    machine: &M,
    journal: &[u8],
) -> Shortened
    ensures { IsShortened M.starts M.steps M.alike M.is_too_large machine.now journal.now log
        result }
{
    if journal.is_empty() {
        return Shortened::NotNeeded(log);
    }
    let bytes = match snapshot_bytes(alloc, machine) {
        Ok(bytes) => bytes,
        Err(CompactFault::TooLarge) => return Shortened::Kept(log, KeptBy::TooLarge),
        Err(_) => return Shortened::Kept(log, KeptBy::NoMemory),
    };
    if bytes.len() > journal.len() / 2 {
        return Shortened::NotNeeded(log);
    }
    let mut files = match pair_at(rt, alloc, path, journal) {
        Ok(files) => files,
        Err(error) => return Shortened::Kept(log, KeptBy::NotMade(error)),
    };
    match put_snapshot(machine, &bytes, &mut files) {
        Ok(()) => {
            let log = files.into_log(&bytes);
            Shortened::Replaced(log, bytes)
        }
        Err(ReplaceFault::Kept) => {
            let _ = files.discard();
            Shortened::Kept(log, KeptBy::NotWritten)
        }
        Err(ReplaceFault::Unknown) => Shortened::Unknown,
    }
}

/// Puts a snapshot of the state in the place of the journal that led to it, where it is at most half as
/// long: of the file of this path, which has these bytes, all of them durable.
///
/// The new file is `PATH.snapshot.new`, locked and with the old one's permissions. A file of that name,
/// which a crash has left, is removed. Who calls this has a lock on the old one.
pub fn shorten<R: Files<File = File>, M: Snapshot>(
    rt: &R,
    alloc: Global,
    path: &str,
    log: FileLog,
    machine: &M,
    journal: &[u8],
) -> Shortened
    ensures shortened { IsShortened M.starts M.steps M.alike M.is_too_large machine.now journal.now
        log result }
    ensures leads { (history : List (List ℕ)) → AllFitRecords history
        → IsAfter M.starts M.steps history machine.now → journal.now ≡ journal_of history
        → file_state log ≡ record { durable = journal.now; pending = [] }
        → AllGoOnBehind (λ bytes.
        LeadsToHistory M.starts M.steps M.alike bytes history machine.now) result }
{
    round_trip();
    put_shorter(rt, alloc, path, log, machine, journal)
}
