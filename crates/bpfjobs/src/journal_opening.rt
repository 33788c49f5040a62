//! The files of a server's journals: each opened or made, locked, read, and replayed.

ghost use Rattle.std.specs.Prelude.{◌≡◌, ◌+◌, ◌⊎◌, ◌++◌, ℕ, List, [], IfOk, IfSome, length, take};
ghost use Rattle.std.specs.Arc.{arc_value};
ghost use Rattle.journal.specs.Records.{DecodesTo, FitsRecord, record_of};
ghost use Rattle.journal_file.specs.FileLogs.{file_state};
ghost use Rattle.shared_journal.specs.Places.{AreAtTheirPlaces, AreFollowed};
ghost use Rattle.recovery.specs.Histories.{IsAfter};
ghost use Rattle.keyed_desk.specs.KeyedSnapshots.{AreKeyedAlike};
ghost use Rattle.keyed_desk.specs.KeyedSteps.{IsNewKeyed, MakesKeyed};
ghost use Rattle.compaction.specs.Snapshots.{LeadsToHistory};

use crate::foreign_file::taken_for;
use crate::host_notes::tell_host;
use crate::journal_compacting::compacted;
use crate::journal_faults::{FileFault, SEARCH_BUDGET, fault_of, refused};
use crate::journal_following::JournalFollowers;
use crate::torn_records::keep_torn;
use bpfjobs_cli::{Serve, journal_paths};
use journal_file::{FileLog, folder_of};
use keyed_desk::{KeyedDesk, open_keyed_journal};
use recovery::Recovered;
use refusal::NoMemory;
use server_log::ServerLog;
use shared_journal::{JournalFollower, SharedJournal};
use std::alloc::Global;
use std::fs::{File, Files, TryLockError};
use std::io::Read;
use std::os::unix::fs::{MetadataExt, OpenOptionsExt};
use std::sync::{Arc, Wait};
use std::time::Clock;
use std::{fs, io};

// The permissions of a new journal, which has what tenants submitted: its owner alone reads it.
const OF_OWNER: u32 = 0o600;

// A journal that is open, who follows it, and the desk that its records lead to.
#[derive(Drop)]
struct OpenedJournal {
    journal: SharedJournal,
    follower: JournalFollower,
    desk: KeyedDesk,
    ghost followed: { follower.journal ≡ journal.history },
}

/// The journals of a server that are open, one for each desk in order, with the paths of their files,
/// and the desks that their records lead to.
#[derive(Drop)]
pub struct OpenedJournals {
    pub paths: Arc<Vec<String>, Global>,
    pub journals: Arc<Vec<SharedJournal>, Global>,
    pub desks: Vec<KeyedDesk>,
    ghost paired: { length desks.items ≡ length (arc_value journals).items },
    ghost placed: { AreAtTheirPlaces (arc_value journals).items },
}

// The file, which nobody else has locked. It is made if it isn't there.
fn locked_file<R: Files<File = File>>(rt: &R, path: &str) -> Result<File, FileFault> {
    let file = File::options()
        .read(true)
        .write(true)
        .create(true)
        .mode(OF_OWNER)
        .open(rt, path)?;
    let opened = file.metadata()?;
    if !opened.is_file() {
        return Err(FileFault::NoRegularFile);
    }
    match file.try_lock() {
        Ok(()) => {}
        Err(TryLockError::WouldBlock) => return Err(FileFault::InUse),
        Err(TryLockError::Error(error)) => return Err(FileFault::System(error)),
    }
    // Another server may have put a snapshot in the file's place ahead of the lock.
    let named = fs::metadata(rt, path)?;
    if (opened.dev(), opened.ino()) != (named.dev(), named.ino()) {
        return Err(FileFault::InUse);
    }
    Ok(file)
}

// Syncs the folder of a file, so that the file's name is on the disk.
fn sync_name<R: Files<File = File>>(rt: &R, path: &str) -> io::Result<()> {
    File::open(rt, folder_of(path))?.sync_all()
}

// The file, locked, and its bytes. It is made if it isn't there.
fn locked_contents<R: Files<File = File>>(
    rt: &R,
    alloc: Global,
    path: &str,
) -> Result<(File, Vec<u8>), FileFault> {
    let mut file = locked_file(rt, path)?;
    let mut bytes = Vec::new(alloc);
    file.read_to_end(&mut bytes)?;
    Ok((file, bytes))
}

// The first bytes, so many. Others behind them are kept beside the file first, as a line tells.
fn first_bytes<R: Files<File = File> + Wait + Clock>(
    rt: &R,
    alloc: Global,
    notes: &ServerLog,
    path: &str,
    mut bytes: Vec<u8>,
    len: usize,
) -> io::Result<Vec<u8>>
    ensures { IfOk result (λ first. first.items ≡ take len bytes.items) }
{
    if len < bytes.len() {
        let cut = bytes.len() - len;
        let kept = keep_torn(rt, alloc, path, bytes.split_at(len).1)?;
        sync_name(rt, path)?;
        let text = format!(in alloc;
            "{path}: cut off {cut} bytes of a torn record, which {kept} has"
        );
        tell_host(rt, notes, text);
    }
    bytes.truncate(len);
    Ok(bytes)
}

// The desk that a file's records lead to, and a log that goes on right behind them, with its bytes:
// what stands there is cut off. Where a snapshot of the desk is much shorter, the log is that instead.
fn replayed<R: Files<File = File> + Wait + Clock>(
    rt: &R,
    alloc: Global,
    notes: &ServerLog,
    path: &str,
    file: File,
    bytes: Vec<u8>,
) -> Result<(FileLog, Vec<u8>, KeyedDesk), FileFault>
    ensures leads { IfOk result (λ opened. (history : List (List ℕ)) × (tail : List ℕ)
        × DecodesTo bytes.items history tail × IsAfter IsNewKeyed MakesKeyed history opened.2
        × LeadsToHistory IsNewKeyed MakesKeyed AreKeyedAlike opened.1.items history opened.2) }
    ensures settled { IfOk result (λ opened. file_state opened.0
        ≡ record { durable = opened.1.items; pending = [] }) }
    ensures begins { IfOk result (λ _. (bytes.items ≡ []) ⊎ ((payload : List ℕ) × (rest : List ℕ)
        × FitsRecord payload × (bytes.items ≡ record_of payload ++ rest))) }
{
    let Recovered { machine, len } = match open_keyed_journal(alloc, &bytes, SEARCH_BUDGET) {
        Ok(recovered) => recovered,
        Err(fault) => return Err(fault_of(alloc, &bytes, fault)),
    };
    if let Some(taken_for) = taken_for(&bytes) {
        return Err(FileFault::NoJournal(taken_for));
    }
    let whole = first_bytes(rt, alloc, notes, path, bytes, len)?;
    let Ok(log) = FileLog::open(alloc, file, &whole) else {
        return Err(FileFault::NotCut);
    };
    let (log, journal) = compacted(rt, alloc, notes, path, log, &machine, whole)?;
    Ok((log, journal, machine))
}

// The same from the file's path, for the desk at a place.
fn opened<R: Files<File = File> + Wait + Clock>(
    rt: &R,
    alloc: Global,
    notes: &ServerLog,
    place: usize,
    path: &str,
) -> Result<OpenedJournal, FileFault>
    ensures { IfOk result (λ opened. opened.journal.place ≡ place) }
{
    let (file, bytes) = locked_contents(rt, alloc, path)?;
    sync_name(rt, path)?;
    let (log, bytes, desk) = replayed(rt, alloc, notes, path, file, bytes)?;
    let Ok((journal, follower)) = SharedJournal::new(alloc, place, log, bytes) else {
        return Err(FileFault::NoMemory);
    };
    Ok(OpenedJournal {
        journal,
        follower,
        desk,
    })
}

// Looks whether a file may be gone on with. It is made if it isn't there, and else stays as it is.
fn examine<R: Files<File = File>>(rt: &R, alloc: Global, path: &str) -> Result<(), FileFault> {
    let (_file, bytes) = locked_contents(rt, alloc, path)?;
    match open_keyed_journal(alloc, &bytes, SEARCH_BUDGET) {
        Ok(_) => match taken_for(&bytes) {
            Some(taken_for) => Err(FileFault::NoJournal(taken_for)),
            None => Ok(()),
        },
        Err(fault) => Err(fault_of(alloc, &bytes, fault)),
    }
}

// Looks whether each of several files may be gone on with, before any of them is changed.
fn examine_all<R: Files<File = File> + Wait + Clock>(
    rt: &R,
    alloc: Global,
    notes: &ServerLog,
    paths: &[String],
) -> Result<(), u8> {
    for path in paths {
        if let Err(fault) = examine(rt, alloc, path) {
            return Err(refused(rt, alloc, notes, path, fault));
        }
    }
    Ok(())
}

// The journals in these files, who follows each, and the desks that their records lead to.
fn open_each<R: Files<File = File> + Wait + Clock>(
    rt: &R,
    alloc: Global,
    notes: &ServerLog,
    paths: &[String],
) -> Result<(Vec<SharedJournal>, Vec<JournalFollower>, Vec<KeyedDesk>), u8>
    ensures count { IfOk result (λ opened. (length opened.0.items ≡ length paths.now)
        × (length opened.2.items ≡ length paths.now)) }
    ensures placed { IfOk result (λ opened. AreAtTheirPlaces opened.0.items) }
    ensures followed { IfOk result (λ opened. AreFollowed opened.1.items opened.0.items) }
{
    let mut journals = Vec::new(alloc);
    let mut followers = Vec::new(alloc);
    let mut desks = Vec::new(alloc);
    for path in paths {
        let OpenedJournal {
            journal,
            follower,
            desk,
        } = match opened(rt, alloc, notes, journals.len(), path) {
            Ok(opened) => opened,
            Err(fault) => return Err(refused(rt, alloc, notes, path, fault)),
        };
        let Ok(()) = journals.push(journal) else {
            return Err(refused(rt, alloc, notes, path, FileFault::NoMemory));
        };
        let Ok(()) = followers.push(follower) else {
            return Err(refused(rt, alloc, notes, path, FileFault::NoMemory));
        };
        let Ok(()) = desks.push(desk) else {
            return Err(refused(rt, alloc, notes, path, FileFault::NoMemory));
        };
    }
    Ok((journals, followers, desks))
}

// A value that several have.
fn shared<T: Drop>(alloc: Global, value: T) -> Result<Arc<T, Global>, NoMemory>
    ensures { IfOk result (λ shared. arc_value shared ≡ value) }
{
    match Arc::new(alloc, value) {
        Ok(shared) => Ok(shared),
        Err(_) => Err(NoMemory),
    }
}

// Journals with what is theirs, and who follows them.
fn opened_with(
    alloc: Global,
    paths: Vec<String>,
    journals: Vec<SharedJournal>,
    followers: Vec<JournalFollower>,
    desks: Vec<KeyedDesk>,
) -> Result<(OpenedJournals, JournalFollowers), NoMemory>
    requires paired { length desks.items ≡ length journals.items }
    requires placed { AreAtTheirPlaces journals.items }
    requires followed { AreFollowed followers.items journals.items }
    ensures { IfOk result (λ opened. (arc_value opened.0.journals).items ≡ journals.items) }
{
    let paths = shared(alloc, paths)?;
    let journals = shared(alloc, journals)?;
    let own = Arc::try_clone(&paths)?;
    let known = Arc::try_clone(&journals)?;
    let followers = JournalFollowers::of(own, known, followers);
    let opened = OpenedJournals {
        paths,
        journals,
        desks,
    };
    Ok((opened, followers))
}

// The journals in these files, the first of which is named so, and who follows them.
fn open_journals<R: Files<File = File> + Wait + Clock>(
    rt: &R,
    alloc: Global,
    notes: &ServerLog,
    path: &str,
    paths: Vec<String>,
) -> Result<(OpenedJournals, JournalFollowers), u8>
    ensures { IfOk result
        (λ opened. length (arc_value opened.0.journals).items ≡ length paths.items) }
{
    if paths.len() > 1 {
        examine_all(rt, alloc, notes, &paths)?;
    }
    let (journals, followers, desks) = open_each(rt, alloc, notes, &paths)?;
    match opened_with(alloc, paths, journals, followers, desks) {
        Ok(opened) => Ok(opened),
        Err(NoMemory) => Err(refused(rt, alloc, notes, path, FileFault::NoMemory)),
    }
}

/// The journals in the files that a server's words name, if they do, and the desks that their records
/// lead to: first that of everybody else, and then one for each tenant; and who follows them. Where
/// there is no file, it is made. A torn record at the end of one is cut off and kept beside it, which a
/// line tells. A file that isn't empty and doesn't begin with a whole record is refused.
///
/// Where one of them isn't gone on with, a line names it and tells why, and the program ends with this
/// status. A file that was there is then as it was, unless one changed while they were opened.
pub fn open_server_journals<R: Files<File = File> + Wait + Clock>(
    rt: &R,
    alloc: Global,
    notes: &ServerLog,
    server: &Serve,
) -> Result<Option<(OpenedJournals, JournalFollowers)>, u8>
    ensures { IfOk result (λ opened. IfSome opened (λ some. length (arc_value some.0.journals).items
        ≡ length server.now.tenants.tenants.items + 1)) }
{
    let Some(path) = &server.journal else {
        return Ok(None);
    };
    let Ok(paths) = journal_paths(alloc, path, &server.tenants.tenants) else {
        return Err(refused(rt, alloc, notes, path, FileFault::NoMemory));
    };
    match open_journals(rt, alloc, notes, path, paths) {
        Ok(opened) => Ok(Some(opened)),
        Err(status) => Err(status),
    }
}
