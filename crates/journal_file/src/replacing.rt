//! A new file that is written while a log goes on with the journal, and takes the journal's place.

ghost use Rattle.std.specs.Prelude.{◌≡◌, ◌⊎◌, ◌++◌, ℕ, List, [], true, IfOk, OnOk, OnErr, IsErrOf};
ghost use Rattle.compaction.specs.Files.{Old, MayLeave, KeepsOldJournal, HasNewJournal, newly_opened};
ghost use Rattle.compaction.specs.declared.replacement.ReplaceFault.TheVariants as replace_fault;
ghost use Rattle.journal_file.specs.FileLogs.{file_state};
ghost use Rattle.journal_file.specs.FilePairs.{pair_moments};

use crate::file_log::FileLog;
use crate::file_pair::FilePair;
use crate::shortening::pair_at;
use compaction::{JournalFiles, ReplaceFault, replace_journal};
use std::alloc::Global;
use std::fs::{File, Files};
use std::io;

/// An empty new file beside the journal of this path, with its permissions, which is written while a
/// log goes on with the journal.
///
/// It is `PATH.snapshot.new`, and locked. A file of that name, which a crash has left, is removed. Who
/// calls this has a lock on the journal.
pub fn open_beside<'a, R: Files<File = File>>(
    rt: &'a R,
    alloc: Global,
    path: &str,
) -> io::Result<FilePair<'a, R>>
    ensures { IfOk result (λ pair. pair_moments pair ≡ newly_opened []) }
{
    pair_at(rt, alloc, path, &[])
}

/// Puts the rest behind what the new file has, and the file in the place of the journal of this log.
///
/// A crash at any moment leaves what the log has made durable, or the new file's bytes in whole.
pub fn replace_beside<R: Files<File = File>>(
    files: &mut FilePair<'_, R>,
    log: &FileLog,
    rest: &[u8],
) -> Result<(), ReplaceFault>
    requires { (pair_moments files.old).now.named ≡ Old }
    ensures replaced { OnOk result (HasNewJournal
        ((pair_moments files.old).now.beside ++ rest.now) (pair_moments files.new)) }
    ensures kept { IsErrOf result replace_fault.Kept
        → KeepsOldJournal (file_state log.now).durable (pair_moments files.new) }
    ensures any_moment { (left : List ℕ) → MayLeave (pair_moments files.new) left
        → (left ≡ (file_state log.now).durable)
        ⊎ (left ≡ (pair_moments files.old).now.beside ++ rest.now) }
    ensures failed { OnErr result (files.new.has_failed ≡ true) }
{
    files.stand_beside(log);
    replace_journal(files, rest)
}

/// Puts the rest behind what the new file has, and the file in the place of the journal of this log, as
/// [`replace_beside`] does. Gives the log that goes on; `all` are the bytes of the new file in whole.
///
/// After `Kept` the new file is gone, and the journal is the old one. After `Unknown` neither file may
/// be written to.
pub fn take_place<R: Files<File = File>>(
    files: FilePair<'_, R>,
    log: &FileLog,
    rest: &[u8],
    all: &[u8],
) -> Result<FileLog, ReplaceFault>
    requires named { (pair_moments files).now.named ≡ Old }
    requires all { all.now ≡ (pair_moments files).now.beside ++ rest.now }
    ensures { IfOk result (λ new. file_state new ≡ record { durable = all.now; pending = [] }) }
{
    let mut files = files;
    match replace_beside(&mut files, log, rest) {
        Ok(()) => Ok(files.into_log(all)),
        Err(ReplaceFault::Kept) => {
            let _ = files.discard();
            Err(ReplaceFault::Kept)
        }
        Err(ReplaceFault::Unknown) => Err(ReplaceFault::Unknown),
    }
}
