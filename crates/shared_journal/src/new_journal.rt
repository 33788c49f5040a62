//! The new file of a journal that is compacted while its log goes on.

ghost use Rattle.std.specs.Prelude.{◌≡◌, ◌++◌, [], IfOk};
ghost use Rattle.compaction.specs.Files.NamedFile.{Old};
ghost use Rattle.journal_file.specs.FilePairs.{pair_moments};
ghost use Rattle.journal_file.specs.FileLogs.{file_state};

use compaction::{JournalFiles, ReplaceFault};
use journal_file::{FileLog, FilePair, KeptBy, open_beside, take_place};
use std::alloc::Global;
use std::fs::{File, Files};

/// A new file beside a journal, with all bytes that were written to it. Where one can't be written,
/// the file is removed.
#[derive(Drop)]
pub(crate) struct NewJournal<'a, R> {
    files: FilePair<'a, R>,
    bytes: Vec<u8>,
    ghost named: { (pair_moments files).now.named ≡ Old },
    ghost beside: { (pair_moments files).now.beside ≡ bytes.items },
}

// Writes bytes behind those of the new file, or removes it.
fn written<'a, R: Files<File = File>>(
    mut files: FilePair<'a, R>,
    bytes: &[u8],
) -> Result<FilePair<'a, R>, KeptBy>
    requires { (pair_moments files).now.named ≡ Old }
    ensures named { IfOk result (λ files. (pair_moments files).now.named ≡ Old) }
    ensures beside { IfOk result (λ new. (pair_moments new).now.beside
        ≡ (pair_moments files.entry).now.beside ++ bytes.now) }
{
    match files.write(bytes) {
        Ok(()) => Ok(files),
        Err(_) => {
            let _ = files.discard();
            Err(KeptBy::NotWritten)
        }
    }
}

impl<'a, R: Files<File = File>> NewJournal<'a, R> {
    /// A file beside the journal of this path, with these bytes.
    pub fn create(
        rt: &'a R,
        alloc: Global,
        path: &str,
        bytes: Vec<u8>,
    ) -> Result<NewJournal<'a, R>, KeptBy>
        ensures { IfOk result (λ new. new.bytes.items ≡ bytes.items) }
    {
        let files = match open_beside(rt, alloc, path) {
            Ok(files) => files,
            Err(error) => return Err(KeptBy::NotMade(error)),
        };
        let files = written(files, &bytes)?;
        Ok(NewJournal { files, bytes })
    }

    /// The same with these bytes behind.
    pub fn with(self, more: &[u8]) -> Result<NewJournal<'a, R>, KeptBy>
        ensures { IfOk result (λ new. new.bytes.items ≡ self.entry.bytes.items ++ more.now) }
    {
        let NewJournal { files, mut bytes } = self;
        if bytes.extend_from_slice(more).is_err() {
            let _ = files.discard();
            return Err(KeptBy::NoMemory);
        }
        let files = written(files, more)?;
        Ok(NewJournal { files, bytes })
    }

    /// The same, on the disk.
    pub fn synced(self) -> Result<NewJournal<'a, R>, KeptBy>
        ensures { IfOk result (λ new. new.bytes.items ≡ self.entry.bytes.items) }
    {
        let NewJournal { mut files, bytes } = self;
        if files.sync().is_err() {
            let _ = files.discard();
            return Err(KeptBy::NotWritten);
        }
        Ok(NewJournal { files, bytes })
    }

    /// Removes the file.
    pub fn discard(self) {
        let NewJournal { files, .. } = self;
        let _ = files.discard();
    }

    /// Takes the journal's place, with the last bytes behind. The journal is what this log made durable
    /// until then. Gives the log that goes on, and how many bytes it has.
    pub fn take_place(self, log: &FileLog, last: &[u8]) -> Result<(FileLog, usize), ReplaceFault>
        ensures { IfOk result (λ taken. file_state taken.0
            ≡ record { durable = self.entry.bytes.items ++ last.now; pending = [] }) }
    {
        let NewJournal { files, mut bytes } = self;
        if bytes.extend_from_slice(last).is_err() {
            let _ = files.discard();
            return Err(ReplaceFault::Kept);
        }
        let log = take_place(files, log, last, &bytes)?;
        Ok((log, bytes.len()))
    }
}
