//! A journal's file, and the new file that may take its name.

ghost use Rattle.std.specs.Prelude.{◌≡◌, ◌∷◌, [], true, false, IfOk};
ghost use Rattle.compaction.specs.Files.{Old, newly_opened};
ghost use Rattle.journal_file.specs.FileLogs.{file_state};
ghost use Rattle.journal_file.specs.FilePairs.{pair_moments};

use crate::file_log::FileLog;
use crate::ghost_steps::GhostSteps;
use compaction::JournalFiles;
use journal::LogFault;
use std::alloc::Global;
use std::fs::{File, Permissions};
use std::io::Write;
use std::os::unix::fs::{OpenOptionsExt, PermissionsExt};
use std::rt::Files;
use std::{fs, io};

// The permissions of a new file at first: its owner alone reads it.
const OF_OWNER: u32 = 0o600;

// What a step did, for the proofs.
const WROTE: [u8; 1] = [1];

const SYNCED: [u8; 1] = [2];

const RENAMED: [u8; 1] = [3];

const FOLDER_SYNCED: [u8; 1] = [4];

const STOOD_BESIDE: [u8; 1] = [5];

/// The paths of a journal, of the new file beside it, and of the folder of both.
#[derive(Debug, Drop)]
pub struct JournalPaths {
    pub journal: String,
    pub new: String,
    pub folder: String,
}

/// A journal's file, and the new file beside it, by their paths.
///
/// After a failure nothing more is asked of either. That the files have the bytes and the names is
/// trusted: no contract speaks of these.
#[derive(Drop)]
pub struct FilePair<'a, R> {
    rt: &'a R,
    alloc: Global,
    paths: JournalPaths,
    file: File,
    steps: GhostSteps,
    has_failed: bool,
}

// A new file of this path, empty and locked, with these permissions. What a crash left there is removed
// first.
fn new_file<R: Files<File = File>>(rt: &R, path: &str, mode: u32) -> io::Result<File> {
    let _ = fs::remove_file(rt, path);
    let file = File::options()
        .write(true)
        .create_new(true)
        .mode(OF_OWNER)
        .open(rt, path)?;
    file.try_lock()?;
    file.set_permissions(Permissions::from_mode(mode))?;
    Ok(file)
}

impl<'a, R: Files<File = File>> FilePair<'a, R> {
    /// The journal of this path, which has these bytes, and an empty new file beside it, with these
    /// permissions. The new one is locked, and stays so when it takes the journal's name. A file that
    /// has its name already is removed, and no link is followed there.
    pub fn create(
        rt: &'a R,
        alloc: Global,
        paths: JournalPaths,
        mode: u32,
        journal: &[u8],
    ) -> io::Result<FilePair<'a, R>>
        ensures { IfOk result (λ pair. pair_moments pair ≡ newly_opened journal.now) }
    {
        let file = new_file(rt, &paths.new, mode)?;
        Ok(FilePair {
            rt,
            alloc,
            paths,
            file,
            steps: GhostSteps::new().then(journal),
            has_failed: false,
        })
    }

    /// Removes the new file, which didn't take the journal's name.
    pub fn discard(self) -> io::Result<()> {
        fs::remove_file(self.rt, &self.paths.new)
    }

    /// From now on the journal is what this log has made durable. Nothing is done: it is for the
    /// proofs. Until then nothing is said of the journal, which has kept its name.
    pub fn stand_beside(&mut self, log: &FileLog)
        requires { (pair_moments self.old).now.named ≡ Old }
        ensures moments { pair_moments self.new ≡ record {
          now = record {
            journal = (file_state log.now).durable;
            beside = (pair_moments self.old).now.beside;
            is_synced = false;
            named = Old;
          };
          earlier = [];
        } }
        ensures failed { self.new.has_failed ≡ self.old.has_failed }
    {
        self.steps = self.steps.then(&STOOD_BESIDE).then_ghost(&log.durable);
    }

    // Notes a step, for the proofs.
    fn note(&mut self, mark: &[u8], bytes: &[u8])
        ensures steps { self.new.steps.steps ≡ bytes.now ∷ (mark.now ∷ self.old.steps.steps) }
        ensures failed { self.new.has_failed ≡ self.old.has_failed }
    {
        self.steps = self.steps.then(mark).then(bytes);
    }
}

// Syncs a folder.
fn sync_names<R: Files<File = File>>(rt: &R, folder: &str) -> io::Result<()> {
    File::open(rt, folder)?.sync_all()
}

impl<R: Files<File = File>> JournalFiles for FilePair<'_, R> {
    ghost use Rattle.journal_file.specs.FilePairs.{pair_moments};

    type NextLog = FileLog;

    ghost moments = { pair_moments };

    ghost fails = { λ _ new. new.has_failed ≡ true };

    fn write(&mut self, bytes: &[u8]) -> Result<(), LogFault> {
        if self.has_failed || self.file.write_all(bytes).is_err() {
            self.has_failed = true;
            self.note(&WROTE, &[]);
            return Err(LogFault);
        }
        self.note(&WROTE, bytes);
        Ok(())
    }

    fn sync(&mut self) -> Result<(), LogFault> {
        if self.has_failed || self.file.sync_all().is_err() {
            self.has_failed = true;
            return Err(LogFault);
        }
        self.note(&SYNCED, &[]);
        Ok(())
    }

    fn rename(&mut self) -> Result<(), LogFault> {
        self.note(&RENAMED, &[]);
        if self.has_failed || fs::rename(self.rt, &self.paths.new, &self.paths.journal).is_err() {
            self.has_failed = true;
            return Err(LogFault);
        }
        Ok(())
    }

    fn sync_folder(&mut self) -> Result<(), LogFault> {
        if self.has_failed || sync_names(self.rt, &self.paths.folder).is_err() {
            self.has_failed = true;
            return Err(LogFault);
        }
        self.note(&FOLDER_SYNCED, &[]);
        Ok(())
    }

    fn into_log(self, bytes: &[u8]) -> FileLog {
        let FilePair { alloc, file, .. } = self;
        FileLog::over(alloc, file, bytes)
    }
}
