//! A log over a file.

ghost use Rattle.std.specs.Prelude.{◌≡◌, [], true, IfOk};

use crate::ghost_bytes::GhostBytes;
use journal::{Log, LogFault};
use std::alloc::Global;
use std::fs::File;
use std::io::{Seek, SeekFrom, Write};

/// A log over a file.
///
/// Appended bytes wait in memory for the next sync, which writes them and asks the system to put
/// them on the disk. After a failure nothing more is asked of the file. That the file has the bytes
/// is trusted: no contract speaks of a file's contents.
#[derive(Drop)]
pub struct FileLog {
    file: File,
    pub(crate) durable: GhostBytes,
    pending: Vec<u8>,
    has_failed: bool,
}

impl FileLog {
    ghost use Rattle.journal_file.specs.FileLogs.{file_state};

    /// A log over a file that begins with these bytes. Cuts off what stands behind them, and syncs.
    pub fn open(alloc: Global, file: File, bytes: &[u8]) -> Result<FileLog, LogFault>
        ensures { IfOk result (λ log.
            file_state log ≡ record { durable = bytes.now; pending = [] }) }
    {
        match settle(file, bytes.len() as u64) {
            Ok(file) => Ok(FileLog::over(alloc, file, bytes)),
            Err(_) => Err(LogFault),
        }
    }

    // A log over a file of these bytes, durable, which is at its end.
    pub(crate) fn over(alloc: Global, file: File, bytes: &[u8]) -> FileLog
        ensures { file_state result ≡ record { durable = bytes.now; pending = [] } }
    {
        FileLog {
            file,
            durable: GhostBytes::new().then(bytes),
            pending: Vec::new(alloc),
            has_failed: false,
        }
    }
}

// Cuts a file, syncs it, and goes to its end.
fn settle(file: File, len: u64) -> std::io::Result<File> {
    let mut file = file;
    file.set_len(len)?;
    file.sync_all()?;
    file.seek(SeekFrom::Start(len))?;
    Ok(file)
}

// Writes bytes, and waits until they are on the disk.
fn put_on_disk(file: &mut File, bytes: &[u8]) -> std::io::Result<()> {
    file.write_all(bytes)?;
    file.sync_data()
}

impl Log for FileLog {
    ghost use Rattle.journal_file.specs.FileLogs.{file_state};

    ghost state = { file_state };

    ghost fails = { λ _ new. new.has_failed ≡ true };

    fn append(&mut self, bytes: &[u8]) -> Result<(), LogFault> {
        if self.has_failed {
            return Err(LogFault);
        }
        match self.pending.extend_from_slice(bytes) {
            Ok(()) => Ok(()),
            Err(_) => {
                self.has_failed = true;
                Err(LogFault)
            }
        }
    }

    fn sync(&mut self) -> Result<(), LogFault> {
        if self.has_failed {
            return Err(LogFault);
        }
        if self.pending.is_empty() {
            return Ok(());
        }
        if put_on_disk(&mut self.file, &self.pending).is_err() {
            self.has_failed = true;
            return Err(LogFault);
        }
        self.durable = self.durable.then(&self.pending);
        self.pending.clear();
        Ok(())
    }
}
