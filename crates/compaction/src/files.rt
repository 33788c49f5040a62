//! Two files as a compaction sees them: the journal, and a new one that may take its name.

ghost use Rattle.std.specs.Prelude.{◌≡◌, [], ℕ, take, OnOk, OnErr};
ghost use Rattle.journal.specs.Logs.{LogState};
ghost use Rattle.compaction.specs.Files.{Moments, HasNewJournal, file_wrote, file_synced, file_renamed, folder_synced};

use journal::{Log, LogFault};

/// A journal, and a new file beside it, empty at first.
pub trait JournalFiles {
    type NextLog: Log;

    // The states of the two files, at each moment so far.
    ghost moments: { Self → Moments };

    // A call that failed may lead from one to another.
    ghost fails: { Self → Self → Type 0 };

    /// Writes bytes at the end of the new file. After an error some beginning of them was written.
    fn write(&mut self, bytes: &[u8]) -> Result<(), LogFault>
        ensures ok { OnOk result (moments self.new ≡ file_wrote bytes.now (moments self.old)) }
        ensures err { OnErr result ((n : ℕ)
            × (moments self.new ≡ file_wrote (take n bytes.now) (moments self.old))) }
        ensures failed { OnErr result (fails self.old self.new) };

    /// Makes the new file's bytes durable. After an error no more is durable than before.
    fn sync(&mut self) -> Result<(), LogFault>
        ensures ok { OnOk result (moments self.new ≡ file_synced (moments self.old)) }
        ensures err { OnErr result (moments self.new ≡ moments self.old) }
        ensures failed { OnErr result (fails self.old self.new) };

    /// Renames the new file over the journal. After an error, too, it may have the journal's name.
    fn rename(&mut self) -> Result<(), LogFault>
        ensures moments { moments self.new ≡ file_renamed (moments self.old) }
        ensures failed { OnErr result (fails self.old self.new) };

    /// Makes the journal's name durable. After an error it may be that of either file.
    fn sync_folder(&mut self) -> Result<(), LogFault>
        ensures ok { OnOk result (moments self.new ≡ folder_synced (moments self.old)) }
        ensures err { OnErr result (moments self.new ≡ moments self.old) }
        ensures failed { OnErr result (fails self.old self.new) };

    /// The log that goes on behind the new file's bytes, which are these.
    fn into_log(self, bytes: &[u8]) -> Self::NextLog
        ensures { HasNewJournal bytes.now (moments self)
            → Self.NextLog.state result ≡ record { durable = bytes.now; pending = [] } };
}
