//! The log of a shared journal, as the thread has it that commits.

ghost use Rattle.std.specs.Prelude.{◌≡◌, ◌⊎◌, ◌++◌, [], ℕ, false, true, take, IsErr, OnOk, OnErr};
ghost use Rattle.journal.specs.Logs.{appended, synced};

use journal::{Log, LogFault};
use std::alloc::Global;
use std::mem;

// A buffer that is larger is given back once it was written.
const MOST_KEPT: usize = 1 << 20;

/// A log, and the bytes that were taken to be written to it.
#[derive(Drop)]
pub(crate) struct CommitLog<L> {
    alloc: Global,
    log: L,
    taken: Vec<u8>,
    has_failed: bool,
}

impl<L: Log> CommitLog<L> {
    /// A log that has not failed.
    pub fn new(alloc: Global, log: L) -> CommitLog<L>
        ensures { (result.log ≡ log) × (result.has_failed ≡ false) }
    {
        CommitLog {
            alloc,
            log,
            taken: Vec::new(alloc),
            has_failed: false,
        }
    }

    /// Whether it has failed.
    pub fn has_failed(&self) -> bool
        ensures { result ≡ self.now.has_failed }
    {
        self.has_failed
    }

    /// The log itself.
    pub fn log(&self) -> &L
        ensures { result.now ≡ self.now.log }
    {
        &self.log
    }

    /// From now on no call answers `Ok`.
    pub fn fail(&mut self)
        ensures { (self.new.log ≡ self.old.log) × (self.new.has_failed ≡ true) }
    {
        self.has_failed = true;
    }

    /// Its buffer, without bytes.
    pub fn empty_buffer(&mut self) -> Vec<u8>
        ensures none { result.items ≡ [] }
        ensures same { (self.new.log ≡ self.old.log) × (self.new.has_failed ≡ self.old.has_failed) }
    {
        self.taken.clear();
        mem::replace(&mut self.taken, Vec::new(self.alloc))
    }

    // Writes the bytes that were taken, and syncs. After an error a beginning of them was written.
    fn write_taken(&mut self) -> Result<(), LogFault>
        ensures ok { OnOk result (L.state self.new.log
            ≡ synced (appended (L.state self.old.log) self.old.taken.items)) }
        ensures none { OnOk result (self.new.taken.items ≡ []) }
        ensures goes_on { OnOk result (self.new.has_failed ≡ self.old.has_failed) }
        ensures err { OnErr result ((n : ℕ) × (L.state self.new.log
            ≡ appended (L.state self.old.log) (take n self.old.taken.items))) }
        ensures stops { OnErr result (self.new.has_failed ≡ true) }
        ensures log_failed { OnErr result ((before : L) × L.fails before self.new.log) }
    {
        if self.log.append(&self.taken).is_err() {
            self.has_failed = true;
            return Err(LogFault);
        }
        if self.log.sync().is_err() {
            self.has_failed = true;
            return Err(LogFault);
        }
        self.taken.clear();
        Ok(())
    }

    /// Writes these bytes, and syncs. After an error no call answers `Ok` again. Without bytes
    /// nothing is asked of the log.
    pub fn write(&mut self, bytes: Vec<u8>) -> Result<(), LogFault>
        ensures goes_on { OnOk result ((self.old.has_failed ≡ false)
            × (self.new.has_failed ≡ false)) }
        ensures durable { OnOk result ((L.state self.old.log).pending ≡ []
            → L.state self.new.log ≡ record {
              durable = (L.state self.old.log).durable ++ bytes.items;
              pending = [];
            }) }
        ensures stops { OnErr result (self.new.has_failed ≡ true) }
        ensures kept { OnErr result ((L.state self.new.log).durable
            ≡ (L.state self.old.log).durable) }
        ensures stopped { self.old.has_failed ≡ true → IsErr result × (self.new ≡ self.old) }
        ensures log_failed { OnErr result ((self.old.has_failed ≡ true)
            ⊎ ((before : L) × L.fails before self.new.log)) }
    {
        if self.has_failed {
            return Err(LogFault);
        }
        if bytes.is_empty() {
            return Ok(());
        }
        self.taken = bytes;
        self.write_taken()?;
        self.shrink();
        Ok(())
    }

    // Gives a large buffer back.
    fn shrink(&mut self)
        requires { self.old.taken.items ≡ [] }
        ensures log { self.new.log ≡ self.old.log }
        ensures none { self.new.taken.items ≡ [] }
        ensures same { self.new.has_failed ≡ self.old.has_failed }
    {
        if self.taken.capacity() > MOST_KEPT {
            self.taken = Vec::new(self.alloc);
        }
    }
}

#[cfg(test)]
mod tests {
    use super::CommitLog;
    use crate::waiting_records::put_behind;
    use journal::MemoryLog;
    use std::mem;

    // What waits is durable behind a commit. A commit that fails is the last one.
    #[test]
    fn commits_up_to_a_failure(rt: HostRuntime) {
        let alloc = rt.alloc();
        let log = MemoryLog::new(alloc, Vec::new(alloc), 3);
        let mut commits = CommitLog::new(alloc, log);
        let mut waiting = Vec::new(alloc);
        assert!(rt; commits.write(Vec::new(alloc)).is_ok());
        assert!(rt; put_behind(&mut waiting, &[1, 2]).is_ok());
        assert!(rt; put_behind(&mut waiting, &[3]).is_ok());
        let buffer = commits.empty_buffer();
        assert!(rt; commits.write(mem::replace(&mut waiting, buffer)).is_ok());
        assert!(rt; commits.log.durable.as_slice() == [1, 2, 3].as_slice());
        assert!(rt; put_behind(&mut waiting, &[4, 5]).is_ok());
        assert!(rt; commits.write(waiting).is_err());
        assert!(rt; commits.write(Vec::new(alloc)).is_err());
        assert!(rt; commits.log.durable.as_slice() == [1, 2, 3].as_slice());
    }
}
