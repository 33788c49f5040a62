//! A log in memory, for tests: it stops at a call.

ghost use Rattle.std.specs.Prelude.{◌≡◌, [], take, ◌<◌, ◌-◌, ◌/◌};
ghost use Rattle.journal.specs.Logs.{LogState};

use crate::log::{Log, LogFault};
use std::alloc::Global;

/// A log in memory. It serves so many calls, fails in the middle of the next one, and then always.
#[derive(Drop)]
pub struct MemoryLog {
    pub durable: Vec<u8>,
    pub pending: Vec<u8>,
    calls_left: u64,
}

impl MemoryLog {
    /// A log with these bytes, all of them on the disk.
    pub fn new(alloc: Global, durable: Vec<u8>, calls_left: u64) -> MemoryLog
        ensures durable { result.durable.items ≡ durable.items }
        ensures pending { result.pending.items ≡ [] }
        ensures calls { result.calls_left ≡ calls_left }
    {
        MemoryLog {
            durable,
            pending: Vec::new(alloc),
            calls_left,
        }
    }
}

impl Log for MemoryLog {
    ghost use Rattle.journal.specs.Memory.{memory_state};

    ghost state = { memory_state };

    ghost fails = { λ _ new. new.calls_left ≡ 0 };

    fn append(&mut self, bytes: &[u8]) -> Result<(), LogFault> {
        if self.calls_left == 0 {
            return Err(LogFault);
        }
        self.calls_left -= 1;
        if self.calls_left == 0 {
            let _ = self.pending.extend_from_slice(&bytes[..bytes.len() / 2]);
            return Err(LogFault);
        }
        match self.pending.extend_from_slice(bytes) {
            Ok(()) => Ok(()),
            Err(_) => {
                self.calls_left = 0;
                Err(LogFault)
            }
        }
    }

    fn sync(&mut self) -> Result<(), LogFault> {
        if self.calls_left <= 1 {
            self.calls_left = 0;
            return Err(LogFault);
        }
        self.calls_left -= 1;
        match self.durable.extend_from_slice(&self.pending) {
            Ok(()) => {
                self.pending.clear();
                Ok(())
            }
            Err(_) => {
                self.calls_left = 0;
                Err(LogFault)
            }
        }
    }
}
