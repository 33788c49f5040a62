//! A log as a journal sees it: bytes are written at its end, and synced.

ghost use Rattle.std.specs.Prelude.{◌≡◌, ℕ, take, OnOk, OnErr};
ghost use Rattle.journal.specs.Logs.{LogState, appended, synced};

/// A write or a sync failed.
#[derive(Clone, Copy, Debug, PartialEq, Eq)]
pub struct LogFault;

/// Takes bytes at its end, and makes them durable.
pub trait Log {
    // What it holds.
    ghost state: { Self → LogState };

    // A call that failed may lead from one log to another.
    ghost fails: { Self → Self → Type 0 };

    /// Writes bytes at the end. After an error some beginning of them was written.
    fn append(&mut self, bytes: &[u8]) -> Result<(), LogFault>
        ensures ok { OnOk result (state self.new ≡ appended (state self.old) bytes.now) }
        ensures err { OnErr result ((n : ℕ)
            × (state self.new ≡ appended (state self.old) (take n bytes.now))) }
        ensures failed { OnErr result (fails self.old self.new) };

    /// Makes all that was written durable. After an error no more is durable than before.
    fn sync(&mut self) -> Result<(), LogFault>
        ensures ok { OnOk result (state self.new ≡ synced (state self.old)) }
        ensures err { OnErr result (state self.new ≡ state self.old) }
        ensures failed { OnErr result (fails self.old self.new) };
}
