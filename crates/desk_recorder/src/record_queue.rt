//! A queue of records, from which a log takes them.

ghost use Rattle.std.specs.Prelude.{◌≡◌, ◌++◌, ℕ, List, OnErr, OnOk};

use refusal::NoMemory;

/// Takes the records of a desk's changes, in order.
pub trait RecordQueue: Drop {
    // All bytes that it has taken.
    ghost taken: { Self → List ℕ };

    // It was told that a record is missing.
    ghost has_failed: { Self → Type 0 } = { λ _. Unit {0} };

    /// Makes room for so many bytes more. Unchanged in either case.
    fn reserve(&mut self, len: usize) -> Result<(), NoMemory>
        ensures same { taken self.new ≡ taken self.old };

    /// Puts a record behind those that it has. After an error it has none more.
    fn add(&mut self, bytes: &[u8]) -> Result<(), NoMemory>
        ensures ok { OnOk result (taken self.new ≡ taken self.old ++ bytes.now) }
        ensures err { OnErr result (taken self.new ≡ taken self.old) };

    /// No record can be made any more: nothing is to be told from now on.
    fn fail(&mut self)
        ensures same { taken self.new ≡ taken self.old }
        ensures failed { has_failed self.new };
}
