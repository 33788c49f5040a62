//! A note of a journal as those see it who write replies.

ghost use Rattle.std.specs.Prelude.{◌≡◌, [], false, true, OnErr, OnOk};
ghost use mathlib.Core.List.{IsPrefix};

use journal::LogFault;
use std::sync::Wait;

/// A note of what was recorded in a journal. Who has it can make that durable.
pub trait GroupNote: Drop {
    ghost use Rattle.shared_journal.specs.JournalHistories.{NoteKnowledge};

    // What it knows of the journal.
    ghost known: { Self → NoteKnowledge };

    // Its journal was looked at, and had not failed.
    ghost sound: { Self → Type 0 };

    /// Makes all durable that the note says, with all that was added before. After an error none that
    /// follows answers `Ok`, and the note says that the journal has failed.
    fn commit<R: Wait>(&mut self, rt: &R) -> Result<(), LogFault>
        ensures same { (known self.new).journal ≡ (known self.old).journal }
        ensures seen { IsPrefix (known self.old).seen (known self.new).seen }
        ensures ok { OnOk result ((known self.new).durable ≡ (known self.new).seen) }
        ensures went_on { OnOk result ((known self.old).has_failed ≡ false) }
        ensures stopped { OnErr result ((known self.new).has_failed ≡ true) };

    /// Looks whether the journal has failed, which the note then says. Nothing is waited for.
    fn look(&mut self) -> Result<(), LogFault>
        ensures same { (known self.new).journal ≡ (known self.old).journal }
        ensures sound { OnOk result (sound self.new) }
        ensures went_on { OnOk result ((known self.old).has_failed ≡ false) }
        ensures failed { OnErr result ((known self.new).has_failed ≡ true) };
}

/// Makes notes of a journal.
pub trait NoteMaker<N: GroupNote> {
    ghost use Rattle.std.specs.Prelude.{ℕ};
    ghost use Rattle.shared_journal.specs.JournalHistories.{JournalName};

    // Which journal it is.
    ghost name: { Self → JournalName };

    // The place of the desk whose changes the journal keeps.
    ghost desk: { Self → ℕ };

    /// The place of the desk whose changes the journal keeps.
    fn place(&self) -> usize
        ensures { result ≡ desk self.now };

    /// A note of nothing.
    fn blank(&self) -> N
        ensures journal { (N.known result).journal ≡ name self.now }
        ensures none { ((N.known result).seen ≡ []) × ((N.known result).durable ≡ []) };
}
