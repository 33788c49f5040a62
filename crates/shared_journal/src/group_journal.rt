//! A journal as those see it who write replies.

ghost use Rattle.std.specs.Prelude.{◌≡◌, true, MatchResult, OnErr, OnOk};

use crate::journal_table::JournalSeat;
use journal::LogFault;
use std::sync::Wait;

/// Makes all durable that was put into it. Only a call tells that a commit was made, or that it has
/// failed. It gives the seat by which it was made, which knows that all that it has seen is durable, or
/// that the journal has failed.
pub trait GroupJournal {
    ghost use Rattle.shared_journal.specs.JournalHistories.{JournalName};

    // Which journal it is.
    ghost name: { Self → JournalName };

    // All that it had taken was made durable.
    ghost committed: { Self → Type 0 };

    // It told that it has failed.
    ghost failed: { Self → Type 0 };

    /// Makes all durable that it has taken.
    fn commit_all<R: Wait>(&self, rt: &R) -> (JournalSeat, Result<(), LogFault>)
        ensures own { result.0.journal ≡ name self.now }
        ensures seen { MatchResult result.1 (λ _. result.0.durable ≡ result.0.seen)
            (λ _. result.0.has_failed ≡ true) }
        ensures committed { OnOk result.1 (committed self.now) }
        ensures failed { OnErr result.1 (failed self.now) };
}
