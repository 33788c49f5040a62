//! The word that says when a server's journal is synced.

ghost use Rattle.std.specs.Prelude.{◌≡◌};
ghost use Rattle.bpfjobs_cli.specs.JournalSyncs.{sync_said};

/// The moment at which the records of what a reply tells are on the disk.
#[derive(Clone, Copy, Debug, PartialEq, Eq)]
pub enum JournalSync {
    /// Before the reply is sent.
    Always,
    /// About a second later at most.
    Interval,
}

/// The sync that a word says, if it says one.
pub(crate) fn sync_said(word: &str) -> Option<JournalSync>
    ensures { result ≡ sync_said word.now }
{
    if word == "always" {
        return Some(JournalSync::Always);
    }
    if word == "interval" {
        return Some(JournalSync::Interval);
    }
    None
}
