//! A desk beside a journal, on which its records are replayed.

ghost use Rattle.std.specs.Prelude.{◌≡◌, ◌++◌, [], true, false, IfOk};
ghost use Rattle.shared_journal.specs.Followers.{LeadFromDesk};
ghost use Rattle.shared_journal.specs.Standing.{AreSnapshotFor};

use compaction::{CompactFault, snapshot_bytes};
use journal_file::GhostBytes;
use keyed_desk::KeyedDesk;
use recovery::{StateMachine, replay_records};
use std::alloc::Global;
use std::marker::Model;

/// A desk to which all bytes lead that were replayed on it, unless it is lost. Contracts see those
/// bytes, and whether it is.
#[derive(Drop)]
pub(crate) struct FollowedDesk {
    alloc: Global,
    desk: KeyedDesk,
    replayed: GhostBytes,
    is_lost: bool,
}

impl Model for FollowedDesk {
    ghost use Rattle.std.specs.Prelude.{◌≡◌, false};
    ghost use Rattle.shared_journal.specs.Followers.{LeadToDesk, ReplayedDesk};

    ghost Value = { ReplayedDesk };

    ghost view = { λ d. record { replayed = d.replayed.bytes; is_lost = d.is_lost } };

    ghost invariant = { λ d. d.is_lost ≡ false → LeadToDesk d.replayed.bytes d.desk };
}

// Replays these bytes on a desk. Tells whether they are whole records of changes that it took.
fn is_replayed(alloc: Global, desk: &mut KeyedDesk, bytes: &[u8]) -> bool
    ensures { result ≡ true → LeadFromDesk bytes.now desk.old desk.new }
{
    match replay_records(alloc, desk, bytes) {
        Ok(len) => len == bytes.len(),
        Err(_) => false,
    }
}

impl FollowedDesk {
    /// A new desk.
    pub fn new(alloc: Global) -> FollowedDesk
        ensures { (result.replayed ≡ []) × (result.is_lost ≡ false) }
    {
        FollowedDesk {
            alloc,
            desk: KeyedDesk::start(alloc),
            replayed: GhostBytes::new(),
            is_lost: false,
        }
    }

    /// Whether it is lost. It stays so.
    pub fn is_lost(&self) -> bool
        ensures { result ≡ self.now.is_lost }
    {
        self.is_lost
    }

    /// It is lost: bytes are missing.
    pub fn lose(&mut self)
        ensures { (self.new.replayed ≡ self.old.replayed) × (self.new.is_lost ≡ true) }
    {
        self.is_lost = true;
    }

    /// Replays these bytes. It is lost where they aren't whole records of changes that it takes, or
    /// there is no memory for them.
    pub fn replay(&mut self, bytes: &[u8])
        ensures more { self.new.replayed ≡ self.old.replayed ++ bytes.now }
        ensures lost { self.old.is_lost ≡ true → self.new.is_lost ≡ true }
    {
        self.replayed = self.replayed.then(bytes);
        if self.is_lost {
            return;
        }
        self.is_lost = !is_replayed(self.alloc, &mut self.desk, bytes);
    }

    /// The bytes of a journal whose records are a snapshot of the desk.
    pub fn snapshot(&self) -> Result<Vec<u8>, CompactFault>
        requires { self.now.is_lost ≡ false }
        ensures { IfOk result (λ bytes. AreSnapshotFor bytes.items self.now.replayed) }
    {
        snapshot_bytes(self.alloc, &self.desk)
    }
}
