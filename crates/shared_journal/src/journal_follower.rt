//! Who follows a journal, and puts a snapshot in the place of its first records.

ghost use Rattle.std.specs.Prelude.{◌≡◌, ◌<◌, ◌*◌, ◌++◌, ℕ, List, [], Err, true, false, length, nat_le, IfOk};
ghost use Rattle.shared_journal.specs.Standing.{AreSnapshotFor, StandForJournal};
ghost use Rattle.shared_journal.specs.declared.journal_follower.Compaction.TheVariants as came_to;
ghost use Rattle.shared_journal.specs.declared.journal_follower.NotReplaced.TheVariants as not_replaced;

use crate::followed_desk::FollowedDesk;
use crate::following::{follow, replace_log};
use crate::journal_table::FollowerSeat;
use crate::new_journal::NewJournal;
use crate::shared_journal::SharedJournal;
use compaction::{CompactFault, ReplaceFault};
use journal_file::KeptBy;
use std::alloc::Global;
use std::fs::{File, Files};
use std::marker::Model;
use std::sync::Wait;

// A journal of fewer bytes isn't compacted.
const LEAST: usize = 1 << 20;

// How often bytes that came meanwhile are written while the log goes on, and how few of them are left to
// be written while it waits.
const ROUNDS: u32 = 8;

const FEW: usize = 1 << 16;

/// What came of a journal that was to be compacted.
#[derive(Drop)]
pub enum Compaction {
    /// A snapshot would be more than half as long. The journal is as it was.
    NotNeeded,
    /// A snapshot took the place of the first records. The journal had so many bytes, and has so many.
    Replaced { old: usize, new: usize },
    /// A snapshot should have, and couldn't. The journal is as it was.
    Kept(KeptBy),
    /// A call failed, and either file may have the journal's name. The journal has failed.
    Unknown,
}

// Why a snapshot didn't take the place of the first records.
#[derive(Drop)]
enum NotReplaced {
    Kept(KeptBy),
    Unknown,
}

impl From<KeptBy> for NotReplaced {
    ghost from_gives = { λ why fault. fault ≡ not_replaced.Kept why };

    fn from(why: KeptBy) -> NotReplaced {
        NotReplaced::Kept(why)
    }
}

/// Follows a journal: has a desk to which its durable records lead. So a snapshot can be put in their
/// place while the journal goes on.
#[derive(Drop)]
pub struct JournalFollower {
    alloc: Global,
    seat: FollowerSeat,
    desk: FollowedDesk,
    len: usize,
    next: usize,
    durable: u64,
    has_begun: bool,
}

impl Model for JournalFollower {
    ghost use Rattle.std.specs.Prelude.{◌≡◌, false};
    ghost use Rattle.shared_journal.specs.Followers.{FollowerView};

    ghost Value = { FollowerView };

    ghost view = { λ f. record {
      journal = f.seat.journal;
      copied = f.seat.copied;
      is_lost = f.desk.is_lost;
      has_failed = f.seat.has_failed;
      len = f.len;
      next = f.next;
    } };

    ghost invariant = { λ f. f.desk.is_lost ≡ false → f.desk.replayed ≡ f.seat.copied };
}

// From how many bytes on a journal is compacted that has so many now.
fn next_after(len: usize) -> usize {
    LEAST.max(usize::saturating_mul(len, 2))
}

// Why a journal stays as it is that has no snapshot.
fn kept_by(fault: CompactFault) -> KeptBy {
    match fault {
        CompactFault::TooLarge => KeptBy::TooLarge,
        CompactFault::NoMemory => KeptBy::NoMemory,
        CompactFault::Kept => KeptBy::NotWritten,
        CompactFault::Unknown => KeptBy::NotWritten,
    }
}

impl JournalFollower {
    // Who follows from this seat, to which nothing was given of a journal of so many bytes.
    pub(crate) fn new(alloc: Global, seat: FollowerSeat, len: usize) -> JournalFollower
        requires { seat.copied ≡ [] }
        ensures { (result.journal ≡ seat.journal) × (result.is_lost ≡ false) }
    {
        JournalFollower {
            alloc,
            seat,
            desk: FollowedDesk::new(alloc),
            len: 0,
            next: next_after(len),
            durable: u64::MAX,
            has_begun: false,
        }
    }

    /// Whether its desk is lost: there was no memory for a record. It stays so, and the journal isn't
    /// compacted any more.
    pub fn is_lost(&self) -> bool
        ensures { result ≡ self.now.is_lost }
    {
        self.desk.is_lost()
    }

    /// Whether the journal is to be compacted: it has doubled since, and isn't small.
    pub fn is_due(&self) -> bool
        ensures { result ≡ nat_le self.now.next self.now.len }
    {
        self.len >= self.next
    }

    // Takes the bytes that became durable since, and replays them. At first these are all of a file:
    // nobody waits for that.
    fn take<R: Wait>(&mut self, rt: &R, journal: &SharedJournal) -> Vec<u8>
        requires { self.old.journal ≡ journal.now.history }
        ensures own { self.new.journal ≡ self.old.journal }
        ensures taken { self.new.is_lost ≡ false → (self.old.is_lost ≡ false)
            × (self.new.copied ≡ self.old.copied ++ result.items) }
    {
        let bytes = follow(
            rt,
            self.alloc,
            journal.history(),
            &mut self.seat.seat,
            &mut self.desk,
            self.has_begun,
        );
        self.has_begun = true;
        self.len = self.len.saturating_add(bytes.len());
        bytes
    }

    /// Replays what became durable since, if anything did.
    pub fn catch_up<R: Wait>(&mut self, rt: &R, journal: &SharedJournal)
        requires { self.old.journal ≡ journal.now.history }
        ensures own { self.new.journal ≡ self.old.journal }
        ensures lost { self.new.is_lost ≡ false → self.old.is_lost ≡ false }
    {
        let durable = journal.history().count_durable();
        if durable != self.durable {
            self.durable = durable;
            let _ = self.take(rt, journal);
        }
    }

    // Writes what comes meanwhile behind a new journal, until little is left of it.
    fn write_meanwhile<'a, R: Wait + Files<File = File>>(
        &mut self,
        rt: &'a R,
        journal: &SharedJournal,
        new: NewJournal<'a, R>,
    ) -> Result<NewJournal<'a, R>, KeptBy>
        requires own { self.old.journal ≡ journal.now.history }
        requires stands { StandForJournal new.bytes.items self.old.copied }
        ensures own { self.new.journal ≡ self.old.journal }
        ensures stands { IfOk result (λ new. self.new.is_lost ≡ false
            → StandForJournal new.bytes.items self.new.copied) }
        ensures lost { self.new.is_lost ≡ false → self.old.is_lost ≡ false }
    {
        let mut new = new;
        for _ in 0..ROUNDS {
            let bytes = self.take(rt, journal);
            new = new.with(&bytes)?.synced()?;
            if bytes.len() < FEW {
                return Ok(new);
            }
        }
        Ok(new)
    }

    // Takes the log, and has the new journal take its place, with what came last behind it.
    fn switch<R: Wait + Files<File = File>>(
        &mut self,
        rt: &R,
        journal: &SharedJournal,
        new: NewJournal<'_, R>,
    ) -> Result<usize, NotReplaced>
        requires own { self.old.journal ≡ journal.now.history }
        requires stands { StandForJournal new.bytes.items self.old.copied }
        ensures own { self.new.journal ≡ self.old.journal }
        ensures lost { self.new.is_lost ≡ false → self.old.is_lost ≡ false }
        ensures unknown { result ≡ Err not_replaced.Unknown → self.new.has_failed ≡ true }
    {
        let (last, replaced) = replace_log(
            rt,
            self.alloc,
            journal.history(),
            &mut self.seat.seat,
            &mut self.desk,
            new,
        );
        self.len = self.len.saturating_add(last);
        match replaced {
            Ok(len) => Ok(len),
            Err(ReplaceFault::Kept) => Err(NotReplaced::Kept(KeptBy::NotWritten)),
            Err(ReplaceFault::Unknown) => {
                journal.history().fail(&mut self.seat.seat);
                Err(NotReplaced::Unknown)
            }
        }
    }

    // Puts this snapshot of the desk in the place of the journal's records. Tells how many bytes the
    // journal has then, or what came of it otherwise.
    fn replace<R: Wait + Files<File = File>>(
        &mut self,
        rt: &R,
        journal: &SharedJournal,
        path: &str,
        snapshot: Vec<u8>,
    ) -> Result<usize, NotReplaced>
        requires own { self.old.journal ≡ journal.now.history }
        requires snapshot { AreSnapshotFor snapshot.items self.old.copied }
        ensures own { self.new.journal ≡ self.old.journal }
        ensures lost { self.new.is_lost ≡ false → self.old.is_lost ≡ false }
        ensures unknown { result ≡ Err not_replaced.Unknown → self.new.has_failed ≡ true }
    {
        let new = NewJournal::create(rt, self.alloc, path, snapshot)?;
        let new = self.write_meanwhile(rt, journal, new)?;
        if self.desk.is_lost() {
            new.discard();
            return Err(NotReplaced::Kept(KeptBy::NoMemory));
        }
        self.switch(rt, journal, new)
    }

    /// Puts a snapshot of the desk in the place of the first records of the journal in the file of this
    /// path, where it is at most half as long as the journal. Who commits waits while the last bytes are
    /// written and the new file takes the name; all else is done while the journal goes on.
    pub fn compact<R: Wait + Files<File = File>>(
        &mut self,
        rt: &R,
        journal: &SharedJournal,
        path: &str,
    ) -> Compaction
        requires own { self.old.journal ≡ journal.now.history }
        requires found { self.old.is_lost ≡ false }
        ensures own { self.new.journal ≡ self.old.journal }
        ensures not_needed { result ≡ came_to.NotNeeded → (bytes : List ℕ)
            × AreSnapshotFor bytes self.old.copied × (self.old.len < 2 * length bytes) }
        ensures replaced { (old new : ℕ) → result ≡ came_to.Replaced old new → self.new.len ≡ new }
        ensures unknown { result ≡ came_to.Unknown → self.new.has_failed ≡ true }
    {
        self.next = next_after(self.len);
        let snapshot = match self.desk.snapshot() {
            Ok(snapshot) => snapshot,
            Err(fault) => return Compaction::Kept(kept_by(fault)),
        };
        if snapshot.len() > self.len / 2 {
            self.next = next_after(snapshot.len());
            return Compaction::NotNeeded;
        }
        match self.replace(rt, journal, path, snapshot) {
            Ok(new) => {
                let old = self.len;
                self.len = new;
                self.next = next_after(new);
                Compaction::Replaced { old, new }
            }
            Err(NotReplaced::Kept(why)) => Compaction::Kept(why),
            Err(NotReplaced::Unknown) => Compaction::Unknown,
        }
    }
}
