//! What who follows a journal takes from it: the bytes that became durable, and the log itself, which
//! another takes the place of.

ghost use Rattle.std.specs.Prelude.{◌≡◌, ◌++◌, ℕ, List, [], false, true, IsErrOf, MatchBool, OnOk};
ghost use Rattle.compaction.specs.declared.replacement.ReplaceFault.TheVariants as replace_fault;
ghost use Rattle.journal_file.specs.FileLogs.{file_state};
ghost use Rattle.shared_journal.specs.JournalRule as rule;
ghost use Rattle.shared_journal.specs.Standing.{StandForJournal};
ghost use Rattle.shared_journal.specs.declared.seat_views.JournalEntry.{JournalEntry};

use crate::commit_log::CommitLog;
use crate::followed_desk::FollowedDesk;
use crate::journal_calls::spare;
use crate::journal_part::JournalPart;
use crate::journal_table::{JournalTable, LOG, PartSeat};
use crate::new_journal::NewJournal;
use compaction::ReplaceFault;
use journal_file::FileLog;
use std::alloc::Global;
use std::fs::{File, Files};
use std::sync::Wait;

// More bytes than these may be replayed before the log is given back, so that who writes waits for who
// follows.
const MOST_BEHIND: usize = 16 << 20;

// Replays the bytes now, or not.
fn replay_if(desk: &mut FollowedDesk, bytes: &[u8], is_now: bool)
    ensures more { MatchBool is_now (desk.new.replayed ≡ desk.old.replayed ++ bytes.now)
        (desk.new.replayed ≡ desk.old.replayed) }
    ensures lost { desk.old.is_lost ≡ true → desk.new.is_lost ≡ true }
{
    if is_now {
        desk.replay(bytes);
    }
}

// A desk is lost where a journal is no longer followed.
fn lose_unless(desk: &mut FollowedDesk, is_followed: bool)
    ensures same { desk.new.replayed ≡ desk.old.replayed }
    ensures followed { desk.new.is_lost ≡ false
        → (desk.old.is_lost ≡ false) × (is_followed ≡ true) }
{
    if !is_followed {
        desk.lose();
    }
}

/// Takes the bytes that became durable since, and replays them on the desk. It is lost where they were
/// not kept, for want of memory. Where they are many, and it is asked for, the log is held meanwhile.
pub(crate) fn follow<R: Wait>(
    rt: &R,
    alloc: Global,
    history: &JournalTable,
    seat: &mut PartSeat,
    desk: &mut FollowedDesk,
    may_hold: bool,
) -> Vec<u8>
    requires table { seat.old.table_id ≡ history.now.table }
    requires follows { rule.IsFollower seat.old.me }
    ensures same { (seat.new.table_id ≡ seat.old.table_id) × (seat.new.id ≡ seat.old.id)
        × (seat.new.me.0.first ≡ seat.old.me.0.first)
        × (seat.new.me.0.is_failed ≡ seat.old.me.0.is_failed) }
    ensures follows { rule.IsFollower seat.new.me }
    ensures copied { desk.new.is_lost ≡ false
        → seat.new.me.0.copied ≡ seat.old.me.0.copied ++ result.items }
    ensures replayed { desk.new.replayed ≡ desk.old.replayed ++ result.items }
    ensures lost { desk.old.is_lost ≡ true → desk.new.is_lost ≡ true }
{
    history.hold_log(rt, seat);
    let part = history.exchange(seat, LOG, spare(Vec::new(alloc)));
    let JournalPart {
        bytes,
        commits,
        batch,
        is_followed,
    } = part;
    lose_unless(desk, is_followed);
    let is_held = may_hold && bytes.len() > MOST_BEHIND;
    replay_if(desk, &bytes, is_held);
    let given = JournalPart {
        bytes: Vec::new(alloc),
        commits,
        batch,
        is_followed,
    };
    let _ = history.exchange(seat, LOG, given);
    history.return_copied(seat);
    replay_if(desk, &bytes, !is_held);
    bytes
}

// The log that goes on in a log's place, which is the new journal's where that takes its place, with
// these last bytes. Tells how many bytes that has.
fn replaced_log<R: Files<File = File>>(
    alloc: Global,
    new: NewJournal<'_, R>,
    mut commits: CommitLog<FileLog>,
    is_followed: bool,
    last: &[u8],
) -> (CommitLog<FileLog>, Result<usize, ReplaceFault>)
    ensures keeps { (first copied : List ℕ) (taken written : List JournalEntry)
        → StandForJournal new.entry.bytes.items copied
        → rule.KeepsDurable first taken written commits
        → rule.AreCopies first written copied is_followed last.now
        → rule.KeepsDurable first taken written result.0 }
    ensures replaced { OnOk result.1 (file_state result.0.log
        ≡ record { durable = new.entry.bytes.items ++ last.now; pending = [] }) }
    ensures kept { IsErrOf result.1 replace_fault.Kept → result.0.log ≡ commits.log }
    ensures stopped { IsErrOf result.1 replace_fault.Unknown → result.0.has_failed ≡ true }
{
    if !is_followed || commits.has_failed() {
        new.discard();
        return (commits, Err(ReplaceFault::Kept));
    }
    match new.take_place(commits.log(), last) {
        Ok((log, len)) => (CommitLog::new(alloc, log), Ok(len)),
        Err(ReplaceFault::Kept) => (commits, Err(ReplaceFault::Kept)),
        Err(ReplaceFault::Unknown) => {
            commits.fail();
            (commits, Err(ReplaceFault::Unknown))
        }
    }
}

/// Takes the log, and has the new journal take its place, whose bytes stand for those that were given to
/// the seat. Gives how many bytes came last, which are replayed on the desk, and how many the new
/// journal has with them.
pub(crate) fn replace_log<R: Wait + Files<File = File>>(
    rt: &R,
    alloc: Global,
    history: &JournalTable,
    seat: &mut PartSeat,
    desk: &mut FollowedDesk,
    new: NewJournal<'_, R>,
) -> (usize, Result<usize, ReplaceFault>)
    requires table { seat.old.table_id ≡ history.now.table }
    requires follows { rule.IsFollower seat.old.me }
    requires stands { StandForJournal new.bytes.items seat.old.me.0.copied }
    ensures same { (seat.new.table_id ≡ seat.old.table_id) × (seat.new.id ≡ seat.old.id)
        × (seat.new.me.0.first ≡ seat.old.me.0.first)
        × (seat.new.me.0.is_failed ≡ seat.old.me.0.is_failed) }
    ensures follows { rule.IsFollower seat.new.me }
    ensures replayed { desk.new.is_lost ≡ false → (desk.old.replayed ≡ seat.old.me.0.copied)
        → desk.new.replayed ≡ seat.new.me.0.copied }
    ensures lost { desk.old.is_lost ≡ true → desk.new.is_lost ≡ true }
{
    history.hold_log(rt, seat);
    let part = history.exchange(seat, LOG, spare(Vec::new(alloc)));
    let JournalPart {
        bytes,
        commits,
        batch,
        is_followed,
    } = part;
    let Some(commits) = commits else {
        unreachable!()
    };
    lose_unless(desk, is_followed);
    let (commits, replaced) = replaced_log(alloc, new, commits, is_followed, &bytes);
    let given = JournalPart {
        bytes: Vec::new(alloc),
        commits: Some(commits),
        batch,
        is_followed,
    };
    let _ = history.exchange(seat, LOG, given);
    history.return_copied(seat);
    desk.replay(&bytes);
    (bytes.len(), replaced)
}
