//! Calls of a journal: each takes a part, or both, and gives it back.

ghost use Rattle.std.specs.Prelude.{◌≡◌, ◌++◌, [], false, true, Some, length, IfOk, OnErr, OnOk};
ghost use Rattle.shared_journal.specs.JournalRule as rule;
ghost use Rattle.shared_journal.specs.declared.commit_log.CommitLog.{CommitLog};
ghost use Rattle.journal_file.specs.declared.file_log.FileLog.{FileLog};
ghost use Rattle.journal_file.specs.FileLogs.{file_state};

use crate::commit_log::CommitLog;
use crate::journal_part::JournalPart;
use crate::journal_table::{JournalTable, LOG, PartSeat, WAITING};
use crate::waiting_records::{make_room, put_behind};
use journal::LogFault;
use journal_file::FileLog;
use refusal::NoMemory;
use std::alloc::Global;
use std::sync::Wait;

// A part without anything, which lies in the place of one that is held.
pub(crate) fn spare(bytes: Vec<u8>) -> JournalPart
    ensures { result.bytes ≡ bytes }
{
    JournalPart {
        bytes,
        commits: None,
        batch: 0,
        is_followed: false,
    }
}

// Puts bytes behind those that are for who follows, if anyone does, and there is memory for them.
// Tells whether they were put there.
fn copy_behind(copies: &mut Vec<u8>, is_followed: bool, bytes: &[u8]) -> bool
    ensures { result ≡ true → (is_followed ≡ true)
        × (copies.new.items ≡ copies.old.items ++ bytes.now) }
{
    if !is_followed {
        return false;
    }
    copies.extend_from_slice(bytes).is_ok()
}

/// Puts a record behind those that wait.
pub(crate) fn put_record<R: Wait>(
    rt: &R,
    alloc: Global,
    history: &JournalTable,
    seat: &mut PartSeat,
    bytes: &[u8],
) -> Result<(), NoMemory>
    requires table { seat.old.table_id ≡ history.now.table }
    requires is_seat { seat.old.me.0.is_note ≡ false }
    ensures same { (seat.new.table_id ≡ seat.old.table_id) × (seat.new.id ≡ seat.old.id) }
    ensures ok { OnOk result (rule.PutsRecord seat.old.me bytes.now seat.new.me) }
    ensures err { OnErr result (rule.SeesWaiting seat.old.me seat.new.me) }
{
    let count = history.take_waiting(rt, seat);
    if count == u64::MAX {
        history.return_waiting(seat);
        return Err(NoMemory);
    }
    let mut part = history.exchange(seat, WAITING, spare(Vec::new(alloc)));
    let put = put_behind(&mut part.bytes, bytes);
    let _ = history.exchange(seat, WAITING, part);
    match put {
        Ok(()) => {
            history.set_count(seat, count + 1);
            history.return_record(seat, bytes);
            Ok(())
        }
        Err(_) => {
            history.return_waiting(seat);
            Err(NoMemory)
        }
    }
}

/// Makes room for so many bytes more behind those that wait.
pub(crate) fn reserve_room<R: Wait>(
    rt: &R,
    alloc: Global,
    history: &JournalTable,
    seat: &mut PartSeat,
    len: usize,
) -> Result<(), NoMemory>
    requires { seat.old.table_id ≡ history.now.table }
    ensures same { (seat.new.table_id ≡ seat.old.table_id) × (seat.new.id ≡ seat.old.id) }
    ensures seen { rule.SeesWaiting seat.old.me seat.new.me }
{
    let _ = history.take_waiting(rt, seat);
    let mut part = history.exchange(seat, WAITING, spare(Vec::new(alloc)));
    let made = make_room(&mut part.bytes, len);
    let _ = history.exchange(seat, WAITING, part);
    history.return_waiting(seat);
    made
}

// Takes all that waits, for a seat that holds the log, and leaves an empty buffer in its place.
// Tells how many records were taken since the journal began.
fn take_bytes<R: Wait>(
    rt: &R,
    history: &JournalTable,
    seat: &mut PartSeat,
    buffer: Vec<u8>,
) -> (Vec<u8>, u64)
    requires table { seat.old.table_id ≡ history.now.table }
    requires log { seat.old.me.0.has_log ≡ true }
    requires none { buffer.items ≡ [] }
    ensures same { (seat.new.table_id ≡ seat.old.table_id) × (seat.new.id ≡ seat.old.id) }
    ensures taken { rule.TakesBytes seat.old.me result.0.items seat.new.me }
    ensures count { result.1 ≡ length seat.new.me.0.taken }
{
    let count = history.take_waiting(rt, seat);
    let part = history.exchange(seat, WAITING, spare(buffer));
    history.return_none(seat);
    let JournalPart { bytes, .. } = part;
    (bytes, count)
}

// Takes all that waits, writes it and syncs, for a seat that holds the log. Who follows is given it
// too. Tells how many records are durable then.
fn write_waiting<R: Wait>(
    rt: &R,
    history: &JournalTable,
    seat: &mut PartSeat,
    commits: &mut CommitLog<FileLog>,
    copies: &mut Vec<u8>,
    is_followed: &mut bool,
) -> Result<u64, LogFault>
    requires table { seat.old.table_id ≡ history.now.table }
    requires log { (seat.old.me.0.has_log ≡ true) × (seat.old.me.0.has_waiting ≡ false) }
    requires keeps { rule.KeepsDurable seat.old.me.0.first seat.old.me.0.taken
        seat.old.me.0.written commits.old }
    requires copies { rule.AreCopies seat.old.me.0.first seat.old.me.0.written
        seat.old.me.0.copied is_followed.old copies.old.items }
    ensures same { (seat.new.table_id ≡ seat.old.table_id) × (seat.new.id ≡ seat.old.id) }
    ensures held { (seat.new.me.1 ≡ seat.old.me.1) × (seat.new.me.0.has_log ≡ true) }
    ensures count { IfOk result (λ n. n ≡ length seat.new.me.0.taken) }
    ensures ok { OnOk result (rule.WritesAll seat.old.me seat.new.me
        × rule.KeepsDurable seat.new.me.0.first seat.new.me.0.taken seat.new.me.0.taken
        commits.new) }
    ensures copied { OnOk result (rule.AreCopies seat.new.me.0.first seat.new.me.0.taken
        seat.new.me.0.copied is_followed.new copies.new.items) }
    ensures err { OnErr result (rule.WritesNone seat.old.me seat.new.me
        × rule.KeepsDurable seat.new.me.0.first seat.new.me.0.taken seat.new.me.0.written
        commits.new) }
    ensures not_copied { OnErr result (rule.AreCopies seat.new.me.0.first seat.new.me.0.written
        seat.new.me.0.copied is_followed.new copies.new.items) }
{
    if commits.has_failed() {
        return Err(LogFault);
    }
    let buffer = commits.empty_buffer();
    let (bytes, count) = take_bytes(rt, history, seat, buffer);
    *is_followed = copy_behind(copies, *is_followed, &bytes);
    match commits.write(bytes) {
        Ok(()) => Ok(count),
        Err(_) => {
            *is_followed = false;
            Err(LogFault)
        }
    }
}

/// Makes all durable that was added before. Where another thread has done so meanwhile, the log
/// isn't taken.
pub(crate) fn commit_all<R: Wait>(
    rt: &R,
    alloc: Global,
    history: &JournalTable,
    seat: &mut PartSeat,
) -> Result<(), LogFault>
    requires table { seat.old.table_id ≡ history.now.table }
    requires free { (seat.old.me.0.has_waiting ≡ false) × (seat.old.me.0.has_log ≡ false) }
    ensures same { (seat.new.table_id ≡ seat.old.table_id) × (seat.new.id ≡ seat.old.id) }
    ensures ok { OnOk result (rule.CommitsAll seat.old.me seat.new.me) }
    ensures err { OnErr result (rule.CommitsNone seat.old.me seat.new.me) }
{
    let count = history.see_each(seat);
    if !history.take_log(rt, seat, count) {
        return Ok(());
    }
    let part = history.exchange(seat, LOG, spare(Vec::new(alloc)));
    let JournalPart {
        mut bytes,
        commits,
        batch,
        mut is_followed,
    } = part;
    let Some(mut commits) = commits else {
        unreachable!()
    };
    let batch = history.gather(batch);
    let written = write_waiting(
        rt,
        history,
        seat,
        &mut commits,
        &mut bytes,
        &mut is_followed,
    );
    let settled = JournalPart {
        bytes,
        commits: Some(commits),
        batch,
        is_followed,
    };
    let _ = history.exchange(seat, LOG, settled);
    match written {
        Ok(count) => {
            history.settle_log(seat, count);
            Ok(())
        }
        Err(_) => {
            history.return_log(seat);
            Err(LogFault)
        }
    }
}
