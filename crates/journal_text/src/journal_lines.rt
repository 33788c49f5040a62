//! The lines of a journal's changes, in order, and what ends them.

ghost use Rattle.std.specs.Prelude.{◌≡◌, ◌≢◌, ◌++◌, ℕ, List, take, true, false, IfOk, OnOk, OnErr, Err};
ghost use Rattle.keyed_desk.specs.declared.keyed_change.KeyedChange.{KeyedChange};
ghost use Rattle.journal_text.specs.ChangeLines.{change_line, lines_of, next_number, number_behind};
ghost use Rattle.journal_text.specs.JournalEnds.{ArePartlyTold, EndChangesWith};

use crate::change_text::change_line;
use desk_journal::DeskChange;
use journal::{HEADER_LEN, TailKind, first_record, inspect_tail};
use keyed_desk::KeyedChange;
use recovery::{ChangeFault, StateChange};
use std::alloc::Global;
use streams::{Sink, StreamFault, write_all};

/// What stands behind the changes that a journal begins with.
#[derive(Clone, Copy, Debug, PartialEq, Eq)]
pub enum JournalEnd {
    /// From this byte on there is no whole record: nothing, a torn tail, or damage.
    Tail { at: usize, kind: TailKind },
    /// At this byte a whole record stands whose payload is no change of a desk.
    NotAChange { at: usize },
}

// The number of the next job, where it was this one ahead of a change of the desk. It goes up to
// 2^64 - 1 at most.
fn next_number(number: u64, change: &DeskChange) -> u64
    ensures { result ≡ next_number number change.now }
{
    match change {
        DeskChange::Submitted { .. } => number.saturating_add(1),
        DeskChange::Granted { .. } => number,
        DeskChange::Finished { .. } => number,
        DeskChange::Failed { .. } => number,
        DeskChange::Forgotten { .. } => number,
        DeskChange::AccountOpened { .. } => number,
        DeskChange::JobsSkipped { count } => number.saturating_add(*count),
        DeskChange::ReportKept { .. } => number.saturating_add(1),
        DeskChange::FailureKept { .. } => number.saturating_add(1),
    }
}

// The number of the next job behind a change.
fn number_behind(number: u64, change: &KeyedChange) -> u64
    ensures { result ≡ number_behind number change.now }
{
    match change {
        KeyedChange::Plain { change } => next_number(number, change),
        KeyedChange::ByKey { change, .. } => next_number(number, change),
        KeyedChange::KeyKept { .. } => number,
    }
}

// Writes the line of a change, and gives the number of the next job.
fn write_change<W: Sink>(
    alloc: Global,
    at: usize,
    number: u64,
    change: KeyedChange,
    writer: &mut W,
) -> Result<u64, StreamFault>
    requires { W.has_failed writer.old ≡ false }
    ensures ok { OnOk result (W.transcript writer.new ≡ W.transcript writer.old
        ++ change_line at number change) }
    ensures next { IfOk result (λ next. next ≡ number_behind number change) }
    ensures well { OnOk result (W.has_failed writer.new ≡ false) }
    ensures err { OnErr result ((n : ℕ) × (W.transcript writer.new ≡ W.transcript writer.old
        ++ take n (change_line at number change))) }
    ensures write_failed { result ≡ Err StreamFault.WriteFailed → W.has_failed writer.new ≡ true }
    ensures no_memory { result ≡ Err StreamFault.NoMemory → W.has_failed writer.new ≡ false }
    ensures no_other { result ≢ Err StreamFault.ReadFailed }
{
    let Ok(line) = change_line(alloc, at as u64, number, &change) else {
        return Err(StreamFault::NoMemory);
    };
    match write_all(writer, &line) {
        Ok(()) => Ok(number_behind(number, &change)),
        Err(_) => Err(StreamFault::WriteFailed),
    }
}

/// Writes a line for each record of a journal, in order, up to the first that is no change of a
/// desk, and tells what stands there. The search for a record behind a place where none stands takes
/// so many bytes of checksum at most.
///
/// 84 where the writer failed, and 99 where a change or its line found no memory: of the lines a
/// beginning is written then.
pub fn write_changes<W: Sink>(
    alloc: Global,
    bytes: &[u8],
    budget: usize,
    writer: &mut W,
) -> Result<JournalEnd, StreamFault>
    requires { W.has_failed writer.old ≡ false }
    ensures told { IfOk result (λ end. (changes : List KeyedChange)
        × EndChangesWith bytes.now budget changes end
        × (W.transcript writer.new ≡ W.transcript writer.old ++ lines_of changes)) }
    ensures well { OnOk result (W.has_failed writer.new ≡ false) }
    ensures stopped { OnErr result
        (ArePartlyTold bytes.now (W.transcript writer.old) (W.transcript writer.new)) }
    ensures write_failed { result ≡ Err StreamFault.WriteFailed → W.has_failed writer.new ≡ true }
    ensures no_memory { result ≡ Err StreamFault.NoMemory → W.has_failed writer.new ≡ false }
    ensures no_other { result ≢ Err StreamFault.ReadFailed }
{
    let mut rest = bytes;
    let mut number = 1;
    while let Some(payload) = first_record(rest) {
        let at = bytes.len() - rest.len();
        let change = match KeyedChange::decode(alloc, payload) {
            Ok(change) => change,
            Err(ChangeFault::NoMemory) => return Err(StreamFault::NoMemory),
            Err(ChangeFault::NotAChange) => return Ok(JournalEnd::NotAChange { at }),
        };
        match write_change(alloc, at, number, change, writer) {
            Ok(next) => number = next,
            Err(fault) => return Err(fault),
        }
        rest = rest.split_at(HEADER_LEN + payload.len()).1;
    }
    let at = bytes.len() - rest.len();
    let kind = inspect_tail(rest, budget);
    Ok(JournalEnd::Tail { at, kind })
}
