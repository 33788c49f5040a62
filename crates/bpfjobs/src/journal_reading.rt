//! The records of a journal's file as text, and the verdict on it. The file is only read.

use crate::foreign_file::taken_for;
use crate::journal_faults::{FileFault, SEARCH_BUDGET, damaged, fault_of};
use bpfjobs_cli::FAILED;
use journal::TailKind;
use journal_text::{JournalEnd, RecordCount, check_journal, write_changes};
use std::alloc::Global;
use std::fs::Files;
use std::{fs, io};
use streams::{StreamFault, Tap};

// The status where all was told.
const TOLD: u8 = 0;

// The file's bytes. Of what isn't a regular file nothing is read.
fn contents<R: Files + AllocGlobal>(rt: &R, path: &str) -> Result<Vec<u8>, FileFault> {
    if !fs::metadata(rt, path)?.is_file() {
        return Err(FileFault::NoRegularFile);
    }
    Ok(fs::read(rt, path)?)
}

// Tells why a file is no journal, or not a whole one, and gives the status.
fn refused<R: Eprint>(rt: &R, path: &str, fault: FileFault) -> u8 {
    let _ = eprintln!(rt; "bpfjobs: {path}: {fault}");
    FAILED
}

// Tells a torn record, which begins at this byte of a journal, and gives the status. A file that begins
// with it is no journal.
fn told_torn<R: Eprint>(rt: &R, path: &str, bytes: &[u8], at: usize) -> u8 {
    if let Some(taken_for) = taken_for(bytes) {
        return refused(rt, path, FileFault::NoJournal(taken_for));
    }
    let torn = bytes.len().saturating_sub(at);
    let _ = eprintln!(rt; "bpfjobs: {path}: {torn} bytes of a torn record at byte {at}");
    TOLD
}

// Tells what ends a journal of these bytes, and gives the status.
fn told_end<R: Eprint>(rt: &R, path: &str, bytes: &[u8], end: JournalEnd) -> u8 {
    match end {
        JournalEnd::NotAChange { at } => refused(rt, path, FileFault::NotAChange { at }),
        JournalEnd::Tail { at, kind } => match kind {
            TailKind::Empty => TOLD,
            TailKind::Torn => told_torn(rt, path, bytes, at),
            TailKind::Damaged { record_at } => refused(rt, path, damaged(at, record_at)),
            TailKind::Unsearched => refused(rt, path, FileFault::Unsearched { at }),
        },
    }
}

// Prints the journal's records, tells what ends them, and gives the status.
fn print_records<R: Print + Eprint>(rt: &R, alloc: Global, path: &str, bytes: &[u8]) -> u8 {
    let mut writer = Tap::new(io::writer(rt));
    match write_changes(alloc, bytes, SEARCH_BUDGET, &mut writer) {
        Ok(end) => told_end(rt, path, bytes, end),
        Err(StreamFault::NoMemory) => refused(rt, path, FileFault::NoMemory),
        Err(_) => FAILED,
    }
}

// Prints how many records there are, and the torn one behind them, if there is one. Gives the status.
fn print_count<R: Print>(rt: &R, path: &str, len: usize, count: RecordCount) -> u8 {
    let RecordCount { records, len: at } = count;
    let noun = if records == 1 { "record" } else { "records" };
    let torn = len.saturating_sub(at);
    let printed = if torn > 0 {
        println!(rt; "{path}: {records} {noun}, and {torn} bytes of a torn one at byte {at}")
    } else {
        println!(rt; "{path}: {records} {noun}, whole")
    };
    match printed {
        Ok(()) => TOLD,
        Err(_) => FAILED,
    }
}

// Prints the verdict on the journal, and gives the status.
fn print_verdict<R: Print + Eprint>(rt: &R, alloc: Global, path: &str, bytes: &[u8]) -> u8 {
    match check_journal(alloc, bytes, SEARCH_BUDGET) {
        Ok(count) => match taken_for(bytes) {
            Some(taken_for) => refused(rt, path, FileFault::NoJournal(taken_for)),
            None => print_count(rt, path, bytes.len(), count),
        },
        Err(fault) => refused(rt, path, fault_of(alloc, bytes, fault)),
    }
}

/// Prints the records of the journal in a file, a JSON object a line, and tells what ends them. Where it
/// checks, it prints how many records there are instead, if a server would go on from all of them.
///
/// Gives the status: 3 where the journal is damaged, the file is none or can't be read, which a line tells, or
/// where the output fails; and else 0, also where the last record is torn.
pub fn print_journal<R: Files + Print + Eprint + AllocGlobal>(
    rt: &R,
    alloc: Global,
    path: &str,
    checks: bool,
) -> u8 {
    let bytes = match contents(rt, path) {
        Ok(bytes) => bytes,
        Err(fault) => return refused(rt, path, fault),
    };
    if checks {
        print_verdict(rt, alloc, path, &bytes)
    } else {
        print_records(rt, alloc, path, &bytes)
    }
}
