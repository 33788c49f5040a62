//! The reasons why a journal's file isn't gone on with, and the words that tell them.

use crate::foreign_file::TakenFor;
use crate::host_notes::tell_host;
use bpfjobs_cli::FAILED;
use journal::{HEADER_LEN, first_record};
use keyed_desk::{KeyedChange, KeyedDesk};
use recovery::{OpenFault, RecoverFault, StateChange, StateMachine};
use server_log::ServerLog;
use std::alloc::Global;
use std::sync::Wait;
use std::time::Clock;
use std::{fmt, io};

/// Bytes of checksum that a search for records behind a torn one may take: some ten seconds.
pub const SEARCH_BUDGET: usize = 1 << 32;

/// The reason why a file isn't gone on with.
#[derive(Drop)]
pub enum FileFault {
    System(io::Error),
    NoRegularFile,
    /// It doesn't begin with a whole record.
    NoJournal(TakenFor),
    InUse,
    NoMemory,
    Damaged { at: usize, record_at: usize },
    Unsearched { at: usize },
    NotAChange { at: usize },
    NotAllowed { at: usize },
    NotCut,
    NotReplaced,
}

impl From<io::Error> for FileFault {
    fn from(error: io::Error) -> FileFault {
        FileFault::System(error)
    }
}

impl fmt::Display for FileFault {
    fn fmt<W: fmt::Write>(&self, f: &mut fmt::Formatter<W>) -> fmt::Result {
        match self {
            FileFault::System(error) => write!(f, "{error}"),
            FileFault::NoRegularFile => write!(f, "no regular file"),
            FileFault::NoJournal(taken_for) => {
                let text = taken_for.text();
                write!(f, "no journal, and left as it is: it is taken for {text}")
            }
            FileFault::InUse => write!(f, "in use by another server"),
            FileFault::NoMemory => write!(f, "no memory for what it has"),
            FileFault::Damaged { at, record_at } => write!(
                f,
                "damaged at byte {at}: a whole record stands at byte {record_at}"
            ),
            FileFault::Unsearched { at } => write!(
                f,
                "no record at byte {at}, and too much behind it to look for one"
            ),
            FileFault::NotAChange { at } => write!(
                f,
                "damaged at byte {at}: the record there is no change of a desk"
            ),
            FileFault::NotAllowed { at } => write!(
                f,
                "damaged at byte {at}: the record there doesn't follow from those ahead"
            ),
            FileFault::NotCut => write!(f, "it can't be cut, or not be synced"),
            FileFault::NotReplaced => write!(
                f,
                "it isn't known whether a snapshot has its name: start again"
            ),
        }
    }
}

/// Tells a server's host why a file isn't gone on with, and gives the status.
pub fn refused<R: Wait + Clock>(
    rt: &R,
    alloc: Global,
    notes: &ServerLog,
    path: &str,
    fault: FileFault,
) -> u8 {
    tell_host(rt, notes, format!(in alloc; "{path}: {fault}"));
    FAILED
}

// Whether the change with this payload is applied to the desk.
fn is_applied(alloc: Global, desk: &mut KeyedDesk, payload: &[u8]) -> bool {
    match KeyedChange::decode(alloc, payload) {
        Ok(change) => desk.apply(alloc, &change).is_ok(),
        Err(_) => false,
    }
}

// The place of the first record that isn't replayed.
fn place_of_refusal(alloc: Global, bytes: &[u8]) -> usize {
    let mut desk = KeyedDesk::start(alloc);
    let mut rest = bytes;
    while let Some(payload) = first_record(rest) {
        if !is_applied(alloc, &mut desk, payload) {
            break;
        }
        rest = rest.split_at(HEADER_LEN + payload.len()).1;
    }
    bytes.len() - rest.len()
}

/// The fault of a journal's bytes behind `len` of records: a whole record stands so many bytes on.
pub fn damaged(len: usize, record_at: usize) -> FileFault {
    FileFault::Damaged {
        at: len,
        record_at: usize::saturating_add(len, record_at),
    }
}

/// What is told of a journal that isn't opened.
pub fn fault_of(alloc: Global, bytes: &[u8], fault: OpenFault) -> FileFault {
    match fault {
        OpenFault::Damaged { len, record_at } => damaged(len, record_at),
        OpenFault::Unsearched { len } => FileFault::Unsearched { at: len },
        OpenFault::NotReplayed(RecoverFault::NoMemory) => FileFault::NoMemory,
        OpenFault::NotReplayed(RecoverFault::NotAChange) => FileFault::NotAChange {
            at: place_of_refusal(alloc, bytes),
        },
        OpenFault::NotReplayed(RecoverFault::Refused) => FileFault::NotAllowed {
            at: place_of_refusal(alloc, bytes),
        },
    }
}
