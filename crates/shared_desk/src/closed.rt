//! Connections that are over.

use crate::passage::Passage;
use crate::seats::LogEntry;
use std::collections::LinkedList;
use streams::StreamFault;

/// A connection that is over: its number, its passage, and its part of the history; the
/// bytes that were read, whether that was all, and whether a read failed; the bytes that were
/// written, and whether a write failed; and how its stream ended. No value of it is made.
pub struct ClosedConnection {
    pub connection: u64,
    pub passage: Passage,
    pub part: LinkedList<LogEntry>,
    pub read: LinkedList<u8>,
    pub is_over: bool,
    pub read_failed: bool,
    pub written: LinkedList<u8>,
    pub write_failed: bool,
    pub outcome: Result<u64, StreamFault>,
}
