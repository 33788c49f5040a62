//! Lines to a server's host, which the log's thread writes.

use server_log::ServerLog;
use std::alloc::AllocError;
use std::sync::Wait;
use std::time::Clock;

/// Tells the host something in words, and waits for nobody who reads it. Words for which there was no
/// memory count as lost.
pub fn tell_host<R: Wait + Clock>(rt: &R, log: &ServerLog, text: Result<String, AllocError>) {
    match text {
        Ok(text) => log.note(rt, text),
        Err(_) => log.lose_note(rt),
    }
}
