//! Connections that a server couldn't take: what it does then, and what its host is told.

ghost use Rattle.std.specs.Prelude.{◌≡◌, ◌≢◌, MatchBool};
ghost use Rattle.std.specs.IoError.{raw_os_error};
ghost use Rattle.job_server.specs.Accepting.{after_errno};
ghost use Rattle.job_server.specs.declared.accept_faults.AfterFault.TheVariants.{Ends};

use server_log::ServerLog;
use std::alloc::{AllocError, Global};
use std::sync::Wait;
use std::time::{Clock, Duration};
use std::{io, thread};

/// The system's number of what a signal ended; a wait that a host ended has it too.
pub(crate) const EINTR: i32 = 4;

// Other numbers of the system's, which is Linux.
const ENOMEM: i32 = 12;

const ENFILE: i32 = 23;

const EMFILE: i32 = 24;

const ECONNABORTED: i32 = 103;

const ENOBUFS: i32 = 105;

// How many milliseconds a server waits until it tries again to take a connection.
const PAUSE: u64 = 100;

/// What a server does about a connection that it couldn't take.
#[derive(Clone, Copy, Debug, PartialEq, Eq)]
pub(crate) enum AfterFault {
    /// It takes the next one at once: this one's client has gone, or something ended the wait.
    Goes,
    /// It waits a moment and tries again: there was no descriptor, or no memory.
    Waits,
    /// It takes no more: the error lasts.
    Ends,
}

// What a server does after this error of taking a connection.
fn after_fault(error: &io::Error) -> AfterFault
    ensures { result ≡ after_errno (raw_os_error error.now) }
{
    match error.raw_os_error() {
        Some(EINTR | ECONNABORTED) => AfterFault::Goes,
        Some(ENOMEM | ENFILE | EMFILE | ENOBUFS) => AfterFault::Waits,
        _ => AfterFault::Ends,
    }
}

/// Tells a host something, if there is memory for it.
pub(crate) fn note<R: Wait + Clock>(rt: &R, log: &ServerLog, text: Result<String, AllocError>) {
    match text {
        Ok(text) => log.note(rt, text),
        Err(_) => log.lose_note(rt),
    }
}

/// Passes over connections that couldn't be taken, and tells a host once, until one could again.
#[derive(Drop)]
pub(crate) struct AcceptFaults {
    alloc: Global,
    is_told: bool,
}

impl AcceptFaults {
    /// There was none yet.
    pub fn new(alloc: Global) -> AcceptFaults {
        AcceptFaults {
            alloc,
            is_told: false,
        }
    }

    /// Passes over a connection that couldn't be taken by this error: waits a moment, where that may
    /// help. Tells whether the error lasts, so that no more can be taken.
    pub fn pass_over<R: Wait + Clock>(&mut self, rt: &R, log: &ServerLog, error: &io::Error) -> bool
        ensures { MatchBool result (after_errno (raw_os_error error.now) ≡ Ends)
            (after_errno (raw_os_error error.now) ≢ Ends) }
    {
        match after_fault(error) {
            AfterFault::Goes => false,
            AfterFault::Waits => {
                if !self.is_told {
                    self.is_told = true;
                    let text = format!(in self.alloc; "no connection can be taken now: {error}");
                    note(rt, log, text);
                }
                thread::sleep(rt, Duration::from_millis(PAUSE));
                false
            }
            AfterFault::Ends => {
                let text = format!(in self.alloc; "no connection can be taken any more: {error}");
                note(rt, log, text);
                true
            }
        }
    }

    /// Tells a host that connections are taken again, if it was told that none could be.
    pub fn go_on<R: Wait + Clock>(&mut self, rt: &R, log: &ServerLog) {
        if self.is_told {
            self.is_told = false;
            let text = String::from_str(self.alloc, "takes connections again");
            note(rt, log, text);
        }
    }
}
