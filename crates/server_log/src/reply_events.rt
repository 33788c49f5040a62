//! What a log is told of the reply to a request.

ghost use Rattle.std.specs.Prelude.{◌≡◌};
ghost use Rattle.server_log.specs.Told.{IsToldOfReply, code_event};

use crate::log_line::LogEvent;
use crate::log_queue::ServerLog;
use refusal::NoMemory;
use std::sync::Wait;
use std::time::Clock;
use streams::PendingReply;

// The number of the refusal of a job that is still open. A client that waits for it is told that as
// often as it asks.
const STILL_OPEN: u8 = 77;

// What is told of a reply that is a refusal by this number, or none.
fn event_of_code(connection: u64, code: Option<u8>) -> Option<LogEvent>
    ensures { result ≡ code_event connection code }
{
    let code = code?;
    if code == STILL_OPEN {
        return None;
    }
    Some(LogEvent::Refused { connection, code })
}

// What is told of a reply to this connection.
fn event_of_reply(connection: u64, reply: &Result<PendingReply, NoMemory>) -> Option<LogEvent>
    ensures { IsToldOfReply connection reply.now result }
{
    match reply {
        Ok(reply) => event_of_code(connection, reply.refusal()),
        Err(_) => None,
    }
}

/// Tells a log of a reply to the connection that is served, where it is a refusal. That a job is still
/// open is told to its client alone.
pub(crate) fn tell_reply<R: Wait + Clock>(
    rt: &R,
    log: &ServerLog,
    reply: &Result<PendingReply, NoMemory>,
) {
    let connection = log.serving().unwrap_or(0);
    if let Some(event) = event_of_reply(connection, reply) {
        log.tell(rt, event);
    }
}
