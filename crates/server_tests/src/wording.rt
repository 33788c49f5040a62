//! What faults say that no client is told.

use crate::stop::{ScenarioFault, holds};
use job_server::ServeFault;
use sessions::SessionFault;
use std::alloc::Global;
use streams::StreamFault;

/// The faults of a stream, each with its text.
const FAULTS: [(StreamFault, &str); 3] = [
    (StreamFault::ReadFailed, "83: read failed"),
    (StreamFault::WriteFailed, "84: write failed"),
    (StreamFault::NoMemory, "99: out of memory"),
];

/// The numbers of faults, whose texts have to be those written out by hand: of a stream, of a
/// session, and the status of a server that serves no more.
pub fn faults(alloc: Global) -> Result<Vec<u64>, ScenarioFault> {
    let mut numbers = Vec::new(alloc);
    for (fault, text) in FAULTS {
        let told = format!(in alloc; "{fault}")?;
        holds(
            told.as_str() == text,
            "a fault of a stream has another text",
        )?;
        numbers.push(u64::from(fault.code()))?;
    }
    let told = format!(in alloc; "{}", SessionFault::BadRequest)?;
    let is_told = told.as_str() == "73: no such request";
    holds(is_told, "a fault of a session has another text")?;
    let fault = ServeFault::Connection(StreamFault::WriteFailed);
    let told = format!(in alloc; "{fault}")?;
    let is_told = told.as_str() == "a connection was given up: 84: write failed";
    holds(is_told, "a fault of a connection has another text")?;
    numbers.push(u64::from(fault.status()))?;
    let told = format!(in alloc; "{}", ServeFault::Socket)?;
    let is_told = told.as_str() == "connections can't be taken any more";
    holds(is_told, "a fault of a socket has another text")?;
    Ok(numbers)
}
