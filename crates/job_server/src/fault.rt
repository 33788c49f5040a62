//! Why a server didn't serve all that it was to.

ghost use Rattle.std.specs.Prelude.{◌≡◌, OnOk, OnErr};

use streams::StreamFault;
use thiserror::Error;

/// Why a server didn't serve all that it was to. The program ends with status 3 then.
#[derive(Clone, Copy, Debug, PartialEq, Eq, Hash, Error)]
pub enum ServeFault {
    /// No connection can be taken any more.
    #[error("connections can't be taken any more")]
    Socket,
    /// A connection was given up: 83, 84 or 99.
    #[error("a connection was given up: {0}")]
    Connection(StreamFault),
    /// Nothing was served: a worker or a client's thread could not be started.
    #[error("not all of the workers and clients can be started: there is no thread for one")]
    Threads,
    /// Nothing was served: an open job was refused, by this number, as it was to be started again.
    #[error("a job that is open can't be started again: {0}")]
    Restart(u8),
}

impl ServeFault {
    /// The status that the program ends with.
    pub fn status(self) -> u8
        ensures { result ≡ 3 }
    {
        3
    }
}

/// The status that a program ends with whose server came to this.
pub fn status_of(outcome: Result<(), ServeFault>) -> u8
    ensures served { OnOk outcome (result ≡ 0) }
    ensures failed { OnErr outcome (result ≡ 3) }
{
    match outcome {
        Ok(()) => 0,
        Err(fault) => fault.status(),
    }
}
