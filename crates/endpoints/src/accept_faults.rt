//! Connections that couldn't be taken.

ghost use Rattle.std.specs.Prelude.{◌≡◌};
ghost use Rattle.std.specs.IoError.{raw_os_error};
ghost use Rattle.endpoints.specs.Accepting.{retry_by};

use std::io;

// Numbers of the system's errors, which is Linux: a signal, no memory, no descriptors in all and for
// this process, a connection whose client has gone, no room in the network's buffers.
const EINTR: i32 = 4;

const ENOMEM: i32 = 12;

const ENFILE: i32 = 23;

const EMFILE: i32 = 24;

const ECONNABORTED: i32 = 103;

const ENOBUFS: i32 = 105;

/// When a server takes connections again, after one that it couldn't take.
#[derive(Clone, Copy, Debug, PartialEq, Eq)]
pub enum AcceptRetry {
    /// At once: this one's client has gone, or a signal came.
    Now,
    /// A moment later: there was no descriptor, or no memory.
    Later,
    /// Never: the error lasts.
    Never,
}

/// When a server takes connections again, after this error of taking one.
pub fn retry_after(error: &io::Error) -> AcceptRetry
    ensures { result ≡ retry_by (raw_os_error error.now) }
{
    match error.raw_os_error() {
        Some(EINTR | ECONNABORTED) => AcceptRetry::Now,
        Some(ENOMEM | ENFILE | EMFILE | ENOBUFS) => AcceptRetry::Later,
        _ => AcceptRetry::Never,
    }
}
