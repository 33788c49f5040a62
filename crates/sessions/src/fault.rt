//! Why a session gives no request.

ghost use Rattle.std.specs.Prelude.{◌≡◌};
ghost use Rattle.sessions.specs.declared.fault.SessionFault.TheVariants.{NoMemory};

use std::alloc::{AllocError, AllocFailed};
use thiserror::Error;

/// Why a session gives no request, or a text is no job object.
#[derive(Clone, Copy, Debug, PartialEq, Eq, Hash, Error)]
pub enum SessionFault {
    /// A frame's length is over 1,048,576 bytes: 71. The session answers nothing else from then on.
    #[error("71: frame over 1048576 bytes")]
    FrameTooLarge,
    /// The bytes are no JSON: 72.
    #[error("72: no JSON")]
    NotJson,
    /// The JSON is no request, or no job object: 73.
    #[error("73: no such request")]
    BadRequest,
    /// A growth was refused: 99.
    #[error("99: out of memory")]
    NoMemory,
}

impl SessionFault {
    ghost use Rattle.sessions.specs.Faults.{code_of_session_fault};

    /// The number of the refusal.
    pub fn code(self) -> u8
        ensures { result ≡ code_of_session_fault self }
    {
        match self {
            SessionFault::FrameTooLarge => 71,
            SessionFault::NotJson => 72,
            SessionFault::BadRequest => 73,
            SessionFault::NoMemory => 99,
        }
    }
}

impl From<AllocError> for SessionFault {
    ghost from_gives = { λ _ e. e ≡ NoMemory };

    fn from(_error: AllocError) -> SessionFault {
        SessionFault::NoMemory
    }
}

impl<T: Drop> From<AllocFailed<T>> for SessionFault {
    ghost from_gives = { λ _ e. e ≡ NoMemory };

    fn from(_error: AllocFailed<T>) -> SessionFault {
        SessionFault::NoMemory
    }
}
