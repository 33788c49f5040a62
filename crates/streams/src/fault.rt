//! Why a stream was given up.

ghost use Rattle.std.specs.Prelude.{◌≡◌};
ghost use Rattle.streams.specs.declared.fault.StreamFault.TheVariants as fault;

use refusal::NoMemory;
use thiserror::Error;

/// Why a stream was given up.
#[derive(Clone, Copy, Debug, PartialEq, Eq, Hash, Error)]
pub enum StreamFault {
    /// The reader failed: 83.
    #[error("83: read failed")]
    ReadFailed,
    /// The writer failed: 84.
    #[error("84: write failed")]
    WriteFailed,
    /// A piece, a frame or a reply found no memory: 99.
    #[error("99: out of memory")]
    NoMemory,
}

impl StreamFault {
    ghost use Rattle.streams.specs.Faults.{code_of_stream_fault};

    /// The number of the refusal.
    pub fn code(self) -> u8
        ensures { result ≡ code_of_stream_fault self }
    {
        match self {
            StreamFault::ReadFailed => 83,
            StreamFault::WriteFailed => 84,
            StreamFault::NoMemory => 99,
        }
    }
}

impl From<NoMemory> for StreamFault {
    ghost from_gives = { λ _ result. result ≡ fault.NoMemory };

    fn from(_error: NoMemory) -> StreamFault {
        StreamFault::NoMemory
    }
}
