//! Why a conversation is over.

ghost use Rattle.std.specs.Prelude.{◌≡◌};
ghost use Rattle.conversation.specs.declared.ended.Ended.TheVariants as ended;

use refusal::NoMemory;
use thiserror::Error;

/// Why a conversation is over.
#[derive(Clone, Copy, Debug, PartialEq, Eq, Hash, Error)]
pub enum Ended {
    /// A frame's length is over 1,048,576 bytes: 71.
    #[error("71: frame over 1048576 bytes")]
    TooLarge,
    /// A piece, a frame or a reply found no memory: 99.
    #[error("99: out of memory")]
    NoMemory,
}

impl Ended {
    ghost use Rattle.conversation.specs.Endings.{code_of_ending};

    /// The number of the refusal.
    pub fn code(self) -> u8
        ensures { result ≡ code_of_ending self }
    {
        match self {
            Ended::TooLarge => 71,
            Ended::NoMemory => 99,
        }
    }
}

impl From<NoMemory> for Ended {
    ghost from_gives = { λ _ result. result ≡ ended.NoMemory };

    fn from(_error: NoMemory) -> Ended {
        Ended::NoMemory
    }
}
