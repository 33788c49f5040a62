//! Why a helper isn't registered.

ghost use Rattle.std.specs.Prelude.{◌≡◌};
ghost use Rattle.virtual_machine.specs.Registering.{code_of_register_fault};

use thiserror::Error;

/// Why a caller's helper isn't registered.
#[derive(Clone, Copy, Debug, PartialEq, Eq, Hash, Error)]
pub enum RegisterFault {
    /// The id isn't one of 64 to 127.
    #[error("44: the id of a caller's helper is 64 to 127")]
    BadId,
    /// There are more than 5 arguments.
    #[error("45: a helper takes at most 5 arguments")]
    TooManyArguments,
    /// A program is set, which was verified without this helper.
    #[error("46: helpers are registered before a program is set")]
    ProgramSet,
    /// A growth was refused.
    #[error("99: out of memory")]
    NoMemory,
}

impl RegisterFault {
    /// The number of the refusal: 44, 45, 46 or 99.
    pub fn code(&self) -> u8
        ensures { result ≡ code_of_register_fault self.now }
    {
        match self {
            RegisterFault::BadId => 44,
            RegisterFault::TooManyArguments => 45,
            RegisterFault::ProgramSet => 46,
            RegisterFault::NoMemory => 99,
        }
    }
}
