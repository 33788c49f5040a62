//! Why the helpers of a host aren't taken.

ghost use Rattle.std.specs.Prelude.{◌≡◌};
ghost use Rattle.telgovan_c.specs.HelperFaults.{code_of_helper_fault};

/// Why the helpers of a host aren't taken.
#[derive(Clone, Copy)]
pub enum HelperFault {
    /// There are more than 64.
    BadId,
    /// One takes more than 5 arguments.
    TooManyArguments,
    /// A growth was refused.
    NoMemory,
}

impl HelperFault {
    /// The number of the refusal: 44, 45 or 99.
    pub(crate) fn code(&self) -> u32
        ensures { result ≡ code_of_helper_fault self.now }
    {
        match self {
            HelperFault::BadId => 44,
            HelperFault::TooManyArguments => 45,
            HelperFault::NoMemory => 99,
        }
    }
}
