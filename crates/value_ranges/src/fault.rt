//! Why arithmetic on abstract values is refused.

ghost use Rattle.std.specs.Prelude.{◌≡◌};
ghost use Rattle.value_ranges.specs.PointerFaultCodes.{code_of_pointer_fault};

/// Why an arithmetic instruction or a move has no result.
#[derive(Clone, Copy, Debug, PartialEq, Eq, Hash)]
pub enum PointerFault {
    /// There is a pointer, and no result on it.
    NoResult,
    /// A pointer may go too far.
    TooFar,
}

impl PointerFault {
    /// The number of the refusal.
    pub fn code(self) -> u8
        ensures { result ≡ code_of_pointer_fault self }
    {
        match self {
            PointerFault::NoResult => 34,
            PointerFault::TooFar => 35,
        }
    }
}
