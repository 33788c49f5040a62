//! Why a task doesn't go on.

ghost use Rattle.std.specs.Prelude.{◌≡◌};
ghost use Rattle.yielding.specs.GoFaults.{code_of_go_fault};

use thiserror::Error;

/// Why a task doesn't go on.
#[derive(Clone, Copy, Debug, PartialEq, Eq, Hash, Error)]
pub enum GoFault {
    /// The task has ended.
    #[error("47: the task has ended")]
    Ended,
    /// The memory isn't as long as at the task's start, both in bytes.
    #[error("43: a memory of {given} bytes, where the task started on {wanted}")]
    OtherLength { wanted: usize, given: usize },
}

impl GoFault {
    /// The number of the refusal: 43 or 47.
    pub fn code(&self) -> u8
        ensures { result ≡ code_of_go_fault self.now }
    {
        match self {
            GoFault::Ended => 47,
            GoFault::OtherLength { .. } => 43,
        }
    }
}
