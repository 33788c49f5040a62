//! The refusals.

ghost use Rattle.std.specs.Prelude.{◌≡◌};
ghost use Rattle.flow_graph.specs.FaultCodes.{code_of_fault, slot_of_fault};

use refusal::NoMemory;
use thiserror::Error;

/// Why a program has no graph. The number is the slot.
#[derive(Clone, Copy, Debug, PartialEq, Eq, Hash, Error)]
pub enum FlowFault {
    /// A jump leads out of the program.
    #[error("21: jump out of the program at slot {0}")]
    JumpOut(u32),
    /// A jump leads to the second slot of a wide instruction.
    #[error("22: jump into a wide instruction at slot {0}")]
    IntoWide(u32),
    /// A path of one edge or more leads from the slot back to it. No lower slot has one.
    #[error("23: cycle through slot {0}")]
    Cycle(u32),
    /// The program may run past its end.
    #[error("24: nothing follows the instruction at slot {0}")]
    FallsOff(u32),
    /// No path leads from slot 0 to the instruction.
    #[error("25: unreachable instruction at slot {0}")]
    Unreachable(u32),
    /// A growth was refused.
    #[error("99: out of memory")]
    NoMemory,
}

impl FlowFault {
    /// The number of the refusal.
    pub fn code(&self) -> u8
        ensures { result ≡ code_of_fault self.now }
    {
        match self {
            FlowFault::JumpOut(_) => 21,
            FlowFault::IntoWide(_) => 22,
            FlowFault::Cycle(_) => 23,
            FlowFault::FallsOff(_) => 24,
            FlowFault::Unreachable(_) => 25,
            FlowFault::NoMemory => 99,
        }
    }

    /// The slot that it tells, if it tells one.
    pub fn slot(&self) -> Option<u32>
        ensures { result ≡ slot_of_fault self.now }
    {
        match *self {
            FlowFault::JumpOut(slot)
            | FlowFault::IntoWide(slot)
            | FlowFault::Cycle(slot)
            | FlowFault::FallsOff(slot)
            | FlowFault::Unreachable(slot) => Some(slot),
            FlowFault::NoMemory => None,
        }
    }
}

impl From<NoMemory> for FlowFault {
    ghost use Rattle.flow_graph.specs.declared.fault.FlowFault.TheVariants as fault;

    ghost from_gives = { λ _ refusal. refusal ≡ fault.NoMemory };

    fn from(_refusal: NoMemory) -> FlowFault {
        FlowFault::NoMemory
    }
}
