//! A state machine, and the changes of its state.

ghost use Rattle.std.specs.Prelude.{◌≡◌, ◌++◌, ℕ, List, IfOk, OnOk, OnErr, IsErrOf};
ghost use Rattle.recovery.specs.declared.state_machine.ChangeFault.TheVariants.{NotAChange};
ghost use Rattle.recovery.specs.declared.state_machine.ApplyFault.TheVariants.{Refused};

use std::alloc::{AllocError, Global};

/// Why bytes are no change.
#[derive(Clone, Copy, Debug, PartialEq, Eq)]
pub enum ChangeFault {
    /// A growth was refused.
    NoMemory,
    /// No change has this payload.
    NotAChange,
}

/// Why a change was not applied.
#[derive(Clone, Copy, Debug, PartialEq, Eq)]
pub enum ApplyFault {
    /// A growth was refused.
    NoMemory,
    /// The state doesn't allow the change.
    Refused,
}

/// A change of a state, with its payload in a record.
pub trait StateChange: Drop {
    // The payload of its record.
    ghost payload: { Self → List ℕ };

    /// Adds its payload to `out`.
    fn encode(&self, out: &mut Vec<u8>) -> Result<(), AllocError>
        ensures { OnOk result (out.new.items ≡ out.old.items ++ payload self.now) };

    /// The change with this payload.
    fn decode(alloc: Global, bytes: &[u8]) -> Result<Self, ChangeFault>
        ensures found { IfOk result (λ change. payload change ≡ bytes.now) }
        ensures refused { IsErrOf result NotAChange
            → (change : Self) → payload change ≡ bytes.now → ⊥ };
}

/// A state, and its changes one after the other.
pub trait StateMachine: Drop {
    type StateChange: StateChange;

    // A state at the start.
    ghost starts: { Self → Type 0 };

    // A change with this payload may lead from one state to another.
    ghost steps: { Self → List ℕ → Self → Type 0 };

    // In this state a change with this payload may be refused.
    ghost refuses: { Self → List ℕ → Type 0 };

    /// The state at the start.
    fn start(alloc: Global) -> Self
        ensures { starts result };

    /// Applies a change. Unchanged after an error.
    fn apply(&mut self, alloc: Global, change: &Self::StateChange) -> Result<(), ApplyFault>
        ensures ok { OnOk result (steps self.old (Self.StateChange.payload change.now) self.new) }
        ensures err { OnErr result (self.new ≡ self.old) }
        ensures refused { IsErrOf result Refused
            → refuses self.old (Self.StateChange.payload change.now) };
}
