//! Why a scenario doesn't come to its numbers.

ghost use Rattle.std.specs.Prelude.{◌≡◌, true, false, OnOk, OnErr};

use credit_book::Unopened;
use refusal::NoMemory;
use std::alloc::{AllocError, AllocFailed};

/// Why a scenario doesn't come to its numbers.
#[derive(Clone, Copy, Debug, PartialEq, Eq)]
pub enum ScenarioFault {
    /// Memory was refused where nothing is left to call again, or a spawn was: the scenario begins
    /// anew.
    Refused,
    /// What stands isn't what has to.
    Differs(&'static str),
}

impl From<AllocError> for ScenarioFault {
    fn from(_error: AllocError) -> ScenarioFault {
        ScenarioFault::Refused
    }
}

impl<T: Drop> From<AllocFailed<T>> for ScenarioFault {
    fn from(_error: AllocFailed<T>) -> ScenarioFault {
        ScenarioFault::Refused
    }
}

impl From<NoMemory> for ScenarioFault {
    fn from(_error: NoMemory) -> ScenarioFault {
        ScenarioFault::Refused
    }
}

impl From<Unopened> for ScenarioFault {
    fn from(_error: Unopened) -> ScenarioFault {
        ScenarioFault::Refused
    }
}

/// Stops unless it holds.
pub fn holds(it: bool, otherwise: &'static str) -> Result<(), ScenarioFault>
    ensures ok { OnOk result (it ≡ true) }
    ensures err { OnErr result (it ≡ false) }
{
    if it {
        Ok(())
    } else {
        Err(ScenarioFault::Differs(otherwise))
    }
}
