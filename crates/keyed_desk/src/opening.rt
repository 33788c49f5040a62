//! The journal of a desk and its keys at a start.

ghost use Rattle.std.specs.Prelude.{ℕ, List, IfErr, IfOk};
ghost use Rattle.recovery.specs.Crashes.{RecoversPrefix};
ghost use Rattle.recovery.specs.Journals.{IsRecovered};
ghost use Rattle.recovery.specs.Openings.{IsJournalOpened, IsNotOpened};
ghost use Rattle.keyed_desk.specs.KeyedSteps.{IsNewKeyed, MakesKeyed};

use crate::keyed_desk::KeyedDesk;
use recovery::{OpenFault, Recovered, open_journal};
use std::alloc::Global;

/// Inspects the journal of the changes of a desk and its keys, and replays it on a new desk without
/// keys. Of what a crash left of a history, the first changes are replayed, in order, with each that
/// was committed.
pub fn open_keyed_journal(
    alloc: Global,
    bytes: &[u8],
    budget: usize,
) -> Result<Recovered<KeyedDesk>, OpenFault>
    ensures opened { IfOk result (IsJournalOpened IsNewKeyed MakesKeyed bytes.now) }
    ensures crash { (history : List (List ℕ)) (committed : ℕ)
        → RecoversPrefix bytes.now history committed
        → IfOk result (IsRecovered IsNewKeyed MakesKeyed bytes.now history committed) }
    ensures refused { IfErr result (IsNotOpened bytes.now budget) }
{
    open_journal::<KeyedDesk>(alloc, bytes, budget)
}
