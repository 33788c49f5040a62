//! A desk's journal at a start.

ghost use Rattle.std.specs.Prelude.{ℕ, List, IfErr, IfOk};
ghost use Rattle.recovery.specs.Crashes.{RecoversPrefix};
ghost use Rattle.recovery.specs.Journals.{IsRecovered};
ghost use Rattle.recovery.specs.Openings.{IsJournalOpened, IsNotOpened};
ghost use Rattle.desk_journal.specs.DeskSteps.{IsNewDesk, MakesBytes};

use crate::journaled_desk::JournaledDesk;
use recovery::{OpenFault, Recovered, open_journal};
use std::alloc::Global;

/// Inspects the journal of a desk's changes, and replays it on a new desk. Of what a crash left of
/// a history, the first changes are replayed, in order, with each that was committed.
pub fn open_desk_journal(
    alloc: Global,
    bytes: &[u8],
    budget: usize,
) -> Result<Recovered<JournaledDesk>, OpenFault>
    ensures opened { IfOk result (IsJournalOpened IsNewDesk MakesBytes bytes.now) }
    ensures crash { (history : List (List ℕ)) (committed : ℕ)
        → RecoversPrefix bytes.now history committed
        → IfOk result (IsRecovered IsNewDesk MakesBytes bytes.now history committed) }
    ensures refused { IfErr result (IsNotOpened bytes.now budget) }
{
    open_journal::<JournaledDesk>(alloc, bytes, budget)
}
