//! A journal at a start: inspected, refused where it is damaged, and replayed.

ghost use Rattle.std.specs.Prelude.{ℕ, List, IfOk, IfErr, IsErrOf};
ghost use Rattle.journal.specs.Records.{DecodesTo};
ghost use Rattle.recovery.specs.declared.opening.OpenFault.TheVariants as open_fault;
ghost use Rattle.recovery.specs.declared.replay.RecoverFault.TheVariants as recover_fault;
ghost use Rattle.recovery.specs.Crashes.{RecoversPrefix};
ghost use Rattle.recovery.specs.Histories.{AreStateChanges, RefusesOne};
ghost use Rattle.recovery.specs.Journals.{IsRecovered};
ghost use Rattle.recovery.specs.Openings.{IsJournalOpened, IsNotOpened};

use crate::replay::{RecoverFault, Recovered, recover};
use crate::state_machine::StateMachine;
use journal::{TailKind, inspect, one_reading};
use std::alloc::Global;

/// Why a journal was not opened. Its whole records are `len` bytes.
#[derive(Clone, Copy, Debug, PartialEq, Eq)]
pub enum OpenFault {
    /// A whole record stands so many bytes behind a place where none does.
    Damaged { len: usize, record_at: usize },
    /// The search of the bytes behind costs more than its budget.
    Unsearched { len: usize },
    /// The records were not replayed.
    NotReplayed(RecoverFault),
}

/// Inspects a journal and replays it. Behind its records stands nothing, or a torn tail to cut off.
pub fn open_journal<M: StateMachine>(
    alloc: Global,
    bytes: &[u8],
    budget: usize,
) -> Result<Recovered<M>, OpenFault>
    ensures opened { IfOk result (IsJournalOpened M.starts M.steps bytes.now) }
    ensures crash { (history : List (List ℕ)) (committed : ℕ)
        → RecoversPrefix bytes.now history committed
        → IfOk result (IsRecovered M.starts M.steps bytes.now history committed) }
    ensures refused { IfErr result (IsNotOpened bytes.now budget) }
    ensures not_a_change { IsErrOf result (open_fault.NotReplayed recover_fault.NotAChange)
        → (payloads : List (List ℕ)) (tail : List ℕ)
        → DecodesTo bytes.now payloads tail → AreStateChanges M.StateChange.payload payloads → ⊥ }
    ensures not_allowed { IsErrOf result (open_fault.NotReplayed recover_fault.Refused)
        → (payloads : List (List ℕ)) (tail : List ℕ) → DecodesTo bytes.now payloads tail
        → RefusesOne M.starts M.steps M.refuses payloads }
{
    one_reading();
    let inspection = inspect(bytes, budget);
    let len = inspection.len;
    match inspection.tail {
        TailKind::Damaged { record_at } => return Err(OpenFault::Damaged { len, record_at }),
        TailKind::Unsearched => return Err(OpenFault::Unsearched { len }),
        TailKind::Empty => {}
        TailKind::Torn => {}
    }
    match recover(alloc, bytes) {
        Ok(recovered) => Ok(recovered),
        Err(fault) => Err(OpenFault::NotReplayed(fault)),
    }
}
