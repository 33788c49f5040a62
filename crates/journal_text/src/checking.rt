//! The verdict on a journal: whether a server goes on from it.

ghost use Rattle.std.specs.Prelude.{◌≡◌, ℕ, List, drop, length, IfOk, IfErr, IsErrOf};
ghost use Rattle.journal.specs.Records.{DecodesTo, journal_of};
ghost use Rattle.recovery.specs.Histories.{AreStateChanges, RefusesOne};
ghost use Rattle.recovery.specs.Openings.{IsNotOpened};
ghost use Rattle.recovery.specs.declared.opening.OpenFault.TheVariants as open_fault;
ghost use Rattle.recovery.specs.declared.replay.RecoverFault.TheVariants as recover_fault;
ghost use Rattle.keyed_desk.specs.KeyedChanges.{keyed_bytes};
ghost use Rattle.keyed_desk.specs.KeyedSteps.{IsNewKeyed, MakesKeyed, RefusesKeyed};
ghost use Rattle.journal_text.specs.JournalEnds.{IsWholeJournal};

use journal::{HEADER_LEN, first_record, one_reading};
use keyed_desk::KeyedDesk;
use recovery::{OpenFault, open_journal};
use std::alloc::Global;

/// How many whole records a journal begins with, and how many bytes they are.
#[derive(Clone, Copy, Debug, PartialEq, Eq)]
pub struct RecordCount {
    pub records: usize,
    pub len: usize,
}

// The count of the whole records at the front.
fn count_records(bytes: &[u8]) -> RecordCount
    ensures { (payloads : List (List ℕ)) × (tail : List ℕ) × DecodesTo bytes.now payloads tail
        × (result.records ≡ length payloads) × (result.len ≡ length (journal_of payloads)) }
{
    let mut rest = bytes;
    let mut records = 0;
    while let Some(payload) = first_record(rest) {
        rest = rest.split_at(HEADER_LEN + payload.len()).1;
        records += 1;
    }
    let len = bytes.len() - rest.len();
    RecordCount { records, len }
}

/// Judges a journal as a server does that starts with it: its records are counted where each is a
/// change, which a desk allows after those ahead of it, and no record stands behind a place where
/// none does. Behind them stands nothing, or a torn tail.
///
/// Refused with the fault that the server finds.
pub fn check_journal(alloc: Global, bytes: &[u8], budget: usize) -> Result<RecordCount, OpenFault>
    ensures whole { IfOk result (λ count. IsWholeJournal bytes.now count) }
    ensures refused { IfErr result (λ fault. IsNotOpened bytes.now budget fault) }
    ensures not_a_change { IsErrOf result (open_fault.NotReplayed recover_fault.NotAChange)
        → (payloads : List (List ℕ)) (tail : List ℕ)
        → DecodesTo bytes.now payloads tail → AreStateChanges keyed_bytes payloads → ⊥ }
    ensures not_allowed { IsErrOf result (open_fault.NotReplayed recover_fault.Refused)
        → (payloads : List (List ℕ)) (tail : List ℕ) → DecodesTo bytes.now payloads tail
        → RefusesOne IsNewKeyed MakesKeyed RefusesKeyed payloads }
{
    one_reading();
    match open_journal::<KeyedDesk>(alloc, bytes, budget) {
        Ok(_) => Ok(count_records(bytes)),
        Err(fault) => Err(fault),
    }
}
