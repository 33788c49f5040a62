//! Recovery: a state machine from the bytes that a crash left.

ghost use Rattle.std.specs.Prelude.{◌≡◌, ◌≤◌, ℕ, List, take, length, IfOk, OnOk, IsErrOf};
ghost use Rattle.journal.specs.Records.{journal_of, DecodesTo};
ghost use Rattle.recovery.specs.Histories.{IsAfter, ReplaysChanges, AreStateChanges, RefusesOne, RefusesOneFrom};
ghost use Rattle.recovery.specs.declared.replay.RecoverFault.TheVariants as recover_fault;
ghost use Rattle.recovery.specs.Crashes.{RecoversPrefix};
ghost use Rattle.recovery.specs.Journals.{IsRecovered};

use crate::state_machine::{ApplyFault, ChangeFault, StateChange, StateMachine};
use journal::{HEADER_LEN, first_record, one_reading, whole_first};
use std::alloc::Global;

/// Why a journal was not replayed.
#[derive(Clone, Copy, Debug, PartialEq, Eq)]
pub enum RecoverFault {
    /// A growth was refused.
    NoMemory,
    /// A whole record's payload is no change.
    NotAChange,
    /// The state machine refused a change.
    Refused,
}

/// A state machine, and how many bytes its records are. A torn tail stands behind them.
#[derive(Drop)]
pub struct Recovered<M> {
    pub machine: M,
    pub len: usize,
}

// Applies the change with this payload.
fn replay_one<M: StateMachine>(
    alloc: Global,
    machine: &mut M,
    payload: &[u8],
) -> Result<(), RecoverFault>
    ensures ok { OnOk result (M.steps machine.old payload.now machine.new) }
    ensures damaged { IsErrOf result recover_fault.NotAChange
        → (change : M.StateChange) → M.StateChange.payload change ≡ payload.now → ⊥ }
    ensures refused { IsErrOf result recover_fault.Refused → M.refuses machine.old payload.now }
{
    let change = match M::StateChange::decode(alloc, payload) {
        Ok(change) => change,
        Err(ChangeFault::NoMemory) => return Err(RecoverFault::NoMemory),
        Err(ChangeFault::NotAChange) => return Err(RecoverFault::NotAChange),
    };
    match machine.apply(alloc, &change) {
        Ok(()) => Ok(()),
        Err(ApplyFault::NoMemory) => Err(RecoverFault::NoMemory),
        Err(ApplyFault::Refused) => Err(RecoverFault::Refused),
    }
}

/// Replays the records at the front of these bytes on a machine, up to the first that is torn. Tells
/// how many bytes these records are. After an error some of them may have been replayed.
pub fn replay_records<M: StateMachine>(
    alloc: Global,
    machine: &mut M,
    bytes: &[u8],
) -> Result<usize, RecoverFault>
    ensures replayed { IfOk result (λ len. (payloads : List (List ℕ)) × (tail : List ℕ)
        × DecodesTo bytes.now payloads tail × ReplaysChanges M.steps machine.old payloads machine.new
        × (take len bytes.now ≡ journal_of payloads) × (len ≤ length bytes.now)) }
    ensures damaged { IsErrOf result recover_fault.NotAChange
        → (payloads : List (List ℕ)) (tail : List ℕ)
        → DecodesTo bytes.now payloads tail → AreStateChanges M.StateChange.payload payloads → ⊥ }
    ensures refused { IsErrOf result recover_fault.Refused
        → (payloads : List (List ℕ)) (tail : List ℕ) → DecodesTo bytes.now payloads tail
        → RefusesOneFrom M.steps M.refuses machine.old payloads }
{
    whole_first();
    let mut rest = bytes;
    while let Some(payload) = first_record(rest) {
        replay_one(alloc, machine, payload)?;
        rest = rest.split_at(HEADER_LEN + payload.len()).1;
    }
    Ok(bytes.len() - rest.len())
}

/// Replays the records at the front of these bytes, up to the first that is torn.
pub fn recover<M: StateMachine>(alloc: Global, bytes: &[u8]) -> Result<Recovered<M>, RecoverFault>
    ensures reads { IfOk result (λ found. (payloads : List (List ℕ)) × (tail : List ℕ)
        × DecodesTo bytes.now payloads tail × IsAfter M.starts M.steps payloads found.machine
        × (take found.len bytes.now ≡ journal_of payloads)) }
    ensures crash { (history : List (List ℕ)) (committed : ℕ)
        → RecoversPrefix bytes.now history committed
        → IfOk result (IsRecovered M.starts M.steps bytes.now history committed) }
    ensures damaged { IsErrOf result recover_fault.NotAChange
        → (payloads : List (List ℕ)) (tail : List ℕ)
        → DecodesTo bytes.now payloads tail → AreStateChanges M.StateChange.payload payloads → ⊥ }
    ensures refused { IsErrOf result recover_fault.Refused
        → (payloads : List (List ℕ)) (tail : List ℕ) → DecodesTo bytes.now payloads tail
        → RefusesOne M.starts M.steps M.refuses payloads }
{
    one_reading();
    let mut machine = M::start(alloc);
    match replay_records(alloc, &mut machine, bytes) {
        Ok(len) => Ok(Recovered { machine, len }),
        Err(fault) => Err(fault),
    }
}
