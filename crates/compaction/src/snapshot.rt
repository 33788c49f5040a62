//! Compaction: a journal whose records are a snapshot of the state.

ghost use Rattle.std.specs.Prelude.{◌≡◌, ◌≢◌, ◌++◌, ℕ, List, false, length, ◌⊎◌, OnOk, OnErr, IfOk, IfErr, IsErrOf};
ghost use Rattle.journal.specs.Records.{AllFitRecords, journal_of};
ghost use Rattle.recovery.specs.Histories.{IsAfter};
ghost use Rattle.recovery.specs.Journals.{IsJournaled};
ghost use Rattle.compaction.specs.Files.{MayLeave, KeepsOldJournal, HasNewJournal, newly_opened};
ghost use Rattle.compaction.specs.Snapshots.{IsCompacted, IsSnapshot, LeadsToHistory, Restores};
ghost use Rattle.compaction.specs.declared.snapshot.CompactFault.TheVariants as compact_fault;
ghost use Rattle.compaction.specs.declared.replacement.ReplaceFault.TheVariants as replace_fault;
ghost use Rattle.compaction.specs.declared.snapshot.SnapshotFault.TheVariants as snapshot_fault;

use crate::files::JournalFiles;
use crate::replacement::{ReplaceFault, replace_journal};
use journal::{one_reading, round_trip};
use recovery::{Journaled, StateMachine};
use std::alloc::{AllocError, Global};

/// Why there is no snapshot of a state.
#[derive(Clone, Copy, Debug, PartialEq, Eq)]
pub enum SnapshotFault {
    /// A growth was refused.
    NoMemory,
    /// One of its records would have 2^32 bytes or more.
    TooLarge,
}

impl From<AllocError> for SnapshotFault {
    ghost from_gives = { λ _ fault. fault ≡ snapshot_fault.NoMemory };

    fn from(_error: AllocError) -> SnapshotFault {
        SnapshotFault::NoMemory
    }
}

/// A state machine whose state a list of changes restores, up to what can be told of it.
pub trait Snapshot: StateMachine {
    // What can be told of one state, now and after any changes, can be told of the other.
    ghost alike: { Self → Self → Type 0 };

    // A record of the state's snapshot would have 2^32 bytes or more.
    ghost is_too_large: { Self → Type 0 };

    /// Adds to `out` the records of changes that lead from the start to this state, and to states
    /// that are alike it alone.
    fn snapshot(&self, alloc: Global, out: &mut Vec<u8>) -> Result<(), SnapshotFault>
        ensures ok { OnOk result ((bytes : List ℕ)
            × (out.new.items ≡ out.old.items ++ bytes)
            × IsSnapshot Self.starts Self.steps alike self.now bytes) }
        ensures refused { IsErrOf result snapshot_fault.TooLarge → is_too_large self.now };

    // Each state is alike itself.
    ghost alike_self: { (s : Self) → alike s s };

    // States that are alike a third one are so in turn.
    ghost alike_through: { (s t u : Self) → alike s t → alike t u → alike s u };

    // Where a change leads from a state, it leads from one that this is alike, to one that is.
    ghost alike_step: { (s t u : Self) (change : List ℕ) → alike s t → Self.steps s change u
        → (v : Self) × Self.steps t change v × alike u v };
}

/// Why a journal was not compacted.
#[derive(Clone, Copy, Debug, PartialEq, Eq)]
pub enum CompactFault {
    /// A growth was refused. The journal is the old one.
    NoMemory,
    /// A record of the snapshot would have 2^32 bytes or more. The journal is the old one.
    TooLarge,
    /// A call failed. The journal is the old one.
    Kept,
    /// A call failed, and a crash may leave either journal. Neither may be written to.
    Unknown,
}

/// The records of a snapshot of this state, as the bytes of a journal.
pub fn snapshot_bytes<M: Snapshot>(alloc: Global, machine: &M) -> Result<Vec<u8>, CompactFault>
    ensures bytes { IfOk result
        (λ bytes. IsSnapshot M.starts M.steps M.alike machine.now bytes.items) }
    ensures err { IfErr result (λ e. (e ≡ compact_fault.NoMemory)
        ⊎ ((e ≡ compact_fault.TooLarge) × M.is_too_large machine.now)) }
{
    let mut bytes = Vec::new(alloc);
    match machine.snapshot(alloc, &mut bytes) {
        Ok(()) => Ok(bytes),
        Err(SnapshotFault::NoMemory) => Err(CompactFault::NoMemory),
        Err(SnapshotFault::TooLarge) => Err(CompactFault::TooLarge),
    }
}

/// Puts the records of a snapshot of this state in place of the journal that led to it.
///
/// Whatever a crash at any moment leaves of it, recovery gives a state that is alike one after the
/// same history.
pub fn put_snapshot<M: Snapshot, F: JournalFiles>(
    machine: &M,
    snapshot: &[u8],
    files: &mut F,
) -> Result<(), ReplaceFault>
    requires { IsSnapshot M.starts M.steps M.alike machine.now snapshot.now }
    ensures compacted { (journal : List ℕ) → F.moments files.old ≡ newly_opened journal
        → OnOk result (IsCompacted M.starts M.steps M.alike machine.now snapshot.now
        (F.moments files.new)) }
    ensures kept { (journal : List ℕ) → F.moments files.old ≡ newly_opened journal
        → IsErrOf result replace_fault.Kept → KeepsOldJournal journal (F.moments files.new) }
    ensures any_moment { (history : List (List ℕ)) (left : List ℕ) → AllFitRecords history
        → IsAfter M.starts M.steps history machine.now
        → F.moments files.old ≡ newly_opened (journal_of history)
        → MayLeave (F.moments files.new) left
        → LeadsToHistory M.starts M.steps M.alike left history machine.now }
    ensures failed { OnErr result ((before : F) × F.fails before files.new) }
{
    round_trip();
    let _ = machine; // for the proof
    replace_journal(files, snapshot)
}

/// Puts a snapshot of the state in place of the journal that led to it, and answers its bytes, as
/// [`put_snapshot`] does.
pub fn compact<M: Snapshot, F: JournalFiles>(
    alloc: Global,
    machine: &M,
    files: &mut F,
) -> Result<Vec<u8>, CompactFault>
    ensures compacted { (journal : List ℕ) → F.moments files.old ≡ newly_opened journal
        → IfOk result (λ bytes. IsCompacted M.starts M.steps M.alike machine.now bytes.items
        (F.moments files.new)) }
    ensures kept { (journal : List ℕ) → F.moments files.old ≡ newly_opened journal
        → IfErr result (λ e. e ≢ compact_fault.Unknown
        → KeepsOldJournal journal (F.moments files.new)) }
    ensures any_moment { (history : List (List ℕ)) (left : List ℕ) → AllFitRecords history
        → IsAfter M.starts M.steps history machine.now
        → F.moments files.old ≡ newly_opened (journal_of history)
        → MayLeave (F.moments files.new) left
        → LeadsToHistory M.starts M.steps M.alike left history machine.now }
    ensures refused { IsErrOf result compact_fault.TooLarge → M.is_too_large machine.now }
    ensures failed { IsErrOf result compact_fault.Kept ⊎ IsErrOf result compact_fault.Unknown
        → (before : F) × F.fails before files.new }
{
    round_trip();
    let bytes = match snapshot_bytes(alloc, machine) {
        Ok(bytes) => bytes,
        Err(fault) => return Err(fault),
    };
    match put_snapshot(machine, &bytes, files) {
        Ok(()) => Ok(bytes),
        Err(ReplaceFault::Kept) => Err(CompactFault::Kept),
        Err(ReplaceFault::Unknown) => Err(CompactFault::Unknown),
    }
}

/// Goes on from a compacted journal of these bytes: later changes stand behind the snapshot.
pub fn resume_compacted<M: Snapshot, F: JournalFiles>(
    machine: M,
    files: F,
    bytes: &[u8],
) -> Journaled<M, F::NextLog>
    ensures journaled { IsCompacted M.starts M.steps M.alike machine bytes.now (F.moments files)
        → (payloads : List (List ℕ)) × Restores M.starts M.steps M.alike payloads machine
        × IsJournaled M.starts M.steps F.NextLog.state payloads (length payloads) result }
    ensures machine { result.machine ≡ machine }
    ensures goes_on { result.writer.stopped ≡ false }
{
    Journaled::resume(machine, files.into_log(bytes))
}
