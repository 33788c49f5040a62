//! A snapshot stands for the history that led to its state.

ghost use Rattle.std.specs.Prelude.{◌≡◌, ◌++◌, ℕ, List};
ghost use Rattle.journal.specs.Records.{DecodesTo};
ghost use Rattle.recovery.specs.Histories.{IsAfter};
ghost use Rattle.compaction.specs.Snapshots.{IsAlikeAfter, LeadsToHistory, Restores, StandsForBytes, StandsForHistory};

use crate::snapshot::Snapshot;
use journal::{one_reading, whole_first};

/// Whatever a crash leaves of a compaction, each state that it is recovered to is alike one after
/// the history.
pub fn compaction_keeps_state<M: Snapshot>()
    ensures { (bytes tail : List ℕ) (history payloads : List (List ℕ)) (machine recovered : M)
        → LeadsToHistory M.starts M.steps M.alike bytes history machine
        → DecodesTo bytes payloads tail → IsAfter M.starts M.steps payloads recovered
        → IsAlikeAfter M.starts M.steps M.alike history recovered }
{
    one_reading();
}

/// A snapshot stands for the history that led to its state, also with the same changes behind both.
pub fn snapshot_stands_for_history<M: Snapshot>()
    ensures { (history payloads more : List (List ℕ)) (machine : M)
        → IsAfter M.starts M.steps history machine
        → Restores M.starts M.steps M.alike payloads machine
        → StandsForHistory M.starts M.steps M.alike (payloads ++ more) (history ++ more) }
{}

/// Changes that stand for a history do so with the same changes behind both.
pub fn later_changes_stand_too<M: Snapshot>()
    ensures { (changes history more : List (List ℕ))
        → StandsForHistory M.starts M.steps M.alike changes history
        → StandsForHistory M.starts M.steps M.alike (changes ++ more) (history ++ more) }
{}

/// So a journal that was compacted any number of times stands for the whole history.
pub fn compactions_compose<M: Snapshot>()
    ensures { (changes between history : List (List ℕ))
        → StandsForHistory M.starts M.steps M.alike changes between
        → StandsForHistory M.starts M.steps M.alike between history
        → StandsForHistory M.starts M.steps M.alike changes history }
{}

/// Where only equal states are alike, a state after changes that stand for a history is one after that
/// history.
pub fn equal_states_keep_history<M: Snapshot>()
    ensures { (payloads history : List (List ℕ)) (machine : M)
        → ((s t : M) → M.alike s t → s ≡ t)
        → StandsForHistory M.starts M.steps M.alike payloads history
        → IsAfter M.starts M.steps payloads machine
        → IsAfter M.starts M.steps history machine }
{}

/// Bytes that stand for a journal's are records, and have the same torn tail behind them.
pub fn standing_bytes_are_read<M: Snapshot>()
    ensures { (bytes whole tail : List ℕ) (history : List (List ℕ))
        → StandsForBytes M.starts M.steps M.alike bytes whole → DecodesTo whole history tail
        → (payloads : List (List ℕ)) × DecodesTo bytes payloads tail }
{
    whole_first();
}

/// Whatever a crash leaves of bytes that stand for a journal's, it has the same torn tail, and each
/// state that it is recovered to is alike one after the journal's history.
pub fn standing_bytes_keep_state<M: Snapshot>()
    ensures { (bytes whole tail left : List ℕ) (history payloads : List (List ℕ)) (recovered : M)
        → StandsForBytes M.starts M.steps M.alike bytes whole → DecodesTo whole history tail
        → DecodesTo bytes payloads left → IsAfter M.starts M.steps payloads recovered
        → (left ≡ tail) × IsAlikeAfter M.starts M.steps M.alike history recovered }
{
    one_reading();
    whole_first();
}
