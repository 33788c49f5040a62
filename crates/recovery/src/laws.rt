//! The changes that a crash leaves of a history.

ghost use Rattle.std.specs.Prelude.{◌≡◌, ◌++◌, ◌≤◌, ℕ, List, Bool, take};
ghost use Rattle.journal.specs.Records.{DecodesTo};
ghost use Rattle.journal.specs.Logs.{LogState, SurvivesCrash, SurvivesCrashBetween};
ghost use Rattle.recovery.specs.Crashes.{KeepsHistory, RecoversPrefix};
ghost use Rattle.recovery.specs.Histories.{IsAfter, ReplaysChanges};

use crate::state_machine::StateMachine;
use journal::{cut_anywhere, whole_first};

/// Whatever a crash leaves, the first changes are read, with each that is committed.
pub fn crash_keeps_committed()
    ensures { (history : List (List ℕ)) (committed : ℕ) (stopped : Bool) (log : LogState)
        (bytes : List ℕ) → KeepsHistory history committed stopped log
        → SurvivesCrash log bytes → RecoversPrefix bytes history committed }
{
    cut_anywhere();
}

/// The same of a crash at any moment between two states, however many calls lie between them: all
/// that was committed at the first is read.
pub fn crash_between_keeps_committed()
    ensures { (history more : List (List ℕ)) (committed later : ℕ) (stopped now : Bool)
        (old new : LogState) (bytes : List ℕ) → KeepsHistory history committed stopped old
        → KeepsHistory (history ++ more) later now new → committed ≤ later
        → SurvivesCrashBetween old new bytes → RecoversPrefix bytes (history ++ more) committed }
{
    cut_anywhere();
}

/// Whatever stands behind what is durable, also what was never written, the committed changes are
/// read first.
pub fn damage_keeps_committed()
    ensures { (history : List (List ℕ)) (committed : ℕ) (stopped : Bool) (log : LogState)
        (junk tail : List ℕ) (payloads : List (List ℕ)) → KeepsHistory history committed stopped log
        → DecodesTo (log.durable ++ junk) payloads tail
        → (more : List (List ℕ)) × (payloads ≡ take committed history ++ more) }
{
    whole_first();
}

/// A history goes on: changes that lead on from a state after it are one history with it.
pub fn histories_go_on<M: StateMachine>()
    ensures { (history more : List (List ℕ)) (machine later : M)
        → IsAfter M.starts M.steps history machine → ReplaysChanges M.steps machine more later
        → IsAfter M.starts M.steps (history ++ more) later }
{}
