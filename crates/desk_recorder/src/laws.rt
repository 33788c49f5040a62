//! What the records of a desk's changes lead to.

ghost use Rattle.std.specs.Prelude.{◌≡◌, ℕ, List, [], false};
ghost use Rattle.accounts.specs.Ledgers.{Ledger};
ghost use Rattle.recovery.specs.Histories.{IsAfter};
ghost use Rattle.keyed_desk.specs.KeyedSteps.{IsNewKeyed, KeyedState, MakesKeyed};
ghost use Rattle.sessions.specs.declared.job_key.KeyedJob.{KeyedJob};
ghost use Rattle.desk_recorder.specs.Histories.{AnswersInTurn, IsDeskHistory, RecordsLead};
ghost use Rattle.desk_recorder.specs.Recording.{IsRecorded};
ghost use Rattle.desk_recorder.specs.RecordedAnswers.{answers_recorded};
ghost use Rattle.desk_recorder.specs.declared.recorder.ChangeRecorder.{ChangeRecorder};
ghost use Rattle.desk_recorder.specs.declared.recording_handler.RecordingHandler.{RecordingHandler};

use crate::record_queue::RecordQueue;
use streams::Runner;

/// A desk that a journal was replayed to has that journal's history. Whatever is answered then, as
/// long as the recorder goes on, the history and the records behind it lead to the desk as it is,
/// with the same keys; and so they do where open jobs are started again.
pub fn records_lead_to_desk<N: Runner, Q: RecordQueue>()
    ensures opened { (history : List (List ℕ)) (state : KeyedState)
        → IsAfter IsNewKeyed MakesKeyed history state
        → IsDeskHistory history state.desk.desk state.keys }
    ensures restarted { (history : List (List ℕ)) (keys : List KeyedJob)
        (before after : ChangeRecorder Q) (old new : Ledger)
        → IsDeskHistory history old keys → IsRecorded Q.taken Q.has_failed before after old new []
        → after.is_stopped ≡ false
        → RecordsLead Q.taken before.queue after.queue history new keys }
    ensures answered { (history : List (List ℕ)) (keys : List KeyedJob)
        (s t : Ledger × RecordingHandler N Q) → IsDeskHistory history s.0 keys
        → AnswersInTurn (answers_recorded N.starts N.looks N.takes Q.taken Q.has_failed) s t
        → t.1.recorder.is_stopped ≡ false
        → RecordsLead Q.taken s.1.recorder.queue t.1.recorder.queue history t.0 keys }
{}
