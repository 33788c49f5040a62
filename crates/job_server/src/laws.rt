//! The meaning of a server's replies, from the submit of a job to its result.

ghost use Rattle.std.specs.Prelude.{◌≡◌, ◌+◌, ◌<◌, ◌-◌, ◌^◌, ℕ, Bool, List, ◌∷◌, ◌++◌, length, Some, Result};
ghost use Rattle.job_core.specs.Admitted.{AdmittedJob};
ghost use Rattle.recovery.specs.Histories.{IsAfter};
ghost use Rattle.desk_journal.specs.DeskSteps.{DeskState, IsNewDesk, MakesBytes};
ghost use Rattle.desk_journal.specs.OpenJobs.{open_job_at};
ghost use Rattle.sessions.specs.Replies.{submit_data};
ghost use Rattle.streams.specs.Answering.{refused};
ghost use Rattle.shared_desk.specs.Histories.{HistoryEntry};
ghost use Rattle.shared_desk.specs.ServerAsked.{AreAskedOfDesks};
ghost use Rattle.job_server.specs.declared.bounds.Bounds.{Bounds};
ghost use Rattle.job_server.specs.declared.fault.ServeFault.{ServeFault};
ghost use Rattle.job_server.specs.AtOnce.{IsServing};
ghost use Rattle.job_server.specs.AfterRestart.{AreRecovered, ComesFromJournal, IsRecoveredHistory, IsToldKnown, KnownJob};
ghost use Rattle.job_server.specs.EndToEnd.{AsksForJob, AsksForResult, ComesFromSubmit, IsHostHistory, IsResultFrame, IsToldRefusal, IsToldResult, StaysTold, HasReply};
ghost use Rattle.job_server.specs.Payloads.{ComesFromPayload};
ghost use Rattle.job_server.specs.Recorded.{IsServingRecorded};

use desk_recorder::RecordQueue;

/// A request for a result is told the result of its number. The frame of a result tells the report
/// of a run of the very job that an earlier submit asked for, and that was told this number. It
/// adds up to the credit of that submit. Once a job is over, what is told of it stays the same
/// until it is forgotten.
pub fn results_come_from_submits()
    ensures told { (bounds : Bounds) (before after : List HistoryEntry) (e : HistoryEntry)
        (number : ℕ)
        → IsHostHistory bounds (before ++ e ∷ after) → AsksForResult number e.query.asked
        → IsToldResult bounds.keep before number e }
    ensures submitted { (bounds : Bounds) (before after : List HistoryEntry) (e : HistoryEntry)
        (number : ℕ)
        → IsHostHistory bounds (before ++ e ∷ after) → AsksForResult number e.query.asked
        → IsResultFrame e.reply → ComesFromSubmit before number e }
    ensures refused { (bounds : Bounds) (before after : List HistoryEntry) (e : HistoryEntry)
        (number code : ℕ)
        → IsHostHistory bounds (before ++ e ∷ after) → AsksForResult number e.query.asked
        → HasReply e (refused code) → code < 2 ^ 64 → IsToldRefusal bounds.keep before number code }
    ensures adds_up { (before : List HistoryEntry) (number : ℕ) (e : HistoryEntry)
        (r : ComesFromSubmit before number e)
        → r.report.spent + r.report.returned ≡ r.is_submit.credit }
    ensures stays { (bounds : Bounds) (before between after : List HistoryEntry) (e f : HistoryEntry)
        (number : ℕ)
        → IsHostHistory bounds (before ++ e ∷ (between ++ f ∷ after))
        → AsksForResult number e.query.asked → AsksForResult number f.query.asked
        → StaysTold e f }
{}

/// A submit is told a greater number than each submit before it. So no two are told the same.
pub fn numbers_rise()
    ensures { (bounds : Bounds) (before between after : List HistoryEntry) (e f : HistoryEntry)
        (m n : ℕ)
        → IsHostHistory bounds (before ++ e ∷ (between ++ f ∷ after))
        → length (before ++ e ∷ between) < 2 ^ 64 - 1
        → AsksForJob e.query.asked → HasReply e (submit_data m) → m < 2 ^ 64
        → AsksForJob f.query.asked → HasReply f (submit_data n) → n < 2 ^ 64 → m < n }
{}

/// From payload to payload, at a server of many connections. What its desk was asked is the
/// server's history, without what was asked of the server itself. A result comes from a submit,
/// and the payload of each came on its connection, where its reply was written.
pub fn payloads_lead_to_payloads()
    ensures { (bounds : Bounds) (sessions : ℕ) (may_stop : Bool)
        (outcome : Result (Unit {0}) ServeFault)
        (s : IsServing bounds sessions may_stop outcome)
        → (plain : List HistoryEntry) × AreAskedOfDesks s.serving.history plain
        × IsHostHistory bounds plain
        × ((before after : List HistoryEntry) (e : HistoryEntry) (number : ℕ)
        → plain ≡ before ++ e ∷ after → AsksForResult number e.query.asked
        → IsResultFrame e.reply → ComesFromPayload s.serving.closed before number e) }
{}

/// What a server tells that goes on from a journal of these changes. A job that was over is told as
/// the journal has it, until it is forgotten. Each job that was open is started again, and a result of
/// it is the report of a run of the very job that a change of the journal took under this number. So
/// it is what its submit asked for, whatever a crash left. Once a job is over, what is told of it stays
/// the same until it is forgotten.
pub fn results_outlive_restarts<Q: RecordQueue>()
    ensures served { (state : DeskState) (bounds : Bounds) (sessions : ℕ) (may_stop : Bool)
        (outcome : Result (Unit {0}) ServeFault)
        (s : IsServingRecorded Q.taken Q.has_failed state bounds sessions may_stop outcome)
        → (plain : List HistoryEntry) × AreAskedOfDesks s.serving.history plain
        × IsRecoveredHistory Q.taken Q.has_failed state bounds plain }
    ensures told { (changes : List (List ℕ)) (state : DeskState) (bounds : Bounds)
        (before after : List HistoryEntry) (e : HistoryEntry) (number : ℕ)
        → IsAfter IsNewDesk MakesBytes changes state
        → IsRecoveredHistory Q.taken Q.has_failed state bounds (before ++ e ∷ after)
        → AsksForResult number e.query.asked
        → (known : List KnownJob) × AreRecovered state known
        × IsToldKnown bounds.keep known before number e }
    ensures open_again { (changes : List (List ℕ)) (state : DeskState) (bounds : Bounds)
        (before after : List HistoryEntry) (e : HistoryEntry) (number : ℕ) (job : AdmittedJob)
        → IsAfter IsNewDesk MakesBytes changes state
        → IsRecoveredHistory Q.taken Q.has_failed state bounds (before ++ e ∷ after)
        → AsksForResult number e.query.asked → open_job_at number state.held ≡ Some job
        → IsResultFrame e.reply → ComesFromJournal changes number e }
    ensures stays { (changes : List (List ℕ)) (state : DeskState) (bounds : Bounds)
        (before between after : List HistoryEntry) (e f : HistoryEntry) (number : ℕ)
        → IsAfter IsNewDesk MakesBytes changes state
        → IsRecoveredHistory Q.taken Q.has_failed state bounds
        (before ++ e ∷ (between ++ f ∷ after))
        → AsksForResult number e.query.asked → AsksForResult number f.query.asked
        → StaysTold e f }
{}
