//! The meaning of a tenant's replies, from the submit of a job to its result.

ghost use Rattle.std.specs.Prelude.{◌≡◌, ◌≤◌, ◌<◌, ◌-◌, ◌^◌, ℕ, Bool, List, ◌∷◌, ◌++◌, length, slice_get, Some, Result};
ghost use Rattle.job_core.specs.Admitted.{AdmittedJob};
ghost use Rattle.recovery.specs.Histories.{IsAfter};
ghost use Rattle.desk_journal.specs.DeskSteps.{DeskState, IsNewDesk, MakesBytes};
ghost use Rattle.desk_journal.specs.OpenJobs.{open_job_at};
ghost use Rattle.keyed_desk.specs.KeyedSteps.{KeyedState};
ghost use Rattle.accounts.specs.declared.keep_limits.KeepLimits.{KeepLimits};
ghost use Rattle.sessions.specs.Replies.{submit_data};
ghost use Rattle.streams.specs.Answering.{refused};
ghost use Rattle.shared_desk.specs.Histories.{HistoryEntry};
ghost use Rattle.shared_desk.specs.ServerAsked.{AreAskedOfDesks};
ghost use Rattle.tenant_desks.specs.Alone.{sent_to};
ghost use Rattle.tenant_desks.specs.AskedPlainly.{AreAskedPlainly};
ghost use Rattle.tenant_desks.specs.OwnNamed.{AreAskedByName};
ghost use Rattle.job_server.specs.AfterRestart.{AreRecovered, ComesFromJournal, IsToldKnown, KnownJob};
ghost use Rattle.job_server.specs.EndToEnd.{AsksForJob, AsksForResult, ComesFromSubmit, HasReply, IsResultFrame, IsToldRefusal, IsToldResult, StaysTold};
ghost use Rattle.job_server.specs.OwnPayloads.{ComesFromOwnPayload};
ghost use Rattle.job_server.specs.TenantRecorded.{IsServingTenantsRecorded, desks_of, hosted_tenants_recorded};
ghost use Rattle.job_server.specs.TenantResults.{IsTenantHostHistory};
ghost use Rattle.job_server.specs.TenantServing.{IsServingTenants, door_names, hosted_tenant_answers};
ghost use Rattle.job_server.specs.TenantsAfterRestart.{IsRecoveredTenantHistory};
ghost use Rattle.job_server.specs.declared.bounds.Bounds.{Bounds};
ghost use Rattle.job_server.specs.declared.fault.ServeFault.{ServeFault};
ghost use Rattle.job_server.specs.declared.tenant_door.TenantDoor.{TenantDoor};

use desk_recorder::RecordQueue;

/// At a server whose tenants have doors of their own, `results_come_from_submits` and
/// `numbers_rise` hold of what goes to each desk: a result is the report of a run of the very job
/// whose submit, by the same door, was told its number.
pub fn results_come_from_own_submits()
    ensures told { (keep : KeepLimits) (place : ℕ) (names : List (List ℕ))
        (history before after : List HistoryEntry) (e : HistoryEntry) (number : ℕ)
        → IsTenantHostHistory keep names history → place ≤ length names
        → sent_to names place history ≡ before ++ e ∷ after → AsksForResult number e.query.asked
        → IsToldResult keep before number e }
    ensures submitted { (keep : KeepLimits) (place : ℕ) (names : List (List ℕ))
        (history before after : List HistoryEntry) (e : HistoryEntry) (number : ℕ)
        → IsTenantHostHistory keep names history → place ≤ length names
        → sent_to names place history ≡ before ++ e ∷ after → AsksForResult number e.query.asked
        → IsResultFrame e.reply → ComesFromSubmit before number e }
    ensures refused { (keep : KeepLimits) (place : ℕ) (names : List (List ℕ))
        (history before after : List HistoryEntry) (e : HistoryEntry) (number code : ℕ)
        → IsTenantHostHistory keep names history → place ≤ length names
        → sent_to names place history ≡ before ++ e ∷ after → AsksForResult number e.query.asked
        → HasReply e (refused code) → code < 2 ^ 64 → IsToldRefusal keep before number code }
    ensures stays { (keep : KeepLimits) (place : ℕ) (names : List (List ℕ))
        (history before between after : List HistoryEntry) (e f : HistoryEntry) (number : ℕ)
        → IsTenantHostHistory keep names history → place ≤ length names
        → sent_to names place history ≡ before ++ e ∷ (between ++ f ∷ after)
        → AsksForResult number e.query.asked → AsksForResult number f.query.asked
        → StaysTold e f }
    ensures rises { (keep : KeepLimits) (place : ℕ) (names : List (List ℕ))
        (history before between after : List HistoryEntry) (e f : HistoryEntry) (m n : ℕ)
        → IsTenantHostHistory keep names history → place ≤ length names
        → sent_to names place history ≡ before ++ e ∷ (between ++ f ∷ after)
        → length (before ++ e ∷ between) < 2 ^ 64 - 1
        → AsksForJob e.query.asked → HasReply e (submit_data m) → m < 2 ^ 64
        → AsksForJob f.query.asked → HasReply f (submit_data n) → n < 2 ^ 64 → m < n }
{}

/// From payload to payload, at a server whose tenants have doors of their own. What the desks were
/// asked is the server's history by names, without what was asked of the server itself. A tenant's
/// name may be left out at its own door, and a submit may have a key there. A tenant's result comes
/// from a submit by its door, and the payload of each came on its connection, where its reply was
/// written.
pub fn payloads_lead_to_own_payloads()
    ensures { (doors : List TenantDoor) (bounds : Bounds) (sessions : ℕ) (may_stop : Bool)
        (outcome : Result (Unit {0}) ServeFault)
        (s : IsServingTenants doors bounds sessions may_stop outcome)
        → length doors ≤ 256 → (heard plain asked : List HistoryEntry)
        × AreAskedOfDesks s.serving.history heard
        × AreAskedPlainly hosted_tenant_answers (λ x. x ≡ s.begun) heard plain s.end
        × AreAskedByName (door_names doors) plain asked
        × ((place : ℕ) (before after : List HistoryEntry) (e : HistoryEntry) (number : ℕ)
        → place ≤ length doors → sent_to (door_names doors) place asked ≡ before ++ e ∷ after
        → AsksForResult number e.query.asked → IsResultFrame e.reply
        → ComesFromOwnPayload (door_names doors) s.serving.closed before number e) }
{}

/// What a server tells whose tenants have doors of their own, and which goes on from their journals.
/// Of what goes to each desk, by name, `results_outlive_restarts` holds: a job that was over is told
/// as the desk's own journal has it, and a result of one that was open is the report of a run of the
/// very job that a change of that journal took under this number. Then it stays until it is
/// forgotten.
pub fn own_results_outlive_restarts<Q: RecordQueue, J>()
    ensures served { (journal_of : Q → J) (journals : List J) (states : List KeyedState)
        (doors : List TenantDoor) (bounds : Bounds) (sessions : ℕ) (may_stop : Bool)
        (outcome : Result (Unit {0}) ServeFault)
        (s : IsServingTenantsRecorded Q.taken Q.has_failed journal_of journals states doors bounds
        sessions may_stop outcome)
        → (heard plain asked : List HistoryEntry) × AreAskedOfDesks s.serving.history heard
        × AreAskedPlainly (hosted_tenants_recorded Q.taken Q.has_failed) (λ x. x ≡ s.begun) heard
        plain s.end
        × AreAskedByName (door_names doors) plain asked
        × IsRecoveredTenantHistory (desks_of states) doors bounds asked }
    ensures told { (states : List DeskState) (doors : List TenantDoor) (bounds : Bounds)
        (history before after : List HistoryEntry) (place : ℕ) (state : DeskState)
        (changes : List (List ℕ)) (e : HistoryEntry) (number : ℕ)
        → IsRecoveredTenantHistory states doors bounds history → length states ≤ 257
        → slice_get states place ≡ Some state → IsAfter IsNewDesk MakesBytes changes state
        → sent_to (door_names doors) place history ≡ before ++ e ∷ after
        → AsksForResult number e.query.asked
        → (known : List KnownJob) × AreRecovered state known
        × IsToldKnown bounds.keep known before number e }
    ensures open_again { (states : List DeskState) (doors : List TenantDoor) (bounds : Bounds)
        (history before after : List HistoryEntry) (place : ℕ) (state : DeskState)
        (changes : List (List ℕ)) (e : HistoryEntry) (number : ℕ) (job : AdmittedJob)
        → IsRecoveredTenantHistory states doors bounds history → length states ≤ 257
        → slice_get states place ≡ Some state → IsAfter IsNewDesk MakesBytes changes state
        → sent_to (door_names doors) place history ≡ before ++ e ∷ after
        → AsksForResult number e.query.asked → open_job_at number state.held ≡ Some job
        → IsResultFrame e.reply → ComesFromJournal changes number e }
    ensures stays { (states : List DeskState) (doors : List TenantDoor) (bounds : Bounds)
        (history before between after : List HistoryEntry) (place : ℕ) (state : DeskState)
        (changes : List (List ℕ)) (e f : HistoryEntry) (number : ℕ)
        → IsRecoveredTenantHistory states doors bounds history → length states ≤ 257
        → slice_get states place ≡ Some state → IsAfter IsNewDesk MakesBytes changes state
        → sent_to (door_names doors) place history ≡ before ++ e ∷ (between ++ f ∷ after)
        → AsksForResult number e.query.asked → AsksForResult number f.query.asked
        → StaysTold e f }
{}
