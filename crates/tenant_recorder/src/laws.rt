//! What the records of each desk's changes lead to, and that they change no answer.

ghost use Rattle.std.specs.Prelude.{◌≡◌, ℕ, List, Some, false, length, slice_get};
ghost use Rattle.std.specs.List.{AllZip};
ghost use Rattle.accounts.specs.declared.keep_limits.KeepLimits.{KeepLimits};
ghost use Rattle.accounts.specs.Ledgers.{Ledger};
ghost use Rattle.shared_desk.specs.Histories.{HistoryEntry, Query, Replays};
ghost use Rattle.tenant_desks.specs.Alone.{IsTenantHistory};
ghost use Rattle.tenant_desks.specs.Answering.{named_answers};
ghost use Rattle.tenant_desks.specs.OwnNamed.{AreAskedByName};
ghost use Rattle.tenant_desks.specs.AtDoors.{BehindDoors, keys_behind, submit_frame};
ghost use Rattle.tenant_desks.specs.Tenancies.{Tenancy};
ghost use Rattle.sessions.specs.JobKeys.{job_among};
ghost use Rattle.sessions.specs.declared.door_forms.DoorForm.TheVariants.{Keyed};
ghost use Rattle.sessions.specs.declared.job_key.KeyedJob.{KeyedJob};
ghost use Rattle.desk_recorder.specs.Histories.{IsDeskHistory, RecordsLead};
ghost use Rattle.desk_recorder.specs.Recording.{noted_each};
ghost use Rattle.desk_recorder.specs.declared.recorder.ChangeRecorder.{ChangeRecorder};
ghost use Rattle.tenant_recorder.specs.Recorders.{AreRecorded, HaveForgotten, IsNewRecorder};
ghost use Rattle.tenant_recorder.specs.TenantsRecorded.{AreInStep, RecordedRunner, door_answers_recorded, named_answers_recorded, tenant_answers_recorded, unrecorded};

use desk_recorder::RecordQueue;
use streams::Runner;

/// Whatever is answered, each desk's recorder takes what changes that desk. A history that leads to a
/// desk and to some keys, and the records behind it that the desk's own queue took since, lead to the
/// desk as it is, with the keys of the jobs that it took, as long as its recorder goes on. So they do
/// where open jobs are started again.
pub fn records_lead_to_desks<N: Runner, Q: RecordQueue>()
    ensures restarted { (before after : List (ChangeRecorder Q)) (old new : List Ledger) (place : ℕ)
        (p q : ChangeRecorder Q) (d e : Ledger) (history : List (List ℕ)) (keys : List KeyedJob)
        → AreRecorded Q.taken Q.has_failed before after old new
        → slice_get before place ≡ Some p → slice_get after place ≡ Some q
        → slice_get old place ≡ Some d → slice_get new place ≡ Some e
        → IsDeskHistory history d keys → q.is_stopped ≡ false
        → (keyed : List KeyedJob)
        × RecordsLead Q.taken p.queue q.queue history e (noted_each keys keyed) }
    ensures recorded { (answers : List HistoryEntry) (s t : Tenancy × RecordedRunner N Q)
        → Replays (named_answers_recorded N.starts N.looks N.takes Q.taken Q.has_failed)
        (λ x. x ≡ s) answers t
        → AreRecorded Q.taken Q.has_failed s.1.recorders t.1.recorders s.0.desks t.0.desks }
    ensures answered { (answers : List HistoryEntry) (s t : Tenancy × RecordedRunner N Q)
        (place : ℕ) (p q : ChangeRecorder Q) (d e : Ledger) (history : List (List ℕ))
        (keys : List KeyedJob)
        → Replays (named_answers_recorded N.starts N.looks N.takes Q.taken Q.has_failed)
        (λ x. x ≡ s) answers t
        → slice_get s.1.recorders place ≡ Some p → slice_get t.1.recorders place ≡ Some q
        → slice_get s.0.desks place ≡ Some d → slice_get t.0.desks place ≡ Some e
        → IsDeskHistory history d keys → q.is_stopped ≡ false
        → (keyed : List KeyedJob)
        × RecordsLead Q.taken p.queue q.queue history e (noted_each keys keyed) }
{}

/// The keys that a desk's own door remembers are those that the desk's records lead to, so that a server
/// which starts anew from these remembers the same. A submit by a key that is remembered is told the
/// number of that key's job, and nothing more is remembered. So one key has one job, however often a
/// server starts.
pub fn remembered_keys_are_recorded<N: Runner, Q: RecordQueue>()
    ensures recorded { (answers : List HistoryEntry) (s t : Tenancy × BehindDoors (RecordedRunner N Q))
        (place : ℕ) (p q : ChangeRecorder Q) (d e : Ledger) (keys : List KeyedJob)
        (history : List (List ℕ))
        → Replays (door_answers_recorded N.starts N.looks N.takes Q.taken Q.has_failed)
        (λ x. x ≡ s) answers t
        → slice_get s.1.handler.recorders place ≡ Some p
        → slice_get t.1.handler.recorders place ≡ Some q
        → slice_get s.0.desks place ≡ Some d → slice_get t.0.desks place ≡ Some e
        → slice_get s.1.keys place ≡ Some keys → IsDeskHistory history d keys
        → q.is_stopped ≡ false → (later : List KeyedJob)
        × (slice_get t.1.keys place ≡ Some later)
        × RecordsLead Q.taken p.queue q.queue history e later }
    ensures again { (s t : Tenancy × BehindDoors (RecordedRunner N Q)) (query : Query)
        (reply key : List ℕ) (job : ℕ)
        → door_answers_recorded N.starts N.looks N.takes Q.taken Q.has_failed s query reply t
        → query.beyond ≡ Some (Keyed (Some key))
        → job_among (keys_behind s.1.keys query.passage.door) key ≡ Some job
        → (reply ≡ submit_frame job) × (t.1.keys ≡ s.1.keys) }
{}

/// The recorders change no answer: a history of a handler with recorders is one of the desks and the
/// runner alone, of which the laws of tenants hold. New recorders, one for each desk, are in step with
/// any desks.
pub fn recorders_change_no_answer<N: Runner, Q: RecordQueue>()
    ensures begun { (queues : List Q) (recorders : List (ChangeRecorder Q)) (keep : KeepLimits)
        (desks : List Ledger) → AllZip IsNewRecorder queues recorders
        → length desks ≡ length queues → HaveForgotten keep desks recorders }
    ensures answered { (answers : List HistoryEntry) (s t : Tenancy × RecordedRunner N Q)
        → AreInStep s
        → Replays (named_answers_recorded N.starts N.looks N.takes Q.taken Q.has_failed)
        (λ x. x ≡ s) answers t
        → Replays (named_answers N.starts N.looks N.takes) (λ x. x ≡ unrecorded s) answers
        (unrecorded t) × AreInStep t }
    ensures history { (answers : List HistoryEntry) (s t : Tenancy × RecordedRunner N Q)
        → AreInStep s
        → Replays (named_answers_recorded N.starts N.looks N.takes Q.taken Q.has_failed)
        (λ x. x ≡ s) answers t
        → IsTenantHistory N.starts N.looks N.takes s.0.names s.0.desks s.1.keep answers
        (unrecorded t) }
{}

/// Whatever leaves its tenant's name out, the desks are asked by names, and their recorders take what
/// that changes: a history of a handler at whose doors the name may be left out is one of the desks,
/// by what they were asked.
pub fn recorded_names_are_put_in<N: Runner, Q: RecordQueue>()
    ensures { (history : List HistoryEntry) (s t : Tenancy × RecordedRunner N Q)
        → AreInStep s
        → Replays (tenant_answers_recorded N.starts N.looks N.takes Q.taken Q.has_failed)
        (λ x. x ≡ s) history t
        → (asked : List HistoryEntry) × AreAskedByName s.0.names history asked
        × Replays (named_answers_recorded N.starts N.looks N.takes Q.taken Q.has_failed)
        (λ x. x ≡ s) asked t }
{}
