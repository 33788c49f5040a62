//! What each tenant has of a server that many share: a server to itself.

ghost use Rattle.std.specs.Prelude.{◌≡◌, ◌≤◌, ◌<◌, ◌+◌, ℕ, List, Some, length, slice_get};
ghost use Rattle.accounts.specs.declared.keep_limits.KeepLimits.{KeepLimits};
ghost use Rattle.accounts.specs.Ledgers.{Ledger};
ghost use Rattle.accounts.specs.Limits.{keeps_all};
ghost use Rattle.sessions.specs.declared.door_forms.DoorForm.TheVariants.{Keyed};
ghost use Rattle.sessions.specs.declared.job_key.KeyedJob.{KeyedJob};
ghost use Rattle.shared_desk.specs.Histories.{HistoryEntry, Query, Replays};
ghost use Rattle.tenant_desks.specs.Alone.{AreToldWhy, DeskEvent, HappensAlone, IsAloneHistory, IsTenantHistory, sent_to};
ghost use Rattle.tenant_desks.specs.Answering.{BeginsAtDoors, KeptRunner, door_answers, tenant_answers};
ghost use Rattle.tenant_desks.specs.AskedPlainly.{AreAskedPlainly};
ghost use Rattle.tenant_desks.specs.AtDoors.{AsksNothing, BehindDoors, keys_behind, submit_frame, without_keys};
ghost use Rattle.sessions.specs.JobKeys.{job_among, latest};
ghost use Rattle.tenant_desks.specs.KeyedHistories.{AreKeyed};
ghost use Rattle.tenant_desks.specs.OwnNamed.{AreAskedByName};
ghost use Rattle.tenant_desks.specs.Events.{EachTwo, HappensAlike, IsToldAlike};
ghost use Rattle.tenant_desks.specs.Seen.{answers_seen};
ghost use Rattle.tenant_desks.specs.Tenancies.{Tenancy};

use streams::Runner;

/// Each tenant has the server to itself. After every history there are as many desks as at first.
/// The entries that go to one of them, in order, are a history of that desk alone, which leads from
/// the first desk at its place to it. A request that goes nowhere is told why.
pub fn each_tenant_is_alone<N: Runner>()
    ensures desks { (names : List (List ℕ)) (firsts : List Ledger) (keep : KeepLimits)
        (history : List HistoryEntry) (end : Tenancy × KeptRunner N)
        → IsTenantHistory N.starts N.looks N.takes names firsts keep history end
        → length end.0.desks ≡ length firsts }
    ensures alone { (names : List (List ℕ)) (firsts : List Ledger) (keep : KeepLimits)
        (history : List HistoryEntry) (end : Tenancy × KeptRunner N) (place : ℕ)
        (first desk : Ledger)
        → IsTenantHistory N.starts N.looks N.takes names firsts keep history end
        → slice_get firsts place ≡ Some first → slice_get end.0.desks place ≡ Some desk
        → IsAloneHistory N.starts N.looks N.takes place keep first (sent_to names place history)
        desk }
    ensures refused { (names : List (List ℕ)) (firsts : List Ledger) (keep : KeepLimits)
        (history : List HistoryEntry) (end : Tenancy × KeptRunner N)
        → IsTenantHistory N.starts N.looks N.takes names firsts keep history end
        → AreToldWhy names history }
{}

/// A tenant is told nothing of others. Where the same happens at one first desk in two histories, the
/// same is told, or how far a job is. The same happens where the same is asked, the starts of its
/// jobs come to the same, and its jobs end the same. Neither history forgets a report, or refuses
/// for want of memory.
pub fn others_are_not_told<N: Runner>()
    ensures { (place : ℕ) (begun : Ledger) (first second : List DeskEvent) (d e : Ledger)
        → HappensAlone N.starts N.looks N.takes place keeps_all begun first d
        → HappensAlone N.starts N.looks N.takes place keeps_all begun second e
        → EachTwo HappensAlike first second → EachTwo IsToldAlike first second }
{}

/// A tenant's part is a legal history of a plain desk, which a runner serves whose steps for others
/// can't be seen.
pub fn each_part_is_plain<N: Runner>()
    ensures { (names : List (List ℕ)) (firsts : List Ledger) (keep : KeepLimits) (place : ℕ)
        (first : Ledger)
        (history : List HistoryEntry) (end : Tenancy × KeptRunner N)
        → length firsts ≤ 257 → slice_get firsts place ≡ Some first
        → IsTenantHistory N.starts N.looks N.takes names firsts keep history end
        → (s : Ledger × N)
        × Replays (answers_seen N.starts N.looks N.takes place keep) (λ x. x.0 ≡ first)
        (sent_to names place history) s }
{}

/// Whatever leaves its tenant's name out, the desks are asked by names: a history of a server at whose
/// doors the name may be left out is one of the desks, by what they were asked. All that holds of
/// their histories holds of it.
pub fn own_names_are_put_in<N: Runner>()
    ensures { (names : List (List ℕ)) (firsts : List Ledger) (keep : KeepLimits)
        (history : List HistoryEntry) (end : Tenancy × KeptRunner N)
        → Replays (tenant_answers N.starts N.looks N.takes)
        (λ s. (s.0 ≡ record { names = names; desks = firsts }) × (s.1.keep ≡ keep)) history end
        → (asked : List HistoryEntry) × AreAskedByName names history asked
        × IsTenantHistory N.starts N.looks N.takes names firsts keep asked end }
{}

/// Whatever doors hear beyond the plain protocol, the desks are asked by that: a history of a server
/// behind such doors is one of plain requests, by what was asked of its desks. What a door tells by
/// itself is no request to them. A submit by a new key is that submit.
pub fn forms_are_put_aside<N: Runner>()
    ensures { (names : List (List ℕ)) (firsts : List Ledger) (keep : KeepLimits)
        (history : List HistoryEntry) (end : Tenancy × BehindDoors (KeptRunner N))
        → Replays (door_answers N.starts N.looks N.takes) (BeginsAtDoors names firsts keep) history end
        → (asked : List HistoryEntry)
        × AreAskedPlainly (tenant_answers N.starts N.looks N.takes) (BeginsAtDoors names firsts keep)
        history asked end
        × Replays (tenant_answers N.starts N.looks N.takes)
        (λ s. (s.0 ≡ record { names = names; desks = firsts }) × (s.1.keep ≡ keep)) asked
        (without_keys end) }
{}

/// One key, one job. A desk's door remembers the keys of its last 1,000 keyed jobs. A submit by a new
/// key is told the number of a job, which has that key from then on, or why there is none. A submit by
/// a key that is remembered is told the number of that key's job. It is no request to the desks, and
/// what is remembered stays.
pub fn one_key_one_job<N: Runner>()
    ensures keyed { (names : List (List ℕ)) (firsts : List Ledger) (keep : KeepLimits)
        (history : List HistoryEntry) (end : Tenancy × BehindDoors (KeptRunner N)) (place : ℕ)
        → place < length firsts
        → Replays (door_answers N.starts N.looks N.takes) (BeginsAtDoors names firsts keep) history end
        → (jobs : List KeyedJob) × AreKeyed place history jobs
        × (slice_get end.1.keys place ≡ Some (latest jobs)) }
    ensures again { (s t : Tenancy × BehindDoors (KeptRunner N)) (query : Query) (reply key : List ℕ)
        (job : ℕ)
        → door_answers N.starts N.looks N.takes s query reply t
        → query.beyond ≡ Some (Keyed (Some key))
        → job_among (keys_behind s.1.keys query.passage.door) key ≡ Some job
        → (reply ≡ submit_frame job) × (t.1.keys ≡ s.1.keys)
        × AsksNothing (tenant_answers N.starts N.looks N.takes) query.passage (without_keys s)
        (without_keys t) }
{}
