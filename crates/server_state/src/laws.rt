//! The laws of a server's histories.

ghost use Rattle.std.specs.Prelude.{◌≡◌, ℕ, List, Some, slice_get};
ghost use Rattle.job_core.specs.Admitted.{AdmittedJob};
ghost use Rattle.accounts.specs.Limits.{keeps_all};
ghost use Rattle.sessions.specs.JobKeys.{latest};
ghost use Rattle.sessions.specs.declared.job_key.KeyedJob.{KeyedJob};
ghost use Rattle.server_state.specs.AlikeEvents.{EachTwo, HappensAlike, IsSentAlike};
ghost use Rattle.server_state.specs.Alone.{HasServerAlone, one_desk, part_of};
ghost use Rattle.server_state.specs.declared.job_id.JobId.{JobId};
ghost use Rattle.server_state.specs.Histories.{ServerEvent, Happens};
ghost use Rattle.server_state.specs.Keyed.{AreKeyed};
ghost use Rattle.server_state.specs.States.{DeskState, ServerState, steps_of};

use crate::jobs::JobRunner;

/// Each tenant has a server to itself. The part of every history that goes to a desk is a history
/// of the server that has this desk and no other, under the same relation, and it leads to the desk
/// as it is. Only the steps of the runner of all jobs show what others do.
pub fn each_tenant_is_alone<N: JobRunner>()
    ensures { (first s : ServerState N) (events : List ServerEvent) (place : ℕ) (begun desk : DeskState)
        → Happens (steps_of N.JobRunner) first events s
        → slice_get first.desks place ≡ Some begun → slice_get s.desks place ≡ Some desk
        → HasServerAlone (steps_of N.JobRunner) place first begun events s desk }
{}

/// One key, one job, at each desk of any server. A desk remembers the last 1,000 keyed jobs of its
/// part of the history, behind those that it began with. A submit by one of these keys is sent that
/// key's job. One by a new key is sent the number of a job, which has the key from then on, or a
/// refusal.
pub fn one_key_one_job<N: JobRunner>()
    ensures { (first s : ServerState N) (events : List ServerEvent) (place : ℕ) (begun desk : DeskState)
        → Happens (steps_of N.JobRunner) first events s
        → slice_get first.desks place ≡ Some begun → begun.keys ≡ latest begun.keys
        → slice_get s.desks place ≡ Some desk
        → (keyed_jobs : List KeyedJob)
        × AreKeyed begun.keys (part_of first.names place events) keyed_jobs
        × (desk.keys ≡ latest keyed_jobs) }
{}

/// A tenant is told nothing of others. Where the same happens at one first desk in two histories,
/// the same is sent, or how far a job is, or the counts of the server. The same happens where the
/// same is asked, the starts of its jobs come to the same, and its jobs end the same. Neither history
/// forgets a report, or refuses for want of memory.
pub fn others_are_not_told<N: JobRunner>()
    ensures { (begun : DeskState) (waiting others : List (JobId × AdmittedJob)) (r q : N)
        (first second : List ServerEvent) (s t : ServerState N)
        → Happens (steps_of N.JobRunner) (one_desk keeps_all begun waiting r) first s
        → Happens (steps_of N.JobRunner) (one_desk keeps_all begun others q) second t
        → EachTwo HappensAlike first second → EachTwo IsSentAlike first second }
{}
