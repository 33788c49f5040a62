//! The laws of jobs and results, from a submit to what is sent of its job.

ghost use Rattle.std.specs.Prelude.{◌≡◌, ◌⊎◌, ◌+◌, ◌-◌, ◌<◌, ◌^◌, ℕ, List, ◌∷◌, ◌++◌, length, Some, slice_get};
ghost use Rattle.sessions.specs.JobKeys.{latest};
ghost use Rattle.server_state.specs.Alone.{part_of, waiting_of};
ghost use Rattle.server_state.specs.Desks.{refusal_frame, submit_frame};
ghost use Rattle.server_state.specs.Histories.{ServerEvent, Happens};
ghost use Rattle.server_state.specs.Keyed.{frame_of_event};
ghost use Rattle.server_state.specs.Results.{AreKnown, AreKnownAtFirst, AsksForResult, ComesFromSubmit, HoldsOpenJobs, IsNewSubmit, IsResultFrame, IsSubmittedBefore, IsToldKnown, IsToldRefusal, KnownJob, StaysSent, WasReported};
ghost use Rattle.server_state.specs.States.{DeskState, ServerState, id_at, steps_of};

use crate::job_ends::JobEnds;
use crate::jobs::JobRunner;

/// At each desk of any server, a submit is sent a greater number than each one before it, so no two
/// are sent the same. A submit by a key that was there before is sent the number of that key's job
/// again, and is none of these.
pub fn numbers_rise<N: JobRunner>()
    ensures { (first s : ServerState N) (events : List ServerEvent) (place : ℕ) (begun desk : DeskState)
        → Happens (steps_of N.JobRunner) first events s
        → slice_get first.desks place ≡ Some begun → begun.keys ≡ latest begun.keys
        → slice_get s.desks place ≡ Some desk
        → (before between after : List ServerEvent) (e f : ServerEvent) (m n : ℕ)
        → part_of first.names place events ≡ before ++ e ∷ (between ++ f ∷ after)
        → length begun.ledger.jobs + length (before ++ e ∷ between) < 2 ^ 64 - 1
        → IsNewSubmit begun.keys before e → frame_of_event e ≡ submit_frame m → m < 2 ^ 64
        → IsNewSubmit begun.keys (before ++ e ∷ between) f → frame_of_event f ≡ submit_frame n
        → n < 2 ^ 64 → m < n }
{}

/// At each desk of any server, a request for a result is sent the result of its number. The frame
/// of a result has the report of the very job that an earlier submit asked for, and that was sent
/// this number, or of one that was known when the history began. It adds up to the credit of that
/// submit. The history begins at any desk: a fresh one, or one that was restored, whose open jobs
/// wait for their start.
pub fn results_come_from_submits<N: JobEnds>()
    ensures told { (first s : ServerState N) (events : List ServerEvent) (place : ℕ) (begun desk : DeskState)
        → Happens (steps_of N.JobRunner) first events s
        → slice_get first.desks place ≡ Some begun → begun.keys ≡ latest begun.keys
        → slice_get s.desks place ≡ Some desk → (known : List KnownJob)
        → AreKnownAtFirst (λ r n. N.at r (id_at place n)) begun (waiting_of place first.waiting)
        first.jobs known
        → (before after : List ServerEvent) (e : ServerEvent) (number : ℕ)
        → part_of first.names place events ≡ before ++ e ∷ after → AsksForResult number e
        → IsToldKnown (λ n. N.ends (id_at place n)) N.refuses first.keep begun.keys known before number e }
    ensures submitted { (first s : ServerState N) (events : List ServerEvent) (place : ℕ) (begun desk : DeskState)
        → Happens (steps_of N.JobRunner) first events s
        → slice_get first.desks place ≡ Some begun → begun.keys ≡ latest begun.keys
        → slice_get s.desks place ≡ Some desk → (known : List KnownJob)
        → AreKnownAtFirst (λ r n. N.at r (id_at place n)) begun (waiting_of place first.waiting)
        first.jobs known
        → (before after : List ServerEvent) (e : ServerEvent) (number : ℕ)
        → part_of first.names place events ≡ before ++ e ∷ after → AsksForResult number e
        → IsResultFrame (frame_of_event e)
        → ComesFromSubmit (λ n. N.ends (id_at place n)) known before number e
        ⊎ WasReported known number e }
    ensures refused { (first s : ServerState N) (events : List ServerEvent) (place : ℕ)
        (begun desk : DeskState)
        → Happens (steps_of N.JobRunner) first events s
        → slice_get first.desks place ≡ Some begun → begun.keys ≡ latest begun.keys
        → slice_get s.desks place ≡ Some desk → (known : List KnownJob)
        → AreKnownAtFirst (λ r n. N.at r (id_at place n)) begun (waiting_of place first.waiting)
        first.jobs known
        → (before after : List ServerEvent) (e : ServerEvent) (number code : ℕ)
        → part_of first.names place events ≡ before ++ e ∷ after → AsksForResult number e
        → frame_of_event e ≡ refusal_frame code → code < 2 ^ 64
        → IsToldRefusal (λ n. N.ends (id_at place n)) N.refuses first.keep begun.keys known before
        number code }
    ensures adds_up { (place : ℕ) (known : List KnownJob) (before : List ServerEvent) (number : ℕ)
        (e : ServerEvent) (c : ComesFromSubmit (λ n. N.ends (id_at place n)) known before number e)
        (b : IsSubmittedBefore before number c.job)
        → c.report.spent + c.report.returned ≡ b.is_submit.credit }
{}

/// At each desk of any server, no job that was taken is lost. As long as a job is open, it waits for
/// its start or the runner has it, and it is the very job that the submit of its number asked for.
pub fn open_jobs_are_held<N: JobEnds>()
    ensures { (first s : ServerState N) (events : List ServerEvent) (place : ℕ) (begun desk : DeskState)
        → Happens (steps_of N.JobRunner) first events s
        → slice_get first.desks place ≡ Some begun → begun.keys ≡ latest begun.keys
        → slice_get s.desks place ≡ Some desk → (known : List KnownJob)
        → AreKnownAtFirst (λ r n. N.at r (id_at place n)) begun (waiting_of place first.waiting)
        first.jobs known
        → (later : List KnownJob)
        × AreKnown begun.keys known (part_of first.names place events) later
        × HoldsOpenJobs (λ r n. N.at r (id_at place n)) desk (waiting_of place s.waiting) s.jobs later }
{}

/// At each desk of any server, what is sent of a job's result stays the same once the job is over,
/// until it is forgotten.
pub fn results_stay<N: JobRunner>()
    ensures { (first s : ServerState N) (events : List ServerEvent) (place : ℕ) (begun desk : DeskState)
        → Happens (steps_of N.JobRunner) first events s
        → slice_get first.desks place ≡ Some begun → slice_get s.desks place ≡ Some desk
        → (before between after : List ServerEvent) (e f : ServerEvent) (number : ℕ)
        → part_of first.names place events ≡ before ++ e ∷ (between ++ f ∷ after)
        → AsksForResult number e → AsksForResult number f → StaysSent e f }
{}
