//! The laws of a pool over whole runs.

ghost use Rattle.std.specs.Prelude.{◌≡◌, ℕ, Bool, List, Err, None, Option, Result, Some, true};
ghost use Rattle.std.specs.BTreeMap.{BTreeMap};
ghost use Rattle.credit_book.specs.declared.book.Report.{Report};
ghost use Rattle.job_core.specs.Admitted.{AdmittedJob};
ghost use Rattle.server_state.specs.declared.job_id.JobId.{JobId};
ghost use Rattle.job_pool.specs.Holdings.{HasRoom, KeepsLimits, PoolLimits, SeenJob, StartsJob, TakesHeldJob, held_job_at};
ghost use Rattle.job_pool.specs.PooledJobs.{IsJobEnd};
ghost use Rattle.job_pool.specs.PoolRuns.{PoolEvent, PoolRuns, still_open};

/// A job that is taken was started under its name, and was not taken since: each start is taken once at
/// most. What it came to is an end of that very job.
pub fn taken_jobs_were_started()
    ensures { (limits : PoolLimits) (has_workers : Bool) (events : List PoolEvent)
        (old new : List (BTreeMap ℕ SeenJob)) (id : JobId) (outcome : Result Report ℕ)
        → PoolRuns limits has_workers events old → TakesHeldJob old (Some (id, outcome)) new
        → (job : AdmittedJob) × (still_open id events ≡ Some job) × IsJobEnd id job outcome }
{}

/// The limits hold at every moment.
pub fn limits_hold()
    ensures { (limits : PoolLimits) (has_workers : Bool) (events : List PoolEvent)
        (table : List (BTreeMap ℕ SeenJob))
        → PoolRuns limits has_workers events table → KeepsLimits limits table }
{}

/// A desk below its limit isn't refused by 81 for a name that is free, where there is room in all and
/// a worker.
pub fn desks_with_room_are_served()
    ensures { (limits : PoolLimits) (ticket : ℕ) (old new : List (BTreeMap ℕ SeenJob)) (id : JobId)
        (job : AdmittedJob) → HasRoom limits old id.desk → held_job_at old id ≡ None
        → StartsJob limits true ticket old id job (Err 81) new → ⊥ }
{}
