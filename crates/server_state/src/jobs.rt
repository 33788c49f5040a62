//! The runner of all jobs of a server.

ghost use Rattle.std.specs.Prelude.{◌≡◌, ◌+◌, ℕ, IfErr, IfSome, Option, Result};
ghost use Rattle.job_core.specs.Admitted.{AdmittedJob};
ghost use Rattle.credit_book.specs.declared.book.Report.{Report};
ghost use Rattle.credit_book.specs.declared.board.Progress.{Progress};
ghost use Rattle.server_state.specs.declared.job_id.JobId.{JobId};
ghost use Rattle.server_state.specs.Starts.{started_by};

use crate::job_id::JobId;
use credit_book::{Progress, Report};
use job_core::Job;
use std::alloc::Global;

/// A job that was not started, and the number of the refusal.
#[derive(Drop)]
pub struct RefusedStart {
    pub code: u8,
    pub job: Job,
}

/// Runs the jobs of all desks, within limits of its own.
pub trait JobRunner {
    // How many jobs it holds: those that were started and not yet taken.
    ghost held: { Self → ℕ };

    // It may be called.
    ghost ready: { Self → Type 0 };

    // What a start, a look and a take may do, from a runner to the next.
    ghost starts: { Self → JobId → AdmittedJob → Result (Unit {0}) ℕ → Self → Type 0 };

    ghost looks: { Self → JobId → Progress → Self → Type 0 };

    ghost takes: { Self → Option (JobId × Result Report ℕ) → Self → Type 0 };

    /// Starts a job. A refusal returns the job.
    fn start(&mut self, alloc: Global, id: JobId, job: Job) -> Result<(), RefusedStart>
        requires { ready self.old }
        ensures ready { ready self.new }
        ensures starts { starts self.old id job (started_by result) self.new }
        ensures same { IfErr result (λ refused. refused.job ≡ job) };

    /// The job's progress so far; 0, 0 and not complete for a job that it does not run.
    fn look(&mut self, id: JobId) -> Progress
        requires { ready self.old }
        ensures ready { ready self.new }
        ensures looks { looks self.old id result self.new };

    /// A finished job with its report, or with the number of its failure. Each is returned once.
    fn take(&mut self) -> Option<(JobId, Result<Report, u8>)>
        requires { ready self.old }
        ensures ready { ready self.new }
        ensures takes { takes self.old result self.new }
        ensures fewer { IfSome result (λ _. held self.new + 1 ≡ held self.old) };
}
