//! The ends of the jobs that a runner holds.

ghost use Rattle.std.specs.Prelude.{ℕ, Option, Result};
ghost use Rattle.job_core.specs.Admitted.{AdmittedJob};
ghost use Rattle.credit_book.specs.declared.book.Report.{Report};
ghost use Rattle.server_state.specs.declared.job_id.JobId.{JobId};
ghost use Rattle.server_state.specs.Results.{RunsJobs};

use crate::jobs::JobRunner;

/// A runner that holds each job under its name until it returns the job's end.
pub trait JobEnds: JobRunner {
    // The job that it holds under a name.
    ghost at: { Self → JobId → Option AdmittedJob };

    // What a job of this name may come to.
    ghost ends: { JobId → AdmittedJob → Result Report ℕ → Type 0 };

    // The numbers by which it refuses a start.
    ghost refuses: { ℕ → Type 0 };

    // So its steps do.
    ghost runs: { RunsJobs (record { starts = Self.starts; looks = Self.looks; takes = Self.takes }) at ends refuses };
}
