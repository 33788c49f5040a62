//! What runs the jobs of a desk.

ghost use Rattle.std.specs.Prelude.{◌≡◌, ◌+◌, ℕ, Option, Result, IfSome};
ghost use Rattle.job_core.specs.Admitted.{AdmittedJob};
ghost use Rattle.credit_book.specs.declared.book.Report.{Report};
ghost use Rattle.credit_book.specs.declared.board.Progress.{Progress};

use credit_book::{Progress, Report};
use job_core::Job;
use std::alloc::Global;

/// Runs jobs, each under its number.
pub trait Runner {
    // How many jobs it holds: those that were started and not yet taken.
    ghost held: { Self → ℕ };

    // It may be called.
    ghost ready: { Self → Type 0 };

    // What a start, a look and a take may do, from a runner to the next.
    ghost starts: { Self → ℕ → AdmittedJob → Result (Unit {0}) ℕ → Self → Type 0 };

    ghost looks: { Self → ℕ → Progress → Self → Type 0 };

    ghost takes: { Self → Option (ℕ × Result Report ℕ) → Self → Type 0 };

    /// Starts a job, or tells the number of the refusal.
    fn start(&mut self, alloc: Global, number: u64, job: Job) -> Result<(), u8>
        requires { ready self.old }
        ensures ready { ready self.new }
        ensures starts { starts self.old number job result self.new };

    /// What a job has come to so far; 0, 0 and not complete where it doesn't run the job.
    fn look(&mut self, number: u64) -> Progress
        requires { ready self.old }
        ensures ready { ready self.new }
        ensures looks { looks self.old number result self.new };

    /// The finished job of lowest number, given once, with its report or the number of what it
    /// failed by.
    fn take(&mut self) -> Option<(u64, Result<Report, u8>)>
        requires { ready self.old }
        ensures ready { ready self.new }
        ensures takes { takes self.old result self.new }
        ensures fewer { IfSome result (λ _. held self.new + 1 ≡ held self.old) };
}
