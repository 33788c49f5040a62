//! The open jobs of a recovered desk, which are started again.

ghost use Rattle.std.specs.Prelude.{IfErr, OnOk};
ghost use Rattle.accounts.specs.Ledgers.{Ledger};
ghost use Rattle.desk_recorder.specs.Restarts.{RefusesStart, StartsEach};

use desk_journal::OpenJob;
use std::alloc::Global;
use streams::Runner;

/// Starts each open job of a desk once, in this order. The first start that is refused ends that, and
/// its number is the result: the desk and its records stay as they are.
pub fn restart_jobs<N: Runner>(alloc: Global, runner: &mut N, jobs: Vec<OpenJob>) -> Result<(), u8>
    requires { N.ready runner.old }
    ensures ready { N.ready runner.new }
    ensures starts { OnOk result ((desk : Ledger)
        → StartsEach N.starts desk runner.old jobs.items desk runner.new) }
    ensures refused { IfErr result (λ code. (desk : Ledger)
        → RefusesStart N.starts desk runner.old jobs.items code runner.new) }
{
    'jobs: for job in jobs {
        let OpenJob { number, job } = job;
        runner.start(alloc, number, job)?;
    }
    Ok(())
}
