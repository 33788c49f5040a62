//! Open jobs of recovered desks, started again.

ghost use Rattle.std.specs.Prelude.{◌≡◌, ◌≤◌, ◌<◌, List, IfErr, OnOk, length, map, Vec};
ghost use Rattle.std.specs.declared.alloc.Global.{Global};
ghost use Rattle.accounts.specs.Ledgers.{Ledger};
ghost use Rattle.desk_journal.specs.declared.journaled_desk.OpenJob.{OpenJob};
ghost use Rattle.desk_recorder.specs.Restarts.{RefusesStart, StartsEach};
ghost use Rattle.tenant_desks.specs.Answering.{for_place};
ghost use Rattle.tenant_desks.specs.PlacedRunners.{starts_placed};
ghost use Rattle.tenant_recorder.specs.TenantRestarts.{RefusesStartOf, RestartsEach};

use desk_journal::OpenJob;
use desk_recorder::restart_jobs;
use std::alloc::Global;
use streams::Runner;
use tenant_desks::PlacedRunner;

// Starts the open jobs of the desk at a place again, up to the first that is refused.
fn restart_at<N: Runner>(
    alloc: Global,
    runner: &mut PlacedRunner<N>,
    place: usize,
    jobs: Vec<OpenJob>,
) -> Result<(), u8>
    requires ready { N.ready runner.old.runner }
    requires place { place < 257 }
    ensures ready { N.ready runner.new.runner }
    ensures starts { OnOk result ((desk : Ledger) → StartsEach (starts_placed N.starts) desk
        (for_place place runner.old.runner) jobs.items desk (for_place place runner.new.runner)) }
    ensures refused { IfErr result (λ code. (desk : Ledger) → RefusesStart (starts_placed N.starts) desk
        (for_place place runner.old.runner) jobs.items code (for_place place runner.new.runner)) }
{
    runner.place = place as u16;
    restart_jobs(alloc, runner, jobs)
}

/// Starts the open jobs of each desk again, desk after desk, each job once and in order. The first
/// start that is refused ends that, and its number is the result.
pub(crate) fn restart_each<N: Runner>(
    alloc: Global,
    runner: &mut PlacedRunner<N>,
    jobs: Vec<Vec<OpenJob>>,
) -> Result<(), u8>
    requires ready { N.ready runner.old.runner }
    requires few { length jobs.items ≤ 257 }
    ensures ready { N.ready runner.new.runner }
    ensures starts { OnOk result ((desks : List Ledger) → length desks ≡ length jobs.items
        → RestartsEach N.starts desks runner.old.runner
        (map (λ (v : Vec OpenJob Global). v.items) jobs.items) desks runner.new.runner) }
    ensures refused { IfErr result (λ code. (desks : List Ledger) → length desks ≡ length jobs.items
        → RefusesStartOf N.starts desks runner.old.runner
        (map (λ (v : Vec OpenJob Global). v.items) jobs.items) code runner.new.runner) }
{
    let mut place = 0;
    'desks: for own in jobs {
        restart_at(alloc, runner, place, own)?;
        place += 1;
    }
    Ok(())
}
