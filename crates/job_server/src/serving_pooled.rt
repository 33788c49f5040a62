//! What a server's pool serves: one desk or several, with journals or without.

ghost use Rattle.std.specs.Prelude.{◌≡◌, ◌≤◌, ◌+◌, ◌⊎◌, [], is_some, length};
ghost use Rattle.job_server.specs.AtOnce.{HasNotBegun};
ghost use Rattle.job_server.specs.Recorded.{IsServingWithAt, queue_journal, queue_taken, queue_told};
ghost use Rattle.job_server.specs.TenantServing.{IsServingAt};

use crate::fault::ServeFault;
use crate::listener::Listener;
use crate::plan::Plan;
use crate::serving_desks::{serve_at_desk, serve_at_desks};
use crate::serving_recorded::serve_recorded;
use crate::serving_tenants_recorded::serve_tenants_recorded;
use job_pools::{LastingPool, LimitedRunner, RegisterId};
use keyed_desk::KeyedDesk;
use std::alloc::Global;
use std::sync::Wait;
use std::thread::Threads;
use std::time::Clock;

/// Serves the connections at new desks, whose jobs this pool runs: at one, or at one for each of the
/// plan's tenants and one for everybody else. No journal takes their changes.
pub(crate) fn serve_unrecorded<
    's,
    R: Threads + Wait + Clock + Sync,
    L: Listener + Send + Drop,
    J: RegisterId + Send + Sync + 's,
>(
    rt: &'s R,
    alloc: Global,
    listener: L,
    runner: LimitedRunner<LastingPool<'s, R, J>>,
    plan: Plan<'s>,
) -> Result<(), ServeFault>
    requires none { (runner.runner.keeper ≡ []) × (runner.runner.boards.entries ≡ []) }
    requires limit { runner.limit ≡ plan.bounds.open_jobs }
    requires tenants { length plan.tenants.now ≤ 256 }
    ensures { IsServingAt L.opens L.fails L.passage listener plan.entry.tenants.now
        plan.entry.bounds plan.entry.sessions (is_some plan.entry.stop) result }
{
    if plan.tenants.is_empty() {
        return serve_at_desk(rt, alloc, listener, runner, plan);
    }
    serve_at_desks(rt, alloc, listener, runner, plan)
}

/// The same at recovered desks, each of whose journals takes its changes.
pub(crate) fn serve_journaled<
    's,
    R: Threads + Wait + Clock + Sync,
    L: Listener + Send + Drop,
    J: RegisterId + Send + Sync + 's,
>(
    rt: &'s R,
    alloc: Global,
    listener: L,
    runner: LimitedRunner<LastingPool<'s, R, J>>,
    plan: Plan<'s>,
    states: Vec<KeyedDesk>,
) -> Result<(), ServeFault>
    requires none { (runner.runner.keeper ≡ []) × (runner.runner.boards.entries ≡ []) }
    requires limit { runner.limit ≡ plan.bounds.open_jobs }
    requires tenants { length plan.tenants.now ≤ 256 }
    requires journals { length plan.journals.now ≡ length plan.tenants.now + 1 }
    requires states { length states.items ≡ length plan.journals.now }
    ensures { IsServingWithAt L.opens L.fails L.passage listener (queue_taken {R = R})
        (queue_told {R = R}) (queue_journal {R = R}) plan.entry.journals.now states.items
        plan.entry.tenants.now plan.entry.bounds plan.entry.sessions (is_some plan.entry.stop) result
        ⊎ HasNotBegun result }
{
    if plan.tenants.is_empty() {
        return serve_recorded(rt, alloc, listener, runner, plan, states);
    }
    serve_tenants_recorded(rt, alloc, listener, runner, plan, states)
}
