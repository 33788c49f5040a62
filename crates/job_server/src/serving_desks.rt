//! What answers a server's connections: one desk, or one for each tenant that has a door.

ghost use Rattle.std.specs.Prelude.{◌≡◌, ◌≤◌, All, IfOk, is_some, length};
ghost use Rattle.accounts.specs.Ledgers.{Ledger};
ghost use Rattle.shared_desk.specs.Histories.{by_any_passage};
ghost use Rattle.shared_desk.specs.ServerAsked.{answers_counting};
ghost use Rattle.tenant_desks.specs.Answering.{KeptRunner, door_answers};
ghost use Rattle.tenant_desks.specs.AtDoors.{BehindDoors};
ghost use Rattle.tenant_desks.specs.Tenancies.{Tenancy};
ghost use Rattle.job_server.specs.AtOnce.{IsServingFrom, new_desk};
ghost use Rattle.job_server.specs.Kept.{answers_keeping};
ghost use Rattle.job_server.specs.Listening.{AreOf, CameBy};
ghost use Rattle.job_pools.specs.LineBounded.{looks_by_line, new_by_line, starts_by_line, takes_by_line};
ghost use Rattle.job_pools.specs.declared.line_limited_runner.LineLimitedRunner.{LineLimitedRunner};
ghost use Rattle.job_server.specs.TenantLimits.{door_limits};
ghost use Rattle.job_server.specs.TenantServing.{BeginsAtDesks};
ghost use Rattle.job_server.specs.declared.keeping_handler.KeepingHandler.{KeepingHandler};

use crate::at_once::{NO_MEMORY, serve_at_once};
use crate::fault::ServeFault;
use crate::keeping_handler::KeepingHandler;
use crate::listener::Listener;
use crate::plan::Plan;
use crate::tenant_door::{TenantDoor, credits_of, limits_of};
use accounts::Desk;
use job_pools::LineLimitedRunner;
use refusal::NoMemory;
use server_log::{CountingHandler, LoggedHandler};
use shared_journal::{JournalNote, SharedJournal};
use std::alloc::Global;
use std::sync::Wait;
use std::thread::Threads;
use std::time::Clock;
use streams::Runner;
use tenant_desks::{DoorKeys, OwnNaming, TenantDesks, TenantDoors, TenantHandler};

/// Serves the connections at one new desk, whose jobs this runner runs. The door for grants hears
/// what the server counts.
pub(crate) fn serve_at_desk<
    's,
    R: Threads + Wait + Clock + Sync,
    L: Listener + Send + Drop,
    N: Runner + Send + Drop,
>(rt: &'s R, alloc: Global, listener: L, runner: N, plan: Plan<'s>) -> Result<(), ServeFault>
    requires { N.ready runner }
    ensures { (end : Ledger × KeepingHandler N)
        × (s : IsServingFrom (answers_counting (by_any_passage
        (answers_keeping N.starts N.looks N.takes)))
        (λ s. s ≡ (new_desk, record { runner = runner; keep = plan.entry.bounds.keep })) end
        plan.entry.sessions (is_some plan.entry.stop) result)
        × AreOf L.opens L.fails listener s.opened
        × All (λ c. CameBy L.opens L.passage c.passage) s.closed }
{
    let kept = KeepingHandler::new(runner, plan.bounds.keep);
    let logged = LoggedHandler::new(rt, plan.log, kept);
    let handler = CountingHandler::new(rt, plan.log, plan.stop, logged);
    let desk = Desk::new(alloc);
    let served = serve_at_once::<
        R,
        L,
        Desk,
        CountingHandler<'s, R, LoggedHandler<'s, R, KeepingHandler<N>>>,
        JournalNote<'s>,
        &'s SharedJournal,
    >(rt, alloc, listener, desk, handler, plan, &[]);
    served.2
}

/// The runner, which holds as many jobs of each desk as its limit allows.
pub(crate) fn limited_by_door<N: Runner + Drop>(
    alloc: Global,
    runner: N,
    all: u32,
    doors: &[TenantDoor],
) -> Result<LineLimitedRunner<N>, NoMemory>
    ensures { IfOk result (λ new. new ≡ new_by_line (door_limits all doors.now) runner) }
{
    let limits = limits_of(alloc, all, doors)?;
    LineLimitedRunner::new(alloc, runner, limits)
}

/// Serves the connections at new desks: one for each of the plan's tenants, with the credit that it is
/// granted at first, and one for everybody else. The runner runs the jobs of all, as many of each desk
/// as its limit allows.
pub(crate) fn serve_at_desks<
    's,
    R: Threads + Wait + Clock + Sync,
    L: Listener + Send + Drop,
    N: Runner + Send + Drop,
>(rt: &'s R, alloc: Global, listener: L, runner: N, plan: Plan<'s>) -> Result<(), ServeFault>
    requires ready { N.ready runner }
    requires tenants { length plan.tenants.now ≤ 256 }
    ensures { (begun : Tenancy × BehindDoors (KeptRunner (LineLimitedRunner N)))
        × (end : Tenancy × BehindDoors (KeptRunner (LineLimitedRunner N)))
        × BeginsAtDesks plan.entry.tenants.now plan.entry.bounds runner begun
        × (s : IsServingFrom (answers_counting (door_answers (starts_by_line N.starts)
        (looks_by_line N.looks) (takes_by_line N.takes))) (λ s. s ≡ begun) end
        plan.entry.sessions (is_some plan.entry.stop) result)
        × AreOf L.opens L.fails listener s.opened
        × All (λ c. CameBy L.opens L.passage c.passage) s.closed }
{
    let Ok(tenants) = credits_of(alloc, plan.tenants) else {
        return Err(NO_MEMORY);
    };
    let Ok(desks) = TenantDesks::first(alloc, &tenants) else {
        return Err(NO_MEMORY);
    };
    let Ok(limited) = limited_by_door(alloc, runner, plan.bounds.tenant_jobs, plan.tenants) else {
        return Err(NO_MEMORY);
    };
    let Ok(keys) = DoorKeys::new(alloc, plan.tenants.len() + 1) else {
        return Err(NO_MEMORY);
    };
    let named = OwnNaming::of(TenantHandler::new(rt, plan.log, limited, plan.bounds.keep));
    let doors = TenantDoors::of(named, keys);
    let handler = CountingHandler::new(rt, plan.log, plan.stop, doors);
    let served = serve_at_once::<
        R,
        L,
        TenantDesks,
        CountingHandler<'s, R, TenantDoors<OwnNaming<TenantHandler<'s, R, LineLimitedRunner<N>>>>>,
        JournalNote<'s>,
        &'s SharedJournal,
    >(rt, alloc, listener, desks, handler, plan, &[]);
    served.2
}
