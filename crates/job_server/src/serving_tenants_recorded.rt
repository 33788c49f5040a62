//! A server's desks of tenants, whose changes journals keep, one for each desk.

ghost use Rattle.std.specs.Prelude.{◌≡◌, ◌≤◌, ◌+◌, ◌⊎◌, [], All, Err, IfOk, Vec, false, is_some, length, map};
ghost use Rattle.std.specs.declared.alloc.Global.{Global};
ghost use Rattle.desk_journal.specs.DeskSteps.{DeskState};
ghost use Rattle.desk_journal.specs.declared.journaled_desk.OpenJob.{OpenJob};
ghost use Rattle.shared_journal.specs.declared.journal_queue.JournalQueue.{JournalQueue};
ghost use Rattle.shared_desk.specs.ServerAsked.{answers_counting};
ghost use Rattle.tenant_desks.specs.AtDoors.{BehindDoors, without_keys};
ghost use Rattle.tenant_desks.specs.Tenancies.{Tenancy};
ghost use Rattle.tenant_recorder.specs.TenantsRecorded.{RecordedRunner, door_answers_recorded};
ghost use Rattle.job_pools.specs.LineBounded.{looks_by_line, new_by_line, starts_by_line, takes_by_line};
ghost use Rattle.job_pools.specs.declared.line_limited_runner.LineLimitedRunner.{LineLimitedRunner};
ghost use Rattle.job_server.specs.AtOnce.{HasNotBegun, IsServingFrom};
ghost use Rattle.job_server.specs.Listening.{AreOf, CameBy};
ghost use Rattle.job_server.specs.Recorded.{queue_journal, queue_taken, queue_told};
ghost use Rattle.job_server.specs.TenantLimits.{door_limits};
ghost use Rattle.job_server.specs.TenantRecorded.{AreFresh, AreRestarted, desks_of, keys_of, open_jobs_of, recovered_tenancy};
ghost use Rattle.job_server.specs.TenantServing.{door_credits};

use crate::at_once::{NO_MEMORY, each_of, serve_at_once};
use crate::fault::ServeFault;
use crate::listener::Listener;
use crate::plan::Plan;
use crate::serving_desks::limited_by_door;
use crate::tenant_door::{TenantDoor, credits_of, names_of};
use crate::tenant_recording::TenantRecording;
use accounts::Desk;
use desk_journal::OpenJob;
use job_pools::LineLimitedRunner;
use keyed_desk::KeyedDesk;
use refusal::NoMemory;
use server_log::CountingHandler;
use shared_journal::{JournalNote, JournalQueue, SharedJournal};
use std::alloc::Global;
use std::sync::Wait;
use std::thread::Threads;
use std::time::Clock;
use streams::Runner;
use tenant_desks::{DoorKeys, TenantDesks, TenantDoors};
use tenant_recorder::RecordingTenantHandler;

// The desks that were recovered, the open jobs of each, and doors that remember the keys of each.
fn parts_of_each(
    alloc: Global,
    states: Vec<KeyedDesk>,
) -> Result<(Vec<Desk>, Vec<Vec<OpenJob>>, DoorKeys), NoMemory>
    ensures desks { IfOk result (λ parts. parts.0.items
        ≡ map (λ (s : DeskState). s.desk) (desks_of states.items)) }
    ensures jobs { IfOk result (λ parts. map (λ (jobs : Vec OpenJob Global). jobs.items) parts.1.items
        ≡ open_jobs_of (desks_of states.items)) }
    ensures keys { IfOk result (λ parts. parts.2 ≡ keys_of states.items) }
    ensures count { IfOk result (λ parts. (length parts.0.items ≡ length states.items)
        × (length parts.1.items ≡ length states.items)) }
{
    let mut desks = Vec::new(alloc);
    let mut jobs = Vec::new(alloc);
    let mut doors = DoorKeys::none(alloc);
    'states: for state in states {
        let (journaled, keys) = state.into_parts();
        let (desk, held) = journaled.into_parts();
        desks.push(desk)?;
        jobs.push(held)?;
        doors.add(keys)?;
    }
    Ok((desks, jobs, doors))
}

// The same, as desks of these doors' tenants and of everybody else.
fn recovered_desks(
    alloc: Global,
    doors: &[TenantDoor],
    states: Vec<KeyedDesk>,
) -> Result<(TenantDesks, Vec<Vec<OpenJob>>, DoorKeys), NoMemory>
    requires doors { length doors.now ≤ 256 }
    requires states { length states.items ≡ length doors.now + 1 }
    ensures desks { IfOk result
        (λ parts. parts.0 ≡ recovered_tenancy doors.now (desks_of states.items)) }
    ensures jobs { IfOk result (λ parts. map (λ (jobs : Vec OpenJob Global). jobs.items) parts.1.items
        ≡ open_jobs_of (desks_of states.items)) }
    ensures keys { IfOk result (λ parts. parts.2 ≡ keys_of states.items) }
    ensures count { IfOk result (λ parts. (length parts.0.desks ≡ length states.items)
        × (length parts.1.items ≡ length states.items)) }
{
    let names = names_of(alloc, doors)?;
    let (desks, jobs, keys) = parts_of_each(alloc, states)?;
    Ok((TenantDesks::of(names, desks), jobs, keys))
}

// A queue for each journal, in order, which has taken nothing.
fn queues_of<'s, R>(
    rt: &'s R,
    alloc: Global,
    journals: &'s [SharedJournal],
) -> Result<Vec<JournalQueue<'s, 's, R>>, NoMemory>
    ensures own { IfOk result (λ queues. map (queue_journal {R = R}) queues.items
        ≡ journals.entry.now) }
    ensures count { IfOk result (λ queues. length queues.items ≡ length journals.entry.now) }
    ensures none { IfOk result (λ queues. All (λ q. queue_taken {R = R} q ≡ []) queues.items) }
{
    let mut queues = Vec::new(alloc);
    for journal in journals {
        queues.push(JournalQueue::new(rt, journal))?;
    }
    Ok(queues)
}

// What answers at the desks of a plan, with a queue for each of its journals.
fn recording_handler<'s, R: Wait, N: Runner + Drop>(
    rt: &'s R,
    alloc: Global,
    runner: N,
    plan: Plan<'s>,
) -> Result<RecordingTenantHandler<'s, R, LineLimitedRunner<N>, JournalQueue<'s, 's, R>>, NoMemory>
    ensures runner { IfOk result (λ made. made.runner
        ≡ new_by_line (door_limits plan.entry.bounds.tenant_jobs plan.entry.tenants.now) runner) }
    ensures keep { IfOk result (λ made. made.keep ≡ plan.entry.bounds.keep) }
    ensures own { IfOk result (λ made. map (λ r. queue_journal {R = R} r.queue) made.recorders
        ≡ plan.entry.journals.now) }
    ensures count { IfOk result (λ made. length made.recorders ≡ length plan.entry.journals.now) }
    ensures fresh { IfOk result (λ made. AreFresh (queue_taken {R = R}) made.recorders) }
{
    let limited = limited_by_door(alloc, runner, plan.bounds.tenant_jobs, plan.tenants)?;
    let queues = queues_of(rt, alloc, plan.journals)?;
    RecordingTenantHandler::new(alloc, rt, plan.log, limited, plan.bounds.keep, queues)
}

/// Serves the connections at recovered desks: one for each of the plan's tenants, and one for
/// everybody else. First the open jobs of each desk are started again, and each tenant has its first
/// credit, unless something was granted to it before. Each desk's own door remembers the keys that
/// were recovered with it. The journal of each desk takes the record of each of its changes. The
/// runner runs the jobs of all, as many of each desk as its limit allows. Nothing is served where a job
/// can't be started again, or there is no memory for what this takes.
pub(crate) fn serve_tenants_recorded<
    's,
    R: Threads + Wait + Clock + Sync,
    L: Listener + Send + Drop,
    N: Runner + Send + Drop,
>(
    rt: &'s R,
    alloc: Global,
    listener: L,
    runner: N,
    plan: Plan<'s>,
    states: Vec<KeyedDesk>,
) -> Result<(), ServeFault>
    requires ready { N.ready runner }
    requires tenants { length plan.tenants.now ≤ 256 }
    requires journals { length plan.journals.now ≡ length plan.tenants.now + 1 }
    requires states { length states.items ≡ length plan.journals.now }
    ensures { ((begun : Tenancy × BehindDoors (RecordedRunner (LineLimitedRunner N) (JournalQueue R)))
        × (end : Tenancy × BehindDoors (RecordedRunner (LineLimitedRunner N) (JournalQueue R)))
        × AreRestarted (starts_by_line N.starts) queue_taken queue_told queue_journal
        plan.entry.journals.now (recovered_tenancy plan.entry.tenants.now (desks_of states.items))
        (door_credits plan.entry.tenants.now) (open_jobs_of (desks_of states.items))
        (new_by_line (door_limits plan.entry.bounds.tenant_jobs plan.entry.tenants.now) runner)
        plan.entry.bounds.keep (without_keys begun)
        × (begun.1.keys ≡ keys_of states.items)
        × (s : IsServingFrom (answers_counting (door_answers_recorded (starts_by_line N.starts)
        (looks_by_line N.looks) (takes_by_line N.takes) queue_taken queue_told)) (λ s. s ≡ begun) end
        plan.entry.sessions (is_some plan.entry.stop) result)
        × AreOf L.opens L.fails listener s.opened
        × All (λ c. CameBy L.opens L.passage c.passage) s.closed)
        ⊎ HasNotBegun result }
{
    let Ok((mut desks, jobs, keys)) = recovered_desks(alloc, plan.tenants, states) else {
        return Err(NO_MEMORY);
    };
    let Ok(tenants) = credits_of(alloc, plan.tenants) else {
        return Err(NO_MEMORY);
    };
    let Ok(makers) = each_of(alloc, plan.journals) else {
        return Err(NO_MEMORY);
    };
    let Ok(mut handler) = recording_handler(rt, alloc, runner, plan) else {
        return Err(NO_MEMORY);
    };
    match handler.restart(alloc, jobs) {
        Ok(()) => {}
        Err(code) => return Err(ServeFault::Restart(code)),
    }
    let Ok(()) = handler.grant_first(alloc, &mut desks, &tenants) else {
        return Err(NO_MEMORY);
    };
    let doors = TenantDoors::of(TenantRecording::of(handler), keys);
    let counting = CountingHandler::new(rt, plan.log, plan.stop, doors);
    let served = serve_at_once::<
        R,
        L,
        TenantDesks,
        CountingHandler<'s, R, TenantDoors<TenantRecording<'s, 's, R, LineLimitedRunner<N>>>>,
        JournalNote<'s>,
        &'s SharedJournal,
    >(rt, alloc, listener, desks, counting, plan, &makers);
    served.2
}
