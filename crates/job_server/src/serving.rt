//! A server, whose jobs a pool runs that lasts.

ghost use Rattle.std.specs.Prelude.{◌≡◌, ◌≤◌, ◌⊎◌, [], is_some, length, vec_len};
ghost use Rattle.job_server.specs.AtOnce.{HasNotBegun};
ghost use Rattle.job_server.specs.Recorded.{HasJournalEach, IsServingWith, IsServingWithAt, queue_journal, queue_taken, queue_told};

use crate::at_once::NO_MEMORY;
use crate::fault::ServeFault;
use crate::listener::Listener;
use crate::plan::Plan;
use crate::serving_pooled::{serve_journaled, serve_unrecorded};
use crate::socket_listener::SocketListener;
use job_pools::{
    EndedJob, Inlet, JobRegister, Keeper, LastingPool, LimitedRunner, NewQueueHistory, NewRegister,
    Outlet, QueuedJob, RegisterId, TurnCloser, TurnInlet, TurnOutlet, queue_in_turns, queue_to_one,
    start_workers,
};
use keyed_desk::KeyedDesk;
use std::alloc::Global;
use std::marker::Brand;
use std::net::{Net, TcpListener, TcpStream};
use std::sync::Wait;
use std::thread;
use std::thread::{Scope, Threads};
use std::time::Clock;

// The ends of a pool's queues, all but the log's: those that the pool holds, those of its workers,
// and what closes the queue of jobs.
#[derive(Drop)]
struct Queues<J: RegisterId> {
    queue: TurnInlet<QueuedJob<J>, J>,
    ended: Outlet<EndedJob<J>>,
    jobs: Vec<TurnOutlet<QueuedJob<J>, J>>,
    endings: Inlet<EndedJob<J>>,
    closer: TurnCloser<QueuedJob<J>, J>,
}

// Starts the workers, and serves the connections with a pool of them.
fn serve_on_pool<
    's,
    E: 's,
    R: Threads + Wait + Clock + Sync,
    L: Listener + Send + Drop,
    J: RegisterId + Send + Sync + 's,
>(
    rt: &'s R,
    scope: &Scope<'s, E>,
    alloc: Global,
    register: &'s JobRegister<J>,
    keeper: Keeper<J>,
    queues: Queues<J>,
    listener: L,
    plan: Plan<'s>,
    states: Vec<KeyedDesk>,
) -> Result<(), ServeFault>
    requires keeper { keeper ≡ [] }
    requires workers { (1 ≤ plan.workers) × (plan.workers ≤ 16) }
    requires tenants { length plan.tenants.now ≤ 256 }
    requires journals { HasJournalEach plan.journals.now plan.tenants.now }
    requires states { length states.items ≡ length plan.journals.now }
    ensures { IsServingWithAt L.opens L.fails L.passage listener (queue_taken {R = R}) (queue_told {R = R})
        (queue_journal {R = R}) plan.entry.journals.now states.items plan.entry.tenants.now
        plan.entry.bounds plan.entry.sessions (is_some plan.entry.stop) result
        ⊎ HasNotBegun result }
{
    let Queues {
        queue,
        ended,
        jobs,
        endings,
        closer,
    } = queues;
    let started = start_workers(rt, scope, jobs, endings, plan.workers, plan.log);
    if started < plan.workers as usize {
        closer.close(rt);
        return Err(ServeFault::Threads);
    }
    let pool = LastingPool::new(
        rt,
        alloc,
        plan.log,
        register,
        keeper,
        queue,
        ended,
        started > 0,
    );
    let runner = LimitedRunner::new(pool, plan.bounds.open_jobs);
    // the queue is closed behind each, so that the workers end: nobody is told of what waits still
    if plan.journals.is_empty() {
        let served = serve_unrecorded(rt, alloc, listener, runner, plan);
        closer.close(rt);
        return served;
    }
    let served = serve_journaled(rt, alloc, listener, runner, plan, states);
    closer.close(rt);
    served
}

// The same with the threads in a scope of their own.
fn serve_in_scope<
    R: Threads + Wait + Clock + Sync,
    L: Listener + Send + Drop,
    J: RegisterId + Send + Sync,
>(
    rt: &R,
    alloc: Global,
    register: &JobRegister<J>,
    keeper: Keeper<J>,
    queues: Queues<J>,
    listener: L,
    plan: Plan<'_>,
    states: Vec<KeyedDesk>,
) -> Result<(), ServeFault>
    requires keeper { keeper ≡ [] }
    requires workers { (1 ≤ plan.workers) × (plan.workers ≤ 16) }
    requires tenants { length plan.tenants.now ≤ 256 }
    requires journals { HasJournalEach plan.journals.now plan.tenants.now }
    requires states { length states.items ≡ length plan.journals.now }
    ensures { IsServingWithAt L.opens L.fails L.passage listener (queue_taken {R = R}) (queue_told {R = R})
        (queue_journal {R = R}) plan.entry.journals.now states.items plan.entry.tenants.now
        plan.entry.bounds plan.entry.sessions (is_some plan.entry.stop) result
        ⊎ HasNotBegun result }
{
    let Plan {
        place,
        workers,
        sessions,
        bounds,
        tenants,
        stop,
        log,
        journals,
        sync,
    } = plan;
    thread::scope(
        thread::scope_env(),
        rt,
        |scope| -> Result<(), ServeFault>
            requires { (1 ≤ workers) × (workers ≤ 16) × (keeper ≡ []) × (length tenants.now ≤ 256)
                × HasJournalEach journals.now tenants.now
                × (length states.items ≡ length journals.now) }
            ensures { IsServingWithAt L.opens L.fails L.passage listener (queue_taken {R = R}) (queue_told {R = R})
                (queue_journal {R = R}) journals.entry.now states.items tenants.entry.now bounds sessions
                (is_some stop.entry) result ⊎ HasNotBegun result }
        {
            let plan = Plan {
                place,
                workers,
                sessions,
                bounds,
                tenants,
                stop,
                log,
                journals,
                sync,
            };
            serve_on_pool(
                rt, scope, alloc, register, keeper, queues, listener, plan, states,
            )
        },
    )
}

// `serve_listener` under a name for the register of jobs.
fn serve_registered<
    R: Threads + Wait + Clock + Sync,
    L: Listener + Send + Drop,
    J: RegisterId + Send + Sync,
>(
    rt: &R,
    alloc: Global,
    new_register: NewRegister,
    new_history: NewQueueHistory,
    listener: L,
    plan: Plan<'_>,
    states: Vec<KeyedDesk>,
) -> Result<(), ServeFault>
    requires named { new_register ≡ J.table }
    requires named_turns { new_history ≡ J.turns }
    requires workers { (1 ≤ plan.workers) × (plan.workers ≤ 16) }
    requires tenants { length plan.tenants.now ≤ 256 }
    requires journals { HasJournalEach plan.journals.now plan.tenants.now }
    requires states { length states.items ≡ length plan.journals.now }
    ensures { IsServingWithAt L.opens L.fails L.passage listener (queue_taken {R = R}) (queue_told {R = R})
        (queue_journal {R = R}) plan.entry.journals.now states.items plan.entry.tenants.now
        plan.entry.bounds plan.entry.sessions (is_some plan.entry.stop) result
        ⊎ HasNotBegun result }
{
    let (register, keeper) = new_register.named::<J>();
    let Ok((queue, jobs, closer)) = queue_in_turns::<QueuedJob<J>, J>(
        alloc,
        new_history,
        plan.workers,
    ) else {
        return Err(NO_MEMORY);
    };
    let Ok((endings, ended)) = queue_to_one::<EndedJob<J>>(alloc) else {
        return Err(NO_MEMORY);
    };
    let queues = Queues {
        queue,
        ended,
        jobs,
        endings,
        closer,
    };
    serve_in_scope(rt, alloc, &register, keeper, queues, listener, plan, states)
}

/// Serves so many connections of the listener as the plan says, in as many threads at once as its
/// bounds say, on a new desk. Where tenants have doors, each has a new desk of its own, and that one
/// is for everybody else. Jobs run on the plan's workers, which start once and last: a small job is run
/// whole by one of them, a large one on as many threads. It returns once the last connection and the
/// jobs that run then have ended. Those that wait then aren't begun: nobody could be told of them, and
/// a journal has them open.
///
/// While as many jobs are open as the bounds allow, a start is refused by 81. The reports of all but
/// the last jobs are forgotten, as many as the bounds keep. A connection whose reads wait longer than
/// they allow, between frames or within one, is given up by 83.
///
/// Where the plan has journals, its desks are the ones that were recovered, and each desk's open jobs
/// are started again first, once each and in order. Each desk's journal takes the record of each change
/// of the desk.
///
/// A connection that was given up by 83, 84 or 99 counts as served, and the fault is answered at the
/// end. Nothing is served, and no journal takes a record, where there is no memory to begin with (99),
/// where a worker or a client has no thread, or where an open job can't be started again.
pub fn serve_listener<R: Threads + Wait + Clock + Sync, L: Listener + Send + Drop>(
    rt: &R,
    alloc: Global,
    listener: L,
    plan: Plan<'_>,
    states: Vec<KeyedDesk>,
) -> Result<(), ServeFault>
    requires workers { (1 ≤ plan.workers) × (plan.workers ≤ 16) }
    requires tenants { length plan.tenants.now ≤ 256 }
    requires journals { HasJournalEach plan.journals.now plan.tenants.now }
    requires states { length states.items ≡ length plan.journals.now }
    ensures { IsServingWithAt L.opens L.fails L.passage listener (queue_taken {R = R}) (queue_told {R = R})
        (queue_journal {R = R}) plan.entry.journals.now states.items plan.entry.tenants.now
        plan.entry.bounds plan.entry.sessions (is_some plan.entry.stop) result
        ⊎ HasNotBegun result }
{
    let Ok(new_register) = NewRegister::new(alloc) else {
        return Err(NO_MEMORY);
    };
    let Ok(new_history) = NewQueueHistory::new(alloc) else {
        return Err(NO_MEMORY);
    };
    serve_registered::<R, L, Brand>(rt, alloc, new_register, new_history, listener, plan, states)
}

/// Serves the connections of a port as [`serve_listener`] does. A write that takes as long as the
/// bounds allow a read gives its connection up, by 84.
pub fn serve_port<
    R: Net<Stream = TcpStream, Listener = TcpListener> + Threads + Wait + Clock + Sync,
>(
    rt: &R,
    alloc: Global,
    listener: &TcpListener,
    plan: Plan<'_>,
    states: Vec<KeyedDesk>,
) -> Result<(), ServeFault>
    requires workers { (1 ≤ plan.workers) × (plan.workers ≤ 16) }
    requires tenants { length plan.tenants.now ≤ 256 }
    requires journals { HasJournalEach plan.journals.now plan.tenants.now }
    requires states { length states.items ≡ length plan.journals.now }
    ensures { IsServingWith (queue_taken {R = R}) (queue_told {R = R}) (queue_journal {R = R})
        plan.entry.journals.now states.items plan.entry.tenants.now plan.entry.bounds plan.entry.sessions
        (is_some plan.entry.stop) result ⊎ HasNotBegun result }
{
    serve_listener(rt, alloc, listener, plan, states)
}

/// Serves the connections of sockets in the file system as [`serve_listener`] does. Where there is one
/// for grants, a grant of any other connection is answered by 73 and changes nothing. Whoever comes by
/// the door of a tenant is this tenant, and may not grant.
pub fn serve_sockets<R: Threads + Wait + Clock + Sync>(
    rt: &R,
    alloc: Global,
    sockets: SocketListener,
    plan: Plan<'_>,
    states: Vec<KeyedDesk>,
) -> Result<(), ServeFault>
    requires workers { (1 ≤ plan.workers) × (plan.workers ≤ 16) }
    requires tenants { length plan.tenants.now ≤ 256 }
    requires doors { vec_len sockets.tenants ≡ length plan.tenants.now }
    requires journals { HasJournalEach plan.journals.now plan.tenants.now }
    requires states { length states.items ≡ length plan.journals.now }
    ensures { IsServingWith (queue_taken {R = R}) (queue_told {R = R}) (queue_journal {R = R})
        plan.entry.journals.now states.items plan.entry.tenants.now plan.entry.bounds plan.entry.sessions
        (is_some plan.entry.stop) result ⊎ HasNotBegun result }
{
    serve_listener(rt, alloc, sockets, plan, states)
}
