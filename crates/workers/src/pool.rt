//! The threads of a pool, each of which runs tasks of the job until no task is alive.

ghost use Rattle.std.specs.Prelude.{◌≡◌, ◌≤◌, ℕ, IfOk, length, map, true};
ghost use Rattle.job_answer.specs.Gathered.{root_start};
ghost use Rattle.job_answer.specs.OneAnswer.{RunsOrNot};
ghost use Rattle.job_core.specs.Admitted.{AreOwn};
ghost use Rattle.task_register.specs.declared.seats.TaskResult.{TaskResult};
ghost use Rattle.verifier.specs.Checked.{program_of};
ghost use Rattle.workers.specs.Heard.{HasHeard};

use crate::bell::Rest;
use crate::gate::{Gate, GateAndObserver, GatedJob};
use crate::held_lock::HeldLock;
use crate::locked_book::LockedBook;
use crate::seated::SeatedTicket;
use crate::watch::Watch;
use crate::worker::{Leave, Shared, Worker};
use credit_book::{Book, Post};
use helpers::Part;
use lanes::{Lanes, lanes_between};
use refusal::NoMemory;
use std::alloc::Global;
use std::sync::Wait;
use std::thread;
use std::thread::{Scope, Threads};
use task_register::{JobId, NewTaskRegister};
use verifier::Verified;
use virtual_machine::Frames;

/// A worker while it has no thread: its view of how far the job is, and its lanes.
#[derive(Drop)]
pub(crate) struct Station<J: JobId> {
    watch: Watch,
    lanes: Lanes<SeatedTicket<J>>,
}

/// What one worker does, until a look says that the job is complete, or it was given up.
pub(crate) fn work<'s, R: Wait, G: Gate, J: GatedJob + 'static>(
    rt: &'s R,
    shared: &'s Shared<J>,
    gate: &'s G,
    station: Station<J>,
    alloc: Global,
) -> Station<J>
    requires { (n : ℕ) → HasHeard G.begins G.ends gate.now n → J.heard n }
{
    let Station { watch, lanes } = station;
    let mut watch = watch;
    let mut frames = Frames::new(alloc);
    let held_lock = HeldLock::away();
    let gate_and_observer = GateAndObserver {
        gate,
        observer: &held_lock,
    };
    let mut worker = Worker::new(rt, alloc, shared, &held_lock, lanes);
    let mut rest = Rest::new(shared.bell());
    for _ in rt.forever() {
        if worker.is_given_up() {
            break;
        }
        match worker.find() {
            Some(ticket) => {
                rest.end();
                let run = worker.run(alloc, ticket, &mut frames, &gate_and_observer);
                worker.end(run);
            }
            None => {
                if worker.is_given_up() || watch.is_complete() {
                    break;
                }
                rest.pause(rt, worker.has_looked());
            }
        }
    }
    shared.bell().ring_for_all();
    Station {
        watch,
        lanes: worker.into_lanes(),
    }
}

/// Starts a thread for a worker. Whether it could be started.
fn start<'s, E: 's, R: Threads + Wait + Sync, G: Gate + Sync, J: GatedJob + Send + Sync + 'static>(
    rt: &'s R,
    scope: &Scope<'s, E>,
    shared: &'s Shared<J>,
    gate: &'s G,
    worker: Station<J>,
    alloc: Global,
) -> bool
    requires { (n : ℕ) → HasHeard G.begins G.ends gate.now n → J.heard n }
{
    scope
        .spawn(
            move ||
                requires { (n : ℕ) → HasHeard G.begins G.ends gate.now n → J.heard n }
            {
                let _ = work(rt, shared, gate, worker, alloc);
            },
        )
        .is_ok()
}

/// Starts a thread for each worker. Whether any could be started.
fn start_all<
    's,
    E: 's,
    R: Threads + Wait + Sync,
    G: Gate + Sync,
    J: GatedJob + Send + Sync + 'static,
>(
    rt: &'s R,
    scope: &Scope<'s, E>,
    shared: &'s Shared<J>,
    gate: &'s G,
    workers: Vec<Station<J>>,
    alloc: Global,
) -> bool
    requires { (n : ℕ) → HasHeard G.begins G.ends gate.now n → J.heard n }
{
    let mut is_any = false;
    for worker in workers {
        if start(rt, scope, shared, gate, worker, alloc) {
            is_any = true;
        }
    }
    is_any
}

/// Runs the tasks in a thread for each worker, until all have left. Whether any could be started.
pub(crate) fn run_in_threads<
    R: Threads + Wait + Sync,
    G: Gate + Sync,
    J: GatedJob + Send + Sync + 'static,
>(rt: &R, alloc: Global, shared: &Shared<J>, workers: Vec<Station<J>>, gate: &G) -> bool
    requires { (n : ℕ) → HasHeard G.begins G.ends gate.now n → J.heard n }
{
    thread::scope(
        thread::scope_env(),
        rt,
        |scope| -> bool
            requires { (n : ℕ) → HasHeard G.begins G.ends gate.now n → J.heard n }
        { start_all(rt, scope, shared, gate, workers, alloc) },
    )
}

/// Starts a thread for each other worker, and works as one worker more.
fn work_beside<
    's,
    E: 's,
    R: Threads + Wait + Sync,
    G: Gate + Sync,
    J: GatedJob + Send + Sync + 'static,
>(
    rt: &'s R,
    scope: &Scope<'s, E>,
    shared: &'s Shared<J>,
    gate: &'s G,
    own: Station<J>,
    others: Vec<Station<J>>,
    alloc: Global,
) -> Station<J>
    requires { (n : ℕ) → HasHeard G.begins G.ends gate.now n → J.heard n }
{
    let _ = start_all(rt, scope, shared, gate, others, alloc);
    work(rt, shared, gate, own, alloc)
}

/// Runs the tasks in a thread for each other worker, and by the calling thread as one worker more,
/// until all have left. A thread that can't be started costs speed alone.
pub(crate) fn run_beside<
    R: Threads + Wait + Sync,
    G: Gate + Sync,
    J: GatedJob + Send + Sync + 'static,
>(
    rt: &R,
    alloc: Global,
    shared: &Shared<J>,
    own: Station<J>,
    others: Vec<Station<J>>,
    gate: &G,
) -> Station<J>
    requires { (n : ℕ) → HasHeard G.begins G.ends gate.now n → J.heard n }
{
    if others.is_empty() {
        return work(rt, shared, gate, own, alloc);
    }
    thread::scope(
        thread::scope_env(),
        rt,
        |scope| -> Station<J>
            requires { (n : ℕ) → HasHeard G.begins G.ends gate.now n → J.heard n }
        { work_beside(rt, scope, shared, gate, own, others, alloc) },
    )
}

/// So many workers: each has its own watch over the post's board, and its own lane.
pub(crate) fn open_workers<J: JobId + 'static>(
    alloc: Global,
    post: &mut Post,
    count: u32,
) -> Result<Vec<Station<J>>, NoMemory>
    requires { count ≤ 16 }
    ensures same { post.new ≡ post.old }
    ensures count { IfOk result (λ workers. length workers.items ≡ count) }
{
    let mut all = lanes_between(alloc, count)?;
    let mut workers = Vec::with_capacity(alloc, all.len())?;
    while let Some(lanes) = all.pop() {
        let watch = Watch::over(post)?;
        workers.push_reserved(Station { watch, lanes });
    }
    Ok(workers)
}

/// One worker that shares its lane with nobody.
pub(crate) fn open_worker<J: JobId + 'static>(
    alloc: Global,
    post: &mut Post,
) -> Result<Station<J>, NoMemory>
    ensures { post.new ≡ post.old }
{
    let mut workers = open_workers::<J>(alloc, post, 1)?;
    match workers.pop() {
        Some(worker) => Ok(worker),
        None => unreachable!(),
    }
}

/// What the workers of a job share, with the root's ticket parked: the register takes the job's
/// name.
pub(crate) fn open_shared<J: GatedJob + 'static>(
    alloc: Global,
    register: NewTaskRegister,
    programs: Vec<Verified>,
    buffer: Vec<u8>,
    post: Post,
    leave: Leave,
) -> Result<Shared<J>, NoMemory>
    requires table { register ≡ J.table }
    requires board { post.board ≡ J.board }
    requires root { J.root ≡ root_start post.board.issued buffer.items }
    requires short { length buffer.items ≤ 65536 }
    requires few { length programs.items ≤ 16 }
    requires own { AreOwn programs.items }
    requires runs { (o : TaskResult) → RunsOrNot (map program_of programs.items) o
        → (o.ran ≡ true → J.heard o.own.number) → J.runs o }
    ensures { IfOk result (λ shared. shared ≡ programs.items) }
{
    let (book, root) = Book::open(alloc, post, Part::whole(buffer))?;
    let (register, seat) = register.named::<J>();
    let root = SeatedTicket::new(root, seat);
    let desk = LockedBook::open(book, register, root);
    Ok(Shared::new(programs, desk, leave))
}
