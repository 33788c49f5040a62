//! The run of a job by a pool of workers: as the report of what its tasks came to, or as the one
//! answer of the job.

ghost use Rattle.std.specs.Prelude.{◌≡◌, ◌≢◌, ◌≤◌, ℕ, All, IfErr, IfOk, length, map, true};
ghost use Rattle.job_answer.specs.Closing.{ClosesJob};
ghost use Rattle.job_answer.specs.Gathered.{root_start};
ghost use Rattle.job_answer.specs.OneAnswer.{AllRan, HasOneAnswer, IsJobAnswer, IsWholeRun, RunsOrNot};
ghost use Rattle.job_core.specs.Admitted.{AreOwn};
ghost use Rattle.task_register.specs.declared.seats.TaskResult.{TaskResult};
ghost use Rattle.verifier.specs.Checked.{program_of};
ghost use Rattle.workers.specs.Final.{IsFinal};
ghost use Rattle.workers.specs.EndedAlone.{EndedAlone};
ghost use Rattle.workers.specs.Heard.{HasHeard, HasHeardAll};
ghost use Rattle.workers.specs.declared.fault.PoolFault.TheVariants.{BookRefused};

use crate::fault::{NotWhole, PoolFault};
use crate::gate::{Gate, GatedJob};
use crate::pool::{open_shared, open_worker, open_workers, run_beside, run_in_threads, work};
use crate::worker::Leave;
use credit_book::{Post, Report};
use job_core::Job;
use std::alloc::Global;
use std::marker::Brand;
use std::sync::Wait;
use std::thread::Threads;
use task_register::NewTaskRegister;
use verifier::Verified;

/// Runs the job under a name, as [`run_job`] does.
fn run_as<R: Threads + Wait + Sync, G: Gate + Sync, J: GatedJob + Send + Sync + 'static>(
    rt: &R,
    alloc: Global,
    register: NewTaskRegister,
    programs: Vec<Verified>,
    buffer: Vec<u8>,
    post: Post,
    workers: u32,
    gate: &G,
) -> Result<Report, PoolFault>
    requires workers { workers ≤ 16 }
    requires table { register ≡ J.table }
    requires board { post.board ≡ J.board }
    requires root { J.root ≡ root_start post.board.issued buffer.items }
    requires short { length buffer.items ≤ 65536 }
    requires few { length programs.items ≤ 16 }
    requires own { AreOwn programs.items }
    requires runs { (o : TaskResult) → RunsOrNot (map program_of programs.items) o
        → (o.ran ≡ true → J.heard o.own.number) → J.runs o }
    requires gate { (n : ℕ) → HasHeard G.begins G.ends gate.now n → J.heard n }
    ensures report { IfOk result
        (λ report. IsFinal J.board.job J.board.issued (length J.root.bytes) report) }
    ensures closes { IfOk result (λ report. ClosesJob J.board.job J.board.issued
        (length J.root.bytes) J.root J.runs report) }
    ensures refused { IfErr result (λ fault. fault ≢ BookRefused) }
{
    let mut post = post;
    let mut spare = open_worker::<J>(alloc, &mut post)?;
    let stations = open_workers::<J>(alloc, &mut post, workers)?;
    let mut shared = open_shared::<J>(alloc, register, programs, buffer, post, Leave::Complete)?;
    if !run_in_threads(rt, alloc, &shared, stations, gate) {
        return Err(PoolFault::NoWorker);
    }
    // The workers leave once the job is complete, so that it closes at once: what comes back is for
    // the proof.
    for _ in rt.forever() {
        match shared.close() {
            Ok(closed) => return Ok(closed.report),
            Err((back, _)) => shared = back,
        }
        spare = work(rt, &shared, gate, spare, alloc);
    }
    unreachable!()
}

/// Runs the job under a name, as [`run_whole`] does.
fn run_whole_as<R: Threads + Wait + Sync, G: Gate + Sync, J: GatedJob + Send + Sync + 'static>(
    rt: &R,
    alloc: Global,
    register: NewTaskRegister,
    programs: Vec<Verified>,
    buffer: Vec<u8>,
    post: Post,
    workers: u32,
    gate: &G,
) -> Result<Report, NotWhole>
    requires workers { (1 ≤ workers) × (workers ≤ 16) }
    requires table { register ≡ J.table }
    requires board { post.board ≡ J.board }
    requires root { J.root ≡ root_start post.board.issued buffer.items }
    requires short { length buffer.items ≤ 65536 }
    requires few { length programs.items ≤ 16 }
    requires own { AreOwn programs.items }
    requires runs { (o : TaskResult) → RunsOrNot (map program_of programs.items) o
        → (o.ran ≡ true → J.heard o.own.number) → J.runs o }
    requires gate { (n : ℕ) → HasHeard G.begins G.ends gate.now n → J.heard n }
    ensures report { IfOk result
        (λ report. IsFinal J.board.job J.board.issued (length J.root.bytes) report) }
    ensures closes { IfOk result (λ report. ClosesJob J.board.job J.board.issued
        (length J.root.bytes) J.root (λ o. J.runs o × IsWholeRun o) report) }
{
    let mut post = post;
    let mut others = open_workers::<J>(alloc, &mut post, workers)?;
    let mut own = match others.pop() {
        Some(own) => own,
        None => unreachable!(),
    };
    let mut shared = open_shared::<J>(alloc, register, programs, buffer, post, Leave::NotWhole)?;
    own = run_beside(rt, alloc, &shared, own, others, gate);
    for _ in rt.forever() {
        match shared.close() {
            Ok(closed) => {
                return match closed.refused {
                    Some(why) => Err(NotWhole::Refused(why)),
                    None => Ok(closed.report),
                };
            }
            Err((_, Some(why))) => return Err(NotWhole::Refused(why)),
            Err((back, None)) => shared = back,
        }
        own = work(rt, &shared, gate, own, alloc);
    }
    unreachable!()
}

/// Runs the job in so many threads, 1 to 16, and gives the report of its book once no task is
/// alive. The post is that of the job, opened with its credit.
///
/// Each task of the report that ran gives what it gives by itself, and each other spent nothing. The
/// gate was told of each that ran. Where each ran, the report tells of runs that agree from parent to
/// child, from the job's credit and buffer on, and its buffer is what they left. Where none of these
/// was refused a spawn, they are the one answer of the job: that of [`job_core::play`], for every
/// schedule.
///
/// 81 where no thread could be started: with some started the job runs on those. 99 where there was no
/// memory ahead of the first thread. It never refuses by 82. The call returns if its waits do.
///
/// [`run_whole`] gives the one answer, or says that there was no memory for it.
pub fn run_job<R: Threads + Wait + Sync, G: Gate + Sync>(
    rt: &R,
    alloc: Global,
    job: Job,
    post: Post,
    workers: u32,
    gate: &G,
) -> Result<Report, PoolFault>
    requires workers { (1 ≤ workers) × (workers ≤ 16) }
    requires post { post.board.issued ≡ job.credit }
    ensures report { IfOk result (λ report.
        IsFinal post.board.job job.credit (length job.buffer) report) }
    ensures alone { IfOk result (λ report. All (EndedAlone job.programs) report.tasks.items) }
    ensures heard { IfOk result (λ report. HasHeardAll G.begins G.ends gate.now report) }
    ensures answer { IfOk result (λ report. AllRan report
        → HasOneAnswer (map program_of job.programs) job.credit job.buffer report) }
    ensures refused { IfErr result (λ fault. fault ≢ BookRefused) }
{
    let register = NewTaskRegister::new(alloc)?;
    let (programs, credit, buffer) = job.into_parts();
    let _ = credit;
    run_as::<R, G, Brand>(rt, alloc, register, programs, buffer, post, workers, gate)
}

/// Runs the job on so many workers, 1 to 16, and gives its one answer: that of [`job_core::play`], for
/// every schedule. The post is that of the job, opened with its credit. The calling thread is a worker,
/// and a thread is started for each other one: one that can't be costs speed alone.
///
/// The report is that of the job's book, once no task is alive. Each task of it ran, and none was
/// refused a spawn. The gate was told of each.
///
/// 99 where there was no memory ahead of the first task, or for a task: for its frame, or for a spawn
/// of it. Then the workers leave, and nothing more is run. The call returns if its waits do.
pub fn run_whole<R: Threads + Wait + Sync, G: Gate + Sync>(
    rt: &R,
    alloc: Global,
    job: Job,
    post: Post,
    workers: u32,
    gate: &G,
) -> Result<Report, NotWhole>
    requires workers { (1 ≤ workers) × (workers ≤ 16) }
    requires post { post.board.issued ≡ job.credit }
    ensures report { IfOk result (λ report.
        IsFinal post.board.job job.credit (length job.buffer) report) }
    ensures heard { IfOk result (λ report. HasHeardAll G.begins G.ends gate.now report) }
    ensures answer { IfOk result (λ report.
        IsJobAnswer (map program_of job.programs) job.credit job.buffer report) }
{
    let register = NewTaskRegister::new(alloc)?;
    let (programs, credit, buffer) = job.into_parts();
    let _ = credit;
    run_whole_as::<R, G, Brand>(rt, alloc, register, programs, buffer, post, workers, gate)
}
