//! A job that waits for a worker, and what it came to.

ghost use Rattle.std.specs.Prelude.{◌≡◌, ◌≤◌, length};
ghost use Rattle.job_pools.specs.Endings.{IsEndOf};
ghost use Rattle.server_log.specs.Told.{event_of};
ghost use Rattle.server_log.specs.declared.log_line.LogEvent.TheVariants.{Started};

use crate::job_register::JobSeat;
use crate::job_seats::RegisterId;
use crate::queues::OfJob;
use crate::turn_ends::NumberedJob;
use credit_book::{Post, Report};
use job_core::Job;
use server_log::LogEvent;
use std::alloc::Global;
use std::marker::Model;
use std::sync::Wait;
use std::thread::Threads;
use std::time::Instant;
use workers::{OpenGate, run_whole};

/// The most credit of a job that one worker runs by itself.
const SMALL: u32 = 1_000_000;

/// A job that waits for a worker, with the post of its board; for a log, the connection that asked
/// for it, if one did, and since when it waits.
#[derive(Drop)]
pub struct QueuedJob<J: RegisterId> {
    pub(crate) alloc: Global,
    pub(crate) number: u64,
    pub(crate) connection: Option<u64>,
    pub(crate) since: Option<Instant>,
    pub(crate) job: Job,
    pub(crate) post: Post,
    pub(crate) seat: JobSeat<J>,
    ghost board: { post.board.job ≡ number },
    ghost credit: { post.board.issued ≡ job.credit },
    ghost numbered: { seat.number ≡ number },
    ghost entered: { seat.job ≡ job },
}

impl<J: RegisterId> OfJob for QueuedJob<J> {
    ghost job = { λ q. q.seat };
}

impl<J: RegisterId> NumberedJob for QueuedJob<J> {
    fn number(&self) -> u64 {
        self.number
    }
}

/// A job that is over: its number and what it came to, which its seat knows to be the end of the
/// very job that was started. Contracts see it as that job.
#[derive(Drop)]
pub struct EndedJob<J: RegisterId> {
    pub(crate) number: u64,
    pub(crate) end: Result<Report, u8>,
    pub(crate) seat: JobSeat<J>,
}

impl<J: RegisterId> Model for EndedJob<J> {
    ghost use Rattle.std.specs.Prelude.{◌≡◌};
    ghost use Rattle.job_pools.specs.Endings.{IsEndOf};
    ghost use Rattle.job_pools.specs.declared.job_seats.StartedJob.{StartedJob};

    ghost Value = { StartedJob };

    ghost view = { λ e. e.seat };

    ghost invariant = { λ e. (e.seat.number ≡ e.number) × IsEndOf e.number e.seat.job e.end };
}

impl<J: RegisterId> OfJob for EndedJob<J> {
    ghost job = { λ e. e };
}

// How a job ended that took so many milliseconds, for a log.
fn event_of(job: u64, end: &Result<Report, u8>, ms: u64) -> LogEvent
    ensures { result ≡ event_of job end.now ms }
{
    match end {
        Ok(report) => LogEvent::Ended {
            job,
            spent: report.spent,
            returned: report.returned,
            tasks: report.tasks.len() as u64,
            buffer: report.buffer.len() as u64,
            ms,
        },
        Err(code) => LogEvent::Failed { job, code: *code },
    }
}

impl<J: RegisterId> EndedJob<J> {
    /// How it ended, for a log.
    pub(crate) fn event(&self, ms: u64) -> LogEvent {
        event_of(self.number, &self.end, ms)
    }

    /// Its number, what it came to, and its seat.
    pub(crate) fn into_parts(self) -> (u64, Result<Report, u8>, JobSeat<J>)
        ensures { (result.2 ≡ self) × (result.2.number ≡ result.0)
            × IsEndOf result.0 result.2.job result.1 }
    {
        let EndedJob { number, end, seat } = self;
        (number, end, seat)
    }
}

// What the job comes to, on so many workers, or on the calling thread alone where it is small.
fn end_of<R: Threads + Wait + Sync>(
    rt: &R,
    alloc: Global,
    job: Job,
    post: Post,
    workers: u32,
) -> Result<Report, u8>
    requires workers { (1 ≤ workers) × (workers ≤ 16) }
    requires post { post.board.issued ≡ job.credit }
    ensures { IsEndOf post.board.job job result }
{
    let workers = if job.credit() <= SMALL { 1 } else { workers };
    match run_whole(rt, alloc, job, post, workers, &OpenGate) {
        Ok(report) => Ok(report),
        Err(why) => Err(why.code()),
    }
}

impl<J: RegisterId> QueuedJob<J> {
    /// That it is run now, once it waited for so many milliseconds, for a log.
    pub(crate) fn event(&self, wait: u64) -> LogEvent
        ensures { result ≡ Started self.now.number self.now.connection self.now.job.credit
            (length self.now.job.programs) wait }
    {
        LogEvent::Started {
            job: self.number,
            connection: self.connection,
            credit: self.job.credit(),
            programs: self.job.programs().len() as u64,
            wait,
        }
    }

    /// Runs the job, a large one on so many workers, 1 to 16. What it came to.
    pub(crate) fn run<R: Threads + Wait + Sync>(self, rt: &R, workers: u32) -> EndedJob<J>
        requires { (1 ≤ workers) × (workers ≤ 16) }
        ensures { result ≡ self.seat }
    {
        let QueuedJob {
            alloc,
            number,
            job,
            post,
            seat,
            ..
        } = self;
        let end = end_of(rt, alloc, job, post, workers);
        EndedJob { number, end, seat }
    }
}
