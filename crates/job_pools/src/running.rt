//! One job and its thread.

ghost use Rattle.std.specs.Prelude.{◌≡◌, ◌⊎◌, IfOk, IfErr};
ghost use Rattle.job_pools.specs.Endings.{IsReportedEnd};
ghost use Rattle.job_pools.specs.Holding.{IsFresh, IsSeen};
ghost use Rattle.job_pools.specs.Starting.{StartsOwn};

use crate::ending::JobThread;
use crate::job_request::JobRequest;
use credit_book::{Board, Progress, Reader, Report};
use job_core::Job;
use std::alloc::Global;
use std::marker::Model;
use std::sync::{Arc, Mutex, Wait};
use std::thread::Threads;

/// A job's board with what was seen of it, whether the job is done, under its lock, and its thread.
#[derive(Drop)]
pub(crate) struct RunningJob {
    board: Arc<Board>,
    reader: Reader,
    is_done: Arc<Mutex<bool>>,
    thread: JobThread,
}

impl Model for RunningJob {
    ghost use Rattle.std.specs.Prelude.{◌≡◌};
    ghost use Rattle.std.specs.Arc.{arc_value};
    ghost use Rattle.job_pools.specs.Holding.{HeldJob};

    ghost Value = { HeldJob };

    ghost view = { λ r. record {
      number = r.thread.promise.number;
      job = r.thread.promise.job.value;
      sight = r.reader;
    } };

    ghost invariant = { λ r. (r.reader.board ≡ arc_value r.board)
        × (r.reader.board.job ≡ r.thread.promise.number)
        × (r.reader.board.issued ≡ r.thread.promise.job.value.credit) };
}

/// Starts the thread of a job by `starter`, once all that it needs is made: 99 where a growth was
/// refused, and 81 where no thread could be started.
pub(crate) fn begin<F: Fn(JobRequest) -> Option<JobThread>>(
    alloc: Global,
    starter: &F,
    number: u64,
    job: Job,
) -> Result<RunningJob, u8>
    requires callable { F.IsAlwaysCallable starter.now }
    requires own { StartsOwn (F.post starter.now) }
    ensures fresh { IfOk result (λ held. IsFresh number job held) }
    ensures refused { IfErr result (λ code. (code ≡ 81) ⊎ (code ≡ 99)) }
{
    let Ok((board, post, reader)) = job.board(alloc, number) else {
        return Err(99);
    };
    let Ok(is_done) = Arc::new(alloc, Mutex::new(false)) else {
        return Err(99);
    };
    let Ok(for_thread) = Arc::try_clone(&is_done) else {
        return Err(99);
    };
    let request = JobRequest {
        alloc,
        number,
        job,
        post,
        is_done: for_thread,
    };
    match starter(request) {
        Some(thread) => Ok(RunningJob {
            board,
            reader,
            is_done,
            thread,
        }),
        None => Err(81),
    }
}

impl RunningJob {
    /// What the job's board tells now.
    pub fn look(&mut self) -> Progress
        ensures { IsSeen self.old result self.new }
    {
        let board: &Board = &self.board;
        board.look(&mut self.reader)
    }

    /// Whether the job is done, so that its thread is about to end, or has ended.
    pub fn is_done<R: Wait>(&self, rt: &R) -> bool {
        *self.is_done.lock(rt)
    }

    /// Waits for the job's thread. What the job came to.
    pub fn join<R: Threads>(self, rt: &R) -> Result<Report, u8>
        ensures { IsReportedEnd self.number self.job result }
    {
        let RunningJob { thread, .. } = self;
        thread.join(rt)
    }
}
