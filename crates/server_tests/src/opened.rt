//! A job beside the post of its board.

ghost use Rattle.std.specs.Prelude.{◌≡◌};

use crate::lookers::Looker;
use crate::stop::ScenarioFault;
use credit_book::{Board, Post, Report};
use job_core::Job;
use refusal::NoMemory;
use std::alloc::Global;
use std::sync::Wait;
use std::thread::Threads;
use workers::{Gate, PoolFault, run_job};

/// A job beside a post that was opened with its credit.
#[derive(Drop)]
pub struct Opened {
    job: Job,
    post: Post,
    ghost same: { post.board.issued ≡ job.credit },
}

impl Opened {
    /// A job beside the post of a board of its own, with this number.
    pub fn new(alloc: Global, number: u64, job: Job) -> Result<Opened, ScenarioFault> {
        let credit = job.credit();
        if credit < 1 || credit > 2_147_483_647 {
            return Err(ScenarioFault::Differs("no such job"));
        }
        let (_board, post, _reader) = Board::open(alloc, number, credit)?;
        Ok(Opened { job, post })
    }

    /// The credit that the job was admitted with.
    pub fn issued(&self) -> u32 {
        self.job.credit()
    }

    /// One that looks at the board, and has seen its opening alone.
    pub fn looker(&mut self) -> Result<Looker, NoMemory> {
        Looker::at(&mut self.post)
    }

    /// Runs the job in so many threads.
    pub fn run<R: Threads + Wait + Sync, G: Gate + Sync>(
        self,
        rt: &R,
        alloc: Global,
        workers: u32,
        gate: &G,
    ) -> Result<Report, ScenarioFault> {
        let Opened { job, post } = self;
        if workers < 1 || workers > 16 {
            return Err(ScenarioFault::Differs("no such workers"));
        }
        match run_job(rt, alloc, job, post, workers, gate) {
            Ok(report) => Ok(report),
            Err(PoolFault::NoMemory) | Err(PoolFault::NoWorker) => Err(ScenarioFault::Refused),
            Err(PoolFault::BookRefused) => Err(ScenarioFault::Differs("the book refused an end")),
        }
    }
}
