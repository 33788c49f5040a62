//! A runner whose workers last: no thread is started for a job.

ghost use Rattle.std.specs.Prelude.{◌≡◌, []};
ghost use Rattle.std.proofs.Props.{props};
ghost use Rattle.std.specs.BTreeMap as tree;
ghost use Rattle.std.specs.Ordering.{nat_cmp};
ghost use Rattle.job_pools.specs.Started.{AreWatched, NoneFrom};

use crate::job_register::{JobRegister, Keeper};
use crate::job_seats::RegisterId;
use crate::keys::{forget, note};
use crate::limited_runner::CountedRunner;
use crate::lines::take_number;
use crate::queued_job::{EndedJob, QueuedJob};
use crate::queues::Outlet;
use crate::seen_board::{SeenBoard, look_at};
use crate::turn_ends::TurnInlet;
use credit_book::{Progress, Report};
use job_core::Job;
use server_log::{Counter, ServerLog};
use std::alloc::Global;
use std::collections::BTreeMap;
use std::sync::Wait;
use std::time::Clock;
use streams::Runner;

/// Hands each job to workers that wait in threads of their own, and takes back what it came to.
///
/// A started job waits in a queue until a worker is free, and lines of numbers have their turns there.
/// That one ever is, or a job ever finished, is nowhere claimed. Numbers that leave the same remainder by 1,000 have to rise: a start under a
/// number at or below an earlier one of these is refused by 81. So up to 1,000 hosts that count their
/// jobs by themselves can share a pool. All starts are refused so where no worker could be started, or
/// where 16,384 jobs wait already.
/// A start that is answered by Ok has put this very job into the queue. A take that gives none has
/// taken no end of a job that is held.
#[derive(Drop)]
pub struct LastingPool<'a, R, J: RegisterId> {
    rt: &'a R,
    log: &'a ServerLog,
    register: &'a JobRegister<J>,
    keeper: Keeper<J>,
    nexts: BTreeMap<u64, u64>,
    boards: BTreeMap<u64, SeenBoard>,
    queue: TurnInlet<QueuedJob<J>, J>,
    ended: Outlet<EndedJob<J>>,
    has_workers: bool,
    ghost none_from: { NoneFrom (tree.get nat_cmp nexts) keeper } by { Prim.hlevel props },
    ghost watched: { AreWatched keeper (tree.get nat_cmp boards) } by { Prim.hlevel props },
}

impl<'a, R, J: RegisterId> LastingPool<'a, R, J> {
    ghost use Rattle.std.specs.Prelude.{◌≡◌, []};

    /// A pool that holds no job. Its workers take jobs from the other end of the queue, and give
    /// back what they came to, if there are any. A log counts the jobs that come into the queue.
    pub fn new(
        rt: &'a R,
        alloc: Global,
        log: &'a ServerLog,
        register: &'a JobRegister<J>,
        keeper: Keeper<J>,
        queue: TurnInlet<QueuedJob<J>, J>,
        ended: Outlet<EndedJob<J>>,
        has_workers: bool,
    ) -> LastingPool<'a, R, J>
        requires { keeper ≡ [] }
        ensures { (result.keeper ≡ []) × (result.boards.entries ≡ []) }
    {
        LastingPool {
            rt,
            log,
            register,
            keeper,
            nexts: BTreeMap::new(alloc),
            boards: BTreeMap::new(alloc),
            queue,
            ended,
            has_workers,
        }
    }
}

impl<R: Wait + Clock, J: RegisterId> Runner for LastingPool<'_, R, J> {
    ghost use Rattle.job_pools.specs.Holds.{StartsBy, TellsBy, TakesBy};
    ghost use Rattle.job_pools.specs.Queues.{PutsStarted, TakesEnded};
    ghost use Rattle.job_pools.specs.Started.{IsPooled, pooled_at, pooled_count};

    ghost held = { λ p. pooled_count (p.keeper, p.boards) };

    ghost ready = { λ _. Unit {0} };

    ghost starts = { λ p number job result q.
        StartsBy pooled_at pooled_count (p.keeper, p.boards) number job result
        (q.keeper, q.boards) × PutsStarted p.queue number job result q.queue };

    ghost looks = { λ p number progress q.
        TellsBy pooled_at pooled_count (p.keeper, p.boards) number progress
        (q.keeper, q.boards) };

    ghost takes = { λ p result q.
        TakesBy pooled_at pooled_count (p.keeper, p.boards) result (q.keeper, q.boards)
        × TakesEnded (IsPooled (p.keeper, p.boards)) p.ended result q.ended };

    fn start(&mut self, alloc: Global, number: u64, job: Job) -> Result<(), u8> {
        if !self.has_workers {
            return Err(81);
        }
        take_number(&mut self.nexts, number)?;
        let Ok((board, post, reader)) = job.board(alloc, number) else {
            return Err(99);
        };
        let Ok(()) = note(&mut self.boards, number, SeenBoard::new(board, reader)) else {
            return Err(99);
        };
        let register = self.register;
        let seat = register.enter(&mut self.keeper, number, &job);
        let queued = QueuedJob {
            alloc,
            number,
            connection: self.log.serving(),
            since: self.log.moment(self.rt),
            job,
            post,
            seat,
        };
        match self.queue.put_now(self.rt, queued) {
            Ok(()) => {
                self.log.raise(Counter::JobsTaken);
                Ok(())
            }
            Err(_) => {
                forget(&mut self.boards, number);
                Err(81)
            }
        }
    }

    #[tactic(auto, unfolding(crate::specs::Holds::looks_by))]
    fn look(&mut self, number: u64) -> Progress {
        match look_at(&mut self.boards, number) {
            Some(told) => told,
            None => Progress {
                spent: 0,
                returned: 0,
                complete: false,
            },
        }
    }

    fn take(&mut self) -> Option<(u64, Result<Report, u8>)> {
        let ended = self.ended.take_now(self.rt)?;
        let (number, end, seat) = ended.into_parts();
        let register = self.register;
        register.find(&mut self.keeper, seat);
        if !self.boards.contains_key(&number) {
            return None;
        }
        forget(&mut self.boards, number);
        Some((number, end))
    }
}

impl<R: Wait + Clock, J: RegisterId> CountedRunner for LastingPool<'_, R, J> {
    fn count(&self) -> u64 {
        self.boards.len() as u64
    }
}
