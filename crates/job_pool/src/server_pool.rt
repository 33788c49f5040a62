//! The pool that runs a server's jobs: its table, its limits, and the port of its queue.

ghost use Rattle.std.specs.Prelude.{◌≡◌, ◌+◌, Bool, true, false, None, Err, length};
ghost use Rattle.std.proofs.Props.{props};
ghost use Rattle.job_pool.specs.Holdings.{HasRoom, IsFreshTable, KeepsLimits, held_job_at};
ghost use Rattle.job_pool.specs.PoolSteps.{job_started, over_steps};

use crate::job_table::{JobTable, PoolLimits};
use crate::job_watch::JobWatch;
use crate::open_job::OpenRun;
use crate::pool_ends::PoolPort;
use crate::pool_step::PoolMark;
use crate::pooled_run::{NO_MEMORY, PooledEnd, PooledRun, room_of};
use credit_book::{Progress, Report};
use job_core::Job;
use refusal::NoMemory;
use seat_log::LogName;
use server_state::{JobEnds, JobId, JobRunner, RefusedStart};
use std::alloc::Global;
use std::sync::Wait;

/// The number of the refusal of a start where there is no room, no worker, or no free name.
const TOO_MANY: u8 = 81;

/// Runs the jobs of all desks by workers that last, within its limits.
///
/// A started job waits in the queue until a worker is free. That one ever is, or a job ever finished,
/// is not claimed. A job that waits when the pool is closed stays open and is not run.
#[derive(Drop)]
pub struct JobPool<'a, R, W, J: LogName> {
    rt: &'a R,
    watch: &'a W,
    port: PoolPort<J>,
    table: JobTable<J>,
    limits: PoolLimits,
    tickets: u64,
    has_workers: bool,
    ghost ticketed: { tickets ≡ length (over_steps job_started port.part) },
    ghost within: { KeepsLimits limits table.desks.items } by { Prim.hlevel props },
}

impl<'a, R, W, J: LogName> JobPool<'a, R, W, J> {
    ghost use Rattle.std.specs.Prelude.{◌≡◌, IfOk};
    ghost use Rattle.job_pool.specs.Holdings.{IsFreshTable};
    ghost use Rattle.job_pool.specs.SeatSteps.{no_steps};

    /// A pool that holds no job, with a desk for each limit of one. Without workers it refuses each
    /// start.
    pub fn new(
        rt: &'a R,
        alloc: Global,
        watch: &'a W,
        port: PoolPort<J>,
        limits: PoolLimits,
        has_workers: bool,
    ) -> Result<JobPool<'a, R, W, J>, NoMemory>
        requires { port ≡ no_steps 0 }
        ensures { IfOk result (λ pool. IsFreshTable pool.table.desks.items
            × (length pool.table.desks.items ≡ length limits.each)
            × (pool.limits ≡ limits) × (pool.has_workers ≡ has_workers)) }
    {
        let table = JobTable::new(alloc, limits.desks())?;
        Ok(JobPool {
            rt,
            watch,
            port,
            table,
            limits,
            tickets: 0,
            has_workers,
        })
    }
}

// True if a job of this name may be started now.
fn may_start<J: LogName>(
    has_workers: bool,
    limits: &PoolLimits,
    table: &JobTable<J>,
    id: JobId,
) -> bool
    ensures yes { result ≡ true → HasRoom limits.now table.now.desks.items id.desk
        × (has_workers ≡ true) × (held_job_at table.now.desks.items id ≡ None) }
    ensures no { result ≡ false → (HasRoom limits.now table.now.desks.items id.desk
        × (has_workers ≡ true) × (held_job_at table.now.desks.items id ≡ None)) → ⊥ }
{
    if !has_workers {
        return false;
    }
    if !table.has_room(limits, id.desk) {
        return false;
    }
    table.ticket_of(id).is_none()
}

// A refusal for want of memory, with the job.
fn no_memory(job: Job) -> Result<(), RefusedStart>
    ensures { result ≡ Err (record { code = 99; job = job }) }
{
    Err(RefusedStart {
        code: NO_MEMORY,
        job,
    })
}

impl<R: Wait, W: JobWatch<R>, J: LogName> JobRunner for JobPool<'_, R, W, J> {
    ghost use Rattle.job_pool.specs.Holdings.{IsHeldJob, StartsJob, TakesHeldJob, held_job_at, looks_under, open_in};
    ghost use Rattle.job_pool.specs.SeatSteps.{CollectsJob, PutsJob};
    ghost use Rattle.std.specs.Prelude.{◌≡◌};

    ghost held = { λ p. open_in p.table.desks.items };

    ghost ready = { λ _. Unit {0} };

    ghost starts = { λ p id job result q.
        StartsJob p.limits p.has_workers p.tickets p.table.desks.items id job result q.table.desks.items
        × PutsJob p.tickets p.port id job result q.port
        × (q.limits ≡ p.limits) × (q.has_workers ≡ p.has_workers) };

    ghost looks = { λ p id told q.
        looks_under p.table.desks.items id (held_job_at p.table.desks.items id) told q.table.desks.items
        × (q.port ≡ p.port) × (q.limits ≡ p.limits) × (q.has_workers ≡ p.has_workers) };

    ghost takes = { λ p result q.
        TakesHeldJob p.table.desks.items result q.table.desks.items
        × CollectsJob (IsHeldJob p.table.desks.items) p.port result q.port
        × (q.limits ≡ p.limits) × (q.has_workers ≡ p.has_workers) };

    fn start(&mut self, alloc: Global, id: JobId, job: Job) -> Result<(), RefusedStart> {
        if !may_start(self.has_workers, &self.limits, &self.table, id) {
            return Err(RefusedStart {
                code: TOO_MANY,
                job,
            });
        }
        let ticket = self.tickets;
        let Some(tickets) = ticket.checked_add(1) else {
            return no_memory(job);
        };
        let Ok((board, post, reader)) = job.board(alloc, id.number) else {
            return no_memory(job);
        };
        self.port.enter(self.rt, PoolMark::of(ticket, id, &job));
        self.tickets = tickets;
        let end = PooledEnd::new(ticket, id, &job, self.port.note());
        let Ok(room) = room_of(alloc, end) else {
            return no_memory(job);
        };
        let open_job = OpenRun::new(ticket, id, &job, self.port.note(), board, reader);
        let Ok(()) = self.table.hold(id, open_job) else {
            return no_memory(job);
        };
        let origin = self.watch.queued(self.rt);
        let waiting = PooledRun {
            alloc,
            ticket,
            id,
            job,
            post,
            origin,
            room,
        };
        match self.port.put(self.rt, waiting) {
            Ok(()) => Ok(()),
            Err(back) => {
                self.table.release(id);
                no_memory(back.into_job())
            }
        }
    }

    #[tactic(auto, unfolding(crate::specs::Holdings::looks_under))]
    fn look(&mut self, id: JobId) -> Progress {
        match self.table.look(id) {
            Some(told) => told,
            None => Progress {
                spent: 0,
                returned: 0,
                complete: false,
            },
        }
    }

    fn take(&mut self) -> Option<(JobId, Result<Report, u8>)> {
        let (ticket, id, end) = self.port.collect(self.rt)?;
        let Some(held) = self.table.ticket_of(id) else {
            return None;
        };
        if held != ticket {
            return None;
        }
        let given = self.table.release(id);
        self.port.read(given.into_note());
        Some((id, end))
    }
}

impl<R: Wait, W: JobWatch<R>, J: LogName> JobEnds for JobPool<'_, R, W, J> {
    ghost use Rattle.job_pool.specs.Holdings.{IsStartRefusal, job_held};
    ghost use Rattle.job_pool.specs.PooledJobs.{IsJobEnd};
    ghost use Rattle.job_pool.specs.HeldLemmas.{end_is_whole, held_looked, held_refused, held_started, held_still, held_taken};

    ghost at = { λ p. job_held p.table.desks.items };

    ghost ends = { IsJobEnd };

    ghost refuses = { IsStartRefusal };

    ghost runs = { record {
      started = λ p id job done q step. held_started p.table.desks.items q.table.desks.items
          p.limits p.has_workers p.tickets id job done step.0;
      refused = λ p id job code q step. held_refused p.table.desks.items q.table.desks.items
          p.limits p.has_workers p.tickets id job code step.0;
      looked = λ p id told q step. held_looked p.table.desks.items q.table.desks.items id told
          step.0;
      taken = λ p id outcome q step. held_taken p.table.desks.items q.table.desks.items id outcome
          step.0;
      none = λ p q step. held_still p.table.desks.items q.table.desks.items step.0;
      whole = end_is_whole;
    } };
}
