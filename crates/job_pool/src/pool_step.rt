//! The steps of a pool's history.

use job_core::Job;
use seat_log::Logged;
use server_state::JobId;
use std::marker::Model;
use std::snapshot::Snapshot;

/// A job that a pool was given: the ticket of its start, its name, and the job as contracts see it.
#[derive(Drop)]
pub struct PoolMark {
    pub(crate) ticket: u64,
    pub(crate) id: JobId,
    pub(crate) job: Snapshot<Job>,
}

impl Model for PoolMark {
    ghost use Rattle.job_pool.specs.PooledJobs.{PooledJob};

    ghost Value = { PooledJob };

    ghost view = { λ m. record { ticket = m.ticket; id = m.id; job = m.job.value } };
}

/// A step of a pool's history.
///
/// A job is started under the next ticket, put into the queue, taken out of a flow by a worker, ended
/// by it, and collected.
#[derive(Drop)]
pub enum PoolStep {
    Started(PoolMark),
    Put(PoolMark),
    Taken(u64, PoolMark),
    Ended(PoolMark),
    Collected(PoolMark),
}

impl Logged<PoolStep> for PoolStep {
    ghost entry = { λ step. step };
}

impl PoolMark {
    ghost use Rattle.std.specs.Prelude.{◌≡◌};

    /// The mark of a job.
    pub(crate) fn of(ticket: u64, id: JobId, job: &Job) -> PoolMark
        ensures { result ≡ record { ticket = ticket; id = id; job = job.now } }
    {
        PoolMark {
            ticket,
            id,
            job: Snapshot::of(job),
        }
    }
}
