//! The pool of workers that runs the jobs of all desks of a server.
#![tactic(auto)]

// the queue of jobs, whose flows have their turns
mod fair_laws;
mod fair_queue;

pub use fair_laws::{each_flow_has_its_turn, flows_keep_their_order};
pub use fair_queue::{FairQueue, FlowItems};

// one job: it waits, it is run, and it is over
mod job_watch;
mod pool_queue;
mod pool_step;
mod pooled_run;

pub use job_watch::{JobOrigin, JobWatch};
pub use pool_step::{PoolMark, PoolStep};
pub use pooled_run::{FinishedRun, PooledEnd, PooledRun};

// the queue between threads
mod pool_ends;
mod pool_threads;

pub use pool_ends::{PoolPort, PoolSignal, PoolWorker, open_pool};
pub use pool_threads::start_workers;

// the jobs that are held, within limits
mod job_table;
mod open_job;
mod pool_laws;
mod server_pool;

pub use job_table::PoolLimits;
pub use open_job::OpenRun;
pub use pool_laws::{desks_with_room_are_served, limits_hold, taken_jobs_were_started};
pub use server_pool::JobPool;
