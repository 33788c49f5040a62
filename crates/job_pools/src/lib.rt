//! Pools of threads that run a server's jobs: one thread a job, or workers that last.
#![tactic(auto)]

// one job: ahead of its thread, in it, and after it
mod ending;
mod job_request;
mod running;
mod starting;

pub use ending::{EndOf, JobThread};
pub use job_request::JobRequest;
pub use starting::start_thread;

// a thread for each job
mod held_jobs;
mod keys;
mod pool;

pub use pool::PoolRunner;

// a pool that lasts: which job was started under a number, its queues, and its workers
mod job_register;
mod job_seats;
mod lasting_pool;
mod lines;
mod pool_threads;
mod queued_job;
mod queues;
mod seen_board;

// the queue of jobs, whose lines have their turns: by itself, its history, and between threads
mod turn_ends;
mod turn_history;
mod turn_laws;
mod turn_queue;
mod turn_seats;

pub use job_register::{JobRegister, JobSeat, Keeper, NewRegister};
pub use job_seats::{JobView, RegisterId, StartedJob};
pub use lasting_pool::LastingPool;
pub use pool_threads::start_workers;
pub use queued_job::{EndedJob, QueuedJob};
pub use queues::{Inlet, KnowsItself, OfJob, Outlet, Traffic, queue_to_one};
pub use turn_ends::{NumberedJob, TurnCloser, TurnInlet, TurnOutlet, queue_in_turns};
pub use turn_history::NewQueueHistory;
pub use turn_laws::{each_flow_has_its_turn, flows_keep_their_order};
pub use turn_queue::{NotPut, TurnQueue, WaitingJobs};
pub use turn_seats::{QueueStep, TurnView};

// bounds on the jobs that are held: of all, and of each line of numbers
mod limited_runner;
mod line_counts;
mod line_laws;
mod line_limited_runner;
mod line_limits;

pub use limited_runner::{CountedRunner, LimitedRunner};
pub use line_counts::LineCounts;
pub use line_laws::{counts_are_held, lines_stay_within_limits};
pub use line_limited_runner::LineLimitedRunner;
pub use line_limits::LineLimits;
