//! A pool of workers that run the tasks of one job.
#![tactic(auto)]

// one task, without a thread
mod gate;
mod gate_calls;
mod outcome;
mod work;

pub use gate::{Gate, OpenGate};
pub use outcome::unrun;
pub use work::{entry_in, work_one};

// what lies under the job's lock
mod fault;
mod locked_book;
mod seated;

pub use fault::{NotWhole, PoolFault};
pub use locked_book::SpawnRefused;

// the threads
mod bell;
mod held_lock;
mod pool;
mod run;
mod watch;
mod worker;

pub use run::{run_job, run_whole};

// the deque of one worker, for whoever runs tasks in threads of their own
mod ticket_lane;

pub use lanes::{Pass, lane};
pub use ticket_lane::{Lane, Owning, Stealing, Stolen, Thief};
