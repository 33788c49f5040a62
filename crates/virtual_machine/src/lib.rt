//! Machines that run one verified program: `Vm`, which asks the host's functions, and the run of a
//! job's task by itself, whose caller answers its spawns. And the frames that tasks run on, in an
//! arena that is reset between jobs.
#![tactic(auto)]

// a single program
mod alone;
mod executed;
mod functions;
mod register_fault;
mod registered;
mod vm;
mod vm_fault;

pub use alone::run_alone;
pub use executed::Executed;
pub use functions::Functions;
pub use register_fault::RegisterFault;
pub use registered::Function;
pub use vm::Vm;
pub use vm_fault::VmFault;

// a task of a job
mod arena;
mod frames;
mod observing;
mod running;

pub use arena::Arena;
pub use frames::{ArenaFrames, Frames};
pub use observing::{Nobody, RunObserver};
pub use running::{RunEnd, run_to_end};
