//! Which task was started with what, and by whom, in proofs alone.
#![tactic(auto)]

mod register;
mod seats;

pub use register::{NewTaskRegister, TaskRegister, TaskSeat};
pub use seats::{JobId, RegisterState, SeatedTask, TaskResult, TaskStart, TaskView};
