//! Runs verified programs, one instruction at a time.
#![tactic(auto)]

mod access;
mod advance;
mod arithmetic;
mod credit;
mod frame;
mod helper_calls;
mod insn_outcome;
mod jumping;
mod position;
mod site;
mod spawning;
mod stretch;

pub use credit::Credit;
pub use frame::{ControlPoint, Frame, StepOut};
pub use stretch::{Pause, Ran, Stretch};
