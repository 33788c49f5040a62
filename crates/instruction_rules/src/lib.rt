//! What a verifier knows of the registers ahead of one instruction, what the instruction has to
//! find known, and what is known after it along each of its edges.
#![tactic(auto)]

mod allowed;
mod calls;
mod rule;
mod state;
mod transfers;

pub use allowed::judge;
pub use rule::Rule;
pub use state::AbsState;
pub use transfers::transfer;
