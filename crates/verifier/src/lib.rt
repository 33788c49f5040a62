//! Programs that were verified: no task that runs one traps.
#![tactic(auto)]

mod held;
mod in_state;
mod laws;
mod refusals;
mod regions;
mod sources;
mod states;
mod verification;
mod verified;

pub use instruction_rules::{AbsState, Rule};
pub use laws::{in_states_are_joined, in_states_are_unique, nothing_refused, one_refusal};
pub use refusals::Refusal;
pub use verification::verify;
pub use verified::Verified;
