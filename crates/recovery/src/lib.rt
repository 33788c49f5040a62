//! A state machine with its journal: changes are recorded, committed, and replayed after a crash.
//!
//! Recovery gives the state after the first changes of the history, in order, with each that was
//! committed.
#![tactic(auto)]

// what is journaled
mod state_machine;

pub use state_machine::{ApplyFault, ChangeFault, StateChange, StateMachine};

// recording
mod fault;
mod journaled;
mod writer;

pub use fault::{RecordFault, StopFault};
pub use journaled::Journaled;
pub use writer::{JournalWriter, record_bytes};

// recovery
mod opening;
mod replay;

pub use opening::{OpenFault, open_journal};
pub use replay::{RecoverFault, Recovered, recover, replay_records};

// what a crash leaves
mod laws;

pub use laws::{
    crash_between_keeps_committed, crash_keeps_committed, damage_keeps_committed, histories_go_on,
};
