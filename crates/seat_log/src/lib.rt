//! A log of what several threads do, which exists in proofs alone: each seat knows its own entries.
#![tactic(auto)]

mod log_view;
mod shared_log;

pub use log_view::{LogName, LogView, Logged, OneLog, SeatEntry};
pub use shared_log::{LogKeeper, LogNote, LogOpener, LogSeat, NewLog, SharedLog};
