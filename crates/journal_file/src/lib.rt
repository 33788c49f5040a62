//! A journal's log in a file, and a snapshot's file in the place of a journal's.
//!
//! No contract says what a file keeps: a sync is trusted to reach the disk.
#![tactic(auto)]

mod file_log;
mod file_pair;
mod ghost_bytes;
mod ghost_steps;
mod replacing;
mod shortening;

pub use file_log::FileLog;
pub use file_pair::{FilePair, JournalPaths};
pub use ghost_bytes::GhostBytes;
pub use ghost_steps::GhostSteps;
pub use replacing::{open_beside, replace_beside, take_place};
pub use shortening::{KeptBy, Shortened, folder_of, shorten};
