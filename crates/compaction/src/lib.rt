//! Compaction: a snapshot of the state takes the place of the journal that led to it.
//!
//! The snapshot is written beside the journal, synced, renamed over it, and the folder is synced.
//! A crash at any moment leaves the old journal or the new one, and both lead to states that nobody
//! can tell apart.
#![tactic(auto)]

// two files
mod files;
mod replacement;

pub use files::JournalFiles;
pub use replacement::{ReplaceFault, replace_journal};

// a snapshot in place of a history
mod snapshot;

pub use snapshot::{
    CompactFault, Snapshot, SnapshotFault, compact, put_snapshot, resume_compacted, snapshot_bytes,
};

mod laws;

pub use laws::{
    compaction_keeps_state, compactions_compose, equal_states_keep_history,
    later_changes_stand_too, snapshot_stands_for_history, standing_bytes_are_read,
    standing_bytes_keep_state,
};
