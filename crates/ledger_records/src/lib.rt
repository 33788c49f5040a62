//! The desks of a server and their records in a store: the same thing twice.
#![tactic(auto)]

// laws
mod laws;

pub use laws::{records_follow_desks, restored_desks_are_alike};

// a restart
mod restored_desk;
mod restored_desks;
mod restored_job;
mod restoring;

pub use restored_desk::{RestoredDesk, restore_desk};
pub use restored_desks::restore_desks;
pub use restored_job::RestoredJob;

// the rows of changes
mod taken_rows;
mod tenant_rows;
mod written_rows;

pub use taken_rows::taken_written;
pub use tenant_rows::TenantRows;
pub use written_rows::{outcome_written, programs_written};
