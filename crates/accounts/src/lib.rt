//! Tenants' accounts: the credit that they were granted, and the jobs that they gave it to.
#![tactic(auto)]

// what is kept
mod job_list;
mod jobs;
mod keep_limits;
mod kept_accounts;
mod kept_jobs;
mod kept_report;
mod listing;
mod tenants;

pub use jobs::{JobEntry, JobStanding};
pub use keep_limits::KeepLimits;
pub use kept_accounts::KeptAccount;
pub use kept_report::{KeptReport, SharedReport};
pub use listing::{ListedJob, ListedState};
pub use tenants::Account;

// what is asked of it
mod desk;
mod fault;
mod restoring;

pub use desk::Desk;
pub use fault::{DeskFault, RestoreFault, SubmitFault};
