//! The state of a server, what it answers, and the laws of its histories.
#![tactic(auto)]

mod access;
mod change;
mod job_ends;
mod job_id;
mod jobs;
mod laws;
mod result_laws;

pub use access::Access;
pub use change::{ChangeSink, DeskChange};
pub use job_ends::JobEnds;
pub use job_id::JobId;
pub use jobs::{JobRunner, RefusedStart};
pub use laws::{each_tenant_is_alone, one_key_one_job, others_are_not_told};
pub use result_laws::{numbers_rise, open_jobs_are_held, results_come_from_submits, results_stay};
