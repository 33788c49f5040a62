//! The tenants, jobs and outcomes of a server as rows, and what each change makes of them.
#![tactic(auto)]

// the records
mod columns;
mod stored_desk;
mod stored_job;
mod stored_key;
mod stored_outcome;
mod stored_tenant;

pub use columns::row_id;
pub use stored_desk::StoredDesk;
pub use stored_job::StoredJob;
pub use stored_key::StoredKey;
pub use stored_outcome::{StoredOutcome, StoredReport, StoredResult};
pub use stored_tenant::StoredTenant;

// changes, and what the tables hold
mod changes;
mod laws;
mod loading;
mod stored_change;

pub use changes::{write_batch, write_change};
pub use laws::{loads_tell_the_changes, records_follow_rows, rows_tell_the_records};
pub use loading::{StoredRecords, load_records};
pub use stored_change::{ForgottenJobs, NotedKey, SettledJob, StoredChange, TakenJob};
