//! A desk whose changes are recorded, in order, as it answers.
#![tactic(auto)]

// what takes the records
mod record_queue;
mod recorder;

pub use record_queue::RecordQueue;
pub use recorder::ChangeRecorder;

// the records of changes
mod change_records;

// the answers of a desk and a runner, each change recorded
mod recorded_answers;
mod recorded_ends;
mod recorded_submit;
mod recording_handler;
mod restarting;

pub use recorded_answers::{grant_recorded, keep_recorded, reply_recorded};
pub use recorded_ends::end_job;
pub use recording_handler::RecordingHandler;
pub use restarting::restart_jobs;

// what the records lead to
mod laws;

pub use laws::records_lead_to_desk;
