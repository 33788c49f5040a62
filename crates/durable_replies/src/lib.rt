//! Replies of a server that go out behind commits of the records that they rest on.
#![tactic(auto)]

mod durable_sink;
mod laws;
mod noted_commits;
mod serving;

pub use durable_sink::{DurableSink, notes_of};
pub use laws::told_is_durable;
pub use serving::serve_durably;
