//! The handler of a server: what it answers, and the changes that it makes.
#![tactic(auto)]

// the changes of one desk
mod made_changes;
mod recorded_answers;
mod recorded_ends;
mod recorded_submit;

// one desk among others
mod desk_jobs;
mod desk_query;
mod key_table;
mod no_store;
mod own_names;
mod routing;
mod served_desk;
mod server;
mod shared_server;

pub use desk_jobs::DeskJobs;
pub use desk_query::DeskQuery;
pub use no_store::NoStore;
pub use served_desk::{DeskReply, ServedDesk};
pub use server::{Server, WaitingJob};
pub use shared_server::{ServerHandler, access_of};
