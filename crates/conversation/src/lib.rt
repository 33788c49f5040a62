//! A desk without a socket: conversations of bytes in and bytes out, and jobs that the host runs.
#![tactic(auto)]

// what one client says and is told
mod conversation;
mod ended;
mod frames;

pub use conversation::Conversation;
pub use ended::Ended;

// a desk whose jobs the host runs
mod clerk;
mod handed_jobs;
mod host_desk;
mod law;
mod object;

pub use clerk::Clerk;
pub use handed_jobs::HandedJobs;
pub use host_desk::{HostDesk, Sent};
pub use law::object_says_its_job;
