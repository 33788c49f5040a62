//! What a server hears and says: frames cut from a stream, the requests in them, and the replies.
#![tactic(auto)]

// a stream in pieces
mod fault;
mod law;
mod session;

pub use fault::SessionFault;
pub use law::{frames_of_all_pieces, frames_of_bytes, named_requests};
pub use session::Session;

// what its frames ask
mod door_forms;
mod door_request;
mod hexadecimal;
mod job_key;
mod keyed_jobs;
mod member;
mod request;
mod tenant_key;

pub use door_forms::{DoorForm, DoorForms};
pub use door_request::{DoorRequest, read_at_door};
pub use job_key::{JobKey, KeyedJob};
pub use keyed_jobs::{KeyedJobs, MOST_KEYS};
pub use request::{JobObject, Request, job_object, read_request_by};
pub use tenant_key::TenantKey;

// what is answered
mod job_list;
mod reply;
mod result;
mod result_reader;
mod server_reply;
mod server_totals;

pub use reply::{Reply, reply_frame, reply_text};
pub use result_reader::{ResultObject, ResultTask, result_object};
pub use server_totals::{ConnectionTotals, JobTotals, RefusalCount, ServerTotals};

// the accounts that requests speak of
pub use accounts::{Account, Desk, DeskFault, ListedJob, ListedState, SubmitFault};
