//! A stream of frames between any source and any sink, and how its requests are answered.
#![tactic(auto)]

// the ends of a stream
mod source_and_sink;
mod tap;

pub use source_and_sink::{Failed, Sink, Source, write_all};
pub use tap::Tap;

// the frames of one, each answered
mod batch;
mod fault;
mod frame_handler;
mod handler;
mod reply_sink;
mod serve;

pub use fault::StreamFault;
pub use frame_handler::{FrameHandler, hear_payload};
pub use handler::{Handler, TellingHandler};
pub use reply_sink::ReplySink;
pub use serve::serve_stream;

// the answers of a desk and a runner
mod admitted_submit;
mod answers;
mod finished;
mod forms;
mod pending_reply;
mod prepared_request;
mod runner;
mod submit_refusal;

pub use admitted_submit::{AdmittedSubmit, SubmitParts};
pub use finished::pass_finished;
pub use forms::{
    account_reply, answer_account, answer_result, answer_status, answer_taken, refused,
};
pub use pending_reply::{PendingReply, written_frame};
pub use prepared_request::{PreparedRequest, covers_credit, prepare, wants_admission};
pub use runner::Runner;
pub use submit_refusal::SubmitRefusal;

// what a note of a desk's records covers
mod noted;

pub use noted::Noted;

// what went through an end of a stream, in proofs alone
mod transcript;

pub use transcript::Transcript;

// a runner that plays each job at its start
mod inline_runner;
mod inline_serving;

pub use inline_runner::InlineRunner;
pub use inline_serving::serve_inline;
