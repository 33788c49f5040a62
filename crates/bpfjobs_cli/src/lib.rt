//! The command line of `bpfjobs`, and its commands that have an answer: from the words and the bytes
//! of the input to the text of the answer and the status. And what is shown of a job beside its
//! answer: its steps along its schedule, and the tree of its tasks.
#![tactic(auto)]

mod ask;
mod asked_request;
mod asking;
mod commands;
mod desk_paths;
mod job_reading;
mod job_sources;
mod job_words;
mod journal_sync;
mod process;
mod program;
mod reading;
mod socket_path;
mod tenant_number;
mod tenant_socket;
mod tenant_text;
mod tenants;
mod texts;

pub use ask::{Ask, AskFault, ServerQuestion};
pub use asked_request::{ask_frame, ask_request, reply_status};
pub use commands::{
    Command, CommandRequest, Endpoint, EndpointFault, Serve, ServeOptions, Shown, Usage,
};
pub use desk_paths::journal_paths;
pub use job_sources::{JobSources, JobWordFault, ProgramSource};
pub use journal_sync::JournalSync;
pub use process::{FAILED, UNREAD, print_usage, words};
pub use reading::{command, request};
pub use tenant_socket::{TenantFault, TenantSettings, TenantSocket, TenantWords, WrongTenant};
pub use tenants::with_lines;

// what is printed
mod answer;

pub use answer::{Answer, answer_reply};

// programs, as text and in hexadecimal
mod code;
mod hexadecimal;

pub use code::{answer_assemble, answer_disassemble, answer_verify};
pub use hexadecimal::{Unread, read_hexadecimal};

// jobs, as JSON
mod declined;
mod job;
mod job_texts;
mod object_faults;
mod run;
mod run_watch;

pub use declined::{JobDeclined, read_job};
pub use job::answer_play;
pub use job_texts::job_text;
pub use object_faults::{ObjectFault, ObjectPart, object_fault};
pub use run::{answer_run, answer_watched};
pub use run_watch::RunWatch;

// whether a result is the one answer of its job
mod result_check;
mod task_summaries;

pub use result_check::{ResultDifference, ResultVerdict, check_result};
pub use task_summaries::{TaskSummary, UnsharedTask};

// what is shown of a job: the job that the input says, as the definitions have it, its steps and its
// tree, and these as text
mod requested_job;
mod view_texts;
mod views;

pub use requested_job::{RequestedJob, read_requested_job};
pub use view_texts::{step_lines, step_objects, tree_text};
pub use views::{steps_of, tree_in};

// from a source to a sink
mod ends;

pub use ends::{Performed, perform, perform_alone, read_all, tell};
