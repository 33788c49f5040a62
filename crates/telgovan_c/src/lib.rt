//! The library as C sees it: verdicts, texts, runs and jobs over the caller's memory, and
//! programs, jobs under way and desks that C holds between calls. No thread and no lock is in it,
//! nothing else is kept between calls, and nothing is touched but what a call lends.
//!
//! `include/telgovan.h` declares what is exported here. Each answer has a status: 0, or the number
//! of the refusal.
#![tactic(auto)]

mod admitting;
mod box_held;
mod boxed;
mod desk_handle;
mod desk_held;
mod desks;
mod explains;
mod finishing;
mod graphs;
mod helper_fault;
mod hosted;
mod job_traces;
mod jobs;
mod parts;
mod program_handle;
mod programs;
mod runs;
mod statuses;
mod task_handle;
mod tasks;
mod texts;
mod traces;
mod verdicts;
mod version;
mod world_handle;
mod world_held;
mod worlds;

pub use desk_handle::DeskHandle;
pub use desks::{
    HandedJob, SentReplies, telgovan_desk_connect, telgovan_desk_disconnect, telgovan_desk_feed,
    telgovan_desk_free, telgovan_desk_new, telgovan_desk_next_job, telgovan_desk_replies,
};
pub use explains::telgovan_explain;
pub use finishing::telgovan_desk_finish;
pub use graphs::telgovan_graph;
pub use hosted::telgovan_program_load_with;
pub use job_traces::telgovan_job_trace;
pub use jobs::{CodePiece, JobReport, ReportedTask, telgovan_job};
pub use program_handle::ProgramHandle;
pub use programs::{
    telgovan_program_burst, telgovan_program_cost, telgovan_program_load, telgovan_program_run,
    telgovan_program_share, telgovan_program_unload,
};
pub use runs::{Run, RunOutcome, telgovan_burst, telgovan_run};
pub use statuses::{telgovan_status_help, telgovan_status_words};
pub use task_handle::TaskHandle;
pub use tasks::{TaskEvent, telgovan_task_drop, telgovan_task_go, telgovan_task_start};
pub use texts::{Written, telgovan_assemble, telgovan_disassemble};
pub use traces::telgovan_trace;
pub use verdicts::{Verdict, telgovan_verify};
pub use version::telgovan_version;
pub use world_handle::WorldHandle;
pub use worlds::{
    WorldStep, telgovan_world_buffer, telgovan_world_drop, telgovan_world_open, telgovan_world_run,
};
