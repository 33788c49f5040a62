//! The steps of one program's run, and of a job's, as the definitions have them: the instruction of
//! each, and what it changed; and drawings of a program's graph and of a job's tree of tasks.
#![tactic(auto)]

// a step, and what it changed
mod changes;
mod step;

pub use step::{ChangedBytes, RegisterChange, Step};

// the steps of a run
mod tracing;

pub use tracing::{Trace, trace_run};

// the steps of a job
mod job_programs;
mod job_step;
mod job_tracing;

pub use job_programs::{JobPrograms, Listed};
pub use job_step::{Born, Came, JobStep};
pub use job_tracing::trace_job;

// the tree of a job's tasks
mod tree;
mod tree_drawing;

pub use tree::{Tree, parent_of, tree_of};
pub use tree_drawing::TreeDrawing;

// a step as text
mod job_telling;
mod json;
mod telling;

pub use job_telling::JobJson;
pub use json::Json;

// a picture of a program, drawn
mod drawing;

pub use drawing::Drawing;
