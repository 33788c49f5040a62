//! The reference: the definitions of `machine_model` as a plain, slow program, one function a
//! definition. What it is compared with shares the exact operators with it, and loads, stores and
//! fills of memory, but nothing else.
#![tactic(auto)]

// what it works on
mod records;
mod registers;

pub use records::{
    Child, Content, EndedTask, JobMember, LiveTask, ReferenceJob, ReferenceMove, ReferenceProgram,
    Running, StepOutcome, TrapCause, Unanswered,
};

// what one instruction does to one task
mod accesses;
mod calls;
mod computing;
mod effects;
mod helper_calls;
mod jumps;

pub use effects::effect;

// a program alone, a job over a schedule, and a job where each spawn is taken
mod alone;
mod evaluating;
mod runs;

pub use alone::{run_alone, start_alone};
pub use evaluating::{Evaluation, FinishedTask, evaluate};
pub use runs::{run, start, state_in, step};
