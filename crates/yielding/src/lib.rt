//! A task whose run stops where it asks its host, and goes on with the answer.
//!
//! A piece of the run ends with the task, ahead of a call of a helper of the host's, or after so
//! many instructions. Between two pieces the host may do what it likes, and for as long.
#![tactic(auto)]

mod answer;
mod event;
mod go_fault;
mod phase;
mod pieces;
mod run;
mod stops;
mod task;

pub use event::{PieceEnd, Question};
pub use go_fault::GoFault;
pub use phase::Phase;
pub use run::run_with_answers;
pub use task::HostedTask;
