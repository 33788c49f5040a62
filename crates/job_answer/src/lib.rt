//! The one answer of a job, from what its register says of tasks that are all over.
#![tactic(auto)]

mod laws;

pub use laws::{
    closes_to_answer, credit_is_kept, gathers, registers_agree, seats_know_children,
    spawn_trees_answer, spawn_trees_come,
};
