//! What a run of a program costs at most, from each of its slots.
#![tactic(auto)]

mod bound;
mod table;

pub use bound::costs;
pub use machine_model::price;
pub use table::Costs;
