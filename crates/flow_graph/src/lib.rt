//! Where the instructions of a program lead: its edges, and the programs whose edges are refused.
#![tactic(auto)]

mod building;
mod checks;
mod components;
mod cycle;
mod fault;
mod forward;
mod graph;
mod laws;
mod onward;
mod ordering;
mod reach;
mod walk;

pub use building::build;
pub use fault::FlowFault;
pub use graph::{Graph, Next};
pub use laws::{
    edges_are_settled, falls_off, jumps_into, jumps_out, nothing_refused, one_refusal,
    orders_have_no_cycle,
};
pub use ordering::check_order;
