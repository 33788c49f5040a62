//! BPF instructions from text.
#![tactic(auto)]

mod assembling;
mod cut;
mod fault;
mod form;
mod law;
mod line;
mod number;
mod pair;
mod quoting;
mod reading;
mod row;
mod source;
mod word;

pub use assembling::assemble;
pub use cut::split_before;
pub use fault::TextFault;
pub use law::{nothing_refused, one_program, one_refusal, read_back};
pub use quoting::line_with_number;
pub use source::stripped_line;
