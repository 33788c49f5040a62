//! One program tried: how its file is read, whether it is accepted, and what its run by itself
//! comes to; with the command line of `bpfrun`.
#![tactic(auto)]

// the program's bytes, and their run
mod fault;
mod form;
mod reading;
mod running;

pub use fault::RunFault;
pub use form::{FileForm, form_of};
pub use reading::bytes_of;
pub use running::run;

// the line that a refusal is about, and what it quotes
mod place;

pub use place::{place_of, quote_of};

// what is printed
mod answering;
mod helping;
mod noting;
mod telling;

pub use answering::{RunOptions, answer};

// the steps of the run
mod tracing;

pub use tracing::{step_lines, step_objects, trace};

// the program's graph
mod drawing;

pub use drawing::draw;

// the words of the command line
mod arguments;
mod program;
mod texts;
mod words;

pub use arguments::RunArguments;
pub use words::request;
