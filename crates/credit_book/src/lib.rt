//! The credit of a job: a book of its tasks, which whoever runs the job keeps under a lock, and a
//! board on which any thread reads how far the job is, without waiting.
#![tactic(auto)]

// what may happen to the tasks of a job
mod event;
mod fault;
mod task;

pub use event::TaskEnd;
pub use fault::{BookFault, Refused, Unopened};
pub use task::{Outcome, Ticket};

// the board and its seats
mod board;
mod seats;

pub use board::{Board, Post, Progress, Reader};

// the book
mod book;
mod laws;
mod past;

pub use book::{Book, Report};
pub use laws::histories_add_up;
