//! One step of a job, and what it led to.

use crate::step::Step;

/// A child, as its spawn starts it.
#[derive(Clone, Copy, Debug, PartialEq, Eq)]
pub struct Born {
    pub number: usize,
    pub program: u64,
    pub share: u32,
    pub arg: u64,
    /// How many bytes it gets: the last ones of its parent's.
    pub size: usize,
}

/// What a step led to.
#[derive(Clone, Copy, Debug, PartialEq, Eq)]
pub enum Came {
    /// The task goes on.
    Continued,
    /// The task ended with R0.
    Ended(u64),
    /// The task goes on beside a child.
    Spawned(Born),
}

/// A step of a job.
#[derive(Drop)]
pub struct JobStep {
    /// The number of the task that it is a step of.
    pub task: usize,
    pub step: Step,
    pub came: Came,
}
