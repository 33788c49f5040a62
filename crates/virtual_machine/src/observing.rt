//! An observer of a task's run.

/// Is called each time that a task has run for a while. An observer that runs in between changes
/// neither the task nor whom it asks.
pub trait RunObserver {
    /// A stretch of the task has ended: with a call of a helper, past 256 instructions, or with the
    /// task.
    fn pause(&self);
}

/// No observer.
#[derive(Clone, Copy, Debug, PartialEq, Eq)]
pub struct Nobody;

impl RunObserver for Nobody {
    fn pause(&self) {}
}
