//! Why a piece of a task's run ended.

/// A call of a helper of the host's: its id and its five arguments, of which those past the ones
/// that it takes are 0.
#[derive(Clone, Copy, Debug, PartialEq, Eq)]
pub struct Question {
    pub helper: u32,
    pub arguments: [u64; 5],
}

/// Why a piece of a task's run ended.
#[derive(Clone, Copy, Debug, PartialEq, Eq)]
pub enum PieceEnd {
    /// As many instructions ran as may run in it.
    AtLimit,
    /// The task waits for the answer to a call.
    Asks(Question),
    /// The task has ended with R0.
    Ended(u64),
}
