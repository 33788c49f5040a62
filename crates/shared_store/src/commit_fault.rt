//! The reasons why nothing is committed.

ghost use Rattle.std.specs.Prelude.{◌≡◌};

use crate::history::{HistoryFront, HistoryName};
use sqlite_trees::error::StoreError;

/// The reason why a commit failed. From then on none is made.
#[derive(Drop)]
pub enum CommitFault<J: HistoryName> {
    /// The store failed.
    Store(StoreError),
    /// The queue is of another store: these two of the history aren't as long.
    OtherQueue(HistoryFront<J>, HistoryFront<J>),
}

impl<J: HistoryName> CommitFault<J> {
    /// A copy.
    pub fn again(&self) -> CommitFault<J>
        ensures { result ≡ self.now }
    {
        match self {
            CommitFault::Store(error) => CommitFault::Store(*error),
            CommitFault::OtherQueue(one, other) => {
                CommitFault::OtherQueue(one.again(), other.again())
            }
        }
    }
}
