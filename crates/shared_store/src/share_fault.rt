//! The reasons why a thread isn't told that its change is committed.

use crate::change_queue::AddFault;
use crate::commit_fault::CommitFault;
use crate::history::{HistoryFront, HistoryName};

/// The reason why a thread isn't told that its change is committed.
#[derive(Drop)]
pub enum ShareFault<J: HistoryName> {
    /// It wasn't added.
    Add(AddFault<J>),
    /// It wasn't committed.
    Commit(CommitFault<J>),
    /// The first of these was told, and the second one, which is shorter, is committed.
    Lost(HistoryFront<J>, HistoryFront<J>),
}
