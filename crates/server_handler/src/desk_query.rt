//! What a connection asks of desks.

use sessions::JobKey;
use streams::PreparedRequest;

/// A query that goes to a desk.
#[derive(Drop)]
pub enum DeskQuery {
    /// A request of the plain protocol, or the number of its refusal.
    Plain(PreparedRequest),
    /// A submit by a key; none where its member is no key.
    Keyed {
        key: Option<JobKey>,
        submit: PreparedRequest,
    },
    /// The jobs of the connection's own desk, from a number on.
    Jobs {
        from: u64,
    },
}
