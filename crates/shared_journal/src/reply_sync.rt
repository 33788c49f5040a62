//! The moment at which a reply's records are made durable.

/// The moment at which the records that a reply rests on are made durable.
#[derive(Clone, Copy, Debug, PartialEq, Eq)]
pub enum ReplySync {
    /// Before the reply goes out: each of its journals is committed.
    Always,
    /// Later, by commits at intervals. The reply goes out unless one of its journals has failed.
    Interval,
}
