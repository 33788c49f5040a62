//! The names of a server's jobs.

/// A job's desk, and its number there. The first job of a desk has number 1.
#[derive(Clone, Copy, Debug, PartialEq, Eq)]
pub struct JobId {
    pub desk: u16,
    pub number: u64,
}
