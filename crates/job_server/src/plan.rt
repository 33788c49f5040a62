//! A server's plan: its workers and connections, its host's bounds, its tenants, its flag, its log
//! and its journals.

use crate::bounds::Bounds;
use crate::tenant_door::TenantDoor;
use server_log::{ServerLog, StopFlag};
use shared_journal::{ReplySync, SharedJournal};

/// A server's plan.
#[derive(Clone, Copy)]
pub struct Plan<'a> {
    /// Where it listens, in words, of which its host is told once it takes connections.
    pub place: &'a str,
    /// Workers, 1 to 16, which last. A job of more than 1,000,000 credit runs on as many threads of
    /// its own.
    pub workers: u32,
    /// Connections in all; `u64::MAX`: any number. A try to take one that fails is none.
    pub sessions: u64,
    /// What its host bounds.
    pub bounds: Bounds,
    /// The tenants with a socket of their own, at most 256, in the order of their numbers. Each has a
    /// desk of its own. None: all have one desk.
    pub tenants: &'a [TenantDoor],
    /// No further connection is taken once this is raised. Each that was taken is over once all that
    /// was read of it is answered.
    pub stop: Option<&'a StopFlag>,
    /// The log that is told of each connection, job, grant and refusal, and counts them. Nothing waits
    /// for it.
    pub log: &'a ServerLog,
    /// The journals of its desks' changes: none, or one for each desk, first that of everybody else,
    /// and behind it one for each tenant, in order. A reply goes out once the journals were committed
    /// of the desks that it may tell of: all, or the one behind a door that may not grant. Once one
    /// has failed no reply goes out that it was to be committed for, and the server ends.
    pub journals: &'a [SharedJournal],
    /// The moment of these commits: ahead of each reply, or at intervals, by the host. Then a reply
    /// goes out unless one of the journals has failed that it rests on.
    pub sync: ReplySync,
}
