//! A server's counts at a look, as it tells them.

/// The connections that a server has taken, and those of them that are open.
#[derive(Clone, Copy, Debug, PartialEq, Eq)]
pub struct ConnectionTotals {
    pub opened: u64,
    pub taken: u64,
}

/// The jobs that a server has taken: those that failed, those that aren't over, those that came to
/// a report, all, and those that wait for a worker.
#[derive(Clone, Copy, Debug, PartialEq, Eq)]
pub struct JobTotals {
    pub failed: u64,
    pub opened: u64,
    pub over: u64,
    pub taken: u64,
    pub waiting: u64,
}

/// How many refusals had a number.
#[derive(Clone, Copy, Debug, PartialEq, Eq)]
pub struct RefusalCount {
    pub code: u64,
    pub count: u64,
}

/// All that a server counts since it began, so many seconds ago. Two starts of a server differ in
/// their instance.
#[derive(Drop, Debug)]
pub struct ServerTotals {
    pub connections: ConnectionTotals,
    pub instance: u64,
    pub jobs: JobTotals,
    pub lines_lost: u64,
    pub refusals: Vec<RefusalCount>,
    pub seconds: u64,
}
