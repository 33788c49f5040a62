//! The counters of a server, which its events raise, and what they come to at a look.

ghost use Rattle.std.specs.Prelude.{◌≡◌, ◌++◌, IfOk, OnOk};
ghost use Rattle.server_log.specs.Counting as counting;

use crate::log_line::LogEvent;
use refusal::NoMemory;
use sessions::{ConnectionTotals, JobTotals, RefusalCount};
use std::alloc::Global;
use std::sync::atomic::{AtomicU64, Ordering};

// The numbers that a refusal may have: 0 to 255.
const CODES: usize = 256;

/// What a server counts.
#[derive(Clone, Copy, Debug, PartialEq, Eq)]
pub enum Counter {
    /// Connections that were taken.
    ConnectionsTaken,
    /// Connections that are over.
    ConnectionsOver,
    /// Jobs that were taken, and so have a number.
    JobsTaken,
    /// Of these, jobs that no worker was handed.
    JobsUnstarted,
    /// Jobs that a worker has taken.
    JobsStarted,
    /// Jobs that came to a report.
    JobsOver,
    /// Jobs that failed.
    JobsFailed,
}

impl LogEvent {
    ghost use Rattle.std.specs.Prelude.{◌≡◌};
    ghost use Rattle.server_log.specs.Counting as counting;

    /// The counter that it raises by one, if it does.
    pub fn counter(&self) -> Option<Counter>
        ensures { result ≡ counting.counter_of self.now }
    {
        match self {
            LogEvent::Ready => None,
            LogEvent::Stopping => None,
            LogEvent::JournalFailed => None,
            LogEvent::Opened { .. } => Some(Counter::ConnectionsTaken),
            LogEvent::Closed { .. } => Some(Counter::ConnectionsOver),
            LogEvent::Started { .. } => Some(Counter::JobsStarted),
            LogEvent::Ended { .. } => Some(Counter::JobsOver),
            LogEvent::Failed { .. } => Some(Counter::JobsFailed),
            LogEvent::Refused { .. } => None,
            LogEvent::Granted { .. } => None,
            LogEvent::Note { .. } => None,
            LogEvent::Lost => None,
        }
    }

    /// The number of the refusal that it tells, if it tells one: of a request, of a job, or of a
    /// connection that was given up.
    pub fn refusal_code(&self) -> Option<u64>
        ensures { result ≡ counting.refusal_code self.now }
    {
        match self {
            LogEvent::Ready => None,
            LogEvent::Stopping => None,
            LogEvent::JournalFailed => None,
            LogEvent::Opened { .. } => None,
            LogEvent::Closed { end, .. } => given_up(end.code()),
            LogEvent::Started { .. } => None,
            LogEvent::Ended { .. } => None,
            LogEvent::Failed { code, .. } => Some(u64::from(*code)),
            LogEvent::Refused { code, .. } => Some(u64::from(*code)),
            LogEvent::Granted { .. } => None,
            LogEvent::Note { .. } => None,
            LogEvent::Lost => None,
        }
    }
}

// The number of a connection's refusal, of which 0 is none.
fn given_up(code: u8) -> Option<u64>
    ensures { result ≡ counting.given_up code }
{
    if code == 0 {
        None
    } else {
        Some(u64::from(code))
    }
}

/// The counters. Each is raised by itself, so a look at all of them is not of one moment.
#[derive(Drop)]
pub(crate) struct ServerCounts {
    connections_taken: AtomicU64,
    connections_over: AtomicU64,
    jobs_taken: AtomicU64,
    jobs_unstarted: AtomicU64,
    jobs_started: AtomicU64,
    jobs_over: AtomicU64,
    jobs_failed: AtomicU64,
    refusals: Vec<AtomicU64>,
}

/// The counters of jobs at a look.
#[derive(Clone, Copy)]
pub(crate) struct JobCounts {
    pub(crate) taken: u64,
    pub(crate) unstarted: u64,
    pub(crate) started: u64,
    pub(crate) over: u64,
    pub(crate) failed: u64,
}

impl JobCounts {
    ghost use Rattle.std.specs.Prelude.{◌≡◌};
    ghost use Rattle.server_log.specs.Counting as counting;

    /// What they come to.
    pub fn totals(self) -> JobTotals
        ensures { result ≡ counting.job_totals self }
    {
        JobTotals {
            failed: self.failed,
            opened: self
                .taken
                .saturating_sub(self.over)
                .saturating_sub(self.failed),
            over: self.over,
            taken: self.taken,
            waiting: self
                .taken
                .saturating_sub(self.unstarted)
                .saturating_sub(self.started),
        }
    }
}

/// What the counters of connections come to.
pub(crate) fn connection_totals(taken: u64, over: u64) -> ConnectionTotals
    ensures { result ≡ counting.connection_totals taken over }
{
    ConnectionTotals {
        opened: taken.saturating_sub(over),
        taken,
    }
}

// Adds how many refusals had a number, unless there was none.
fn push_count(found: &mut Vec<RefusalCount>, code: u64, count: u64) -> Result<(), NoMemory>
    ensures { OnOk result (found.new.items ≡ found.old.items ++ counting.told_count code count) }
{
    if count == 0 {
        return Ok(());
    }
    found.push(RefusalCount { code, count })?;
    Ok(())
}

/// How many refusals had each number, in order, without those that none had.
pub(crate) fn refusal_counts(alloc: Global, counts: &[u64]) -> Result<Vec<RefusalCount>, NoMemory>
    ensures { IfOk result (λ found. found.items ≡ counting.told_counts 0 counts.now) }
{
    let mut found = Vec::new(alloc);
    'codes: for code in 0..counts.len() {
        push_count(&mut found, code as u64, counts[code])?;
    }
    Ok(found)
}

impl ServerCounts {
    ghost use Rattle.std.specs.Prelude.{IfOk};
    ghost use Rattle.server_log.specs.Counting.{AreConnections, AreJobs, AreRefusals};

    /// All are 0.
    pub fn new(alloc: Global) -> Result<ServerCounts, NoMemory> {
        let mut refusals = Vec::new(alloc);
        for _ in 0..CODES {
            refusals.push(AtomicU64::new(0))?;
        }
        Ok(ServerCounts {
            connections_taken: AtomicU64::new(0),
            connections_over: AtomicU64::new(0),
            jobs_taken: AtomicU64::new(0),
            jobs_unstarted: AtomicU64::new(0),
            jobs_started: AtomicU64::new(0),
            jobs_over: AtomicU64::new(0),
            jobs_failed: AtomicU64::new(0),
            refusals,
        })
    }

    // The place of a counter.
    fn place(&self, counter: Counter) -> &AtomicU64 {
        match counter {
            Counter::ConnectionsTaken => &self.connections_taken,
            Counter::ConnectionsOver => &self.connections_over,
            Counter::JobsTaken => &self.jobs_taken,
            Counter::JobsUnstarted => &self.jobs_unstarted,
            Counter::JobsStarted => &self.jobs_started,
            Counter::JobsOver => &self.jobs_over,
            Counter::JobsFailed => &self.jobs_failed,
        }
    }

    /// Raises a counter by one.
    pub fn raise(&self, counter: Counter) {
        self.place(counter).fetch_add(1, Ordering::SeqCst);
    }

    // The counter, now.
    fn read(&self, counter: Counter) -> u64 {
        self.place(counter).load(Ordering::SeqCst)
    }

    /// Counts what happened.
    pub fn count(&self, event: &LogEvent) {
        if let Some(counter) = event.counter() {
            self.raise(counter);
        }
        let Some(code) = event.refusal_code() else {
            return;
        };
        if let Some(refusals) = self.refusals.get(code as usize) {
            refusals.fetch_add(1, Ordering::SeqCst);
        }
    }

    /// The connections, now.
    pub fn connections(&self) -> ConnectionTotals
        ensures { AreConnections result }
    {
        let over = self.read(Counter::ConnectionsOver);
        connection_totals(self.read(Counter::ConnectionsTaken), over)
    }

    /// The jobs, now. What ends a job is read ahead of what takes one.
    pub fn jobs(&self) -> JobTotals
        ensures { AreJobs result }
    {
        let over = self.read(Counter::JobsOver);
        let failed = self.read(Counter::JobsFailed);
        let started = self.read(Counter::JobsStarted);
        let unstarted = self.read(Counter::JobsUnstarted);
        let counts = JobCounts {
            taken: self.read(Counter::JobsTaken),
            unstarted,
            started,
            over,
            failed,
        };
        counts.totals()
    }

    /// How many refusals had each number, now.
    pub fn refusals(&self, alloc: Global) -> Result<Vec<RefusalCount>, NoMemory>
        ensures { IfOk result (λ found. AreRefusals found.items) }
    {
        let mut counts = Vec::new(alloc);
        for count in &self.refusals {
            counts.push(count.load(Ordering::SeqCst))?;
        }
        refusal_counts(alloc, &counts)
    }
}
