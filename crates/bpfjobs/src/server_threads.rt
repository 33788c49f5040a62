//! The threads beside a server: one that waits for the end of the input, one that ends the wait for
//! connections once the server is to stop, one that compacts its journals, one that commits them at
//! intervals, and one that writes a log.

use crate::journal_following::JournalFollowers;
use crate::listening::{Listening, Waking};
use bpfjobs_cli::{Endpoint, JournalSync, Serve};
use job_server::StopFlag;
use refusal::NoMemory;
use server_log::{LogForm, LogLines, ServerLog, open_log, write_lines};
use shared_journal::{GroupJournal, SharedJournal, commit_each};
use std::alloc::Global;
use std::fs::{File, Files};
use std::io::{ErrorKind, Read};
use std::net::Net;
use std::sync::{Arc, Wait};
use std::thread;
use std::time::{Clock, Duration};

// How many milliseconds go by between two looks at the flag and the journals.
const BETWEEN_LOOKS: u64 = 20;

// How many milliseconds go by between two commits of the journals.
const BETWEEN_COMMITS: u64 = 1000;

// Reads the input to its end, and then raises the flag.
fn stop_at_end<R: Input>(rt: &R, stop: &StopFlag) {
    let mut reader = rt.reader();
    let mut piece = [0u8; 64];
    for _ in 0..u64::MAX {
        match reader.read(&mut piece) {
            Ok(0) => break,
            Ok(_) => {}
            Err(error) if error.kind() == ErrorKind::Interrupted => {}
            Err(_) => break,
        }
    }
    stop.raise();
}

// Whether one of the journals has failed.
fn has_one_failed(journals: &[SharedJournal]) -> bool {
    for journal in journals {
        if journal.has_failed() {
            return true;
        }
    }
    false
}

// Looks at the flag and the journals until that is raised, or one of these has failed. Then raises the
// flag, and ends the wait for a connection.
fn wake_at_stop<R: Net + Wait + Clock>(
    rt: &R,
    waking: &Waking,
    stop: &StopFlag,
    journals: &[SharedJournal],
) {
    for _ in rt.forever() {
        if stop.is_raised() || has_one_failed(journals) {
            break;
        }
        thread::sleep(rt, Duration::from_millis(BETWEEN_LOOKS));
    }
    stop.raise();
    waking.wake(rt);
}

// Commits the journals at intervals, until one fails. The server's own end commits them once more.
fn commit_at_intervals<R: Wait + Clock, J: GroupJournal>(rt: &R, journals: &[J]) {
    for _ in rt.forever() {
        thread::sleep(rt, Duration::from_millis(BETWEEN_COMMITS));
        if commit_each(rt, journals).is_err() {
            return;
        }
    }
}

/// The task of a thread beside a server.
#[derive(Drop)]
pub enum Helper {
    /// It stops the server once the input has ended.
    Stops(Arc<StopFlag, Global>),
    /// It ends the server's wait for a connection once it is stopped, or one of its journals has failed.
    Wakes(Waking, Arc<StopFlag, Global>, Option<Arc<Vec<SharedJournal>, Global>>),
    /// It follows the server's journals, and compacts them, of which it tells a log.
    Compacts(JournalFollowers, Arc<ServerLog, Global>),
    /// It commits the server's journals about once a second, until one fails.
    Commits(Arc<Vec<SharedJournal>, Global>),
    /// It writes the lines of a log on standard error.
    Writes(LogLines),
}

impl Helper {
    /// Does it to its end.
    pub fn help<R>(self, rt: &R)
    where
        R: Input + Eprint + Files<File = File> + Net + Wait + Clock + AllocGlobal,
    {
        match self {
            Helper::Stops(stop) => stop_at_end(rt, &stop),
            Helper::Wakes(waking, stop, journals) => match &journals {
                Some(journals) => wake_at_stop(rt, &waking, &stop, journals),
                None => wake_at_stop(rt, &waking, &stop, &[]),
            },
            Helper::Compacts(followers, log) => followers.follow(rt, rt.alloc(), &log),
            Helper::Commits(journals) => commit_at_intervals(rt, &journals),
            Helper::Writes(lines) => write_lines(rt, rt.alloc(), lines),
        }
    }
}

// Adds the threads that stop a server: at the end of the input, where its options say so; and once its
// flag is raised, or one of its journals has failed.
fn add_stopping(
    server: &Serve,
    listening: &Listening,
    stop: &Arc<StopFlag, Global>,
    journals: Option<&Arc<Vec<SharedJournal>, Global>>,
    helpers: &mut Vec<Helper>,
) -> Result<(), NoMemory> {
    if server.options.until_eof {
        helpers.push(Helper::Stops(Arc::try_clone(stop)?))?;
    }
    let journals = match journals {
        Some(journals) => Some(Arc::try_clone(journals)?),
        None => None,
    };
    let waking = listening.waking()?;
    helpers.push(Helper::Wakes(waking, Arc::try_clone(stop)?, journals))?;
    Ok(())
}

// Whether something may stop a server: the end of its input, a journal that fails, or what is asked of
// the socket for grants.
fn may_stop(server: &Serve, has_journals: bool) -> bool {
    let has_grants = match &server.endpoint {
        Endpoint::Port(_) => false,
        Endpoint::Socket { path: _, grants } => grants.is_some(),
    };
    server.options.until_eof || has_journals || has_grants
}

// Adds the thread that commits the journals, if there are any, where no reply does.
fn add_commits(
    sync: JournalSync,
    journals: Option<&Arc<Vec<SharedJournal>, Global>>,
    helpers: &mut Vec<Helper>,
) -> Result<(), NoMemory> {
    if let (JournalSync::Interval, Some(journals)) = (sync, journals) {
        helpers.push(Helper::Commits(Arc::try_clone(journals)?))?;
    }
    Ok(())
}

/// The log of a server, which begins now, and the task of the thread that writes it: as JSON where the
/// server's options say so, and else the notes to its host alone.
pub fn log_of<R: Clock>(
    rt: &R,
    alloc: Global,
    logs: bool,
) -> Result<(Arc<ServerLog, Global>, Helper), NoMemory> {
    let form = if logs { LogForm::Json } else { LogForm::Notes };
    let (log, lines) = open_log(rt, alloc, form)?;
    Ok((Arc::new(alloc, log)?, Helper::Writes(lines)))
}

/// The flag that a server has where something may stop it, and what the threads beside it do.
pub fn helpers_of(
    alloc: Global,
    server: &Serve,
    listening: &Listening,
    log: &Arc<ServerLog, Global>,
    journals: Option<&Arc<Vec<SharedJournal>, Global>>,
    followers: Option<JournalFollowers>,
) -> Result<(Option<Arc<StopFlag, Global>>, Vec<Helper>), NoMemory> {
    let mut helpers = Vec::new(alloc);
    if let Some(followers) = followers {
        helpers.push(Helper::Compacts(followers, Arc::try_clone(log)?))?;
    }
    let mut stops = None;
    if may_stop(server, journals.is_some()) {
        let stop = Arc::new(alloc, StopFlag::new())?;
        add_stopping(server, listening, &stop, journals, &mut helpers)?;
        stops = Some(stop);
    }
    add_commits(server.journal_sync, journals, &mut helpers)?;
    Ok((stops, helpers))
}
