//! The command `serve`: requests over TCP, or over a socket in the file system, and perhaps journals.

ghost use Rattle.std.specs.Prelude.{◌≡◌, ◌⊎◌, ◌+◌, [], IfOk, IfSome, length, map, string_bytes, unwrap_or};
ghost use Rattle.std.specs.Arc.{arc_value};
ghost use Rattle.bpfjobs_cli.specs.Commands.{IsServeInRange};
ghost use Rattle.bpfjobs_cli.specs.Tenants.{tenants_in};
ghost use Rattle.bpfjobs_cli.specs.declared.journal_sync.JournalSync.TheVariants as said;
ghost use Rattle.bpfjobs.specs.Listening.{HasDoors};
ghost use Rattle.shared_journal.specs.declared.reply_sync.ReplySync.TheVariants as reply;

use crate::host_notes::tell_host;
use crate::journal_opening::OpenedJournals;
use crate::listening::Listening;
use accounts::KeepLimits;
use bpfjobs_cli::{
    Endpoint, FAILED, JournalSync, Serve, ServeOptions, TenantSettings, TenantSocket,
};
use job_server::{
    Bounds, Plan, ServeFault, StopFlag, StreamFault, TenantDoor, remove_names, serve_port,
    serve_sockets, status_of,
};
use keyed_desk::KeyedDesk;
use refusal::NoMemory;
use server_log::ServerLog;
use shared_journal::{GroupJournal, ReplySync, SharedJournal};
use std::alloc::{AllocError, Global};
use std::fs::{File, Files};
use std::net::{Net, TcpListener, TcpStream};
use std::sync::Wait;
use std::thread::Threads;
use std::time::Clock;

// The refusals of a start: as many jobs are open as may be; no memory.
const TOO_MANY_OPEN: u8 = 81;

const NO_MEMORY: u8 = 99;

// The bounds that the options say, with the jobs that each tenant may have open.
fn bounds_of(options: ServeOptions, tenant_jobs: Option<u32>) -> Bounds
    ensures { result ≡ record {
      clients = options.clients;
      timeout = options.timeout;
      open_jobs = options.open_jobs;
      tenant_jobs = unwrap_or tenant_jobs 0;
      keep = record { jobs = options.keep; bytes = options.keep_bytes };
    } }
{
    Bounds {
        clients: options.clients,
        timeout: options.timeout,
        open_jobs: options.open_jobs,
        tenant_jobs: tenant_jobs.unwrap_or(0),
        keep: KeepLimits {
            jobs: options.keep,
            bytes: u64::from(options.keep_bytes),
        },
    }
}

// The moment of the sync that the words say, as a server has it.
fn reply_sync_of(sync: JournalSync) -> ReplySync
    ensures always { sync ≡ said.Always → result ≡ reply.Always }
    ensures interval { sync ≡ said.Interval → result ≡ reply.Interval }
{
    match sync {
        JournalSync::Always => ReplySync::Always,
        JournalSync::Interval => ReplySync::Interval,
    }
}

// The connections that a server takes in all.
fn sessions_of(options: ServeOptions) -> u64 {
    match options.sessions {
        Some(sessions) => u64::from(sessions),
        None => u64::MAX,
    }
}

/// The doors of tenants, in their order: each has its tenant's name, path and settings.
pub fn doors_of(alloc: Global, tenants: &[TenantSocket]) -> Result<Vec<TenantDoor>, NoMemory>
    ensures { IfOk result (λ doors. map
        (λ d. (
          string_bytes d.name,
          string_bytes d.path,
          record { open_jobs = d.open_jobs; credit = d.credit },
        )) doors.items
        ≡ tenants_in tenants.now) }
{
    let mut doors = Vec::new(alloc);
    for tenant in tenants {
        let Ok(name) = String::from_str(alloc, &tenant.name) else {
            return Err(NoMemory);
        };
        let Ok(path) = String::from_str(alloc, &tenant.path) else {
            return Err(NoMemory);
        };
        let TenantSettings { open_jobs, credit } = tenant.settings;
        let door = TenantDoor {
            name,
            path,
            open_jobs,
            credit,
        };
        let Ok(()) = doors.push(door) else {
            return Err(NoMemory);
        };
    }
    Ok(doors)
}

// Where a server listens, in words, with how many connections it takes, where these are bounded.
fn place_of(alloc: Global, server: &Serve) -> Result<String, AllocError> {
    let place = match &server.endpoint {
        Endpoint::Port(port) => format!(in alloc; "127.0.0.1:{port}")?,
        Endpoint::Socket { path, grants: _ } => String::from_str(alloc, path)?,
    };
    match server.options.sessions {
        None => Ok(place),
        Some(1) => format!(in alloc; "{place} for 1 connection"),
        Some(sessions) => format!(in alloc; "{place} for {sessions} connections"),
    }
}

// Serves with journals, if there are any, from the desks that their records lead to.
fn serve_from<R>(
    rt: &R,
    alloc: Global,
    server: &Serve,
    doors: &[TenantDoor],
    listening: Listening,
    stop: Option<&StopFlag>,
    log: &ServerLog,
    journals: &[SharedJournal],
    states: Vec<KeyedDesk>,
) -> Result<(), ServeFault>
where
    R: Net<Stream = TcpStream, Listener = TcpListener>
        + Files<File = File>
        + Threads
        + Wait
        + Clock
        + Sync,
    requires range { IsServeInRange server.now }
    requires doors { length doors.now ≡ length server.now.tenants.tenants.items }
    requires listening { HasDoors (length doors.now) listening }
    requires journals { (journals.now ≡ [])
        ⊎ (length journals.now ≡ length server.now.tenants.tenants.items + 1) }
    requires states { length states.items ≡ length journals.now }
{
    let options = server.options;
    let Ok(place) = place_of(alloc, server) else {
        listening.close(rt, alloc);
        return Err(ServeFault::Connection(StreamFault::NoMemory));
    };
    let plan = Plan {
        place: place.as_str(),
        workers: options.workers,
        sessions: sessions_of(options),
        bounds: bounds_of(options, server.tenants.open_jobs),
        tenants: doors,
        stop,
        log,
        journals,
        sync: reply_sync_of(server.journal_sync),
    };
    match listening {
        Listening::Port { listener, .. } => serve_port(rt, alloc, &listener, plan, states),
        Listening::Sockets { listener, names } => {
            let served = serve_sockets(rt, alloc, listener, plan, states);
            remove_names(rt, alloc, &names);
            served
        }
    }
}

// What helps against the refusal of a job that is to be started again.
fn advice_on(code: u8) -> &'static str {
    match code {
        TOO_MANY_OPEN => ": raise --open-jobs, or what its tenant may have open",
        NO_MEMORY => ": there is no memory for it",
        _ => "",
    }
}

// Tells the host of a server's fault, if there is one, and gives the status.
fn tell_outcome<R: Wait + Clock>(
    rt: &R,
    alloc: Global,
    log: &ServerLog,
    outcome: Result<(), ServeFault>,
) -> u8 {
    match outcome {
        Ok(()) => {}
        Err(ServeFault::Restart(code)) => {
            let advice = advice_on(code);
            let fault = ServeFault::Restart(code);
            tell_host(rt, log, format!(in alloc; "{fault}{advice}"));
        }
        Err(fault) => tell_host(rt, log, format!(in alloc; "{fault}")),
    }
    status_of(outcome)
}

// Whether a server's journals stay as they were at its start.
fn leaves_journals(outcome: &Result<(), ServeFault>) -> bool {
    matches!(outcome, Err(ServeFault::Threads | ServeFault::Restart(_)))
}

// Makes the last records durable. Where a journal fails, or has failed, a line names it, and the
// status is 3.
fn close_journals<R: Wait + Clock>(
    rt: &R,
    alloc: Global,
    log: &ServerLog,
    paths: &[String],
    journals: &[SharedJournal],
    status: u8,
) -> u8 {
    let mut status = status;
    for (path, journal) in paths.iter().zip(journals) {
        if journal.commit_all(rt).1.is_err() {
            let text = format!(in alloc; "{path}: it can't be written, or not be synced");
            tell_host(rt, log, text);
            status = FAILED;
        }
    }
    status
}

/// Takes as many connections as the options say, and gives the status: 0 once all have ended, 3 where
/// one of them, a socket or a journal failed, or nothing could be served, of which the host is told. It
/// ends earlier once the flag is raised, if there is one. A log is told of it. Where there are journals,
/// it goes on from the desks that their records lead to. They stay as they are where a thread is
/// missing, or an open job can't be started again.
pub fn serve<R>(
    rt: &R,
    alloc: Global,
    server: &Serve,
    doors: &[TenantDoor],
    listening: Listening,
    stop: Option<&StopFlag>,
    log: &ServerLog,
    opened: Option<OpenedJournals>,
) -> u8
where
    R: Net<Stream = TcpStream, Listener = TcpListener>
        + Files<File = File>
        + Threads
        + Wait
        + Clock
        + Sync,
    requires range { IsServeInRange server.now }
    requires doors { length doors.now ≡ length server.now.tenants.tenants.items }
    requires listening { HasDoors (length doors.now) listening }
    requires opened { IfSome opened (λ some. length (arc_value some.journals).items
        ≡ length server.now.tenants.tenants.items + 1) }
{
    let Some(
        OpenedJournals {
            paths,
            journals,
            desks,
        },
    ) = opened
    else {
        let outcome = serve_from(
            rt,
            alloc,
            server,
            doors,
            listening,
            stop,
            log,
            &[],
            Vec::new(alloc),
        );
        return tell_outcome(rt, alloc, log, outcome);
    };
    let outcome = serve_from(
        rt, alloc, server, doors, listening, stop, log, &journals, desks,
    );
    let status = tell_outcome(rt, alloc, log, outcome);
    if leaves_journals(&outcome) {
        return status;
    }
    close_journals(rt, alloc, log, &paths, &journals, status)
}
