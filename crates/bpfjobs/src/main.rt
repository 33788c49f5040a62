//! `bpfjobs`: eBPF programs as text, their verdicts, and the jobs that run them. `bpfjobs --help`
//! tells its commands.
#![tactic(auto)]

ghost use Rattle.bpfjobs_cli.specs.Commands.{IsInRange, IsServeInRange};
ghost use Rattle.bpfjobs_cli.specs.Performing.{NeedsNoThread};
ghost use Rattle.std.specs.Prelude.{◌≡◌, ◌≤◌, ℕ, IfOk, IfSome, length};
ghost use Rattle.std.specs.Arc.{arc_value};
ghost use Rattle.bpfjobs.specs.Listening.{IsBeginningOf};

mod asking;
mod beginning;
mod command_input;
mod foreign_file;
mod host_notes;
mod input_faults;
mod job_writing;
mod journal_compacting;
mod journal_faults;
mod journal_following;
mod journal_opening;
mod journal_reading;
mod listening;
mod printing;
mod progress_line;
mod result_checking;
mod server_threads;
mod serving;
mod showing;
mod socket_names;
mod standard_files;
mod tenant_file;
mod torn_records;

use asking::ask_server;
use beginning::{Beginning, begin};
use bpfjobs_cli::{
    Command, CommandRequest, FAILED, Serve, UNREAD, perform, perform_alone, print_usage, request,
    words,
};
use command_input::{unanswered, unread};
use host_notes::tell_host;
use input_faults::{JobForm, job_form, tell_input_fault};
use job_server::ServeFault;
use job_writing::write_job;
use journal_reading::print_journal;
use result_checking::check_files;
use server_log::ServerLog;
use server_threads::log_of;
use serving::serve;
use showing::{play_shown, run_shown};
use socket_names::have_names_of_their_own;
use standard_files::fill_gaps;
use std::alloc::{AllocError, Global};
use std::env::Env;
use std::fs::{File, Files};
use std::io::IsTerminal;
use std::net::{Net, TcpListener, TcpStream};
use std::process::ExitCode;
use std::sync::{Arc, Wait};
use std::thread::Threads;
use std::time::Clock;
use std::{io, thread};
use streams::Tap;
use tenant_file::with_file;

// Reads the input, prints the answer of a command that needs no thread, and gives the status. It
// returns if the input and the output do.
fn answer<R>(rt: &R, alloc: Global, command: Command, path: Option<&str>) -> u8
where
    R: Input + Print + Eprint + Files<File = File>,
    requires { NeedsNoThread command }
{
    let form = job_form(&command);
    let mut writer = Tap::new(io::writer(rt));
    let answered = match path {
        Some(path) => match File::open(rt, path) {
            Ok(file) => perform_alone(alloc, command, &mut Tap::new(file), &mut writer),
            Err(error) => return unread(rt, path, &error),
        },
        None => perform_alone(alloc, command, &mut Tap::new(rt.reader()), &mut writer),
    };
    match answered {
        Ok(done) => {
            tell_input_fault(rt, alloc, form, path, &done.input, done.code);
            done.status
        }
        Err(fault) => unanswered(rt, path, fault),
    }
}

// The same for a job that so many threads run, for which it waits.
fn run<R>(rt: &R, alloc: Global, workers: u32, path: Option<&str>) -> u8
where
    R: Input + Print + Eprint + Files<File = File> + Threads + Wait + Sync,
    requires { (1 ≤ workers) × (workers ≤ 16) }
{
    let command = Command::Run { workers };
    let mut writer = Tap::new(io::writer(rt));
    let answered = match path {
        Some(path) => match File::open(rt, path) {
            Ok(file) => perform(rt, alloc, command, &mut Tap::new(file), &mut writer),
            Err(error) => return unread(rt, path, &error),
        },
        None => perform(rt, alloc, command, &mut Tap::new(rt.reader()), &mut writer),
    };
    match answered {
        Ok(done) => {
            tell_input_fault(
                rt,
                alloc,
                Some(JobForm::Plain),
                path,
                &done.input,
                done.code,
            );
            done.status
        }
        Err(fault) => unanswered(rt, path, fault),
    }
}

// Prints the answer of a command beside which something is shown, and gives the status; none, and
// nothing is read, where nothing is to be shown.
fn show<R>(rt: &R, request: &CommandRequest<'_>, on_terminal: bool) -> Option<u8>
where
    R: Input + Print + Eprint + Files<File = File> + Threads + Wait + Clock + Sync + AllocGlobal,
    requires { IsInRange request.now.command }
{
    let shown = &request.shown;
    let input = request.input;
    match &request.command {
        Command::Play if shown.traces || shown.trace_json.is_some() => {
            Some(play_shown(rt, input, shown))
        }
        Command::Run { workers } if on_terminal || shown.tree.is_some() => {
            Some(run_shown(rt, *workers, input, shown.tree, on_terminal))
        }
        _ => None,
    }
}

// The server that the words ask for. Every other command is carried out, and gives its status, as
// words do that are refused. A terminal, on which standard error may be, is told more.
fn server_of<R>(rt: &R, alloc: Global, on_terminal: bool) -> Result<Serve, u8>
where
    R: Env
        + Input
        + Print
        + Eprint
        + Files<File = File>
        + Net<Stream = TcpStream, Listener = TcpListener>
        + Threads
        + Wait
        + Clock
        + Sync
        + AllocGlobal,
    ensures { IfOk result (λ server. IsServeInRange server) }
{
    let Ok(words) = words(rt) else {
        return Err(UNREAD);
    };
    let request = match request(alloc, &words) {
        Ok(request) => request,
        Err(usage) => return Err(print_usage(rt, usage)),
    };
    if let Some(status) = show(rt, &request, on_terminal) {
        return Err(status);
    }
    let input = request.input;
    let server = match request.command {
        Command::Serve(server) => server,
        Command::Run { workers } => return Err(run(rt, alloc, workers, input)),
        Command::Journal { path, checks } => {
            return Err(print_journal(rt, alloc, &path, checks));
        }
        Command::Ask(ask) => return Err(ask_server(rt, alloc, &ask)),
        Command::Job(job) => return Err(write_job(rt, alloc, job)),
        Command::Check { job, result } => return Err(check_files(rt, alloc, &job, &result)),
        command => return Err(answer(rt, alloc, command, input)),
    };
    let server = match with_file(rt, alloc, server) {
        Ok(server) => server,
        Err(status) => return Err(status),
    };
    match have_names_of_their_own(rt, alloc, &server) {
        Ok(()) => Ok(server),
        Err(status) => Err(status),
    }
}

// Tells the host that a thread beside a server is missing, and gives the status.
fn tell_no_thread<R: Wait + Clock>(rt: &R, alloc: Global, log: &ServerLog) -> u8 {
    tell_host(rt, log, format!(in alloc; "{}", ServeFault::Threads));
    FAILED
}

// Serves, once the threads beside the server are there.
fn serve_begun<R>(rt: &R, alloc: Global, log: &ServerLog, server: &Serve, begun: Beginning) -> u8
where
    R: Net<Stream = TcpStream, Listener = TcpListener>
        + Files<File = File>
        + Threads
        + Wait
        + Clock
        + Sync,
    requires range { IsServeInRange server.now }
    requires begun { IsBeginningOf server.now.tenants.tenants.items begun }
{
    let Beginning {
        opened,
        doors,
        listening,
        stop,
    } = begun;
    let stop = match &stop {
        Some(stop) => Some(&**stop),
        None => None,
    };
    serve(rt, alloc, server, &doors, listening, stop, log, opened)
}

// The threads beside a server are started here, where the runtime is of a type that may go to them.
// From the log's on, all lines to the host are the log's: whatever ends the server then closes it.
fn main(rt: HostRuntime) -> ExitCode {
    let alloc = rt.alloc();
    let Ok(_filled) = fill_gaps(&rt, alloc) else {
        let _ = eprintln!(rt;
            "bpfjobs: descriptor 0, 1 or 2 is closed, and there is no /dev/null for it"
        );
        return ExitCode::from(FAILED);
    };
    let server = match server_of(&rt, alloc, rt.stderr().is_terminal()) {
        Ok(server) => server,
        Err(status) => return ExitCode::from(status),
    };
    let Ok((log, writer)) = log_of(&rt, alloc, server.options.logs) else {
        let _ = eprintln!(rt; "bpfjobs: there is no memory for a log");
        return ExitCode::from(FAILED);
    };
    let Ok(_writing) = thread::spawn(&rt, move || writer.help(&rt)) else {
        let _ = eprintln!(rt; "bpfjobs: {}", ServeFault::Threads);
        return ExitCode::from(FAILED);
    };
    let (begun, helpers) = match begin(&rt, alloc, &log, &server) {
        Ok(begun) => begun,
        Err(status) => {
            log.close(&rt);
            return ExitCode::from(status);
        }
    };
    for helper in helpers {
        let Ok(_thread) = thread::spawn(&rt, move || helper.help(&rt)) else {
            begun.listening.close(&rt, alloc);
            let status = tell_no_thread(&rt, alloc, &log);
            log.close(&rt);
            return ExitCode::from(status);
        };
    }
    let status = serve_begun(&rt, alloc, &log, &server, begun);
    log.close(&rt);
    ExitCode::from(status)
}
