//! The meaning of a command line's words: a command with its numbers, or why there is none.

use crate::ask::{Ask, AskFault};
use crate::job_sources::{JobSources, JobWordFault};
use crate::journal_sync::JournalSync;
use crate::tenant_socket::{TenantFault, TenantWords};
use clap::Error;
use std::alloc::AllocError;

/// A command, with its numbers.
#[derive(Debug, PartialEq, Eq, Drop)]
pub enum Command {
    /// Source text to bytes.
    Assemble,
    /// Bytes to source text.
    Disassemble,
    /// The verdict on a program that needs so many bytes of its part.
    Verify { need: u32 },
    /// A job, by its schedule.
    Play,
    /// A job, on 1 to 16 threads.
    Run { workers: u32 },
    /// A server of accounts and jobs.
    Serve(Serve),
    /// The records of the journal in a file, or, where it checks, the verdict on it.
    Journal { path: String, checks: bool },
    /// A request to a server that runs.
    Ask(Ask),
    /// The job object of source files.
    Job(JobSources),
    /// The verdict on the result of a job, by the paths of both: one may be `-`, the standard input.
    Check { job: String, result: String },
}

/// A server: where it listens, for which tenants apart, its journal and when that is synced, and its
/// options.
#[derive(Debug, PartialEq, Eq, Drop)]
pub struct Serve {
    pub endpoint: Endpoint,
    /// The tenants with sockets of their own: none beside a port.
    pub tenants: TenantWords,
    /// The path of the file that keeps its journal, if the words name one. Each tenant with a socket of
    /// its own has one beside it.
    pub journal: Option<String>,
    /// The moment at which its journals are synced: always ahead of a reply, where the words say
    /// nothing.
    pub journal_sync: JournalSync,
    pub options: ServeOptions,
}

/// The place where a server listens.
#[derive(Debug, PartialEq, Eq, Drop)]
pub enum Endpoint {
    /// A port of 127.0.0.1, 1 to 65535.
    Port(u16),
    /// A socket in the file system. Where there is a second one, it alone takes grants.
    Socket {
        path: String,
        grants: Option<String>,
    },
}

/// The options of a server, wherever it listens.
#[derive(Clone, Copy, Debug, PartialEq, Eq)]
pub struct ServeOptions {
    /// Threads that run the tasks of a job, 1 to 16.
    pub workers: u32,
    /// Connections that are taken until it ends, 1 to 1,000,000; `None`: any number.
    pub sessions: Option<u32>,
    /// Connections at once, 1 to 1,024.
    pub clients: u32,
    /// Seconds, 1 to 3600, after which a client is given up that keeps a read or a write waiting, or
    /// a frame. 0: none is.
    pub timeout: u32,
    /// Jobs, 1 to 1,000,000, that may be open at once. 0: any number.
    pub open_jobs: u32,
    /// Jobs, 1 to 1,000,000, of which the last ones' reports are kept. 0: all are.
    pub keep: u32,
    /// Bytes, 1 to 4,294,967,295, that kept reports hold. 0: any number.
    pub keep_bytes: u32,
    /// Whether it takes no more connections once its standard input has ended.
    pub until_eof: bool,
    /// Whether it writes a log of its connections and jobs.
    pub logs: bool,
}

/// The files and texts that are written beside a command's answer.
#[derive(Clone, Copy, Debug, PartialEq, Eq)]
pub struct Shown<'a> {
    /// Whether the steps of a job that is played are told.
    pub traces: bool,
    /// The path of a file that gets these steps as JSON, if the words name one.
    pub trace_json: Option<&'a str>,
    /// The path of a file that gets the tree of a job that is run, if the words name one.
    pub tree: Option<&'a str>,
}

/// A command, the file that it reads, and what is shown beside its answer.
#[derive(Debug, PartialEq, Eq, Drop)]
pub struct CommandRequest<'a> {
    pub command: Command,
    /// The path of the file that is read in place of the standard input, if the words name one.
    pub input: Option<&'a str>,
    pub shown: Shown<'a>,
}

/// The reason why the options of `serve` name no endpoint, or don't go together.
#[derive(Clone, Copy, Debug, PartialEq, Eq)]
pub enum EndpointFault {
    /// Neither a port nor a socket.
    Missing,
    /// A port and a socket.
    Two,
    /// A socket for grants beside a port.
    GrantsWithPort,
    /// A path for a socket that isn't 1 to 104 bytes, none of them 0.
    SocketPath,
    /// A socket for a tenant beside a port.
    TenantsWithPort,
    /// A limit for each tenant, where no tenant is named.
    JobsOfNoTenant,
    /// A word on when the journal is synced, where no journal is named.
    SyncOfNoJournal,
    /// A word on that which is neither `always` nor `interval`.
    UnknownSync,
}

impl EndpointFault {
    // The line that tells it, without its end.
    pub(crate) fn text(self) -> &'static str {
        match self {
            EndpointFault::Missing => "error: serve needs --port <PORT> or --socket <PATH>",
            EndpointFault::Two => "error: serve takes --port or --socket, and not both",
            EndpointFault::GrantsWithPort => "error: serve takes --grants with --socket alone",
            EndpointFault::SocketPath => {
                "error: serve takes 1 to 104 bytes, none of them 0, as a socket's path"
            }
            EndpointFault::TenantsWithPort => "error: serve takes tenants with --socket alone",
            EndpointFault::JobsOfNoTenant => {
                "error: serve takes --tenant-jobs with --tenant or --tenants alone"
            }
            EndpointFault::SyncOfNoJournal => {
                "error: serve takes --journal-sync with --journal alone"
            }
            EndpointFault::UnknownSync => {
                "error: serve takes --journal-sync always or --journal-sync interval"
            }
        }
    }
}

/// The reason why words are no command.
#[derive(Drop)]
pub enum Usage {
    /// clap refuses them, or was asked for help. Its text says it.
    Refused(Error),
    /// clap takes them, but they name no endpoint of a server.
    Endpoint(EndpointFault),
    /// clap takes them, but this word names no tenant beside those before it.
    Tenant(String, TenantFault),
    /// clap takes them, but they are no request to a server.
    Ask(AskFault),
    /// clap takes them, but they are no job of source files.
    Job(JobWordFault),
    /// clap takes them, but both files that they name are the standard input.
    TwoInputs,
    /// A growth was refused: 99.
    NoMemory,
}

// The status where the words are wrong, or can't be read.
const MISTAKEN: u8 = 2;

impl Usage {
    ghost use Rattle.std.specs.Prelude.{◌≡◌};
    ghost use Rattle.bpfjobs_cli.specs.Commands.{AsksHelp};

    /// The status that the program ends with: 0 where help was asked for, which clap prints on
    /// standard output, and else 2, also for want of memory.
    pub fn status(&self) -> u8
        ensures help { AsksHelp self.now → result ≡ 0 }
        ensures mistake { (AsksHelp self.now → ⊥) → result ≡ 2 }
    {
        match self {
            Usage::Refused(error) => { if error.use_stderr() { MISTAKEN } else { 0 } }
            Usage::Endpoint(_) => MISTAKEN,
            Usage::Tenant(_, _) => MISTAKEN,
            Usage::Ask(_) => MISTAKEN,
            Usage::Job(_) => MISTAKEN,
            Usage::TwoInputs => MISTAKEN,
            Usage::NoMemory => MISTAKEN,
        }
    }
}

impl From<AllocError> for Usage {
    ghost use Rattle.std.specs.Prelude.{◌≡◌};
    ghost use Rattle.bpfjobs_cli.specs.declared.commands.Usage.TheVariants as usage;

    ghost from_gives = { λ _ result. result ≡ usage.NoMemory };

    fn from(_error: AllocError) -> Usage {
        Usage::NoMemory
    }
}
