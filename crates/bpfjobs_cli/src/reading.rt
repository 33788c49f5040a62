//! The command that words say.

ghost use Rattle.std.specs.Prelude.{◌≡◌, ◌&&◌, ◌⊎◌, [], Ok, ℕ, true, false, map, codes, IfOk, IfErr, IfSome, Option, Some, String, option_map, string_bytes, List};
ghost use Rattle.std.specs.Str.{bytes_eq};
ghost use Rattle.std.specs.declared.alloc.Global.{Global};
ghost use Rattle.clap.specs.Words.{Row, Text, found_of, first_of, rows_of, subcommand_of};
ghost use Rattle.bpfjobs_cli.specs.declared.commands.ServeOptions.{ServeOptions};
ghost use Rattle.bpfjobs_cli.specs.Program.{bpfjobs_app};
ghost use Rattle.bpfjobs_cli.specs.declared.commands.Endpoint.TheVariants.{Port, Socket};
ghost use Rattle.bpfjobs_cli.specs.declared.commands.EndpointFault.TheVariants as fault;
ghost use Rattle.bpfjobs_cli.specs.declared.commands.Usage.TheVariants as usage_of;
ghost use Rattle.bpfjobs_cli.specs.Tenants.{entered, is_socket_path, tenants_in, words_said};
ghost use Rattle.bpfjobs_cli.specs.Entries.{IsWordUsage};
ghost use Rattle.bpfjobs_cli.specs.Commands.{AreJobsOf, AreOptionsOf, AreTenantsOf, HasText, IsCommandOf, IsCommandUsage, IsEndpointOf, IsEndpointUsage, IsFlagOf, IsInRange, IsInputOf, IsJournalOf, IsMaybeNumber, IsNumberIn, IsPlaceUsage, IsServeOf, IsShownOf, IsSyncOf, IsUsage, NameNoTenant, NameTenants, SaysCheck, SaysCommand, SaysServe, sessions_said, tenant_words};

use crate::asking::ask_of;
use crate::commands::{
    Command, CommandRequest, Endpoint, EndpointFault, Serve, ServeOptions, Shown, Usage,
};
use crate::job_reading::job_of;
use crate::journal_sync::{JournalSync, sync_said};
use crate::program::bpfjobs;
use crate::socket_path::is_socket_path;
use crate::tenant_socket::{TenantSocket, TenantWords};
use crate::tenants::tenants_of_words;
use clap::ArgMatches;
use std::alloc::{AllocError, Global};

/// The number of an argument that has one, from low to high.
pub(crate) fn number(matches: &ArgMatches<'_>, id: &str, low: u32, high: u32) -> u32
    requires { (n : ℕ) × IsNumberIn (rows_of (found_of matches.now)) id.now low high n }
    ensures { IsNumberIn (rows_of (found_of matches.now)) id.now low high result }
{
    match matches.get_one::<u32>(id) {
        Some(number) => number,
        None => unreachable!(),
    }
}

// Whether both paths are that of the standard input.
fn are_inputs(first: &str, second: &str) -> bool
    ensures { result ≡ (bytes_eq first.now (codes "-") && bytes_eq second.now (codes "-")) }
{
    if first == "-" {
        return second == "-";
    }
    false
}

// Whether a flag stands among the words.
fn flag(matches: &ArgMatches<'_>, id: &str) -> bool
    ensures { IsFlagOf (rows_of (found_of matches.now)) id.now result }
{
    match matches.get_str(id) {
        Some(text) => text == "true",
        None => false,
    }
}

/// The text of an argument, if it has one.
pub(crate) fn text(
    alloc: Global,
    matches: &ArgMatches<'_>,
    id: &str,
) -> Result<Option<String>, AllocError>
    ensures { IfOk result (λ text. first_of id.now (rows_of (found_of matches.now))
        ≡ option_map string_bytes text) }
{
    match matches.get_str(id) {
        Some(text) => Ok(Some(String::from_str(alloc, text)?)),
        None => Ok(None),
    }
}

/// The number of an argument, from low to high, if the words say one.
pub(crate) fn maybe_number(matches: &ArgMatches<'_>, id: &str, low: u32, high: u32) -> Option<u32>
    requires { (n : Option ℕ)
        × IsMaybeNumber (rows_of (found_of matches.now)) id.now low high n }
    ensures { IsMaybeNumber (rows_of (found_of matches.now)) id.now low high result }
{
    matches.get_one::<u32>(id)
}

// How many connections a server takes in all, by the words and how many it serves at once.
fn sessions_of(said: Option<u32>, clients: u32) -> Option<u32>
    ensures { result ≡ sessions_said said clients }
{
    match said {
        Some(sessions) => Some(sessions),
        None => { if clients == 1 { Some(1) } else { None } }
    }
}

// Whether a socket can be at a path, if there is one.
fn may_have_socket(path: &Option<String>) -> bool
    ensures some { result ≡ true
        → IfSome path.now (λ path. is_socket_path (string_bytes path) ≡ true) }
    ensures none { result ≡ false → (text : String Global) × (path.now ≡ Some text)
        × (is_socket_path (string_bytes text) ≡ false) }
{
    match path {
        Some(path) => is_socket_path(path),
        None => true,
    }
}

// The sockets at these paths.
fn socket_endpoint(path: String, grants: Option<String>) -> Result<Endpoint, Usage>
    ensures ok { IfOk result (λ endpoint. (endpoint ≡ Socket path grants)
        × (is_socket_path (string_bytes path) ≡ true)
        × IfSome grants (λ second. is_socket_path (string_bytes second) ≡ true)) }
    ensures err { IfErr result (λ usage. (usage ≡ usage_of.Endpoint fault.SocketPath)
        × ((is_socket_path (string_bytes path) ≡ false)
        ⊎ ((text : String Global) × (grants ≡ Some text)
        × (is_socket_path (string_bytes text) ≡ false)))) }
{
    if !is_socket_path(&path) {
        return Err(Usage::Endpoint(EndpointFault::SocketPath));
    }
    if !may_have_socket(&grants) {
        return Err(Usage::Endpoint(EndpointFault::SocketPath));
    }
    Ok(Endpoint::Socket { path, grants })
}

/// The place where a server listens: a port, or a socket.
pub(crate) fn endpoint(alloc: Global, matches: &ArgMatches<'_>) -> Result<Endpoint, Usage>
    requires { (n : Option ℕ)
        × IsMaybeNumber (rows_of (found_of matches.now)) (codes "port") 1 65535 n }
    ensures ok { IfOk result (λ endpoint.
        IsEndpointOf (rows_of (found_of matches.now)) endpoint) }
    ensures err { IfErr result (λ usage. IsPlaceUsage (rows_of (found_of matches.now)) usage) }
{
    let path = text(alloc, matches, "socket")?;
    let grants = text(alloc, matches, "grants")?;
    match maybe_number(matches, "port", 1, 65535) {
        Some(port) => match path {
            Some(_) => Err(Usage::Endpoint(EndpointFault::Two)),
            None => match grants {
                Some(_) => Err(Usage::Endpoint(EndpointFault::GrantsWithPort)),
                None => Ok(Endpoint::Port(port as u16)),
            },
        },
        None => match path {
            Some(path) => socket_endpoint(path, grants),
            None => Err(Usage::Endpoint(EndpointFault::Missing)),
        },
    }
}

// The tenants of the words `--tenant`, in their order.
fn said_tenants(alloc: Global, matches: &ArgMatches<'_>) -> Result<Vec<TenantSocket>, Usage>
    ensures ok { IfOk result (λ tenants.
        entered [] 0 (words_said (tenant_words (rows_of (found_of matches.now))))
        ≡ Ok (tenants_in tenants.items)) }
    ensures err { IfErr result (λ usage.
        IsWordUsage (tenant_words (rows_of (found_of matches.now))) usage) }
{
    match matches.get_strs("tenant") {
        Some(words) => tenants_of_words(alloc, words),
        None => Ok(Vec::new(alloc)),
    }
}

// Whether the words name tenants, or a file of them.
fn names_tenants(matches: &ArgMatches<'_>) -> bool
    ensures some { result ≡ true → NameTenants (rows_of (found_of matches.now)) }
    ensures none { result ≡ false → NameNoTenant (rows_of (found_of matches.now)) }
{
    match matches.get_strs("tenant") {
        Some(_) => true,
        None => match matches.get_str("tenants") {
            Some(_) => true,
            None => false,
        },
    }
}

// The jobs that each tenant may have open, if the words say it.
fn jobs_of(matches: &ArgMatches<'_>) -> Result<Option<u32>, Usage>
    requires { (n : Option ℕ)
        × IsMaybeNumber (rows_of (found_of matches.now)) (codes "tenant-jobs") 1 1000000 n }
    ensures ok { IfOk result (λ jobs. AreJobsOf (rows_of (found_of matches.now)) jobs) }
    ensures err { IfErr result (λ usage.
        IsEndpointUsage (rows_of (found_of matches.now)) usage) }
{
    let names = names_tenants(matches);
    match maybe_number(matches, "tenant-jobs", 1, 1000000) {
        Some(jobs) => {
            if names {
                return Ok(Some(jobs));
            }
            Err(Usage::Endpoint(EndpointFault::JobsOfNoTenant))
        }
        None => Ok(None),
    }
}

// No tenants, beside a port: the words name none, and no file of them.
fn no_tenants(
    alloc: Global,
    matches: &ArgMatches<'_>,
    port: u16,
    open_jobs: Option<u32>,
) -> Result<TenantWords, Usage>
    requires endpoint { IsEndpointOf (rows_of (found_of matches.now)) (Port port) }
    requires jobs { AreJobsOf (rows_of (found_of matches.now)) open_jobs }
    ensures ok { IfOk result (λ tenants.
        AreTenantsOf (rows_of (found_of matches.now)) (Port port) tenants) }
    ensures err { IfErr result (λ usage.
        IsEndpointUsage (rows_of (found_of matches.now)) usage) }
{
    if names_tenants(matches) {
        return Err(Usage::Endpoint(EndpointFault::TenantsWithPort));
    }
    Ok(TenantWords {
        tenants: Vec::new(alloc),
        file: None,
        open_jobs,
    })
}

// The tenants with sockets of their own, where a server listens there.
fn tenants(
    alloc: Global,
    matches: &ArgMatches<'_>,
    endpoint: &Endpoint,
) -> Result<TenantWords, Usage>
    requires endpoint { IsEndpointOf (rows_of (found_of matches.now)) endpoint.now }
    requires jobs { (n : Option ℕ)
        × IsMaybeNumber (rows_of (found_of matches.now)) (codes "tenant-jobs") 1 1000000 n }
    ensures ok { IfOk result (λ tenants.
        AreTenantsOf (rows_of (found_of matches.now)) endpoint.now tenants) }
    ensures err { IfErr result (λ usage.
        IsEndpointUsage (rows_of (found_of matches.now)) usage) }
{
    let open_jobs = match jobs_of(matches) {
        Ok(jobs) => jobs,
        Err(usage) => return Err(usage),
    };
    match endpoint {
        Endpoint::Port(port) => no_tenants(alloc, matches, *port, open_jobs),
        Endpoint::Socket { path: _, grants: _ } => {
            let file = text(alloc, matches, "tenants")?;
            match said_tenants(alloc, matches) {
                Ok(tenants) => Ok(TenantWords {
                    tenants,
                    file,
                    open_jobs,
                }),
                Err(usage) => Err(usage),
            }
        }
    }
}

// The path of a server's journal, if the words name one.
fn journal(alloc: Global, matches: &ArgMatches<'_>) -> Result<Option<String>, Usage>
    ensures ok { IfOk result (λ journal. IsJournalOf (rows_of (found_of matches.now)) journal) }
    ensures err { IfErr result (λ usage.
        IsEndpointUsage (rows_of (found_of matches.now)) usage) }
{
    Ok(text(alloc, matches, "journal")?)
}

// The moment at which a server's journal is synced: always ahead of a reply, where the words say nothing.
fn journal_sync(matches: &ArgMatches<'_>) -> Result<JournalSync, Usage>
    ensures ok { IfOk result (λ sync. IsSyncOf (rows_of (found_of matches.now)) sync) }
    ensures err { IfErr result (λ usage.
        IsEndpointUsage (rows_of (found_of matches.now)) usage) }
{
    match matches.get_str("journal-sync") {
        Some(word) => match sync_said(word) {
            Some(sync) => match matches.get_str("journal") {
                Some(_) => Ok(sync),
                None => Err(Usage::Endpoint(EndpointFault::SyncOfNoJournal)),
            },
            None => Err(Usage::Endpoint(EndpointFault::UnknownSync)),
        },
        None => Ok(JournalSync::Always),
    }
}

// The options of a server.
fn options(matches: &ArgMatches<'_>) -> ServeOptions
    requires { (o : ServeOptions) × AreOptionsOf (rows_of (found_of matches.now)) o }
    ensures { AreOptionsOf (rows_of (found_of matches.now)) result }
{
    let clients = number(matches, "clients", 1, 1024);
    let said = maybe_number(matches, "sessions", 1, 1000000);
    ServeOptions {
        workers: number(matches, "workers", 1, 16),
        sessions: sessions_of(said, clients),
        clients,
        timeout: number(matches, "timeout", 0, 3600),
        open_jobs: number(matches, "open-jobs", 0, 1000000),
        keep: number(matches, "keep", 0, 1000000),
        keep_bytes: number(matches, "keep-bytes", 0, 4294967295),
        until_eof: flag(matches, "until-eof"),
        logs: flag(matches, "log"),
    }
}

// The server that the words of `serve` say.
fn serve_of(alloc: Global, matches: &ArgMatches<'_>) -> Result<Serve, Usage>
    requires { SaysServe (rows_of (found_of matches.now)) }
    ensures ok { IfOk result (λ serve. IsServeOf (rows_of (found_of matches.now)) serve) }
    ensures err { IfErr result (λ usage. IsEndpointUsage (rows_of (found_of matches.now)) usage) }
{
    let endpoint = match endpoint(alloc, matches) {
        Ok(endpoint) => endpoint,
        Err(usage) => return Err(usage),
    };
    let tenants = match tenants(alloc, matches, &endpoint) {
        Ok(tenants) => tenants,
        Err(usage) => return Err(usage),
    };
    let journal = match journal(alloc, matches) {
        Ok(journal) => journal,
        Err(usage) => return Err(usage),
    };
    match journal_sync(matches) {
        Ok(journal_sync) => {
            let options = options(matches);
            Ok(Serve {
                endpoint,
                tenants,
                journal,
                journal_sync,
                options,
            })
        }
        Err(usage) => Err(usage),
    }
}

// The journal that the words of `journal` name, and whether they ask for the verdict on it.
fn journal_command(alloc: Global, matches: &ArgMatches<'_>) -> Result<Command, AllocError>
    requires { HasText (rows_of (found_of matches.now)) (codes "file") }
    ensures { IfOk result (λ command.
        IsCommandOf (codes "journal") (rows_of (found_of matches.now)) command) }
{
    match text(alloc, matches, "file")? {
        Some(path) => {
            let checks = flag(matches, "check");
            Ok(Command::Journal { path, checks })
        }
        None => unreachable!(),
    }
}

// The two files that the words of `check` name, of which one at most is the standard input.
fn check_command(alloc: Global, matches: &ArgMatches<'_>) -> Result<Command, Usage>
    requires { SaysCheck (rows_of (found_of matches.now)) }
    ensures ok { IfOk result (λ command.
        IsCommandOf (codes "check") (rows_of (found_of matches.now)) command) }
    ensures err { IfErr result (λ usage.
        IsCommandUsage (codes "check") (rows_of (found_of matches.now)) usage) }
{
    let Some(job) = text(alloc, matches, "job")? else {
        unreachable!()
    };
    let Some(result) = text(alloc, matches, "result")? else {
        unreachable!()
    };
    if are_inputs(&job, &result) {
        return Err(Usage::TwoInputs);
    }
    Ok(Command::Check { job, result })
}

fn command_of(alloc: Global, name: &str, matches: &ArgMatches<'_>) -> Result<Command, Usage>
    requires { SaysCommand name.now (rows_of (found_of matches.now)) }
    ensures ok { IfOk result (λ command.
        IsCommandOf name.now (rows_of (found_of matches.now)) command) }
    ensures err { IfErr result (λ usage.
        IsCommandUsage name.now (rows_of (found_of matches.now)) usage) }
{
    match name {
        "assemble" => Ok(Command::Assemble),
        "disassemble" => Ok(Command::Disassemble),
        "verify" => {
            let need = number(matches, "need", 0, u32::MAX);
            Ok(Command::Verify { need })
        }
        "play" => Ok(Command::Play),
        "run" => {
            let workers = number(matches, "workers", 1, 16);
            Ok(Command::Run { workers })
        }
        "serve" => match serve_of(alloc, matches) {
            Ok(serve) => Ok(Command::Serve(serve)),
            Err(usage) => Err(usage),
        },
        "journal" => match journal_command(alloc, matches) {
            Ok(command) => Ok(command),
            Err(_) => Err(Usage::NoMemory),
        },
        "ask" => match ask_of(alloc, matches) {
            Ok(ask) => Ok(Command::Ask(ask)),
            Err(usage) => Err(usage),
        },
        "job" => match job_of(alloc, matches) {
            Ok(job) => Ok(Command::Job(job)),
            Err(usage) => Err(usage),
        },
        "check" => check_command(alloc, matches),
        _ => unreachable!(),
    }
}

// What is shown beside the answer.
fn shown_of<'a>(matches: &ArgMatches<'a>) -> Shown<'a>
    ensures { IsShownOf (rows_of (found_of matches.now)) result }
{
    Shown {
        traces: flag(matches, "trace"),
        trace_json: matches.get_str("trace-json"),
        tree: matches.get_str("tree"),
    }
}

// The path of the file that is read. `-` is the standard input.
fn input_of<'a>(matches: &ArgMatches<'a>) -> Option<&'a str>
    ensures { IsInputOf (rows_of (found_of matches.now)) result }
{
    match matches.get_str("input") {
        Some(path) => { if path == "-" { None } else { Some(path) } }
        None => None,
    }
}

/// The command that the words ask for, the file that it reads, and what is shown beside its answer.
/// The first word is the program's name. The subcommand, its numbers and paths are those that clap's
/// matches of the words give. Words that clap takes are refused for want of memory, and where a server's options name no
/// endpoint, or don't go with it.
pub fn request<'a>(alloc: Global, words: &'a [String]) -> Result<CommandRequest<'a>, Usage>
    ensures ok { IfOk result (λ request. (name : Text) × (rows : List Row)
        × (subcommand_of bpfjobs_app (map string_bytes words.now) ≡ Some (name, rows))
        × IsCommandOf name rows request.command × IsInputOf rows request.input
        × IsShownOf rows request.shown) }
    ensures range { IfOk result (λ request. IsInRange request.command) }
    ensures err { IfErr result (λ usage. IsUsage usage (map string_bytes words.now)) }
{
    let matches = match bpfjobs(alloc)?.try_get_matches_from(words) {
        Ok(matches) => matches,
        Err(error) => return Err(Usage::Refused(error)),
    };
    match matches.subcommand() {
        Some((name, inner)) => match command_of(alloc, name, inner) {
            Ok(command) => Ok(CommandRequest {
                command,
                input: input_of(inner),
                shown: shown_of(inner),
            }),
            Err(usage) => Err(usage),
        },
        None => unreachable!(),
    }
}

/// The command that the words say, of which the first is the program's name, as [`request`] has it.
pub fn command(alloc: Global, words: Vec<String>) -> Result<Command, Usage>
    ensures ok { IfOk result (λ command. (name : Text) × (rows : List Row)
        × (subcommand_of bpfjobs_app (map string_bytes words.items) ≡ Some (name, rows))
        × IsCommandOf name rows command) }
    ensures range { IfOk result (λ command. IsInRange command) }
    ensures err { IfErr result (λ usage. IsUsage usage (map string_bytes words.items)) }
{
    match request(alloc, &words) {
        Ok(request) => Ok(request.command),
        Err(usage) => Err(usage),
    }
}
