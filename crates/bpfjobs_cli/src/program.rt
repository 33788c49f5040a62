//! The definition of the command line, as clap reads it.

ghost use Rattle.std.specs.Prelude.{◌≡◌, false, codes, IfOk};
ghost use Rattle.clap.specs.Words.{app_of, new_app, rule_of};
ghost use Rattle.clap.specs.declared.builder.command.Command.TheViews.{out-Command as fields_of};
ghost use Rattle.bpfjobs_cli.specs.Program.{need_rule, port_rule, socket_rule, grants_rule, tenant_rule, tenants_rule, tenant_jobs_rule, workers_rule, sessions_rule, clients_rule, timeout_rule, open_jobs_rule, keep_rule, keep_bytes_rule, journal_rule, journal_sync_rule, until_eof_rule, log_rule, trace_rule, trace_json_rule, tree_rule, journal_file_rule, check_rule, word_rule, subject_rule, amount_rule, wait_rule, key_rule, from_rule, job_credit_rule, buffer_rule, schedule_rule, sources_rule, job_file_rule, result_file_rule, input_rule, named_app, requiring, assemble_app, disassemble_app, verify_app, play_app, run_app, serve_app, journal_app, ask_app, job_app, check_app, bpfjobs_app, with_text_commands};

use crate::texts;
use clap::{Arg, ArgAction, Command};
use std::alloc::{AllocError, Global};

fn need<'a>(alloc: Global) -> Arg<'a>
    ensures rule { rule_of result ≡ need_rule }
    ensures local { result.global ≡ false }
{
    Arg::new(alloc, "need")
        .long("need")
        .value_name("BYTES")
        .help(texts::NEED)
        .required(true)
        .value_parser(clap::value_parser!(u32).range(0..=4294967295))
}

fn port<'a>(alloc: Global) -> Arg<'a>
    ensures rule { rule_of result ≡ port_rule }
    ensures local { result.global ≡ false }
{
    Arg::new(alloc, "port")
        .long("port")
        .value_name("PORT")
        .help(texts::PORT)
        .value_parser(clap::value_parser!(u32).range(1..=65535))
}

fn socket<'a>(alloc: Global) -> Arg<'a>
    ensures rule { rule_of result ≡ socket_rule }
    ensures local { result.global ≡ false }
{
    Arg::new(alloc, "socket")
        .long("socket")
        .value_name("PATH")
        .help(texts::SOCKET)
}

fn grants<'a>(alloc: Global) -> Arg<'a>
    ensures rule { rule_of result ≡ grants_rule }
    ensures local { result.global ≡ false }
{
    Arg::new(alloc, "grants")
        .long("grants")
        .value_name("PATH")
        .help(texts::GRANTS)
}

fn tenant<'a>(alloc: Global) -> Arg<'a>
    ensures rule { rule_of result ≡ tenant_rule }
    ensures local { result.global ≡ false }
{
    Arg::new(alloc, "tenant")
        .long("tenant")
        .value_name("NAME=PATH")
        .help(texts::TENANT)
        .action(ArgAction::Append)
}

fn tenants<'a>(alloc: Global) -> Arg<'a>
    ensures rule { rule_of result ≡ tenants_rule }
    ensures local { result.global ≡ false }
{
    Arg::new(alloc, "tenants")
        .long("tenants")
        .value_name("FILE")
        .help(texts::TENANTS)
}

fn tenant_jobs<'a>(alloc: Global) -> Arg<'a>
    ensures rule { rule_of result ≡ tenant_jobs_rule }
    ensures local { result.global ≡ false }
{
    Arg::new(alloc, "tenant-jobs")
        .long("tenant-jobs")
        .value_name("COUNT")
        .help(texts::TENANT_JOBS)
        .value_parser(clap::value_parser!(u32).range(1..=1000000))
}

fn workers<'a>(alloc: Global) -> Arg<'a>
    ensures rule { rule_of result ≡ workers_rule }
    ensures local { result.global ≡ false }
{
    Arg::new(alloc, "workers")
        .long("workers")
        .value_name("COUNT")
        .help(texts::WORKERS)
        .value_parser(clap::value_parser!(u32).range(1..=16))
        .default_value("1")
}

fn sessions<'a>(alloc: Global) -> Arg<'a>
    ensures rule { rule_of result ≡ sessions_rule }
    ensures local { result.global ≡ false }
{
    Arg::new(alloc, "sessions")
        .long("sessions")
        .value_name("COUNT")
        .help(texts::SESSIONS)
        .value_parser(clap::value_parser!(u32).range(1..=1000000))
}

fn clients<'a>(alloc: Global) -> Arg<'a>
    ensures rule { rule_of result ≡ clients_rule }
    ensures local { result.global ≡ false }
{
    Arg::new(alloc, "clients")
        .long("clients")
        .value_name("COUNT")
        .help(texts::CLIENTS)
        .value_parser(clap::value_parser!(u32).range(1..=1024))
        .default_value("1")
}

fn timeout<'a>(alloc: Global) -> Arg<'a>
    ensures rule { rule_of result ≡ timeout_rule }
    ensures local { result.global ≡ false }
{
    Arg::new(alloc, "timeout")
        .long("timeout")
        .value_name("SECONDS")
        .help(texts::TIMEOUT)
        .value_parser(clap::value_parser!(u32).range(0..=3600))
        .default_value("0")
}

fn open_jobs<'a>(alloc: Global) -> Arg<'a>
    ensures rule { rule_of result ≡ open_jobs_rule }
    ensures local { result.global ≡ false }
{
    Arg::new(alloc, "open-jobs")
        .long("open-jobs")
        .value_name("COUNT")
        .help(texts::OPEN_JOBS)
        .value_parser(clap::value_parser!(u32).range(0..=1000000))
        .default_value("0")
}

fn keep<'a>(alloc: Global) -> Arg<'a>
    ensures rule { rule_of result ≡ keep_rule }
    ensures local { result.global ≡ false }
{
    Arg::new(alloc, "keep")
        .long("keep")
        .value_name("COUNT")
        .help(texts::KEEP)
        .value_parser(clap::value_parser!(u32).range(0..=1000000))
        .default_value("0")
}

fn keep_bytes<'a>(alloc: Global) -> Arg<'a>
    ensures rule { rule_of result ≡ keep_bytes_rule }
    ensures local { result.global ≡ false }
{
    Arg::new(alloc, "keep-bytes")
        .long("keep-bytes")
        .value_name("BYTES")
        .help(texts::KEEP_BYTES)
        .value_parser(clap::value_parser!(u32).range(0..=4294967295))
        .default_value("0")
}

fn journal<'a>(alloc: Global) -> Arg<'a>
    ensures rule { rule_of result ≡ journal_rule }
    ensures local { result.global ≡ false }
{
    Arg::new(alloc, "journal")
        .long("journal")
        .value_name("FILE")
        .help(texts::JOURNAL)
}

fn journal_sync<'a>(alloc: Global) -> Arg<'a>
    ensures rule { rule_of result ≡ journal_sync_rule }
    ensures local { result.global ≡ false }
{
    Arg::new(alloc, "journal-sync")
        .long("journal-sync")
        .value_name("WHEN")
        .help(texts::JOURNAL_SYNC)
}

fn until_eof<'a>(alloc: Global) -> Arg<'a>
    ensures rule { rule_of result ≡ until_eof_rule }
    ensures local { result.global ≡ false }
{
    Arg::new(alloc, "until-eof")
        .long("until-eof")
        .action(ArgAction::SetTrue)
        .help(texts::UNTIL_EOF)
}

fn log<'a>(alloc: Global) -> Arg<'a>
    ensures rule { rule_of result ≡ log_rule }
    ensures local { result.global ≡ false }
{
    Arg::new(alloc, "log")
        .long("log")
        .action(ArgAction::SetTrue)
        .help(texts::LOG)
}

fn trace<'a>(alloc: Global) -> Arg<'a>
    ensures rule { rule_of result ≡ trace_rule }
    ensures local { result.global ≡ false }
{
    Arg::new(alloc, "trace")
        .long("trace")
        .action(ArgAction::SetTrue)
        .help(texts::TRACE)
}

fn trace_json<'a>(alloc: Global) -> Arg<'a>
    ensures rule { rule_of result ≡ trace_json_rule }
    ensures local { result.global ≡ false }
{
    Arg::new(alloc, "trace-json")
        .long("trace-json")
        .value_name("FILE")
        .help(texts::TRACE_JSON)
}

fn tree<'a>(alloc: Global) -> Arg<'a>
    ensures rule { rule_of result ≡ tree_rule }
    ensures local { result.global ≡ false }
{
    Arg::new(alloc, "tree")
        .long("tree")
        .value_name("FILE")
        .help(texts::TREE)
}

fn journal_file<'a>(alloc: Global) -> Arg<'a>
    ensures rule { rule_of result ≡ journal_file_rule }
    ensures local { result.global ≡ false }
{
    Arg::new(alloc, "file")
        .value_name("FILE")
        .help(texts::JOURNAL_FILE)
        .required(true)
}

fn check<'a>(alloc: Global) -> Arg<'a>
    ensures rule { rule_of result ≡ check_rule }
    ensures local { result.global ≡ false }
{
    Arg::new(alloc, "check")
        .long("check")
        .action(ArgAction::SetTrue)
        .help(texts::CHECK)
}

fn word<'a>(alloc: Global) -> Arg<'a>
    ensures rule { rule_of result ≡ word_rule }
    ensures local { result.global ≡ false }
{
    Arg::new(alloc, "word")
        .value_name("WORD")
        .help(texts::WORD)
        .required(true)
}

fn subject<'a>(alloc: Global) -> Arg<'a>
    ensures rule { rule_of result ≡ subject_rule }
    ensures local { result.global ≡ false }
{
    Arg::new(alloc, "subject")
        .value_name("TENANT|JOB")
        .help(texts::SUBJECT)
}

fn amount<'a>(alloc: Global) -> Arg<'a>
    ensures rule { rule_of result ≡ amount_rule }
    ensures local { result.global ≡ false }
{
    Arg::new(alloc, "amount")
        .value_name("AMOUNT")
        .help(texts::AMOUNT)
        .value_parser(clap::value_parser!(u32).range(1..=2147483647))
}

fn wait<'a>(alloc: Global) -> Arg<'a>
    ensures rule { rule_of result ≡ wait_rule }
    ensures local { result.global ≡ false }
{
    Arg::new(alloc, "wait")
        .long("wait")
        .value_name("SECONDS")
        .help(texts::WAIT)
        .value_parser(clap::value_parser!(u32).range(0..=3600))
        .default_value("0")
}

fn key<'a>(alloc: Global) -> Arg<'a>
    ensures rule { rule_of result ≡ key_rule }
    ensures local { result.global ≡ false }
{
    Arg::new(alloc, "key")
        .long("key")
        .value_name("KEY")
        .help(texts::KEY)
}

fn from<'a>(alloc: Global) -> Arg<'a>
    ensures rule { rule_of result ≡ from_rule }
    ensures local { result.global ≡ false }
{
    Arg::new(alloc, "from")
        .long("from")
        .value_name("NUMBER")
        .help(texts::FROM)
        .value_parser(clap::value_parser!(u64).range(1..))
}

fn credit<'a>(alloc: Global) -> Arg<'a>
    ensures rule { rule_of result ≡ job_credit_rule }
    ensures local { result.global ≡ false }
{
    Arg::new(alloc, "credit")
        .long("credit")
        .value_name("CREDIT")
        .help(texts::CREDIT)
        .required(true)
        .value_parser(clap::value_parser!(u32).range(0..=4294967295))
}

fn buffer<'a>(alloc: Global) -> Arg<'a>
    ensures rule { rule_of result ≡ buffer_rule }
    ensures local { result.global ≡ false }
{
    Arg::new(alloc, "buffer")
        .long("buffer")
        .value_name("HEX|HEX*COUNT")
        .help(texts::BUFFER)
        .required(true)
}

fn schedule<'a>(alloc: Global) -> Arg<'a>
    ensures rule { rule_of result ≡ schedule_rule }
    ensures local { result.global ≡ false }
{
    Arg::new(alloc, "schedule")
        .long("schedule")
        .value_name("NUMBERS")
        .help(texts::SCHEDULE)
}

fn sources<'a>(alloc: Global) -> Arg<'a>
    ensures rule { rule_of result ≡ sources_rule }
    ensures local { result.global ≡ false }
{
    Arg::new(alloc, "sources")
        .value_name("FILE:NEED")
        .help(texts::SOURCES)
        .num_args(1..)
        .required(true)
}

fn job_file<'a>(alloc: Global) -> Arg<'a>
    ensures rule { rule_of result ≡ job_file_rule }
    ensures local { result.global ≡ false }
{
    Arg::new(alloc, "job")
        .value_name("JOB")
        .help(texts::JOB_FILE)
        .required(true)
}

fn result_file<'a>(alloc: Global) -> Arg<'a>
    ensures rule { rule_of result ≡ result_file_rule }
    ensures local { result.global ≡ false }
{
    Arg::new(alloc, "result")
        .value_name("RESULT")
        .help(texts::RESULT_FILE)
        .required(true)
}

fn input<'a>(alloc: Global) -> Arg<'a>
    ensures rule { rule_of result ≡ input_rule }
    ensures local { result.global ≡ false }
{
    Arg::new(alloc, "input")
        .value_name("FILE")
        .help(texts::INPUT)
}

// The program without its commands.
fn top<'a>(alloc: Global) -> Command<'a>
    ensures app { app_of result ≡ named_app }
    ensures local { (fields_of result).has_globals ≡ false }
{
    Command::new(alloc, "bpfjobs")
        .version(texts::VERSION)
        .about(texts::BPFJOBS)
        .after_help(texts::BPFJOBS_MORE)
}

// The same, where a command has to be said.
fn requiring<'a>(alloc: Global) -> Command<'a>
    ensures { app_of result ≡ requiring named_app }
{
    top(alloc).subcommand_required(true)
}

// A command that has no argument yet.
fn named<'a>(alloc: Global, name: &'a str, about: &'a str, more: &'a str) -> Command<'a>
    ensures app { app_of result ≡ new_app name.now }
    ensures local { (fields_of result).has_globals ≡ false }
{
    Command::new(alloc, name).about(about).after_help(more)
}

fn assemble<'a>(alloc: Global) -> Result<Command<'a>, AllocError>
    ensures app { IfOk result (λ c. app_of c ≡ assemble_app) }
    ensures local { IfOk result (λ c. (fields_of c).has_globals ≡ false) }
{
    named(alloc, "assemble", texts::ASSEMBLE, texts::ASSEMBLE_MORE).arg(input(alloc))
}

fn disassemble<'a>(alloc: Global) -> Result<Command<'a>, AllocError>
    ensures app { IfOk result (λ c. app_of c ≡ disassemble_app) }
    ensures local { IfOk result (λ c. (fields_of c).has_globals ≡ false) }
{
    named(
        alloc,
        "disassemble",
        texts::DISASSEMBLE,
        texts::DISASSEMBLE_MORE,
    )
    .arg(input(alloc))
}

fn verify<'a>(alloc: Global) -> Result<Command<'a>, AllocError>
    ensures app { IfOk result (λ c. app_of c ≡ verify_app) }
    ensures local { IfOk result (λ c. (fields_of c).has_globals ≡ false) }
{
    named(alloc, "verify", texts::VERIFY, texts::VERIFY_MORE)
        .arg(need(alloc))?
        .arg(input(alloc))
}

fn play<'a>(alloc: Global) -> Result<Command<'a>, AllocError>
    ensures app { IfOk result (λ c. app_of c ≡ play_app) }
    ensures local { IfOk result (λ c. (fields_of c).has_globals ≡ false) }
{
    named(alloc, "play", texts::PLAY, texts::PLAY_MORE)
        .arg(trace(alloc))?
        .arg(trace_json(alloc))?
        .arg(input(alloc))
}

fn run<'a>(alloc: Global) -> Result<Command<'a>, AllocError>
    ensures app { IfOk result (λ c. app_of c ≡ run_app) }
    ensures local { IfOk result (λ c. (fields_of c).has_globals ≡ false) }
{
    named(alloc, "run", texts::RUN, texts::RUN_MORE)
        .arg(workers(alloc))?
        .arg(tree(alloc))?
        .arg(input(alloc))
}

// `serve` without its arguments. clap's own usage would call the port and the socket optional.
fn serving<'a>(alloc: Global) -> Command<'a>
    ensures app { app_of result ≡ new_app (codes "serve") }
    ensures local { (fields_of result).has_globals ≡ false }
{
    named(alloc, "serve", texts::SERVE, texts::SERVE_MORE).override_usage(texts::SERVE_USAGE)
}

fn serve<'a>(alloc: Global) -> Result<Command<'a>, AllocError>
    ensures app { IfOk result (λ c. app_of c ≡ serve_app) }
    ensures local { IfOk result (λ c. (fields_of c).has_globals ≡ false) }
{
    serving(alloc)
        .arg(port(alloc))?
        .arg(socket(alloc))?
        .arg(grants(alloc))?
        .arg(tenant(alloc))?
        .arg(tenants(alloc))?
        .arg(tenant_jobs(alloc))?
        .arg(workers(alloc))?
        .arg(sessions(alloc))?
        .arg(clients(alloc))?
        .arg(timeout(alloc))?
        .arg(open_jobs(alloc))?
        .arg(keep(alloc))?
        .arg(keep_bytes(alloc))?
        .arg(journal(alloc))?
        .arg(journal_sync(alloc))?
        .arg(until_eof(alloc))?
        .arg(log(alloc))
}

fn read_journal<'a>(alloc: Global) -> Result<Command<'a>, AllocError>
    ensures app { IfOk result (λ c. app_of c ≡ journal_app) }
    ensures local { IfOk result (λ c. (fields_of c).has_globals ≡ false) }
{
    named(
        alloc,
        "journal",
        texts::READ_JOURNAL,
        texts::READ_JOURNAL_MORE,
    )
    .arg(journal_file(alloc))?
    .arg(check(alloc))
}

// `ask` without its arguments. clap's own usage would call the port and the socket optional.
fn asking<'a>(alloc: Global) -> Command<'a>
    ensures app { app_of result ≡ new_app (codes "ask") }
    ensures local { (fields_of result).has_globals ≡ false }
{
    named(alloc, "ask", texts::ASK, texts::ASK_MORE).override_usage(texts::ASK_USAGE)
}

fn ask<'a>(alloc: Global) -> Result<Command<'a>, AllocError>
    ensures app { IfOk result (λ c. app_of c ≡ ask_app) }
    ensures local { IfOk result (λ c. (fields_of c).has_globals ≡ false) }
{
    asking(alloc)
        .arg(port(alloc))?
        .arg(socket(alloc))?
        .arg(wait(alloc))?
        .arg(word(alloc))?
        .arg(subject(alloc))?
        .arg(amount(alloc))?
        .arg(key(alloc))?
        .arg(from(alloc))
}

fn write_job<'a>(alloc: Global) -> Result<Command<'a>, AllocError>
    ensures app { IfOk result (λ c. app_of c ≡ job_app) }
    ensures local { IfOk result (λ c. (fields_of c).has_globals ≡ false) }
{
    named(alloc, "job", texts::JOB, texts::JOB_MORE)
        .arg(credit(alloc))?
        .arg(buffer(alloc))?
        .arg(schedule(alloc))?
        .arg(sources(alloc))
}

fn check_result<'a>(alloc: Global) -> Result<Command<'a>, AllocError>
    ensures app { IfOk result (λ c. app_of c ≡ check_app) }
    ensures local { IfOk result (λ c. (fields_of c).has_globals ≡ false) }
{
    named(
        alloc,
        "check",
        texts::CHECK_RESULT,
        texts::CHECK_RESULT_MORE,
    )
    .arg(job_file(alloc))?
    .arg(result_file(alloc))
}

// The program with the commands between text and bytes.
fn with_texts<'a>(alloc: Global, command: Command<'a>) -> Result<Command<'a>, AllocError>
    ensures { IfOk result (λ c. app_of c ≡ with_text_commands (app_of command.entry)) }
{
    command
        .subcommand(assemble(alloc)?)?
        .subcommand(disassemble(alloc)?)
}

/// The program with its commands, as clap reads them.
pub(crate) fn bpfjobs<'a>(alloc: Global) -> Result<Command<'a>, AllocError>
    ensures { IfOk result (λ c. app_of c ≡ bpfjobs_app) }
{
    let command = with_texts(alloc, requiring(alloc))?;
    let command = command.subcommand(verify(alloc)?)?;
    let command = command.subcommand(play(alloc)?)?;
    let command = command.subcommand(run(alloc)?)?;
    let command = command.subcommand(serve(alloc)?)?;
    let command = command.subcommand(read_journal(alloc)?)?;
    let command = command.subcommand(ask(alloc)?)?;
    let command = command.subcommand(write_job(alloc)?)?;
    command.subcommand(check_result(alloc)?)
}
