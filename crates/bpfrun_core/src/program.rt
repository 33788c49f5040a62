//! What clap is told of the words.

ghost use Rattle.std.specs.Prelude.{◌≡◌, false, IfOk};
ghost use Rattle.clap.specs.Words.{app_of, rule_of};
ghost use Rattle.clap.specs.declared.builder.command.Command.TheViews.{out-Command as fields_of};
ghost use Rattle.bpfrun_core.specs.Program.{file_rule, bpfrun_need_rule, credit_rule, arg_rule, path_rule, flag_rule, bpfrun_app, bare_bpfrun_app};

use crate::texts;
use clap::{Arg, ArgAction, Command};
use std::alloc::{AllocError, Global};

fn file<'a>(alloc: Global) -> Arg<'a>
    ensures rule { rule_of result ≡ file_rule }
    ensures local { result.global ≡ false }
{
    Arg::new(alloc, "file")
        .value_name("FILE")
        .help(texts::FILE)
        .required(true)
}

fn need<'a>(alloc: Global) -> Arg<'a>
    ensures rule { rule_of result ≡ bpfrun_need_rule }
    ensures local { result.global ≡ false }
{
    Arg::new(alloc, "need")
        .long("need")
        .value_name("BYTES")
        .help(texts::NEED)
        .value_parser(clap::value_parser!(u32).range(0..=4294967295))
}

fn credit<'a>(alloc: Global) -> Arg<'a>
    ensures rule { rule_of result ≡ credit_rule }
    ensures local { result.global ≡ false }
{
    Arg::new(alloc, "credit")
        .long("credit")
        .value_name("CREDIT")
        .help(texts::CREDIT)
        .value_parser(clap::value_parser!(u32).range(0..=2147483647))
        .default_value("2147483647")
}

fn argument<'a>(alloc: Global) -> Arg<'a>
    ensures rule { rule_of result ≡ arg_rule }
    ensures local { result.global ≡ false }
{
    Arg::new(alloc, "arg")
        .long("arg")
        .value_name("NUMBER")
        .help(texts::ARG)
        .value_parser(clap::value_parser!(u64))
        .default_value("0")
}

// An option of this name, which names a file.
fn path<'a>(alloc: Global, name: &'a str, help: &'a str) -> Arg<'a>
    ensures rule { rule_of result ≡ path_rule name.now }
    ensures local { result.global ≡ false }
{
    Arg::new(alloc, name)
        .long(name)
        .value_name("FILE")
        .help(help)
}

// A flag of this name.
fn flag<'a>(alloc: Global, name: &'a str, help: &'a str) -> Arg<'a>
    ensures rule { rule_of result ≡ flag_rule name.now }
    ensures local { result.global ≡ false }
{
    Arg::new(alloc, name)
        .long(name)
        .action(ArgAction::SetTrue)
        .help(help)
}

// The program without its arguments.
fn named<'a>(alloc: Global) -> Command<'a>
    ensures app { app_of result ≡ bare_bpfrun_app }
    ensures local { (fields_of result).has_globals ≡ false }
{
    Command::new(alloc, "bpfrun")
        .version(texts::VERSION)
        .about(texts::BPFRUN)
        .after_help(texts::BPFRUN_MORE)
}

/// The program with its arguments, as clap reads them.
pub(crate) fn bpfrun<'a>(alloc: Global) -> Result<Command<'a>, AllocError>
    ensures { IfOk result (λ c. app_of c ≡ bpfrun_app) }
{
    named(alloc)
        .arg(file(alloc))?
        .arg(need(alloc))?
        .arg(credit(alloc))?
        .arg(argument(alloc))?
        .arg(path(alloc, "memory", texts::MEMORY))?
        .arg(flag(alloc, "explain", texts::EXPLAIN))?
        .arg(flag(alloc, "explain-all", texts::EXPLAIN_ALL))?
        .arg(flag(alloc, "graph", texts::GRAPH))?
        .arg(flag(alloc, "trace", texts::TRACE))?
        .arg(path(alloc, "trace-json", texts::TRACE_JSON))
}
