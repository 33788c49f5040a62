//! The request that words say.

ghost use Rattle.std.specs.Prelude.{◌≡◌, ◌↔◌, ◌≤◌, ℕ, map, codes, IfOk, IfErr, IsTrue, Option, Some, string_bytes};
ghost use Rattle.clap.specs.Words.{Text, first_of, found_of, matches_of, rows_of};
ghost use Rattle.bpfjobs_cli.specs.Commands.{IsMaybeNumber, IsNumberIn};
ghost use Rattle.bpfrun_core.specs.Program.{bpfrun_app};
ghost use Rattle.bpfrun_core.specs.Requests.{IsRequestOf, IsBpfrunUsage, SaysRequest};
ghost use Rattle.machine_model.specs.Limits.{max_credit};

use crate::arguments::RunArguments;
use crate::program::bpfrun;
use bpfjobs_cli::Usage;
use clap::ArgMatches;
use machine_model::MAX_CREDIT;
use std::alloc::Global;

// The number of an argument that has one, up to high.
fn number(matches: &ArgMatches<'_>, id: &str, high: u64) -> u64
    requires { (n : ℕ) × IsNumberIn (rows_of (found_of matches.now)) id.now 0 high n }
    ensures number { IsNumberIn (rows_of (found_of matches.now)) id.now 0 high result }
    ensures most { result ≤ high }
{
    match matches.get_one::<u64>(id) {
        Some(number) => number,
        None => unreachable!(),
    }
}

// How many bytes the program needs, if that is said.
fn need(matches: &ArgMatches<'_>) -> Option<u32>
    requires { (need : Option ℕ)
        × IsMaybeNumber (rows_of (found_of matches.now)) (codes "need") 0 4294967295 need }
    ensures { IsMaybeNumber (rows_of (found_of matches.now)) (codes "need") 0 4294967295 result }
{
    matches.get_one::<u32>("need")
}

// The path of the program.
fn file<'a>(matches: &ArgMatches<'a>) -> &'a str
    requires { (path : Text)
        × (first_of (codes "file") (rows_of (found_of matches.now)) ≡ Some path) }
    ensures { first_of (codes "file") (rows_of (found_of matches.now)) ≡ Some result.now }
{
    match matches.get_str("file") {
        Some(file) => file,
        None => unreachable!(),
    }
}

// Whether a flag stands among the words.
fn flag(matches: &ArgMatches<'_>, id: &str) -> bool
    ensures { IsTrue result
        ↔ (first_of id.now (rows_of (found_of matches.now)) ≡ Some (codes "true")) }
{
    match matches.get_str(id) {
        Some(text) => text == "true",
        None => false,
    }
}

fn request_of<'a>(matches: &ArgMatches<'a>) -> RunArguments<'a>
    requires { SaysRequest (rows_of (found_of matches.now)) }
    ensures parts { IsRequestOf (rows_of (found_of matches.now)) result }
    ensures limit { result.credit ≤ max_credit }
{
    RunArguments {
        file: file(matches),
        memory: matches.get_str("memory"),
        need: need(matches),
        credit: number(matches, "credit", u64::from(MAX_CREDIT)) as u32,
        arg: number(matches, "arg", u64::MAX),
        explains: flag(matches, "explain"),
        explains_all: flag(matches, "explain-all"),
        draws: flag(matches, "graph"),
        traces: flag(matches, "trace"),
        trace_json: matches.get_str("trace-json"),
    }
}

/// What the words ask for, of which the first is the program's name: each part of it is the value
/// that clap's matches of the words give. Words that clap takes are refused only for want of
/// memory.
pub fn request<'a>(alloc: Global, words: &'a [String]) -> Result<RunArguments<'a>, Usage>
    ensures ok { IfOk result
        (λ request. IsRequestOf (matches_of bpfrun_app (map string_bytes words.now)) request) }
    ensures limit { IfOk result (λ request. request.credit ≤ max_credit) }
    ensures err { IfErr result (λ usage. IsBpfrunUsage usage (map string_bytes words.now)) }
{
    match bpfrun(alloc)?.try_get_matches_from(words) {
        Ok(matches) => Ok(request_of(&matches)),
        Err(error) => Err(Usage::Refused(error)),
    }
}
