//! The request that the words of `ask` say.

ghost use Rattle.std.specs.Prelude.{◌≡◌, ℕ, IfErr, IfOk, Option, Some, codes, is_some, true};
ghost use Rattle.clap.specs.Words.{first_of, found_of, rows_of};
ghost use Rattle.bpfjobs_cli.specs.declared.commands.Usage.TheVariants as usage_of;
ghost use Rattle.bpfjobs_cli.specs.declared.ask.AskFault.TheVariants as fault;
ghost use Rattle.bpfjobs_cli.specs.declared.ask.AskWord.{AskWord};
ghost use Rattle.bpfjobs_cli.specs.declared.ask.AskWord.TheVariants as word_of;
ghost use Rattle.bpfjobs_cli.specs.AskWords.{words_fit};
ghost use Rattle.bpfjobs_cli.specs.Commands.{AreFit, HasText, IsAmountOf, IsAskOf, IsAskUsage, IsFromOf, IsAskedJobOf, IsQuestionOf, IsAskWordOf, NamesNoJob, SaysAsk};

use crate::ask::{Ask, AskFault, AskWord, ServerQuestion, ask_word, words_fit};
use crate::commands::Usage;
use crate::reading::{endpoint, maybe_number, number, text};
use clap::ArgMatches;
use std::alloc::Global;

// Whether an argument has a text.
fn is_there(matches: &ArgMatches<'_>, id: &str) -> bool
    ensures { result ≡ is_some (first_of id.now (rows_of (found_of matches.now))) }
{
    matches.get_str(id).is_some()
}

// The number of the first job of a listing, if the words say one.
fn first_job(matches: &ArgMatches<'_>) -> Option<u64>
    requires { (n : Option ℕ) × IsFromOf (rows_of (found_of matches.now)) n }
    ensures { IsFromOf (rows_of (found_of matches.now)) result }
{
    matches.get_one::<u64>("from")
}

// The number of the job that the words name.
fn job_of(matches: &ArgMatches<'_>) -> Result<u64, Usage>
    requires { HasText (rows_of (found_of matches.now)) (codes "subject") }
    ensures ok { IfOk result (λ job. IsAskedJobOf (rows_of (found_of matches.now)) job) }
    ensures err { IfErr result (λ usage. (usage ≡ usage_of.Ask fault.Words)
        × NamesNoJob (rows_of (found_of matches.now))) }
{
    match matches.get_str("subject") {
        Some(text) => match text.parse::<u64>() {
            Ok(job) => Ok(job),
            Err(_) => Err(Usage::Ask(AskFault::Words)),
        },
        None => unreachable!(),
    }
}

// The grant of an amount to the tenant that the words name.
fn grant_of(alloc: Global, matches: &ArgMatches<'_>, amount: u32) -> Result<ServerQuestion, Usage>
    requires word { IsAskWordOf (rows_of (found_of matches.now)) word_of.Grant }
    requires amount { IsAmountOf (rows_of (found_of matches.now)) (Some amount) }
    requires subject { HasText (rows_of (found_of matches.now)) (codes "subject") }
    ensures ok { IfOk result (λ question. IsQuestionOf (rows_of (found_of matches.now)) question) }
    ensures err { IfErr result (λ usage. IsAskUsage (rows_of (found_of matches.now)) usage) }
{
    match text(alloc, matches, "subject")? {
        Some(tenant) => Ok(ServerQuestion::Grant { tenant, amount }),
        None => unreachable!(),
    }
}

// The question that begins with a word, where what else is there goes with it.
fn question_of(
    alloc: Global,
    matches: &ArgMatches<'_>,
    word: AskWord,
    amount: Option<u32>,
    from: Option<u64>,
) -> Result<ServerQuestion, Usage>
    requires word { IsAskWordOf (rows_of (found_of matches.now)) word }
    requires amount { IsAmountOf (rows_of (found_of matches.now)) amount }
    requires from { IsFromOf (rows_of (found_of matches.now)) from }
    requires fit { words_fit word
        (is_some (first_of (codes "subject") (rows_of (found_of matches.now)))) (is_some amount)
        (is_some (first_of (codes "key") (rows_of (found_of matches.now)))) (is_some from) ≡ true }
    ensures ok { IfOk result (λ question. IsQuestionOf (rows_of (found_of matches.now)) question) }
    ensures err { IfErr result (λ usage. IsAskUsage (rows_of (found_of matches.now)) usage) }
{
    match word {
        AskWord::Account => Ok(ServerQuestion::Account {
            tenant: text(alloc, matches, "subject")?,
        }),
        AskWord::Submit => {
            let tenant = text(alloc, matches, "subject")?;
            let key = text(alloc, matches, "key")?;
            Ok(ServerQuestion::Submit { tenant, key })
        }
        AskWord::Status => match job_of(matches) {
            Ok(job) => Ok(ServerQuestion::Status { job }),
            Err(usage) => Err(usage),
        },
        AskWord::Result => match job_of(matches) {
            Ok(job) => Ok(ServerQuestion::Result { job }),
            Err(usage) => Err(usage),
        },
        AskWord::Jobs => Ok(ServerQuestion::Jobs { from }),
        AskWord::Grant => match amount {
            Some(amount) => grant_of(alloc, matches, amount),
            None => unreachable!(),
        },
        AskWord::Server => Ok(ServerQuestion::Server),
        AskWord::Stop => Ok(ServerQuestion::Stop),
    }
}

// The question that the words say.
fn question(alloc: Global, matches: &ArgMatches<'_>) -> Result<ServerQuestion, Usage>
    requires { SaysAsk (rows_of (found_of matches.now)) }
    ensures ok { IfOk result (λ question. IsQuestionOf (rows_of (found_of matches.now)) question) }
    ensures fit { IfOk result (λ question. (w : AskWord) × IsAskWordOf (rows_of (found_of matches.now)) w
        × AreFit (rows_of (found_of matches.now)) w true) }
    ensures err { IfErr result (λ usage. IsAskUsage (rows_of (found_of matches.now)) usage) }
{
    let Some(said) = matches.get_str("word") else {
        unreachable!()
    };
    let Some(word) = ask_word(said) else {
        return Err(Usage::Ask(AskFault::Words));
    };
    let amount = maybe_number(matches, "amount", 1, 2147483647);
    let from = first_job(matches);
    let subject = is_there(matches, "subject");
    let key = is_there(matches, "key");
    if !words_fit(word, subject, amount.is_some(), key, from.is_some()) {
        return Err(Usage::Ask(AskFault::Words));
    }
    question_of(alloc, matches, word, amount, from)
}

/// The request to a server that the words of `ask` say.
pub(crate) fn ask_of(alloc: Global, matches: &ArgMatches<'_>) -> Result<Ask, Usage>
    requires { SaysAsk (rows_of (found_of matches.now)) }
    ensures ok { IfOk result (λ ask. IsAskOf (rows_of (found_of matches.now)) ask) }
    ensures err { IfErr result (λ usage. IsAskUsage (rows_of (found_of matches.now)) usage) }
{
    let endpoint = match endpoint(alloc, matches) {
        Ok(endpoint) => endpoint,
        Err(Usage::Endpoint(_)) => return Err(Usage::Ask(AskFault::Place)),
        Err(_) => return Err(Usage::NoMemory),
    };
    match question(alloc, matches) {
        Ok(question) => {
            let wait = number(matches, "wait", 0, 3600);
            Ok(Ask {
                endpoint,
                wait,
                question,
            })
        }
        Err(usage) => Err(usage),
    }
}
