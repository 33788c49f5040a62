//! The job of source files that the words of `job` say.

ghost use Rattle.std.specs.Prelude.{◌≡◌, IfErr, IfOk, Some, codes, map, option_and_then};
ghost use Rattle.clap.specs.Words.{first_of, found_of, rows_of};
ghost use Rattle.bpfjobs_cli.specs.Commands.{HasText, IsSourceJobOf, IsJobUsage, SaysJob, source_words};
ghost use Rattle.bpfjobs_cli.specs.JobUsages.{IsBufferUsage, IsScheduleUsage, IsWordsUsage};
ghost use Rattle.bpfjobs_cli.specs.JobWords.{buffer_said, said_source, schedule_by, source_said};

use crate::commands::Usage;
use crate::job_sources::{JobSources, ProgramSource};
use crate::job_words::{buffer_of_word, schedule_of_word, sources_of_words};
use crate::reading::number;
use clap::ArgMatches;
use std::alloc::Global;

// The buffer of a job.
fn buffer_of(alloc: Global, matches: &ArgMatches<'_>) -> Result<Vec<u8>, Usage>
    requires { HasText (rows_of (found_of matches.now)) (codes "buffer") }
    ensures ok { IfOk result (λ bytes. option_and_then buffer_said
        (first_of (codes "buffer") (rows_of (found_of matches.now))) ≡ Some bytes.items) }
    ensures err { IfErr result (λ usage.
        IsBufferUsage (first_of (codes "buffer") (rows_of (found_of matches.now))) usage) }
{
    match matches.get_str("buffer") {
        Some(word) => buffer_of_word(alloc, word),
        None => unreachable!(),
    }
}

// The schedule of a job.
fn schedule_of(alloc: Global, matches: &ArgMatches<'_>) -> Result<Vec<u32>, Usage>
    ensures ok { IfOk result (λ numbers. schedule_by
        (first_of (codes "schedule") (rows_of (found_of matches.now))) ≡ Some numbers.items) }
    ensures err { IfErr result (λ usage.
        IsScheduleUsage (first_of (codes "schedule") (rows_of (found_of matches.now))) usage) }
{
    match matches.get_str("schedule") {
        Some(word) => schedule_of_word(alloc, word),
        None => Ok(Vec::new(alloc)),
    }
}

// The sources of a job.
fn sources_of(alloc: Global, matches: &ArgMatches<'_>) -> Result<Vec<ProgramSource>, Usage>
    ensures ok { IfOk result (λ sources. map source_said
        (source_words (rows_of (found_of matches.now))) ≡ map said_source sources.items) }
    ensures err { IfErr result (λ usage.
        IsWordsUsage (source_words (rows_of (found_of matches.now))) usage) }
{
    match matches.get_strs("sources") {
        Some(words) => sources_of_words(alloc, words),
        None => Ok(Vec::new(alloc)),
    }
}

/// The job of source files that the words of `job` say.
#[tactic(auto, using(crate::proofs::JobUsageLemmas::buffer_usage, crate::proofs::JobUsageLemmas::schedule_usage, crate::proofs::JobUsageLemmas::sources_usage))]
pub(crate) fn job_of(alloc: Global, matches: &ArgMatches<'_>) -> Result<JobSources, Usage>
    requires { SaysJob (rows_of (found_of matches.now)) }
    ensures ok { IfOk result (λ job. IsSourceJobOf (rows_of (found_of matches.now)) job) }
    ensures err { IfErr result (λ usage. IsJobUsage (rows_of (found_of matches.now)) usage) }
{
    let buffer = match buffer_of(alloc, matches) {
        Ok(buffer) => buffer,
        Err(usage) => return Err(usage),
    };
    let schedule = match schedule_of(alloc, matches) {
        Ok(schedule) => schedule,
        Err(usage) => return Err(usage),
    };
    let sources = match sources_of(alloc, matches) {
        Ok(sources) => sources,
        Err(usage) => return Err(usage),
    };
    Ok(JobSources {
        credit: number(matches, "credit", 0, 4294967295),
        buffer,
        schedule,
        sources,
    })
}
