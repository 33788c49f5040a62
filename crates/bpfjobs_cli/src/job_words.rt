//! The files, the buffer and the schedule that the words of `job` say.

ghost use Rattle.std.specs.Prelude.{◌≡◌, ◌*◌, ◌≤◌, ℕ, IfErr, IfOk, Err, None, Ok, Some, length, map, option_map, string_bytes};
ghost use Rattle.hex.specs.Hex.{decode_of};
ghost use Rattle.hex.specs.declared.error.FromHexError.{FromHexError as HexError};
ghost use Rattle.bpfjobs_cli.specs.JobUsages.{IsBufferUsage, IsScheduleUsage, IsSourceUsage, IsWordsUsage};
ghost use Rattle.bpfjobs_cli.specs.JobWords.{buffer_said, repeated, said_source, schedule_said, source_said, times_said};
ghost use Rattle.bpfjobs_cli.specs.declared.hexadecimal.Unread.TheVariants as unread;

use crate::commands::Usage;
use crate::hexadecimal::{Unread, why};
use crate::job_sources::{JobWordFault, ProgramSource};
use crate::tenant_number::number_said;
use crate::tenant_text::{Delimiter, cut_at};
use std::alloc::{AllocError, Global};

const MOST_BYTES: usize = 65_536;

const MOST_TIMES: u32 = 65_536;

// The path and the need that a word says, if it says them.
#[tactic(auto, unfolding(crate::specs::JobWords::source_said))]
fn source_said(word: &str) -> Option<(&str, u32)>
    ensures { option_map (λ said. (said.0.now, said.1)) result ≡ source_said word.now }
{
    match word.rsplit_once(':') {
        Some((path, digits)) => match number_said(digits.as_bytes(), 0, u32::MAX) {
            Some(need) => Some((path, need)),
            None => None,
        },
        None => None,
    }
}

// The source that a word says.
fn program_source(alloc: Global, word: &str) -> Result<ProgramSource, Usage>
    ensures ok { IfOk result (λ source. source_said word.now ≡ said_source source) }
    ensures err { IfErr result (λ usage. IsSourceUsage word.now usage) }
{
    match source_said(word) {
        Some((path, need)) => Ok(ProgramSource {
            path: String::from_str(alloc, path)?,
            need,
        }),
        None => Err(Usage::Job(JobWordFault::Source(String::from_str(alloc, word)?))),
    }
}

/// The sources that words say, in their order; or a word that says none.
pub(crate) fn sources_of_words(alloc: Global, words: &[&str]) -> Result<Vec<ProgramSource>, Usage>
    ensures ok { IfOk result (λ sources. map source_said (map (λ word. word.now) words.now)
        ≡ map said_source sources.items) }
    ensures err { IfErr result (λ usage. IsWordsUsage (map (λ word. word.now) words.now) usage) }
{
    let mut sources = Vec::new(alloc);
    for n in 0..words.len() {
        let source = match program_source(alloc, words[n]) {
            Ok(source) => source,
            Err(usage) => return Err(usage),
        };
        sources.reserve(1)?;
        sources.push_reserved(source);
    }
    Ok(sources)
}

// The bytes that a text writes in hexadecimal.
fn decoded(alloc: Global, text: &[u8]) -> Result<Vec<u8>, Unread>
    ensures ok { IfOk result (λ bytes. decode_of text.now ≡ Ok bytes.items) }
    ensures err { IfErr result (λ why. why ≡ unread.NotHexadecimal
        → (error : HexError) × (decode_of text.now ≡ Err error)) }
{
    match hex::decode(alloc, text) {
        Ok(bytes) => Ok(bytes),
        Err(error) => Err(why(error)),
    }
}

// The count behind a star; one, where nothing is.
#[tactic(auto, unfolding(crate::specs::JobWords::times_said))]
fn times_said(text: &[u8]) -> Option<u32>
    ensures { result ≡ times_said text.now }
{
    if text.is_empty() {
        return Some(1);
    }
    number_said(text.split_at(1).1, 1, MOST_TIMES)
}

// Bytes, so often one after the other.
#[tactic(auto, using(crate::proofs::JobWordLemmas::repeated_more))]
fn repeated(alloc: Global, bytes: &[u8], times: u32) -> Result<Vec<u8>, AllocError>
    ensures { IfOk result (λ all. all.items ≡ repeated times bytes.now) }
{
    let mut all = Vec::new(alloc);
    for _ in 0..times {
        all.extend_from_slice(bytes)?;
    }
    Ok(all)
}

// Whether so many times so many bytes are 65,536 at most.
fn are_short(times: u32, count: usize) -> bool
    requires { times ≤ 65536 }
    ensures { result ≡ Rattle.bpfjobs_cli.specs.JobWords.are_short times count }
{
    if count > MOST_BYTES {
        return false;
    }
    times as usize * count <= MOST_BYTES
}

/// The bytes of a buffer `HEX`, or `HEX*COUNT`: 65,536 at most.
#[tactic(auto, unfolding(crate::specs::JobWords::buffer_said, crate::specs::JobWords::if_short))]
pub(crate) fn buffer_of_word(alloc: Global, word: &str) -> Result<Vec<u8>, Usage>
    ensures ok { IfOk result (λ bytes. buffer_said word.now ≡ Some bytes.items) }
    ensures err { IfErr result (λ usage. IsBufferUsage (Some word.now) usage) }
{
    let (hexadecimal, rest) = cut_at(word.as_bytes(), Delimiter::Star);
    let Some(times) = times_said(rest) else {
        return Err(Usage::Job(JobWordFault::Buffer));
    };
    let bytes = match decoded(alloc, hexadecimal) {
        Ok(bytes) => bytes,
        Err(Unread::NotHexadecimal) => return Err(Usage::Job(JobWordFault::Buffer)),
        Err(Unread::NoMemory) => return Err(Usage::NoMemory),
    };
    if !are_short(times, bytes.len()) {
        return Err(Usage::Job(JobWordFault::Buffer));
    }
    Ok(repeated(alloc, &bytes, times)?)
}

/// The numbers of a schedule, with a comma between two.
pub(crate) fn schedule_of_word(alloc: Global, word: &str) -> Result<Vec<u32>, Usage>
    ensures ok { IfOk result (λ numbers. schedule_said word.now ≡ Some numbers.items) }
    ensures err { IfErr result (λ usage. IsScheduleUsage (Some word.now) usage) }
{
    let mut numbers = Vec::new(alloc);
    let mut rest = word.as_bytes();
    loop {
        let (digits, tail) = cut_at(rest, Delimiter::Comma);
        let Some(number) = number_said(digits, 0, u32::MAX) else {
            return Err(Usage::Job(JobWordFault::Schedule));
        };
        numbers.reserve(1)?;
        numbers.push_reserved(number);
        if tail.is_empty() {
            return Ok(numbers);
        }
        rest = tail.split_at(1).1;
    }
}
