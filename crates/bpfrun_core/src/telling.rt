//! What is printed of a run, or of a refusal.

ghost use Rattle.std.specs.Prelude.{◌≡◌, option_map, string_bytes, None, IfOk};
ghost use Rattle.bpfjobs_cli.specs.Printed.{Prints};
ghost use Rattle.explain.specs.Lines.{numbered_text};
ghost use Rattle.bpfrun_core.specs.Printed.{AreWordsOf, IsRefusalText, memory_line, quote_text, ran_text};

use crate::answering::RunOptions;
use crate::fault::RunFault;
use bpfjobs_cli::Answer;
use explain::{LineMark, RefusalReport, SourceLine, refusal_words, report_text};
use refusal::NoMemory;
use std::alloc::Global;
use virtual_machine::Executed;

// The memory in hexadecimal, where it is shown.
fn memory_line(alloc: Global, memory: Option<&[u8]>) -> Result<String, NoMemory>
    ensures { IfOk result (λ line. string_bytes line
        ≡ memory_line (option_map (λ bytes. bytes.now) memory.entry)) }
{
    match memory {
        Some(bytes) => {
            let digits = hex::encode(alloc, bytes)?;
            Ok(format!(in alloc; "memory {}\n", digits.as_str())?)
        }
        None => Ok(String::new(alloc)),
    }
}

/// R0 and what the run spent, and the memory in hexadecimal where it is shown; with status 0.
pub(crate) fn tell_run(
    alloc: Global,
    done: Executed,
    memory: Option<&[u8]>,
) -> Result<Answer, NoMemory>
    ensures { IfOk result
        (λ answer. Prints answer.text.items answer.status answer.code
        (ran_text done.r0 done.used (option_map (λ bytes. bytes.now) memory.entry)) 0 None) }
{
    let line = memory_line(alloc, memory)?;
    let mut text = format!(in alloc; "r0 {}\nspent {}\n", done.r0, done.used)?;
    text.push_str(line.as_str())?;
    Ok(Answer {
        text: text.into_bytes(),
        status: 0,
        code: None,
    })
}

// The words of a refusal, behind the number that its text begins with.
fn words_of(text: &str) -> &str
    ensures { AreWordsOf text.now result.now }
{
    match text.split_once(' ') {
        Some((_number, words)) => words,
        None => text,
    }
}

// What a refusal quotes, as it is printed.
fn quote_text(alloc: Global, quote: Option<&str>) -> Result<String, NoMemory>
    ensures { IfOk result (λ text. string_bytes text
        ≡ quote_text (option_map (λ part. part.now) quote.entry)) }
{
    match quote {
        Some(part) => Ok(format!(in alloc; ": `{part}`")?),
        None => Ok(String::new(alloc)),
    }
}

/// What is wrong where a program doesn't run, if that isn't for the verifier.
pub(crate) fn words_of_fault(alloc: Global, fault: &RunFault) -> Result<String, NoMemory> {
    match fault {
        RunFault::Text(why) => Ok(format!(in alloc; "{}", refusal_words(why.code()))?),
        _ => {
            let text = format!(in alloc; "{fault}")?;
            Ok(format!(in alloc; "{}", words_of(text.as_str()))?)
        }
    }
}

// The part of a line in brackets, or all of it.
fn mark_of_place(line: &[u8]) -> LineMark {
    let mut start = 0;
    for at in 0..line.len() {
        if line[at] == b'[' {
            start = at;
        }
        if line[at] == b']' && start > 0 {
            return LineMark {
                start,
                length: (at + 1).saturating_sub(start),
            };
        }
    }
    LineMark {
        start: 0,
        length: line.len(),
    }
}

// The part of a line that a refusal is about: the word or the operands that it quotes, or the place
// in memory.
fn mark_of(fault: &RunFault, quote: Option<&str>, place: Option<SourceLine<'_>>) -> LineMark {
    let Some(line) = place else {
        return LineMark {
            start: 0,
            length: 0,
        };
    };
    let all = line.text.len();
    match (fault, quote) {
        (RunFault::Text(why), Some(part)) => {
            let length = part.len().min(all);
            let start = if why.code() == 11 { 0 } else { all - length };
            LineMark {
                start,
                length: length.max(1),
            }
        }
        _ => mark_of_place(line.text),
    }
}

/// The number of the refusal, its words and what it quotes, the line that it is about, and the
/// notes; with status 1.
pub(crate) fn tell_refusal(
    alloc: Global,
    asked: &RunOptions<'_>,
    fault: &RunFault,
    words: &str,
    quote: Option<&str>,
    place: Option<SourceLine<'_>>,
    notes: &[String],
) -> Result<Answer, NoMemory>
    ensures text { IfOk result
        (λ answer. IsRefusalText asked.now.file.now fault.now
        (option_map (λ part. part.now) quote.entry) (option_map numbered_text place.entry)
        answer.text.items) }
    ensures status { IfOk result (λ answer. answer.status ≡ 1) }
{
    let quoted = quote_text(alloc, quote)?;
    let words = format!(in alloc; "{words}{}", quoted.as_str())?;
    let report = RefusalReport {
        number: fault.code(),
        words: words.as_str(),
        file: asked.file,
        line: place,
        mark: mark_of(fault, quote, place),
        notes,
        is_coloured: asked.is_coloured,
    };
    Ok(Answer {
        text: report_text(alloc, &report)?,
        status: 1,
        code: Some(fault.code()),
    })
}
