//! What is answered to whoever tries a program.

ghost use Rattle.std.specs.Prelude.{◌≡◌, ◌≢◌, ◌≤◌, List, ℕ, Bool, option_map, is_some, true, IfOk, IfSome};
ghost use Rattle.helpers.specs.Table.{job_table};
ghost use Rattle.bpfrun_core.specs.Answered.{AreExplained, PrintsRefusal, IsJudged, IsRejected, IsTried, need_of, starting_memory};
ghost use Rattle.bpfrun_core.specs.declared.fault.RunFault.TheVariants as fault_variant;
ghost use Rattle.machine_model.specs.Limits.{max_credit};

use crate::fault::RunFault;
use crate::form::FileForm;
use crate::helping::help_of;
use crate::noting::{notes_of, words_of};
use crate::place::{place_of, quote_of};
use crate::reading::{bytes_of, source_of};
use crate::running::run;
use crate::telling::{tell_refusal, tell_run, words_of_fault};
use bpfjobs_cli::Answer;
use explain::{Explanation, explain, explain_all};
use helpers::HelperTable;
use machine_model::MAX_PART;
use refusal::NoMemory;
use std::alloc::Global;
use verifier::Refusal;

/// How a program is tried.
#[derive(Clone, Copy, Debug, PartialEq, Eq)]
pub struct RunOptions<'a> {
    /// The path of the program.
    pub file: &'a str,
    pub form: FileForm,
    /// How many bytes of its part it needs; if that isn't said, all of its memory, and none without
    /// one.
    pub need: Option<u32>,
    pub arg: u64,
    pub credit: u32,
    /// A refusal of the verifier is to be explained.
    pub explains: bool,
    /// Each instruction that isn't allowed is to be explained.
    pub explains_all: bool,
    /// What is wrong is red on a terminal.
    pub is_coloured: bool,
}

// The need that holds.
pub(crate) fn need_of(need: Option<u32>, memory: Option<&[u8]>) -> u32
    ensures { result ≡ need_of need (option_map (λ bytes. bytes.now) memory.entry) }
{
    match need {
        Some(need) => need,
        None => match memory {
            Some(memory) => memory.len().min(MAX_PART) as u32,
            None => 0,
        },
    }
}

// The reports, with an empty line between two.
fn text_of(
    alloc: Global,
    asked: &RunOptions<'_>,
    need: u32,
    input: &[u8],
    code: &[u8],
    list: &[Explanation],
) -> Result<Vec<u8>, NoMemory> {
    let mut text = Vec::new(alloc);
    for why in list {
        if !text.is_empty() {
            text.push(b'\n')?;
        }
        let answer = print_explained(alloc, asked, need, input, code, why.refusal, why)?;
        text.extend_from_slice(&answer.text)?;
    }
    Ok(text)
}

// Why each instruction isn't allowed that isn't; none where all are.
fn explain_faults(
    alloc: Global,
    asked: &RunOptions<'_>,
    need: u32,
    input: &[u8],
    code: &[u8],
) -> Result<Option<Answer>, NoMemory>
    ensures { IfOk result (λ told. IfSome told (λ answer. AreExplained need code.now
        × (answer.status ≡ 1))) }
{
    let list = explain_all(
        alloc,
        need,
        code,
        &HelperTable::job(),
        source_of(asked.form, input),
    )?;
    if list.is_empty() {
        return Ok(None);
    }
    let number = match list.first() {
        Some(why) => Some(why.refusal.code()),
        None => None,
    };
    Ok(Some(Answer {
        text: text_of(alloc, asked, need, input, code, &list)?,
        status: 1,
        code: number,
    }))
}

// The lines of a refusal, with these words and these notes.
fn print_report(
    alloc: Global,
    asked: &RunOptions<'_>,
    input: &[u8],
    code: &[u8],
    fault: &RunFault,
    words: &str,
    notes: &[String],
) -> Result<Answer, NoMemory>
    requires { fault.now ≢ fault_variant.NoMemory }
    ensures { IfOk result
        (λ answer. PrintsRefusal asked.now input.now code.now fault.now answer.text.items
        answer.status) }
{
    let place = place_of(alloc, asked.form, input, code, fault)?;
    tell_refusal(
        alloc,
        asked,
        fault,
        words,
        quote_of(input, fault),
        place,
        notes,
    )
}

// The lines of a refusal that isn't explained.
pub(crate) fn print_refusal(
    alloc: Global,
    asked: &RunOptions<'_>,
    input: &[u8],
    code: &[u8],
    fault: &RunFault,
) -> Result<Answer, NoMemory>
    requires { fault.now ≢ fault_variant.NoMemory }
    ensures { IfOk result
        (λ answer. PrintsRefusal asked.now input.now code.now fault.now answer.text.items
        answer.status) }
{
    let words = words_of_fault(alloc, fault)?;
    let help = help_of(alloc, input, fault, quote_of(input, fault))?;
    let mut notes = Vec::new(alloc);
    notes.push(format!(in alloc; "help: {}", help.as_str())?)?;
    print_report(alloc, asked, input, code, fault, words.as_str(), &notes)
}

// The lines of an explanation.
fn print_explained(
    alloc: Global,
    asked: &RunOptions<'_>,
    need: u32,
    input: &[u8],
    code: &[u8],
    refusal: Refusal,
    why: &Explanation,
) -> Result<Answer, NoMemory>
    ensures { IfOk result (λ answer. PrintsRefusal asked.now input.now code.now
        (fault_variant.Program refusal) answer.text.items answer.status) }
{
    let words = words_of(alloc, need, why)?;
    let notes = notes_of(alloc, asked, input, code, why)?;
    let fault = RunFault::Program(refusal);
    print_report(alloc, asked, input, code, &fault, words.as_str(), &notes)
}

// What is answered where the verifier refuses a program.
pub(crate) fn answer_refusal(
    alloc: Global,
    asked: &RunOptions<'_>,
    need: u32,
    input: &[u8],
    code: &[u8],
    refusal: Refusal,
) -> Result<Answer, NoMemory>
    ensures { IfOk result
        (λ answer. IsRejected asked.now need input.now code.now refusal answer.text.items
        answer.status) }
{
    if asked.explains_all {
        if let Some(answer) = explain_faults(alloc, asked, need, input, code)? {
            return Ok(answer);
        }
    }
    let source = source_of(asked.form, input);
    match explain(alloc, need, code, &HelperTable::job(), source)? {
        Some(why) => print_explained(alloc, asked, need, input, code, refusal, &why),
        None => print_refusal(alloc, asked, input, code, &RunFault::Program(refusal)),
    }
}

// What is answered to the bytes of a program.
fn answer_code(
    alloc: Global,
    asked: &RunOptions<'_>,
    need: u32,
    input: &[u8],
    code: &[u8],
    memory: &mut [u8],
    is_shown: bool,
) -> Result<Answer, NoMemory>
    requires limit { asked.now.credit ≤ max_credit }
    ensures { IfOk result
        (λ answer. IsJudged asked.now need input.now code.now memory.old memory.new is_shown
        answer.text.items answer.status) }
{
    match run(alloc, need, code, memory, asked.arg, asked.credit) {
        Ok(done) if is_shown => tell_run(alloc, done, Some(memory)),
        Ok(done) => tell_run(alloc, done, None),
        Err(RunFault::NoMemory) => Err(NoMemory),
        Err(RunFault::Program(refusal)) => answer_refusal(alloc, asked, need, input, code, refusal),
        Err(fault) => print_refusal(alloc, asked, input, code, &fault),
    }
}

// What is answered to a program with this memory, which is shown or not.
fn answer_input(
    alloc: Global,
    asked: &RunOptions<'_>,
    need: u32,
    input: &[u8],
    memory: &mut [u8],
    is_shown: bool,
) -> Result<Answer, NoMemory>
    requires limit { asked.now.credit ≤ max_credit }
    ensures { IfOk result
        (λ answer. IsTried asked.now need input.now memory.old memory.new is_shown
        answer.text.items answer.status) }
{
    match bytes_of(alloc, asked.form, input) {
        Ok(code) => answer_code(alloc, asked, need, input, &code, memory, is_shown),
        Err(RunFault::NoMemory) => Err(NoMemory),
        Err(fault) => print_refusal(alloc, asked, input, &[], &fault),
    }
}

/// What is answered to a program: what its run comes to on the memory, or the refusal, with its
/// line or the verifier's explanation. Without a memory its part is as many zeros as it needs, and
/// without a need it needs the whole memory. The call asks for a credit of at most 2,147,483,647.
pub fn answer(
    alloc: Global,
    asked: &RunOptions<'_>,
    input: &[u8],
    memory: Option<Vec<u8>>,
) -> Result<Answer, NoMemory>
    requires limit { asked.now.credit ≤ max_credit }
    ensures { IfOk result (λ answer. (left : List ℕ)
        × IsTried asked.now (need_of asked.now.need (option_map (λ m. m.items) memory))
        input.now
        (starting_memory asked.now.need (option_map (λ m. m.items) memory)) left (is_some memory)
        answer.text.items answer.status) }
{
    match memory {
        Some(mut memory) => {
            let need = need_of(asked.need, Some(&memory));
            answer_input(alloc, asked, need, input, &mut memory, true)
        }
        None => {
            let need = need_of(asked.need, None);
            let mut zeros = vec![in alloc; 0u8; (need as usize).min(MAX_PART)]?;
            answer_input(alloc, asked, need, input, &mut zeros, false)
        }
    }
}
