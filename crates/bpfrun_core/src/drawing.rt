//! The graph of a program, drawn.

ghost use Rattle.std.specs.Prelude.{◌≡◌, option_map, IfOk};
ghost use Rattle.bpfrun_core.specs.Answered.{need_of};
ghost use Rattle.bpfrun_core.specs.Drawn.{IsDrawn, IsDrawnCode, picture_status};

use crate::answering::{RunOptions, answer_refusal, need_of, print_refusal};
use crate::fault::RunFault;
use crate::reading::{bytes_of, source_of};
use bpfjobs_cli::Answer;
use explain::{Picture, picture_of};
use helpers::HelperTable;
use refusal::NoMemory;
use run_trace::Drawing;
use std::alloc::Global;
use verifier::Refusal;

// 0 where the program is accepted, and else 1.
fn status_of(picture: &Picture) -> u8
    ensures { result ≡ picture_status picture.now }
{
    match &picture.why {
        None => 0,
        Some(_) => 1,
    }
}

// What is drawn of the bytes of a program.
fn draw_code(
    alloc: Global,
    asked: &RunOptions<'_>,
    need: u32,
    input: &[u8],
    code: &[u8],
) -> Result<Answer, NoMemory>
    ensures { IfOk result (λ answer. IsDrawnCode asked.now need input.now code.now
        answer.text.items answer.status) }
{
    let source = source_of(asked.form, input);
    match picture_of(alloc, need, code, &HelperTable::job(), source) {
        Ok(picture) => Ok(Answer {
            text: format!(in alloc; "{}", Drawing(&picture))?.into_bytes(),
            status: status_of(&picture),
            code: None,
        }),
        Err(Refusal::NoMemory) => Err(NoMemory),
        Err(refusal) => answer_refusal(alloc, asked, need, input, code, refusal),
    }
}

/// The graph of a program as text in the language DOT, of the need with which
/// [`answer`](crate::answer) verifies it; with status 1 where an instruction isn't allowed. What
/// [`answer`](crate::answer) tells where a program has no graph.
pub fn draw(
    alloc: Global,
    asked: &RunOptions<'_>,
    input: &[u8],
    memory: Option<&[u8]>,
) -> Result<Answer, NoMemory>
    ensures { IfOk result (λ answer. IsDrawn asked.now
        (need_of asked.now.need (option_map (λ bytes. bytes.now) memory.entry)) input.now
        answer.text.items answer.status) }
{
    let need = need_of(asked.need, memory);
    match bytes_of(alloc, asked.form, input) {
        Ok(code) => draw_code(alloc, asked, need, input, &code),
        Err(RunFault::NoMemory) => Err(NoMemory),
        Err(fault) => print_refusal(alloc, asked, input, &[], &fault),
    }
}
