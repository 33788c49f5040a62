//! The steps of a program's run, to be shown beside what it comes to.

ghost use Rattle.std.specs.Prelude.{◌≡◌, ◌≤◌, option_map, string_bytes, IfOk, MatchOption};
ghost use Rattle.machine_model.specs.Limits.{max_credit};
ghost use Rattle.bpfrun_core.specs.Answered.{need_of, starting_memory};
ghost use Rattle.bpfrun_core.specs.Lines.{object_line, object_lines, step_line, step_lines};
ghost use Rattle.bpfrun_core.specs.Traced.{IsTraced, IsUntraced};

use crate::answering::{RunOptions, need_of};
use crate::fault::RunFault;
use crate::reading::{bytes_of, source_of};
use crate::running::run;
use machine_model::MAX_PART;
use reference::Unanswered;
use refusal::NoMemory;
use run_trace::{Json, Step, Trace, trace_run};
use std::alloc::Global;

/// The part of a program at its start: its memory, or else as many zeros as it needs.
fn part_of(alloc: Global, need: Option<u32>, memory: Option<&[u8]>) -> Result<Vec<u8>, NoMemory>
    ensures { IfOk result (λ part. part.items
        ≡ starting_memory need (option_map (λ bytes. bytes.now) memory.entry)) }
{
    match memory {
        Some(memory) => {
            let mut part = Vec::new(alloc);
            part.extend_from_slice(memory)?;
            Ok(part)
        }
        None => {
            let need = need_of(need, None);
            let part = vec![in alloc; 0u8; (need as usize).min(MAX_PART)]?;
            Ok(part)
        }
    }
}

/// The steps of a program's run, as [`answer`](crate::answer) tells what it comes to; none where
/// the program doesn't run. Refused for want of memory, and where a pointer's position on the way
/// has more than 64 bits.
pub fn trace(
    alloc: Global,
    asked: &RunOptions<'_>,
    input: &[u8],
    memory: Option<&[u8]>,
) -> Result<Option<Trace>, Unanswered>
    requires limit { asked.now.credit ≤ max_credit }
    ensures { IfOk result (λ told. MatchOption told
        (IsUntraced asked.now input.now (option_map (λ bytes. bytes.now) memory.entry))
        (λ trace. IsTraced asked.now input.now (option_map (λ bytes. bytes.now) memory.entry)
        trace)) }
{
    let code = match bytes_of(alloc, asked.form, input) {
        Ok(code) => code,
        Err(RunFault::NoMemory) => return Err(Unanswered::NoMemory),
        Err(_) => return Ok(None),
    };
    let need = need_of(asked.need, memory);
    let start = part_of(alloc, asked.need, memory)?;
    let mut part = part_of(alloc, asked.need, memory)?;
    match run(alloc, need, &code, &mut part, asked.arg, asked.credit) {
        Ok(_) => {
            let source = source_of(asked.form, input);
            let steps = trace_run(alloc, &code, source, &start, asked.arg, asked.credit)?;
            Ok(Some(steps))
        }
        Err(RunFault::NoMemory) => Err(Unanswered::NoMemory),
        Err(_) => Ok(None),
    }
}

/// The line of a step.
#[tactic(auto, unfolding(crate::specs::Lines::step_line))]
fn step_line(alloc: Global, step: &Step) -> Result<String, NoMemory>
    ensures { IfOk result (λ line. string_bytes line ≡ step_line step.now) }
{
    Ok(format!(in alloc; "{step}\n")?)
}

/// A line for each step.
pub fn step_lines(alloc: Global, trace: &Trace) -> Result<String, NoMemory>
    ensures { IfOk result (λ text. string_bytes text ≡ step_lines trace.now.steps.items) }
{
    let steps: &[Step] = &trace.steps;
    let mut text = String::new(alloc);
    for step in steps {
        let line = step_line(alloc, step)?;
        text.push_str(line.as_str())?;
    }
    Ok(text)
}

/// The JSON object of a step, on a line.
#[tactic(auto, unfolding(crate::specs::Lines::object_line))]
fn object_line(alloc: Global, step: &Step) -> Result<String, NoMemory>
    ensures { IfOk result (λ line. string_bytes line ≡ object_line step.now) }
{
    Ok(format!(in alloc; "{}\n", Json(step))?)
}

/// A JSON object for each step, on a line each.
pub fn step_objects(alloc: Global, trace: &Trace) -> Result<String, NoMemory>
    ensures { IfOk result (λ text. string_bytes text ≡ object_lines trace.now.steps.items) }
{
    let steps: &[Step] = &trace.steps;
    let mut text = String::new(alloc);
    for step in steps {
        let line = object_line(alloc, step)?;
        text.push_str(line.as_str())?;
    }
    Ok(text)
}
