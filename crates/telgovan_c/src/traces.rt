//! The steps of a run, as lines of JSON.

ghost use Rattle.std.specs.Prelude.{◌≡◌, ℕ, length, string_bytes, IfOk};
ghost use Rattle.helpers.specs.Table.{job_table};
ghost use Rattle.verifier.specs.Refusals.{IsAccepted};
ghost use Rattle.run_trace.specs.Traces.{Runs};
ghost use Rattle.telgovan_c.specs.Traces.{AreLines, AreStepsWritten, IsProgramTraced, IsTraceTold};

use crate::runs::run_program;
use crate::texts::{Written, place_of, refused_text, source_in, write_into};
use helpers::HelperTable;
use machine_model::MAX_PART;
use reference::Unanswered;
use refusal::NoMemory;
use run_trace::{Json, Step, trace_run};
use std::alloc::Global;
use verifier::{Verified, verify};

// A number over its limit.
const OVER_LIMIT: u32 = 65;
// No memory was left.
const NO_MEMORY: u32 = 99;

// A line for each step.
fn lines_of(alloc: Global, steps: &[Step]) -> Result<String, NoMemory>
    ensures { IfOk result (λ text. AreLines (length steps.now) (string_bytes text)) }
{
    let mut text = String::new(alloc);
    let mut done = 0;
    while done < steps.len() {
        text.push_str(format!(in alloc; "{}", Json(&steps[done]))?.as_str())?;
        text.push('\n')?;
        done += 1;
    }
    Ok(text)
}

// The steps of a run that ends, into the room.
fn write_steps(
    alloc: Global,
    code: &[u8],
    source: &[u8],
    credit: u32,
    argument: u64,
    memory: &[u8],
    room: &mut [u8],
) -> Written
    requires runs { Runs code.now argument credit memory.now }
    ensures { AreStepsWritten code.now source.now argument credit memory.now room.old room.new
        result }
{
    match trace_run(alloc, code, source_in(source), memory, argument, credit) {
        Ok(trace) => match lines_of(alloc, &trace.steps) {
            Ok(text) => write_into(text.as_bytes(), room),
            Err(_) => refused_text(NO_MEMORY, None),
        },
        Err(Unanswered::NoMemory) => refused_text(NO_MEMORY, None),
        Err(Unanswered::TooLarge) => refused_text(OVER_LIMIT, None),
    }
}

// The same bytes once more.
fn copied(alloc: Global, bytes: &[u8]) -> Result<Vec<u8>, NoMemory>
    ensures { IfOk result (λ copy. copy.items ≡ bytes.now) }
{
    let mut copy = Vec::new(alloc);
    copy.extend_from_slice(bytes)?;
    Ok(copy)
}

// The steps of the run of a program that is accepted, into the room, or why it doesn't run. A run
// on a copy of the memory tells which.
fn trace_program(
    alloc: Global,
    program: &Verified,
    code: &[u8],
    source: &[u8],
    credit: u32,
    argument: u64,
    memory: &[u8],
    room: &mut [u8],
) -> Written
    requires accepted { (need : ℕ) × IsAccepted need code.now job_table program.now }
    ensures { IsProgramTraced program.now code.now source.now argument credit memory.now room.old
        room.new
        result }
{
    if memory.len() > MAX_PART {
        return refused_text(OVER_LIMIT, None);
    }
    let mut part = match copied(alloc, memory) {
        Ok(part) => part,
        Err(_) => return refused_text(NO_MEMORY, None),
    };
    let done = run_program(alloc, program, &mut part, argument, credit);
    if done.status != 0 {
        return refused_text(done.status, None);
    }
    write_steps(alloc, code, source, credit, argument, memory, room)
}

// A program verified, and the steps of its run, into the room.
fn trace_into(
    alloc: Global,
    need: u32,
    code: &[u8],
    source: &[u8],
    credit: u32,
    argument: u64,
    memory: &[u8],
    room: &mut [u8],
) -> Written
    ensures { IsTraceTold need code.now source.now argument credit memory.now room.old room.new
        result }
{
    match verify(alloc, need, code, &HelperTable::job()) {
        Ok(program) => trace_program(
            alloc, &program, code, source, credit, argument, memory, room,
        ),
        Err(refusal) => refused_text(u32::from(refusal.code()), place_of(refusal.slot())),
    }
}

/// Verifies a program of this need, with the helpers of a job, and writes the steps of its run on
/// this memory, which stays as it is: a JSON object a step, each with a line feed behind it. It
/// answers the status: that of the verdict with the slot as the place where the program is refused,
/// else that of the run where it doesn't run; 65 where the steps don't fit, with the length that
/// they take, or 99. A source text gives the lines. 65 of length 0 also tells of a pointer's
/// position that has more than 64 bits.
#[unsafe(no_mangle)]
pub extern "C" fn telgovan_trace(
    alloc: Global,
    need: u32,
    code: &[u8],
    source: &[u8],
    credit: u32,
    argument: u64,
    memory: &[u8],
    room: &mut [u8],
    told: &mut Written,
) -> u32
    ensures traced { IsTraceTold need code.now source.now argument credit memory.now room.old
        room.new told.new }
    ensures status { result ≡ told.new.status }
{
    *told = trace_into(alloc, need, code, source, credit, argument, memory, room);
    told.status
}
