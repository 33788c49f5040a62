//! The steps of a job along a schedule, as lines of JSON.

ghost use Rattle.std.specs.Prelude.{◌≡◌, Err, List, length, map, string_bytes, IfOk};
ghost use Rattle.verifier.specs.Checked.{Checked};
ghost use Rattle.job_core.specs.Admission.{AreAccepted};
ghost use Rattle.reference.specs.Records.{move_of};
ghost use Rattle.reference.specs.declared.records.Unanswered.TheVariants as unanswered;
ghost use Rattle.run_trace.specs.Spelled.{listings_of, programs_of};
ghost use Rattle.telgovan_c.specs.JobTraces.{AreJobStepsWritten, AreLinesWritten, AreProgramsOf, StepsGoFar, HasSteps, IsJobTraced, program_told, unrefused_move};
ghost use Rattle.telgovan_c.specs.Traces.{AreLines};

use crate::admitting::{CutJob, admit_pieces};
use crate::jobs::{CodePiece, JobReport, copied};
use crate::texts::{Written, refused_text, write_into};
use job_core::ProgramBytes;
use reference::{ReferenceMove, Unanswered};
use refusal::NoMemory;
use run_trace::{JobJson, JobPrograms, JobStep, trace_job};
use std::alloc::Global;

// A task traps on the way, as none does of a job that is admitted.
const TRAPS: u32 = 47;
// A number over its limit.
const OVER_LIMIT: u32 = 65;
// No memory was left.
const NO_MEMORY: u32 = 99;

// A line for each step.
fn job_lines(alloc: Global, steps: &[JobStep]) -> Result<String, NoMemory>
    ensures { IfOk result (λ text. AreLines (length steps.now) (string_bytes text)) }
{
    let mut text = String::new(alloc);
    let mut done = 0;
    while done < steps.len() {
        text.push_str(format!(in alloc; "{}", JobJson(&steps[done]))?.as_str())?;
        text.push('\n')?;
        done += 1;
    }
    Ok(text)
}

// The programs of a job, which are accepted.
fn job_programs(alloc: Global, programs: &[ProgramBytes]) -> Result<JobPrograms, NoMemory>
    requires { (accepted : List Checked) × AreAccepted programs.now accepted }
    ensures { IfOk result
        (λ ps. AreProgramsOf programs.now (listings_of ps) (programs_of ps)) }
{
    let mut found = JobPrograms::none(alloc);
    for program in programs {
        found.add(alloc, program.need, &program.code)?;
    }
    Ok(found)
}

// The entries of a schedule, at which no spawn is refused.
fn moves_of(alloc: Global, schedule: &[u32]) -> Result<Vec<ReferenceMove>, NoMemory>
    ensures { IfOk result (λ moves. map move_of moves.items ≡ map unrefused_move schedule.now) }
{
    let mut moves = Vec::new(alloc);
    for number in schedule {
        moves.push(ReferenceMove {
            number: *number as usize,
            refuses: false,
        })?;
    }
    Ok(moves)
}

// The steps of a job of these programs along a schedule.
fn steps_along(
    alloc: Global,
    programs: &[ProgramBytes],
    credit: u32,
    buffer: &[u8],
    schedule: &[u32],
) -> Result<Option<Vec<JobStep>>, Unanswered>
    requires { (accepted : List Checked) × AreAccepted programs.now accepted }
    ensures steps { IfOk result
        (λ told. HasSteps programs.now credit buffer.now schedule.now told) }
    ensures far { result ≡ Err unanswered.TooLarge
        → StepsGoFar programs.now credit buffer.now schedule.now }
{
    let listed = job_programs(alloc, programs)?;
    let own = copied(alloc, buffer)?;
    let moves = moves_of(alloc, schedule)?;
    trace_job(alloc, &listed, credit, own, &moves)
}

// The lines of steps, into the room.
fn write_job_steps(alloc: Global, steps: &[JobStep], room: &mut [u8]) -> Written
    ensures { AreLinesWritten (length steps.now) room.old room.new result }
{
    match job_lines(alloc, steps) {
        Ok(text) => write_into(text.as_bytes(), room),
        Err(_) => refused_text(NO_MEMORY, None),
    }
}

// The steps of a job of these programs along a schedule, into the room.
fn trace_programs(
    alloc: Global,
    programs: &[ProgramBytes],
    credit: u32,
    buffer: &[u8],
    schedule: &[u32],
    room: &mut [u8],
) -> Written
    requires { (accepted : List Checked) × AreAccepted programs.now accepted }
    ensures { AreJobStepsWritten programs.now credit buffer.now schedule.now room.old room.new
        result }
{
    match steps_along(alloc, programs, credit, buffer, schedule) {
        Ok(Some(steps)) => write_job_steps(alloc, &steps, room),
        Ok(None) => refused_text(TRAPS, None),
        Err(Unanswered::NoMemory) => refused_text(NO_MEMORY, None),
        Err(Unanswered::TooLarge) => refused_text(OVER_LIMIT, None),
    }
}

// The steps of a job of these pieces along a schedule, into the room, or why there is no job.
fn trace_pieces(
    alloc: Global,
    code: &[u8],
    pieces: &[CodePiece],
    credit: u32,
    buffer: &[u8],
    schedule: &[u32],
    room: &mut [u8],
) -> Written
    ensures { IsJobTraced code.now pieces.now credit buffer.now schedule.now room.old room.new
        result }
{
    match admit_pieces(alloc, code, pieces, credit, buffer) {
        Ok(found) => {
            let CutJob { programs, .. } = found;
            trace_programs(alloc, &programs, credit, buffer, schedule, room)
        }
        Err(told) => refused_text(told.status, program_told(&told)),
    }
}

// The place of the program that a report is about.
fn program_told(report: &JobReport) -> Option<u64>
    ensures { result ≡ program_told report.now }
{
    if report.has_program {
        Some(report.program as u64)
    } else {
        None
    }
}

/// Admits a job of the programs that these pieces of the code are, of which the first is the
/// root's, and writes its steps along a schedule: a JSON object a step, each with a line feed
/// behind it. An entry of the schedule is the number of the task that goes next; one that names no
/// live task tells nothing. No spawn that passes its tests is refused. The buffer stays as it was.
///
/// It answers the status: that of the job's refusal, as by `telgovan_job`, with the place of the
/// program that it is about; 65 where the steps don't fit, with the length that they take, or 99.
/// 65 of length 0 also tells of a pointer's position that has more than 64 bits, and 47 of a task
/// that traps, which no task does whose program was accepted.
#[unsafe(no_mangle)]
pub extern "C" fn telgovan_job_trace(
    alloc: Global,
    code: &[u8],
    pieces: &[CodePiece],
    credit: u32,
    buffer: &[u8],
    schedule: &[u32],
    room: &mut [u8],
    told: &mut Written,
) -> u32
    ensures traced { IsJobTraced code.now pieces.now credit buffer.now schedule.now room.old
        room.new told.new }
    ensures status { result ≡ told.new.status }
{
    *told = trace_pieces(alloc, code, pieces, credit, buffer, schedule, room);
    told.status
}
