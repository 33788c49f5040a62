//! The text of a job object.

ghost use Rattle.std.specs.Prelude.{◌≡◌, IfOk, Some, map};
ghost use Rattle.hex.specs.Hex.{IsBytes};
ghost use Rattle.serde_json.specs.View.{view};
ghost use Rattle.serde_json.specs.Written.{compact_text};
ghost use Rattle.sessions.specs.Grammar.{all_of, number_between, program_asked, program_from};
ghost use Rattle.sessions.specs.Replies.{whole};
ghost use Rattle.bpfjobs_cli.specs.AskRequests.{asked_program};
ghost use Rattle.bpfjobs_cli.specs.JobTexts.{SaysJobObject, written_job};

use crate::asked_request::program_value;
use job_core::ProgramBytes;
use refusal::NoMemory;
use serde_json::{Value, json};
use sessions::JobObject;
use std::alloc::{AllocError, Global};

// For the proof: no byte is above 255.
fn tell_bytes(bytes: &[u8])
    ensures { IsBytes bytes.now }
{
    let _ = bytes;
}

// The value of a program, which reads back as the program.
fn written_program(alloc: Global, program: &ProgramBytes) -> Result<Value, AllocError>
    ensures value { IfOk result (λ v. view v ≡ asked_program program.now) }
    ensures back { IfOk result (λ v. program_from (view v) ≡ Some (program_asked program.now)) }
{
    // for the proof: the ranges of the number and of the bytes
    let _need: u32 = program.need;
    tell_bytes(&program.code);
    program_value(alloc, program)
}

// The values of programs, which read back as the programs.
fn written_programs(alloc: Global, programs: &[ProgramBytes]) -> Result<Vec<Value>, AllocError>
    ensures values { IfOk result (λ vs. map view vs.items ≡ map asked_program programs.now) }
    ensures back { IfOk result (λ vs. all_of program_from (map view vs.items)
        ≡ Some (map program_asked programs.now)) }
{
    let mut values = Vec::new(alloc);
    for program in programs {
        values.push(written_program(alloc, program)?)?;
    }
    Ok(values)
}

// The value of a number, which reads back as the number.
#[tactic(auto, using(crate::proofs::JobTextLemmas::number_back))]
fn written_number(alloc: Global, number: u32) -> Result<Value, AllocError>
    ensures value { IfOk result (λ v. view v ≡ whole number) }
    ensures back { IfOk result (λ v. number_between 0 4294967295 (view v) ≡ Some number) }
{
    json!(in alloc; number)
}

// The values of numbers, which read back as the numbers.
fn written_numbers(alloc: Global, numbers: &[u32]) -> Result<Vec<Value>, AllocError>
    ensures values { IfOk result (λ vs. map view vs.items ≡ map whole numbers.now) }
    ensures back { IfOk result (λ vs. all_of (number_between 0 4294967295) (map view vs.items)
        ≡ Some numbers.now) }
{
    let mut values = Vec::new(alloc);
    for number in numbers {
        values.push(written_number(alloc, *number)?)?;
    }
    Ok(values)
}

// The value of a job, of whose programs and schedule these are the values.
#[tactic(auto, unfolding(crate::specs::JobTexts::written_job))]
fn job_value(
    alloc: Global,
    job: &JobObject,
    programs: Vec<Value>,
    schedule: Vec<Value>,
) -> Result<Value, AllocError>
    requires programs { map view programs.items ≡ map asked_program job.now.programs.items }
    requires schedule { map view schedule.items ≡ map whole job.now.schedule.items }
    ensures { IfOk result (λ v. view v ≡ written_job job.now) }
{
    let buffer = hex::encode(alloc, &job.buffer)?;
    let programs = Value::Array(programs);
    let schedule = Value::Array(schedule);
    json!(in alloc; {"buffer": buffer.as_str(), "credit": job.credit, "programs": programs, "schedule": schedule})
}

/// The job as JSON: compact, with its members in ascending order of their names. The text says this
/// very job.
pub fn job_text(alloc: Global, job: &JobObject) -> Result<Vec<u8>, NoMemory>
    ensures text { IfOk result (λ text. text.items ≡ compact_text (written_job job.now)) }
    ensures says { IfOk result (λ text. SaysJobObject job.now text.items) }
{
    // for the proof: the ranges of the number and of the bytes
    let _credit: u32 = job.credit;
    tell_bytes(&job.buffer);
    let programs = written_programs(alloc, &job.programs)?;
    let schedule = written_numbers(alloc, &job.schedule)?;
    let value = job_value(alloc, job, programs, schedule)?;
    match value.to_vec(alloc) {
        Ok(text) => Ok(text),
        Err(_) => Err(NoMemory),
    }
}
