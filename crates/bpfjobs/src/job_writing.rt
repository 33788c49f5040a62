//! The command `job`: the job object of source files.

use crate::command_input::unread;
use crate::input_faults::tell_refusal;
use crate::printing::print_text;
use assembler::{TextFault, assemble};
use bpfjobs_cli::{FAILED, JobSources, ProgramSource, job_text};
use job_core::ProgramBytes;
use sessions::JobObject;
use std::alloc::Global;
use std::fs;
use std::fs::Files;

// The status where a source is refused.
const REFUSED: u8 = 1;

// The refusal of a source that is no UTF-8.
const NOT_TEXT: u8 = 73;

// Tells that there is no memory, and gives the status.
fn no_memory<R: Eprint>(rt: &R) -> u8 {
    let _ = eprintln!(rt; "bpfjobs: there is no memory for the job");
    FAILED
}

// The program of a source. Where there is none, a line tells why, and this is the status.
fn program_of<R>(rt: &R, alloc: Global, source: &ProgramSource) -> Result<ProgramBytes, u8>
where
    R: Files + Eprint + AllocGlobal,
{
    let path = source.path.as_str();
    let bytes = match fs::read(rt, path) {
        Ok(bytes) => bytes,
        Err(error) => return Err(unread(rt, path, &error)),
    };
    let Ok(text) = str::from_utf8(&bytes) else {
        tell_refusal(rt, Some(path), None, NOT_TEXT);
        return Err(REFUSED);
    };
    match assemble(alloc, text) {
        Ok(code) => Ok(ProgramBytes {
            need: source.need,
            code,
        }),
        Err(TextFault::NoMemory) => Err(no_memory(rt)),
        Err(fault) => {
            tell_refusal(rt, Some(path), fault.line(), fault.code());
            Err(REFUSED)
        }
    }
}

/// Prints the job object of source files, and gives the status: 1 where a source is refused, and 3
/// where a file or the output fails, or there is no memory. A line tells why.
pub fn write_job<R>(rt: &R, alloc: Global, job: JobSources) -> u8
where
    R: Files + Print + Eprint + AllocGlobal,
{
    let JobSources {
        credit,
        buffer,
        schedule,
        sources,
    } = job;
    let mut programs = Vec::new(alloc);
    for source in &sources {
        let program = match program_of(rt, alloc, source) {
            Ok(program) => program,
            Err(status) => return status,
        };
        if programs.push(program).is_err() {
            return no_memory(rt);
        }
    }
    let job = JobObject {
        programs,
        credit,
        buffer,
        schedule,
    };
    let Ok(mut text) = job_text(alloc, &job) else {
        return no_memory(rt);
    };
    if text.push(b'\n').is_err() {
        return no_memory(rt);
    }
    print_text(rt, &text, 0)
}
