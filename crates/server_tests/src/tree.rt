//! A job of two tasks: the root hands the last four bytes of its buffer and 10 of its credit of 34
//! to a child, which puts 9 into the first of them.

use crate::stop::{ScenarioFault, holds};
use assembler::assemble;
use credit_book::Report;
use job_core::{AdmitFault, Job, ProgramBytes, admit};
use std::alloc::Global;

/// The credit of the job.
pub const CREDIT: u32 = 34;

const BUFFER_LEN: usize = 8;

const NEED: u32 = 4;

const ROOT: &str =
    "mov64 r6, r1\nmov64 r1, 1\nmov64 r2, 10\nmov64 r3, 4\nmov64 r4, 9\ncall 1\nstxb [r6+0], r0\nmov64 r0, 0\nexit\n";

const CHILD: &str = "stxb [r1+0], r3\nmov64 r0, 0\nexit\n";

/// Programs from their needs and texts.
pub fn assembled(alloc: Global, texts: &[(u32, &str)]) -> Result<Vec<ProgramBytes>, ScenarioFault> {
    let mut programs = Vec::new(alloc);
    for (need, text) in texts {
        let code = match assemble(alloc, text) {
            Ok(code) => code,
            Err(fault) if fault.code() == 99 => return Err(ScenarioFault::Refused),
            Err(_) => return Err(ScenarioFault::Differs("a text is no program")),
        };
        programs.push(ProgramBytes { need: *need, code })?;
    }
    Ok(programs)
}

/// The job of these programs, with this credit and buffer.
pub fn admitted(
    alloc: Global,
    programs: &[ProgramBytes],
    credit: u32,
    buffer: Vec<u8>,
) -> Result<Job, ScenarioFault> {
    match admit(alloc, programs, credit, buffer) {
        Ok(job) => Ok(job),
        Err(AdmitFault::NoMemory) => Err(ScenarioFault::Refused),
        Err(_) => Err(ScenarioFault::Differs("the job isn't admitted")),
    }
}

/// The job's programs, from their texts.
pub fn programs(alloc: Global) -> Result<Vec<ProgramBytes>, ScenarioFault> {
    assembled(alloc, &[(NEED, ROOT), (NEED, CHILD)])
}

/// The job's buffer at its start.
pub fn buffer(alloc: Global) -> Result<Vec<u8>, ScenarioFault> {
    Ok(vec![in alloc; 0; BUFFER_LEN]?)
}

/// The job.
pub fn job(alloc: Global) -> Result<Job, ScenarioFault> {
    let programs = programs(alloc)?;
    admitted(alloc, &programs, CREDIT, buffer(alloc)?)
}

/// The numbers of the report of a job whose spawn was taken. Where it was refused, those of a root
/// alone have to stand there.
pub fn told(alloc: Global, report: &Report) -> Result<Vec<u64>, ScenarioFault> {
    holds(
        report.spent.checked_add(report.returned) == Some(CREDIT),
        "the report doesn't add up",
    )?;
    let [root] = report.tasks.as_slice() else {
        return numbers(alloc, report);
    };
    let alone = report.buffer.as_slice() == [6, 0, 0, 0, 0, 0, 0, 0].as_slice()
        && (report.spent, report.returned) == (24, 10)
        && (root.ran, root.spent, root.rest) == (true, 24, 10);
    holds(alone, "a refused spawn left something else")?;
    Err(ScenarioFault::Refused)
}

/// The numbers of a report.
pub fn numbers(alloc: Global, report: &Report) -> Result<Vec<u64>, ScenarioFault> {
    let mut numbers = Vec::new(alloc);
    numbers.push(u64::from(report.spent))?;
    numbers.push(u64::from(report.returned))?;
    for byte in &report.buffer {
        numbers.push(u64::from(*byte))?;
    }
    for end in &report.tasks {
        numbers.push(u64::from(end.spent))?;
        numbers.push(u64::from(end.rest))?;
        numbers.push(end.r0)?;
    }
    Ok(numbers)
}
