//! One program by the reference, whether or not it would be accepted.

use crate::row::{copied, memory_of, text_of};
use insn_codec::decode;
use reference::{
    Content, JobMember, ReferenceJob, ReferenceMove, ReferenceProgram, Running, StepOutcome,
    TrapCause, Unanswered, effect, run, run_alone, start_alone,
};
use std::alloc::Global;

/// More steps than the programs here take.
const STEPS: u32 = 128;

/// What the helpers of a caller's own answer: 64 the sum of its first two numbers, 65 its fifth and
/// 7, the others their numbers as decimal digits, of which the first is the lowest.
fn helped(id: u32, arguments: [u64; 5]) -> u64 {
    let [a, b, c, d, e] = arguments;
    match id {
        64 => a.wrapping_add(b),
        65 => e.wrapping_add(7),
        _ => a
            .wrapping_add(b.wrapping_mul(10))
            .wrapping_add(c.wrapping_mul(100))
            .wrapping_add(d.wrapping_mul(1000))
            .wrapping_add(e.wrapping_mul(10000)),
    }
}

/// Helpers from id 64 on that take so many arguments.
fn registered_of(alloc: Global, arities: &[&str]) -> anyhow::Result<Vec<Option<u32>>> {
    let mut registered = Vec::new(alloc);
    for _ in 0..64u8 {
        registered.push(None)?;
    }
    for arity in arities {
        registered.push(Some(arity.parse::<u32>()?))?;
    }
    Ok(registered)
}

/// The program, with helpers from id 64 on that take so many arguments. Its costs aren't known.
pub fn program_of(
    alloc: Global,
    arities: &[&str],
    code: &[u8],
) -> anyhow::Result<ReferenceProgram> {
    let placed = decode(alloc, code)?;
    let mut slots = Vec::new(alloc);
    for one in &placed {
        slots.push(Some(one.insn))?;
        if one.insn.slots() == 2 {
            slots.push(None)?;
        }
    }
    let registered = registered_of(alloc, arities)?;
    Ok(ReferenceProgram {
        need: 0,
        code: slots,
        costs: Vec::new(alloc),
        registered,
    })
}

/// The trap that a task comes to.
fn trap_of(
    alloc: Global,
    program: &ReferenceProgram,
    programs: &[ReferenceProgram],
    start: Running,
) -> anyhow::Result<String> {
    let mut state = start;
    for _ in 0..STEPS {
        match effect(alloc, program, programs, state) {
            Ok(StepOutcome::Continues(next)) => state = next,
            Ok(StepOutcome::Traps(cause)) => return name_of(alloc, cause),
            _ => break,
        }
    }
    Ok(String::from_str(alloc, "no end")?)
}

fn name_of(alloc: Global, cause: TrapCause) -> anyhow::Result<String> {
    Ok(format!(in alloc; "trap {cause:?}")?)
}

fn unanswered(alloc: Global, why: Unanswered) -> anyhow::Result<String> {
    Ok(format!(in alloc; "{why:?}")?)
}

/// What a program comes to alone within so many steps: R0, what it used and its part, the trap, or
/// that there is no end.
pub fn alone(
    alloc: Global,
    steps: &str,
    credit: &str,
    memory: &str,
    arities: &[&str],
    code: &[u8],
) -> anyhow::Result<String> {
    let program = program_of(alloc, arities, code)?;
    let memory = memory_of(alloc, memory)?;
    let credit = credit.parse::<u32>()?;
    let helper = |id: u32, arguments: [u64; 5]| helped(id, arguments);
    let part = copied(alloc, &memory)?;
    match run_alone(
        alloc,
        &program,
        credit,
        part,
        steps.parse::<u32>()?,
        &helper,
    ) {
        Ok(Some((r0, last))) => {
            let text = text_of(alloc, &last.part)?;
            Ok(format!(in alloc; "r0 {r0} used {} memory {text}", last.used)?)
        }
        Ok(None) => {
            let start = start_alone(credit, copied(alloc, &memory)?);
            trap_of(alloc, &program, &[], start)
        }
        Err(why) => unanswered(alloc, why),
    }
}

/// A task alone at its start.
fn at_start(credit: u32, part: Vec<u8>) -> Running {
    let mut registers = [Content::Unset; 11];
    registers[1] = Content::Part(0);
    registers[2] = Content::Num(part.len() as u64);
    registers[3] = Content::Num(0);
    registers[10] = Content::Stack(512);
    Running {
        slot: 0,
        registers,
        stack: [0; 512],
        part,
        held: credit,
        used: 0,
    }
}

/// What a job of one task has come to: R0, what was spent and the buffer.
fn ended(alloc: Global, job: &ReferenceJob) -> anyhow::Result<String> {
    match job.tasks.get(0) {
        Some(JobMember::Ended(end)) => {
            let text = text_of(alloc, &job.buffer)?;
            Ok(format!(in alloc; "r0 {} used {} memory {text}", end.r0, end.spent)?)
        }
        _ => Ok(String::from_str(alloc, "no end")?),
    }
}

/// The trap of the first of these programs.
fn trap_of_first(
    alloc: Global,
    programs: &[ReferenceProgram],
    credit: u32,
    memory: &[u8],
) -> anyhow::Result<String> {
    match programs.get(0) {
        Some(program) => {
            let start = at_start(credit, copied(alloc, memory)?);
            trap_of(alloc, program, programs, start)
        }
        None => Ok(String::new(alloc)),
    }
}

/// What a program comes to as a job of one task: R0, what was spent and the buffer, the trap, or
/// that there is no end.
pub fn as_job(alloc: Global, credit: &str, memory: &str, code: &[u8]) -> anyhow::Result<String> {
    let mut programs = Vec::new(alloc);
    programs.push(program_of(alloc, &[], code)?)?;
    let memory = memory_of(alloc, memory)?;
    let credit = credit.parse::<u32>()?;
    let next = ReferenceMove {
        number: 0,
        refuses: false,
    };
    let part = copied(alloc, &memory)?;
    match run(alloc, &programs, credit, part, &[next; 128]) {
        Ok(Some(job)) => ended(alloc, &job),
        Ok(None) => trap_of_first(alloc, &programs, credit, &memory),
        Err(why) => unanswered(alloc, why),
    }
}
