//! Runs over the caller's memory.

ghost use Rattle.std.specs.Prelude.{◌≡◌, length};
ghost use Rattle.helpers.specs.Table.{job_table};
ghost use Rattle.telgovan_c.specs.Runs.{IsBurst, IsRunOutcome, RunsInPlace, IsSingle, RunInTurn, refused_run};

use crate::verdicts::{Verdict, accepted_verdict, refused_verdict};
use helpers::HelperTable;
use machine_model::{MAX_CREDIT, MAX_PART};
use std::alloc::Global;
use verifier::{Verified, verify};
use virtual_machine::{Functions, run_alone};

// The credit is under the cost.
const CREDIT_LOW: u32 = 42;
// The memory is shorter than what is asked of it.
const MEMORY_SHORT: u32 = 43;
// A number over its limit.
const OVER_LIMIT: u32 = 65;

/// What a run came to: `status` is 0 where the program ran, with R0 and what it used of the credit.
/// Otherwise `status` is the number of the refusal, and the memory is as it was.
#[repr(C)]
#[derive(Clone, Copy)]
pub struct RunOutcome {
    pub r0: u64,
    pub status: u32,
    pub used: u32,
}

/// A run of a burst: the piece of memory that is the program's part, so many bytes from `start` on,
/// and the argument that it gets. `outcome` is what it came to.
#[repr(C)]
#[derive(Clone, Copy)]
pub struct Run {
    pub start: u64,
    pub length: u64,
    pub argument: u64,
    pub outcome: RunOutcome,
}

/// Nothing ran, for the refusal of this number.
pub(crate) fn refused_run(number: u32) -> RunOutcome
    ensures { result ≡ refused_run number }
{
    RunOutcome {
        r0: 0,
        status: number,
        used: 0,
    }
}

/// Runs a program that was verified with the helpers of a job, with these bytes as its part.
pub(crate) fn run_program(
    alloc: Global,
    program: &Verified,
    bytes: &mut [u8],
    argument: u64,
    credit: u32,
) -> RunOutcome
    requires job { program.now.helpers ≡ job_table }
    ensures { IsRunOutcome program.now argument credit bytes.old bytes.new result }
{
    if credit > MAX_CREDIT || bytes.len() > MAX_PART {
        return refused_run(OVER_LIMIT);
    }
    if credit < program.cost() {
        return refused_run(CREDIT_LOW);
    }
    if bytes.len() < program.need() as usize {
        return refused_run(MEMORY_SHORT);
    }
    let mut functions = Functions::none(alloc);
    let done = run_alone(program, bytes, argument, credit, &mut functions);
    RunOutcome {
        r0: done.r0,
        status: 0,
        used: done.used,
    }
}

// Runs such a program on the run's piece of the memory.
fn run_at(
    alloc: Global,
    program: &Verified,
    memory: &mut [u8],
    run: &Run,
    credit: u32,
) -> RunOutcome
    requires job { program.now.helpers ≡ job_table }
    ensures { RunsInPlace program.now credit memory.old memory.new run.now result }
{
    let size = memory.len() as u64;
    if run.start > size || run.length > size - run.start {
        return refused_run(MEMORY_SHORT);
    }
    let start = run.start as usize;
    let end = (run.start + run.length) as usize;
    run_program(
        alloc,
        program,
        &mut memory[start..end],
        run.argument,
        credit,
    )
}

/// Runs such a program on each piece in turn.
pub(crate) fn run_all(
    alloc: Global,
    program: &Verified,
    memory: &mut [u8],
    runs: &mut [Run],
    credit: u32,
)
    requires job { program.now.helpers ≡ job_table }
    ensures runs { RunInTurn program.now credit memory.old runs.old runs.new
        (length runs.old) memory.new }
    ensures length { length runs.new ≡ length runs.old }
{
    let mut done = 0;
    while done < runs.len() {
        let outcome = run_at(alloc, program, memory, &runs[done], credit);
        runs[done].outcome = outcome;
        done += 1;
    }
}

// A program verified and run once.
fn single(
    alloc: Global,
    need: u32,
    code: &[u8],
    memory: &mut [u8],
    argument: u64,
    credit: u32,
) -> RunOutcome
    ensures { IsSingle need code.now argument credit memory.old memory.new result }
{
    match verify(alloc, need, code, &HelperTable::job()) {
        Ok(program) => run_program(alloc, &program, memory, argument, credit),
        Err(refusal) => refused_run(u32::from(refusal.code())),
    }
}

// A program verified once and run on each piece in turn, and its verdict.
fn burst(
    alloc: Global,
    need: u32,
    code: &[u8],
    memory: &mut [u8],
    runs: &mut [Run],
    credit: u32,
) -> Verdict
    ensures { IsBurst need code.now credit memory.old memory.new runs.old runs.new result }
{
    match verify(alloc, need, code, &HelperTable::job()) {
        Ok(program) => {
            let verdict = accepted_verdict(&program);
            run_all(alloc, &program, memory, runs, credit);
            verdict
        }
        Err(refusal) => refused_verdict(&refusal),
    }
}

/// Verifies a program of this need, with the helpers of a job, and runs it on each piece of the
/// memory in turn, each time with this credit. It answers the verdict's status. Where the program
/// is refused nothing runs. A run is refused, and the next goes on, by 65 where its piece has over
/// 65,536 bytes or the credit is over 2,147,483,647, 43 where the memory has no such piece or the
/// piece is shorter than the need, and 42 where the credit is under the cost.
#[unsafe(no_mangle)]
pub extern "C" fn telgovan_burst(
    alloc: Global,
    need: u32,
    code: &[u8],
    credit: u32,
    memory: &mut [u8],
    runs: &mut [Run],
    verdict: &mut Verdict,
) -> u32
    ensures runs { IsBurst need code.now credit memory.old memory.new runs.old runs.new
        verdict.new }
    ensures status { result ≡ verdict.new.status }
{
    *verdict = burst(alloc, need, code, memory, runs, credit);
    verdict.status
}

/// Verifies a program of this need, with the helpers of a job, and runs it once with the memory as
/// its part. It answers the outcome's status: that of the verdict where the program is refused,
/// else the run's.
#[unsafe(no_mangle)]
pub extern "C" fn telgovan_run(
    alloc: Global,
    need: u32,
    code: &[u8],
    credit: u32,
    argument: u64,
    memory: &mut [u8],
    outcome: &mut RunOutcome,
) -> u32
    ensures run { IsSingle need code.now argument credit memory.old memory.new outcome.new }
    ensures status { result ≡ outcome.new.status }
{
    *outcome = single(alloc, need, code, memory, argument, credit);
    outcome.status
}
