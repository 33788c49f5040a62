//! Programs that C holds between calls.

ghost use Rattle.std.specs.Prelude.{◌≡◌, None};
ghost use Rattle.telgovan_c.specs.Programs.{IsHeldBurst, IsHeldCost, IsHeldRun, IsLoaded, SharesProgram, held_program};

use crate::boxed::Boxed;
use crate::program_handle::ProgramHandle;
use crate::runs::{Run, RunOutcome, refused_run, run_all, run_program};
use crate::verdicts::{Verdict, accepted_verdict, refused_verdict};
use helpers::HelperTable;
use std::alloc::Global;
use std::mem::replace;
use verifier::{Refusal, verify};

// The handle holds no program.
const NO_PROGRAM: u32 = 41;
// The program may ask its host, so that it runs as a task alone.
const MAY_ASK: u32 = 48;
// A growth was refused.
const NO_MEMORY: u32 = 99;

/// The same value, which may go to another thread: no other type is taken.
pub(crate) fn sendable<T: Send>(value: T) -> T
    ensures { result ≡ value }
{
    value
}

// Loads a program into the handle, in place of the one that it held.
fn load(alloc: Global, need: u32, code: &[u8], program: &mut ProgramHandle) -> Verdict
    ensures { IsLoaded need code.now (held_program program.old) (held_program program.new) result }
{
    match verify(alloc, need, code, &HelperTable::job()) {
        Ok(verified) => {
            let verdict = accepted_verdict(&verified);
            match Boxed::of(alloc, verified, false) {
                Ok(boxed) => {
                    *program = ProgramHandle::of(boxed);
                    verdict
                }
                Err(_) => refused_verdict(&Refusal::NoMemory),
            }
        }
        Err(refusal) => refused_verdict(&refusal),
    }
}

// Runs what the handle holds once, and gives the handle back.
fn run_held(
    alloc: Global,
    program: ProgramHandle,
    credit: u32,
    argument: u64,
    memory: &mut [u8],
) -> (ProgramHandle, RunOutcome)
    ensures run { IsHeldRun (held_program program) argument credit memory.old memory.new result.1 }
    ensures same { held_program result.0 ≡ held_program program }
{
    match program.into_box() {
        Some(boxed) => {
            if boxed.is_hosted() {
                return (ProgramHandle::of(boxed), refused_run(MAY_ASK));
            }
            let outcome = run_program(alloc, boxed.program(), memory, argument, credit);
            (ProgramHandle::of(boxed), outcome)
        }
        None => (ProgramHandle::none(alloc), refused_run(NO_PROGRAM)),
    }
}

// Runs what the handle holds on each piece in turn, and gives the handle back.
fn run_held_all(
    alloc: Global,
    program: ProgramHandle,
    credit: u32,
    memory: &mut [u8],
    runs: &mut [Run],
) -> (ProgramHandle, u32)
    ensures runs { IsHeldBurst (held_program program) credit memory.old memory.new runs.old runs.new
        result.1 }
    ensures same { held_program result.0 ≡ held_program program }
{
    match program.into_box() {
        Some(boxed) => {
            if boxed.is_hosted() {
                return (ProgramHandle::of(boxed), MAY_ASK);
            }
            run_all(alloc, boxed.program(), memory, runs, credit);
            (ProgramHandle::of(boxed), 0)
        }
        None => (ProgramHandle::none(alloc), NO_PROGRAM),
    }
}

// One more owner of what the handle holds, put into another handle, and the handle again.
fn share_held(
    alloc: Global,
    program: ProgramHandle,
    other: &mut ProgramHandle,
) -> (ProgramHandle, u32)
    ensures shared { SharesProgram (held_program program) (held_program other.old)
        (held_program other.new) result.1 }
    ensures same { held_program result.0 ≡ held_program program }
{
    match program.into_box() {
        Some(boxed) => match boxed.share(alloc) {
            Ok(shared) => {
                *other = sendable(ProgramHandle::of(shared));
                (ProgramHandle::of(boxed), 0)
            }
            Err(_) => (ProgramHandle::of(boxed), NO_MEMORY),
        },
        None => (ProgramHandle::none(alloc), NO_PROGRAM),
    }
}

// What a run of what the handle holds may cost, and the handle again.
fn cost_held(alloc: Global, program: ProgramHandle, cost: &mut u32) -> (ProgramHandle, u32)
    ensures cost { IsHeldCost (held_program program) cost.old cost.new result.1 }
    ensures same { held_program result.0 ≡ held_program program }
{
    match program.into_box() {
        Some(boxed) => {
            *cost = boxed.program().cost();
            (ProgramHandle::of(boxed), 0)
        }
        None => (ProgramHandle::none(alloc), NO_PROGRAM),
    }
}

/// Verifies a program of this need, with the helpers of a job, and lets the handle hold it in place
/// of the one that it held. It answers the verdict's status. Where that isn't 0, the handle holds
/// what it held.
#[unsafe(no_mangle)]
pub extern "C" fn telgovan_program_load(
    alloc: Global,
    need: u32,
    code: &[u8],
    program: &mut ProgramHandle,
    verdict: &mut Verdict,
) -> u32
    ensures loaded { IsLoaded need code.now (held_program program.old) (held_program program.new)
        verdict.new }
    ensures status { result ≡ verdict.new.status }
{
    *verdict = load(alloc, need, code, program);
    verdict.status
}

/// Runs the program that the handle holds once, with the memory as its part. It answers the
/// outcome's status: 41 where the handle holds none, 48 where the program may call helpers of the
/// host's, else as `telgovan_run`.
#[unsafe(no_mangle)]
pub extern "C" fn telgovan_program_run(
    alloc: Global,
    program: &mut ProgramHandle,
    credit: u32,
    argument: u64,
    memory: &mut [u8],
    outcome: &mut RunOutcome,
) -> u32
    ensures run { IsHeldRun (held_program program.old) argument credit memory.old memory.new
        outcome.new }
    ensures same { held_program program.new ≡ held_program program.old }
    ensures status { result ≡ outcome.new.status }
{
    let taken = replace(program, ProgramHandle::none(alloc));
    let (kept, told) = run_held(alloc, taken, credit, argument, memory);
    *program = kept;
    *outcome = told;
    outcome.status
}

/// Runs the program that the handle holds on each piece of the memory in turn, each time with this
/// credit. It answers 0, or 41 where the handle holds none or 48 where the program may call helpers
/// of the host's, after which nothing changed. The runs are told as by `telgovan_burst`.
#[unsafe(no_mangle)]
pub extern "C" fn telgovan_program_burst(
    alloc: Global,
    program: &mut ProgramHandle,
    credit: u32,
    memory: &mut [u8],
    runs: &mut [Run],
) -> u32
    ensures runs { IsHeldBurst (held_program program.old) credit memory.old memory.new runs.old
        runs.new result }
    ensures same { held_program program.new ≡ held_program program.old }
{
    let taken = replace(program, ProgramHandle::none(alloc));
    let (kept, status) = run_held_all(alloc, taken, credit, memory, runs);
    *program = kept;
    status
}

/// Lets another handle hold the program too, in place of the one that it held. Each handle may go
/// to a thread of its own. It answers 0; or 41 where there is no program, or 99, after which the
/// other handle holds what it held.
#[unsafe(no_mangle)]
pub extern "C" fn telgovan_program_share(
    alloc: Global,
    program: &mut ProgramHandle,
    other: &mut ProgramHandle,
) -> u32
    ensures shared { SharesProgram (held_program program.old) (held_program other.old)
        (held_program other.new) result }
    ensures same { held_program program.new ≡ held_program program.old }
{
    let taken = replace(program, ProgramHandle::none(alloc));
    let (kept, status) = share_held(alloc, taken, other);
    *program = kept;
    status
}

/// Tells the most that a run of the program may use of its credit. It answers 0, or 41 where the
/// handle holds none, after which the cost is what it was.
#[unsafe(no_mangle)]
pub extern "C" fn telgovan_program_cost(
    alloc: Global,
    program: &mut ProgramHandle,
    cost: &mut u32,
) -> u32
    ensures cost { IsHeldCost (held_program program.old) cost.old cost.new result }
    ensures same { held_program program.new ≡ held_program program.old }
{
    let taken = replace(program, ProgramHandle::none(alloc));
    let (kept, status) = cost_held(alloc, taken, cost);
    *program = kept;
    status
}

/// Lets go of what the handle holds, and frees it where no other handle holds it. The handle holds
/// none from then on.
#[unsafe(no_mangle)]
pub extern "C" fn telgovan_program_unload(alloc: Global, program: &mut ProgramHandle)
    ensures { held_program program.new ≡ None }
{
    *program = ProgramHandle::none(alloc);
}
