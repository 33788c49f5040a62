//! How long a step and a verdict take.

use crate::book_timing::print_book_times;
use crate::lane_timing::print_lane_times;
use crate::protocol_timing::print_protocol_times;
use crate::results::{SCENARIOS, schedule};
use crate::scenario::{Scenario, program};
use crate::single::{Single, executed, filter, sum};
use helpers::HelperTable;
use job_core::{ProgramBytes, admit, play};
use std::alloc::Global;
use std::io::Write;
use std::rt::Clock;
use std::time::{Duration, Instant};
use verifier::verify;
use virtual_machine::Vm;

/// How often each program is run.
const ROUNDS: u32 = 500;

/// How often each single program is run.
const SINGLE_ROUNDS: u32 = 20_000;

/// The longest of the programs, in slots.
const LONGEST: u32 = 4096;

/// The time that a run of the program takes, without its admission.
fn played_once<C: Clock>(
    clock: &C,
    alloc: Global,
    programs: &[ProgramBytes],
    numbers: &[u32],
) -> anyhow::Result<Duration> {
    let job = admit(alloc, programs, LONGEST, vec![in alloc; 0; 8]?)?;
    let start = Instant::now(clock)?;
    let world = play(alloc, job, numbers)?;
    let took = start.elapsed(clock)?;
    drop(world);
    Ok(took)
}

/// The time that the quickest of `ROUNDS` such runs takes.
fn played<C: Clock>(clock: &C, alloc: Global, scenario: Scenario) -> anyhow::Result<Duration> {
    let numbers = schedule(alloc, LONGEST)?;
    let programs = [program(alloc, scenario, LONGEST)?];
    let mut quickest = Duration::MAX;
    for _ in 0..ROUNDS {
        quickest = quickest.min(played_once(clock, alloc, &programs, &numbers)?);
    }
    Ok(quickest)
}

/// The time that the quickest of `ROUNDS` verdicts on a program takes.
fn judged<C: Clock>(
    clock: &C,
    alloc: Global,
    scenario: Scenario,
    slots: u32,
) -> anyhow::Result<Duration> {
    let helpers = HelperTable::job();
    let code = program(alloc, scenario, slots)?;
    let mut quickest = Duration::MAX;
    for _ in 0..ROUNDS {
        let start = Instant::now(clock)?;
        drop(verify(alloc, code.need, &code.code, &helpers)?);
        quickest = quickest.min(start.elapsed(clock)?);
    }
    Ok(quickest)
}

/// Runs a single program so often.
fn run_all(vm: &mut Vm, single: &mut Single) -> anyhow::Result<()> {
    for _ in 0..SINGLE_ROUNDS {
        executed(vm, single)?;
    }
    Ok(())
}

/// The nanoseconds that a run of a single program takes.
fn run_alone<C: Clock>(clock: &C, alloc: Global, single: &mut Single) -> anyhow::Result<u128> {
    let mut vm = Vm::new(alloc, Some((single.need, &single.code)))?;
    let start = Instant::now(clock)?;
    run_all(&mut vm, single)?;
    Ok(start.elapsed(clock)?.as_nanos() / u128::from(SINGLE_ROUNDS))
}

/// Prints runs of the filter a second, and the bytes that a sum goes over in a second.
fn print_single_times<C: Clock, W: Write>(
    clock: &C,
    alloc: Global,
    output: &mut W,
) -> anyhow::Result<()> {
    let nanos = run_alone(clock, alloc, &mut filter(alloc)?)?.max(1);
    writeln!(
        output,
        "execute_program filter: {} runs a second",
        1_000_000_000 / nanos
    )?;
    let mut whole = sum(alloc)?;
    let nanos = run_alone(clock, alloc, &mut whole)?.max(1);
    let bytes = u128::from(whole.need).saturating_mul(1000) / nanos;
    writeln!(output, "sum of 65536 bytes: {bytes} million bytes a second")?;
    Ok(())
}

/// The time that a run of the machine's program takes.
fn executed_once<C: Clock>(
    clock: &C,
    vm: &mut Vm,
    memory: &mut [u8; 8],
) -> anyhow::Result<Duration> {
    let start = Instant::now(clock)?;
    vm.execute_program(memory, LONGEST)?;
    Ok(start.elapsed(clock)?)
}

/// The time that the quickest of `ROUNDS` runs of the program by the machine for single programs
/// takes.
fn executed_alone<C: Clock>(
    clock: &C,
    alloc: Global,
    scenario: Scenario,
) -> anyhow::Result<Duration> {
    let code = program(alloc, scenario, LONGEST)?;
    let mut vm = Vm::new(alloc, Some((code.need, &code.code)))?;
    let mut memory = [0; 8];
    let mut quickest = Duration::MAX;
    for _ in 0..ROUNDS {
        quickest = quickest.min(executed_once(clock, &mut vm, &mut memory)?);
    }
    Ok(quickest)
}

/// Prints what takes so long, in nanoseconds for each slot of the longest program.
fn print_slot_time<W: Write>(
    output: &mut W,
    what: &str,
    name: &str,
    whole: Duration,
) -> anyhow::Result<()> {
    let hundredths = whole.as_nanos().saturating_mul(100) / u128::from(LONGEST);
    let (units, rest) = (hundredths / 100, hundredths % 100);
    writeln!(output, "{what} {name}: {units}.{rest:02} ns a slot")?;
    Ok(())
}

/// Prints nanoseconds a step, slots a second of `verify`, and how quick single programs are.
pub fn print_times<C: Clock, W: Write>(
    clock: &C,
    alloc: Global,
    output: &mut W,
) -> anyhow::Result<()> {
    for scenario in SCENARIOS {
        let name = scenario.name();
        print_slot_time(output, "play", name, played(clock, alloc, scenario)?)?;
        let whole = executed_alone(clock, alloc, scenario)?;
        print_slot_time(output, "execute_program", name, whole)?;
    }
    for scenario in SCENARIOS {
        let name = scenario.name();
        for slots in [64, 512, LONGEST] {
            let nanos = judged(clock, alloc, scenario, slots)?.as_nanos().max(1);
            writeln!(
                output,
                "verify {name} {slots}: {} slots a millisecond",
                u128::from(slots) * 1_000_000 / nanos
            )?;
        }
    }
    print_single_times(clock, alloc, output)?;
    print_book_times(clock, alloc, output)?;
    print_lane_times(clock, alloc, output)?;
    print_protocol_times(clock, alloc, output)
}
