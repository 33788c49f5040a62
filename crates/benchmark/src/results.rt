//! What the scenarios come to: the same on every machine.

use crate::scenario::{Scenario, program};
use crate::single::{Single, executed, filter, sum};
use job_core::{ProgramBytes, Report, admit, play};
use std::alloc::Global;
use std::io::Write;
use virtual_machine::Vm;

/// The scenarios, in the order in which they are printed.
pub const SCENARIOS: [Scenario; 5] = [
    Scenario::Arithmetic,
    Scenario::Memory,
    Scenario::Ladder,
    Scenario::Comb,
    Scenario::Shuffled,
];

/// So many steps of task 0.
pub fn schedule(alloc: Global, steps: u32) -> anyhow::Result<Vec<u32>> {
    let mut numbers = Vec::new(alloc);
    for _ in 0..steps {
        numbers.push(0)?;
    }
    Ok(numbers)
}

/// Plays a program alone, with all the credit that it can need and a part of 8 zeros.
fn played(alloc: Global, code: ProgramBytes, steps: u32) -> anyhow::Result<Option<Report>> {
    let programs = [code];
    let buffer = vec![in alloc; 0; 8]?;
    let job = admit(alloc, &programs, steps, buffer)?;
    let numbers = schedule(alloc, steps)?;
    Ok(play(alloc, job, &numbers)?.close().ok())
}

/// Prints R0 and the credit spent of a scenario in 64 slots.
fn print_scenario<W: Write>(
    alloc: Global,
    output: &mut W,
    scenario: Scenario,
) -> anyhow::Result<()> {
    let name = scenario.name();
    if let Some(report) = played(alloc, program(alloc, scenario, 64)?, 64)? {
        for task in &report.tasks {
            writeln!(
                output,
                "{name} 64 slots: r0 {} spent {}",
                task.r0, task.spent
            )?;
        }
    }
    Ok(())
}

/// Prints R0 of a single program.
fn print_single<W: Write>(
    alloc: Global,
    output: &mut W,
    single: &mut Single,
) -> anyhow::Result<()> {
    let mut vm = Vm::new(alloc, Some((single.need, &single.code)))?;
    let r0 = executed(&mut vm, single)?;
    writeln!(output, "{} of {} bytes: r0 {r0}", single.name, single.need)?;
    Ok(())
}

/// Prints what each scenario comes to, and each single program.
pub fn print_results<W: Write>(alloc: Global, output: &mut W) -> anyhow::Result<()> {
    for scenario in SCENARIOS {
        print_scenario(alloc, output, scenario)?;
    }
    print_single(alloc, output, &mut filter(alloc)?)?;
    print_single(alloc, output, &mut sum(alloc)?)
}
