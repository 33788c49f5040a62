//! Programs that are set, refused and run in turn, and helpers of a caller's own: what a machine
//! answers to each call.

use crate::callers::{added, greatest, weighed};
use crate::row::{bytes_of, memory_of, text_of, words_of};
use anyhow::bail;
use std::alloc::Global;
use virtual_machine::{RegisterFault, Vm};

/// Runs the program that is set: R0 or why there is none, and the memory then.
fn run(alloc: Global, vm: &mut Vm, credit: &str, memory: &str) -> anyhow::Result<String> {
    let credit = credit.parse::<u32>()?.min(2147483647);
    let mut memory = memory_of(alloc, memory)?;
    memory.truncate(65536);
    let told = match vm.execute_program(&mut memory, credit) {
        Ok(r0) => format!(in alloc; "r0 {r0}")?,
        Err(fault) => format!(in alloc; "{fault}")?,
    };
    let left = text_of(alloc, &memory)?;
    Ok(format!(in alloc; "{told}, memory {left}")?)
}

/// What a machine of its own answers that starts with a program: to a run with this credit, or why
/// there is none.
fn start(alloc: Global, need: &str, credit: &str, program: &str) -> anyhow::Result<String> {
    let code = bytes_of(alloc, program)?;
    match Vm::new(alloc, Some((need.parse::<u32>()?, &code))) {
        Ok(mut vm) => {
            let has = vm.has_program();
            let told = run(alloc, &mut vm, credit, "-")?;
            Ok(format!(in alloc; "{has}, {told}")?)
        }
        Err(refusal) => Ok(format!(in alloc; "{refusal}")?),
    }
}

/// What the machine answers to a helper of the caller's.
fn registered(alloc: Global, answer: Result<(), RegisterFault>) -> anyhow::Result<String> {
    match answer {
        Ok(()) => Ok(String::from_str(alloc, "added")?),
        Err(fault) => Ok(format!(in alloc; "{}", fault.code())?),
    }
}

/// What the machine answers to a call that sets no program and adds no helper.
fn told(alloc: Global, vm: &mut Vm, words: &[&str], program: &str) -> anyhow::Result<String> {
    match words {
        ["has"] => {
            let has = vm.has_program();
            Ok(format!(in alloc; "{has}")?)
        }
        ["run", credit, memory] => run(alloc, vm, credit, memory),
        ["start", need, credit] => start(alloc, need, credit, program),
        _ => bail!("no such call"),
    }
}

/// What a machine without a program answers to calls, one after the other. Where a program is
/// refused, the one that was set stays.
pub fn answers(alloc: Global, calls: &str) -> anyhow::Result<String> {
    let mut vm = Vm::new(alloc, None)?;
    let mut text = String::new(alloc);
    for call in calls.split(';') {
        let call = call.trim();
        let (words, program) = call.split_once(':').unwrap_or((call, ""));
        let told = match words.trim().split_once(' ') {
            Some(("set", need)) => {
                let code = bytes_of(alloc, program)?;
                match vm.set_program(alloc, need.parse::<u32>()?, &code) {
                    Ok(()) => String::from_str(alloc, "set")?,
                    Err(refusal) => format!(in alloc; "{refusal}")?,
                }
            }
            Some(("add", numbers)) => {
                let (id, arity) = numbers.split_once(' ').unwrap_or((numbers, ""));
                let (id, arity) = (id.parse::<u32>()?, arity.parse::<u32>()?);
                let answer = match id {
                    64 => vm.try_register_helper(alloc, id, arity, added),
                    65 => vm.try_register_helper(alloc, id, arity, weighed),
                    _ => vm.try_register_helper(alloc, id, arity, greatest),
                };
                registered(alloc, answer)?
            }
            _ => told(alloc, &mut vm, &words_of(alloc, words)?, program)?,
        };
        text = format!(in alloc; "{text}{told} ; ")?;
    }
    Ok(String::from_str(alloc, text.as_str().trim_end_matches(" ; "))?)
}
