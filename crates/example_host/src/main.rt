//! A host in one page: it verifies a program, lends it memory, lets it call a function of its own,
//! and prints what the program answers.
#![tactic(auto)]

use assembler::assemble;
use std::alloc::Global;
use std::process::ExitCode;
use virtual_machine::Vm;

/// A helper of the host's own: adds its first two arguments.
fn add(a: u64, b: u64, _c: u64, _d: u64, _e: u64) -> u64 {
    a.wrapping_add(b)
}

/// What the program answers, which costs 11 of the credit.
fn answer(alloc: Global, memory: &mut [u8; 16]) -> anyhow::Result<u64> {
    let code = assemble(alloc, "mov64 r1, 40\nmov64 r2, 2\ncall 64\nexit\n")?;
    let mut vm = Vm::new(alloc, None)?;
    vm.register_helper(alloc, 64, 2, add)?;
    vm.set_program(alloc, 0, &code)?; // or the one reason why not
    Ok(vm.execute_program(memory, 100)?)
}

fn main(rt: HostRuntime) -> ExitCode {
    let mut memory = [0; 16];
    match answer(rt.alloc(), &mut memory) {
        Ok(r0) => {
            let _ = println!(rt; "r0 {r0}");
            ExitCode::SUCCESS
        }
        Err(error) => {
            let _ = eprintln!(rt; "{error}");
            ExitCode::FAILURE
        }
    }
}
