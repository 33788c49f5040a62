//! The verdict on a program, and its run by itself.

ghost use Rattle.std.specs.Prelude.{◌≡◌, ◌≤◌, MatchResult};
ghost use Rattle.bpfrun_core.specs.Runs.{IsProgramRun, IsStopped};
ghost use Rattle.machine_model.specs.Limits.{max_credit};

use crate::fault::RunFault;
use machine_model::MAX_PART;
use std::alloc::Global;
use verifier::Refusal;
use virtual_machine::{Executed, Vm, VmFault};

/// Verifies a program of this need, with the helpers of a job, and runs it by itself with the
/// memory as its part. The answer is R0 and what was used of the credit; the memory is as the run
/// leaves it. The call asks for a credit of at most 2,147,483,647.
///
/// The refusals, in this order, after which the memory is as it was: 65 the memory has over 65,536
/// bytes, those of the verifier, 42 the credit is under the program's cost, 43 the memory is
/// shorter than its need; and 99.
pub fn run(
    alloc: Global,
    need: u32,
    code: &[u8],
    memory: &mut [u8],
    arg: u64,
    credit: u32,
) -> Result<Executed, RunFault>
    requires limit { credit ≤ max_credit }
    ensures { MatchResult result
        (λ done. IsProgramRun need code.now arg credit memory.old done.r0 done.used memory.new)
        (λ fault. IsStopped need code.now credit memory.old fault × (memory.new ≡ memory.old)) }
{
    if memory.len() > MAX_PART {
        return Err(RunFault::MemoryTooLarge);
    }
    let mut vm = match Vm::new(alloc, None) {
        Ok(vm) => vm,
        Err(_) => unreachable!(),
    };
    match vm.set_program(alloc, need, code) {
        Ok(()) => {}
        Err(Refusal::NoMemory) => return Err(RunFault::NoMemory),
        Err(refusal) => return Err(RunFault::Program(refusal)),
    }
    match vm.execute(memory, arg, credit) {
        Ok(done) => Ok(done),
        Err(VmFault::CreditLow { wanted, given }) => Err(RunFault::CreditLow { wanted, given }),
        Err(VmFault::MemoryShort { wanted, given }) => Err(RunFault::MemoryShort { wanted, given }),
        Err(VmFault::NoProgram | VmFault::NoMemory) => unreachable!(),
    }
}
