//! The reference's run of one program alone, with helpers of the caller's own.

ghost use Rattle.std.specs.Prelude.{◌≡◌, ◌≤◌, ℕ, None, Some, Ok, Err, IfOk};
ghost use Rattle.machine_model.specs.Alone.{EndsWithin, alone};
ghost use Rattle.machine_model.specs.Machine.{answered};
ghost use Rattle.reference.specs.Records.{FarWithin, IsDeterministic, NeverEnds, StaysFor, program_of, state_of};
ghost use Rattle.reference.specs.declared.records.Running.{Running};
ghost use Rattle.reference.specs.declared.records.Unanswered.{Unanswered};
ghost use Rattle.reference.specs.declared.records.Unanswered.TheVariants as unanswered;

use crate::calls;
use crate::effects::effect;
use crate::records::{ReferenceProgram, Running, StepOutcome, Unanswered};
use crate::runs::entry_registers;
use std::alloc::Global;

/// The task at its start, with all the credit, these bytes as its part, and argument 0.
pub fn start_alone(credit: u32, part: Vec<u8>) -> Running
    ensures { state_of result ≡ alone credit part.items }
{
    let registers = entry_registers(part.as_slice().len(), 0);
    Running {
        slot: 0,
        registers,
        stack: [0; 512],
        part,
        held: credit,
        used: 0,
    }
}

/// Calls the helper, and goes on with what it answers.
fn ask_helper<F: Fn(u32, [u64; 5]) -> u64>(
    helper: &F,
    id: u32,
    arguments: [u64; 5],
    caller: Running,
) -> Result<Running, Unanswered>
    requires { F.IsAlwaysCallable helper.now }
    ensures next { IfOk result (λ next. (answer : ℕ) × F.post helper.now id arguments answer
        × (state_of next ≡ answered (state_of caller) answer)) }
    ensures large { (error : Unanswered) → result ≡ Err error → 4294967296 ≤ caller.slot }
{
    if caller.slot >= 4_294_967_296 {
        return Err(Unanswered::TooLarge);
    }
    let answer = helper(id, arguments);
    Ok(calls::put_answer(caller, answer))
}

/// R0 and the last state of the program alone, with this credit and these bytes as its part, if it
/// ends within so many steps. `helper` answers the calls of the helpers that are registered, by
/// their ids. None where the program traps, or goes on after so many steps. An Err says that there
/// is no answer: for want of memory, or where a number on the way doesn't fit its type.
pub fn run_alone<F: Fn(u32, [u64; 5]) -> u64>(
    alloc: Global,
    program: &ReferenceProgram,
    credit: u32,
    part: Vec<u8>,
    steps: u32,
    helper: &F,
) -> Result<Option<(u64, Running)>, Unanswered>
    requires { F.IsAlwaysCallable helper.now }
    ensures ends { (r0 : ℕ) (last : Running) → result ≡ Ok (Some (r0, last)) →
        EndsWithin (program_of program.now)
        (λ id arguments answer. F.post helper.now id arguments answer) r0 (state_of last) steps
        (alone credit part.items) }
    ensures stays { result ≡ Ok None →
        StaysFor (program_of program.now)
        (λ id arguments answer. F.post helper.now id arguments answer) steps
        (alone credit part.items) }
    ensures never { result ≡ Ok None
        → IsDeterministic (λ id arguments answer. F.post helper.now id arguments answer) →
        NeverEnds (program_of program.now)
        (λ id arguments answer. F.post helper.now id arguments answer) steps
        (alone credit part.items) }
    ensures far { result ≡ Err unanswered.TooLarge →
        FarWithin (program_of program.now)
        (λ id arguments answer. F.post helper.now id arguments answer) steps
        (alone credit part.items) }
{
    let mut state = start_alone(credit, part);
    for _ in 0..steps {
        match effect(alloc, program, &[], state)? {
            StepOutcome::Continues(next) => state = next,
            StepOutcome::Ends(r0, last) => return Ok(Some((r0, last))),
            StepOutcome::Calls(id, arguments, caller) => {
                state = ask_helper(helper, id, arguments, caller)?;
            }
            StepOutcome::Spawns(..) => return Ok(None),
            StepOutcome::Traps(_) => return Ok(None),
        }
    }
    Ok(None)
}
