//! The reference's jumps.

ghost use Rattle.std.specs.Prelude.{◌≡◌, ℕ, ◌+◌, ◌<◌, ◌%◌, ◌^◌, Bool};
ghost use Rattle.insn_codec.specs.declared.insn.Insn.TheVariants.{JumpIf};
ghost use Rattle.machine_model.specs.Edges.{target};
ghost use Rattle.machine_model.specs.Machine.{Effect, Entries, Program, landing, meaning, number_in, operand_in};
ghost use Rattle.machine_model.specs.Operators.{bits_of, holds};
ghost use Rattle.reference.specs.Records.{deciding, effect_of, registers_of, state_of};

use crate::records::{Running, StepOutcome, TrapCause};
use crate::registers::{content, number, operand};
use insn_codec::{Condition, Operand, Register, Width};
use machine_model::{holds, low_bits};

/// On to the slot so far from the one after the jump.
pub(crate) fn jump(mut state: Running, offset: i32) -> StepOutcome
    requires { state.slot < 4294967296 }
    ensures { effect_of result ≡ landing (state_of state) (target state.slot offset) }
{
    let target = state.slot as i64 + 1 + i64::from(offset);
    if target < 0 {
        return StepOutcome::Traps(TrapCause::OutsideCode);
    }
    state.slot = target as usize;
    StepOutcome::Continues(state)
}

/// Whether the condition holds of two numbers.
fn test(
    state: &Running,
    width: Width,
    condition: Condition,
    dst: Register,
    src: Operand,
) -> Result<bool, TrapCause>
    ensures { (go : Bool → Effect) → number_in (registers_of state.now.registers dst) (λ x.
        number_in (operand_in (state_of state.now) src) (λ y.
        go (holds condition (bits_of width) (x % 2 ^ bits_of width) (y % 2 ^ bits_of width))))
        ≡ deciding go result }
{
    let left = number(content(state, dst))?;
    let right = number(operand(state, src))?;
    Ok(holds(
        condition,
        width,
        low_bits(width, left),
        low_bits(width, right),
    ))
}

/// A jump where the condition holds, and the next slot where it doesn't.
pub(crate) fn jump_if(
    mut state: Running,
    width: Width,
    condition: Condition,
    dst: Register,
    src: Operand,
    offset: i16,
) -> StepOutcome
    requires { state.slot < 4294967296 }
    ensures { (p : Program) (entries : Entries)
        → effect_of result
        ≡ meaning p entries (state_of state) (JumpIf width condition dst src offset) }
{
    match test(&state, width, condition, dst, src) {
        Err(cause) => StepOutcome::Traps(cause),
        Ok(true) => jump(state, i32::from(offset)),
        Ok(false) => {
            state.slot += 1;
            StepOutcome::Continues(state)
        }
    }
}
