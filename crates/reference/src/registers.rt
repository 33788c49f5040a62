//! What the reference reads from a task's registers, and how it puts a value there.

ghost use Rattle.std.specs.Prelude.{◌≡◌, ◌<◌, ◌+◌, ℕ, Some};
ghost use Rattle.insn_codec.specs.declared.insn.Insn.{Insn};
ghost use Rattle.machine_model.specs.Edges.{Always, leads};
ghost use Rattle.machine_model.specs.Machine.{Effect, moved, number_in, onward, operand_in, reading};
ghost use Rattle.machine_model.specs.Operators.{residue};
ghost use Rattle.reference.specs.Records.{counting, effect_of, holding, registers_of, state_of, value_of};
ghost use Rattle.machine_model.specs.Value.{Value};

use crate::records::{Content, Running, StepOutcome, TrapCause};
use insn_codec::{Operand, Register};

pub(crate) fn content(state: &Running, register: Register) -> Content
    ensures { value_of result ≡ registers_of state.now.registers register }
{
    state.registers[register.number() as usize]
}

/// The number that an instruction has, extended by its sign.
pub(crate) fn immediate(imm: i32) -> u64
    ensures { result ≡ residue 64 imm }
{
    i64::from(imm).cast_unsigned()
}

pub(crate) fn operand(state: &Running, src: Operand) -> Content
    ensures { value_of result ≡ operand_in (state_of state.now) src }
{
    match src {
        Operand::Imm(imm) => Content::Num(immediate(imm)),
        Operand::Reg(register) => content(state, register),
    }
}

/// What is read, which has to be set.
pub(crate) fn set(content: Content) -> Result<Content, TrapCause>
    ensures { (go : Value → Effect) → reading (value_of content) go ≡ holding go result }
{
    match content {
        Content::Unset => Err(TrapCause::UnsetRead),
        set => Ok(set),
    }
}

/// What is read, which has to be a number.
pub(crate) fn number(content: Content) -> Result<u64, TrapCause>
    ensures { (go : ℕ → Effect) → number_in (value_of content) go ≡ counting go result }
{
    match content {
        Content::Unset => Err(TrapCause::UnsetRead),
        Content::Num(number) => Ok(number),
        Content::Stack(_) => Err(TrapCause::WrongKind),
        Content::Part(_) => Err(TrapCause::WrongKind),
    }
}

/// On to the next slot, with a value in a register.
pub(crate) fn put(mut state: Running, dst: Register, value: Content) -> StepOutcome
    requires { state.slot < 4294967296 }
    ensures { (i : Insn) → leads i state.slot Always ≡ Some (state.slot + 1) →
        effect_of result ≡ onward i Always (moved (state_of state) dst (value_of value)) }
{
    state.registers[dst.number() as usize] = value;
    state.slot += 1;
    StepOutcome::Continues(state)
}
