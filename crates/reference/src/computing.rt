//! The reference's arithmetic and moves, by the exact operators.

ghost use Rattle.std.specs.Prelude.{◌≡◌, ℕ, ◌+◌, ◌<◌, Some, option_map, IfOk, IsErr};
ghost use Rattle.insn_codec.specs.declared.insn.Insn.{Insn};
ghost use Rattle.insn_codec.specs.declared.insn.Insn.TheVariants.{Alu, End, LoadWide, Mov, MovSx, Neg};
ghost use Rattle.machine_model.specs.Edges.{Always, leads};
ghost use Rattle.machine_model.specs.Machine.{Effect, Entries, Program, given, meaning, moved, onward, operand_in, reading};
ghost use Rattle.machine_model.specs.Outcomes.{alu_outcome, mov_outcome, position_after, position_onto};
ghost use Rattle.reference.specs.Records.{GoesFar, IsFarPosition, IsFarResult, effect_of, holding_both, registers_of, state_of, value_of};
ghost use Rattle.machine_model.specs.Value.{Value};

use crate::records::{Content, Running, StepOutcome, TrapCause, Unanswered};
use crate::registers::{content, number, operand, put, set};
use insn_codec::{AluOp, ByteOrder, EndSize, Operand, Register, SignExtension, Width};
use machine_model::{alu_number, low_bits, negate, reorder_bytes, sign_extend, signed};

/// A position moved by a number that is read as signed. None where the operator has no such result.
fn position_after(
    width: Width,
    op: AluOp,
    position: i64,
    number: u64,
) -> Result<Option<i64>, Unanswered>
    ensures value { IfOk result (λ o. o ≡ position_after width op position number) }
    ensures far { IsErr result → IsFarPosition (position_after width op position number) }
{
    let by = signed(Width::W64, number);
    let moved = match (width, op) {
        (Width::W64, AluOp::Add) => position.checked_add(by),
        (Width::W64, AluOp::Sub) => position.checked_sub(by),
        _ => return Ok(None),
    };
    match moved {
        Some(moved) => Ok(Some(moved)),
        None => Err(Unanswered::TooLarge),
    }
}

/// Where a pointer as the second operand leads, with a number as the first.
fn position_onto(
    width: Width,
    op: AluOp,
    number: u64,
    position: i64,
) -> Result<Option<i64>, Unanswered>
    ensures value { IfOk result (λ o. o ≡ position_onto width op number position) }
    ensures far { IsErr result → IsFarPosition (position_onto width op number position) }
{
    match (width, op) {
        (Width::W64, AluOp::Add) => position_after(width, op, position, number),
        _ => Ok(None),
    }
}

/// What the operator gives on what its operands hold. None where one is of the wrong kind.
fn alu_content(
    width: Width,
    op: AluOp,
    left: Content,
    right: Content,
) -> Result<Option<Content>, Unanswered>
    ensures value { IfOk result (λ o. option_map value_of o
        ≡ alu_outcome width op (value_of left) (value_of right)) }
    ensures far { IsErr result
        → IsFarResult (alu_outcome width op (value_of left) (value_of right)) }
{
    match (left, right) {
        (Content::Num(x), Content::Num(y)) => {
            Ok(Some(Content::Num(alu_number(op, width, x, y))))
        }
        (Content::Stack(position), Content::Num(number)) => {
            Ok(position_after(width, op, position, number)?.map(Content::Stack))
        }
        (Content::Part(position), Content::Num(number)) => {
            Ok(position_after(width, op, position, number)?.map(Content::Part))
        }
        (Content::Num(number), Content::Stack(position)) => {
            Ok(position_onto(width, op, number, position)?.map(Content::Stack))
        }
        (Content::Num(number), Content::Part(position)) => {
            Ok(position_onto(width, op, number, position)?.map(Content::Part))
        }
        _ => Ok(None),
    }
}

/// What both operands hold, which have to be set.
fn operands(state: &Running, dst: Register, src: Operand) -> Result<(Content, Content), TrapCause>
    ensures { (go : Value → Value → Effect) → reading (registers_of state.now.registers dst) (λ x.
        reading (operand_in (state_of state.now) src) (λ y. go x y)) ≡ holding_both go result }
{
    let left = set(content(state, dst))?;
    let right = set(operand(state, src))?;
    Ok((left, right))
}

/// On to the next slot with this value in a register, where there is one.
fn put_given(state: Running, dst: Register, value: Option<Content>) -> StepOutcome
    requires { state.slot < 4294967296 }
    ensures { (i : Insn) → leads i state.slot Always ≡ Some (state.slot + 1) →
        effect_of result
        ≡ given (option_map value_of value)
        (λ v. onward i Always (moved (state_of state) dst v)) }
{
    match value {
        None => StepOutcome::Traps(TrapCause::WrongKind),
        Some(value) => put(state, dst, value),
    }
}

/// An operator with two operands.
pub(crate) fn alu(
    state: Running,
    width: Width,
    op: AluOp,
    dst: Register,
    src: Operand,
) -> Result<StepOutcome, Unanswered>
    requires { state.slot < 4294967296 }
    ensures value { (p : Program) (entries : Entries)
        → IfOk result (λ e. effect_of e
        ≡ meaning p entries (state_of state) (Alu width op dst src)) }
    ensures far { (p : Program) (entries : Entries) → IsErr result
        → GoesFar (meaning p entries (state_of state) (Alu width op dst src)) }
{
    if dst.number() == 10 {
        return Ok(StepOutcome::Traps(TrapCause::WritesStackEnd));
    }
    match operands(&state, dst, src) {
        Err(cause) => Ok(StepOutcome::Traps(cause)),
        Ok((left, right)) => {
            let value = alu_content(width, op, left, right)?;
            Ok(put_given(state, dst, value))
        }
    }
}

/// What a move of the width makes of a value.
fn mov_content(width: Width, content: Content) -> Option<Content>
    ensures { option_map value_of result ≡ mov_outcome width (value_of content) }
{
    match width {
        Width::W64 => match content {
            Content::Unset => None,
            set => Some(set),
        },
        Width::W32 => match content {
            Content::Num(number) => Some(Content::Num(low_bits(Width::W32, number))),
            _ => None,
        },
    }
}

/// A move.
pub(crate) fn mov(state: Running, width: Width, dst: Register, src: Operand) -> StepOutcome
    requires { state.slot < 4294967296 }
    ensures { (p : Program) (entries : Entries)
        → effect_of result ≡ meaning p entries (state_of state) (Mov width dst src) }
{
    if dst.number() == 10 {
        return StepOutcome::Traps(TrapCause::WritesStackEnd);
    }
    match set(operand(&state, src)) {
        Err(cause) => StepOutcome::Traps(cause),
        Ok(value) => put_given(state, dst, mov_content(width, value)),
    }
}

/// A move that extends a sign.
pub(crate) fn mov_extended(
    state: Running,
    extension: SignExtension,
    dst: Register,
    src: Register,
) -> StepOutcome
    requires { state.slot < 4294967296 }
    ensures { (p : Program) (entries : Entries)
        → effect_of result ≡ meaning p entries (state_of state) (MovSx extension dst src) }
{
    if dst.number() == 10 {
        return StepOutcome::Traps(TrapCause::WritesStackEnd);
    }
    match number(content(&state, src)) {
        Err(cause) => StepOutcome::Traps(cause),
        Ok(x) => put(state, dst, Content::Num(sign_extend(extension, x))),
    }
}

/// A negation.
pub(crate) fn neg(state: Running, width: Width, dst: Register) -> StepOutcome
    requires { state.slot < 4294967296 }
    ensures { (p : Program) (entries : Entries)
        → effect_of result ≡ meaning p entries (state_of state) (Neg width dst) }
{
    if dst.number() == 10 {
        return StepOutcome::Traps(TrapCause::WritesStackEnd);
    }
    match number(content(&state, dst)) {
        Err(cause) => StepOutcome::Traps(cause),
        Ok(x) => put(state, dst, Content::Num(negate(width, x))),
    }
}

/// The bytes in another order.
pub(crate) fn reorder(state: Running, order: ByteOrder, size: EndSize, dst: Register) -> StepOutcome
    requires { state.slot < 4294967296 }
    ensures { (p : Program) (entries : Entries)
        → effect_of result ≡ meaning p entries (state_of state) (End order size dst) }
{
    if dst.number() == 10 {
        return StepOutcome::Traps(TrapCause::WritesStackEnd);
    }
    match number(content(&state, dst)) {
        Err(cause) => StepOutcome::Traps(cause),
        Ok(x) => put(state, dst, Content::Num(reorder_bytes(order, size, x))),
    }
}

/// A number of 64 bits, from an instruction of two slots.
pub(crate) fn load_wide(mut state: Running, dst: Register, value: u64) -> StepOutcome
    requires { state.slot < 4294967296 }
    ensures { (p : Program) (entries : Entries)
        → effect_of result ≡ meaning p entries (state_of state) (LoadWide dst value) }
{
    if dst.number() == 10 {
        return StepOutcome::Traps(TrapCause::WritesStackEnd);
    }
    state.registers[dst.number() as usize] = Content::Num(value);
    state.slot += 2;
    StepOutcome::Continues(state)
}
