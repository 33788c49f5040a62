//! What an instruction has to find known, and what it leaves in its destination. The hints on
//! inlining keep what is known of a register out of memory.

ghost use Rattle.std.specs.Prelude.{◌≡◌, ◌+◌, ◌≤◌, ◌<◌, IfNone, ℤ, pos, ◌+ℤ◌, int_lt, ◌||◌};
ghost use Rattle.value_ranges.specs.Tables.{value_table, IsArithmetic, IsReadSet, IsSet};
ghost use Rattle.helpers.specs.Table.{arity_in};
ghost use Rattle.machine_model.specs.Memory.{store_bytes, load_bytes};
ghost use Rattle.instruction_rules.specs.Covers.{abs_at};
ghost use Rattle.instruction_rules.specs.States.{fault, first_rule, unset_fault, number_fault, region_fault, access_fault, table_fault, write_fault, call_fault, or_unset, answer_range};
ghost use Rattle.instruction_rules.specs.Judged.{judged, destination_left};
ghost use Rattle.value_ranges.specs.Words.{load_range};

use crate::calls::call_fault;
use crate::rule::Rule;
use crate::state::AbsState;
use helpers::HelperTable;
use insn_codec::{Insn, LoadKind, Register, Size};
use machine_model::memory::{load_bytes, store_bytes};
use machine_model::{MAX_CREDIT, MAX_PART};
use value_ranges::{Abs, Reach, compute, loaded};

/// The fault of a register that is read unset.
pub(crate) fn unset_fault(abs: &Abs) -> Option<Rule>
    ensures fault { result ≡ unset_fault abs.now }
    ensures set { IfNone result (IsSet abs.now) }
{
    match abs {
        Abs::Unset => Some(Rule::UnsetRead),
        _ => None,
    }
}

/// The fault of a register that has no number.
pub(crate) fn number_fault(abs: &Abs) -> Option<Rule>
    ensures { result ≡ number_fault abs.now }
{
    match abs {
        Abs::Unset => Some(Rule::UnsetRead),
        Abs::Num(_) => None,
        Abs::Stack(_) | Abs::Part(_) => Some(Rule::BadKind),
    }
}

/// The fault of a write of R10.
fn write_fault(register: Register) -> Option<Rule>
    ensures { result ≡ write_fault register }
{
    if register.number() == 10 {
        Some(Rule::FramePointer)
    } else {
        None
    }
}

/// Where bytes begin that lie at a position, moved by an offset.
#[tactic(auto, using(crate::proofs::StateLemmas::signed_values))]
fn start_of(position: i32, offset: i16) -> i128
    ensures { result ≡ position +ℤ offset }
{
    i128::from(position) + i128::from(offset)
}

/// Where so many bytes end that lie at a position, moved by an offset.
#[tactic(auto, using(crate::proofs::StateLemmas::signed_values))]
fn end_of(position: i32, offset: i16, count: u64) -> i128
    ensures { result ≡ position +ℤ offset +ℤ pos count }
{
    i128::from(position) + i128::from(offset) + i128::from(count)
}

/// Whether what goes from one position to another leaves a region of that size.
#[tactic(auto, using(crate::proofs::StateLemmas::signed_values))]
fn lies_outside(size: u32, from: i128, end: i128) -> bool
    ensures { result ≡ (int_lt from (pos 0) || int_lt (pos size) end) }
{
    from < 0 || i128::from(size) < end
}

/// The fault of so many bytes at a position, moved by an offset, of which some may lie outside a
/// region of that size.
fn region_fault(rule: Rule, size: u32, reach: Reach, offset: i16, count: u64) -> Option<Rule>
    ensures { result ≡ region_fault rule size reach offset count }
{
    let from = start_of(reach.lo(), offset);
    let end = end_of(reach.hi(), offset, count);
    if lies_outside(size, from, end) {
        Some(rule)
    } else {
        None
    }
}

/// The fault of an access of so many bytes, which may leave the stack or a part of that need, or
/// whose address is none.
pub(crate) fn access_fault(need: u32, abs: Abs, offset: i16, count: u64) -> Option<Rule>
    ensures { result ≡ access_fault need abs offset count }
{
    match abs {
        Abs::Unset => Some(Rule::UnsetRead),
        Abs::Num(_) => Some(Rule::BadKind),
        Abs::Stack(reach) => region_fault(Rule::OutOfStack, 512, reach, offset, count),
        Abs::Part(reach) => region_fault(Rule::OutOfPart, need, reach, offset, count),
    }
}

/// What an instruction leaves in its destination, unless it is refused.
fn unless_refused(fault: Option<Rule>, left: Abs) -> Result<Abs, Rule>
    ensures { result ≡ judged fault left }
{
    match fault {
        Some(rule) => Err(rule),
        None => Ok(left),
    }
}

/// What an instruction without a destination leaves, unless it is refused: nothing.
fn nothing_unless_refused(fault: Option<Rule>) -> Result<Abs, Rule>
    ensures { result ≡ judged fault Abs.Unset }
{
    unless_refused(fault, Abs::Unset)
}

/// What is left in a destination, unless that may not be written.
fn leave_in(to: Register, left: Abs) -> Result<Abs, Rule>
    ensures { result ≡ judged (write_fault to) left }
{
    unless_refused(write_fault(to), left)
}

/// What the table gives for an arithmetic instruction or a move, if it allows it and the
/// destination may be written.
#[inline(always)]
fn compute_into(insn: &Insn, dst: Abs, src: Abs, to: Register) -> Result<Abs, Rule>
    requires arithmetic { IsArithmetic insn.now }
    requires set { IsReadSet insn.now dst src }
    ensures { result
        ≡ judged (first_rule (table_fault (value_table insn.now dst src)) (write_fault to))
        (or_unset (value_table insn.now dst src)) }
{
    match compute(insn, dst, src) {
        Err(fault) => Err(Rule::of_pointer(fault)),
        Ok(left) => leave_in(to, left),
    }
}

/// What a load leaves, if it is allowed and its destination may be written.
fn load(need: u32, base: Abs, offset: i16, kind: LoadKind, to: Register) -> Result<Abs, Rule>
    ensures { result
        ≡ judged (first_rule (access_fault need base offset (load_bytes kind)) (write_fault to))
        (load_range kind) }
{
    match access_fault(need, base, offset, load_bytes(kind) as u64) {
        Some(rule) => Err(rule),
        None => leave_in(to, loaded(kind)),
    }
}

/// A store of a number leaves nothing, if it is allowed.
fn store(need: u32, base: Abs, offset: i16, size: Size) -> Result<Abs, Rule>
    ensures { result ≡ judged (access_fault need base offset (store_bytes size)) Abs.Unset }
{
    nothing_unless_refused(access_fault(need, base, offset, store_bytes(size) as u64))
}

/// A store of a register leaves nothing, if it is allowed.
fn store_register(need: u32, base: Abs, offset: i16, size: Size, src: Abs) -> Result<Abs, Rule>
    ensures { result ≡ judged (first_rule (unset_fault base) (first_rule (unset_fault src)
        (first_rule (access_fault need base offset (store_bytes size)) (number_fault src))))
        Abs.Unset }
{
    if let Some(rule) = unset_fault(&base) {
        return Err(rule);
    }
    if let Some(rule) = unset_fault(&src) {
        return Err(rule);
    }
    match access_fault(need, base, offset, store_bytes(size) as u64) {
        Some(rule) => Err(rule),
        None => nothing_unless_refused(number_fault(&src)),
    }
}

/// A comparison leaves nothing, if its operands both are numbers.
fn compare(dst: Abs, src: Abs) -> Result<Abs, Rule>
    ensures { result
        ≡ judged (first_rule (unset_fault dst)
        (first_rule (unset_fault src) (first_rule (number_fault dst) (number_fault src))))
        Abs.Unset }
{
    if let Some(rule) = unset_fault(&dst) {
        return Err(rule);
    }
    if let Some(rule) = unset_fault(&src) {
        return Err(rule);
    }
    match number_fault(&dst) {
        Some(rule) => Err(rule),
        None => nothing_unless_refused(number_fault(&src)),
    }
}

/// What a move leaves, which reads its second operand alone.
#[inline(always)]
fn move_into(insn: &Insn, dst: Abs, src: Abs, to: Register) -> Result<Abs, Rule>
    requires arithmetic { IsArithmetic insn.now }
    requires reads { IsSet src → IsReadSet insn.now dst src }
    ensures { result
        ≡ judged (first_rule (unset_fault src)
        (first_rule (table_fault (value_table insn.now dst src)) (write_fault to)))
        (or_unset (value_table insn.now dst src)) }
{
    match unset_fault(&src) {
        Some(rule) => Err(rule),
        None => compute_into(insn, dst, src, to),
    }
}

/// What an arithmetic instruction leaves that reads its destination alone.
#[inline(always)]
fn unary(insn: &Insn, dst: Abs, src: Abs, to: Register) -> Result<Abs, Rule>
    requires arithmetic { IsArithmetic insn.now }
    requires reads { IsSet dst → IsReadSet insn.now dst src }
    ensures { result
        ≡ judged (first_rule (unset_fault dst)
        (first_rule (table_fault (value_table insn.now dst src)) (write_fault to)))
        (or_unset (value_table insn.now dst src)) }
{
    match unset_fault(&dst) {
        Some(rule) => Err(rule),
        None => compute_into(insn, dst, src, to),
    }
}

/// What an arithmetic instruction leaves that reads both operands.
#[inline(always)]
fn binary(insn: &Insn, dst: Abs, src: Abs, to: Register) -> Result<Abs, Rule>
    requires arithmetic { IsArithmetic insn.now }
    requires reads { IsSet dst → IsSet src → IsReadSet insn.now dst src }
    ensures { result
        ≡ judged (first_rule (unset_fault dst)
        (first_rule (unset_fault src)
        (first_rule (table_fault (value_table insn.now dst src)) (write_fault to))))
        (or_unset (value_table insn.now dst src)) }
{
    if let Some(rule) = unset_fault(&dst) {
        return Err(rule);
    }
    match unset_fault(&src) {
        Some(rule) => Err(rule),
        None => compute_into(insn, dst, src, to),
    }
}

/// What a helper answers.
fn answer_range(helper: u32) -> Abs
    ensures { result ≡ answer_range helper }
{
    match helper {
        1 => Abs::between(0, 6),
        2 => Abs::between(0, u64::from(MAX_CREDIT)),
        3 => Abs::between(0, MAX_PART as u64),
        4 => Abs::between(0, 0),
        5 => Abs::between(0, 130_560),
        _ => Abs::any_number(),
    }
}

/// A call leaves its answer, if it is allowed.
fn call(need: u32, helpers: &HelperTable, state: &AbsState, helper: u32) -> Result<Abs, Rule>
    ensures { result
        ≡ judged (call_fault need state.now helper (arity_in helpers.now helper))
        (answer_range helper) }
{
    unless_refused(
        call_fault(need, helpers, state, helper),
        answer_range(helper),
    )
}

/// What the instruction leaves in its destination, or the rule of the lowest number that it breaks
/// where the registers are so.
#[inline(always)]
pub fn judge(need: u32, helpers: &HelperTable, insn: &Insn, state: &AbsState) -> Result<Abs, Rule>
    ensures { result
        ≡ judged (fault need helpers.now insn.now state.now) (destination_left insn.now state.now) }
{
    match *insn {
        Insn::Alu { dst, src, .. } => binary(insn, state.at(dst), state.operand(&src), dst),
        Insn::Mov { dst, src, .. } => move_into(insn, state.at(dst), state.operand(&src), dst),
        Insn::MovSx { dst, src, .. } => move_into(insn, state.at(dst), state.at(src), dst),
        Insn::Neg { dst, .. } | Insn::End { dst, .. } => unary(
            insn,
            state.at(dst),
            state.at(dst),
            dst,
        ),
        Insn::LoadWide { dst, value } => leave_in(dst, Abs::single(value)),
        Insn::Load {
            kind,
            dst,
            base,
            offset,
        } => load(need, state.at(base), offset, kind, dst),
        Insn::Store {
            size,
            base,
            offset,
            ..
        } => store(need, state.at(base), offset, size),
        Insn::StoreRegister {
            size,
            base,
            offset,
            src,
        } => store_register(need, state.at(base), offset, size, state.at(src)),
        Insn::Jump { .. } | Insn::Jump32 { .. } => Ok(Abs::Unset),
        Insn::JumpIf { dst, src, .. } => compare(state.at(dst), state.operand(&src)),
        Insn::Call { helper } => call(need, helpers, state, helper),
        Insn::Exit => nothing_unless_refused(number_fault(&state.at(Register::new(0)))),
    }
}
