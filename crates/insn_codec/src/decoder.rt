//! Decoding: from the bytes of a program to its instructions, or the refusal.

ghost use Rattle.std.specs.Prelude.{◌≡◌, ◌≢◌, ◌≤◌, ◌<◌, ◌%◌, ◌+◌, ◌*◌, ◌⊎◌, length, IfOk, IfErr, MatchResult};
ghost use Rattle.insn_codec.specs.declared.operation.Operation.TheVariants as row;
ghost use Rattle.insn_codec.specs.Layout.{slot_at};
ghost use Rattle.insn_codec.specs.Spelling.{IsInsn, IsOperand, first_slot, other_slots, slots_of, half, IsClean, IsRefusal, IsProgram};
ghost use Rattle.insn_codec.specs.Steps.{IsSpelledBy, StepFault, FieldFault, HalfFault, BeginsWith, fault_at, IsSource, SpellsOperand, high_slots};

use crate::fault::CodecFault;
use crate::insn::{AluOp, Condition, Insn, LoadKind, Operand, Placed, Size, Width};
use crate::limits::MAX_SLOTS;
use crate::opcodes::operation_by_opcode;
use crate::operation::{
    Operation, Source, fields_used, operation_from, registers_are_named, unused_are_zero,
};
use crate::register::Register;
use crate::slot::{Slot, read_slot};
use std::alloc::Global;

/// Why no instruction begins at a slot.
#[derive(Clone, Copy, Debug, PartialEq, Eq)]
pub enum SlotFault {
    UnknownOp,
    BadRegister,
    UnusedField,
    HalfWide,
}

fn operand_from(source: Source, slot: &Slot) -> Operand
    requires { IsSource source slot.now }
    ensures spelled { SpellsOperand source slot.now result }
    ensures fits { IsOperand result }
{
    match source {
        Source::Imm => Operand::Imm(slot.imm.cast_signed()),
        Source::Reg => Operand::Reg(Register::new(slot.src)),
    }
}

fn alu_insn(width: Width, op: AluOp, source: Source, slot: &Slot) -> Insn
    requires { IsClean (row.Alu width op source) slot.now }
    ensures { IsSpelledBy result (row.Alu width op source) slot.now 0 }
{
    Insn::Alu {
        width,
        op,
        dst: Register::new(slot.dst),
        src: operand_from(source, slot),
    }
}

fn mov_insn(width: Width, source: Source, slot: &Slot) -> Insn
    requires { IsClean (row.Mov width source) slot.now }
    ensures { IsSpelledBy result (row.Mov width source) slot.now 0 }
{
    Insn::Mov {
        width,
        dst: Register::new(slot.dst),
        src: operand_from(source, slot),
    }
}

fn wide_insn(slot: &Slot, high: u32) -> Insn
    requires { IsClean row.LoadWide slot.now }
    ensures { IsSpelledBy result row.LoadWide slot.now high }
{
    Insn::LoadWide {
        dst: Register::new(slot.dst),
        value: u64::from(high) * 0x1_0000_0000 + u64::from(slot.imm),
    }
}

fn load_insn(kind: LoadKind, slot: &Slot) -> Insn
    requires { IsClean (row.Load kind) slot.now }
    ensures { IsSpelledBy result (row.Load kind) slot.now 0 }
{
    Insn::Load {
        kind,
        dst: Register::new(slot.dst),
        base: Register::new(slot.src),
        offset: slot.offset.cast_signed(),
    }
}

fn store_insn(size: Size, slot: &Slot) -> Insn
    requires { IsClean (row.Store size) slot.now }
    ensures { IsSpelledBy result (row.Store size) slot.now 0 }
{
    Insn::Store {
        size,
        base: Register::new(slot.dst),
        offset: slot.offset.cast_signed(),
        imm: slot.imm.cast_signed(),
    }
}

fn store_register_insn(size: Size, slot: &Slot) -> Insn
    requires { IsClean (row.StoreRegister size) slot.now }
    ensures { IsSpelledBy result (row.StoreRegister size) slot.now 0 }
{
    Insn::StoreRegister {
        size,
        base: Register::new(slot.dst),
        offset: slot.offset.cast_signed(),
        src: Register::new(slot.src),
    }
}

fn jump_if_insn(width: Width, condition: Condition, source: Source, slot: &Slot) -> Insn
    requires { IsClean (row.JumpIf width condition source) slot.now }
    ensures { IsSpelledBy result (row.JumpIf width condition source) slot.now 0 }
{
    Insn::JumpIf {
        width,
        condition,
        dst: Register::new(slot.dst),
        src: operand_from(source, slot),
        offset: slot.offset.cast_signed(),
    }
}

/// The instruction that a slot begins, with the other half of a wide value.
fn insn_from(operation: Operation, slot: Slot, high: u32) -> Insn
    requires { IsClean operation slot }
    ensures { IsSpelledBy result operation slot high }
{
    match operation {
        Operation::Alu(width, op, source) => alu_insn(width, op, source, &slot),
        Operation::Mov(width, source) => mov_insn(width, source, &slot),
        Operation::MovSx(extension) => Insn::MovSx {
            extension,
            dst: Register::new(slot.dst),
            src: Register::new(slot.src),
        },
        Operation::Neg(width) => Insn::Neg {
            width,
            dst: Register::new(slot.dst),
        },
        Operation::End(order, size) => Insn::End {
            order,
            size,
            dst: Register::new(slot.dst),
        },
        Operation::LoadWide => wide_insn(&slot, high),
        Operation::Load(kind) => load_insn(kind, &slot),
        Operation::Store(size) => store_insn(size, &slot),
        Operation::StoreRegister(size) => store_register_insn(size, &slot),
        Operation::Jump => Insn::Jump {
            offset: slot.offset.cast_signed(),
        },
        Operation::Jump32 => Insn::Jump32 {
            offset: slot.imm.cast_signed(),
        },
        Operation::JumpIf(width, condition, source) => jump_if_insn(
            width, condition, source, &slot,
        ),
        Operation::Call => Insn::Call { helper: slot.imm },
        Operation::Exit => Insn::Exit,
    }
}

/// The row of a slot with no fault of fields, or the fault.
#[inline(never)]
fn clean_operation(slot: &Slot) -> Result<Operation, SlotFault>
    ensures { MatchResult result (λ op. IsClean op slot.now) (λ e. FieldFault e slot.now) }
{
    let Some(operation) = operation_from(slot) else {
        return Err(SlotFault::UnknownOp);
    };
    let used = fields_used(operation);
    if !registers_are_named(used, slot) {
        return Err(SlotFault::BadRegister);
    }
    if !unused_are_zero(used, slot) {
        return Err(SlotFault::UnusedField);
    }
    Ok(operation)
}

/// The row of the first slot, with no fault of fields, or the fault. The table of opcodes has most.
fn first_operation(rest: &[u8], slot: &Slot) -> Result<Operation, SlotFault>
    requires long { 8 ≤ length rest.now }
    requires read { slot.now ≡ slot_at rest.now }
    ensures { MatchResult result (λ op. IsClean op slot.now) (λ e. FieldFault e slot.now) }
{
    match operation_by_opcode(slot) {
        Some(operation) => Ok(operation),
        // read anew, so that `slot` needs no place in memory
        None => clean_operation(&read_slot(rest)),
    }
}

/// What follows the first slot of a wide instruction: the other half of its value.
fn high_half(after: &[u8]) -> Result<u32, SlotFault>
    requires { (length after.now ≡ 0) ⊎ (8 ≤ length after.now) }
    ensures { MatchResult result (λ high. (8 ≤ length after.now)
        × (slot_at after.now ≡ half high)) (λ e. HalfFault e after.now) }
{
    if after.is_empty() {
        return Err(SlotFault::HalfWide);
    }
    let slot = read_slot(after);
    if slot.opcode != 0 || slot.dst != 0 || slot.src != 0 || slot.offset != 0 {
        return Err(SlotFault::UnusedField);
    }
    Ok(slot.imm)
}

/// The instruction at the front.
fn first_insn(rest: &[u8]) -> Result<Insn, SlotFault>
    requires some { 0 < length rest.now }
    requires even { length rest.now % 8 ≡ 0 }
    ensures found { IfOk result (λ insn. BeginsWith insn rest.now) }
    ensures fault { IfErr result (λ e. StepFault e rest.now) }
{
    let slot = read_slot(rest);
    let operation = first_operation(rest, &slot)?;
    let high = match operation {
        Operation::LoadWide => high_half(rest.split_at(8).1)?,
        _ => 0,
    };
    Ok(insn_from(operation, slot, high))
}

impl SlotFault {
    fn at(self, slot: u32) -> CodecFault
        ensures { result ≡ fault_at self slot }
    {
        match self {
            SlotFault::UnknownOp => CodecFault::UnknownOp(slot),
            SlotFault::BadRegister => CodecFault::BadRegister(slot),
            SlotFault::UnusedField => CodecFault::UnusedField(slot),
            SlotFault::HalfWide => CodecFault::HalfWide(slot),
        }
    }
}

impl Insn {
    /// How many slots it takes.
    pub fn slots(&self) -> u32
        ensures value { result ≡ length (slots_of self.now) }
        ensures small { result ≤ 2 }
    {
        match self {
            Insn::LoadWide { .. } => 2,
            _ => 1,
        }
    }
}

/// The instructions whose spellings, joined, are the bytes.
pub fn decode(alloc: Global, bytes: &[u8]) -> Result<Vec<Placed>, CodecFault>
    ensures found { IfOk result (λ v. IsProgram v.items bytes.now) }
    ensures refused { IfErr result (λ e. IsRefusal e bytes.now) }
{
    if bytes.is_empty() {
        return Err(CodecFault::Empty);
    }
    if bytes.len() % 8 != 0 {
        return Err(CodecFault::Ragged);
    }
    if bytes.len() > 8 * MAX_SLOTS {
        return Err(CodecFault::TooLong);
    }
    let mut placed = Vec::with_capacity(alloc, bytes.len() / 8)?;
    let mut rest = bytes;
    let mut slot = 0;
    while !rest.is_empty() {
        let insn = match first_insn(rest) {
            Ok(insn) => insn,
            Err(fault) => return Err(fault.at(slot)),
        };
        placed.push_reserved(Placed { slot, insn });
        let slots = insn.slots();
        rest = rest.split_at(8 * slots as usize).1;
        slot += slots;
    }
    Ok(placed)
}
