//! Encoding: from instructions to the bytes of a program, or the refusal.

ghost use Rattle.std.specs.Prelude.{◌≡◌, unwrap_or, ◌++◌, ◌≤◌, ◌<◌, ◌↔◌, ◌*◌, length, IfOk, IfErr, OnOk, IsTrue};
ghost use Rattle.insn_codec.specs.Layout.{FitsSlot, slot_bytes};
ghost use Rattle.insn_codec.specs.Table.{opcode_of, code_of, selecting_offset, condition_code, size_code, load_code, extended_bits, end_bits, source_code, alu_class, jump_class};
ghost use Rattle.insn_codec.specs.Spelling.{first_slot, row_of, operand_source, operand_src, operand_imm, spelling, spellings, IsWhole, IsUnspelled};
ghost use Rattle.insn_codec.specs.Limits.{max_slots};

use crate::fault::CodecFault;
use crate::insn::{
    AluOp, ByteOrder, Condition, EndSize, Insn, LoadKind, Operand, SignExtension, Size, Width,
};
use crate::limits::MAX_SLOTS;
use crate::operation::{Operation, Source};
use crate::slot::{Slot, bytes_of_slot};
use std::alloc::{AllocError, Global};

fn code_of_alu_op(op: AluOp) -> u8
    ensures value { result ≡ code_of op }
    ensures small { result ≤ 12 }
{
    match op {
        AluOp::Add => 0,
        AluOp::Sub => 1,
        AluOp::Mul => 2,
        AluOp::Div | AluOp::Sdiv => 3,
        AluOp::Or => 4,
        AluOp::And => 5,
        AluOp::Lsh => 6,
        AluOp::Rsh => 7,
        AluOp::Mod | AluOp::Smod => 9,
        AluOp::Xor => 10,
        AluOp::Arsh => 12,
    }
}

/// The offset of an operation with two operands, which chooses some of them.
fn offset_of_alu_op(op: AluOp) -> u16
    ensures { result ≡ unwrap_or (selecting_offset op) 0 }
{
    match op {
        AluOp::Sdiv | AluOp::Smod => 1,
        _ => 0,
    }
}

fn code_of_condition(condition: Condition) -> u8
    ensures value { result ≡ condition_code condition }
    ensures small { result ≤ 13 }
{
    match condition {
        Condition::Equal => 1,
        Condition::Greater => 2,
        Condition::GreaterEqual => 3,
        Condition::Set => 4,
        Condition::NotEqual => 5,
        Condition::SignedGreater => 6,
        Condition::SignedGreaterEqual => 7,
        Condition::Less => 10,
        Condition::LessEqual => 11,
        Condition::SignedLess => 12,
        Condition::SignedLessEqual => 13,
    }
}

fn code_of_size(size: Size) -> u8
    ensures value { result ≡ size_code size }
    ensures small { result ≤ 3 }
{
    match size {
        Size::Word => 0,
        Size::Half => 1,
        Size::Byte => 2,
        Size::Double => 3,
    }
}

fn code_of_load(kind: LoadKind) -> u8
    ensures value { result ≡ load_code kind }
    ensures small { result ≤ 144 }
{
    match kind {
        LoadKind::Word => 0x60,
        LoadKind::Half => 0x68,
        LoadKind::Byte => 0x70,
        LoadKind::Double => 0x78,
        LoadKind::SignedWord => 0x80,
        LoadKind::SignedHalf => 0x88,
        LoadKind::SignedByte => 0x90,
    }
}

fn bits_of_extension(extension: SignExtension) -> u16
    ensures { result ≡ extended_bits extension }
{
    match extension {
        SignExtension::From8To32 | SignExtension::From8To64 => 8,
        SignExtension::From16To32 | SignExtension::From16To64 => 16,
        SignExtension::From32To64 => 32,
    }
}

fn bits_of_end(size: EndSize) -> u32
    ensures { result ≡ end_bits size }
{
    match size {
        EndSize::Bits16 => 16,
        EndSize::Bits32 => 32,
        EndSize::Bits64 => 64,
    }
}

fn code_of_source(source: Source) -> u8
    ensures value { result ≡ source_code source }
    ensures small { result ≤ 1 }
{
    match source {
        Source::Imm => 0,
        Source::Reg => 1,
    }
}

fn class_of_alu(width: Width) -> u8
    ensures value { result ≡ alu_class width }
    ensures small { result ≤ 7 }
{
    match width {
        Width::W32 => 4,
        Width::W64 => 7,
    }
}

fn class_of_jump(width: Width) -> u8
    ensures value { result ≡ jump_class width }
    ensures small { result ≤ 7 }
{
    match width {
        Width::W32 => 6,
        Width::W64 => 5,
    }
}

fn opcode_from(operation: Operation) -> u8
    ensures { result ≡ opcode_of operation }
{
    match operation {
        Operation::Alu(width, op, source) => {
            16 * code_of_alu_op(op) + 8 * code_of_source(source) + class_of_alu(width)
        }
        Operation::Mov(width, source) => 0xb0 + 8 * code_of_source(source) + class_of_alu(width),
        Operation::Neg(width) => 0x80 + class_of_alu(width),
        Operation::MovSx(SignExtension::From8To32 | SignExtension::From16To32) => 0xbc,
        Operation::MovSx(_) => 0xbf,
        Operation::End(ByteOrder::Little, _) => 0xd4,
        Operation::End(ByteOrder::Big, _) => 0xdc,
        Operation::End(ByteOrder::Swap, _) => 0xd7,
        Operation::LoadWide => 0x18,
        Operation::Load(kind) => code_of_load(kind) + 1,
        Operation::Store(size) => 0x62 + 8 * code_of_size(size),
        Operation::StoreRegister(size) => 0x63 + 8 * code_of_size(size),
        Operation::Jump => 0x05,
        Operation::Jump32 => 0x06,
        Operation::JumpIf(width, condition, source) => {
            16 * code_of_condition(condition) + 8 * code_of_source(source) + class_of_jump(width)
        }
        Operation::Call => 0x85,
        Operation::Exit => 0x95,
    }
}

/// The row of the table that spells it.
fn operation_of(insn: &Insn) -> Operation
    ensures { result ≡ row_of insn.now }
{
    match *insn {
        Insn::Alu { width, op, src, .. } => Operation::Alu(width, op, source_of(src)),
        Insn::Mov { width, src, .. } => Operation::Mov(width, source_of(src)),
        Insn::MovSx { extension, .. } => Operation::MovSx(extension),
        Insn::Neg { width, .. } => Operation::Neg(width),
        Insn::End { order, size, .. } => Operation::End(order, size),
        Insn::LoadWide { .. } => Operation::LoadWide,
        Insn::Load { kind, .. } => Operation::Load(kind),
        Insn::Store { size, .. } => Operation::Store(size),
        Insn::StoreRegister { size, .. } => Operation::StoreRegister(size),
        Insn::Jump { .. } => Operation::Jump,
        Insn::Jump32 { .. } => Operation::Jump32,
        Insn::JumpIf {
            width,
            condition,
            src,
            ..
        } => Operation::JumpIf(width, condition, source_of(src)),
        Insn::Call { .. } => Operation::Call,
        Insn::Exit => Operation::Exit,
    }
}

fn source_of(src: Operand) -> Source
    ensures { result ≡ operand_source src }
{
    match src {
        Operand::Imm(_) => Source::Imm,
        Operand::Reg(_) => Source::Reg,
    }
}

fn src_of_operand(src: Operand) -> u8
    ensures value { result ≡ operand_src src }
    ensures small { result ≤ 10 }
{
    match src {
        Operand::Imm(_) => 0,
        Operand::Reg(src) => src.number(),
    }
}

fn imm_of_operand(src: Operand) -> u32
    ensures { result ≡ operand_imm src }
{
    match src {
        Operand::Imm(imm) => imm.cast_unsigned(),
        Operand::Reg(_) => 0,
    }
}

fn dst_of(insn: &Insn) -> u8
    ensures value { result ≡ (first_slot insn.now).dst }
    ensures small { result ≤ 10 }
{
    match *insn {
        Insn::Alu { dst, .. }
        | Insn::Mov { dst, .. }
        | Insn::MovSx { dst, .. }
        | Insn::Neg { dst, .. }
        | Insn::End { dst, .. }
        | Insn::LoadWide { dst, .. }
        | Insn::Load { dst, .. }
        | Insn::JumpIf { dst, .. } => dst.number(),
        Insn::Store { base, .. } | Insn::StoreRegister { base, .. } => base.number(),
        Insn::Jump { .. } | Insn::Jump32 { .. } | Insn::Call { .. } | Insn::Exit => 0,
    }
}

fn src_of(insn: &Insn) -> u8
    ensures value { result ≡ (first_slot insn.now).src }
    ensures small { result ≤ 10 }
{
    match *insn {
        Insn::Alu { src, .. } | Insn::Mov { src, .. } | Insn::JumpIf { src, .. } => src_of_operand(
            src,
        ),
        Insn::MovSx { src, .. } | Insn::StoreRegister { src, .. } => src.number(),
        Insn::Load { base, .. } => base.number(),
        Insn::Neg { .. }
        | Insn::End { .. }
        | Insn::LoadWide { .. }
        | Insn::Store { .. }
        | Insn::Jump { .. }
        | Insn::Jump32 { .. }
        | Insn::Call { .. }
        | Insn::Exit => 0,
    }
}

fn offset_of(insn: &Insn) -> u16
    ensures { result ≡ (first_slot insn.now).offset }
{
    match *insn {
        Insn::Alu { op, .. } => offset_of_alu_op(op),
        Insn::MovSx { extension, .. } => bits_of_extension(extension),
        Insn::Load { offset, .. }
        | Insn::Store { offset, .. }
        | Insn::StoreRegister { offset, .. }
        | Insn::Jump { offset }
        | Insn::JumpIf { offset, .. } => offset.cast_unsigned(),
        Insn::Mov { .. }
        | Insn::Neg { .. }
        | Insn::End { .. }
        | Insn::LoadWide { .. }
        | Insn::Jump32 { .. }
        | Insn::Call { .. }
        | Insn::Exit => 0,
    }
}

fn imm_of(insn: &Insn) -> u32
    ensures { result ≡ (first_slot insn.now).imm }
{
    match *insn {
        Insn::Alu { src, .. } | Insn::Mov { src, .. } | Insn::JumpIf { src, .. } => imm_of_operand(
            src,
        ),
        Insn::End { size, .. } => bits_of_end(size),
        Insn::LoadWide { value, .. } => (value % 0x1_0000_0000) as u32,
        Insn::Store { imm, .. } => imm.cast_unsigned(),
        Insn::Jump32 { offset } => offset.cast_unsigned(),
        Insn::Call { helper } => helper,
        Insn::MovSx { .. }
        | Insn::Neg { .. }
        | Insn::Load { .. }
        | Insn::StoreRegister { .. }
        | Insn::Jump { .. }
        | Insn::Exit => 0,
    }
}

/// The fields of the first slot.
fn fields_of(insn: &Insn) -> Slot
    ensures value { result ≡ first_slot insn.now }
    ensures fits { FitsSlot result }
{
    Slot {
        opcode: opcode_from(operation_of(insn)),
        dst: dst_of(insn),
        src: src_of(insn),
        offset: offset_of(insn),
        imm: imm_of(insn),
    }
}

fn push_slot(bytes: &mut Vec<u8>, slot: &Slot) -> Result<(), AllocError>
    requires { FitsSlot slot.now }
    ensures { OnOk result (bytes.new.items ≡ bytes.old.items ++ slot_bytes slot.now) }
{
    bytes.extend_from_slice(&bytes_of_slot(slot))
}

fn push_insn(bytes: &mut Vec<u8>, insn: &Insn) -> Result<(), AllocError>
    ensures { OnOk result (bytes.new.items ≡ bytes.old.items ++ spelling insn.now) }
{
    push_slot(bytes, &fields_of(insn))?;
    if let Insn::LoadWide { value, .. } = *insn {
        let half = Slot {
            opcode: 0,
            dst: 0,
            src: 0,
            offset: 0,
            imm: (value / 0x1_0000_0000) as u32,
        };
        push_slot(bytes, &half)?;
    }
    Ok(())
}

/// Whether a program may not have that many slots.
fn is_too_long(insns: &[Insn]) -> bool
    ensures { IsTrue result ↔ (8 * max_slots < length (spellings insns.now)) }
{
    let mut slots = 0;
    for insn in insns {
        slots += insn.slots();
        if slots as usize > MAX_SLOTS {
            return true;
        }
    }
    false
}

/// The bytes of a program: the spellings of its instructions, joined. The bytes are counted before
/// the first is written.
pub fn encode(alloc: Global, insns: &[Insn]) -> Result<Vec<u8>, CodecFault>
    ensures found { IfOk result (λ v. (v.items ≡ spellings insns.now) × IsWhole v.items) }
    ensures refused { IfErr result (λ e. IsUnspelled e insns.now) }
{
    if insns.is_empty() {
        return Err(CodecFault::Empty);
    }
    if is_too_long(insns) {
        return Err(CodecFault::TooLong);
    }
    let mut bytes = Vec::new(alloc);
    for insn in insns {
        push_insn(&mut bytes, insn)?;
    }
    Ok(bytes)
}
