//! The operation that the fields of a slot choose: a row of the opcode table.

ghost use Rattle.std.specs.Prelude.{◌≡◌, ◌≤◌, ◌<◌, ◌↔◌, ◌/◌, ◌%◌, IsTrue, IfSome, IfNone, is_some};
ghost use Rattle.insn_codec.specs.Inverse.{operation_at, alu_at, mov_at, jump_at, end_at, alu_op_at, extension_at, condition_at, end_size_at, size_at, load_at, source_at};
ghost use Rattle.insn_codec.specs.Table.{uses_of, selecting_offset, IsRow, IsUnknown, RegistersAreNamed, UnusedAreZero};

use crate::insn::{AluOp, ByteOrder, Condition, EndSize, LoadKind, SignExtension, Size, Width};
use crate::slot::Slot;

/// Where the second operand stands.
#[derive(Clone, Copy, Debug, PartialEq, Eq)]
pub enum Source {
    Imm,
    Reg,
}

/// What the opcode says, with the fields that select an operation: a row of the table.
#[derive(Clone, Copy, Debug, PartialEq, Eq)]
pub enum Operation {
    Alu(Width, AluOp, Source),
    Mov(Width, Source),
    Neg(Width),
    MovSx(SignExtension),
    End(ByteOrder, EndSize),
    LoadWide,
    Load(LoadKind),
    Store(Size),
    StoreRegister(Size),
    Jump,
    Jump32,
    JumpIf(Width, Condition, Source),
    Call,
    Exit,
}

/// The fields that an operation uses, or that choose it. A src that chooses is 0, and counts as
/// unused.
#[derive(Clone, Copy, Debug, PartialEq, Eq)]
pub struct Uses {
    pub dst: bool,
    pub src: bool,
    pub offset: bool,
    pub imm: bool,
}

fn source_from(opcode: u8) -> Source
    ensures { result ≡ source_at opcode }
{
    if opcode / 8 % 2 == 0 {
        Source::Imm
    } else {
        Source::Reg
    }
}

fn alu_op_from(code: u8, offset: u16) -> Option<AluOp>
    ensures { result ≡ alu_op_at code offset }
{
    match code {
        0 => Some(AluOp::Add),
        1 => Some(AluOp::Sub),
        2 => Some(AluOp::Mul),
        3 => match offset {
            0 => Some(AluOp::Div),
            1 => Some(AluOp::Sdiv),
            _ => None,
        },
        4 => Some(AluOp::Or),
        5 => Some(AluOp::And),
        6 => Some(AluOp::Lsh),
        7 => Some(AluOp::Rsh),
        9 => match offset {
            0 => Some(AluOp::Mod),
            1 => Some(AluOp::Smod),
            _ => None,
        },
        10 => Some(AluOp::Xor),
        12 => Some(AluOp::Arsh),
        _ => None,
    }
}

fn extension_from(width: Width, offset: u16) -> Option<SignExtension>
    ensures { result ≡ extension_at width offset }
{
    match (width, offset) {
        (Width::W32, 8) => Some(SignExtension::From8To32),
        (Width::W32, 16) => Some(SignExtension::From16To32),
        (Width::W64, 8) => Some(SignExtension::From8To64),
        (Width::W64, 16) => Some(SignExtension::From16To64),
        (Width::W64, 32) => Some(SignExtension::From32To64),
        _ => None,
    }
}

fn end_size_from(imm: u32) -> Option<EndSize>
    ensures { result ≡ end_size_at imm }
{
    match imm {
        16 => Some(EndSize::Bits16),
        32 => Some(EndSize::Bits32),
        64 => Some(EndSize::Bits64),
        _ => None,
    }
}

fn condition_from(code: u8) -> Option<Condition>
    ensures { result ≡ condition_at code }
{
    match code {
        1 => Some(Condition::Equal),
        2 => Some(Condition::Greater),
        3 => Some(Condition::GreaterEqual),
        4 => Some(Condition::Set),
        5 => Some(Condition::NotEqual),
        6 => Some(Condition::SignedGreater),
        7 => Some(Condition::SignedGreaterEqual),
        10 => Some(Condition::Less),
        11 => Some(Condition::LessEqual),
        12 => Some(Condition::SignedLess),
        13 => Some(Condition::SignedLessEqual),
        _ => None,
    }
}

fn size_from(code: u8) -> Option<Size>
    ensures { result ≡ size_at code }
{
    match code {
        12 => Some(Size::Word),
        13 => Some(Size::Half),
        14 => Some(Size::Byte),
        15 => Some(Size::Double),
        _ => None,
    }
}

fn load_kind_from(code: u8) -> Option<LoadKind>
    ensures { result ≡ load_at code }
{
    match code {
        12 => Some(LoadKind::Word),
        13 => Some(LoadKind::Half),
        14 => Some(LoadKind::Byte),
        15 => Some(LoadKind::Double),
        16 => Some(LoadKind::SignedWord),
        17 => Some(LoadKind::SignedHalf),
        18 => Some(LoadKind::SignedByte),
        _ => None,
    }
}

#[tactic(auto, unfolding(crate::specs::Inverse::end_at))]
fn end_operation(width: Width, slot: &Slot) -> Option<Operation>
    ensures { result ≡ end_at width slot.now }
{
    let size = end_size_from(slot.imm)?;
    match (width, source_from(slot.opcode)) {
        (Width::W32, Source::Imm) => Some(Operation::End(ByteOrder::Little, size)),
        (Width::W32, Source::Reg) => Some(Operation::End(ByteOrder::Big, size)),
        (Width::W64, Source::Imm) => Some(Operation::End(ByteOrder::Swap, size)),
        (Width::W64, Source::Reg) => None,
    }
}

fn mov_operation(width: Width, slot: &Slot) -> Option<Operation>
    ensures { result ≡ mov_at width (source_at slot.now.opcode) slot.now.offset }
{
    let source = source_from(slot.opcode);
    if slot.offset == 0 {
        return Some(Operation::Mov(width, source));
    }
    match source {
        Source::Imm => None,
        Source::Reg => Some(Operation::MovSx(extension_from(width, slot.offset)?)),
    }
}

#[tactic(auto, unfolding(crate::specs::Inverse::alu_at))]
fn alu_operation(width: Width, slot: &Slot) -> Option<Operation>
    ensures { result ≡ alu_at width slot.now }
{
    let code = slot.opcode / 16;
    let source = source_from(slot.opcode);
    if code == 8 {
        return match source {
            Source::Imm => Some(Operation::Neg(width)),
            Source::Reg => None,
        };
    }
    if code == 13 {
        return end_operation(width, slot);
    }
    if code == 11 {
        return mov_operation(width, slot);
    }
    let op = alu_op_from(code, slot.offset)?;
    Some(Operation::Alu(width, op, source))
}

#[tactic(auto, unfolding(crate::specs::Inverse::jump_at))]
fn jump_operation(width: Width, slot: &Slot) -> Option<Operation>
    ensures { result ≡ jump_at width slot.now }
{
    let source = source_from(slot.opcode);
    match condition_from(slot.opcode / 16) {
        Some(condition) => Some(Operation::JumpIf(width, condition, source)),
        None => match (width, slot.opcode) {
            (Width::W64, 0x05) => Some(Operation::Jump),
            (Width::W32, 0x06) => Some(Operation::Jump32),
            (Width::W64, 0x85) if slot.src == 0 => Some(Operation::Call),
            (Width::W64, 0x95) => Some(Operation::Exit),
            _ => None,
        },
    }
}

#[tactic(auto, unfolding(crate::specs::Inverse::operation_at))]
fn row_from(slot: &Slot) -> Option<Operation>
    ensures { result ≡ operation_at slot.now }
{
    match slot.opcode % 8 {
        0 => {
            if slot.opcode == 0x18 && slot.src == 0 {
                Some(Operation::LoadWide)
            } else {
                None
            }
        }
        1 => Some(Operation::Load(load_kind_from(slot.opcode / 8)?)),
        2 => Some(Operation::Store(size_from(slot.opcode / 8)?)),
        3 => Some(Operation::StoreRegister(size_from(slot.opcode / 8)?)),
        4 => alu_operation(Width::W32, slot),
        5 => jump_operation(Width::W64, slot),
        6 => jump_operation(Width::W32, slot),
        _ => alu_operation(Width::W64, slot),
    }
}

/// The row of the table that a slot is of.
pub fn operation_from(slot: &Slot) -> Option<Operation>
    ensures found { IfSome result (λ op. IsRow op slot.now) }
    ensures none { IfNone result (IsUnknown slot.now) }
{
    row_from(slot)
}

/// The fields that an operation uses, or that choose it.
pub fn fields_used(operation: Operation) -> Uses
    ensures { result ≡ uses_of operation }
{
    let (dst, src, offset, imm) = match operation {
        Operation::Alu(_, op, source) => (
            true,
            source == Source::Reg,
            is_chosen_by_offset(op),
            source == Source::Imm,
        ),
        Operation::Mov(_, source) => { (true, source == Source::Reg, true, source == Source::Imm) }
        Operation::Neg(_) => (true, false, false, false),
        Operation::MovSx(_) => (true, true, true, false),
        Operation::End(..) => (true, false, false, true),
        Operation::LoadWide => (true, false, false, true),
        Operation::Load(_) => (true, true, true, false),
        Operation::Store(_) => (true, false, true, true),
        Operation::StoreRegister(_) => (true, true, true, false),
        Operation::Jump => (false, false, true, false),
        Operation::Jump32 => (false, false, false, true),
        Operation::JumpIf(_, _, source) => {
            (true, source == Source::Reg, true, source == Source::Imm)
        }
        Operation::Call => (false, false, false, true),
        Operation::Exit => (false, false, false, false),
    };
    Uses {
        dst,
        src,
        offset,
        imm,
    }
}

fn is_chosen_by_offset(op: AluOp) -> bool
    ensures { result ≡ is_some (selecting_offset op) }
{
    matches!(op, AluOp::Div | AluOp::Sdiv | AluOp::Mod | AluOp::Smod)
}

pub fn registers_are_named(uses: Uses, slot: &Slot) -> bool
    ensures { IsTrue result ↔ RegistersAreNamed uses slot.now }
{
    (!uses.dst || slot.dst <= 10) && (!uses.src || slot.src <= 10)
}

pub fn unused_are_zero(uses: Uses, slot: &Slot) -> bool
    ensures { IsTrue result ↔ UnusedAreZero uses slot.now }
{
    (uses.dst || slot.dst == 0)
        && (uses.src || slot.src == 0)
        && (uses.offset || slot.offset == 0)
        && (uses.imm || slot.imm == 0)
}
