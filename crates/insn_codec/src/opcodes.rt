//! The table of opcodes, for the slots that most programs consist of.

ghost use Rattle.std.specs.Prelude.{◌≡◌, IfSome, IsTrue};
ghost use Rattle.insn_codec.specs.Spelling.{IsClean};
ghost use Rattle.insn_codec.specs.Opcodes.{IsWithin, ChoosesAlone};

use crate::insn::{AluOp, Condition, LoadKind, Size, Width};
use crate::operation::{Operation, Source};
use crate::slot::Slot;

/// The largest value that each field of a slot may have.
#[derive(Clone, Copy, Debug, PartialEq, Eq)]
pub struct Limits {
    pub dst: u8,
    pub src: u8,
    pub offset: u16,
    pub imm: u32,
}

const NOTHING: Limits = Limits {
    dst: 0,
    src: 0,
    offset: 0,
    imm: 0,
};

const DST: Limits = Limits {
    dst: 10,
    src: 0,
    offset: 0,
    imm: 0,
};

const OFFSET: Limits = Limits {
    dst: 0,
    src: 0,
    offset: 0xFFFF,
    imm: 0,
};

const IMM: Limits = Limits {
    dst: 0,
    src: 0,
    offset: 0,
    imm: 0xFFFF_FFFF,
};

const DST_IMM: Limits = Limits {
    dst: 10,
    src: 0,
    offset: 0,
    imm: 0xFFFF_FFFF,
};

const DST_SRC: Limits = Limits {
    dst: 10,
    src: 10,
    offset: 0,
    imm: 0,
};

const DST_OFFSET_IMM: Limits = Limits {
    dst: 10,
    src: 0,
    offset: 0xFFFF,
    imm: 0xFFFF_FFFF,
};

const DST_SRC_OFFSET: Limits = Limits {
    dst: 10,
    src: 10,
    offset: 0xFFFF,
    imm: 0,
};

/// The operation that an opcode chooses where all fields are within the limits, by the opcode. None
/// where another field always has a say, as in byte swaps.
static OPCODES: [Option<(Operation, Limits)>; 256] = [
    None,
    None,
    None,
    None,
    Some((Operation::Alu(Width::W32, AluOp::Add, Source::Imm), DST_IMM)),
    Some((Operation::Jump, OFFSET)),
    Some((Operation::Jump32, IMM)),
    Some((Operation::Alu(Width::W64, AluOp::Add, Source::Imm), DST_IMM)),
    None,
    None,
    None,
    None,
    Some((Operation::Alu(Width::W32, AluOp::Add, Source::Reg), DST_SRC)),
    None,
    None,
    Some((Operation::Alu(Width::W64, AluOp::Add, Source::Reg), DST_SRC)),
    None,
    None,
    None,
    None,
    Some((Operation::Alu(Width::W32, AluOp::Sub, Source::Imm), DST_IMM)),
    Some((
        Operation::JumpIf(Width::W64, Condition::Equal, Source::Imm),
        DST_OFFSET_IMM,
    )),
    Some((
        Operation::JumpIf(Width::W32, Condition::Equal, Source::Imm),
        DST_OFFSET_IMM,
    )),
    Some((Operation::Alu(Width::W64, AluOp::Sub, Source::Imm), DST_IMM)),
    Some((Operation::LoadWide, DST_IMM)),
    None,
    None,
    None,
    Some((Operation::Alu(Width::W32, AluOp::Sub, Source::Reg), DST_SRC)),
    Some((
        Operation::JumpIf(Width::W64, Condition::Equal, Source::Reg),
        DST_SRC_OFFSET,
    )),
    Some((
        Operation::JumpIf(Width::W32, Condition::Equal, Source::Reg),
        DST_SRC_OFFSET,
    )),
    Some((Operation::Alu(Width::W64, AluOp::Sub, Source::Reg), DST_SRC)),
    None,
    None,
    None,
    None,
    Some((Operation::Alu(Width::W32, AluOp::Mul, Source::Imm), DST_IMM)),
    Some((
        Operation::JumpIf(Width::W64, Condition::Greater, Source::Imm),
        DST_OFFSET_IMM,
    )),
    Some((
        Operation::JumpIf(Width::W32, Condition::Greater, Source::Imm),
        DST_OFFSET_IMM,
    )),
    Some((Operation::Alu(Width::W64, AluOp::Mul, Source::Imm), DST_IMM)),
    None,
    None,
    None,
    None,
    Some((Operation::Alu(Width::W32, AluOp::Mul, Source::Reg), DST_SRC)),
    Some((
        Operation::JumpIf(Width::W64, Condition::Greater, Source::Reg),
        DST_SRC_OFFSET,
    )),
    Some((
        Operation::JumpIf(Width::W32, Condition::Greater, Source::Reg),
        DST_SRC_OFFSET,
    )),
    Some((Operation::Alu(Width::W64, AluOp::Mul, Source::Reg), DST_SRC)),
    None,
    None,
    None,
    None,
    Some((Operation::Alu(Width::W32, AluOp::Div, Source::Imm), DST_IMM)),
    Some((
        Operation::JumpIf(Width::W64, Condition::GreaterEqual, Source::Imm),
        DST_OFFSET_IMM,
    )),
    Some((
        Operation::JumpIf(Width::W32, Condition::GreaterEqual, Source::Imm),
        DST_OFFSET_IMM,
    )),
    Some((Operation::Alu(Width::W64, AluOp::Div, Source::Imm), DST_IMM)),
    None,
    None,
    None,
    None,
    Some((Operation::Alu(Width::W32, AluOp::Div, Source::Reg), DST_SRC)),
    Some((
        Operation::JumpIf(Width::W64, Condition::GreaterEqual, Source::Reg),
        DST_SRC_OFFSET,
    )),
    Some((
        Operation::JumpIf(Width::W32, Condition::GreaterEqual, Source::Reg),
        DST_SRC_OFFSET,
    )),
    Some((Operation::Alu(Width::W64, AluOp::Div, Source::Reg), DST_SRC)),
    None,
    None,
    None,
    None,
    Some((Operation::Alu(Width::W32, AluOp::Or, Source::Imm), DST_IMM)),
    Some((
        Operation::JumpIf(Width::W64, Condition::Set, Source::Imm),
        DST_OFFSET_IMM,
    )),
    Some((
        Operation::JumpIf(Width::W32, Condition::Set, Source::Imm),
        DST_OFFSET_IMM,
    )),
    Some((Operation::Alu(Width::W64, AluOp::Or, Source::Imm), DST_IMM)),
    None,
    None,
    None,
    None,
    Some((Operation::Alu(Width::W32, AluOp::Or, Source::Reg), DST_SRC)),
    Some((
        Operation::JumpIf(Width::W64, Condition::Set, Source::Reg),
        DST_SRC_OFFSET,
    )),
    Some((
        Operation::JumpIf(Width::W32, Condition::Set, Source::Reg),
        DST_SRC_OFFSET,
    )),
    Some((Operation::Alu(Width::W64, AluOp::Or, Source::Reg), DST_SRC)),
    None,
    None,
    None,
    None,
    Some((Operation::Alu(Width::W32, AluOp::And, Source::Imm), DST_IMM)),
    Some((
        Operation::JumpIf(Width::W64, Condition::NotEqual, Source::Imm),
        DST_OFFSET_IMM,
    )),
    Some((
        Operation::JumpIf(Width::W32, Condition::NotEqual, Source::Imm),
        DST_OFFSET_IMM,
    )),
    Some((Operation::Alu(Width::W64, AluOp::And, Source::Imm), DST_IMM)),
    None,
    None,
    None,
    None,
    Some((Operation::Alu(Width::W32, AluOp::And, Source::Reg), DST_SRC)),
    Some((
        Operation::JumpIf(Width::W64, Condition::NotEqual, Source::Reg),
        DST_SRC_OFFSET,
    )),
    Some((
        Operation::JumpIf(Width::W32, Condition::NotEqual, Source::Reg),
        DST_SRC_OFFSET,
    )),
    Some((Operation::Alu(Width::W64, AluOp::And, Source::Reg), DST_SRC)),
    None,
    Some((Operation::Load(LoadKind::Word), DST_SRC_OFFSET)),
    Some((Operation::Store(Size::Word), DST_OFFSET_IMM)),
    Some((Operation::StoreRegister(Size::Word), DST_SRC_OFFSET)),
    Some((Operation::Alu(Width::W32, AluOp::Lsh, Source::Imm), DST_IMM)),
    Some((
        Operation::JumpIf(Width::W64, Condition::SignedGreater, Source::Imm),
        DST_OFFSET_IMM,
    )),
    Some((
        Operation::JumpIf(Width::W32, Condition::SignedGreater, Source::Imm),
        DST_OFFSET_IMM,
    )),
    Some((Operation::Alu(Width::W64, AluOp::Lsh, Source::Imm), DST_IMM)),
    None,
    Some((Operation::Load(LoadKind::Half), DST_SRC_OFFSET)),
    Some((Operation::Store(Size::Half), DST_OFFSET_IMM)),
    Some((Operation::StoreRegister(Size::Half), DST_SRC_OFFSET)),
    Some((Operation::Alu(Width::W32, AluOp::Lsh, Source::Reg), DST_SRC)),
    Some((
        Operation::JumpIf(Width::W64, Condition::SignedGreater, Source::Reg),
        DST_SRC_OFFSET,
    )),
    Some((
        Operation::JumpIf(Width::W32, Condition::SignedGreater, Source::Reg),
        DST_SRC_OFFSET,
    )),
    Some((Operation::Alu(Width::W64, AluOp::Lsh, Source::Reg), DST_SRC)),
    None,
    Some((Operation::Load(LoadKind::Byte), DST_SRC_OFFSET)),
    Some((Operation::Store(Size::Byte), DST_OFFSET_IMM)),
    Some((Operation::StoreRegister(Size::Byte), DST_SRC_OFFSET)),
    Some((Operation::Alu(Width::W32, AluOp::Rsh, Source::Imm), DST_IMM)),
    Some((
        Operation::JumpIf(Width::W64, Condition::SignedGreaterEqual, Source::Imm),
        DST_OFFSET_IMM,
    )),
    Some((
        Operation::JumpIf(Width::W32, Condition::SignedGreaterEqual, Source::Imm),
        DST_OFFSET_IMM,
    )),
    Some((Operation::Alu(Width::W64, AluOp::Rsh, Source::Imm), DST_IMM)),
    None,
    Some((Operation::Load(LoadKind::Double), DST_SRC_OFFSET)),
    Some((Operation::Store(Size::Double), DST_OFFSET_IMM)),
    Some((Operation::StoreRegister(Size::Double), DST_SRC_OFFSET)),
    Some((Operation::Alu(Width::W32, AluOp::Rsh, Source::Reg), DST_SRC)),
    Some((
        Operation::JumpIf(Width::W64, Condition::SignedGreaterEqual, Source::Reg),
        DST_SRC_OFFSET,
    )),
    Some((
        Operation::JumpIf(Width::W32, Condition::SignedGreaterEqual, Source::Reg),
        DST_SRC_OFFSET,
    )),
    Some((Operation::Alu(Width::W64, AluOp::Rsh, Source::Reg), DST_SRC)),
    None,
    Some((Operation::Load(LoadKind::SignedWord), DST_SRC_OFFSET)),
    None,
    None,
    Some((Operation::Neg(Width::W32), DST)),
    Some((Operation::Call, IMM)),
    None,
    Some((Operation::Neg(Width::W64), DST)),
    None,
    Some((Operation::Load(LoadKind::SignedHalf), DST_SRC_OFFSET)),
    None,
    None,
    None,
    None,
    None,
    None,
    None,
    Some((Operation::Load(LoadKind::SignedByte), DST_SRC_OFFSET)),
    None,
    None,
    Some((Operation::Alu(Width::W32, AluOp::Mod, Source::Imm), DST_IMM)),
    Some((Operation::Exit, NOTHING)),
    None,
    Some((Operation::Alu(Width::W64, AluOp::Mod, Source::Imm), DST_IMM)),
    None,
    None,
    None,
    None,
    Some((Operation::Alu(Width::W32, AluOp::Mod, Source::Reg), DST_SRC)),
    None,
    None,
    Some((Operation::Alu(Width::W64, AluOp::Mod, Source::Reg), DST_SRC)),
    None,
    None,
    None,
    None,
    Some((Operation::Alu(Width::W32, AluOp::Xor, Source::Imm), DST_IMM)),
    Some((
        Operation::JumpIf(Width::W64, Condition::Less, Source::Imm),
        DST_OFFSET_IMM,
    )),
    Some((
        Operation::JumpIf(Width::W32, Condition::Less, Source::Imm),
        DST_OFFSET_IMM,
    )),
    Some((Operation::Alu(Width::W64, AluOp::Xor, Source::Imm), DST_IMM)),
    None,
    None,
    None,
    None,
    Some((Operation::Alu(Width::W32, AluOp::Xor, Source::Reg), DST_SRC)),
    Some((
        Operation::JumpIf(Width::W64, Condition::Less, Source::Reg),
        DST_SRC_OFFSET,
    )),
    Some((
        Operation::JumpIf(Width::W32, Condition::Less, Source::Reg),
        DST_SRC_OFFSET,
    )),
    Some((Operation::Alu(Width::W64, AluOp::Xor, Source::Reg), DST_SRC)),
    None,
    None,
    None,
    None,
    Some((Operation::Mov(Width::W32, Source::Imm), DST_IMM)),
    Some((
        Operation::JumpIf(Width::W64, Condition::LessEqual, Source::Imm),
        DST_OFFSET_IMM,
    )),
    Some((
        Operation::JumpIf(Width::W32, Condition::LessEqual, Source::Imm),
        DST_OFFSET_IMM,
    )),
    Some((Operation::Mov(Width::W64, Source::Imm), DST_IMM)),
    None,
    None,
    None,
    None,
    Some((Operation::Mov(Width::W32, Source::Reg), DST_SRC)),
    Some((
        Operation::JumpIf(Width::W64, Condition::LessEqual, Source::Reg),
        DST_SRC_OFFSET,
    )),
    Some((
        Operation::JumpIf(Width::W32, Condition::LessEqual, Source::Reg),
        DST_SRC_OFFSET,
    )),
    Some((Operation::Mov(Width::W64, Source::Reg), DST_SRC)),
    None,
    None,
    None,
    None,
    Some((
        Operation::Alu(Width::W32, AluOp::Arsh, Source::Imm),
        DST_IMM,
    )),
    Some((
        Operation::JumpIf(Width::W64, Condition::SignedLess, Source::Imm),
        DST_OFFSET_IMM,
    )),
    Some((
        Operation::JumpIf(Width::W32, Condition::SignedLess, Source::Imm),
        DST_OFFSET_IMM,
    )),
    Some((
        Operation::Alu(Width::W64, AluOp::Arsh, Source::Imm),
        DST_IMM,
    )),
    None,
    None,
    None,
    None,
    Some((
        Operation::Alu(Width::W32, AluOp::Arsh, Source::Reg),
        DST_SRC,
    )),
    Some((
        Operation::JumpIf(Width::W64, Condition::SignedLess, Source::Reg),
        DST_SRC_OFFSET,
    )),
    Some((
        Operation::JumpIf(Width::W32, Condition::SignedLess, Source::Reg),
        DST_SRC_OFFSET,
    )),
    Some((
        Operation::Alu(Width::W64, AluOp::Arsh, Source::Reg),
        DST_SRC,
    )),
    None,
    None,
    None,
    None,
    None,
    Some((
        Operation::JumpIf(Width::W64, Condition::SignedLessEqual, Source::Imm),
        DST_OFFSET_IMM,
    )),
    Some((
        Operation::JumpIf(Width::W32, Condition::SignedLessEqual, Source::Imm),
        DST_OFFSET_IMM,
    )),
    None,
    None,
    None,
    None,
    None,
    None,
    Some((
        Operation::JumpIf(Width::W64, Condition::SignedLessEqual, Source::Reg),
        DST_SRC_OFFSET,
    )),
    Some((
        Operation::JumpIf(Width::W32, Condition::SignedLessEqual, Source::Reg),
        DST_SRC_OFFSET,
    )),
    None,
    None,
    None,
    None,
    None,
    None,
    None,
    None,
    None,
    None,
    None,
    None,
    None,
    None,
    None,
    None,
    None,
    None,
    None,
    None,
    None,
    None,
    None,
    None,
    None,
    None,
    None,
    None,
    None,
    None,
    None,
    None,
    None,
];

fn is_within(limits: &Limits, slot: &Slot) -> bool
    ensures { IsTrue result → IsWithin limits.now slot.now }
{
    slot.dst <= limits.dst
        && slot.src <= limits.src
        && slot.offset <= limits.offset
        && slot.imm <= limits.imm
}

/// The row of an opcode.
#[inline(always)]
fn row_at(opcode: u8) -> Option<(Operation, Limits)>
    ensures { IfSome result (λ row. ChoosesAlone opcode row.0 row.1) }
{
    OPCODES[usize::from(opcode)]
}

/// The operation of a slot without a fault of its fields, where its opcode chooses it alone.
#[inline]
pub fn operation_by_opcode(slot: &Slot) -> Option<Operation>
    ensures { IfSome result (λ op. IsClean op slot.now) }
{
    let (operation, limits) = row_at(slot.opcode)?;
    if is_within(&limits, slot) {
        Some(operation)
    } else {
        None
    }
}
