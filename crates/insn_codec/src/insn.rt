//! The instructions of RFC 9669, groups base32, base64, divmul32 and divmul64. A field's type
//! admits only what has a spelling.

use crate::register::Register;

/// The bits that an arithmetic operation, a move or a comparison works on.
#[derive(Clone, Copy, Debug, PartialEq, Eq, Hash)]
pub enum Width {
    W32,
    W64,
}

/// The arithmetic operations with two operands (RFC 9669, section 4.1), but for moves, which don't
/// read their destination.
#[derive(Clone, Copy, Debug, PartialEq, Eq, Hash)]
pub enum AluOp {
    Add,
    Sub,
    Mul,
    Div,
    Sdiv,
    Or,
    And,
    Lsh,
    Rsh,
    Mod,
    Smod,
    Xor,
    Arsh,
}

/// The second operand: a number in the instruction, or a register.
#[derive(Clone, Copy, Debug, PartialEq, Eq, Hash)]
pub enum Operand {
    Imm(i32),
    Reg(Register),
}

/// The moves that extend a sign: from how many bits, and to how many.
#[derive(Clone, Copy, Debug, PartialEq, Eq, Hash)]
pub enum SignExtension {
    From8To32,
    From16To32,
    From8To64,
    From16To64,
    From32To64,
}

/// What a byte swap instruction does with the bytes (RFC 9669, section 4.2): to little-endian, to
/// big-endian, or the other way round.
#[derive(Clone, Copy, Debug, PartialEq, Eq, Hash)]
pub enum ByteOrder {
    Little,
    Big,
    Swap,
}

/// How many bits a byte swap instruction keeps.
#[derive(Clone, Copy, Debug, PartialEq, Eq, Hash)]
pub enum EndSize {
    Bits16,
    Bits32,
    Bits64,
}

/// The size of a store: 1, 2, 4 or 8 bytes.
#[derive(Clone, Copy, Debug, PartialEq, Eq, Hash)]
pub enum Size {
    Byte,
    Half,
    Word,
    Double,
}

/// The size of a load, and whether it extends the sign.
#[derive(Clone, Copy, Debug, PartialEq, Eq, Hash)]
pub enum LoadKind {
    Byte,
    Half,
    Word,
    Double,
    SignedByte,
    SignedHalf,
    SignedWord,
}

/// What a conditional jump tests (RFC 9669, section 4.3). `Set` tests for a shared bit.
#[derive(Clone, Copy, Debug, PartialEq, Eq, Hash)]
pub enum Condition {
    Equal,
    NotEqual,
    Greater,
    GreaterEqual,
    Less,
    LessEqual,
    Set,
    SignedGreater,
    SignedGreaterEqual,
    SignedLess,
    SignedLessEqual,
}

/// An instruction. Offsets of jumps count slots from the slot after the jump; those of loads and
/// stores count bytes.
#[derive(Clone, Copy, Debug, PartialEq, Eq, Hash)]
pub enum Insn {
    /// `dst = dst op src`
    Alu {
        width: Width,
        op: AluOp,
        dst: Register,
        src: Operand,
    },
    /// `dst = src`
    Mov {
        width: Width,
        dst: Register,
        src: Operand,
    },
    /// `dst = src`, sign-extended
    MovSx {
        extension: SignExtension,
        dst: Register,
        src: Register,
    },
    /// `dst = -dst`
    Neg {
        width: Width,
        dst: Register,
    },
    /// `dst` with its bytes in another order
    End {
        order: ByteOrder,
        size: EndSize,
        dst: Register,
    },
    /// `dst = value`, in two slots
    LoadWide {
        dst: Register,
        value: u64,
    },
    /// `dst = *(base + offset)`
    Load {
        kind: LoadKind,
        dst: Register,
        base: Register,
        offset: i16,
    },
    /// `*(base + offset) = imm`
    Store {
        size: Size,
        base: Register,
        offset: i16,
        imm: i32,
    },
    /// `*(base + offset) = src`
    StoreRegister {
        size: Size,
        base: Register,
        offset: i16,
        src: Register,
    },
    /// Goes on at the target.
    Jump {
        offset: i16,
    },
    /// An unconditional jump, with a wider offset.
    Jump32 {
        offset: i32,
    },
    /// Goes on at the target where the condition holds.
    JumpIf {
        width: Width,
        condition: Condition,
        dst: Register,
        src: Operand,
        offset: i16,
    },
    /// Calls the helper of this number.
    Call {
        helper: u32,
    },
    /// Ends the task with R0.
    Exit,
}

/// An instruction and the slot that it begins at.
#[derive(Clone, Copy, Debug, PartialEq, Eq, Hash)]
pub struct Placed {
    pub slot: u32,
    pub insn: Insn,
}
