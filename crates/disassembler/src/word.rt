//! The words that lines begin with.

ghost use Rattle.std.specs.Prelude.{◌≡◌};
ghost use Rattle.disassembler.specs.Words.{alu_word, condition_word, extension_word, order_word, bits_text, load_word, size_suffix, width_text, jump_suffix, word_of_insn};

use insn_codec::{
    AluOp, ByteOrder, Condition, EndSize, Insn, LoadKind, SignExtension, Size, Width,
};
use std::fmt;

/// The word of a line. A word says all of an instruction but its operands.
#[derive(Clone, Copy, Debug, PartialEq, Eq)]
pub enum Word {
    Alu(Width, AluOp),
    Mov(Width),
    MovSx(SignExtension),
    Neg(Width),
    End(ByteOrder, EndSize),
    LoadWide,
    Load(LoadKind),
    Store(Size),
    StoreRegister(Size),
    Jump,
    Jump32,
    JumpIf(Width, Condition),
    Call,
    Exit,
}

impl Word {
    /// The word of an instruction's line.
    pub fn of(insn: &Insn) -> Self
        ensures { result ≡ word_of_insn insn.now }
    {
        match *insn {
            Insn::Alu { width, op, .. } => Word::Alu(width, op),
            Insn::Mov { width, .. } => Word::Mov(width),
            Insn::MovSx { extension, .. } => Word::MovSx(extension),
            Insn::Neg { width, .. } => Word::Neg(width),
            Insn::End { order, size, .. } => Word::End(order, size),
            Insn::LoadWide { .. } => Word::LoadWide,
            Insn::Load { kind, .. } => Word::Load(kind),
            Insn::Store { size, .. } => Word::Store(size),
            Insn::StoreRegister { size, .. } => Word::StoreRegister(size),
            Insn::Jump { .. } => Word::Jump,
            Insn::Jump32 { .. } => Word::Jump32,
            Insn::JumpIf {
                width,
                condition,
                ..
            } => Word::JumpIf(width, condition),
            Insn::Call { .. } => Word::Call,
            Insn::Exit => Word::Exit,
        }
    }
}

impl fmt::Display for Word {
    ghost use Rattle.std.specs.Prelude.{Some};
    ghost use Rattle.disassembler.specs.Words.{word_text};

    ghost output = { λ word. Some (word_text word) };

    fn fmt<W: fmt::Write>(&self, f: &mut fmt::Formatter<W>) -> fmt::Result {
        match *self {
            Word::Alu(width, op) => write!(f, "{}{}", name_of_alu(op), digits_of(width)),
            Word::Mov(width) => write!(f, "mov{}", digits_of(width)),
            Word::MovSx(extension) => write!(f, "{}", name_of_extension(extension)),
            Word::Neg(width) => write!(f, "neg{}", digits_of(width)),
            Word::End(order, size) => write!(f, "{}{}", name_of_order(order), bits_of(size)),
            Word::LoadWide => write!(f, "lddw"),
            Word::Load(kind) => write!(f, "{}", name_of_load(kind)),
            Word::Store(size) => write!(f, "st{}", suffix_of_size(size)),
            Word::StoreRegister(size) => write!(f, "stx{}", suffix_of_size(size)),
            Word::Jump => write!(f, "ja"),
            Word::Jump32 => write!(f, "ja32"),
            Word::JumpIf(width, condition) => write!(
                f,
                "{}{}",
                name_of_condition(condition),
                suffix_of(width)
            ),
            Word::Call => write!(f, "call"),
            Word::Exit => write!(f, "exit"),
        }
    }
}

fn name_of_alu(op: AluOp) -> &'static str
    ensures { result.now ≡ alu_word op }
{
    match op {
        AluOp::Add => "add",
        AluOp::Sub => "sub",
        AluOp::Mul => "mul",
        AluOp::Div => "div",
        AluOp::Sdiv => "sdiv",
        AluOp::Or => "or",
        AluOp::And => "and",
        AluOp::Lsh => "lsh",
        AluOp::Rsh => "rsh",
        AluOp::Mod => "mod",
        AluOp::Smod => "smod",
        AluOp::Xor => "xor",
        AluOp::Arsh => "arsh",
    }
}

fn digits_of(width: Width) -> &'static str
    ensures { result.now ≡ width_text width }
{
    match width {
        Width::W32 => "32",
        Width::W64 => "64",
    }
}

fn suffix_of(width: Width) -> &'static str
    ensures { result.now ≡ jump_suffix width }
{
    match width {
        Width::W32 => "32",
        Width::W64 => "",
    }
}

fn name_of_condition(condition: Condition) -> &'static str
    ensures { result.now ≡ condition_word condition }
{
    match condition {
        Condition::Equal => "jeq",
        Condition::Greater => "jgt",
        Condition::GreaterEqual => "jge",
        Condition::Set => "jset",
        Condition::NotEqual => "jne",
        Condition::SignedGreater => "jsgt",
        Condition::SignedGreaterEqual => "jsge",
        Condition::Less => "jlt",
        Condition::LessEqual => "jle",
        Condition::SignedLess => "jslt",
        Condition::SignedLessEqual => "jsle",
    }
}

fn name_of_extension(extension: SignExtension) -> &'static str
    ensures { result.now ≡ extension_word extension }
{
    match extension {
        SignExtension::From8To32 => "movsx8_32",
        SignExtension::From16To32 => "movsx16_32",
        SignExtension::From8To64 => "movsx8_64",
        SignExtension::From16To64 => "movsx16_64",
        SignExtension::From32To64 => "movsx32_64",
    }
}

fn name_of_order(order: ByteOrder) -> &'static str
    ensures { result.now ≡ order_word order }
{
    match order {
        ByteOrder::Little => "le",
        ByteOrder::Big => "be",
        ByteOrder::Swap => "swap",
    }
}

fn bits_of(size: EndSize) -> &'static str
    ensures { result.now ≡ bits_text size }
{
    match size {
        EndSize::Bits16 => "16",
        EndSize::Bits32 => "32",
        EndSize::Bits64 => "64",
    }
}

fn name_of_load(kind: LoadKind) -> &'static str
    ensures { result.now ≡ load_word kind }
{
    match kind {
        LoadKind::Byte => "ldxb",
        LoadKind::Half => "ldxh",
        LoadKind::Word => "ldxw",
        LoadKind::Double => "ldxdw",
        LoadKind::SignedByte => "ldxsb",
        LoadKind::SignedHalf => "ldxsh",
        LoadKind::SignedWord => "ldxsw",
    }
}

fn suffix_of_size(size: Size) -> &'static str
    ensures { result.now ≡ size_suffix size }
{
    match size {
        Size::Byte => "b",
        Size::Half => "h",
        Size::Word => "w",
        Size::Double => "dw",
    }
}
