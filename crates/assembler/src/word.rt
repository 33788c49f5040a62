//! Looking up the word that a line begins with.

ghost use Rattle.std.specs.Prelude.{◌≡◌, ◌≢◌, IfSome, IfNone, map};
ghost use Rattle.disassembler.specs.declared.word.Word.{Word};
ghost use Rattle.disassembler.specs.Words.{word_text};
ghost use Rattle.assembler.specs.Reading.{first_named};

use disassembler::Word;
use insn_codec::{AluOp, ByteOrder, Condition, EndSize, LoadKind, SignExtension, Size, Width};

/// The text of each word.
const WORDS: [(&[u8], Word); 86] = [
    (b"add64", Word::Alu(Width::W64, AluOp::Add)),
    (b"add32", Word::Alu(Width::W32, AluOp::Add)),
    (b"sub64", Word::Alu(Width::W64, AluOp::Sub)),
    (b"sub32", Word::Alu(Width::W32, AluOp::Sub)),
    (b"mul64", Word::Alu(Width::W64, AluOp::Mul)),
    (b"mul32", Word::Alu(Width::W32, AluOp::Mul)),
    (b"div64", Word::Alu(Width::W64, AluOp::Div)),
    (b"div32", Word::Alu(Width::W32, AluOp::Div)),
    (b"sdiv64", Word::Alu(Width::W64, AluOp::Sdiv)),
    (b"sdiv32", Word::Alu(Width::W32, AluOp::Sdiv)),
    (b"or64", Word::Alu(Width::W64, AluOp::Or)),
    (b"or32", Word::Alu(Width::W32, AluOp::Or)),
    (b"and64", Word::Alu(Width::W64, AluOp::And)),
    (b"and32", Word::Alu(Width::W32, AluOp::And)),
    (b"lsh64", Word::Alu(Width::W64, AluOp::Lsh)),
    (b"lsh32", Word::Alu(Width::W32, AluOp::Lsh)),
    (b"rsh64", Word::Alu(Width::W64, AluOp::Rsh)),
    (b"rsh32", Word::Alu(Width::W32, AluOp::Rsh)),
    (b"mod64", Word::Alu(Width::W64, AluOp::Mod)),
    (b"mod32", Word::Alu(Width::W32, AluOp::Mod)),
    (b"smod64", Word::Alu(Width::W64, AluOp::Smod)),
    (b"smod32", Word::Alu(Width::W32, AluOp::Smod)),
    (b"xor64", Word::Alu(Width::W64, AluOp::Xor)),
    (b"xor32", Word::Alu(Width::W32, AluOp::Xor)),
    (b"arsh64", Word::Alu(Width::W64, AluOp::Arsh)),
    (b"arsh32", Word::Alu(Width::W32, AluOp::Arsh)),
    (b"mov64", Word::Mov(Width::W64)),
    (b"mov32", Word::Mov(Width::W32)),
    (b"neg64", Word::Neg(Width::W64)),
    (b"neg32", Word::Neg(Width::W32)),
    (b"movsx8_32", Word::MovSx(SignExtension::From8To32)),
    (b"movsx16_32", Word::MovSx(SignExtension::From16To32)),
    (b"movsx8_64", Word::MovSx(SignExtension::From8To64)),
    (b"movsx16_64", Word::MovSx(SignExtension::From16To64)),
    (b"movsx32_64", Word::MovSx(SignExtension::From32To64)),
    (b"le16", Word::End(ByteOrder::Little, EndSize::Bits16)),
    (b"le32", Word::End(ByteOrder::Little, EndSize::Bits32)),
    (b"le64", Word::End(ByteOrder::Little, EndSize::Bits64)),
    (b"be16", Word::End(ByteOrder::Big, EndSize::Bits16)),
    (b"be32", Word::End(ByteOrder::Big, EndSize::Bits32)),
    (b"be64", Word::End(ByteOrder::Big, EndSize::Bits64)),
    (b"swap16", Word::End(ByteOrder::Swap, EndSize::Bits16)),
    (b"swap32", Word::End(ByteOrder::Swap, EndSize::Bits32)),
    (b"swap64", Word::End(ByteOrder::Swap, EndSize::Bits64)),
    (b"ldxb", Word::Load(LoadKind::Byte)),
    (b"ldxh", Word::Load(LoadKind::Half)),
    (b"ldxw", Word::Load(LoadKind::Word)),
    (b"ldxdw", Word::Load(LoadKind::Double)),
    (b"ldxsb", Word::Load(LoadKind::SignedByte)),
    (b"ldxsh", Word::Load(LoadKind::SignedHalf)),
    (b"ldxsw", Word::Load(LoadKind::SignedWord)),
    (b"stb", Word::Store(Size::Byte)),
    (b"sth", Word::Store(Size::Half)),
    (b"stw", Word::Store(Size::Word)),
    (b"stdw", Word::Store(Size::Double)),
    (b"stxb", Word::StoreRegister(Size::Byte)),
    (b"stxh", Word::StoreRegister(Size::Half)),
    (b"stxw", Word::StoreRegister(Size::Word)),
    (b"stxdw", Word::StoreRegister(Size::Double)),
    (b"jeq", Word::JumpIf(Width::W64, Condition::Equal)),
    (b"jeq32", Word::JumpIf(Width::W32, Condition::Equal)),
    (b"jgt", Word::JumpIf(Width::W64, Condition::Greater)),
    (b"jgt32", Word::JumpIf(Width::W32, Condition::Greater)),
    (b"jge", Word::JumpIf(Width::W64, Condition::GreaterEqual)),
    (b"jge32", Word::JumpIf(Width::W32, Condition::GreaterEqual)),
    (b"jset", Word::JumpIf(Width::W64, Condition::Set)),
    (b"jset32", Word::JumpIf(Width::W32, Condition::Set)),
    (b"jne", Word::JumpIf(Width::W64, Condition::NotEqual)),
    (b"jne32", Word::JumpIf(Width::W32, Condition::NotEqual)),
    (b"jsgt", Word::JumpIf(Width::W64, Condition::SignedGreater)),
    (
        b"jsgt32",
        Word::JumpIf(Width::W32, Condition::SignedGreater),
    ),
    (
        b"jsge",
        Word::JumpIf(Width::W64, Condition::SignedGreaterEqual),
    ),
    (
        b"jsge32",
        Word::JumpIf(Width::W32, Condition::SignedGreaterEqual),
    ),
    (b"jlt", Word::JumpIf(Width::W64, Condition::Less)),
    (b"jlt32", Word::JumpIf(Width::W32, Condition::Less)),
    (b"jle", Word::JumpIf(Width::W64, Condition::LessEqual)),
    (b"jle32", Word::JumpIf(Width::W32, Condition::LessEqual)),
    (b"jslt", Word::JumpIf(Width::W64, Condition::SignedLess)),
    (b"jslt32", Word::JumpIf(Width::W32, Condition::SignedLess)),
    (
        b"jsle",
        Word::JumpIf(Width::W64, Condition::SignedLessEqual),
    ),
    (
        b"jsle32",
        Word::JumpIf(Width::W32, Condition::SignedLessEqual),
    ),
    (b"lddw", Word::LoadWide),
    (b"ja", Word::Jump),
    (b"ja32", Word::Jump32),
    (b"call", Word::Call),
    (b"exit", Word::Exit),
];

/// The first word of the table that this text is.
fn word_of(table: &[(&[u8], Word)], text: &[u8]) -> Option<Word>
    ensures { result ≡ first_named (map (λ entry. (entry.0.now, entry.1)) table.now) text.now }
{
    for (name, word) in table {
        if *name == text {
            return Some(*word);
        }
    }
    None
}

/// The word that this text is.
pub fn word_from(text: &[u8]) -> Option<Word>
    ensures found { IfSome result (λ w. word_text w ≡ text.now) }
    ensures none { IfNone result ((w : Word) → word_text w ≢ text.now) }
{
    word_of(&WORDS, text)
}
