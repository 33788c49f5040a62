//! The forms of operands, whatever their numbers.

ghost use Rattle.std.specs.Prelude.{◌≡◌, ◌↔◌, IsTrue};
ghost use Rattle.assembler.specs.Forms.{IsNumeral, IsPrefixed, IsNegative, IsNumberForm, IsOffsetForm, IsMemoryForm, IsOfForm, IsPair, IsTailOf};

use crate::cut::{split_before, two_from};
use crate::number::number_from;
use disassembler::Word;

/// The form of an operand.
#[derive(Clone, Copy, Debug, PartialEq, Eq)]
pub enum Form {
    Register,
    Number,
    Offset,
    Source,
    Memory,
}

/// The operands of a word.
#[derive(Clone, Copy, Debug, PartialEq, Eq)]
pub enum Operands {
    Zero,
    One(Form),
    Two(Form, Form),
    Three(Form, Form, Form),
}

/// The operands that the text table gives a word.
pub fn operands_of(word: Word) -> Operands
    ensures { result ≡ Rattle.assembler.specs.Forms.operands_of word }
{
    match word {
        Word::Alu(..) | Word::Mov(_) => Operands::Two(Form::Register, Form::Source),
        Word::MovSx(_) => Operands::Two(Form::Register, Form::Register),
        Word::Neg(_) | Word::End(..) => Operands::One(Form::Register),
        Word::LoadWide => Operands::Two(Form::Register, Form::Number),
        Word::Load(_) => Operands::Two(Form::Register, Form::Memory),
        Word::Store(_) => Operands::Two(Form::Memory, Form::Number),
        Word::StoreRegister(_) => Operands::Two(Form::Memory, Form::Register),
        Word::Jump | Word::Jump32 => Operands::One(Form::Offset),
        Word::JumpIf(..) => Operands::Three(Form::Register, Form::Source, Form::Offset),
        Word::Call => Operands::One(Form::Number),
        Word::Exit => Operands::Zero,
    }
}

fn is_numeral(text: &[u8]) -> bool
    ensures { IsTrue result ↔ IsNumeral text.now }
{
    number_from(text).is_some()
}

/// Whether the text is this byte with a numeral after it.
fn is_marked(mark: u8, text: &[u8]) -> bool
    ensures { IsTrue result ↔ IsPrefixed mark text.now }
{
    !text.is_empty() && text[0] == mark && is_numeral(text.split_at(1).1)
}

fn is_negative(text: &[u8]) -> bool
    ensures { IsTrue result ↔ IsNegative text.now }
{
    !matches!(text, b"-0") && is_marked(b'-', text)
}

fn is_number(text: &[u8]) -> bool
    ensures { IsTrue result ↔ IsNumberForm text.now }
{
    is_numeral(text) || is_negative(text)
}

fn is_offset(text: &[u8]) -> bool
    ensures { IsTrue result ↔ IsOffsetForm text.now }
{
    is_marked(b'+', text) || is_negative(text)
}

fn is_memory(text: &[u8]) -> bool
    ensures { IsTrue result ↔ IsMemoryForm text.now }
{
    if text.len() < 2 || text[0] != b'[' || text[text.len() - 1] != b']' {
        return false;
    }
    let inner = text.split_at(1).1;
    let (base, offset) = split_before(inner.split_at(inner.len() - 1).0, b'+', b'-');
    is_marked(b'r', base) && is_offset(offset)
}

fn is_of_form(form: Form, text: &[u8]) -> bool
    ensures { IsTrue result ↔ IsOfForm form text.now }
{
    match form {
        Form::Register => is_marked(b'r', text),
        Form::Number => is_number(text),
        Form::Offset => is_offset(text),
        Form::Source => is_marked(b'r', text) || is_number(text),
        Form::Memory => is_memory(text),
    }
}

fn are_two(first: Form, second: Form, text: &[u8]) -> bool
    ensures { IsTrue result ↔ IsPair (IsOfForm first) (IsOfForm second) text.now }
{
    match two_from(text) {
        Some((front, back)) => is_of_form(first, front) && is_of_form(second, back),
        None => false,
    }
}

fn are_three(first: Form, second: Form, third: Form, text: &[u8]) -> bool
    ensures { IsTrue result
        ↔ IsPair (IsOfForm first) (IsPair (IsOfForm second) (IsOfForm third)) text.now }
{
    match two_from(text) {
        Some((front, back)) => is_of_form(first, front) && are_two(second, third, back),
        None => false,
    }
}

/// Whether a space and such operands follow a word; nothing, where it has none.
pub fn is_tail_of(operands: Operands, tail: &[u8]) -> bool
    ensures { IsTrue result ↔ IsTailOf operands tail.now }
{
    if let Operands::Zero = operands {
        return tail.is_empty();
    }
    if tail.is_empty() || tail[0] != b' ' {
        return false;
    }
    let text = tail.split_at(1).1;
    match operands {
        Operands::Zero => false,
        Operands::One(form) => is_of_form(form, text),
        Operands::Two(first, second) => are_two(first, second, text),
        Operands::Three(first, second, third) => are_three(first, second, third, text),
    }
}
