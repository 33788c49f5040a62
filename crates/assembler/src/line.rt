//! The instruction of a line, or its fault.

ghost use Rattle.std.specs.Prelude.{◌≡◌, ◌≢◌, IfSome, IfNone, List};
ghost use Rattle.insn_codec.specs.declared.insn.Insn.{Insn};
ghost use Rattle.insn_codec.specs.Spelling.{IsInsn};
ghost use Rattle.disassembler.specs.Line.{line_text};
ghost use Rattle.assembler.specs.Source.{TellsLine};

use crate::cut::split_before;
use crate::fault::TextFault;
use crate::form::{is_tail_of, operands_of};
use crate::row::insn_with;
use crate::word::word_from;
use disassembler::Word;
use insn_codec::Insn;

/// The instruction that this line, without blanks around it, says.
pub fn insn_from(line: &[u8]) -> Option<Insn>
    ensures found { IfSome result (λ insn. (line.now ≡ line_text insn) × IsInsn insn) }
    ensures none { IfNone result ((insn : Insn) → IsInsn insn → line.now ≢ line_text insn) }
{
    let (front, tail) = split_before(line, b' ', b' ');
    let word = word_from(front)?;
    if tail.is_empty() {
        match word {
            Word::Exit => Some(Insn::Exit),
            _ => None,
        }
    } else {
        match word {
            Word::Exit => None,
            word => insn_with(word, tail.split_at(1).1),
        }
    }
}

/// What is wrong with a line that says no instruction.
pub fn fault_of(line: &[u8], number: u64) -> TextFault
    requires { (insn : Insn) → IsInsn insn → line.now ≢ line_text insn }
    ensures { TellsLine result number line.now }
{
    let (front, tail) = split_before(line, b' ', b' ');
    let Some(word) = word_from(front) else {
        return TextFault::UnknownWord(number);
    };
    if is_tail_of(operands_of(word), tail) {
        TextFault::NumberRange(number)
    } else {
        TextFault::BadOperand(number)
    }
}
