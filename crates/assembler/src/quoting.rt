//! What a refusal quotes of the source text.

ghost use Rattle.std.specs.Prelude.{◌≡◌, option_map, IfSome};
ghost use Rattle.std.specs.Str.{IsUtf8};
ghost use Rattle.assembler.specs.Source.{source_lines};
ghost use Rattle.assembler.specs.Quoted.{line_numbered, operands_part, quoted_of, word_part};

use crate::cut::split_before;
use crate::fault::TextFault;
use crate::source::stripped_line;

/// What the line of this number, counted from 1, says: the line without its comment and the blanks
/// at both ends. None where that is nothing, and where there is no such line.
pub fn line_with_number(source: &[u8], number: u64) -> Option<&[u8]>
    ensures said { option_map (λ line. line.now) result
        ≡ line_numbered number (source_lines source.now) }
    ensures text { IsUtf8 source.now → IfSome result (λ line. IsUtf8 line.now) }
{
    let mut rest = source;
    let mut at = 1;
    loop {
        let (line, tail) = split_before(rest, b'\n', b'\n');
        if at == number {
            let said = stripped_line(line);
            return if said.is_empty() { None } else { Some(said) };
        }
        if tail.is_empty() {
            return None;
        }
        rest = tail.split_at(1).1;
        at += 1;
    }
}

/// What stands in front of the first space.
fn first_word(line: &[u8]) -> &[u8]
    ensures part { result.now ≡ word_part line.now }
    ensures text { IsUtf8 line.now → IsUtf8 result.now }
{
    split_before(line, b' ', b' ').0
}

/// What follows the first space.
fn operands_behind(line: &[u8]) -> &[u8]
    ensures part { result.now ≡ operands_part line.now }
    ensures text { IsUtf8 line.now → IsUtf8 result.now }
{
    let tail = split_before(line, b' ', b' ').1;
    if tail.is_empty() {
        tail
    } else {
        tail.split_at(1).1
    }
}

/// The part of its line that a refusal is about.
fn part_of<'a>(fault: &TextFault, source: &'a [u8]) -> Option<&'a [u8]>
    ensures part { option_map (λ part. part.now) result ≡ quoted_of fault.now source.now }
    ensures text { IsUtf8 source.now → IfSome result (λ part. IsUtf8 part.now) }
{
    match *fault {
        TextFault::UnknownWord(line) => Some(first_word(line_with_number(source, line)?)),
        TextFault::BadOperand(line) | TextFault::NumberRange(line) => {
            Some(operands_behind(line_with_number(source, line)?))
        }
        TextFault::Empty | TextFault::TooLong | TextFault::NoMemory => None,
    }
}

impl TextFault {
    /// What it is about, in the source text that was refused: the word of the line that it tells
    /// where no instruction has it, else what follows the word. None where it tells no line, and
    /// where that line of the text says nothing or isn't there.
    pub fn quoted<'a>(&self, source: &'a str) -> Option<&'a str>
        ensures { option_map (λ part. part.now) result ≡ quoted_of self.now source.now }
    {
        str::from_utf8(part_of(self, source.as_bytes())?).ok()
    }
}
