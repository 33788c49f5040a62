//! Source text to bytes, and back.

ghost use Rattle.std.specs.Prelude.{◌≡◌, option_map};
ghost use Rattle.telgovan_c.specs.Texts.{IsAssembled, IsDisassembled, IsSourceText, IsTextWritten, refused_text};

use assembler::assemble;
use disassembler::disassemble;
use std::alloc::Global;

// What isn't UTF-8 is no text.
const NOT_TEXT: u32 = 73;
// The room is shorter than what is to be written.
const OVER_LIMIT: u32 = 65;

/// What was written into the caller's room: `status` is 0 where it was, and `length` how many
/// bytes. Where they don't fit, `status` is 65 and `length` is the room that they take. Otherwise
/// `status` is the number of the refusal, and `place` the line or the slot where it stands, if
/// `has_place`. The room stays as it was but for what was written.
#[repr(C)]
#[derive(Clone, Copy)]
pub struct Written {
    pub length: u64,
    pub place: u64,
    pub status: u32,
    pub has_place: bool,
}

/// Nothing is written, for a refusal of this number.
pub(crate) fn refused_text(number: u32, place: Option<u64>) -> Written
    ensures { result ≡ refused_text number place }
{
    Written {
        length: 0,
        place: place.unwrap_or(0),
        status: number,
        has_place: place.is_some(),
    }
}

/// Writes the bytes at the beginning of the room, if they fit.
pub(crate) fn write_into(bytes: &[u8], room: &mut [u8]) -> Written
    ensures { IsTextWritten bytes.now room.old room.new result }
{
    let length = bytes.len() as u64;
    let status = if bytes.len() <= room.len() {
        room[..bytes.len()].copy_from_slice(bytes);
        0
    } else {
        OVER_LIMIT
    };
    Written {
        length,
        place: 0,
        status,
        has_place: false,
    }
}

/// A slot as a place.
pub(crate) fn place_of(slot: Option<u32>) -> Option<u64>
    ensures { result ≡ slot }
{
    match slot {
        Some(slot) => Some(slot as u64),
        None => None,
    }
}

/// The source text that these bytes are: none where they are no UTF-8.
pub(crate) fn source_in(source: &[u8]) -> Option<&str>
    ensures { IsSourceText source.now (option_map (λ text. text.now) result) }
{
    match str::from_utf8(source) {
        Ok(text) => Some(text),
        Err(_) => None,
    }
}

// The bytes of the program that a source text says, into the room.
fn assemble_into(alloc: Global, source: &[u8], room: &mut [u8]) -> Written
    ensures { IsAssembled source.now room.old room.new result }
{
    let text = match str::from_utf8(source) {
        Ok(text) => text,
        Err(_) => return refused_text(NOT_TEXT, None),
    };
    match assemble(alloc, text) {
        Ok(bytes) => write_into(&bytes, room),
        Err(fault) => refused_text(u32::from(fault.code()), fault.line()),
    }
}

// The lines of the program that the bytes spell, into the room.
fn disassemble_into(alloc: Global, code: &[u8], room: &mut [u8]) -> Written
    ensures { IsDisassembled code.now room.old room.new result }
{
    match disassemble(alloc, code) {
        Ok(lines) => write_into(lines.as_bytes(), room),
        Err(fault) => refused_text(u32::from(fault.code()), place_of(fault.slot())),
    }
}

/// Writes the bytes of the program that a source text says, and answers the status. 73 where the
/// text is no UTF-8.
#[unsafe(no_mangle)]
pub extern "C" fn telgovan_assemble(
    alloc: Global,
    source: &[u8],
    room: &mut [u8],
    told: &mut Written,
) -> u32
    ensures written { IsAssembled source.now room.old room.new told.new }
    ensures status { result ≡ told.new.status }
{
    *told = assemble_into(alloc, source, room);
    told.status
}

/// Writes the lines of the program that the bytes spell, each with a line feed behind it, and
/// answers the status.
#[unsafe(no_mangle)]
pub extern "C" fn telgovan_disassemble(
    alloc: Global,
    code: &[u8],
    room: &mut [u8],
    told: &mut Written,
) -> u32
    ensures written { IsDisassembled code.now room.old room.new told.new }
    ensures status { result ≡ told.new.status }
{
    *told = disassemble_into(alloc, code, room);
    told.status
}
