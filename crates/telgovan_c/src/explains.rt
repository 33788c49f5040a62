//! Why a program is refused, as text.

ghost use Rattle.std.specs.Prelude.{◌≡◌, length, None};
ghost use Rattle.verifier.specs.RefusalCodes.{code_of_refusal, slot_of_refusal};
ghost use Rattle.telgovan_c.specs.Explains.{IsExplained, FillsRoom, explained_as};

use crate::texts::{Written, source_in};
use explain::{explain, text_of};
use helpers::HelperTable;
use std::alloc::Global;
use verifier::Refusal;

// No memory was left.
const NO_MEMORY: u32 = 99;

/// Copies the bytes to the beginning of the room, if they fit.
pub(crate) fn place_into(bytes: &[u8], room: &mut [u8])
    ensures { FillsRoom bytes.now room.old room.new }
{
    if bytes.len() <= room.len() {
        room[..bytes.len()].copy_from_slice(bytes);
    }
}

// No text is told, for this status.
fn without_text(status: u32) -> Written
    ensures { result ≡ explained_as 0 status None }
{
    Written {
        length: 0,
        place: 0,
        status,
        has_place: false,
    }
}

/// What is told of a refusal whose text has so many bytes.
pub(crate) fn with_text(text: &[u8], refusal: &Refusal) -> Written
    ensures { result ≡ explained_as (length text.now) (code_of_refusal refusal.now)
        (slot_of_refusal refusal.now) }
{
    let slot = refusal.slot();
    Written {
        length: text.len() as u64,
        place: u64::from(slot.unwrap_or(0)),
        status: u32::from(refusal.code()),
        has_place: slot.is_some(),
    }
}

// Why a program is refused, into the room. A source text that isn't UTF-8 counts as none.
fn explain_into(alloc: Global, need: u32, code: &[u8], source: &[u8], room: &mut [u8]) -> Written
    ensures { IsExplained need code.now source.now room.old room.new result }
{
    match explain(alloc, need, code, &HelperTable::job(), source_in(source)) {
        Ok(Some(why)) => match text_of(alloc, &why) {
            Ok(text) => {
                let text = text.as_bytes();
                place_into(text, room);
                with_text(text, &why.refusal)
            }
            Err(_) => without_text(NO_MEMORY),
        },
        Ok(None) => without_text(0),
        Err(_) => without_text(NO_MEMORY),
    }
}

/// Writes why a program of this need is refused, and answers the status: 0 where it is accepted,
/// 99, else the number of the refusal, with its slot as the place. `length` is how many bytes the
/// text has. Where they don't fit, nothing is written. A source text gives the line of the slot.
#[unsafe(no_mangle)]
pub extern "C" fn telgovan_explain(
    alloc: Global,
    need: u32,
    code: &[u8],
    source: &[u8],
    room: &mut [u8],
    told: &mut Written,
) -> u32
    ensures explained { IsExplained need code.now source.now room.old room.new told.new }
    ensures status { result ≡ told.new.status }
{
    *told = explain_into(alloc, need, code, source, room);
    told.status
}
