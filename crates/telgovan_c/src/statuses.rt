//! The statuses that C is answered, in words.

ghost use Rattle.std.specs.Prelude.{◌≡◌};
ghost use Rattle.telgovan_c.specs.Statuses.{status_help, status_words};
ghost use Rattle.telgovan_c.specs.Texts.{IsTextWritten};

use crate::texts::{Written, write_into};
use explain::{refusal_help, refusal_words};

// What a status says.
fn words_of(status: u32) -> &'static str
    ensures { result.now ≡ status_words status }
{
    if status == 0 {
        return "done";
    }
    if status < 256 {
        refusal_words(status as u8)
    } else {
        "unknown"
    }
}

// What to do about a status: nothing is known of some.
fn help_of(status: u32) -> &'static str
    ensures { result.now ≡ status_help status }
{
    if status < 256 {
        match refusal_help(status as u8) {
            Some(text) => text,
            None => "",
        }
    } else {
        ""
    }
}

/// Writes what a status says: `done` for 0, and `unknown` for a number that is no refusal's. It
/// answers 0; or 65 where the room is too short.
#[unsafe(no_mangle)]
pub extern "C" fn telgovan_status_words(status: u32, room: &mut [u8], told: &mut Written) -> u32
    ensures written { IsTextWritten (status_words status) room.old room.new told.new }
    ensures status { result ≡ told.new.status }
{
    *told = write_into(words_of(status).as_bytes(), room);
    told.status
}

/// Writes what to do about a status: nothing for 0 and for a number that is no refusal's. It
/// answers 0; or 65 where the room is too short.
#[unsafe(no_mangle)]
pub extern "C" fn telgovan_status_help(status: u32, room: &mut [u8], told: &mut Written) -> u32
    ensures written { IsTextWritten (status_help status) room.old room.new told.new }
    ensures status { result ≡ told.new.status }
{
    *told = write_into(help_of(status).as_bytes(), room);
    told.status
}
