//! The graph of a program, drawn.

ghost use Rattle.std.specs.Prelude.{◌≡◌};
ghost use Rattle.telgovan_c.specs.Graphs.{IsDrawingWritten, IsGraphDrawn};

use crate::explains::with_text;
use crate::texts::{Written, place_of, refused_text, source_in, write_into};
use explain::{Explanation, Picture, picture_of};
use helpers::HelperTable;
use refusal::NoMemory;
use run_trace::Drawing;
use std::alloc::Global;

// No memory was left.
const NO_MEMORY: u32 = 99;

// The drawing of a picture, as text.
fn drawing_of(alloc: Global, picture: &Picture) -> Result<String, NoMemory> {
    Ok(format!(in alloc; "{}", Drawing(picture))?)
}

// Writes a drawing at the beginning of the room, if it fits, and tells of the verdict.
fn write_drawing(drawing: &[u8], why: &Option<Explanation>, room: &mut [u8]) -> Written
    ensures { IsDrawingWritten drawing.now why.now room.old room.new result }
{
    let written = write_into(drawing, room);
    if written.status != 0 {
        return written;
    }
    match why {
        None => written,
        Some(why) => with_text(drawing, &why.refusal),
    }
}

// The graph of a program, into the room.
fn draw_into(alloc: Global, need: u32, code: &[u8], source: &[u8], room: &mut [u8]) -> Written
    ensures { IsGraphDrawn need code.now source.now room.old room.new result }
{
    match picture_of(alloc, need, code, &HelperTable::job(), source_in(source)) {
        Ok(picture) => match drawing_of(alloc, &picture) {
            Ok(text) => write_drawing(text.as_bytes(), &picture.why, room),
            Err(_) => refused_text(NO_MEMORY, None),
        },
        Err(refusal) => refused_text(u32::from(refusal.code()), place_of(refusal.slot())),
    }
}

/// Writes the graph of a program of this need, which may call the helpers of a job, in the language
/// DOT, and answers the status: that of the verdict, with the slot as the place where an
/// instruction isn't allowed; 65 where the drawing doesn't fit, with the length that it takes; or
/// 99. Where a program has no graph, `length` is 0 beside its refusal. A source text gives the
/// lines.
#[unsafe(no_mangle)]
pub extern "C" fn telgovan_graph(
    alloc: Global,
    need: u32,
    code: &[u8],
    source: &[u8],
    room: &mut [u8],
    told: &mut Written,
) -> u32
    ensures drawn { IsGraphDrawn need code.now source.now room.old room.new told.new }
    ensures status { result ≡ told.new.status }
{
    *told = draw_into(alloc, need, code, source, room);
    told.status
}
