//! The replies of a piece, which are written together.

ghost use Rattle.std.specs.Prelude.{◌≡◌, ◌≤◌, ◌⊎◌, ◌++◌, [], List, ℕ, false, is_err, IsTrue, OnOk, OnErr};
ghost use Rattle.streams.specs.Stops.{IsGrown, IsPartWritten};

use crate::frame_handler::FrameHandler;
use crate::reply_sink::ReplySink;
use crate::source_and_sink::Failed;

// The most bytes that wait.
const BATCH_LEN: usize = 65_536;

// Room for the replies that wait: so much for few, more for many, and else for all that may wait.
const SMALL_ROOM: usize = 512;

const ROOM: usize = 8192;

// Room of few sizes, so that what one stream gives back is what the next one asks for.
fn room_for(len: usize) -> usize
    requires { len ≤ 65536 }
    ensures enough { len ≤ result }
    ensures few { (result ≡ 512) ⊎ (result ≡ 8192) ⊎ (result ≡ 65536) }
{
    if len <= SMALL_ROOM {
        SMALL_ROOM
    } else if len <= ROOM {
        ROOM
    } else {
        BATCH_LEN
    }
}

// Puts bytes behind those that wait. `false`: there is no room or no memory for them.
fn put_behind(batch: &mut Vec<u8>, bytes: &[u8]) -> bool
    ensures put { IsTrue result → batch.new.items ≡ batch.old.items ++ bytes.now }
    ensures refused { result ≡ false → batch.new.items ≡ batch.old.items }
{
    let len = batch.len().saturating_add(bytes.len());
    if len > BATCH_LEN {
        return false;
    }
    if len > batch.capacity() && batch.reserve_exact(room_for(len) - batch.len()).is_err() {
        return false;
    }
    batch.extend_from_slice(bytes).is_ok()
}

/// Writes what waits.
pub(crate) fn write_batch<D, H: FrameHandler<D>, W: ReplySink<D, H>>(
    writer: &mut W,
    batch: &mut Vec<u8>,
    handler: &mut H,
) -> Result<(), Failed>
    requires { W.has_failed writer.old ≡ false }
    ensures same { handler.new ≡ handler.old }
    ensures ok { OnOk result (W.transcript writer.new ≡ W.transcript writer.old
        ++ batch.old.items) }
    ensures err { OnErr result (IsPartWritten (W.transcript writer.old)
        (W.transcript writer.old ++ batch.old.items) (W.transcript writer.new)) }
    ensures none { batch.new.items ≡ [] }
    ensures failed { W.has_failed writer.new ≡ is_err result }
    ensures let_go { OnOk result ((first : W) (rest : List ℕ)
        → W.lets_go first (writer.old, handler.old) (batch.old.items ++ rest)
        → W.lets_go first (writer.new, handler.new) rest) }
    ensures stopped { OnErr result ((first : W) (rest : List ℕ)
        → W.lets_go first (writer.old, handler.old) (batch.old.items ++ rest)
        → (left : List ℕ) × W.lets_go first (writer.new, handler.new) left) }
{
    let written = writer.write_replies(handler, batch);
    batch.clear();
    written
}

/// Puts a reply behind those that wait. Where there is no room or no memory for it, all that waits
/// is written, and then the reply.
pub(crate) fn put_reply<D, H: FrameHandler<D>, W: ReplySink<D, H>>(
    writer: &mut W,
    batch: &mut Vec<u8>,
    handler: &mut H,
    reply: &[u8],
) -> Result<(), Failed>
    requires { W.has_failed writer.old ≡ false }
    ensures same { handler.new ≡ handler.old }
    ensures ok { OnOk result (W.transcript writer.new ++ batch.new.items
        ≡ (W.transcript writer.old ++ batch.old.items) ++ reply.now) }
    ensures grows { IsGrown (W.transcript writer.old) (W.transcript writer.new) }
    ensures err { OnErr result (IsPartWritten (W.transcript writer.old)
        ((W.transcript writer.old ++ batch.old.items) ++ reply.now) (W.transcript writer.new)) }
    ensures failed { W.has_failed writer.new ≡ is_err result }
    ensures let_go { OnOk result ((first : W)
        → W.lets_go first (writer.old, handler.old) (batch.old.items ++ reply.now)
        → W.lets_go first (writer.new, handler.new) batch.new.items) }
    ensures stopped { OnErr result ((first : W)
        → W.lets_go first (writer.old, handler.old) (batch.old.items ++ reply.now)
        → (left : List ℕ) × W.lets_go first (writer.new, handler.new) left) }
{
    if put_behind(batch, reply) {
        return Ok(());
    }
    write_batch(writer, batch, handler)?;
    writer.write_replies(handler, reply)
}
