//! Answers each frame of a source by one reply to a sink.

ghost use Rattle.std.specs.Prelude.{[], ◌≡◌, ◌≢◌, ◌<◌, ◌++◌, ◌+◌, ◌-◌, ◌^◌, ℕ, List, true, false, take, min, if◌then◌else◌, IsTrue, OnOk, OnErr, IfOk, IfErr, None, Err, Result};
ghost use Rattle.sessions.specs.Frames.{front, partial, too_large};
ghost use Rattle.sessions.specs.Session.{unread, ended_by};
ghost use Rattle.streams.specs.Serves.{Serves};
ghost use Rattle.streams.specs.Stops.{IsGivenUp, IsGrown, IsLastUnwritten, IsServed, IsStoppedBy, IsUnwritten, too_large_reply};
ghost use Rattle.streams.specs.Fronts.{TakesFront};
ghost use Rattle.streams.specs.LettingGo.{LetsGoBut};

use crate::batch::{put_reply, write_batch};
use crate::fault::StreamFault;
use crate::frame_handler::FrameHandler;
use crate::reply_sink::ReplySink;
use crate::source_and_sink::Source;
use bytes::BytesMut;
use refusal::NoMemory;
use sessions::{Reply, Session, SessionFault, reply_frame};
use std::alloc::Global;

// The most bytes that a read asks for.
const PIECE_LEN: usize = 4096;

// What stands at the front of a stream.
#[derive(Drop)]
enum NextFrame {
    Waiting,
    TooLarge,
    Whole(BytesMut),
}

fn take_front(session: &mut Session) -> Result<NextFrame, NoMemory>
    requires { ended_by session.old ≡ None }
    ensures taken { IfOk result (λ next.
        TakesFront next (unread session.old) (unread session.new)) }
    ensures well { IfOk result (λ next. next ≢ NextFrame.TooLarge → ended_by session.new ≡ None) }
{
    match session.next_frame() {
        Ok(None) => Ok(NextFrame::Waiting),
        Ok(Some(frame)) => Ok(NextFrame::Whole(frame)),
        Err(SessionFault::FrameTooLarge) => Ok(NextFrame::TooLarge),
        Err(SessionFault::NoMemory) => Err(NoMemory),
        Err(SessionFault::NotJson) => unreachable!(),
        Err(SessionFault::BadRequest) => unreachable!(),
    }
}

// Answers one frame, by a reply that waits behind others.
fn answer_one<D, H: FrameHandler<D>, W: ReplySink<D, H>>(
    alloc: Global,
    writer: &mut W,
    batch: &mut Vec<u8>,
    desk: &mut D,
    handler: &mut H,
    payload: &[u8],
) -> Result<(), StreamFault>
    requires sink { W.has_failed writer.old ≡ false }
    requires ready { H.ready handler.old }
    ensures ready { H.ready handler.new }
    ensures ok { OnOk result ((reply : List ℕ)
        × H.answers (desk.old, handler.old) payload.now reply (desk.new, handler.new)
        × (W.transcript writer.new ++ batch.new.items
        ≡ (W.transcript writer.old ++ batch.old.items) ++ reply)) }
    ensures grows { IsGrown (W.transcript writer.old) (W.transcript writer.new) }
    ensures err { IfErr result (λ fault. IsUnwritten fault H.answers (desk.old, handler.old)
        payload.now (W.transcript writer.old) batch.old.items (desk.new, handler.new)
        (W.transcript writer.new) batch.new.items) }
    ensures well { OnOk result (W.has_failed writer.new ≡ false) }
    ensures write_failed { result ≡ Err StreamFault.WriteFailed → W.has_failed writer.new ≡ true }
    ensures no_memory { result ≡ Err StreamFault.NoMemory → W.has_failed writer.new ≡ false }
    ensures let_go { OnOk result ((first : W)
        → W.lets_go first (writer.old, handler.old) batch.old.items
        → W.lets_go first (writer.new, handler.new) batch.new.items) }
    ensures given_up { IfErr result (λ fault. (first : W)
        → W.lets_go first (writer.old, handler.old) batch.old.items
        → LetsGoBut fault (W.lets_go first) (writer.new, handler.new) batch.new.items) }
{
    writer.lets_wait();
    let reply = handler.answer_payload(alloc, desk, payload)?;
    match put_reply(writer, batch, handler, &reply) {
        Ok(()) => Ok(()),
        Err(_) => Err(StreamFault::WriteFailed),
    }
}

// Answers each whole frame. Replies may still wait then. `false`: a length is over the limit.
fn answer_frames<D, H: FrameHandler<D>, W: ReplySink<D, H>>(
    alloc: Global,
    session: &mut Session,
    writer: &mut W,
    batch: &mut Vec<u8>,
    desk: &mut D,
    handler: &mut H,
    number: &mut u64,
) -> Result<bool, StreamFault>
    requires counts { number.old < 2 ^ 64 }
    requires well { ended_by session.old ≡ None }
    requires sink { W.has_failed writer.old ≡ false }
    requires ready { H.ready handler.old }
    requires none { batch.old.items ≡ [] }
    ensures ready { H.ready handler.new }
    ensures served { IfOk result (λ _. (count : ℕ)
        × Serves H.answers (desk.old, handler.old) (unread session.old) (W.transcript writer.old)
        count (desk.new, handler.new) (unread session.new)
        (W.transcript writer.new ++ batch.new.items)
        × (number.new ≡ min (number.old + count) (2 ^ 64 - 1))) }
    ensures grows { IsGrown (W.transcript writer.old) (W.transcript writer.new) }
    ensures left { IfOk result (λ goes_on. front (unread session.new)
        ≡ (if goes_on then partial else too_large)) }
    ensures stopped { IfErr result (λ fault. IsGivenUp fault H.answers (desk.old, handler.old)
        (unread session.old) (W.transcript writer.old) (desk.new, handler.new)
        (W.transcript writer.new) batch.new.items) }
    ensures well { OnOk result (W.has_failed writer.new ≡ false) }
    ensures goes_on { IfOk result (λ goes_on. IsTrue goes_on → ended_by session.new ≡ None) }
    ensures write_failed { result ≡ Err StreamFault.WriteFailed → W.has_failed writer.new ≡ true }
    ensures no_memory { result ≡ Err StreamFault.NoMemory → W.has_failed writer.new ≡ false }
    ensures let_go { OnOk result ((first : W) → W.lets_go first (writer.old, handler.old) []
        → W.lets_go first (writer.new, handler.new) batch.new.items) }
    ensures given_up { IfErr result (λ fault. (first : W)
        → W.lets_go first (writer.old, handler.old) []
        → LetsGoBut fault (W.lets_go first) (writer.new, handler.new) batch.new.items) }
{
    'frames: loop {
        let frame = match take_front(session)? {
            NextFrame::Waiting => return Ok(true),
            NextFrame::TooLarge => return Ok(false),
            NextFrame::Whole(frame) => frame,
        };
        answer_one(alloc, writer, batch, desk, handler, frame.as_slice())?;
        *number = number.saturating_add(1);
    }
}

// Answers each whole frame, and writes the replies together. `false`: a length is over the limit.
fn answer_together<D, H: FrameHandler<D>, W: ReplySink<D, H>>(
    alloc: Global,
    session: &mut Session,
    writer: &mut W,
    batch: &mut Vec<u8>,
    desk: &mut D,
    handler: &mut H,
    number: &mut u64,
) -> Result<bool, StreamFault>
    requires counts { number.old < 2 ^ 64 }
    requires well { ended_by session.old ≡ None }
    requires sink { W.has_failed writer.old ≡ false }
    requires ready { H.ready handler.old }
    requires none { batch.old.items ≡ [] }
    ensures ready { H.ready handler.new }
    ensures none { OnOk result (batch.new.items ≡ []) }
    ensures served { IfOk result (λ _. (count : ℕ)
        × Serves H.answers (desk.old, handler.old) (unread session.old) (W.transcript writer.old)
        count (desk.new, handler.new) (unread session.new) (W.transcript writer.new)
        × (number.new ≡ min (number.old + count) (2 ^ 64 - 1))) }
    ensures left { IfOk result (λ goes_on. front (unread session.new)
        ≡ (if goes_on then partial else too_large)) }
    ensures stopped { IfErr result (λ fault. IsGivenUp fault H.answers (desk.old, handler.old)
        (unread session.old) (W.transcript writer.old) (desk.new, handler.new)
        (W.transcript writer.new) []) }
    ensures well { OnOk result (W.has_failed writer.new ≡ false) }
    ensures goes_on { IfOk result (λ goes_on. IsTrue goes_on → ended_by session.new ≡ None) }
    ensures write_failed { result ≡ Err StreamFault.WriteFailed → W.has_failed writer.new ≡ true }
    ensures no_memory { result ≡ Err StreamFault.NoMemory → W.has_failed writer.new ≡ false }
    ensures no_other { result ≢ Err StreamFault.ReadFailed }
    ensures let_go { OnOk result ((first : W) → W.lets_go first (writer.old, handler.old) []
        → W.lets_go first (writer.new, handler.new) []) }
    ensures given_up { OnErr result ((first : W) → W.lets_go first (writer.old, handler.old) []
        → (left : List ℕ) × W.lets_go first (writer.new, handler.new) left) }
{
    let answered = answer_frames(alloc, session, writer, batch, desk, handler, number);
    if let Err(StreamFault::WriteFailed) = answered {
        return answered;
    }
    match write_batch(writer, batch, handler) {
        Ok(()) => answered,
        Err(_) => Err(StreamFault::WriteFailed),
    }
}

// Takes a piece that came, and answers each frame that is whole now. `false`: a length is over the
// limit.
fn take_piece<D, H: FrameHandler<D>, W: ReplySink<D, H>>(
    alloc: Global,
    session: &mut Session,
    piece: &[u8],
    writer: &mut W,
    batch: &mut Vec<u8>,
    desk: &mut D,
    handler: &mut H,
    number: &mut u64,
) -> Result<bool, StreamFault>
    requires counts { number.old < 2 ^ 64 }
    requires well { ended_by session.old ≡ None }
    requires sink { W.has_failed writer.old ≡ false }
    requires ready { H.ready handler.old }
    requires none { batch.old.items ≡ [] }
    ensures ready { H.ready handler.new }
    ensures none { OnOk result (batch.new.items ≡ []) }
    ensures served { IfOk result (λ _. (count : ℕ)
        × Serves H.answers (desk.old, handler.old) (unread session.old
        ++ piece.now) (W.transcript writer.old) count (desk.new, handler.new) (unread session.new)
        (W.transcript writer.new)
        × (number.new ≡ min (number.old + count) (2 ^ 64 - 1))) }
    ensures left { IfOk result (λ goes_on. front (unread session.new)
        ≡ (if goes_on then partial else too_large)) }
    ensures stopped { IfErr result (λ fault. IsGivenUp fault H.answers (desk.old, handler.old)
        (unread session.old ++ piece.now) (W.transcript writer.old) (desk.new, handler.new)
        (W.transcript writer.new) []) }
    ensures well { OnOk result (W.has_failed writer.new ≡ false) }
    ensures goes_on { IfOk result (λ goes_on. IsTrue goes_on → ended_by session.new ≡ None) }
    ensures write_failed { result ≡ Err StreamFault.WriteFailed → W.has_failed writer.new ≡ true }
    ensures no_memory { result ≡ Err StreamFault.NoMemory → W.has_failed writer.new ≡ false }
    ensures no_other { result ≢ Err StreamFault.ReadFailed }
    ensures let_go { OnOk result ((first : W) → W.lets_go first (writer.old, handler.old) []
        → W.lets_go first (writer.new, handler.new) []) }
    ensures given_up { OnErr result ((first : W) → W.lets_go first (writer.old, handler.old) []
        → (left : List ℕ) × W.lets_go first (writer.new, handler.new) left) }
{
    match session.feed(piece) {
        Ok(()) => answer_together(alloc, session, writer, batch, desk, handler, number),
        Err(_) => Err(StreamFault::NoMemory),
    }
}

// Answers a length over the limit.
fn refuse_length<D, H: FrameHandler<D>, W: ReplySink<D, H>>(
    alloc: Global,
    writer: &mut W,
) -> Result<(), StreamFault>
    requires { W.has_failed writer.old ≡ false }
    ensures ok { OnOk result (W.transcript writer.new ≡ W.transcript writer.old
        ++ too_large_reply) }
    ensures err { IfErr result (λ fault. IsLastUnwritten fault (W.transcript writer.old)
        (W.transcript writer.new)) }
    ensures well { OnOk result (W.has_failed writer.new ≡ false) }
    ensures write_failed { result ≡ Err StreamFault.WriteFailed → W.has_failed writer.new ≡ true }
    ensures no_memory { result ≡ Err StreamFault.NoMemory → W.has_failed writer.new ≡ false }
    ensures no_other { result ≢ Err StreamFault.ReadFailed }
    ensures let_go { (first : W) (handler : H) (waits : List ℕ)
        → W.lets_go first (writer.old, handler) waits
        → W.has_let_go first (writer.new, handler) too_large_reply }
{
    let refusal = Reply::Refused {
        code: 71,
        program: None,
        slot: None,
    };
    let reply = match reply_frame(alloc, &refusal) {
        Ok(reply) => reply,
        Err(NoMemory) => return Err(StreamFault::NoMemory),
    };
    match writer.write_last(&reply) {
        Ok(()) => Ok(()),
        Err(_) => Err(StreamFault::WriteFailed),
    }
}

/// Answers the frames of all that the reader gives, in order, each by one reply, and tells how
/// many. Those that are answered 72 or 73 count; the number stays at `2^64 - 1`.
///
/// It reads pieces of at most 4,096 bytes up to the end of input, at most `2^64 - 1` of them. The
/// replies to the frames that are whole with a piece go out together, up to 65,536 bytes. A
/// last frame that is cut short is answered by nothing. A length over the limit is answered 71,
/// once, which isn't counted, and nothing more is read.
///
/// Replies are written by the sink's own rule (`write_replies`): what was written may go out then.
///
/// 83 where the reader failed: every frame that it gave whole is answered, by its whole reply. 84
/// where the writer failed: within the replies of a piece, or the last 71. 99 where a piece, a frame or a
/// reply found no memory, and neither has failed: what was written are whole replies. The desk is
/// that after the requests that were heard.
pub fn serve_stream<R: Source, D, H: FrameHandler<D>, W: ReplySink<D, H>>(
    alloc: Global,
    reader: &mut R,
    writer: &mut W,
    desk: &mut D,
    handler: &mut H,
) -> Result<u64, StreamFault>
    requires source { R.has_failed reader.old ≡ false }
    requires sink { W.has_failed writer.old ≡ false }
    requires ready { H.ready handler.old }
    ensures ready { H.ready handler.new }
    ensures served { IfOk result (λ number. (all : List ℕ)
        × (R.transcript reader.new ≡ R.transcript reader.old ++ all)
        × IsServed H.answers (desk.old, handler.old) all (W.transcript writer.old)
        (R.is_over reader.new
        ≡ true) (desk.new, handler.new) number (W.transcript writer.new)) }
    ensures stopped { IfErr result (λ fault. (all : List ℕ)
        × (R.transcript reader.new ≡ R.transcript reader.old ++ all)
        × IsStoppedBy fault H.answers (desk.old, handler.old) all (W.transcript writer.old)
        (desk.new, handler.new) (W.transcript writer.new)) }
    ensures read_failed { result ≡ Err StreamFault.ReadFailed → R.has_failed reader.new ≡ true }
    ensures write_failed { result ≡ Err StreamFault.WriteFailed → W.has_failed writer.new ≡ true }
    ensures no_memory { result ≡ Err StreamFault.NoMemory → (R.has_failed reader.new ≡ false)
        × (W.has_failed writer.new ≡ false) }
    ensures well { OnOk result ((R.has_failed reader.new ≡ false)
        × (W.has_failed writer.new ≡ false)) }
    ensures let_go { (first : W) → W.lets_go first (writer.old, handler.old) []
        → W.has_let_go first (writer.new, handler.new) too_large_reply }
{
    let mut session = Session::new(alloc);
    let mut batch = Vec::new(alloc);
    let mut piece = [0u8; PIECE_LEN];
    let mut number = 0;
    'reads: for _ in 0..u64::MAX {
        let count = match reader.read(&mut piece) {
            Ok(count) => count,
            Err(_) => return Err(StreamFault::ReadFailed),
        };
        if count == 0 {
            return Ok(number);
        }
        let goes_on = take_piece(
            alloc,
            &mut session,
            &piece[..count],
            writer,
            &mut batch,
            desk,
            handler,
            &mut number,
        )?;
        if !goes_on {
            refuse_length::<D, H, W>(alloc, writer)?;
            return Ok(number);
        }
    }
    Ok(number)
}
