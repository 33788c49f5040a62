//! A stream of requests, cut from pieces of any size.

ghost use Rattle.std.specs.Prelude.{◌≡◌, ◌≤◌, ◌++◌, [], Some, None, Err, OnOk, OnErr, IfErr, IfOk, IfSome, MatchResult, length};
ghost use Rattle.tokio_util.specs.Codec.LengthDelimited.{codec_layout, IsAtHead};
ghost use Rattle.sessions.specs.Frames.{Front, front, stated_length};
ghost use Rattle.sessions.specs.Faults.{lasting_of};
ghost use Rattle.sessions.specs.Heads.{IsHeadOf};
ghost use Rattle.sessions.specs.Layout.{frame_layout};
ghost use Rattle.sessions.specs.declared.fault.SessionFault.TheVariants.{NoMemory};
ghost use Rattle.sessions.specs.declared.session.Head.TheVariants.{Whole};

use crate::fault::SessionFault;
use crate::request::{Request, read_request};
use bytes::BytesMut;
use std::alloc::Global;
use tokio_util::codec::{Decoder, LengthDelimitedCodec};

const LONGEST_PAYLOAD: usize = 1_048_576;

// Room that is made for a piece: so much for a small one, and more for others.
const SMALL_ROOM: usize = 512;

const ROOM: usize = 8192;

// What stands first in the bytes so far.
#[derive(Clone, Copy)]
enum Head {
    Whole,
    Partial,
    TooLarge,
}

// The number that the first four bytes write.
fn stated_length(bytes: &[u8]) -> usize
    requires { 4 ≤ length bytes.now }
    ensures { result ≡ stated_length bytes.now }
{
    let mut value = 0;
    for byte in &bytes[..4] {
        value = value * 256 + *byte as usize;
    }
    value
}

// No byte but the first four is looked at, so a frame may come in as many pieces as it has bytes.
#[tactic(auto, using(crate::proofs::Cuts::front_short, crate::proofs::Cuts::front_big, crate::proofs::Cuts::front_waits, crate::proofs::Cuts::front_whole))]
fn head_of(bytes: &[u8]) -> Head
    ensures { IsHeadOf result (front bytes.now) }
{
    if bytes.len() < 4 {
        return Head::Partial;
    }
    let length = stated_length(bytes);
    if length > LONGEST_PAYLOAD {
        return Head::TooLarge;
    }
    if bytes.len() - 4 < length {
        return Head::Partial;
    }
    Head::Whole
}

fn codec() -> LengthDelimitedCodec
    ensures layout { codec_layout result ≡ frame_layout }
    ensures head { IsAtHead result }
{
    LengthDelimitedCodec::builder()
        .max_frame_length(LONGEST_PAYLOAD)
        .new_codec()
}

// The fault itself, where the session answers nothing else from now on.
fn lasting(fault: SessionFault) -> Option<SessionFault>
    ensures { result ≡ lasting_of fault }
{
    match fault {
        SessionFault::FrameTooLarge | SessionFault::NoMemory => Some(fault),
        SessionFault::NotJson | SessionFault::BadRequest => None,
    }
}

/// Takes a stream in pieces of any size, and gives its requests in order.
///
/// Each byte is copied when it comes, and again where room is made for the rest of its frame: then
/// the buffer doubles at least, or the rest is in sight. So a frame's length takes no memory before
/// its bytes come.
#[derive(Drop)]
pub struct Session {
    buffer: BytesMut,
    ended_by: Option<SessionFault>,
}

impl Session {
    ghost use Rattle.sessions.specs.Session.{unread, ended_by, FrameAnswer, RequestAnswer};

    /// A session that has taken nothing.
    pub fn new(alloc: Global) -> Session
        ensures unread { unread result ≡ [] }
        ensures goes_on { ended_by result ≡ None }
    {
        Session {
            buffer: BytesMut::new(alloc),
            ended_by: None,
        }
    }

    /// Takes the next piece of the stream. A refusal takes nothing of it; after 99 the same call
    /// may be made again.
    ///
    /// Once [`Session::next_request`] has answered 71 or 99, so does every later call.
    pub fn feed(&mut self, piece: &[u8]) -> Result<(), SessionFault>
        ensures taken { OnOk result ((ended_by self.old ≡ None)
            × (unread self.new ≡ unread self.old ++ piece.now)) }
        ensures refused { OnErr result (unread self.new ≡ unread self.old) }
        ensures why { IfErr result (λ e. ended_by self.old ≡ None → e ≡ NoMemory) }
        ensures ended { IfSome (ended_by self.old) (λ fault. result ≡ Err fault) }
        ensures same { ended_by self.new ≡ ended_by self.old }
    {
        if let Some(fault) = self.ended_by {
            return Err(fault);
        }
        self.make_room_for(piece.len());
        if self.buffer.extend_from_slice(piece).is_err() {
            return Err(SessionFault::NoMemory);
        }
        Ok(())
    }

    // Room for a piece of so many bytes, where there is none: of few sizes, so that what one stream
    // gives back is what the next one asks for. Where there is no memory for it, nothing is made.
    fn make_room_for(&mut self, count: usize)
        ensures unread { unread self.new ≡ unread self.old }
        ensures same { ended_by self.new ≡ ended_by self.old }
    {
        if self.buffer.try_reclaim(count) {
            return;
        }
        let room = if count <= SMALL_ROOM {
            SMALL_ROOM
        } else {
            count.max(ROOM)
        };
        let _ = self.buffer.reserve(room);
    }

    // Takes the whole frame that stands first.
    fn take_frame(&mut self) -> Result<BytesMut, SessionFault>
        requires { IsHeadOf Whole (front (unread self.old)) }
        ensures frame { IfOk result (λ frame. front (unread self.old)
            ≡ Front.whole frame.items (unread self.new)) }
        ensures refused { IfErr result (λ e. e ≡ NoMemory) }
        ensures left { OnErr result (FrameAnswer (Err NoMemory) (unread self.old)
            (unread self.new)) }
        ensures same { ended_by self.new ≡ ended_by self.old }
    {
        match codec().decode(&mut self.buffer) {
            Ok(Some(frame)) => Ok(frame),
            Ok(None) => unreachable!(),
            Err(_) => Err(SessionFault::NoMemory),
        }
    }

    // Room for the rest of the frame that stands first, or for as much as has come of it: the rest may
    // never come. So the buffer doubles, and a length alone takes no memory. Where there is no memory
    // for it, the buffer grows piece by piece.
    fn make_room(&mut self)
        ensures unread { unread self.new ≡ unread self.old }
        ensures same { ended_by self.new ≡ ended_by self.old }
    {
        let bytes = self.buffer.as_slice();
        let have = bytes.len();
        if have < 4 {
            return;
        }
        let length = stated_length(bytes);
        if length <= LONGEST_PAYLOAD && have < length + 4 {
            let rest = length + 4 - have;
            let _ = self.buffer.reserve(rest.min(have));
        }
    }

    /// The payload of the next frame, once it is whole; `None` until then.
    ///
    /// A frame that is too long is 71 at its turn, and so is every later call. After 99 every later
    /// call answers 99; no byte behind the frame that found no memory is lost.
    pub fn next_frame(&mut self) -> Result<Option<BytesMut>, SessionFault>
        ensures answer { ended_by self.old ≡ None
            → FrameAnswer result (unread self.old) (unread self.new) }
        ensures ended { IfSome (ended_by self.old) (λ fault. (result ≡ Err fault)
            × (ended_by self.new ≡ Some fault) × (unread self.new ≡ unread self.old)) }
        ensures lasts { ended_by self.old ≡ None
            → MatchResult result (λ _. ended_by self.new ≡ None) (λ e. ended_by self.new
            ≡ lasting_of e) }
    {
        if let Some(fault) = self.ended_by {
            return Err(fault);
        }
        match head_of(self.buffer.as_slice()) {
            Head::Partial => {
                self.make_room();
                Ok(None)
            }
            Head::TooLarge => {
                self.ended_by = Some(SessionFault::FrameTooLarge);
                Err(SessionFault::FrameTooLarge)
            }
            Head::Whole => match self.take_frame() {
                Ok(frame) => Ok(Some(frame)),
                Err(fault) => {
                    self.ended_by = lasting(fault);
                    Err(fault)
                }
            },
        }
    }

    /// The next request, once its frame is whole; `None` until then.
    ///
    /// 72 and 73 use up their frame, and the session goes on. A frame that is too long is 71 at its
    /// turn, and so is every later call. After 99 every later call answers 99; no byte behind the
    /// frame that found no memory is lost.
    pub fn next_request(&mut self, alloc: Global) -> Result<Option<Request>, SessionFault>
        ensures answer { ended_by self.old ≡ None
            → RequestAnswer result (unread self.old) (unread self.new) }
        ensures ended { IfSome (ended_by self.old) (λ fault. (result ≡ Err fault)
            × (ended_by self.new ≡ Some fault) × (unread self.new ≡ unread self.old)) }
        ensures lasts { ended_by self.old ≡ None
            → MatchResult result (λ _. ended_by self.new ≡ None) (λ e. ended_by self.new
            ≡ lasting_of e) }
    {
        let frame = match self.next_frame() {
            Ok(Some(frame)) => frame,
            Ok(None) => return Ok(None),
            Err(fault) => return Err(fault),
        };
        match read_request(alloc, frame.as_slice()) {
            Ok(request) => Ok(Some(request)),
            Err(fault) => {
                self.ended_by = lasting(fault);
                Err(fault)
            }
        }
    }
}
