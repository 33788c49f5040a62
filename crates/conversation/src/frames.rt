//! The frames of a conversation, each answered.

ghost use Rattle.std.specs.Prelude.{◌≡◌, ◌≢◌, ◌++◌, ℕ, List, None, IsErr, OnOk, OnErr, IfOk, IfErr, IfSome};
ghost use Rattle.sessions.specs.Frames.{front, partial};
ghost use Rattle.sessions.specs.Session.{unread, ended_by};
ghost use Rattle.streams.specs.Serves.{Serves};
ghost use Rattle.streams.specs.Hearing.{by_reading, query_of};
ghost use Rattle.conversation.specs.Hearing.{IsArrivedFrame};
ghost use Rattle.conversation.specs.Endings.{IsEnded, IsRefused};

use crate::ended::Ended;
use bytes::BytesMut;
use refusal::NoMemory;
use sessions::{Reply, Request, Session, SessionFault, reply_frame};
use std::alloc::Global;
use streams::Handler;

// What is heard at the front of the bytes that came.
#[derive(Drop)]
enum ArrivedFrame {
    Waiting,
    TooLarge,
    Question(Result<Request, u8>),
}

fn hear(alloc: Global, session: &mut Session) -> Result<ArrivedFrame, NoMemory>
    requires { ended_by session.old ≡ None }
    ensures heard { IfOk result (λ heard.
        IsArrivedFrame heard (unread session.old) (unread session.new)) }
    ensures well { IfOk result
        (λ heard. heard ≢ ArrivedFrame.TooLarge → ended_by session.new ≡ None) }
{
    match session.next_request(alloc) {
        Ok(None) => Ok(ArrivedFrame::Waiting),
        Ok(Some(request)) => Ok(ArrivedFrame::Question(Ok(request))),
        Err(SessionFault::FrameTooLarge) => Ok(ArrivedFrame::TooLarge),
        Err(SessionFault::NoMemory) => Err(NoMemory),
        Err(SessionFault::NotJson) => Ok(ArrivedFrame::Question(Err(SessionFault::NotJson.code()))),
        Err(SessionFault::BadRequest) => Ok(ArrivedFrame::Question(Err(
            SessionFault::BadRequest.code(),
        ))),
    }
}

// Answers one frame, by a reply that waits to be sent.
fn answer_one<D, H: Handler<D>>(
    alloc: Global,
    due: &mut BytesMut,
    desk: &mut D,
    handler: &mut H,
    request: Result<Request, u8>,
) -> Result<(), NoMemory>
    requires { H.ready handler.old }
    ensures ready { H.ready handler.new }
    ensures ok { OnOk result ((reply : List ℕ)
        × H.answers (desk.old, handler.old) (query_of request) reply (desk.new, handler.new)
        × (due.new.items ≡ due.old.items ++ reply)) }
    ensures err { OnErr result ((reply : List ℕ)
        × H.answers (desk.old, handler.old) (query_of request) reply (desk.new, handler.new)
        × (due.new.items ≡ due.old.items)) }
{
    let reply = handler.answer(alloc, desk, request)?;
    match due.extend_from_slice(&reply) {
        Ok(()) => Ok(()),
        Err(_) => Err(NoMemory),
    }
}

// Answers a length over the limit, and tells why the conversation is over.
fn refuse_length(alloc: Global, due: &mut BytesMut) -> Ended
    ensures { IsRefused result due.old.items due.new.items }
{
    let refusal = Reply::Refused {
        code: 71,
        program: None,
        slot: None,
    };
    let reply = match reply_frame(alloc, &refusal) {
        Ok(reply) => reply,
        Err(NoMemory) => return Ended::NoMemory,
    };
    match due.extend_from_slice(&reply) {
        Ok(()) => Ended::TooLarge,
        Err(_) => Ended::NoMemory,
    }
}

// Answers each whole frame.
fn answer_frames<D, H: Handler<D>>(
    alloc: Global,
    session: &mut Session,
    due: &mut BytesMut,
    desk: &mut D,
    handler: &mut H,
) -> Result<(), Ended>
    requires well { ended_by session.old ≡ None }
    requires ready { H.ready handler.old }
    ensures ready { H.ready handler.new }
    ensures served { OnOk result ((count : ℕ)
        × Serves (by_reading H.answers) (desk.old, handler.old) (unread session.old) due.old.items count
        (desk.new, handler.new) (unread session.new) due.new.items) }
    ensures left { OnOk result (front (unread session.new) ≡ partial) }
    ensures well { OnOk result (ended_by session.new ≡ None) }
    ensures ended { IfErr result (λ ended. IsEnded ended (by_reading H.answers) (desk.old, handler.old)
        (unread session.old) due.old.items (desk.new, handler.new) due.new.items) }
{
    'frames: loop {
        let request = match hear(alloc, session)? {
            ArrivedFrame::Waiting => return Ok(()),
            ArrivedFrame::TooLarge => return Err(refuse_length(alloc, due)),
            ArrivedFrame::Question(request) => request,
        };
        answer_one(alloc, due, desk, handler, request)?;
    }
}

/// Takes a piece that came, and answers each frame that is whole now.
pub(crate) fn take_frames<D, H: Handler<D>>(
    alloc: Global,
    session: &mut Session,
    due: &mut BytesMut,
    piece: &[u8],
    desk: &mut D,
    handler: &mut H,
) -> Result<(), Ended>
    requires { H.ready handler.old }
    ensures ready { H.ready handler.new }
    ensures served { OnOk result ((count : ℕ)
        × Serves (by_reading H.answers) (desk.old, handler.old) (unread session.old ++ piece.now) due.old.items
        count (desk.new, handler.new) (unread session.new) due.new.items) }
    ensures left { OnOk result (front (unread session.new) ≡ partial) }
    ensures well { OnOk result (ended_by session.new ≡ None) }
    ensures ended { ended_by session.old ≡ None → IfErr result (λ ended.
        IsEnded ended (by_reading H.answers) (desk.old, handler.old) (unread session.old ++ piece.now)
        due.old.items (desk.new, handler.new) due.new.items) }
    ensures closed { IfSome (ended_by session.old) (λ _. IsErr result
        × (due.new.items ≡ due.old.items) × (desk.new ≡ desk.old)
        × (handler.new ≡ handler.old)) }
{
    match session.feed(piece) {
        Ok(()) => answer_frames(alloc, session, due, desk, handler),
        Err(_) => Err(Ended::NoMemory),
    }
}
