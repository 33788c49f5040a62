//! A conversation: what a client says in pieces, and the replies that are still to be sent.

ghost use Rattle.std.specs.Prelude.{◌≡◌};

use crate::ended::Ended;
use crate::frames::take_frames;
use bytes::BytesMut;
use sessions::Session;
use std::alloc::Global;
use streams::Handler;

/// What came of a client and isn't answered yet, and the replies that are still to be sent.
#[derive(Drop)]
pub struct Conversation {
    session: Session,
    due: BytesMut,
    ended: Option<Ended>,
}

impl Conversation {
    ghost use Rattle.std.specs.Prelude.{◌++◌, ℕ, length, min, take, drop, None, Some, Err, OnOk, IfErr, IfSome};
    ghost use Rattle.sessions.specs.Frames.{front, partial};
    ghost use Rattle.sessions.specs.Session.{unread};
    ghost use Rattle.streams.specs.Hearing.{by_reading};
    ghost use Rattle.streams.specs.Serves.{Serves};
    ghost use Rattle.conversation.specs.Conversations.{IsNewConversation, IsOpenConversation};
    ghost use Rattle.conversation.specs.Endings.{IsEnded};

    /// A conversation in which nothing was said.
    pub fn new(alloc: Global) -> Conversation
        ensures { IsNewConversation result }
    {
        Conversation {
            session: Session::new(alloc),
            due: BytesMut::new(alloc),
            ended: None,
        }
    }

    /// Takes a piece that came, and answers each frame that is whole now, in order, by one reply,
    /// which is sent behind those that wait.
    ///
    /// 71 where a length over the limit comes next: it is answered too, and is the last. 99 where a
    /// piece, a frame or a reply found no memory: frames are answered up to some frame, and the
    /// reply to the next one is lost, if that was heard. After both the conversation is over: the
    /// same is answered to each later piece, and nothing changes.
    pub fn take_piece<D, H: Handler<D>>(
        &mut self,
        alloc: Global,
        piece: &[u8],
        desk: &mut D,
        handler: &mut H,
    ) -> Result<(), Ended>
        requires { H.ready handler.old }
        ensures ready { H.ready handler.new }
        ensures served { OnOk result ((count : ℕ)
            × Serves (by_reading H.answers) (desk.old, handler.old) (unread self.old.session ++ piece.now)
            self.old.due.items count (desk.new, handler.new) (unread self.new.session)
            self.new.due.items) }
        ensures left { OnOk result (front (unread self.new.session) ≡ partial) }
        ensures goes_on { OnOk result (IsOpenConversation self.new) }
        ensures ended { IsOpenConversation self.old → IfErr result (λ ended.
            IsEnded ended (by_reading H.answers) (desk.old, handler.old)
            (unread self.old.session ++ piece.now) self.old.due.items (desk.new, handler.new)
            self.new.due.items) }
        ensures told { IfErr result (λ ended. self.new.ended ≡ Some ended) }
        ensures closed { IfSome self.old.ended (λ ended. (result ≡ Err ended)
            × (self.new ≡ self.old) × (desk.new ≡ desk.old) × (handler.new ≡ handler.old)) }
    {
        if let Some(ended) = self.ended {
            return Err(ended);
        }
        match take_frames(
            alloc,
            &mut self.session,
            &mut self.due,
            piece,
            desk,
            handler,
        ) {
            Ok(()) => Ok(()),
            Err(ended) => {
                self.ended = Some(ended);
                Err(ended)
            }
        }
    }

    /// How many bytes are still to be sent.
    pub fn due_len(&self) -> usize
        ensures { result ≡ length self.now.due.items }
    {
        self.due.len()
    }

    /// Copies bytes that are to be sent into the room, as many as there is room for, and answers
    /// how many. They count as sent.
    pub fn take_due(&mut self, room: &mut [u8]) -> usize
        ensures count { result ≡ min (length room.old) (length self.old.due.items) }
        ensures room { room.new ≡ take result self.old.due.items ++ drop result room.old }
        ensures due { self.new.due.items ≡ drop result self.old.due.items }
        ensures session { self.new.session ≡ self.old.session }
        ensures ended { self.new.ended ≡ self.old.ended }
    {
        let count = room.len().min(self.due.len());
        room[..count].copy_from_slice(&self.due.as_slice()[..count]);
        self.due.advance(count);
        count
    }

    /// Why it is over, if it is.
    pub fn ended(&self) -> Option<Ended>
        ensures { result ≡ self.now.ended }
    {
        self.ended
    }
}
