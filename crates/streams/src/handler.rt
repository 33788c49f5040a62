//! What answers the requests of a stream.

ghost use Rattle.std.specs.Prelude.{ℕ, List, Result, IfOk, OnErr};
ghost use Rattle.sessions.specs.Grammar.{Asked};
ghost use Rattle.streams.specs.Hearing.{query_of};
ghost use Rattle.streams.specs.Prepared.{asked_of};
ghost use Rattle.streams.specs.Refusing.{TellsRefusal};

use crate::pending_reply::PendingReply;
use crate::prepared_request::PreparedRequest;
use crate::submit_refusal::SubmitRefusal;
use accounts::Desk;
use refusal::NoMemory;
use sessions::Request;
use std::alloc::Global;

/// What answers a request, on a desk.
pub trait Handler<D> {
    // It may be called.
    ghost ready: { Self → Type 0 };

    // From a desk and a handler, for what a frame asks or the number of its refusal, the reply and
    // the desk and the handler after it.
    ghost answers: { D × Self → Result Asked ℕ → List ℕ → D × Self → Type 0 };

    /// Answers what a frame asks, or the number of its refusal. Where the reply finds no memory,
    /// the request was still carried out.
    fn answer(
        &mut self,
        alloc: Global,
        desk: &mut D,
        request: Result<Request, u8>,
    ) -> Result<Vec<u8>, NoMemory>
        requires { ready self.old }
        ensures ready { ready self.new }
        ensures ok { IfOk result
            (λ reply. answers (desk.old, self.old) (query_of request) reply.items
            (desk.new, self.new)) }
        ensures err { OnErr result ((reply : List ℕ)
            × answers (desk.old, self.old) (query_of request) reply (desk.new, self.new)) };
}

/// A handler of a desk that also takes requests whose jobs were admitted ahead, and tells why a job
/// that was asked for doesn't run.
pub trait TellingHandler: Handler<Desk> {
    /// Answers as `answer` does, but for the frame of a report, which may be written later. Beside the
    /// reply it tells why a job that was asked for doesn't run.
    fn answer_and_tell(
        &mut self,
        alloc: Global,
        desk: &mut Desk,
        request: PreparedRequest,
    ) -> (Option<SubmitRefusal>, Result<PendingReply, NoMemory>)
        requires { Self.ready self.old }
        ensures ready { Self.ready self.new }
        ensures ok { IfOk result.1
            (λ reply. Self.answers (desk.old, self.old) (asked_of request) reply
            (desk.new, self.new)) }
        ensures err { OnErr result.1 ((reply : List ℕ)
            × Self.answers (desk.old, self.old) (asked_of request) reply (desk.new, self.new)) }
        ensures refusal { TellsRefusal desk.new (asked_of request) result.0 result.1 };
}
