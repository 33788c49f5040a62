//! What answers the frames of a stream.

ghost use Rattle.std.specs.Prelude.{ℕ, List, IfOk, OnErr};
ghost use Rattle.sessions.specs.OwnNames.{HearsBy};
ghost use Rattle.streams.specs.Hearing.{query_of};
ghost use Rattle.streams.specs.Unanswered.{IsUnanswered};

use crate::handler::Handler;
use refusal::NoMemory;
use sessions::{Request, SessionFault, TenantKey, read_request_by};
use std::alloc::Global;

/// What answers a frame by its payload, on a desk.
pub trait FrameHandler<D> {
    // It may be called.
    ghost ready: { Self → Type 0 };

    // From a desk and a handler, for a payload, the reply and the desk and the handler after it.
    ghost answers: { D × Self → List ℕ → List ℕ → D × Self → Type 0 };

    /// Answers a frame's payload. Where there is no memory, either nothing has changed, or what the
    /// payload asks was carried out and the reply is lost.
    fn answer_payload(
        &mut self,
        alloc: Global,
        desk: &mut D,
        payload: &[u8],
    ) -> Result<Vec<u8>, NoMemory>
        requires { ready self.old }
        ensures ready { ready self.new }
        ensures ok { IfOk result
            (λ reply. answers (desk.old, self.old) payload.now reply.items (desk.new, self.new)) }
        ensures err { OnErr result
            (IsUnanswered answers (desk.old, self.old) payload.now (desk.new, self.new)) };
}

/// What a payload asks, or the number of its refusal: 72 or 73. Where the tenant's name may be left out
/// and is, it is asked of the empty name.
pub fn hear_payload(
    alloc: Global,
    payload: &[u8],
    key: TenantKey,
) -> Result<Result<Request, u8>, NoMemory>
    ensures { IfOk result (λ heard. HearsBy key payload.now (query_of heard)) }
{
    match read_request_by(alloc, payload, key) {
        Ok(request) => Ok(Ok(request)),
        Err(SessionFault::FrameTooLarge) => unreachable!(),
        Err(SessionFault::NoMemory) => Err(NoMemory),
        Err(SessionFault::NotJson) => Ok(Err(SessionFault::NotJson.code())),
        Err(SessionFault::BadRequest) => Ok(Err(SessionFault::BadRequest.code())),
    }
}

/// A handler of requests answers what it hears in a payload.
impl<D, H: Handler<D>> FrameHandler<D> for H {
    ghost use Rattle.streams.specs.Hearing.{by_reading};

    ghost ready = { H.Handler.ready };

    ghost answers = { by_reading H.Handler.answers };

    fn answer_payload(
        &mut self,
        alloc: Global,
        desk: &mut D,
        payload: &[u8],
    ) -> Result<Vec<u8>, NoMemory> {
        let heard = hear_payload(alloc, payload, TenantKey::Required)?;
        self.answer(alloc, desk, heard)
    }
}
