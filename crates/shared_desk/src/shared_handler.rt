//! What answers the requests of many connections.

ghost use Rattle.std.specs.Prelude.{◌≡◌, List, ℕ, IfOk, OnErr};
ghost use Rattle.shared_desk.specs.Histories.{Query};
ghost use Rattle.shared_desk.specs.Answered.{query_by};

use crate::passage::Passage;
use accounts::Desk;
use refusal::NoMemory;
use sessions::{DoorForm, Request};
use std::alloc::Global;
use streams::{PendingReply, PreparedRequest, Runner, TellingHandler, wants_admission};

/// What answers a request at a desk that connections share, by the passage that it came by.
pub trait SharedHandler<D> {
    // It may be called.
    ghost ready: { Self → Type 0 };

    // From a desk and a handler, for what was asked, the reply and the desk and the handler after it.
    ghost answers: { D × Self → Query → List ℕ → D × Self → Type 0 };

    /// Whether it is worth to admit the job of this request, which came by a passage, ahead of the
    /// answer, while others are at the desk.
    fn wants_admission(&self, desk: &D, passage: Passage, request: &Request) -> bool;

    /// Hears the number of the connection whose request it answers next. No answer depends on it: it
    /// is for a log.
    fn serve_next(&mut self, connection: u64)
        ensures { self.new ≡ self.old }
    {
        let _ = connection;
    }

    /// Answers what was asked by a passage, or the number of its refusal, and what was asked beyond
    /// the plain protocol. The frame of a report is written later. Where the reply finds no memory,
    /// the request was still carried out.
    fn answer_by(
        &mut self,
        alloc: Global,
        desk: &mut D,
        passage: Passage,
        request: PreparedRequest,
        beyond: Option<DoorForm>,
    ) -> Result<PendingReply, NoMemory>
        requires { ready self.old }
        ensures ready { ready self.new }
        ensures ok { IfOk result (λ reply. answers (desk.old, self.old)
            (query_by passage request beyond) reply (desk.new, self.new)) }
        ensures err { OnErr result ((reply : List ℕ) × answers (desk.old, self.old)
            (query_by passage request beyond) reply (desk.new, self.new)) };
}

/// A runner answers all passages alike, by the plain protocol.
impl<N: Runner> SharedHandler<Desk> for N {
    ghost use Rattle.shared_desk.specs.Histories.{by_any_passage};
    ghost use Rattle.streams.specs.Answering.{Answers};

    ghost ready = { N.Runner.ready };

    ghost answers = { by_any_passage (λ s query reply t.
        Answers N.starts N.looks N.takes s.0 s.1 query reply t.0 t.1) };

    fn wants_admission(&self, desk: &Desk, _passage: Passage, request: &Request) -> bool {
        wants_admission(desk, request)
    }

    fn answer_by(
        &mut self,
        alloc: Global,
        desk: &mut Desk,
        _passage: Passage,
        request: PreparedRequest,
        _beyond: Option<DoorForm>,
    ) -> Result<PendingReply, NoMemory> {
        self.answer_and_tell(alloc, desk, request).1
    }
}
