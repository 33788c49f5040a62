//! What lies under the lock.

ghost use Rattle.std.specs.Prelude.{◌≡◌, ◌≤◌, ◌-◌, ◌^◌, [], ◌∷◌, ℕ, List, All, Ok, length, min, IfOk, OnErr};
ghost use mathlib.Core.List.{IsPrefix};
ghost use Rattle.shared_desk.specs.Histories.{Replays, part_of};
ghost use Rattle.shared_desk.specs.Answered.{IsSharedAnswer, query_by};
ghost use Rattle.shared_desk.specs.Closed as closed;
ghost use Rattle.shared_desk.specs.declared.closed.ClosedConnection.{ClosedConnection};

use crate::passage::Passage;
use crate::seats::{ClosingRule, Origin};
use crate::shared_handler::SharedHandler;
use crate::shared_history::{ClientSeat, Opener, Recorder, SharedHistory};
use refusal::NoMemory;
use sessions::{DoorForm, Request};
use std::alloc::Global;
use std::marker::{Brand, Model};
use std::snapshot::Snapshot;
use streams::{
    FrameHandler, Noted, PendingReply, PreparedRequest, ReplySink, Sink, Source, StreamFault,
};

/// A desk and its handler, with the history that leads to them, and the connections that are over.
/// Contracts see it as the two, the history, and these connections, of which the last one stands
/// first.
#[derive(Drop)]
pub struct SharedDesk<D, H: SharedHandler<D>, J: Origin<D, H>> {
    desk: D,
    handler: H,
    recorder: Recorder<J>,
    over: u64,
    outcome: Result<(), StreamFault>,
}

impl<D, H: SharedHandler<D>, J: Origin<D, H>> Model for SharedDesk<D, H, J> {
    ghost use Rattle.std.specs.Prelude.{◌≡◌, ◌-◌, ◌^◌, List, All, length, min};
    ghost use Rattle.shared_desk.specs.declared.closed.ClosedConnection.{ClosedConnection};
    ghost use Rattle.shared_desk.specs.Closed.{IsServedWhole, first_fault};
    ghost use Rattle.shared_desk.specs.Histories.{HistoryEntry, Replays};

    ghost Value = { (D × H) × List HistoryEntry × List ClosedConnection };

    ghost view = { λ s. ((s.desk, s.handler), s.recorder.0, s.recorder.1) };

    ghost invariant = { λ s. H.ready s.handler
        × Replays H.answers J.begins s.recorder.0 (s.desk, s.handler)
        × All IsServedWhole s.recorder.1 × (s.over ≡ min (length s.recorder.1) (2 ^ 64 - 1))
        × (s.outcome ≡ first_fault s.recorder.1) × All (λ c. J.comes c.passage) s.recorder.1 };
}

// The fault that was there first.
fn earlier_fault(
    earlier: Result<(), StreamFault>,
    later: &Result<u64, StreamFault>,
) -> Result<(), StreamFault>
    ensures { result ≡ closed.earlier_fault earlier later.now }
{
    match earlier {
        Err(fault) => Err(fault),
        Ok(()) => match later {
            Ok(_) => Ok(()),
            Err(fault) => Err(*fault),
        },
    }
}

impl<D, H: SharedHandler<D>, J: Origin<D, H>> SharedDesk<D, H, J> {
    /// A desk and a handler of which nothing was asked.
    pub fn new(desk: D, handler: H, recorder: Recorder<J>) -> SharedDesk<D, H, J>
        requires ready { H.ready handler }
        requires begins { J.begins (desk, handler) }
        requires empty { recorder ≡ ([], []) }
        ensures { (result.0 ≡ (desk, handler)) × (result.1 ≡ []) × (result.2 ≡ []) }
    {
        SharedDesk {
            desk,
            handler,
            recorder,
            over: 0,
            outcome: Ok(()),
        }
    }

    /// A connection sees the whole history.
    pub fn look(&mut self, history: &SharedHistory<J>, seat: &mut ClientSeat<J>)
        ensures same { self.new ≡ self.old }
        ensures seat { (seat.new.number ≡ seat.old.number) × (seat.new.seen ≡ self.old.1)
            × (seat.new.part ≡ seat.old.part) }
        ensures own { part_of seat.new.number seat.new.seen ≡ seat.new.part }
        ensures later { IsPrefix seat.old.seen self.old.1 }
        ensures legal { Replays H.answers J.begins seat.new.seen self.old.0 }
    {
        history.look(seat, &mut self.recorder);
    }

    /// Whether it is worth to admit the job of this request, which came by a passage, ahead of the
    /// answer.
    pub fn wants_admission(&self, passage: Passage, request: &Request) -> bool {
        self.handler.wants_admission(&self.desk, passage, request)
    }

    /// The handler hears the number of the connection whose request it answers next.
    pub fn serve_next(&mut self, connection: u64)
        ensures { self.new ≡ self.old }
    {
        self.handler.serve_next(connection);
    }

    /// Answers a request of a connection, by its passage, and what it asked beyond the plain protocol,
    /// as the handler does, and adds that to the history. Where the reply finds no memory, the request
    /// was still carried out, and the history has it.
    pub fn answer(
        &mut self,
        history: &SharedHistory<J>,
        seat: &mut ClientSeat<J>,
        alloc: Global,
        passage: Passage,
        request: PreparedRequest,
        beyond: Option<DoorForm>,
    ) -> Result<PendingReply, NoMemory>
        ensures ok { IfOk result (λ reply.
            H.answers self.old.0 (query_by passage request beyond) reply self.new.0
            × IsSharedAnswer H.answers J.begins seat.old (query_by passage request beyond) reply
            seat.new) }
        ensures err { OnErr result ((reply : List ℕ)
            × H.answers self.old.0 (query_by passage request beyond) reply self.new.0
            × IsSharedAnswer H.answers J.begins seat.old (query_by passage request beyond) reply
            seat.new) }
        ensures history { self.new.1 ≡ seat.new.seen }
        ensures over { self.new.2 ≡ self.old.2 }
    {
        let asked = Snapshot::of(&request);
        let asked_beyond = Snapshot::of(&beyond);
        let desk_before = Snapshot::of(&self.desk);
        let handler_before = Snapshot::of(&self.handler);
        let reply = self
            .handler
            .answer_by(alloc, &mut self.desk, passage, request, beyond);
        history.add::<Brand, D, H>(
            seat,
            &mut self.recorder,
            passage,
            &asked,
            &asked_beyond,
            &desk_before,
            &handler_before,
            &self.desk,
            &self.handler,
            &reply,
        );
        reply
    }

    // A connection is over, by a rule that tells which one it is.
    fn close_by<E: ClosingRule, S, W>(
        &mut self,
        history: &SharedHistory<J>,
        seat: ClientSeat<J>,
        passage: Passage,
        reader: &S,
        writer: &W,
        outcome: &Result<u64, StreamFault>,
    )
        requires closes { (c : ClosedConnection) × E.closes c × (c.connection ≡ seat.number)
            × (c.part ≡ seat.part) }
        requires served { (c : ClosedConnection) → E.closes c → closed.IsServedWhole c
            × J.comes c.passage × (c.outcome ≡ outcome.now) }
        ensures same { (self.new.0 ≡ self.old.0) × (self.new.1 ≡ self.old.1) }
        ensures over { (c : ClosedConnection) × E.closes c × (self.new.2 ≡ c ∷ self.old.2) }
    {
        history.close::<E, S, W>(seat, &mut self.recorder, passage, reader, writer, outcome);
        self.outcome = earlier_fault(self.outcome, outcome);
        self.over = self.over.saturating_add(1);
    }

    /// A connection is over: its passage, its seat, its two ends, and how its stream ended.
    pub fn close<S: Source, W: Sink>(
        &mut self,
        history: &SharedHistory<J>,
        seat: ClientSeat<J>,
        passage: Passage,
        reader: &S,
        writer: &W,
        outcome: &Result<u64, StreamFault>,
    )
        requires comes { J.comes passage }
        requires served { closed.IsServedWhole (closed.closed_of passage S.transcript S.is_over
            S.has_failed W.transcript W.has_failed seat reader.now writer.now outcome.now) }
        ensures same { (self.new.0 ≡ self.old.0) × (self.new.1 ≡ self.old.1) }
        ensures over { self.new.2 ≡ closed.closed_of passage S.transcript S.is_over S.has_failed
            W.transcript W.has_failed seat reader.now writer.now outcome.now ∷ self.old.2 }
    {
        self.close_by::<Brand, S, W>(history, seat, passage, reader, writer, outcome);
    }

    /// The same of a connection whose replies went to a sink that lets them out.
    pub fn close_replies<S: Source, A, C: FrameHandler<A>, W: ReplySink<A, C>>(
        &mut self,
        history: &SharedHistory<J>,
        seat: ClientSeat<J>,
        passage: Passage,
        reader: &S,
        sink: &W,
        outcome: &Result<u64, StreamFault>,
    )
        requires comes { J.comes passage }
        requires served { closed.IsServedWhole (closed.closed_of passage S.transcript S.is_over
            S.has_failed W.transcript W.has_failed seat reader.now sink.now outcome.now) }
        ensures same { (self.new.0 ≡ self.old.0) × (self.new.1 ≡ self.old.1) }
        ensures over { self.new.2 ≡ closed.closed_of passage S.transcript S.is_over S.has_failed
            W.transcript W.has_failed seat reader.now sink.now outcome.now ∷ self.old.2 }
    {
        self.close_by::<Brand, S, W>(history, seat, passage, reader, sink, outcome);
    }

    /// How many connections are over; it stays at `2^64 - 1`.
    pub fn over(&self) -> u64
        ensures { result ≡ min (length self.now.2) (2 ^ 64 - 1) }
    {
        self.over
    }

    /// The first fault by which a connection was given up.
    pub fn outcome(&self) -> Result<(), StreamFault>
        ensures { result ≡ closed.first_fault self.now.2 }
    {
        self.outcome
    }

    /// What a connection knows is its part of the whole history, which begins with what it has seen.
    pub fn compare(&mut self, history: &SharedHistory<J>, seat: &mut ClientSeat<J>)
        ensures same { (seat.new ≡ seat.old) × (self.new ≡ self.old) }
        ensures own { part_of seat.old.number self.old.1 ≡ seat.old.part }
        ensures later { IsPrefix seat.old.seen self.old.1 }
    {
        history.compare(seat, &mut self.recorder);
    }

    /// Notes what was recorded for the handler at a place, for a connection. The history, which leads
    /// to that handler, begins with all that the connection has seen, and has its part.
    pub fn note<M>(
        &mut self,
        history: &SharedHistory<J>,
        seat: &mut ClientSeat<J>,
        place: usize,
        into: &mut M,
    )
    where
        H: Noted<M>,
        ensures same { (self.new ≡ self.old) × (seat.new ≡ seat.old) }
        ensures later { IsPrefix seat.old.seen self.old.1 }
        ensures own { part_of seat.old.number self.old.1 ≡ seat.old.part }
        ensures legal { Replays H.answers J.begins self.old.1 self.old.0 }
        ensures noted { H.covers place into.new self.old.0.1 }
    {
        self.compare(history, seat);
        self.handler.note(place, into);
    }

    /// The history has no part of a connection that was not opened. Those that are over were opened,
    /// each of them is there once, and each has its part of the history.
    pub fn count(&mut self, history: &SharedHistory<J>, opener: &mut Opener<J>)
        ensures same { (self.new ≡ self.old) × (opener.new ≡ opener.old) }
        ensures others { (n : ℕ) → opener.old ≤ n → part_of n self.old.1 ≡ [] }
        ensures over { closed.AreClosed opener.old self.old.1 self.old.2 }
    {
        history.count(opener, &mut self.recorder);
    }

    /// The history is legal, and leads to the desk and the handler. Each connection that is over was
    /// served by its part, and came by a passage of this history. (For proofs alone.)
    pub fn is_legal(&self)
        ensures legal { Replays H.answers J.begins self.now.1 self.now.0 }
        ensures served { All closed.IsServedWhole self.now.2 }
        ensures came { All (λ c. J.comes c.passage) self.now.2 }
    {
        let _ = &self.desk;
    }

    /// The desk and the handler, to which the history leads.
    pub fn into_parts(self) -> (D, H)
        ensures same { (result.0, result.1) ≡ self.0 }
        ensures ready { H.ready result.1 }
        ensures legal { Replays H.answers J.begins self.1 (result.0, result.1) }
    {
        let SharedDesk { desk, handler, .. } = self;
        (desk, handler)
    }
}
