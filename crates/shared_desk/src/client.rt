//! One connection's way to the desk that all share.

ghost use Rattle.std.specs.Prelude.{◌≡◌, [], false, ℕ, List, IfOk, OnErr};
ghost use Rattle.shared_desk.specs.Answered.{IsSharedAnswer, query_by};
ghost use Rattle.shared_desk.specs.ClientViews.{ClientView};
ghost use Rattle.shared_desk.specs.Histories.{Replays, part_of};
ghost use Rattle.shared_desk.specs.Notes.{IsNotedAt};
ghost use Rattle.shared_desk.specs.Parts.{IsServedClient};
ghost use Rattle.streams.specs.Hearing.{query_of};
ghost use Rattle.streams.specs.Prepared.{asked_of};
ghost use Rattle.streams.specs.Stops.{too_large_reply};

use crate::passage::{Passage, PassageId};
use crate::seats::Origin;
use crate::shared_handler::SharedHandler;
use crate::shared_history::ClientSeat;
use crate::way::DeskWay;
use refusal::NoMemory;
use sessions::{DoorForm, DoorRequest, Request, read_at_door};
use std::alloc::Global;
use std::marker::{Model, PhantomData};
use std::sync::Wait;
use streams::{
    FrameHandler, Noted, PendingReply, PreparedRequest, ReplySink, Source, StreamFault, prepare,
    serve_stream, written_frame,
};

/// Answers one connection's requests at the shared desk, each under the lock, as far as its passage
/// lets them come there. The handler hears the connection's number. Contracts see it as what the
/// connection knows of the history. The type parameter `P` leads to the desk.
#[derive(Drop)]
pub struct Client<P, R, D, H: SharedHandler<D>, J: Origin<D, H>, G: PassageId> {
    way: P,
    seat: ClientSeat<J>,
    passage: Passage,
    connection: u64,
    of: PhantomData<(R, D, H, G)>,
}

impl<P, R, D, H: SharedHandler<D>, J: Origin<D, H>, G: PassageId> Model
    for Client<P, R, D, H, J, G> {
    ghost use Rattle.std.specs.Prelude.{◌≡◌};
    ghost use Rattle.shared_desk.specs.ClientViews.{ClientView};
    ghost use Rattle.shared_desk.specs.Histories.{Replays, part_of};

    ghost Value = { ClientView };

    ghost view = { λ c. c.seat };

    ghost invariant = { λ c. ((s : D × H) × Replays H.answers J.begins c.seat.seen s)
        × (part_of c.seat.number c.seat.seen ≡ c.seat.part) × (c.passage ≡ G.passage) };
}

impl<P, R, D, H: SharedHandler<D>, J: Origin<D, H>, G: PassageId> Client<P, R, D, H, J, G> {
    /// A connection of this number that has seen a legal history.
    pub fn of(
        way: P,
        seat: ClientSeat<J>,
        passage: Passage,
        connection: u64,
    ) -> Client<P, R, D, H, J, G>
        requires passage { passage ≡ G.passage }
        requires legal { (s : D × H) × Replays H.answers J.begins seat.seen s }
        requires own { part_of seat.number seat.seen ≡ seat.part }
        ensures { result ≡ seat }
    {
        Client {
            way,
            seat,
            passage,
            connection,
            of: PhantomData,
        }
    }
}

impl<P: Drop, R, D, H: SharedHandler<D>, J: Origin<D, H>, G: PassageId> Client<P, R, D, H, J, G> {
    /// What the connection knows.
    pub fn into_seat(self) -> ClientSeat<J>
        ensures same { result ≡ self }
        ensures legal { (s : D × H) × Replays H.answers J.begins result.seen s }
        ensures own { part_of result.number result.seen ≡ result.part }
    {
        let Client { seat, .. } = self;
        seat
    }
}

impl<P: DeskWay<R, D, H, J>, R: Wait, D, H: SharedHandler<D>, J: Origin<D, H>, G: PassageId> Client<
    P,
    R,
    D,
    H,
    J,
    G,
> {
    /// A connection of this number that was opened. It sees all that was answered so far.
    pub fn new(
        way: P,
        mut seat: ClientSeat<J>,
        passage: Passage,
        connection: u64,
    ) -> Client<P, R, D, H, J, G>
        requires { passage ≡ G.passage }
        ensures { (result.number ≡ seat.number) × (result.part ≡ seat.part) }
    {
        way.locked_desk()
            .lock(way.handle())
            .look(way.history(), &mut seat);
        Client::of(way, seat, passage, connection)
    }

    // The same request of the plain protocol. One for a job that the desk would take now, but for its
    // admission, is admitted here, while others are at the desk.
    fn prepared(&self, alloc: Global, request: Result<Request, u8>) -> PreparedRequest
        ensures { asked_of result ≡ query_of request }
    {
        let request = match request {
            Ok(request) => request,
            Err(code) => return PreparedRequest::AsItCame(Err(code)),
        };
        if !matches!(&request, Request::Submit { .. }) {
            return PreparedRequest::AsItCame(Ok(request));
        }
        let is_wanted = self
            .way
            .locked_desk()
            .lock(self.way.handle())
            .wants_admission(self.passage, &request);
        if is_wanted {
            prepare(alloc, request)
        } else {
            PreparedRequest::AsItCame(Ok(request))
        }
    }

    // The desk's answer, which is given under the lock. The lock is free again once this returns.
    fn answered(
        &mut self,
        alloc: Global,
        request: PreparedRequest,
        beyond: Option<DoorForm>,
    ) -> Result<PendingReply, NoMemory>
        ensures ok { IfOk result (λ reply. IsSharedAnswer H.answers J.begins self.old
            (query_by G.passage request beyond) reply self.new) }
        ensures err { OnErr result ((reply : List ℕ) × IsSharedAnswer H.answers J.begins self.old
            (query_by G.passage request beyond) reply self.new) }
    {
        let mut shared = self.way.locked_desk().lock(self.way.handle());
        shared.serve_next(self.connection);
        shared.answer(
            self.way.history(),
            &mut self.seat,
            alloc,
            self.passage,
            request,
            beyond,
        )
    }

    /// Notes what was recorded for the handler at a place, under the lock, which is free again once
    /// this returns. The handler is one to which a legal history leads that begins with all that the
    /// connection has seen, and in which its part is what it was answered.
    pub fn note<M>(&mut self, place: usize, into: &mut M)
    where
        H: Noted<M>,
        ensures same { self.new ≡ self.old }
        ensures noted { IsNotedAt H.answers J.begins H.covers place into.new self.old }
    {
        let mut shared = self.way.locked_desk().lock(self.way.handle());
        shared.note(self.way.history(), &mut self.seat, place, into);
    }
}

impl<
    P: DeskWay<R, D, H, J>,
    R: Wait,
    D,
    H: SharedHandler<D>,
    J: Origin<D, H>,
    G: PassageId,
> FrameHandler<()> for Client<P, R, D, H, J, G> {
    ghost use Rattle.std.specs.Prelude.{ℕ, Option, Result};
    ghost use Rattle.sessions.specs.Grammar.{Asked};
    ghost use Rattle.sessions.specs.declared.door_forms.DoorForm.{DoorForm};
    ghost use Rattle.shared_desk.specs.Answered.{IsSharedAnswer};
    ghost use Rattle.shared_desk.specs.Grants.{admitted_by};
    ghost use Rattle.shared_desk.specs.HeardAt.{AsksBeyondAt, HearsAt};

    ghost ready = { λ _. Unit {0} };

    ghost answers = { λ s payload reply t.
        (heard : Result Asked ℕ) × (beyond : Option DoorForm) × HearsAt G.passage.door payload heard
        × AsksBeyondAt G.passage.door payload beyond
        × IsSharedAnswer H.answers J.begins s.1 (admitted_by G.passage heard beyond) reply t.1 };

    fn answer_payload(
        &mut self,
        alloc: Global,
        _desk: &mut (),
        payload: &[u8],
    ) -> Result<Vec<u8>, NoMemory> {
        let heard = read_at_door(alloc, payload, self.passage.forms())?;
        let DoorRequest { plain, beyond } = heard;
        let admitted = self.passage.admit(plain);
        let prepared = self.prepared(alloc, admitted);
        let reply = self.answered(alloc, prepared, beyond);
        written_frame(alloc, reply)
    }
}

/// Serves a connection's stream, as `serve_stream` does. What came asks the connection's own part of
/// the history, as far as its passage lets it come there, and what was written are the replies of that
/// part, in order.
///
/// 83 where the reader failed: all replies of the part are written. 84 where the writer failed: a
/// beginning of them. 99 where there was no memory, and neither failed: all of them, or all but the
/// last one.
///
/// What was written may go out then, by the sink's own rule.
pub fn serve_client<
    S: Source,
    P: DeskWay<R, D, H, J>,
    R: Wait,
    D,
    H: SharedHandler<D>,
    J: Origin<D, H>,
    G: PassageId,
    W: ReplySink<(), Client<P, R, D, H, J, G>>,
>(
    alloc: Global,
    reader: &mut S,
    writer: &mut W,
    client: &mut Client<P, R, D, H, J, G>,
) -> Result<u64, StreamFault>
    requires source { S.has_failed reader.old ≡ false }
    requires sink { W.has_failed writer.old ≡ false }
    ensures served { IsServedClient G.passage S.transcript S.is_over S.has_failed W.transcript
        W.has_failed ((reader.old, writer.old), client.old) ((reader.new, writer.new), client.new) result }
    ensures legal { (s : D × H) × Replays H.answers J.begins client.new.seen s }
    ensures own { part_of client.new.number client.new.seen ≡ client.new.part }
    ensures let_go { (first : W) → W.lets_go first (writer.old, client.old) []
        → W.has_let_go first (writer.new, client.new) too_large_reply }
{
    let served = serve_stream(alloc, reader, writer, &mut (), client);
    let _ = &client.seat; // for the proof
    served
}

/// Serves a connection that was opened, of which nothing came and nothing was written yet, by its
/// passage, and closes it: the history then has its part, and what went through its ends. The
/// handler hears this number of it.
///
/// A sink that lets a connection's replies go at their beginning has let go of all that was written, by
/// its own rule, for what the connection knew at its end.
pub fn serve_opened<
    G: PassageId,
    S: Source,
    P: DeskWay<R, D, H, J> + Drop,
    R: Wait,
    D,
    H: SharedHandler<D>,
    J: Origin<D, H>,
    W: ReplySink<(), Client<P, R, D, H, J, G>>,
>(
    way: P,
    alloc: Global,
    seat: ClientSeat<J>,
    passage: Passage,
    connection: u64,
    reader: &mut S,
    writer: &mut W,
)
    requires passage { passage ≡ G.passage }
    requires comes { J.comes passage }
    requires source { (S.has_failed reader.old ≡ false) × (S.transcript reader.old ≡ []) }
    requires sink { (W.has_failed writer.old ≡ false) × (W.transcript writer.old ≡ []) }
    requires fresh { seat.part ≡ [] }
    ensures let_go { (first : W)
        → ((fresh : ClientView) → fresh.part ≡ [] → W.lets_go first (writer.old, fresh) [])
        → (client : ClientView) × (client.number ≡ seat.number)
        × W.has_let_go first (writer.new, client) too_large_reply }
{
    let mut client: Client<P, R, D, H, J, G> = Client::new(way, seat, passage, connection);
    let outcome = serve_client(alloc, reader, writer, &mut client);
    let Client { way, seat, .. } = client;
    way.locked_desk()
        .lock(way.handle())
        .close_replies::<S, (), Client<P, R, D, H, J, G>, W>(
            way.history(),
            seat,
            passage,
            reader,
            writer,
            &outcome,
        );
}
