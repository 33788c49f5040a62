//! A connection whose replies go out behind commits.

ghost use Rattle.std.specs.Prelude.{◌≡◌, [], None, false};
ghost use Rattle.durable_replies.specs.Durable.{LetGoBefore};
ghost use Rattle.shared_desk.specs.ClientViews.{ClientView};
ghost use Rattle.streams.specs.Stops.{too_large_reply};

use crate::durable_sink::DurableSink;
use shared_desk::{ClientSeat, DeskWay, Origin, Passage, PassageId, SharedHandler, serve_opened};
use shared_journal::{GroupNote, NoteMaker};
use std::alloc::Global;
use std::sync::Wait;
use streams::{Noted, Sink, Source};

/// Serves a connection that was opened, as `serve_opened` does, over a sink that lets replies out. All
/// that was written, but for a beginning of the last 71, are replies of what was durable before, where
/// the sink's journals are committed ahead of each reply. Where they are committed at intervals, each
/// was looked at before, and had not failed.
pub fn serve_durably<
    'r,
    'b,
    G: PassageId,
    S: Source,
    W: Sink,
    Q: Wait,
    P: DeskWay<R, D, H, J> + Drop,
    R: Wait,
    D,
    H: SharedHandler<D> + Noted<N>,
    N: GroupNote,
    K: NoteMaker<N>,
    J: Origin<D, H>,
>(
    way: P,
    alloc: Global,
    seat: ClientSeat<J>,
    passage: Passage,
    connection: u64,
    reader: &mut S,
    writer: &mut DurableSink<'r, 'b, Q, W, N, K>,
)
    requires passage { passage ≡ G.passage }
    requires comes { J.comes passage }
    requires source { (S.has_failed reader.old ≡ false) × (S.transcript reader.old ≡ []) }
    requires sink { (W.has_failed writer.old.sink ≡ false) × (W.transcript writer.old.sink ≡ []) }
    requires goes_on { writer.old.refused ≡ None }
    requires fresh { seat.part ≡ [] }
    ensures durable { (client : ClientView) × (client.number ≡ seat.number)
        × LetGoBefore H.answers J.begins H.covers K.name K.desk N.known N.sound writer.old.sync writer.old.journals.now
        writer.new.notes.items (W.transcript writer.new.sink) client too_large_reply }
{
    serve_opened::<G, S, P, R, D, H, J, DurableSink<'r, 'b, Q, W, N, K>>(
        way, alloc, seat, passage, connection, reader, writer,
    );
}
