//! One desk and its connections, from the first request to the last.

ghost use Rattle.std.specs.Prelude.{◌≡◌, ℕ, IfOk, vec_len};
ghost use Rattle.std.specs.List.{AllZip};
ghost use Rattle.shared_desk.specs.Together.{AreOpened, AreServedTogether, NoneHasFailed};

use crate::connections::{Connection, ServedConnection, serve_all};
use crate::desk::SharedDesk;
use crate::seats::{HistoryId, Origin};
use crate::shared_handler::SharedHandler;
use crate::shared_history::{NewHistory, Opener, SharedHistory};
use refusal::NoMemory;
use std::alloc::Global;
use std::marker::Brand;
use std::sync::Wait;
use std::thread::Threads;
use streams::{Sink, Source, StreamFault};

/// The ends of a connection that was served, or given up, and how its stream ended.
#[derive(Drop)]
pub struct ServedEnds<S, W> {
    pub reader: S,
    pub writer: W,
    pub outcome: Result<u64, StreamFault>,
}

// Opens a connection for each pair of ends.
fn open_all<S: Source + Drop, W: Sink + Drop, D, H: SharedHandler<D>, J: Origin<D, H>>(
    alloc: Global,
    history: &SharedHistory<J>,
    opener: &mut Opener<J>,
    shared: &mut SharedDesk<D, H, J>,
    ends: Vec<(S, W)>,
) -> Result<Vec<Connection<S, W, D, H, J>>, NoMemory>
    requires none { opener.old ≡ 0 }
    requires well { NoneHasFailed S.has_failed W.has_failed ends.items }
    ensures same { shared.new ≡ shared.old }
    ensures count { IfOk result (λ opened. opener.new ≡ vec_len opened) }
    ensures opened { IfOk result (λ opened. AreOpened 0 ends.items opened.items) }
{
    let mut connections = Vec::new(alloc);
    'opening: for pair in ends {
        let (reader, writer) = pair;
        let connection = Connection::open(history, opener, shared, reader, writer);
        connections.push(connection)?;
    }
    Ok(connections)
}

// The ends of the connections, and how their streams ended.
fn ends_of_all<S: Drop, W: Drop, J: HistoryId>(
    alloc: Global,
    served: Vec<ServedConnection<S, W, J>>,
) -> Result<Vec<ServedEnds<S, W>>, NoMemory>
    ensures { IfOk result (λ ends. AllZip (λ c e. (e.reader ≡ c.reader) × (e.writer ≡ c.writer)
        × (e.outcome ≡ c.outcome)) served.items ends.items) }
{
    let mut ends = Vec::new(alloc);
    'ending: for connection in served {
        let ServedConnection {
            reader,
            writer,
            seat: _,
            outcome,
        } = connection;
        ends.push(ServedEnds {
            reader,
            writer,
            outcome,
        })?;
    }
    Ok(ends)
}

// `serve_clients` under a name for the history.
fn serve_named<
    S: Source + Send + Drop,
    W: Sink + Send + Drop,
    R: Threads + Wait + Sync,
    D: Send + Drop,
    H: SharedHandler<D> + Send + Drop,
    J: Origin<D, H> + Send + Sync,
>(
    rt: &R,
    alloc: Global,
    new_history: NewHistory,
    desk: D,
    handler: H,
    ends: Vec<(S, W)>,
) -> (D, H, Result<Vec<ServedEnds<S, W>>, NoMemory>)
    requires named { new_history ≡ J.table }
    requires begins { J.begins (desk, handler) }
    requires ready { H.ready handler }
    requires well { NoneHasFailed S.has_failed W.has_failed ends.items }
    ensures ready { H.ready result.1 }
    ensures served { AreServedTogether S.transcript S.is_over S.has_failed W.transcript W.has_failed
        H.answers J.begins ends.items (result.0, result.1) result.2 }
{
    let (history, recorder, mut opener) = new_history.named::<J>();
    let mut shared = SharedDesk::new(desk, handler, recorder);
    let connections = match open_all(alloc, &history, &mut opener, &mut shared, ends) {
        Ok(connections) => connections,
        Err(NoMemory) => {
            let (desk, handler) = shared.into_parts();
            return (desk, handler, Err(NoMemory));
        }
    };
    let (shared, answered) = serve_all(rt, alloc, &history, &mut opener, shared, connections);
    let (desk, handler) = shared.into_parts();
    match answered {
        Ok(served) => (desk, handler, ends_of_all(alloc, served)),
        Err(NoMemory) => (desk, handler, Err(NoMemory)),
    }
}

/// Serves the connections with these ends at once, each in a thread, over this desk and handler,
/// and gives both back.
///
/// One history has all answers, and leads to the desk and the handler. It is the connections' parts
/// and nothing else, and on each connection its own part was asked and answered, in order. Where
/// there is no memory the ends are gone, and the history still leads to the desk.
pub fn serve_clients<
    S: Source + Send + Drop,
    W: Sink + Send + Drop,
    R: Threads + Wait + Sync,
    D: Send + Drop,
    H: SharedHandler<D> + Send + Drop,
>(
    rt: &R,
    alloc: Global,
    new_history: NewHistory,
    desk: D,
    handler: H,
    ends: Vec<(S, W)>,
) -> (D, H, Result<Vec<ServedEnds<S, W>>, NoMemory>)
    requires ready { H.ready handler }
    requires well { NoneHasFailed S.has_failed W.has_failed ends.items }
    ensures ready { H.ready result.1 }
    ensures served { AreServedTogether S.transcript S.is_over S.has_failed W.transcript W.has_failed
        H.answers (λ s. s ≡ (desk, handler)) ends.items (result.0, result.1) result.2 }
{
    serve_named::<S, W, R, D, H, Brand>(rt, alloc, new_history, desk, handler, ends)
}
