//! Many connections at once, each in a thread.

ghost use Rattle.std.specs.Prelude.{◌≡◌, ◌<◌, ◌≤◌, ◌+◌, [], true, false, ℕ, IfOk, length, vec_len, slice_index_or};
ghost use Rattle.shared_desk.specs.Histories.{Replays, part_of};
ghost use Rattle.shared_desk.specs.Parts.{IsServedClient, IsServedPart};
ghost use Rattle.shared_desk.specs.Grants.{by_port};

use crate::client::{Client, serve_client};
use crate::desk::SharedDesk;
use crate::door::Door;
use crate::passage::{Passage, PassageId};
use crate::seats::{HistoryId, Origin};
use crate::shared_handler::SharedHandler;
use crate::shared_history::{ClientSeat, Opener, SharedHistory};
use crate::way::LentDesk;
use refusal::NoMemory;
use std::alloc::Global;
use std::marker::{Model, PhantomData};
use std::sync::{Mutex, Wait};
use std::thread;
use std::thread::Threads;
use streams::{Sink, Source, StreamFault};

// The passage of each connection here: all of its requests come to the desk.
const BY_PORT: Passage = Passage {
    door: Door::Port,
    may_grant: true,
};

// The number of a connection that no log tells of.
const UNNUMBERED: u64 = 0;

struct ByPort;

impl PassageId for ByPort {
    ghost use Rattle.shared_desk.specs.Grants.{by_port};

    ghost passage = { by_port };
}

/// A connection that was opened: its two ends, of which neither has failed, and its seat. Contracts
/// see it as the ends and what the seat knows.
#[derive(Drop)]
pub struct Connection<S: Source, W: Sink, D, H: SharedHandler<D>, J: Origin<D, H>> {
    reader: S,
    writer: W,
    seat: ClientSeat<J>,
    of: PhantomData<(D, H)>,
}

impl<S: Source, W: Sink, D, H: SharedHandler<D>, J: Origin<D, H>> Model
    for Connection<S, W, D, H, J> {
    ghost use Rattle.std.specs.Prelude.{◌≡◌, false};
    ghost use Rattle.shared_desk.specs.ClientViews.{ClientView};
    ghost use Rattle.shared_desk.specs.Histories.{Replays, part_of};

    ghost Value = { (S × W) × ClientView };

    ghost view = { λ c. ((c.reader, c.writer), c.seat) };

    ghost invariant = { λ c. ((s : D × H) × Replays H.answers J.begins c.seat.seen s)
        × (part_of c.seat.number c.seat.seen ≡ c.seat.part)
        × (S.has_failed c.reader ≡ false) × (W.has_failed c.writer ≡ false) };
}

/// A connection that was served, or given up: its two ends, its seat, and how its stream ended.
#[derive(Drop)]
pub struct ServedConnection<S, W, J: HistoryId> {
    pub reader: S,
    pub writer: W,
    pub seat: ClientSeat<J>,
    pub outcome: Result<u64, StreamFault>,
}

impl<S: Source, W: Sink, D, H: SharedHandler<D>, J: Origin<D, H>> Connection<S, W, D, H, J> {
    /// Opens a connection with these ends. It sees all that was answered so far.
    pub fn open(
        history: &SharedHistory<J>,
        opener: &mut Opener<J>,
        shared: &mut SharedDesk<D, H, J>,
        reader: S,
        writer: W,
    ) -> Connection<S, W, D, H, J>
        requires source { S.has_failed reader ≡ false }
        requires sink { W.has_failed writer ≡ false }
        ensures ends { result.0 ≡ (reader, writer) }
        ensures seat { (result.1.number ≡ opener.old) × (result.1.seen ≡ shared.old.1)
            × (result.1.part ≡ []) }
        ensures same { (shared.new ≡ shared.old) × (opener.new ≡ opener.old + 1) }
    {
        let mut seat = history.open(opener);
        shared.look(history, &mut seat);
        Connection {
            reader,
            writer,
            seat,
            of: PhantomData,
        }
    }
}

/// Serves one connection.
pub fn serve_connection<S: Source, W: Sink, R: Wait, D, H: SharedHandler<D>, J: Origin<D, H>>(
    rt: &R,
    alloc: Global,
    history: &SharedHistory<J>,
    lock: &Mutex<SharedDesk<D, H, J>>,
    connection: Connection<S, W, D, H, J>,
) -> ServedConnection<S, W, J>
    ensures { IsServedClient by_port S.transcript S.is_over S.has_failed W.transcript W.has_failed
        connection ((result.reader, result.writer), result.seat) result.outcome }
{
    let Connection {
        mut reader,
        mut writer,
        seat,
        of: _,
    } = connection;
    let way = LentDesk::new(rt, history, lock);
    let mut client: Client<LentDesk<'_, R, D, H, J>, R, D, H, J, ByPort> = Client::of(
        way, seat, BY_PORT, UNNUMBERED,
    );
    let outcome = serve_client(alloc, &mut reader, &mut writer, &mut client);
    let seat = client.into_seat();
    ServedConnection {
        reader,
        writer,
        seat,
        outcome,
    }
}

// Compares what each connection knows with the whole history.
fn compare_all<S, W, D, H: SharedHandler<D>, J: Origin<D, H>>(
    history: &SharedHistory<J>,
    desk: &mut SharedDesk<D, H, J>,
    served: &mut Vec<ServedConnection<S, W, J>>,
)
    ensures desk { desk.new ≡ desk.old }
    ensures served { served.new.items ≡ served.old.items }
    ensures parts { (i : ℕ) (d : _) → i < length served.old.items
        → part_of (slice_index_or served.old.items i d).seat.number desk.old.1
        ≡ (slice_index_or served.old.items i d).seat.part }
{
    let mut at = 0;
    while at < served.len() {
        desk.compare(history, &mut served[at].seat);
        at += 1;
    }
}

/// Serves all these connections at once, each in a thread, and gives back the desk.
///
/// One history has all answers, and leads to the desk and the handler. It is the connections' parts
/// and nothing else. On each connection what came asks its own part, and what was written are the
/// replies of that part, in order. Where there is no memory for the threads, some connections may
/// have been served and others not; the history still leads to the desk.
pub fn serve_all<
    S: Source + Send + Drop,
    W: Sink + Send + Drop,
    R: Threads + Wait + Sync,
    D: Send + Drop,
    H: SharedHandler<D> + Send + Drop,
    J: Origin<D, H> + Send + Sync,
>(
    rt: &R,
    alloc: Global,
    history: &SharedHistory<J>,
    opener: &mut Opener<J>,
    shared: SharedDesk<D, H, J>,
    connections: Vec<Connection<S, W, D, H, J>>,
) -> (
    SharedDesk<D, H, J>,
    Result<Vec<ServedConnection<S, W, J>>, NoMemory>,
)
    requires opened { opener.old ≡ vec_len connections }
    requires fresh { (i : ℕ) (d : _) → i < vec_len connections
        → ((slice_index_or connections.items i d).1.number ≡ i)
        × ((slice_index_or connections.items i d).1.part ≡ []) }
    ensures legal { Replays H.answers J.begins result.0.1 result.0.0 }
    ensures others { (n : ℕ) → vec_len connections ≤ n → part_of n result.0.1 ≡ [] }
    ensures count { IfOk result.1 (λ served. vec_len served ≡ vec_len connections) }
    ensures parts { IfOk result.1 (λ served. (i : ℕ) (d : _) (e : _) → i < vec_len connections
        → IsServedPart by_port S.transcript S.is_over S.has_failed W.transcript W.has_failed
        (slice_index_or connections.items i d).0 (part_of i result.0.1)
        ((slice_index_or served.items i e).reader, (slice_index_or served.items i e).writer)
        (slice_index_or served.items i e).outcome) }
{
    let lock = Mutex::new(shared);
    let shared = &lock;
    let serve = |connection: Connection<S, W, D, H, J>| -> ServedConnection<S, W, J>
        ensures { IsServedClient by_port S.transcript S.is_over S.has_failed W.transcript
            W.has_failed connection ((result.reader, result.writer), result.seat) result.outcome }
    { serve_connection(rt, alloc, history, shared, connection) };
    let answered = thread::map_vec(rt, connections, &serve);
    let mut desk = lock.into_inner();
    desk.count(history, opener);
    desk.is_legal();
    let Ok(mut served) = answered else {
        return (desk, Err(NoMemory));
    };
    compare_all(history, &mut desk, &mut served);
    (desk, Ok(served))
}
