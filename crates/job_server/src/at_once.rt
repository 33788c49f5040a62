//! Many connections at once, with one desk and one handler.

ghost use Rattle.std.specs.Prelude.{◌≡◌, ◌≤◌, [], All, Ok, OnOk, IfErr, IfOk, IfSome, false, is_some, length};
ghost use Rattle.job_server.specs.AtOnce.{EndsBy, IsServingFrom};
ghost use Rattle.job_server.specs.Listening.{AreOf, AreOfFirst, CameBy};
ghost use Rattle.shared_desk.specs.declared.passage.Passage.{Passage};
ghost use denote.Param.Send.{IsSend};

use crate::accept_faults::note;
use crate::entrance::{Entrance, FirstListener};
use crate::fault::ServeFault;
use crate::listener::Listener;
use crate::noted_ends::{NotedReader, NotedWriter, ending_of};
use crate::plan::Plan;
use crate::reply_journals::journals_behind;
use crate::shares::{Shares, leave, shares_of};
use crate::stop_flag::{ended_by, has_failed, raise_if};
use crate::timed_reader::{TimedReader, Waiting};
use crate::timed_writer::TimedWriter;
use durable_replies::{DurableSink, notes_of, serve_durably};
use refusal::NoMemory;
use server_log::{LogEvent, ServerLog, StopFlag, millis_since};
use shared_desk::{
    ClientSeat, HistoryId, LentDesk, NewHistory, Origin, Passage, SharedDesk, SharedHandler,
    SharedHistory,
};
use shared_journal::{GroupNote, NoteMaker, ReplySync, SharedJournal};
use std::alloc::Global;
use std::marker::Brand;
use std::net::TcpStream;
use std::sync::{Mutex, Wait};
use std::thread;
use std::thread::{Scope, Threads};
use std::time::{Clock, Instant};
use streams::{Noted, StreamFault, Tap};

/// The fault where there is no memory.
pub(crate) const NO_MEMORY: ServeFault = ServeFault::Connection(StreamFault::NoMemory);

// Serves a connection of this number that was taken, whose replies rest on these journals, committed
// ahead of each or at intervals. Gives its two ends, and whether a reply was refused since a journal
// has failed. Where there is no memory for its notes it is given up by 99, with nothing read.
fn answer_connection<
    's,
    R: Wait + Clock,
    D,
    H: SharedHandler<D> + Noted<N>,
    N: GroupNote,
    K: NoteMaker<N>,
    J: Origin<D, H>,
>(
    rt: &'s R,
    alloc: Global,
    history: &SharedHistory<J>,
    lock: &Mutex<SharedDesk<D, H, J>>,
    seat: ClientSeat<J>,
    passage: Passage,
    connection: u64,
    stream: &'s TcpStream,
    waiting: Waiting<'s>,
    makers: &[K],
    sync: ReplySync,
) -> (
    NotedReader<'s, TimedReader<'s, R>>,
    NotedWriter<TimedWriter<'s, R>>,
    bool,
)
    requires fresh { seat.part ≡ [] }
    requires comes { J.comes passage }
{
    let timed = TimedReader::new(rt, stream, waiting);
    let mut reader = Tap::new(NotedReader::new(timed, waiting.stop));
    let tap = Tap::new(NotedWriter::new(TimedWriter::over(rt, stream, waiting.seconds)));
    let Ok(notes) = notes_of(alloc, makers) else {
        let outcome = Err(StreamFault::NoMemory);
        lock.lock(rt)
            .close(history, seat, passage, &reader, &tap, &outcome);
        return (reader.into_inner(), tap.into_inner(), false);
    };
    let mut writer = DurableSink::new(rt, makers, notes, sync, tap);
    let way = LentDesk::new(rt, history, lock);
    serve_durably::<
        Brand,
        Tap<NotedReader<'s, TimedReader<'s, R>>>,
        Tap<NotedWriter<TimedWriter<'s, R>>>,
        R,
        LentDesk<'_, R, D, H, J>,
        R,
        D,
        H,
        N,
        K,
        J,
    >(
        way,
        alloc,
        seat,
        passage,
        connection,
        &mut reader,
        &mut writer,
    );
    let is_refused = writer.is_refused();
    (
        reader.into_inner(),
        writer.into_inner().into_inner(),
        is_refused,
    )
}

// The next connection. A log is told once that no more are taken, and where a journal has failed.
fn next_connection<R: Wait + Clock, L: Listener + Drop, J: HistoryId + FirstListener<L>>(
    rt: &R,
    history: &SharedHistory<J>,
    entrance: &Mutex<Entrance<L, J>>,
    stop: Option<&StopFlag>,
    journals: &[SharedJournal],
    shares: Option<&Shares>,
    log: &ServerLog,
) -> Option<(TcpStream, ClientSeat<J>, Passage, u64)>
    ensures fresh { IfSome result (λ taken. taken.1.part ≡ []) }
    ensures passage { IfSome result (λ taken. J.comes taken.2) }
{
    let mut entrance = entrance.lock(rt);
    let next = entrance.next(rt, log, stop, journals, shares, history);
    if next.is_none() && entrance.is_first_at_end() {
        if has_failed(journals) {
            log.tell(rt, LogEvent::JournalFailed);
        }
        log.tell(rt, LogEvent::Stopping);
    }
    next
}

// Takes connections and serves them, one after the other, until no more are to be taken. A log is told
// of each.
fn take_turns<
    R: Wait + Clock,
    L: Listener + Drop,
    D,
    H: SharedHandler<D> + Noted<N>,
    N: GroupNote,
    K: NoteMaker<N>,
    J: Origin<D, H> + FirstListener<L>,
>(
    rt: &R,
    alloc: Global,
    history: &SharedHistory<J>,
    entrance: &Mutex<Entrance<L, J>>,
    lock: &Mutex<SharedDesk<D, H, J>>,
    waiting: Waiting<'_>,
    shares: Option<&Shares>,
    journals: &[SharedJournal],
    makers: &[K],
    sync: ReplySync,
    log: &ServerLog,
) {
    for _ in rt.forever() {
        let Some((stream, seat, passage, connection)) = next_connection(
            rt,
            history,
            entrance,
            waiting.stop,
            journals,
            shares,
            log,
        ) else {
            return;
        };
        let begun = tell_opened(rt, log, connection, passage);
        let own = journals_behind(makers, passage);
        let (reader, writer, is_refused) = answer_connection(
            rt, alloc, history, lock, seat, passage, connection, &stream, waiting, own, sync,
        );
        raise_if(waiting.stop, is_refused);
        leave(shares, passage.door);
        let closed = LogEvent::Closed {
            connection,
            requests: reader.requests(),
            end: ending_of(&reader, &writer, is_refused),
            ms: millis_since(rt, begun),
        };
        log.tell(rt, closed);
    }
}

// Tells a log of a connection that was taken. When that was, if a clock tells.
fn tell_opened<R: Wait + Clock>(
    rt: &R,
    log: &ServerLog,
    connection: u64,
    passage: Passage,
) -> Option<Instant> {
    let by = passage.door;
    log.tell(rt, LogEvent::Opened { connection, by });
    Instant::now(rt).ok()
}

// What a server comes to that was to serve so many connections, of which some were opened, and some are
// over; whether its threads were there, whether no more connections could be taken, and whether a host
// stopped it; and the first fault by which one was given up.
fn outcome_of(
    sessions: u64,
    opened: u64,
    over: u64,
    begun: bool,
    failed: bool,
    stopped: bool,
    given_up: Result<(), StreamFault>,
) -> Result<(), ServeFault>
    ensures well { OnOk result ((over ≡ opened) × (given_up ≡ Ok tt) × (opened ≤ sessions)
        × (stopped ≡ false → opened ≡ sessions)) }
    ensures fault { IfErr result (EndsBy opened sessions over given_up) }
{
    if !begun && opened == 0 {
        return Err(ServeFault::Threads);
    }
    if failed && opened < sessions {
        return Err(ServeFault::Socket);
    }
    if over != opened || opened > sessions {
        return Err(NO_MEMORY);
    }
    if opened < sessions && !stopped {
        return Err(NO_MEMORY);
    }
    match given_up {
        Ok(()) => Ok(()),
        Err(fault) => Err(ServeFault::Connection(fault)),
    }
}

// Starts so many threads that take connections and serve them. Tells whether there is one for each.
fn start_clients<
    's,
    E: 's,
    R: Threads + Wait + Clock + Sync,
    L: Listener + Send + Drop + 's,
    D: Send + Drop + 's,
    H: SharedHandler<D> + Noted<N> + Send + Drop + 's,
    N: GroupNote + Send + 's,
    K: NoteMaker<N> + Sync + 's,
    J: Origin<D, H> + FirstListener<L> + Send + Sync + 's,
>(
    rt: &'s R,
    scope: &Scope<'s, E>,
    alloc: Global,
    history: &'s SharedHistory<J>,
    entrance: &'s Mutex<Entrance<L, J>>,
    lock: &'s Mutex<SharedDesk<D, H, J>>,
    clients: u32,
    waiting: Waiting<'s>,
    shares: Option<&'s Shares>,
    journals: &'s [SharedJournal],
    makers: &'s [K],
    sync: ReplySync,
    log: &'s ServerLog,
) -> bool {
    for _ in 0..clients {
        let client = move || {
            take_turns(
                rt, alloc, history, entrance, lock, waiting, shares, journals, makers, sync, log,
            )
        };
        if scope.spawn(client).is_err() {
            return false;
        }
    }
    true
}

// Takes connections and serves them in so many threads at once, until no more are to be taken. Where a
// thread can't be started nothing is taken, and it tells so.
fn serve_clients<
    R: Threads + Wait + Clock + Sync,
    L: Listener + Send + Drop,
    D: Send + Drop,
    H: SharedHandler<D> + Noted<N> + Send + Drop,
    N: GroupNote + Send,
    K: NoteMaker<N> + Sync,
    J: Origin<D, H> + FirstListener<L> + Send + Sync,
>(
    rt: &R,
    alloc: Global,
    history: &SharedHistory<J>,
    entrance: &Mutex<Entrance<L, J>>,
    lock: &Mutex<SharedDesk<D, H, J>>,
    clients: u32,
    waiting: Waiting<'_>,
    shares: Option<&Shares>,
    journals: &[SharedJournal],
    makers: &[K],
    sync: ReplySync,
    log: &ServerLog,
    place: &str,
) -> bool {
    thread::scope(
        thread::scope_env(),
        rt,
        |scope| -> bool
            requires { IsSend L.row × IsSend D.row × IsSend H.row × IsSend N.row × IsSend J.row }
        {
            // no client takes a connection until all of them are there
            let mut held = entrance.lock(rt);
            let begun = start_clients(
                rt, scope, alloc, history, entrance, lock, clients, waiting, shares, journals,
                makers, sync, log,
            );
            if begun {
                log.tell(rt, LogEvent::Ready);
                note(rt, log, format!(in alloc; "listening on {place}"));
            } else {
                held.cancel();
            }
            begun
        },
    )
}

// `serve_at_once` under a name for the history.
fn serve_named<
    R: Threads + Wait + Clock + Sync,
    L: Listener + Send + Drop,
    D: Send + Drop,
    H: SharedHandler<D> + Noted<N> + Send + Drop,
    N: GroupNote + Send,
    K: NoteMaker<N> + Sync,
    J: Origin<D, H> + FirstListener<L> + Send + Sync,
>(
    rt: &R,
    alloc: Global,
    new_history: NewHistory,
    listener: L,
    desk: D,
    handler: H,
    plan: Plan<'_>,
    makers: &[K],
    shares: Option<&Shares>,
) -> (D, H, Result<(), ServeFault>)
    requires named { new_history ≡ J.table }
    requires begins { J.begins (desk, handler) }
    requires listener { J.is_first listener }
    requires comes { (p : Passage) → CameBy L.opens L.passage p → J.comes p }
    requires ready { H.ready handler }
    ensures { (s : IsServingFrom H.answers J.begins (result.0, result.1) plan.entry.sessions
        (is_some plan.entry.stop) result.2) × AreOfFirst L.opens L.fails J.is_first s.opened
        × All (λ c. J.comes c.passage) s.closed }
{
    let Plan {
        place,
        workers: _,
        sessions,
        bounds,
        tenants: _,
        stop,
        log,
        journals,
        sync,
    } = plan;
    let waiting = Waiting {
        seconds: bounds.timeout,
        stop,
    };
    let (history, recorder, opener) = new_history.named::<J>();
    let lock = Mutex::new(SharedDesk::new(desk, handler, recorder));
    let entrance = Mutex::new(Entrance::new(alloc, listener, opener, sessions));
    let known = &history;
    let door = &entrance;
    let shared = &lock;
    let begun = serve_clients(
        rt,
        alloc,
        known,
        door,
        shared,
        bounds.clients,
        waiting,
        shares,
        journals,
        makers,
        sync,
        log,
        place,
    );
    let mut shared = lock.into_inner();
    let (opened, failed, ended, mut opener) = entrance.into_inner().into_parts();
    shared.count(&history, &mut opener);
    shared.is_legal();
    let stopped = ended_by(stop, ended);
    let over = shared.over();
    let outcome = outcome_of(
        sessions,
        opened,
        over,
        begun,
        failed,
        stopped,
        shared.outcome(),
    );
    let (desk, handler) = shared.into_parts();
    (desk, handler, outcome)
}

// A history in which nothing stands yet, and the shares of the plan's sockets, if it has tenants.
fn opened(alloc: Global, plan: &Plan<'_>) -> Result<(NewHistory, Option<Shares>), NoMemory> {
    let new_history = NewHistory::new(alloc)?;
    let shares = shares_of(alloc, plan.bounds.clients, plan.tenants.len())?;
    Ok((new_history, shares))
}

/// The journals, each by itself.
pub(crate) fn each_of<'j>(
    alloc: Global,
    journals: &'j [SharedJournal],
) -> Result<Vec<&'j SharedJournal>, NoMemory>
    ensures { IfOk result (λ each. length each.items ≡ length journals.entry.now) }
{
    let mut each = Vec::new(alloc);
    for journal in journals {
        each.push(journal)?;
    }
    Ok(each)
}

/// Serves so many connections of the listener as the plan says, in as many threads at once as its
/// bounds say, from this desk and this handler on, and gives both back. Each of these makes notes of a
/// journal of the plan, in order.
///
/// One legal history has all answers in order, and leads to the desk and the handler. On each
/// connection its own part of the history was asked and answered, in order, and the history has
/// nothing else. A connection that was given up by 83, 84 or 99 counts as served. Such a fault is
/// answered at the end: of those that were given up the one that was over first. A try to take one that
/// fails counts for nothing. Where a thread can't be started nothing is served.
pub fn serve_at_once<
    R: Threads + Wait + Clock + Sync,
    L: Listener + Send + Drop,
    D: Send + Drop,
    H: SharedHandler<D> + Noted<N> + Send + Drop,
    N: GroupNote + Send,
    K: NoteMaker<N> + Sync,
>(
    rt: &R,
    alloc: Global,
    listener: L,
    desk: D,
    handler: H,
    plan: Plan<'_>,
    makers: &[K],
) -> (D, H, Result<(), ServeFault>)
    requires ready { H.ready handler }
    ensures { (s : IsServingFrom H.answers (λ s. s ≡ (desk, handler)) (result.0, result.1)
        plan.entry.sessions (is_some plan.entry.stop) result.2)
        × AreOf L.opens L.fails listener s.opened
        × All (λ c. CameBy L.opens L.passage c.passage) s.closed }
{
    let Ok((new_history, shares)) = opened(alloc, &plan) else {
        return (desk, handler, Err(NO_MEMORY));
    };
    let shares = shares.as_ref();
    serve_named::<R, L, D, H, N, K, Brand>(
        rt,
        alloc,
        new_history,
        listener,
        desk,
        handler,
        plan,
        makers,
        shares,
    )
}
