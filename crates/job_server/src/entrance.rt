//! Where the threads of a server take connections.

ghost use Rattle.std.specs.Prelude.{◌≡◌, ◌<◌, ◌-◌, ◌^◌, [], IfSome};
ghost use Rattle.job_server.specs.Listening.{AreOfFirst, CameBy};
ghost use Rattle.shared_desk.specs.declared.passage.Passage.{Passage};

use crate::accept_faults::AcceptFaults;
use crate::listener::Listener;
use crate::shares::{Shares, may_enter};
use crate::stop_flag::is_ended;
use server_log::{ServerLog, StopFlag};
use shared_desk::{ClientSeat, HistoryId, Opener, Passage, SharedHistory};
use shared_journal::SharedJournal;
use std::alloc::Global;
use std::marker::{Brand, Model};
use std::net::TcpStream;
use std::sync::Wait;
use std::time::Clock;

/// Names a server by the listener that it begins with. Each call of a program picks it.
pub(crate) trait FirstListener<L> {
    ghost is_first: { L → Type 0 };
}

impl<L> FirstListener<L> for Brand {
    ghost is_first = { λ _. Unit {0} };
}

/// A listener of which so many connections are still to be taken, and who opens them in the history.
/// It lies under a lock. Contracts see it as how many it has opened.
#[derive(Drop)]
pub(crate) struct Entrance<L: Listener, J: HistoryId + FirstListener<L>> {
    listener: L,
    faults: AcceptFaults,
    opener: Opener<J>,
    sessions: u64,
    left: u64,
    opened: u64,
    failed: bool,
    stopped: bool,
    is_over: bool,
}

impl<L: Listener, J: HistoryId + FirstListener<L>> Model for Entrance<L, J> {
    ghost use Rattle.std.specs.Prelude.{◌≡◌, ◌<◌, ◌+◌, ◌-◌, ◌^◌, ℕ};
    ghost use Rattle.job_server.specs.Listening.{CameBy, HasGivenSince};
    ghost use Rattle.shared_desk.specs.declared.passage.Passage.{Passage};

    ghost Value = { ℕ };

    ghost view = { λ e. e.opened };

    ghost invariant = { λ e. (e.opened + e.left ≡ e.sessions) × (e.sessions < 2 ^ 64 - 1)
        × (e.opened ≡ e.opener)
        × HasGivenSince L.opens L.fails J.is_first e.opened e.listener
        × ((p : Passage) → CameBy L.opens L.passage p → J.comes p) };
}

impl<L: Listener + Drop, J: HistoryId + FirstListener<L>> Entrance<L, J> {
    /// Nothing was taken yet.
    pub fn new(alloc: Global, listener: L, opener: Opener<J>, sessions: u64) -> Entrance<L, J>
        requires none { opener ≡ 0 }
        requires listener { J.is_first listener }
        requires comes { (p : Passage) → CameBy L.opens L.passage p → J.comes p }
        ensures { result ≡ 0 }
    {
        let sessions = sessions.min(u64::MAX - 1);
        Entrance {
            listener,
            faults: AcceptFaults::new(alloc),
            opener,
            sessions,
            left: sessions,
            opened: 0,
            failed: false,
            stopped: false,
            is_over: false,
        }
    }

    /// Takes the next connection, with its seat, the passage that the listener gave it by, and its
    /// number, from 1 on; `None` once all were taken, the flag is raised, a journal has failed, or none
    /// can be taken any more. A try that fails is no connection: where there is no descriptor or no memory, it is tried
    /// again a moment later, of which a log is told once, and once that it goes on. Nor is one that is
    /// let go since its socket has its share, or since it came while the flag is raised.
    pub fn next<R: Wait + Clock>(
        &mut self,
        rt: &R,
        log: &ServerLog,
        stop: Option<&StopFlag>,
        journals: &[SharedJournal],
        shares: Option<&Shares>,
        history: &SharedHistory<J>,
    ) -> Option<(TcpStream, ClientSeat<J>, Passage, u64)>
        ensures fresh { IfSome result (λ taken. taken.1.part ≡ []) }
        ensures passage { IfSome result (λ taken. J.comes taken.2) }
    {
        'taking: for _ in rt.forever() {
            if self.failed || self.left == 0 {
                return None;
            }
            if is_ended(stop, journals) {
                self.stopped = true;
                return None;
            }
            match self.listener.accept() {
                Ok(stream) => {
                    self.faults.go_on(rt, log);
                    let passage = self.listener.passage();
                    if !is_ended(stop, journals) && may_enter(shares, passage.door) {
                        self.left -= 1;
                        self.opened += 1;
                        let seat = history.open(&mut self.opener);
                        return Some((stream, seat, passage, self.opened));
                    }
                }
                Err(error) => self.failed = self.faults.pass_over(rt, log, &error),
            }
        }
        None
    }

    /// Takes no connection: nothing is served.
    pub fn cancel(&mut self)
        ensures same { self.new ≡ self.old }
    {
        self.failed = true;
    }

    /// Whether it is asked for the first time. It is asked once no more are taken.
    pub fn is_first_at_end(&mut self) -> bool
        ensures same { self.new ≡ self.old }
    {
        let was_over = self.is_over;
        self.is_over = true;
        !was_over
    }

    /// How many were taken, whether no more could be taken, whether it was for the flag that no more
    /// were, and who opened them.
    pub fn into_parts(self) -> (u64, bool, bool, Opener<J>)
        ensures opened { (result.0 ≡ self) × (result.0 ≡ result.3) }
        ensures small { result.0 < 2 ^ 64 - 1 }
        ensures given { AreOfFirst L.opens L.fails J.is_first self }
    {
        let Entrance {
            opener,
            opened,
            failed,
            stopped,
            ..
        } = self;
        (opened, failed, stopped, opener)
    }
}
