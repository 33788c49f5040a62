//! The sockets of a server in the file system.

ghost use Rattle.std.specs.Prelude.{◌≡◌, ◌<◌, ◌≤◌, ◌+◌, [], ◌∷◌, ◌++◌, length, map, option_map, IfOk, IfSome, OnErr, OnOk, is_ok, if◌then◌else◌, vec_len};
ghost use Rattle.std.specs.Net.Unix.{unix_listener_raw_fd};
ghost use Rattle.mio.specs.Net.{unix_listener_fd};
ghost use Rattle.job_server.specs.TenantSockets.{GaveAt};

use crate::accept_faults::EINTR;
use crate::listener::Listener;
use mio::event::Events;
use mio::net::UnixListener as PolledListener;
use mio::{Interest, Poll, Token, Waker};
use refusal::NoMemory;
use shared_desk::{Door, Passage};
use std::alloc::Global;
use std::io;
use std::io::ErrorKind;
use std::net::{Net, TcpStream};
use std::os::fd::OwnedFd;
use std::os::unix::net::UnixListener;
use std::sync::Arc;

/// The most tenants that can have a door.
pub const MOST_DOORS: usize = 256;

/// A socket that can be asked whether a connection waits there.
pub trait AskedSocket {
    // It gave a connection.
    ghost gave: { Self → Type 0 };

    /// The next connection, if one waits.
    fn ask(&self) -> io::Result<Option<TcpStream>>
        ensures { IfOk result (λ found. IfSome found (λ _. gave self.now)) };
}

impl AskedSocket for PolledListener {
    // The system says nothing of it in a contract.
    ghost gave = { λ _. Unit {0} };

    fn ask(&self) -> io::Result<Option<TcpStream>> {
        match self.accept() {
            Ok((stream, _)) => {
                // its reads and writes are the same calls as those of TCP
                let stream = TcpStream::from(OwnedFd::from(stream));
                stream.set_nonblocking(false)?;
                Ok(Some(stream))
            }
            Err(error) if error.kind() == ErrorKind::WouldBlock => Ok(None),
            Err(error) => Err(error),
        }
    }
}

/// The socket for all, that for grants, if there is one, and those of tenants. A connection of the
/// one for all may grant where there is none for grants. A host may end its wait.
///
/// Each has a place: the tenants' come first, then that for all, then that for grants. After a
/// connection of one of them the others are asked first.
#[derive(Drop)]
pub struct SocketListener<S = PolledListener> {
    tenants: Vec<S>,
    all: S,
    grants: Option<S>,
    last: usize,
    poll: Poll,
    events: Events<Global>,
    waker: Arc<Waker, Global>,
    ghost few: { vec_len tenants ≤ 256 },
    ghost known: { last ≤ vec_len tenants + 1 },
}

// The socket, as one whose connections a poll reports.
fn polled(poll: &Poll, socket: UnixListener) -> io::Result<PolledListener>
    ensures { IfOk result (λ asked. unix_listener_fd asked ≡ unix_listener_raw_fd socket) }
{
    socket.set_nonblocking(true)?;
    let mut socket = PolledListener::from_std(socket);
    // a wake has all sockets asked, whichever it names
    poll.registry()
        .register(&mut socket, Token(0), Interest::READABLE)?;
    Ok(socket)
}

impl SocketListener {
    /// The connections of these sockets. No tenant has one yet.
    pub fn new<R: Net>(
        rt: &R,
        alloc: Global,
        all: UnixListener,
        grants: Option<UnixListener>,
    ) -> io::Result<SocketListener>
        ensures { IfOk result (λ listener. (listener.tenants.items ≡ [])
            × (unix_listener_fd listener.all ≡ unix_listener_raw_fd all)
            × (option_map unix_listener_fd listener.grants ≡ option_map unix_listener_raw_fd grants)) }
    {
        let poll = Poll::new(rt)?;
        let all = polled(&poll, all)?;
        let grants = match grants {
            Some(socket) => Some(polled(&poll, socket)?),
            None => None,
        };
        let waker = Arc::new(alloc, Waker::new(poll.registry(), Token(0))?)?;
        Ok(SocketListener {
            tenants: Vec::new(alloc),
            all,
            grants,
            last: 0,
            poll,
            events: Events::with_capacity(alloc, 16)?,
            waker,
        })
    }

    /// What ends its wait for a connection: its next call gives `Interrupted`, unless one waits.
    pub fn waker(&self) -> Result<Arc<Waker, Global>, NoMemory> {
        Ok(Arc::try_clone(&self.waker)?)
    }

    /// The connections of one more tenant too, the one behind those that there are.
    pub fn add_tenant(&mut self, socket: UnixListener) -> io::Result<()>
        requires { vec_len self.old.tenants < 256 }
        ensures one_more { OnOk result (map unix_listener_fd self.new.tenants.items
            ≡ map unix_listener_fd self.old.tenants.items ++ unix_listener_raw_fd socket ∷ []) }
        ensures none_more { OnErr result (self.new.tenants.items ≡ self.old.tenants.items) }
        ensures others { (self.new.all ≡ self.old.all) × (self.new.grants ≡ self.old.grants) }
        ensures count { vec_len self.new.tenants
            ≡ (if is_ok result then vec_len self.old.tenants + 1 else vec_len self.old.tenants) }
    {
        let socket = polled(&self.poll, socket)?;
        self.tenants.push(socket)?;
        Ok(())
    }
}

// The place behind one of so many, the first one behind the last.
fn place_after(place: usize, places: usize) -> usize
    requires { place < places }
    ensures { result < places }
{
    if place + 1 < places { place + 1 } else { 0 }
}

impl<S: AskedSocket> SocketListener<S> {
    // The next connection of the socket at a place, if one waits there.
    fn ask_at(&self, place: usize) -> io::Result<Option<TcpStream>>
        ensures { IfOk result (λ found. IfSome found
            (λ _. GaveAt S.gave self.now.tenants.items self.now.all self.now.grants place)) }
    {
        if place < self.tenants.len() {
            return self.tenants[place].ask();
        }
        if place == self.tenants.len() {
            return self.all.ask();
        }
        match &self.grants {
            Some(socket) => socket.ask(),
            None => Ok(None),
        }
    }

    // The next connection of any socket, if one waits: the one that gave the last connection is asked
    // last.
    fn ask_all(&mut self) -> io::Result<Option<TcpStream>>
        ensures same { (self.new.tenants ≡ self.old.tenants) × (self.new.all ≡ self.old.all)
            × (self.new.grants ≡ self.old.grants) }
        ensures gave { IfOk result (λ found. IfSome found
            (λ _. GaveAt S.gave self.new.tenants.items self.new.all self.new.grants self.new.last)) }
    {
        let places = self.tenants.len() + 2;
        let mut place = self.last;
        'asking: for _ in 0..places {
            place = place_after(place, places);
            if let Some(stream) = self.ask_at(place)? {
                self.last = place;
                return Ok(Some(stream));
            }
        }
        Ok(None)
    }
}

impl<S: AskedSocket> Listener for SocketListener<S> {
    ghost use Rattle.std.specs.Prelude.{is_some, length};
    ghost use Rattle.job_server.specs.TenantSockets.{GaveAt, passage_at};

    ghost passage = { λ l. passage_at (length l.tenants.items) (is_some l.grants) l.last };

    ghost opens = { λ l m. (m.tenants ≡ l.tenants) × (m.all ≡ l.all) × (m.grants ≡ l.grants)
        × GaveAt S.gave m.tenants.items m.all m.grants m.last };

    ghost fails = { λ _ _. Unit {0} };

    fn accept(&mut self) -> io::Result<TcpStream> {
        if let Some(stream) = self.ask_all()? {
            return Ok(stream);
        }
        self.poll.poll(&mut self.events, None)?;
        match self.ask_all()? {
            Some(stream) => Ok(stream),
            None => Err(io::Error::from_raw_os_error(EINTR)),
        }
    }

    fn passage(&self) -> Passage {
        if self.last < self.tenants.len() {
            return Passage {
                door: Door::Tenant(self.last as u8),
                may_grant: false,
            };
        }
        if self.last == self.tenants.len() {
            return Passage {
                door: Door::Socket,
                may_grant: self.grants.is_none(),
            };
        }
        Passage {
            door: Door::Grants,
            may_grant: true,
        }
    }
}
