//! The system itself: it makes sockets, and waits for their connections by one poll.

use crate::address::address_of;
use crate::endpoint::{Place, SocketMode};
use crate::host_socket::{HostSocket, PolledSocket};
use crate::socket::System;
use crate::socket_name::listen_at;
use mio::event::Events;
use mio::net::{TcpListener as PolledTcp, UnixListener as PolledUnix};
use mio::{Interest, Poll, Token, Waker};
use refusal::NoMemory;
use std::alloc::Global;
use std::fs::{File, Files};
use std::io;
use std::io::ErrorKind;
use std::net::{Net, TcpListener, TcpStream};
use std::os::unix::net::UnixListener;
use std::sync::Arc;

// The poll's words for all sockets, and for what ends a wait.
const SOCKET: Token = Token(0);

const WAKE: Token = Token(1);

// The most events that one wait gives. Any of them has all sockets asked.
const MOST_EVENTS: usize = 16;

/// Makes the sockets of the system, and waits for their connections.
#[derive(Drop)]
pub struct HostSystem {
    poll: Poll,
    events: Events<Global>,
    waker: Arc<Waker, Global>,
}

// A port's socket, which a poll watches.
fn polled_tcp(poll: &Poll, socket: TcpListener) -> io::Result<PolledSocket> {
    socket.set_nonblocking(true)?;
    let mut socket = PolledTcp::from_std(socket);
    poll.registry()
        .register(&mut socket, SOCKET, Interest::READABLE)?;
    Ok(PolledSocket::Tcp(socket))
}

// A path's socket, which a poll watches.
fn polled_unix(poll: &Poll, socket: UnixListener) -> io::Result<PolledSocket> {
    socket.set_nonblocking(true)?;
    let mut socket = PolledUnix::from_std(socket);
    poll.registry()
        .register(&mut socket, SOCKET, Interest::READABLE)?;
    Ok(PolledSocket::Unix(socket))
}

impl HostSystem {
    /// It has no sockets yet.
    pub fn new<R: Net>(rt: &R, alloc: Global) -> io::Result<HostSystem> {
        let poll = Poll::new(rt)?;
        let waker = Arc::new(alloc, Waker::new(poll.registry(), WAKE)?)?;
        Ok(HostSystem {
            poll,
            events: Events::with_capacity(alloc, MOST_EVENTS)?,
            waker,
        })
    }

    /// A waker, which ends a wait for a connection from another thread: the one under way, or the next.
    pub fn waker(&self) -> Result<Arc<Waker, Global>, NoMemory> {
        Ok(Arc::try_clone(&self.waker)?)
    }

    // True where the waker ended the last wait.
    fn is_woken(&self) -> bool {
        for event in self.events.iter() {
            if event.token() == WAKE {
                return true;
            }
        }
        false
    }
}

// The system says nothing of places in a contract.
impl System for HostSystem {
    type Socket = HostSocket;

    ghost refused = { λ _ _. Unit {0} };

    ghost closed = { λ _. Unit {0} };

    ghost was_woken = { Unit {0} };

    ghost wait_failed = { λ _. Unit {0} };

    fn listen<R>(
        &mut self,
        rt: &R,
        alloc: Global,
        place: &Place,
        mode: SocketMode,
    ) -> io::Result<HostSocket>
    where
        R: Net<Stream = TcpStream, Listener = TcpListener> + Files<File = File>,
    {
        match place {
            Place::Port(port) => {
                let socket = TcpListener::bind(rt, address_of(*port))?;
                let socket = polled_tcp(&self.poll, socket)?;
                Ok(HostSocket { socket, name: None })
            }
            Place::Path(path) => {
                let (socket, name) = listen_at(rt, alloc, path, mode)?;
                match polled_unix(&self.poll, socket) {
                    Ok(socket) => Ok(HostSocket {
                        socket,
                        name: Some(name),
                    }),
                    Err(error) => {
                        name.remove(rt, alloc);
                        Err(error)
                    }
                }
            }
        }
    }

    fn close<R>(&mut self, rt: &R, alloc: Global, sockets: Vec<HostSocket>)
    where
        R: Net<Stream = TcpStream, Listener = TcpListener> + Files<File = File>,
        ensures { Unit {0} }
    {
        for HostSocket { socket, name } in sockets {
            drop(socket);
            if let Some(name) = name {
                name.remove(rt, alloc);
            }
        }
    }

    fn wait(&mut self) -> io::Result<bool> {
        match self.poll.poll(&mut self.events, None) {
            Ok(()) => Ok(self.is_woken()),
            Err(error) if error.kind() == ErrorKind::Interrupted => Ok(false),
            Err(error) => Err(error),
        }
    }
}
