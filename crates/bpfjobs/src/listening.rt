//! Where a server listens, and what ends its wait for a connection.

ghost use Rattle.std.specs.Prelude.{◌≤◌, IfOk, length};
ghost use Rattle.bpfjobs.specs.Listening.{HasDoors};

use crate::host_notes::tell_host;
use bpfjobs_cli::{Endpoint, FAILED};
use job_server::{
    ListenFault, OpenSockets, OwnSocket, SocketListener, TenantDoor, address_of, open_sockets,
    remove_names,
};
use mio::Waker;
use refusal::NoMemory;
use server_log::ServerLog;
use std::alloc::Global;
use std::fs::{File, Files};
use std::net::{Net, TcpListener, TcpStream};
use std::sync::{Arc, Wait};
use std::thread;
use std::time::{Clock, Duration};

// How often a server is woken anew where that failed, and how many milliseconds go by between.
const MOST_WAKES: u32 = 1000;

const BETWEEN_WAKES: u64 = 20;

/// Where a server listens.
#[derive(Drop)]
pub enum Listening {
    /// At a port of 127.0.0.1.
    Port {
        listener: TcpListener,
        port: u16,
    },
    /// At sockets in the file system, which have names.
    Sockets {
        listener: SocketListener,
        names: Vec<OwnSocket>,
    },
}

/// What ends a server's wait for a connection.
#[derive(Drop)]
pub enum Waking {
    /// A connection to its port.
    Port(u16),
    /// Something of its own.
    Sockets(Arc<Waker, Global>),
}

impl Waking {
    // Whether it was woken.
    fn is_woken<R: Net>(&self, rt: &R) -> bool {
        match self {
            Waking::Port(port) => TcpStream::connect(rt, address_of(*port)).is_ok(),
            Waking::Sockets(waker) => waker.wake().is_ok(),
        }
    }

    /// Ends the wait. Where that can't be done, there may be no descriptor just now, so it is tried
    /// again.
    pub fn wake<R: Net + Clock>(&self, rt: &R) {
        for _ in 0..MOST_WAKES {
            if self.is_woken(rt) {
                return;
            }
            thread::sleep(rt, Duration::from_millis(BETWEEN_WAKES));
        }
    }
}

// Tells the host that a server can't listen at a place, and gives the status.
fn refused<R: Wait + Clock>(rt: &R, alloc: Global, log: &ServerLog, fault: &ListenFault<'_>) -> u8 {
    tell_host(rt, log, format!(in alloc; "{fault}"));
    FAILED
}

/// Listens at this endpoint, and at the doors of tenants, of which there are none at a port. Where it
/// can't, a line tells the place and why, and the program ends with this status: it listens nowhere.
pub fn listen<R>(
    rt: &R,
    alloc: Global,
    log: &ServerLog,
    endpoint: &Endpoint,
    doors: &[TenantDoor],
) -> Result<Listening, u8>
where
    R: Net<Stream = TcpStream, Listener = TcpListener> + Files<File = File> + Wait + Clock,
    requires { length doors.now ≤ 256 }
    ensures { IfOk result (λ listening. HasDoors (length doors.now) listening) }
{
    match endpoint {
        Endpoint::Port(port) => {
            let port = *port;
            match TcpListener::bind(rt, address_of(port)) {
                Ok(listener) => Ok(Listening::Port { listener, port }),
                Err(error) => {
                    let Ok(place) = format!(in alloc; "127.0.0.1:{port}") else {
                        log.lose_note(rt);
                        return Err(FAILED);
                    };
                    let place = place.as_str();
                    Err(refused(rt, alloc, log, &ListenFault { place, error }))
                }
            }
        }
        Endpoint::Socket { path, grants } => {
            let grants = match grants {
                Some(path) => Some(path.as_str()),
                None => None,
            };
            match open_sockets(rt, alloc, path.as_str(), grants, doors) {
                Ok(OpenSockets { listener, names }) => Ok(Listening::Sockets { listener, names }),
                Err(fault) => Err(refused(rt, alloc, log, &fault)),
            }
        }
    }
}

impl Listening {
    /// What ends the wait for a connection there.
    pub fn waking(&self) -> Result<Waking, NoMemory> {
        match self {
            Listening::Port { port, .. } => Ok(Waking::Port(*port)),
            Listening::Sockets { listener, .. } => Ok(Waking::Sockets(listener.waker()?)),
        }
    }

    /// Listens no more, with nothing served.
    pub fn close<R: Net + Files<File = File>>(self, rt: &R, alloc: Global) {
        if let Listening::Sockets { listener, names } = self {
            drop(listener);
            remove_names(rt, alloc, &names);
        }
    }
}
