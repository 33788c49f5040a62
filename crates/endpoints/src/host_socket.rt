//! The sockets of the system.

use crate::socket::Socket;
use crate::socket_name::SocketName;
use mio::net::{TcpListener as PolledTcp, UnixListener as PolledUnix};
use std::io;
use std::io::ErrorKind;
use std::net::TcpStream;
use std::os::fd::OwnedFd;

/// A socket whose connections a poll reports.
#[derive(Drop)]
pub(crate) enum PolledSocket {
    Tcp(PolledTcp),
    Unix(PolledUnix),
}

/// A socket of the system. One in the file system has a name there.
#[derive(Drop)]
pub struct HostSocket {
    pub(crate) socket: PolledSocket,
    pub(crate) name: Option<SocketName>,
}

// A connection whose reads and writes wait. Those of a socket in the file system are the same calls as
// those of TCP.
fn waiting(connection: OwnedFd) -> io::Result<TcpStream> {
    let stream = TcpStream::from(connection);
    stream.set_nonblocking(false)?;
    Ok(stream)
}

// The next connection, if one waits.
fn accepted(socket: &PolledSocket) -> io::Result<TcpStream> {
    match socket {
        PolledSocket::Tcp(socket) => {
            let (stream, _) = socket.accept()?;
            let stream = waiting(OwnedFd::from(stream))?;
            // a reply is one write, which waits for nothing
            let _ = stream.set_nodelay(true);
            Ok(stream)
        }
        PolledSocket::Unix(socket) => {
            let (stream, _) = socket.accept()?;
            waiting(OwnedFd::from(stream))
        }
    }
}

// The system says nothing of places and connections in a contract.
impl Socket for HostSocket {
    type Stream = TcpStream;

    ghost listens_at = { λ _ _. Unit {0} };

    ghost admits = { λ _ _. Unit {0} };

    ghost gave = { λ _ _. Unit {0} };

    ghost had_none = { λ _. Unit {0} };

    ghost failed = { λ _ _. Unit {0} };

    fn accept(&self) -> io::Result<Option<TcpStream>> {
        match accepted(&self.socket) {
            Ok(stream) => Ok(Some(stream)),
            Err(error) if error.kind() == ErrorKind::WouldBlock => Ok(None),
            Err(error) => Err(error),
        }
    }
}
