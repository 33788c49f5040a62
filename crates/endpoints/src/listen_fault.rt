//! Places where a server can't listen, and the words for that.

use crate::endpoint::Place;
use std::io::ErrorKind;
use std::{fmt, io};

/// The words for an error of a socket.
#[derive(Clone, Copy)]
pub struct SocketErrorText<'a>(pub &'a io::Error);

impl fmt::Display for SocketErrorText<'_> {
    fn fmt<W: fmt::Write>(&self, f: &mut fmt::Formatter<W>) -> fmt::Result {
        match self.0.kind() {
            ErrorKind::AddrInUse | ErrorKind::AlreadyExists => write!(f, "address already in use"),
            ErrorKind::ConnectionRefused => write!(f, "connection refused"),
            ErrorKind::NotFound => write!(f, "no such file or directory"),
            ErrorKind::PermissionDenied => write!(f, "permission denied"),
            _ => write!(f, "{}", self.0),
        }
    }
}

impl fmt::Display for Place {
    fn fmt<W: fmt::Write>(&self, f: &mut fmt::Formatter<W>) -> fmt::Result {
        match self {
            Place::Port(port) => write!(f, "127.0.0.1:{port}"),
            Place::Path(path) => write!(f, "{path}"),
        }
    }
}

/// A place where a server can't listen, and the system's reason.
#[derive(Drop)]
pub struct ListenFault {
    pub place: Place,
    pub error: io::Error,
}

impl fmt::Display for ListenFault {
    fn fmt<W: fmt::Write>(&self, f: &mut fmt::Formatter<W>) -> fmt::Result {
        let words = SocketErrorText(&self.error);
        write!(f, "cannot listen on {}: {words}", self.place)
    }
}
