//! Where a server listens: all of its sockets are there, or none is.

ghost use Rattle.std.specs.Prelude.{◌≡◌, ◌≤◌, ◌+◌, IfOk, OnOk, is_some, length, vec_len};

use crate::own_socket::{OwnSocket, SocketAccess, listen_at};
use crate::socket_listener::SocketListener;
use crate::tenant_door::TenantDoor;
use std::alloc::Global;
use std::fs::{File, Files};
use std::io::ErrorKind;
use std::net::Net;
use std::os::unix::net::UnixListener;
use std::{fmt, io};

/// The words for an error of a socket.
#[derive(Clone, Copy)]
pub struct SocketErrorWords<'a>(pub &'a io::Error);

impl fmt::Display for SocketErrorWords<'_> {
    fn fmt<W: fmt::Write>(&self, f: &mut fmt::Formatter<W>) -> fmt::Result {
        match self.0.kind() {
            ErrorKind::AddrInUse | ErrorKind::AlreadyExists => write!(f, "address already in use"),
            ErrorKind::ConnectionRefused => write!(f, "connection refused"),
            ErrorKind::NotFound => write!(f, "no such file or directory"),
            ErrorKind::PermissionDenied => write!(f, "permission denied"),
            _ => write!(f, "{}", self.0),
        }
    }
}

/// A place where a server can't listen, and why.
#[derive(Drop)]
pub struct ListenFault<'a> {
    /// A path, or an address with its port.
    pub place: &'a str,
    /// The system's reason.
    pub error: io::Error,
}

impl fmt::Display for ListenFault<'_> {
    fn fmt<W: fmt::Write>(&self, f: &mut fmt::Formatter<W>) -> fmt::Result {
        let words = SocketErrorWords(&self.error);
        write!(f, "cannot listen on {}: {words}", self.place)
    }
}

/// The sockets of a server that listens, and their names, which are removed at its end.
#[derive(Drop)]
pub struct OpenSockets {
    /// What takes their connections.
    pub listener: SocketListener,
    /// Their names.
    pub names: Vec<OwnSocket>,
}

/// Removes names of sockets that don't listen any more.
pub fn remove_names<R: Files<File = File> + Net>(rt: &R, alloc: Global, names: &[OwnSocket]) {
    for name in names {
        name.remove(rt, alloc);
    }
}

// A place where a server can't listen for want of memory.
fn no_memory(place: &str) -> ListenFault<'_> {
    ListenFault {
        place,
        error: io::Error::from(ErrorKind::OutOfMemory),
    }
}

// Listens at one path more, and adds its name.
fn listen_also<'a, R: Files<File = File> + Net>(
    rt: &R,
    alloc: Global,
    names: &mut Vec<OwnSocket>,
    place: &'a str,
    access: SocketAccess,
) -> Result<UnixListener, ListenFault<'a>> {
    let Ok(()) = names.try_reserve(1) else {
        return Err(no_memory(place));
    };
    match listen_at(rt, alloc, place, access) {
        Ok((socket, name)) => {
            names.push_reserved(name);
            Ok(socket)
        }
        Err(error) => Err(ListenFault { place, error }),
    }
}

// Listens at all of the paths, one after the other, up to the first at which it can't.
fn listen_at_each<'a, R: Files<File = File> + Net>(
    rt: &R,
    alloc: Global,
    names: &mut Vec<OwnSocket>,
    all: &'a str,
    grants: Option<&'a str>,
    doors: &'a [TenantDoor],
) -> Result<SocketListener, ListenFault<'a>>
    requires { length doors.now ≤ 256 }
    ensures { IfOk result (λ listener. (vec_len listener.tenants ≡ length doors.entry.now)
        × (is_some listener.grants ≡ is_some grants.entry)) }
{
    let for_all = listen_also(rt, alloc, names, all, SocketAccess::ByUmask)?;
    let granting = match grants {
        Some(place) => Some(listen_also(rt, alloc, names, place, SocketAccess::OwnerAlone)?),
        None => None,
    };
    let mut listener = match SocketListener::new(rt, alloc, for_all, granting) {
        Ok(listener) => listener,
        Err(error) => return Err(ListenFault { place: all, error }),
    };
    for door in doors {
        let place = door.path.as_str();
        let socket = listen_also(rt, alloc, names, place, SocketAccess::ByUmask)?;
        if let Err(error) = listener.add_tenant(socket) {
            return Err(ListenFault { place, error });
        }
    }
    Ok(listener)
}

/// Listens at the path of the socket for all, at that of the one for grants, if there is one, to which
/// its owner alone may connect, and at those of the tenants' doors. Where it can't listen at one it
/// listens at none.
pub fn open_sockets<'a, R: Files<File = File> + Net>(
    rt: &R,
    alloc: Global,
    all: &'a str,
    grants: Option<&'a str>,
    doors: &'a [TenantDoor],
) -> Result<OpenSockets, ListenFault<'a>>
    requires { length doors.now ≤ 256 }
    ensures { IfOk result (λ opened. (vec_len opened.listener.tenants ≡ length doors.entry.now)
        × (is_some opened.listener.grants ≡ is_some grants.entry)) }
{
    let mut names = Vec::new(alloc);
    match listen_at_each(rt, alloc, &mut names, all, grants, doors) {
        Ok(listener) => Ok(OpenSockets { listener, names }),
        Err(fault) => {
            remove_names(rt, alloc, &names);
            Err(fault)
        }
    }
}
