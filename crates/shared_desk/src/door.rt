//! The sockets by which connections come.

use std::fmt;

/// Which socket a connection came by.
#[derive(Clone, Copy, Debug, PartialEq, Eq)]
pub enum Door {
    /// The port of 127.0.0.1.
    Port,
    /// The socket in the file system.
    Socket,
    /// The one for grants.
    Grants,
    /// That of the tenant with this number, from 0 on.
    Tenant(u8),
}

impl fmt::Display for Door {
    ghost use Rattle.std.specs.Prelude.{Some};
    ghost use Rattle.shared_desk.specs.Doors.{door_text};

    ghost output = { λ door. Some (door_text door) };

    fn fmt<W: fmt::Write>(&self, f: &mut fmt::Formatter<W>) -> fmt::Result {
        match self {
            Door::Port => write!(f, "port"),
            Door::Socket => write!(f, "socket"),
            Door::Grants => write!(f, "grants"),
            Door::Tenant(_) => write!(f, "tenant"),
        }
    }
}
