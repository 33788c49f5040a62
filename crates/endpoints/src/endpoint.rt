//! The endpoints of a server: where it listens, and what may be asked there.

ghost use Rattle.std.specs.Prelude.{◌≡◌};
ghost use Rattle.endpoints.specs.Modes.{mode_for};

use server_state::Access;
use sessions::DoorForms;

/// A place to listen at.
#[derive(Drop)]
pub enum Place {
    /// This port of 127.0.0.1.
    Port(u16),
    /// A socket in the file system, at this path.
    Path(String),
}

/// Those who may connect to a socket in the file system.
#[derive(Clone, Copy, Debug, PartialEq, Eq)]
pub enum SocketMode {
    /// Those whom the umask lets write there.
    ByUmask,
    /// Its owner alone, whatever the umask says.
    OwnerAlone,
}

/// A place to listen at, and the access of the connections that come there.
#[derive(Drop)]
pub struct Endpoint {
    pub place: Place,
    pub access: Access,
}

impl Endpoint {
    /// Those who may connect: the owner alone to the endpoint for grants.
    pub fn mode(&self) -> SocketMode
        ensures { result ≡ mode_for self.now.access.forms }
    {
        match self.access.forms {
            DoorForms::Granter => SocketMode::OwnerAlone,
            DoorForms::Plain => SocketMode::ByUmask,
            DoorForms::OwnDoor => SocketMode::ByUmask,
        }
    }
}
