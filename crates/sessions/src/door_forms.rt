//! What some doors hear beyond the plain protocol.

use crate::job_key::JobKey;

/// Which requests a door hears.
#[derive(Clone, Copy, Debug, PartialEq, Eq)]
pub enum DoorForms {
    /// Those of the plain protocol.
    Plain,
    /// Those of the plain protocol, in which the tenant's name may be left out, and those of a
    /// tenant's own door.
    OwnDoor,
    /// Those of the plain protocol, and those of the door for grants.
    Granter,
}

/// A request beyond the plain protocol, which some doors hear.
#[derive(Debug, Drop)]
pub enum DoorForm {
    /// Which jobs the door's tenant has, from this number on.
    Jobs { from: u64 },
    /// A submit that has a key; none where the member is no key.
    Keyed { key: Option<JobKey> },
    /// What the server counts, and whether it is to stop: heard at the door for grants.
    Server { stops: bool },
}
