//! By which way a connection comes to the desk.

ghost use Rattle.std.specs.Prelude.{◌≡◌};
ghost use Rattle.streams.specs.Hearing.{query_of};
ghost use Rattle.shared_desk.specs.Grants.{admitted};
ghost use Rattle.shared_desk.specs.HeardAt as heard;

use crate::door::Door;
use sessions::{DoorForms, Request};
use std::marker::Brand;

// The number of the refusal of what is no request.
const NO_REQUEST: u8 = 73;

/// The door that a connection came by, and whether it may grant.
#[derive(Clone, Copy, Debug, PartialEq, Eq)]
pub struct Passage {
    pub door: Door,
    /// Whether its grants come to the desk. Else a grant is no request: 73.
    pub may_grant: bool,
}

/// Names the passage of a connection. Each call of a program picks it.
pub trait PassageId {
    ghost use Rattle.shared_desk.specs.declared.passage.Passage.{Passage};

    ghost passage: { Passage };
}

impl PassageId for Brand {
    ghost use Rattle.shared_desk.specs.Grants.{by_port};

    ghost passage = { by_port };
}

impl Passage {
    /// Which requests its door hears: at a tenant's own socket those of its own door too, and at
    /// the socket for grants what the server counts.
    pub fn forms(self) -> DoorForms
        ensures { result ≡ heard.forms_at self.door }
    {
        match self.door {
            Door::Port => DoorForms::Plain,
            Door::Socket => DoorForms::Plain,
            Door::Grants => DoorForms::Granter,
            Door::Tenant(_) => DoorForms::OwnDoor,
        }
    }

    /// What comes to the desk of what was asked. A grant of a connection that may make none is no
    /// request: 73.
    pub fn admit(self, request: Result<Request, u8>) -> Result<Request, u8>
        ensures { query_of result ≡ admitted self.may_grant (query_of request) }
    {
        if self.may_grant {
            return request;
        }
        match request {
            Ok(Request::Grant { .. }) => Err(NO_REQUEST),
            Ok(Request::Account { tenant }) => Ok(Request::Account { tenant }),
            Ok(
                Request::Submit {
                    tenant,
                    programs,
                    credit,
                    buffer,
                },
            ) => Ok(Request::Submit {
                tenant,
                programs,
                credit,
                buffer,
            }),
            Ok(Request::Status { job }) => Ok(Request::Status { job }),
            Ok(Request::Result { job }) => Ok(Request::Result { job }),
            Err(code) => Err(code),
        }
    }
}
