//! The desk that a request goes to.

ghost use Rattle.std.specs.Prelude.{◌≡◌, ◌≤◌, ◌<◌, ◌+◌, IfOk, Ok, length, map, string_bytes};
ghost use Rattle.sessions.specs.Grammar.{request_asked};
ghost use Rattle.streams.specs.Prepared.{asked_of};
ghost use Rattle.tenant_desks.specs.Routing as routing;

use sessions::Request;
use shared_desk::{Door, Passage};
use streams::PreparedRequest;

// The number of the refusal of a name or a door that has no desk here.
const NO_TENANT: u8 = 74;

/// The place of the desk of a name: 1 for the first of these, and 0 for one that isn't among them.
pub(crate) fn tenant_place(names: &[String], name: &str) -> usize
    requires { length names.now ≤ 256 }
    ensures place { result ≡ routing.tenant_place (map string_bytes names.now) name.now }
    ensures within { result ≤ length names.now }
{
    let mut place = 1;
    let mut rest = names;
    'names: while let Some((first, others)) = rest.split_first() {
        if first.as_str() == name {
            return place;
        }
        place += 1;
        rest = others;
    }
    0
}

/// The place of the desk that a door belongs to.
pub fn place_behind(door: Door) -> usize
    ensures place { result ≡ routing.place_behind door }
    ensures small { result ≤ 256 }
{
    match door {
        Door::Port => 0,
        Door::Socket => 0,
        Door::Grants => 0,
        Door::Tenant(number) => usize::from(number) + 1,
    }
}

// The desk of a door; 74 where it is the door of no tenant.
fn desk_behind(names: &[String], door: Door) -> Result<usize, u8>
    ensures desk { result ≡ routing.desk_behind (map string_bytes names.now) door }
    ensures within { IfOk result (λ place. place ≤ length names.now) }
{
    let place = place_behind(door);
    if names.len() < place {
        Err(NO_TENANT)
    } else {
        Ok(place)
    }
}

// The desk of an account, which its own door and those who may grant are told.
fn desk_of_account(names: &[String], passage: Passage, name: &str) -> Result<usize, u8>
    requires { length names.now ≤ 256 }
    ensures desk { result ≡ routing.desk_of_account (map string_bytes names.now) passage name.now }
    ensures within { IfOk result (λ place. place ≤ length names.now) }
{
    let place = tenant_place(names, name);
    if place == place_behind(passage.door) || passage.may_grant {
        Ok(place)
    } else {
        Err(NO_TENANT)
    }
}

// The desk that takes a tenant's jobs, by its own door alone.
fn desk_of_submit(names: &[String], door: Door, name: &str) -> Result<usize, u8>
    requires { length names.now ≤ 256 }
    ensures desk { result ≡ routing.desk_of_submit (map string_bytes names.now) door name.now }
    ensures within { IfOk result (λ place. place ≤ length names.now) }
{
    let place = tenant_place(names, name);
    if place == place_behind(door) {
        Ok(place)
    } else {
        Err(NO_TENANT)
    }
}

// The desk that a request goes to.
fn desk_for_request(names: &[String], passage: Passage, request: &Request) -> Result<usize, u8>
    requires { length names.now ≤ 256 }
    ensures desk { result ≡ routing.desk_for (map string_bytes names.now) passage
        (Ok (request_asked request.now)) }
    ensures within { IfOk result (λ place. place ≤ length names.now) }
{
    match request {
        Request::Grant { tenant, .. } => Ok(tenant_place(names, tenant)),
        Request::Account { tenant } => desk_of_account(names, passage, tenant),
        Request::Submit { tenant, .. } => desk_of_submit(names, passage.door, tenant),
        Request::Status { .. } => desk_behind(names, passage.door),
        Request::Result { .. } => desk_behind(names, passage.door),
    }
}

/// The place of the desk that answers a request of this passage, or the number of its refusal.
pub fn desk_for(names: &[String], passage: Passage, request: &PreparedRequest) -> Result<usize, u8>
    requires { length names.now ≤ 256 }
    ensures desk { result ≡ routing.desk_for (map string_bytes names.now) passage
        (asked_of request.now) }
    ensures within { IfOk result (λ place. place ≤ length names.now) }
{
    match request {
        PreparedRequest::AsItCame(asked) => match asked {
            Ok(request) => desk_for_request(names, passage, request),
            Err(code) => Err(*code),
        },
        PreparedRequest::Submit(submit) => desk_of_submit(names, passage.door, submit.tenant()),
    }
}
