//! The desk that a query goes to.

ghost use Rattle.std.specs.Prelude.{◌≡◌, ◌≤◌, MatchResult, Ok, length, map, string_bytes};
ghost use Rattle.sessions.specs.Grammar.{request_asked};
ghost use Rattle.streams.specs.Prepared.{asked_of};
ghost use Rattle.server_state.specs.Queries as queries;
ghost use Rattle.server_state.specs.Queries.{desk_at, refused_by};
ghost use Rattle.server_handler.specs.DeskAnswers.{query_asked};

use crate::desk_query::DeskQuery;
use server_state::Access;
use sessions::Request;
use streams::PreparedRequest;

// The number of the refusal of what is no request.
const NO_REQUEST: u8 = 73;

// The number of the refusal of a name or a connection that has no desk here.
const NO_TENANT: u8 = 74;

/// The place of the desk of a name: 1 for the first of these, and 0 for any other name.
pub(crate) fn tenant_place(names: &[String], name: &str) -> usize
    requires { length names.now ≤ 65535 }
    ensures place { result ≡ queries.tenant_place (map string_bytes names.now) name.now }
    ensures within { result ≤ length names.now }
{
    let mut place = 1;
    let mut rest = names;
    'names: while let Some((first, others)) = rest.split_first() {
        if first.as_str() == name {
            return place;
        }
        place += 1;
        rest = others;
    }
    0
}

// The connection's own desk; 74 where there is none.
fn own_desk(names: &[String], access: Access) -> Result<usize, u8>
    ensures desk { MatchResult result
        (λ place. queries.own_desk (map string_bytes names.now) access ≡ desk_at place)
        (λ code. queries.own_desk (map string_bytes names.now) access ≡ refused_by code) }
    ensures within { MatchResult result (λ place. place ≤ length names.now) (λ _. Unit {0}) }
{
    let place = usize::from(access.desk);
    if names.len() < place {
        Err(NO_TENANT)
    } else {
        Ok(place)
    }
}

// The desk of an account, for its own connections and for those that may grant.
fn desk_of_account(names: &[String], access: Access, name: &str) -> Result<usize, u8>
    requires { length names.now ≤ 65535 }
    ensures desk { MatchResult result
        (λ place. queries.desk_of_account (map string_bytes names.now) access name.now
        ≡ desk_at place)
        (λ code. queries.desk_of_account (map string_bytes names.now) access name.now
        ≡ refused_by code) }
    ensures within { MatchResult result (λ place. place ≤ length names.now) (λ _. Unit {0}) }
{
    let place = tenant_place(names, name);
    if place == usize::from(access.desk) || access.may_grant {
        Ok(place)
    } else {
        Err(NO_TENANT)
    }
}

// The desk that takes a tenant's jobs, from its own connections alone.
fn desk_of_submit(names: &[String], access: Access, name: &str) -> Result<usize, u8>
    requires { length names.now ≤ 65535 }
    ensures desk { MatchResult result
        (λ place. queries.desk_of_submit (map string_bytes names.now) access name.now
        ≡ desk_at place)
        (λ code. queries.desk_of_submit (map string_bytes names.now) access name.now
        ≡ refused_by code) }
    ensures within { MatchResult result (λ place. place ≤ length names.now) (λ _. Unit {0}) }
{
    let place = tenant_place(names, name);
    if place == usize::from(access.desk) {
        Ok(place)
    } else {
        Err(NO_TENANT)
    }
}

// The desk that a tenant's grant goes to, from a connection that may grant.
fn desk_of_grant(names: &[String], access: Access, name: &str) -> Result<usize, u8>
    requires { length names.now ≤ 65535 }
    ensures desk { MatchResult result
        (λ place. queries.desk_of_grant (map string_bytes names.now) access name.now
        ≡ desk_at place)
        (λ code. queries.desk_of_grant (map string_bytes names.now) access name.now
        ≡ refused_by code) }
    ensures within { MatchResult result (λ place. place ≤ length names.now) (λ _. Unit {0}) }
{
    if access.may_grant {
        Ok(tenant_place(names, name))
    } else {
        Err(NO_REQUEST)
    }
}

// The desk that a request goes to.
fn desk_of_request(names: &[String], access: Access, request: &Request) -> Result<usize, u8>
    requires { length names.now ≤ 65535 }
    ensures desk { MatchResult result
        (λ place. queries.request_goes (map string_bytes names.now) access
        (Ok (request_asked request.now)) ≡ desk_at place)
        (λ code. queries.request_goes (map string_bytes names.now) access
        (Ok (request_asked request.now)) ≡ refused_by code) }
    ensures within { MatchResult result (λ place. place ≤ length names.now) (λ _. Unit {0}) }
{
    match request {
        Request::Grant { tenant, .. } => desk_of_grant(names, access, tenant),
        Request::Account { tenant } => desk_of_account(names, access, tenant),
        Request::Submit { tenant, .. } => desk_of_submit(names, access, tenant),
        Request::Status { .. } => own_desk(names, access),
        Request::Result { .. } => own_desk(names, access),
    }
}

/// The desk that a query goes to, or the number of its refusal.
pub(crate) fn desk_for(names: &[String], access: Access, query: &DeskQuery) -> Result<usize, u8>
    requires { length names.now ≤ 65535 }
    ensures desk { MatchResult result
        (λ place. queries.goes (map string_bytes names.now) access (query_asked query.now)
        ≡ desk_at place)
        (λ code. queries.goes (map string_bytes names.now) access (query_asked query.now)
        ≡ refused_by code) }
    ensures within { MatchResult result (λ place. place ≤ length names.now) (λ _. Unit {0}) }
{
    match query {
        DeskQuery::Plain(request) => match request {
            PreparedRequest::AsItCame(asked) => match asked {
                Ok(request) => desk_of_request(names, access, request),
                Err(code) => Err(*code),
            },
            PreparedRequest::Submit(submit) => desk_of_submit(names, access, submit.tenant()),
        },
        DeskQuery::Keyed { .. } => own_desk(names, access),
        DeskQuery::Jobs { .. } => own_desk(names, access),
    }
}

// A submit by a key, as the connection's own desk is asked it.
fn own_submit(names: &[String], access: Access, submit: PreparedRequest) -> PreparedRequest
    requires { length names.now ≤ 65535 }
    ensures { asked_of result
        ≡ queries.own_submit (map string_bytes names.now) access (asked_of submit) }
{
    let place = match &submit {
        PreparedRequest::AsItCame(asked) => match asked {
            Ok(Request::Submit { tenant, .. }) => tenant_place(names, tenant),
            Ok(_) => return PreparedRequest::AsItCame(Err(NO_REQUEST)),
            Err(code) => return PreparedRequest::AsItCame(Err(*code)),
        },
        PreparedRequest::Submit(submit) => tenant_place(names, submit.tenant()),
    };
    if place == usize::from(access.desk) {
        submit
    } else {
        PreparedRequest::AsItCame(Err(NO_TENANT))
    }
}

/// A query, as the desk that it goes to is asked it.
pub(crate) fn desk_query(names: &[String], access: Access, query: DeskQuery) -> DeskQuery
    requires { length names.now ≤ 65535 }
    ensures { query_asked result
        ≡ queries.desk_query (map string_bytes names.now) access (query_asked query) }
{
    match query {
        DeskQuery::Keyed { key, submit } => DeskQuery::Keyed {
            key,
            submit: own_submit(names, access, submit),
        },
        other => other,
    }
}
