//! Puts the name of a connection's own tenant into a request that leaves it out.

ghost use Rattle.std.specs.Prelude.{◌≡◌, [], IfOk, OnErr, map, string_bytes};
ghost use Rattle.sessions.specs.Grammar.{request_asked};
ghost use Rattle.streams.specs.Prepared.{asked_of};
ghost use Rattle.server_handler.specs.Naming as naming;

use refusal::NoMemory;
use server_state::Access;
use sessions::Request;
use std::alloc::Global;
use streams::{AdmittedSubmit, PreparedRequest};

// The number of the refusal where there is no memory for a name.
const NO_MEMORY: u8 = 99;

/// The name of the tenant whose desk is the connection's own; the empty name at the first desk.
pub(crate) fn own_name_of(names: &[String], access: Access) -> &str
    ensures { result.now ≡ naming.own_name_of (map string_bytes names.now) access }
{
    if access.desk == 0 {
        return "";
    }
    match names.get(usize::from(access.desk - 1)) {
        Some(name) => name.as_str(),
        None => "",
    }
}

// A name, with the connection's own in place of the empty one.
#[tactic(auto, using(crate::proofs::OwnLemmas::own_of_empty, crate::proofs::OwnLemmas::own_of_name, crate::proofs::OwnLemmas::is_empty_name))]
fn own_name(alloc: Global, tenant: String, own: &str) -> Result<String, NoMemory>
    ensures named { IfOk result (λ name. string_bytes name
        ≡ naming.own_name own.now (string_bytes tenant)) }
    ensures unnamed { OnErr result (string_bytes tenant ≡ []) }
{
    if tenant.is_empty() {
        Ok(String::from_str(alloc, own)?)
    } else {
        Ok(tenant)
    }
}

// The same request, by the connection's own name where it is the empty one.
fn own_request(alloc: Global, request: Request, own: &str) -> Result<Request, NoMemory>
    ensures named { IfOk result (λ named. request_asked named
        ≡ naming.own_named own.now (request_asked request)) }
    ensures unnamed { OnErr result (naming.IsUnnamed (request_asked request)) }
{
    match request {
        Request::Grant { tenant, amount } => Ok(Request::Grant {
            tenant: own_name(alloc, tenant, own)?,
            amount,
        }),
        Request::Account { tenant } => Ok(Request::Account {
            tenant: own_name(alloc, tenant, own)?,
        }),
        Request::Submit {
            tenant,
            programs,
            credit,
            buffer,
        } => Ok(Request::Submit {
            tenant: own_name(alloc, tenant, own)?,
            programs,
            credit,
            buffer,
        }),
        Request::Status { job } => Ok(Request::Status { job }),
        Request::Result { job } => Ok(Request::Result { job }),
    }
}

// The same request for a job, by the connection's own name where it is the empty one.
#[tactic(auto, using(crate::proofs::OwnLemmas::submit_of_own, crate::proofs::OwnLemmas::submit_as_it_is, crate::proofs::OwnLemmas::submit_unnamed))]
fn own_submit(alloc: Global, submit: AdmittedSubmit, own: &str) -> Result<AdmittedSubmit, NoMemory>
    ensures named { IfOk result (λ named. named ≡ naming.own_named own.now submit) }
    ensures unnamed { OnErr result (naming.IsUnnamed submit) }
{
    if submit.tenant().is_empty() {
        let name = String::from_str(alloc, own)?;
        Ok(submit.of_tenant(name))
    } else {
        Ok(submit)
    }
}

/// What the desks are asked, of a request by a connection: the same, by the connection's own name where it is
/// the empty one. Where there is no memory for that name, nothing is asked: 99.
pub(crate) fn own_named(
    alloc: Global,
    names: &[String],
    access: Access,
    request: PreparedRequest,
) -> PreparedRequest
    ensures { naming.IsOwnNamed (map string_bytes names.now) access (asked_of request)
        (asked_of result) }
{
    let own = own_name_of(names, access);
    match request {
        PreparedRequest::AsItCame(Err(code)) => PreparedRequest::AsItCame(Err(code)),
        PreparedRequest::AsItCame(Ok(request)) => match own_request(alloc, request, own) {
            Ok(request) => PreparedRequest::AsItCame(Ok(request)),
            Err(NoMemory) => PreparedRequest::AsItCame(Err(NO_MEMORY)),
        },
        PreparedRequest::Submit(submit) => match own_submit(alloc, submit, own) {
            Ok(submit) => PreparedRequest::Submit(submit),
            Err(NoMemory) => PreparedRequest::AsItCame(Err(NO_MEMORY)),
        },
    }
}
