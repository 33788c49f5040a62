//! Puts the name of a door's own tenant into a request that leaves it out.

ghost use Rattle.std.specs.Prelude.{◌≡◌, [], IfOk, OnErr, map, string_bytes};
ghost use Rattle.sessions.specs.Grammar.{request_asked};
ghost use Rattle.streams.specs.Prepared.{asked_of};
ghost use Rattle.tenant_desks.specs.OwnNamed as naming;

use refusal::NoMemory;
use sessions::Request;
use shared_desk::Door;
use std::alloc::Global;
use streams::{AdmittedSubmit, PreparedRequest};

// The number of the refusal where there is no memory for a name.
const NO_MEMORY: u8 = 99;

/// The name of the tenant whose door this is; at any other door the empty name.
pub(crate) fn name_behind(names: &[String], door: Door) -> &str
    ensures { result.now ≡ naming.name_behind (map string_bytes names.now) door }
{
    match door {
        Door::Port => "",
        Door::Socket => "",
        Door::Grants => "",
        Door::Tenant(number) => match names.get(usize::from(number)) {
            Some(name) => name.as_str(),
            None => "",
        },
    }
}

// A name, with the door's own in place of the empty one.
#[tactic(auto, using(crate::proofs::OwnLemmas::own_of_empty, crate::proofs::OwnLemmas::own_of_name, crate::proofs::OwnLemmas::is_empty_name))]
fn own_name(alloc: Global, tenant: String, own: &str) -> Result<String, NoMemory>
    ensures named { IfOk result (λ name. string_bytes name
        ≡ naming.own_name own.now (string_bytes tenant)) }
    ensures unnamed { OnErr result (string_bytes tenant ≡ []) }
{
    if tenant.is_empty() {
        Ok(String::from_str(alloc, own)?)
    } else {
        Ok(tenant)
    }
}

// The same request, by the door's own name where it is the empty one.
fn own_request(alloc: Global, request: Request, own: &str) -> Result<Request, NoMemory>
    ensures named { IfOk result (λ named. request_asked named
        ≡ naming.own_named own.now (request_asked request)) }
    ensures unnamed { OnErr result (naming.IsUnnamed (request_asked request)) }
{
    match request {
        Request::Grant { tenant, amount } => Ok(Request::Grant {
            tenant: own_name(alloc, tenant, own)?,
            amount,
        }),
        Request::Account { tenant } => Ok(Request::Account {
            tenant: own_name(alloc, tenant, own)?,
        }),
        Request::Submit {
            tenant,
            programs,
            credit,
            buffer,
        } => Ok(Request::Submit {
            tenant: own_name(alloc, tenant, own)?,
            programs,
            credit,
            buffer,
        }),
        Request::Status { job } => Ok(Request::Status { job }),
        Request::Result { job } => Ok(Request::Result { job }),
    }
}

// The same request for a job, by the door's own name where it is the empty one.
#[tactic(auto, using(crate::proofs::OwnLemmas::submit_of_own, crate::proofs::OwnLemmas::submit_as_it_is, crate::proofs::OwnLemmas::submit_unnamed))]
fn own_submit(alloc: Global, submit: AdmittedSubmit, own: &str) -> Result<AdmittedSubmit, NoMemory>
    ensures named { IfOk result (λ named. named ≡ naming.own_named own.now submit) }
    ensures unnamed { OnErr result (naming.IsUnnamed submit) }
{
    if submit.tenant().is_empty() {
        let name = String::from_str(alloc, own)?;
        Ok(submit.of_tenant(name))
    } else {
        Ok(submit)
    }
}

/// What the desks are asked, of what is asked by a door: the same, by the door's own name where it is
/// the empty one. Where there is no memory for that name, nothing is asked: 99.
pub fn own_named(
    alloc: Global,
    names: &[String],
    door: Door,
    request: PreparedRequest,
) -> PreparedRequest
    ensures { naming.IsOwnNamed (map string_bytes names.now) door (asked_of request)
        (asked_of result) }
{
    let own = name_behind(names, door);
    match request {
        PreparedRequest::AsItCame(Err(code)) => PreparedRequest::AsItCame(Err(code)),
        PreparedRequest::AsItCame(Ok(request)) => match own_request(alloc, request, own) {
            Ok(request) => PreparedRequest::AsItCame(Ok(request)),
            Err(NoMemory) => PreparedRequest::AsItCame(Err(NO_MEMORY)),
        },
        PreparedRequest::Submit(submit) => match own_submit(alloc, submit, own) {
            Ok(submit) => PreparedRequest::Submit(submit),
            Err(NoMemory) => PreparedRequest::AsItCame(Err(NO_MEMORY)),
        },
    }
}
