//! Requests whose jobs are admitted ahead of the desk.

ghost use Rattle.std.specs.Prelude.{◌≡◌, ◌↔◌, IsTrue, Ok};
ghost use Rattle.sessions.specs.Grammar.{request_asked};
ghost use Rattle.streams.specs.Prepared.{CoversCredit, IsWithinBalance, asked_of};

use crate::admitted_submit::AdmittedSubmit;
use accounts::Desk;
use sessions::Request;
use std::alloc::Global;

/// A request as it came, or the number of its refusal; or one for a job, which was admitted or
/// refused ahead.
#[derive(Drop)]
pub enum PreparedRequest {
    AsItCame(Result<Request, u8>),
    Submit(AdmittedSubmit),
}

/// Whether the balance of a tenant of this desk covers so much credit.
pub fn covers_credit(desk: &Desk, tenant: &str, credit: u32) -> bool
    ensures { IsTrue result ↔ CoversCredit desk.now tenant.now credit }
{
    match desk.account(tenant) {
        Ok(account) => u64::from(credit) <= account.balance,
        Err(_) => false,
    }
}

/// Whether a request is one for a job that the desk would take now, but for its admission. Then it
/// is worth to admit it ahead.
pub fn wants_admission(desk: &Desk, request: &Request) -> bool
    ensures { IsTrue result ↔ IsWithinBalance desk.now (request_asked request.now) }
{
    match request {
        Request::Submit { tenant, credit, .. } => covers_credit(desk, tenant, *credit),
        _ => false,
    }
}

/// The same request, whose job is admitted or refused, if it is one for a job.
pub fn prepare(alloc: Global, request: Request) -> PreparedRequest
    ensures { asked_of result ≡ Ok (request_asked request) }
{
    match request {
        Request::Submit {
            tenant,
            programs,
            credit,
            buffer,
        } => PreparedRequest::Submit(AdmittedSubmit::admit(
            alloc, tenant, programs, credit, buffer,
        )),
        other => PreparedRequest::AsItCame(Ok(other)),
    }
}
