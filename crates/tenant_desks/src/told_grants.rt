//! What a log is told of grants at tenants' desks.

ghost use Rattle.std.specs.Prelude.{◌≡◌, IfSome, Ok, Some, string_bytes};
ghost use Rattle.sessions.specs.Grammar.{grant};
ghost use Rattle.streams.specs.Prepared.{asked_of};
ghost use Rattle.server_log.specs.declared.grant_note.GrantNote.{GrantNote};
ghost use Rattle.tenant_desks.specs.ToldGrants.{IsToldGrant};

use crate::desks::TenantDesks;
use crate::routing::tenant_place;
use server_log::{GrantNote, LogEvent, ServerLog, noted_grant};
use sessions::Request;
use std::alloc::Global;
use streams::PreparedRequest;

/// Notes a grant that is asked for, at its tenant's desk, where a log's lines are written. None
/// for any other request.
pub fn noted_grant_among(
    alloc: Global,
    log: &ServerLog,
    desks: &TenantDesks,
    request: &PreparedRequest,
) -> Option<GrantNote>
    ensures { IfSome result (λ note. asked_of request.now
        ≡ Ok (grant (string_bytes note.tenant) note.amount)) }
{
    match request {
        PreparedRequest::AsItCame(Ok(Request::Grant { tenant, .. })) => {
            let place = tenant_place(&desks.names, tenant);
            noted_grant(alloc, log, &desks.desks[place], request)
        }
        _ => None,
    }
}

/// What a log is told of a noted grant behind its answer: with the tenant's name where it has a desk of
/// its own.
pub fn granted_among(desks: &TenantDesks, note: Option<GrantNote>) -> Option<LogEvent>
    ensures { IfSome result (λ event. (noted : GrantNote) × (note ≡ Some noted)
        × IsToldGrant desks.now noted event) }
{
    let note = note?;
    let place = tenant_place(&desks.names, note.tenant());
    note.event(&desks.desks[place], place > 0)
}
