//! A grant that a log is told of once it was carried out.

ghost use Rattle.std.specs.Prelude.{◌≡◌, ◌≢◌, ◌+◌, Ok, IfNone, IfSome, if◌then◌else◌, Some, None, string_bytes};
ghost use Rattle.accounts.specs.Ledgers.{account_at};
ghost use Rattle.accounts.specs.declared.tenants.Account.{Account};
ghost use Rattle.sessions.specs.Grammar.{grant};
ghost use Rattle.streams.specs.Prepared.{asked_of};
ghost use Rattle.server_log.specs.Told.{granted_in};
ghost use Rattle.server_log.specs.declared.log_line.LogEvent.TheVariants.{Granted};

use crate::log_line::LogEvent;
use crate::log_queue::ServerLog;
use accounts::Desk;
use sessions::Request;
use std::alloc::Global;
use streams::PreparedRequest;

/// A grant that a connection asks for at a desk, with what its tenant was granted there before.
#[derive(Drop)]
pub struct GrantNote {
    connection: u64,
    tenant: String,
    amount: u32,
    before: u64,
}

impl GrantNote {
    ghost use Rattle.std.specs.Prelude.{◌≡◌, string_bytes};

    /// The tenant's name.
    pub fn tenant(&self) -> &str
        ensures { result.now ≡ string_bytes self.now.tenant }
    {
        &self.tenant
    }

    /// Notes a grant ahead of its answer. None where there is no memory for the name.
    pub fn of(
        alloc: Global,
        connection: u64,
        desk: &Desk,
        tenant: &str,
        amount: u32,
    ) -> Option<GrantNote>
        ensures { IfSome result (λ note. (note.connection ≡ connection)
            × (string_bytes note.tenant ≡ tenant.now) × (note.amount ≡ amount)
            × (note.before ≡ granted_in (account_at desk.now tenant.now))) }
    {
        let before = match desk.account(tenant) {
            Ok(account) => account.granted,
            Err(_) => 0,
        };
        let tenant = String::from_str(alloc, tenant).ok()?;
        Some(GrantNote {
            connection,
            tenant,
            amount,
            before,
        })
    }

    /// What a log tells of it behind its answer, with the tenant's name if that is configured; nothing
    /// where it was refused, so that the tenant's grants are what they were.
    pub fn event(self, desk: &Desk, is_configured: bool) -> Option<LogEvent>
        ensures told { IfSome result (λ event. (account : Account)
            × (account_at desk.now (string_bytes self.tenant) ≡ Ok account)
            × (account.granted ≡ self.before + self.amount)
            × (event ≡ Granted self.connection (if is_configured then Some self.tenant else None)
            self.amount account.balance)) }
        ensures refused { IfNone result ((account : Account)
            → account_at desk.now (string_bytes self.tenant) ≡ Ok account
            → account.granted ≢ self.before + self.amount) }
    {
        let account = desk.account(&self.tenant).ok()?;
        let after = self.before.checked_add(u64::from(self.amount))?;
        if account.granted != after {
            return None;
        }
        let GrantNote {
            connection,
            tenant,
            amount,
            ..
        } = self;
        let tenant = if is_configured { Some(tenant) } else { None };
        Some(LogEvent::Granted {
            connection,
            tenant,
            amount,
            balance: account.balance,
        })
    }
}

/// Notes a grant that a desk is asked for, where a log's lines are written. None for any other
/// request.
pub fn noted_grant(
    alloc: Global,
    log: &ServerLog,
    desk: &Desk,
    request: &PreparedRequest,
) -> Option<GrantNote>
    ensures asked { IfSome result (λ note. asked_of request.now
        ≡ Ok (grant (string_bytes note.tenant) note.amount)) }
    ensures before { IfSome result (λ note. note.before
        ≡ granted_in (account_at desk.now (string_bytes note.tenant))) }
{
    if !log.has_lines() {
        return None;
    }
    match request {
        PreparedRequest::AsItCame(Ok(Request::Grant { tenant, amount })) => {
            GrantNote::of(alloc, log.serving().unwrap_or(0), desk, tenant, *amount)
        }
        _ => None,
    }
}
