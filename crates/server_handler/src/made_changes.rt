//! The changes of a desk, as they are added.

ghost use Rattle.std.specs.Prelude.{◌≡◌, ◌⊎◌, ℕ, [], Err, IfOk, IfSome, List, Result, Some, is_ok, option_map, string_bytes, true};
ghost use Rattle.accounts.specs.Ledgers.{Finishes, Ledger};
ghost use Rattle.credit_book.specs.declared.book.Report.{Report};
ghost use Rattle.sessions.specs.declared.job_key.KeyedJob.{KeyedJob};
ghost use Rattle.server_state.specs.Changing.{MakesAt, Records};
ghost use Rattle.server_handler.specs.Recording.{IsEndChange, IsForgetting, IsGrant, IsTaking};

use accounts::{Account, Desk, DeskFault};
use job_core::ProgramBytes;
use refusal::NoMemory;
use server_state::{ChangeSink, DeskChange, JobId};
use sessions::JobKey;
use std::alloc::Global;

/// Adds a change that was made. Without one, changes are missing from now on.
pub fn add_made<C: ChangeSink>(changes: &mut C, place: u16, made: Option<DeskChange>)
    ensures { (old new : Ledger) (keyed : List KeyedJob)
        → IfSome made (λ c. MakesAt place c old new keyed)
        → Records C.ChangeSink place changes.old changes.new old new keyed }
{
    match made {
        Some(change) => changes.add(change),
        None => changes.fail(),
    }
}

/// The change of a grant; none where changes are not kept, or where there is no memory.
pub fn granted_change<C: ChangeSink>(
    alloc: Global,
    changes: &C,
    place: u16,
    tenant: &str,
    amount: u32,
) -> Option<DeskChange>
    ensures { IfSome result (λ c. IsGrant place c tenant.now amount) }
{
    if !changes.are_kept() {
        return None;
    }
    match String::from_str(alloc, tenant) {
        Ok(tenant) => Some(DeskChange::Granted {
            desk: place,
            tenant,
            amount,
        }),
        Err(_) => None,
    }
}

/// The change of a grant, where its tenant had an account before, or has spent nothing; and none
/// otherwise.
pub fn sound_grant(
    before: Result<Account, DeskFault>,
    account: Account,
    made: Option<DeskChange>,
) -> Option<DeskChange>
    ensures { IfSome result (λ c. (made ≡ Some c)
        × ((is_ok before ≡ true) ⊎ (account.spent ≡ 0))) }
{
    match before {
        Ok(_) => made,
        Err(_) => { if account.spent == 0 { made } else { None } }
    }
}

// A copy of a key's text.
fn key_text(alloc: Global, key: Option<&JobKey>) -> Result<Option<String>, NoMemory>
    ensures { IfOk result (λ text.
        option_map string_bytes text ≡ option_map (λ k. k.now) key.entry) }
{
    match key {
        Some(key) => Ok(Some(String::from_str(alloc, key.as_str())?)),
        None => Ok(None),
    }
}

/// The change of a job that is taken, by the key that it came by.
pub fn taken_change(
    alloc: Global,
    place: u16,
    key: Option<&JobKey>,
    tenant: &str,
    programs: Vec<ProgramBytes>,
    credit: u32,
    buffer: Vec<u8>,
) -> Result<DeskChange, NoMemory>
    ensures { IfOk result (λ c. IsTaking place c (option_map (λ k. k.now) key.entry) tenant.now
        programs.items credit buffer.items) }
{
    let key = key_text(alloc, key)?;
    let tenant = String::from_str(alloc, tenant)?;
    Ok(DeskChange::Taken {
        desk: place,
        tenant,
        key,
        programs,
        credit,
        buffer,
    })
}

/// The change of a job that is over, by what its desk has of it; none where changes are not kept, or
/// where there is no memory to share the report.
pub fn settled_change<C: ChangeSink>(
    alloc: Global,
    changes: &C,
    desk: &mut Desk,
    id: JobId,
) -> Option<DeskChange>
    ensures settled { IfSome result (λ c. (old : Ledger) (outcome : Result Report ℕ)
        → Finishes old id.number outcome desk.old → MakesAt id.desk c old desk.old []) }
    ensures same { desk.new ≡ desk.old }
{
    if !changes.are_kept() {
        return None;
    }
    match desk.shared_result(alloc, id.number) {
        Ok(Ok(report)) => Some(DeskChange::Settled {
            id,
            outcome: Ok(report),
        }),
        Ok(Err(DeskFault::Failed(code))) => Some(DeskChange::Settled {
            id,
            outcome: Err(code),
        }),
        _ => None,
    }
}

/// The change of a job whose start was refused.
pub fn failed_change(id: JobId, code: u8) -> DeskChange
    ensures { IsEndChange id.desk result id.number (Err code) }
{
    DeskChange::Settled {
        id,
        outcome: Err(code),
    }
}

/// The change of what a desk forgot.
pub fn forgotten_change(place: u16, ahead: u64) -> DeskChange
    ensures { IsForgetting place result ahead }
{
    DeskChange::Forgotten { desk: place, ahead }
}
