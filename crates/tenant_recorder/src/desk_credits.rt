//! The credit that tenants are granted at first, recorded.

ghost use Rattle.std.specs.Prelude.{◌≡◌, ◌+◌, [], OnOk, length, map, string_bytes};
ghost use Rattle.desk_recorder.specs.Recording.{IsRecorded};
ghost use Rattle.tenant_recorder.specs.Recorders.{EachRecorder, IsRecordedPlainly};
ghost use Rattle.tenant_recorder.specs.TenantCredits.{AreCredited, HasFirstCredit};

use accounts::Desk;
use desk_recorder::{ChangeRecorder, RecordQueue, grant_recorded};
use refusal::NoMemory;
use std::alloc::Global;

// Grants a tenant its first credit at its desk, if it has one and nothing was granted to it before,
// and records that. Refused where there is no memory.
fn credit_at<Q: RecordQueue>(
    alloc: Global,
    desk: &mut Desk,
    recorder: &mut ChangeRecorder<Q>,
    name: &str,
    credit: Option<u32>,
) -> Result<(), NoMemory>
    ensures credited { OnOk result (HasFirstCredit name.now credit desk.old desk.new) }
    ensures records { IsRecorded Q.taken Q.has_failed recorder.old recorder.new desk.old desk.new [] }
{
    let Some(amount) = credit else {
        return Ok(());
    };
    if desk.account(name).is_ok() {
        return Ok(());
    }
    match grant_recorded(alloc, desk, recorder, name, amount) {
        Ok(_) => Ok(()),
        Err(_) => Err(NoMemory),
    }
}

/// Grants each of these tenants its first credit at its own desk, once, and records that. Refused
/// where there is no memory: then some may have theirs.
pub(crate) fn credit_each<Q: RecordQueue>(
    alloc: Global,
    desks: &mut Vec<Desk>,
    recorders: &mut Vec<ChangeRecorder<Q>>,
    tenants: &[(String, Option<u32>)],
) -> Result<(), NoMemory>
    requires paired { length recorders.old.items ≡ length desks.old.items }
    requires tenants { length desks.old.items ≡ length tenants.now + 1 }
    ensures credited { OnOk result (AreCredited (map (λ x. (string_bytes x.0, x.1)) tenants.now)
        desks.old.items desks.new.items) }
    ensures records { EachRecorder (IsRecordedPlainly Q.taken Q.has_failed) recorders.old.items
        recorders.new.items desks.old.items desks.new.items }
{
    let mut place = 1;
    for tenant in tenants {
        credit_at(
            alloc,
            &mut desks[place],
            &mut recorders[place],
            &tenant.0,
            tenant.1,
        )?;
        place += 1;
    }
    Ok(())
}
