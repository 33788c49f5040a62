//! The door of a tenant: a socket that nobody else connects to.

ghost use Rattle.std.specs.Prelude.{◌≡◌, IfOk, map, string_bytes};
ghost use Rattle.job_server.specs.TenantLimits.{door_limits};
ghost use Rattle.job_server.specs.TenantServing.{door_credits};

use job_pools::LineLimits;
use refusal::NoMemory;
use std::alloc::Global;

/// A tenant with a socket of its own. Whoever connects there is this tenant.
#[derive(Drop)]
pub struct TenantDoor {
    /// The tenant's name.
    pub name: String,
    /// The socket's path.
    pub path: String,
    /// Jobs that it may have open at once, in place of what the bounds say. 0: any number.
    pub open_jobs: Option<u32>,
    /// Credit that it is granted once, unless the plan's journals tell that something was granted to
    /// it before.
    pub credit: Option<u32>,
}

/// The tenants' names, in order.
pub(crate) fn names_of(alloc: Global, doors: &[TenantDoor]) -> Result<Vec<String>, NoMemory>
    ensures { IfOk result (λ names. map string_bytes names.items
        ≡ map (λ d. string_bytes d.name) doors.now) }
{
    let mut names = Vec::new(alloc);
    for door in doors {
        let Ok(name) = String::from_str(alloc, &door.name) else {
            return Err(NoMemory);
        };
        let Ok(()) = names.push(name) else {
            return Err(NoMemory);
        };
    }
    Ok(names)
}

/// The tenants' names, in order, each with the credit that it is granted at first.
pub(crate) fn credits_of(
    alloc: Global,
    doors: &[TenantDoor],
) -> Result<Vec<(String, Option<u32>)>, NoMemory>
    ensures { IfOk result (λ tenants. map (λ x. (string_bytes x.0, x.1)) tenants.items
        ≡ door_credits doors.now) }
{
    let mut tenants = Vec::new(alloc);
    for door in doors {
        let Ok(name) = String::from_str(alloc, &door.name) else {
            return Err(NoMemory);
        };
        let Ok(()) = tenants.push((name, door.credit)) else {
            return Err(NoMemory);
        };
    }
    Ok(tenants)
}

/// The limits of open jobs: one for all desks, and that of each tenant that has its own. The desk of
/// everybody else is the first.
pub(crate) fn limits_of(
    alloc: Global,
    all: u32,
    doors: &[TenantDoor],
) -> Result<LineLimits, NoMemory>
    ensures { IfOk result (λ limits. limits ≡ door_limits all doors.now) }
{
    let mut own: Vec<Option<u32>> = Vec::new(alloc);
    let Ok(()) = own.push(None) else {
        return Err(NoMemory);
    };
    for door in doors {
        let Ok(()) = own.push(door.open_jobs) else {
            return Err(NoMemory);
        };
    }
    Ok(LineLimits::new(all, own))
}
