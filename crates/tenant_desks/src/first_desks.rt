//! The desks that tenants begin with.

ghost use Rattle.std.specs.Prelude.{◌≡◌, ◌≤◌, IfOk, length, map, string_bytes};
ghost use Rattle.tenant_desks.specs.Tenancies.{IsFirstDesk, IsFirstTenancy};

use crate::desks::TenantDesks;
use accounts::Desk;
use refusal::NoMemory;
use std::alloc::Global;

// A new desk, on which a tenant was granted its credit, if it has one.
fn first_desk(alloc: Global, name: &str, credit: Option<u32>) -> Result<Desk, NoMemory>
    ensures { IfOk result (λ desk. IsFirstDesk name.now credit desk) }
{
    let mut desk = Desk::new(alloc);
    let Some(amount) = credit else {
        return Ok(desk);
    };
    match desk.grant(alloc, name, amount) {
        Ok(_) => Ok(desk),
        Err(_) => Err(NoMemory),
    }
}

impl TenantDesks {
    /// Desks for these tenants, each by its name and the credit that it is granted at first, if it
    /// is, and one for everybody else. Refused where there is no memory.
    pub fn first(alloc: Global, tenants: &[(String, Option<u32>)]) -> Result<TenantDesks, NoMemory>
        requires { length tenants.now ≤ 256 }
        ensures { IfOk result (λ t.
            IsFirstTenancy (map (λ x. (string_bytes x.0, x.1)) tenants.now) t) }
    {
        let mut names = Vec::new(alloc);
        let mut desks = Vec::new(alloc);
        desks.push(Desk::new(alloc))?;
        for tenant in tenants {
            desks.push(first_desk(alloc, &tenant.0, tenant.1)?)?;
            names.push(String::from_str(alloc, &tenant.0)?)?;
        }
        Ok(TenantDesks { names, desks })
    }
}
