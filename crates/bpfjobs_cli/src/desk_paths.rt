//! The paths of a server's journals, one for each desk.

ghost use Rattle.std.specs.Prelude.{◌≡◌, IfOk, map, string_bytes};
ghost use Rattle.bpfjobs_cli.specs.JournalPaths.{paths_beside, tenant_journal_path};
ghost use Rattle.bpfjobs_cli.specs.Tenants.{tenants_in};

use crate::tenant_socket::TenantSocket;
use refusal::NoMemory;
use std::alloc::Global;

// The path of a tenant's journal, beside that of everybody else.
fn tenant_path(alloc: Global, path: &str, name: &str) -> Result<String, NoMemory>
    ensures { IfOk result (λ own. string_bytes own ≡ tenant_journal_path path.now name.now) }
{
    let mut own = String::from_str(alloc, path)?;
    own.push_str(".")?;
    own.push_str(name)?;
    Ok(own)
}

/// The paths of a server's journals, where this is the one of everybody else: that one, and behind it
/// one for each of these tenants, in their order. Refused where there is no memory.
pub fn journal_paths(
    alloc: Global,
    path: &str,
    tenants: &[TenantSocket],
) -> Result<Vec<String>, NoMemory>
    ensures { IfOk result (λ paths. map string_bytes paths.items
        ≡ paths_beside path.now (tenants_in tenants.now)) }
{
    let mut paths = Vec::new(alloc);
    paths.push(String::from_str(alloc, path)?)?;
    for tenant in tenants {
        paths.push(tenant_path(alloc, path, &tenant.name)?)?;
    }
    Ok(paths)
}
