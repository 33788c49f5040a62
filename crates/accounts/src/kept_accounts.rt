//! The accounts of a desk, as they are kept.

ghost use Rattle.std.specs.Prelude.{◌≡◌, map, IfOk, OnOk};
ghost use Rattle.std.specs.BTreeMap as tree;
ghost use Rattle.std.specs.String.{string_cmp};
ghost use Rattle.accounts.specs.KeptAccounts.{kept_as, kept_from_sums};

use crate::tenants::Sums;
use refusal::NoMemory;
use std::alloc::Global;
use std::collections::BTreeMap;

/// What is kept of a tenant's account: the sum of its grants, and what all of its jobs spent, also
/// those that are forgotten.
#[derive(Drop)]
pub struct KeptAccount {
    pub tenant: String,
    pub granted: u64,
    pub spent: u64,
}

/// The accounts of all tenants, in the order of their names.
pub(crate) fn list_accounts(
    alloc: Global,
    tenants: &BTreeMap<String, Sums>,
) -> Result<Vec<KeptAccount>, NoMemory>
    ensures kept { IfOk result (λ accounts.
        map kept_as accounts.items ≡ map kept_from_sums tenants.now.entries) }
    ensures ordered { OnOk result (tree.IsOrdered string_cmp tenants.now) }
{
    let mut accounts = Vec::new(alloc);
    for (name, sums) in tenants {
        let tenant = String::from_str(alloc, name)?;
        accounts.push(KeptAccount {
            tenant,
            granted: sums.granted,
            spent: sums.spent,
        })?;
    }
    Ok(accounts)
}
