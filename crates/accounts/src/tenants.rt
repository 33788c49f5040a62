//! What each tenant was granted, has open and has spent.

ghost use Rattle.std.specs.Prelude.{◌≡◌, ◌+◌, ◌≤◌, ℕ, List, Some, None, OnOk, OnErr};
ghost use Rattle.std.specs.BTreeMap as tree;
ghost use Rattle.std.specs.Map.{update};
ghost use Rattle.std.specs.Str.{bytes_eq};
ghost use Rattle.accounts.specs.declared.tenants.Sums.{Sums};
ghost use Rattle.accounts.specs.Accounts.{account_with};

use refusal::NoMemory;
use std::alloc::Global;
use std::collections::BTreeMap;

/// A tenant's sums: of its grants, of the credit of its open jobs, and of what its jobs spent. Of the
/// last, `recallable` is known to have been spent by forgotten jobs; it may be less than they spent.
#[derive(Clone, Copy, Debug, PartialEq, Eq)]
pub struct Sums {
    pub granted: u64,
    pub opened: u64,
    pub spent: u64,
    pub recallable: u64,
}

/// A tenant's account: its grants, what is left of them, the credit of its open jobs, and what its
/// jobs spent.
#[derive(Clone, Copy, Debug, PartialEq, Eq)]
pub struct Account {
    pub granted: u64,
    pub balance: u64,
    pub opened: u64,
    pub spent: u64,
}

/// The account of these sums.
pub fn account_of(sums: Sums) -> Account
    requires { sums.opened + sums.spent ≤ sums.granted }
    ensures account { result ≡ account_with sums.granted sums.opened sums.spent }
    ensures adds_up { result.balance + result.opened + result.spent ≡ sums.granted }
{
    let Sums {
        granted,
        opened,
        spent,
        ..
    } = sums;
    Account {
        granted,
        balance: granted - opened - spent,
        opened,
        spent,
    }
}

/// The sums of a tenant.
pub fn sums_of(tenants: &BTreeMap<String, Sums>, name: &str) -> Option<Sums>
    ensures { result ≡ tree.get_by_text tenants.now name.now }
{
    tenants.get(name).copied()
}

/// Changes the sums of a tenant that is there.
pub fn change(tenants: &mut BTreeMap<String, Sums>, name: &str, sums: Sums)
    requires { (old : Sums) × (tree.get_by_text tenants.old name.now ≡ Some old) }
    ensures { (q : List ℕ)
        → tree.get_by_text tenants.new q
        ≡ update bytes_eq (tree.get_by_text tenants.old) name.now (Some sums) q }
{
    if let Some(tenant) = tenants.get_mut(name) {
        *tenant = sums;
    }
}

/// Adds a tenant.
pub fn add(
    alloc: Global,
    tenants: &mut BTreeMap<String, Sums>,
    name: &str,
    sums: Sums,
) -> Result<(), NoMemory>
    ensures ok { OnOk result ((q : List ℕ)
        → tree.get_by_text tenants.new q
        ≡ update bytes_eq (tree.get_by_text tenants.old) name.now (Some sums) q) }
    ensures err { OnErr result (tenants.new.entries ≡ tenants.old.entries) }
{
    let name = String::from_str(alloc, name)?;
    tenants.insert(name, sums)?;
    Ok(())
}
