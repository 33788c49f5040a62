//! What jobs have, by number.

ghost use Rattle.std.specs.Prelude.{◌≡◌, ◌≢◌, ◌+◌, ℕ, None, Some, OnOk, OnErr};
ghost use Rattle.std.specs.BTreeMap as tree;
ghost use Rattle.std.specs.Ordering.{nat_cmp};

use refusal::NoMemory;
use std::collections::BTreeMap;

/// The key of the job of this number.
pub(crate) fn key_of(keys: &BTreeMap<u64, usize>, number: u64) -> Option<usize>
    ensures { result ≡ tree.get nat_cmp keys.now number }
{
    keys.get(&number).copied()
}

/// Notes a value under a number that has none.
pub(crate) fn note<V: Drop>(
    values: &mut BTreeMap<u64, V>,
    number: u64,
    value: V,
) -> Result<(), NoMemory>
    requires { tree.get nat_cmp values.old number ≡ None }
    ensures here { OnOk result (tree.get nat_cmp values.new number ≡ Some value) }
    ensures others { OnOk result ((n : ℕ) → n ≢ number
        → tree.get nat_cmp values.new n ≡ tree.get nat_cmp values.old n) }
    ensures count { OnOk result (tree.btree_map_len values.new
        ≡ tree.btree_map_len values.old + 1) }
    ensures same { OnErr result (values.new.entries ≡ values.old.entries) }
{
    match values.insert(number, value) {
        Ok(_) => Ok(()),
        Err(_) => Err(NoMemory),
    }
}

/// Forgets the value of a number that has one.
pub(crate) fn forget<V: Drop>(values: &mut BTreeMap<u64, V>, number: u64)
    requires { (value : V) × (tree.get nat_cmp values.old number ≡ Some value) }
    ensures gone { tree.get nat_cmp values.new number ≡ None }
    ensures others { (n : ℕ) → n ≢ number
        → tree.get nat_cmp values.new n ≡ tree.get nat_cmp values.old n }
    ensures count { tree.btree_map_len values.new + 1 ≡ tree.btree_map_len values.old }
{
    values.remove(&number);
}
