//! Lines of numbers: those that leave the same remainder by 1,000. In each the numbers of jobs rise.

ghost use Rattle.std.specs.Prelude.{◌≡◌, ◌≢◌, ◌≤◌, ◌<◌, ◌+◌, ◌%◌, ◌^◌, ◌⊎◌, ◌↔◌, ℕ, Err, Some, OnOk, OnErr, IfErr, unwrap_or};
ghost use Rattle.std.specs.BTreeMap as tree;
ghost use Rattle.std.specs.Ordering.{nat_cmp};

use std::collections::BTreeMap;

/// Takes a number from its line, which goes on behind it. It is refused by 81 exactly where the line
/// is past it, or it is the greatest number, and by 99 where there is no memory: then the lines are as
/// they were.
pub(crate) fn take_number(nexts: &mut BTreeMap<u64, u64>, number: u64) -> Result<(), u8>
    ensures free { OnOk result
        (unwrap_or (tree.get nat_cmp nexts.old (number % 1000)) 0 ≤ number) }
    ensures here { OnOk result (tree.get nat_cmp nexts.new (number % 1000) ≡ Some (number + 1)) }
    ensures others { OnOk result ((n : ℕ) → n ≢ number % 1000
        → tree.get nat_cmp nexts.new n ≡ tree.get nat_cmp nexts.old n) }
    ensures same { OnErr result (nexts.new.entries ≡ nexts.old.entries) }
    ensures code { IfErr result (λ code. (code ≡ 81) ⊎ (code ≡ 99)) }
    ensures past { (result ≡ Err 81) ↔ (number < unwrap_or (tree.get nat_cmp nexts.old (number % 1000)) 0)
        ⊎ (number + 1 ≡ 2 ^ 64) }
{
    let line = number % 1000;
    if let Some(next) = nexts.get(&line) {
        if number < *next {
            return Err(81);
        }
    }
    let Some(next) = number.checked_add(1) else {
        return Err(81);
    };
    match nexts.insert(line, next) {
        Ok(_) => Ok(()),
        Err(_) => Err(99),
    }
}
