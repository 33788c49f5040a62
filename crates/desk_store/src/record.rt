//! Values that are a row each.

ghost use Rattle.std.specs.Prelude.{◌≡◌, IfErr, IfOk, IfSome, IfNone, IsErrOf, IsTrue, OnOk};
ghost use Rattle.sqlite_trees.specs.declared.error.StoreError.TheVariants.{OutOfMemory, Unstorable};
ghost use Rattle.desk_store.specs.Tables.{IsRowOf, is_plain};

use crate::table::StoreTable;
use sqlite_trees::error::StoreError;
use sqlite_value::row::Row;
use std::alloc::{AllocError, Global};

/// A value that is a row of a table. It is read back from that row, and from no other one.
pub trait Record: Drop {
    ghost use Rattle.desk_store.specs.declared.table.StoreTable.{StoreTable};
    ghost use Rattle.sqlite_value.specs.Order.{Row};

    ghost table: { StoreTable };

    ghost stored: { Self → Row };

    // its numbers are within what a row holds
    ghost is_narrow: { Self → Type 0 };

    // the value that has this row, if one has it
    ghost in_row: { Row → Self };

    /// The table.
    fn table() -> StoreTable
        ensures { result ≡ table };

    /// Writes the row over another one.
    fn write(&self, out: &mut Row) -> Result<(), StoreError>
        ensures ok { OnOk result ((out.new ≡ stored self.now) × is_narrow self.now) }
        ensures refused { IsErrOf result Unstorable → is_narrow self.now → ⊥ }
        ensures plain { IfErr result (λ error. IsTrue (is_plain error)) };

    /// The value that has this row, if one has it.
    fn take(alloc: Global, from: &Row) -> Result<Self, AllocError>
        ensures { IfOk result (λ it. it ≡ in_row from.now) };

    ghost is_row: { (it : Self) → IsRowOf table (stored it) };

    ghost comes_back: { (it : Self) → is_narrow it → in_row (stored it) ≡ it };
}

/// The record that has this row, if there is one.
pub fn read_record<R: Record>(alloc: Global, from: &Row) -> Result<Option<R>, StoreError>
    ensures found { IfOk result (λ found. IfSome found (λ it. (R.stored it ≡ from.now)
        × R.is_narrow it)) }
    ensures missing { IfOk result (λ found. IfNone found
        ((it : R) → R.is_narrow it → R.stored it ≡ from.now → ⊥)) }
    ensures failed { IfErr result (λ error. error ≡ OutOfMemory) }
{
    let it = R::take(alloc, from)?;
    let mut again = Row::new(alloc);
    match it.write(&mut again) {
        Ok(()) => {}
        Err(StoreError::Unstorable) => return Ok(None),
        // Nothing else is left.
        Err(_) => return Err(StoreError::OutOfMemory),
    }
    if again.is_same(from) {
        Ok(Some(it))
    } else {
        Ok(None)
    }
}
