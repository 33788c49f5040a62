//! Single calls on the rows of a table.

ghost use Rattle.std.specs.Prelude.{◌≡◌, All, map, false, IsTrue, IfOk, OnOk, OnErr, IfErr};
ghost use Rattle.sqlite_trees.specs.declared.store.Shape.TheVariants.{Table as TableTree};
ghost use Rattle.sqlite_trees.specs.Tree.{put_row, rowid, without_rowid};
ghost use Rattle.sqlite_trees.specs.View.{HasCause, IsClean, IsQuiet, IsStorableRow, SetsTree, is_int};
ghost use Rattle.sqlite_disk.specs.Disk.{MoreFaults};
ghost use Rattle.sqlite_exec.specs.Calls.{OnlyReads};
ghost use Rattle.sqlite_rules.specs.Edit.{id_in};
ghost use Rattle.sqlite_value.specs.Order.{column};
ghost use Rattle.desk_store.specs.RowStores.{KeepsCommit};
ghost use Rattle.desk_store.specs.Loading.{IfStoreFault, IsDamage};

use crate::fault::LoadFault;
use crate::record::{Record, read_record};
use sqlite_trees::error::StoreError;
use sqlite_trees::store::{Direction, Store};
use sqlite_value::row::Row;
use sqlite_value::value::ValueRef;
use std::alloc::Global;

/// Puts a row into a tree, in place of one with its key.
pub(crate) fn put<S: Store>(store: &mut S, tree: u32, row: &Row) -> Result<(), StoreError>
    requires table { IsClean (S.Store.view store.old)
        → (S.Store.view store.old).shape tree ≡ TableTree }
    requires keyed { IsTrue (is_int (rowid row.now)) }
    ensures ok { OnOk result (IsClean (S.Store.view store.new)
        → SetsTree (S.Store.view store.old) (S.Store.view store.new) tree (put_row row.now)) }
    ensures err { OnErr result (IsClean (S.Store.view store.new)
        → KeepsCommit (S.Store.view store.old) (S.Store.view store.new)) }
    ensures cause { IsClean (S.Store.view store.new) → IfErr result (HasCause
        (S.Store.view store.old) (MoreFaults (S.Store.faults store.old) (S.Store.faults store.new))
        (IsStorableRow ((S.Store.view store.old).reals tree) row.now → ⊥)) }
    ensures quiet { IsQuiet S.Store.view S.Store.faults S.Store.recovers S.Store.is_shielded
        store.old store.new }
{
    store.put(tree, row)
}

/// Takes the row with this key out of a tree.
pub(crate) fn remove<S: Store>(store: &mut S, tree: u32, key: i64) -> Result<(), StoreError>
    requires { IsClean (S.Store.view store.old)
        → (S.Store.view store.old).shape tree ≡ TableTree }
    ensures ok { OnOk result (IsClean (S.Store.view store.new)
        → SetsTree (S.Store.view store.old) (S.Store.view store.new) tree (without_rowid key)) }
    ensures err { OnErr result (IsClean (S.Store.view store.new)
        → KeepsCommit (S.Store.view store.old) (S.Store.view store.new)) }
    ensures cause { IsClean (S.Store.view store.new) → IfErr result (HasCause
        (S.Store.view store.old) (MoreFaults (S.Store.faults store.old) (S.Store.faults store.new))
        ⊥) }
    ensures quiet { IsQuiet S.Store.view S.Store.faults S.Store.recovers S.Store.is_shielded
        store.old store.new }
{
    store.delete(tree, key)
}

// The key of a row.
fn key_in(row: &Row) -> i64
    ensures { result ≡ id_in (column row.now 0) }
{
    match row.get(0) {
        ValueRef::Int(key) => key,
        _ => 0,
    }
}

/// Each row of a tree as a record, in the order of their keys.
pub(crate) fn read_all<S: Store, R: Record>(
    store: &mut S,
    alloc: Global,
    row: &mut Row,
    tree: u32,
) -> Result<Vec<R>, LoadFault>
    requires { IsClean (S.Store.view store.old)
        → (S.Store.view store.old).shape tree ≡ TableTree }
    ensures ok { IfOk result (λ all. IsClean (S.Store.view store.new)
        → map R.stored all.items ≡ (S.Store.view store.old).trees tree) }
    ensures narrow { IfOk result (λ all. All R.is_narrow all.items) }
    ensures damage { IfErr result (λ fault. IsClean (S.Store.view store.new)
        → IsDamage R.table R.stored R.is_narrow ((S.Store.view store.old).trees tree) fault) }
    ensures same { OnOk result (IsClean (S.Store.view store.new)
        → OnlyReads (S.Store.view store.old) (S.Store.view store.new)) }
    ensures sound { OnOk result (IsClean (S.Store.view store.new)
        → (S.Store.view store.old).is_broken ≡ false) }
    ensures err { OnErr result (IsClean (S.Store.view store.new)
        → KeepsCommit (S.Store.view store.old) (S.Store.view store.new)) }
    ensures cause { IsClean (S.Store.view store.new) → IfErr result (IfStoreFault (HasCause
        (S.Store.view store.old) (MoreFaults (S.Store.faults store.old) (S.Store.faults store.new))
        ⊥)) }
    ensures quiet { IsQuiet S.Store.view S.Store.faults S.Store.recovers S.Store.is_shielded
        store.old store.new }
{
    row.clear();
    store.seek(0, tree, row, Direction::Forward)?;
    let mut all = Vec::new(alloc);
    // A disk that lies could keep a cursor going, so the loop counts.
    'rows: for _ in 0..u64::MAX {
        if !store.next(0, row)? {
            return Ok(all);
        }
        match read_record(alloc, row)? {
            Some(record) => all.push(record)?,
            None => return Err(LoadFault::Damaged(R::table(), key_in(row))),
        }
    }
    Err(LoadFault::Store(StoreError::OutOfMemory))
}
