//! The changes of tenants and jobs, made of the rows.

ghost use Rattle.std.specs.Prelude.{◌≡◌, ◌≤◌, pos, All, IfErr, OnErr, OnOk};
ghost use Rattle.sqlite_trees.specs.View.{doubt};
ghost use Rattle.desk_store.specs.RowStores.{CanStore, FailsFor, IsBetween, IsCalm, IsHonest, IsStoreOpen, IsUndone, MayLeaveAlso, kept_in, now_in, reals_in};
ghost use Rattle.desk_records.specs.Columns.{id_of};
ghost use Rattle.desk_records.specs.Changes.{CanNote, CanWrite, GoesOn, IsNarrowChange, IsNarrowDropped, IsNarrowNoted, IsNarrowNumber, all_changed, changed, with_noted, with_row, without_dropped, without_jobs, without_rows};
ghost use Rattle.desk_records.specs.declared.stored_change.StoredChange.TheVariants.{Forgotten, Settled, Taken};

use crate::columns::stored_id;
use crate::stored_change::{ForgottenJobs, NotedKey, SettledJob, StoredChange, TakenJob};
use desk_store::{Record, RowStore, StoreTable};
use sqlite_trees::error::StoreError;
use sqlite_trees::store::Store;
use sqlite_value::row::Row;
use std::alloc::Global;

// Puts the row of a record. A failure undoes the batch.
fn put_record<S: Store, R: Record>(
    rows: &mut RowStore<S>,
    row: &mut Row,
    it: &R,
) -> Result<(), StoreError>
    ensures ok { OnOk result (IsHonest S.Store rows.new → GoesOn S.Store rows.old rows.new
        (with_row (now_in S.Store rows.old) R.table (R.stored it.now))) }
    ensures narrow { OnOk result (R.is_narrow it.now) }
    ensures err { OnErr result (IsHonest S.Store rows.new → IsUndone S.Store rows.old rows.new) }
    ensures cause { IsHonest S.Store rows.new → IfErr result (FailsFor S.Store
        (R.is_narrow it.now × CanStore (reals_in S.Store rows.old) R.table (R.stored it.now) → ⊥) rows.old rows.new) }
    ensures calm { IsCalm S.Store rows.old rows.new }
{
    match it.write(row) {
        Ok(()) => rows.put(R::table(), row),
        Err(error) => {
            rows.rollback();
            Err(error)
        }
    }
}

// Takes out the row of a job in two tables. A failure undoes the batch.
fn remove_rows<S: Store>(rows: &mut RowStore<S>, id: i64) -> Result<(), StoreError>
    ensures ok { OnOk result (IsHonest S.Store rows.new → GoesOn S.Store rows.old rows.new
        (without_rows (now_in S.Store rows.old) id)) }
    ensures err { OnErr result (IsHonest S.Store rows.new → IsUndone S.Store rows.old rows.new) }
    ensures cause { IsHonest S.Store rows.new → IfErr result (FailsFor S.Store
        ⊥ rows.old rows.new) }
    ensures calm { IsCalm S.Store rows.old rows.new }
{
    match rows.remove(StoreTable::Job, id) {
        Ok(()) => {}
        Err(error) => return Err(error),
    }
    match rows.remove(StoreTable::Outcome, id) {
        Ok(()) => Ok(()),
        Err(error) => Err(error),
    }
}

// Takes out the rows of a desk's job of this number. A failure undoes the batch.
fn remove_job<S: Store>(rows: &mut RowStore<S>, desk: u16, number: u64) -> Result<(), StoreError>
    ensures ok { OnOk result (IsHonest S.Store rows.new → GoesOn S.Store rows.old rows.new
        (without_rows (now_in S.Store rows.old) (pos (id_of desk number)))) }
    ensures narrow { OnOk result (IsNarrowNumber number) }
    ensures err { OnErr result (IsHonest S.Store rows.new → IsUndone S.Store rows.old rows.new) }
    ensures cause { IsHonest S.Store rows.new → IfErr result (FailsFor S.Store
        (IsNarrowNumber number → ⊥) rows.old rows.new) }
    ensures calm { IsCalm S.Store rows.old rows.new }
{
    match stored_id(desk, number) {
        Ok(id) => remove_rows(rows, id),
        Err(error) => {
            rows.rollback();
            Err(error)
        }
    }
}

// Takes out the rows of a desk's jobs of these numbers. A failure undoes the batch.
fn remove_jobs<S: Store>(
    rows: &mut RowStore<S>,
    desk: u16,
    numbers: &[u64],
) -> Result<(), StoreError>
    ensures ok { OnOk result (IsHonest S.Store rows.new → GoesOn S.Store rows.old rows.new
        (without_jobs (now_in S.Store rows.old) desk numbers.now)) }
    ensures narrow { OnOk result (All IsNarrowNumber numbers.now) }
    ensures err { OnErr result (IsHonest S.Store rows.new → IsUndone S.Store rows.old rows.new) }
    ensures cause { IsHonest S.Store rows.new → IfErr result (FailsFor S.Store
        (All IsNarrowNumber numbers.now → ⊥) rows.old rows.new) }
    ensures calm { IsCalm S.Store rows.old rows.new }
{
    for number in numbers {
        remove_job(rows, desk, *number)?;
    }
    Ok(())
}

// Takes out the row of a key that is not remembered any more. A failure undoes the batch.
fn drop_key<S: Store>(
    rows: &mut RowStore<S>,
    desk: u16,
    dropped: Option<u64>,
) -> Result<(), StoreError>
    ensures ok { OnOk result (IsHonest S.Store rows.new → GoesOn S.Store rows.old rows.new
        (without_dropped (now_in S.Store rows.old) desk dropped)) }
    ensures narrow { OnOk result (IsNarrowDropped dropped) }
    ensures err { OnErr result (IsHonest S.Store rows.new → IsUndone S.Store rows.old rows.new) }
    ensures cause { IsHonest S.Store rows.new → IfErr result (FailsFor S.Store
        (IsNarrowDropped dropped → ⊥) rows.old rows.new) }
    ensures calm { IsCalm S.Store rows.old rows.new }
{
    let Some(number) = dropped else {
        return Ok(());
    };
    match stored_id(desk, number) {
        Ok(id) => rows.remove(StoreTable::Key, id),
        Err(error) => {
            rows.rollback();
            Err(error)
        }
    }
}

// Puts the row of a job's key, if it has one. A failure undoes the batch.
fn note_key<S: Store>(
    rows: &mut RowStore<S>,
    row: &mut Row,
    key: &Option<NotedKey>,
) -> Result<(), StoreError>
    ensures ok { OnOk result (IsHonest S.Store rows.new → GoesOn S.Store rows.old rows.new
        (with_noted (now_in S.Store rows.old) key.now)) }
    ensures narrow { OnOk result (IsNarrowNoted key.now) }
    ensures err { OnErr result (IsHonest S.Store rows.new → IsUndone S.Store rows.old rows.new) }
    ensures cause { IsHonest S.Store rows.new → IfErr result (FailsFor S.Store
        (CanNote (reals_in S.Store rows.old) key.now → ⊥) rows.old rows.new) }
    ensures calm { IsCalm S.Store rows.old rows.new }
{
    let Some(noted) = key else {
        return Ok(());
    };
    match put_record(rows, row, &noted.key) {
        Ok(()) => {}
        Err(error) => return Err(error),
    }
    drop_key(rows, noted.key.desk, noted.dropped)
}

// Puts the row of a job, and that of its key. A failure undoes the batch.
fn take_job<S: Store>(
    rows: &mut RowStore<S>,
    row: &mut Row,
    taken: &TakenJob,
) -> Result<(), StoreError>
    ensures ok { OnOk result (IsHonest S.Store rows.new → GoesOn S.Store rows.old rows.new
        (changed (now_in S.Store rows.old) (Taken taken.now))) }
    ensures narrow { OnOk result (IsNarrowChange (Taken taken.now)) }
    ensures err { OnErr result (IsHonest S.Store rows.new → IsUndone S.Store rows.old rows.new) }
    ensures cause { IsHonest S.Store rows.new → IfErr result (FailsFor S.Store
        (CanWrite (reals_in S.Store rows.old) (Taken taken.now) → ⊥) rows.old rows.new) }
    ensures calm { IsCalm S.Store rows.old rows.new }
{
    match put_record(rows, row, &taken.job) {
        Ok(()) => {}
        Err(error) => return Err(error),
    }
    note_key(rows, row, &taken.key)
}

// Puts the row of an outcome, and that of the job's tenant. A failure undoes the batch.
fn settle_job<S: Store>(
    rows: &mut RowStore<S>,
    row: &mut Row,
    settled: &SettledJob,
) -> Result<(), StoreError>
    ensures ok { OnOk result (IsHonest S.Store rows.new → GoesOn S.Store rows.old rows.new
        (changed (now_in S.Store rows.old) (Settled settled.now))) }
    ensures narrow { OnOk result (IsNarrowChange (Settled settled.now)) }
    ensures err { OnErr result (IsHonest S.Store rows.new → IsUndone S.Store rows.old rows.new) }
    ensures cause { IsHonest S.Store rows.new → IfErr result (FailsFor S.Store
        (CanWrite (reals_in S.Store rows.old) (Settled settled.now) → ⊥) rows.old rows.new) }
    ensures calm { IsCalm S.Store rows.old rows.new }
{
    match put_record(rows, row, &settled.outcome) {
        Ok(()) => {}
        Err(error) => return Err(error),
    }
    match put_record(rows, row, &settled.tenant) {
        Ok(()) => Ok(()),
        Err(error) => Err(error),
    }
}

// Takes out the rows of jobs, and puts that of their desk. A failure undoes the batch.
fn forget_jobs<S: Store>(
    rows: &mut RowStore<S>,
    row: &mut Row,
    forgotten: &ForgottenJobs,
) -> Result<(), StoreError>
    ensures ok { OnOk result (IsHonest S.Store rows.new → GoesOn S.Store rows.old rows.new
        (changed (now_in S.Store rows.old) (Forgotten forgotten.now))) }
    ensures narrow { OnOk result (IsNarrowChange (Forgotten forgotten.now)) }
    ensures err { OnErr result (IsHonest S.Store rows.new → IsUndone S.Store rows.old rows.new) }
    ensures cause { IsHonest S.Store rows.new → IfErr result (FailsFor S.Store
        (CanWrite (reals_in S.Store rows.old) (Forgotten forgotten.now) → ⊥) rows.old rows.new) }
    ensures calm { IsCalm S.Store rows.old rows.new }
{
    match remove_jobs(rows, forgotten.desk.desk, forgotten.numbers.as_slice()) {
        Ok(()) => {}
        Err(error) => return Err(error),
    }
    match put_record(rows, row, &forgotten.desk) {
        Ok(()) => Ok(()),
        Err(error) => Err(error),
    }
}

/// Makes a change within the batch. A failure undoes the batch.
pub fn write_change<S: Store>(
    rows: &mut RowStore<S>,
    row: &mut Row,
    change: &StoredChange,
) -> Result<(), StoreError>
    ensures ok { OnOk result (IsHonest S.Store rows.new → GoesOn S.Store rows.old rows.new
        (changed (now_in S.Store rows.old) change.now)) }
    ensures narrow { OnOk result (IsNarrowChange change.now) }
    ensures err { OnErr result (IsHonest S.Store rows.new → IsUndone S.Store rows.old rows.new) }
    ensures cause { IsHonest S.Store rows.new → IfErr result (FailsFor S.Store
        (CanWrite (reals_in S.Store rows.old) change.now → ⊥) rows.old rows.new) }
    ensures calm { IsCalm S.Store rows.old rows.new }
{
    match change {
        StoredChange::Granted(tenant) => put_record(rows, row, tenant),
        StoredChange::Taken(taken) => take_job(rows, row, taken),
        StoredChange::Settled(settled) => settle_job(rows, row, settled),
        StoredChange::Forgotten(forgotten) => forget_jobs(rows, row, forgotten),
    }
}

// Makes the changes within the batch, in order. A failure undoes the batch.
fn write_all<S: Store>(
    rows: &mut RowStore<S>,
    row: &mut Row,
    changes: &[StoredChange],
) -> Result<(), StoreError>
    ensures ok { OnOk result (IsHonest S.Store rows.new → GoesOn S.Store rows.old rows.new
        (all_changed (now_in S.Store rows.old) changes.now)) }
    ensures narrow { OnOk result (All IsNarrowChange changes.now) }
    ensures err { OnErr result (IsHonest S.Store rows.new → IsUndone S.Store rows.old rows.new) }
    ensures cause { IsHonest S.Store rows.new → IfErr result (FailsFor S.Store
        (All (CanWrite (reals_in S.Store rows.old)) changes.now → ⊥) rows.old rows.new) }
    ensures calm { IsCalm S.Store rows.old rows.new }
{
    for change in changes {
        write_change(rows, row, change)?;
    }
    Ok(())
}

/// Makes the changes, in order, and writes them to the disk: all of them, or none.
pub fn write_batch<S: Store>(
    alloc: Global,
    rows: &mut RowStore<S>,
    changes: &[StoredChange],
) -> Result<(), StoreError>
    requires { IsHonest S.Store rows.old → IsBetween S.Store rows.old }
    ensures ok { OnOk result (IsHonest S.Store rows.new → IsStoreOpen S.Store rows.old
        × IsStoreOpen S.Store rows.new
        × (kept_in S.Store rows.new ≡ all_changed (kept_in S.Store rows.old) changes.now)) }
    ensures narrow { OnOk result (All IsNarrowChange changes.now) }
    ensures err { OnErr result (IsHonest S.Store rows.new → IsUndone S.Store rows.old rows.new) }
    ensures cause { IsHonest S.Store rows.new → IfErr result (FailsFor S.Store
        (All (CanWrite (reals_in S.Store rows.old)) changes.now → ⊥) rows.old rows.new) }
    // A crash leaves what it could leave before, or the whole batch.
    ensures crash { IsHonest S.Store rows.new → IsStoreOpen S.Store rows.old
        → MayLeaveAlso S.Store rows.old rows.new
        (all_changed (kept_in S.Store rows.old) changes.now) }
    ensures between { IsHonest S.Store rows.new → IsBetween S.Store rows.new }
    ensures falls { doubt (S.Store.view rows.old).is_clean
        ≤ doubt (S.Store.view rows.new).is_clean }
{
    let mut row = Row::new(alloc);
    match write_all(rows, &mut row, changes) {
        Ok(()) => {}
        Err(error) => return Err(error),
    }
    rows.commit()
}
