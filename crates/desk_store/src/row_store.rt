//! Rows in a store, with one batch under way.

ghost use Rattle.std.specs.Prelude.{◌≡◌, ◌⊎◌, ◌≤◌, All, map, IsTrue, IfErr, IfNone, IfOk, IfSome, OnOk, OnErr};
ghost use Rattle.sqlite_trees.specs.Tree.{Trees, put_row, with_tree, without_rowid};
ghost use Rattle.sqlite_trees.specs.View.{doubt};
ghost use Rattle.desk_store.specs.Loading.{IfStoreFault, IsDamage};
ghost use Rattle.desk_store.specs.RowStores.{CanStore, CommitsBatch, FailsFor, IsCalm, IsHonest, IsNoStore, IsOpenedOver, IsRowStore, IsUndone, ChangesBatch, kept_in, now_in, reals_in};
ghost use Rattle.desk_store.specs.Tables.{IsRowOf, tree_of};
ghost use Rattle.sqlite.specs.Held.{state};

use crate::fault::LoadFault;
use crate::open::{are_store_trees, is_store_schema};
use crate::record::Record;
use crate::row_calls;
use crate::table::StoreTable;
use sqlite::{Alter, Connection};
use sqlite_trees::error::StoreError;
use sqlite_trees::store::Store;
use sqlite_value::row::Row;
use std::alloc::Global;
use std::marker::Model;

/// The tables of a store. What is put and removed is a batch, which `commit` writes as one.
/// Contracts see the store below.
#[derive(Drop)]
pub struct RowStore<S: Store> {
    store: S,
    row: Row,
    alloc: Global,
}

impl<S: Store> Model for RowStore<S> {
    ghost use Rattle.desk_store.specs.RowStores.{IsRowStore};

    ghost Value = { S };

    ghost coded = { S.code };

    ghost view = { λ d. d.store };

    ghost invariant = { λ d. IsRowStore (S.Store.view d.store) (S.Store.recovers d.store) };
}

impl<S: Alter + Drop> RowStore<S> {
    /// Takes a connection's store, where its schema has the tables of a store and no other rule.
    pub fn over(alloc: Global, conn: Connection<S>) -> Option<RowStore<S>>
        ensures found { IfSome result (λ d. IsHonest S.Store d
            → IsOpenedOver S.Store d (state S.Store conn).committed.trees) }
        ensures calm { IfSome result (λ d. IsCalm S.Store conn.store d) }
        ensures none { IfNone result (IsNoStore S.Store conn) }
    {
        if !conn.is_autocommit() {
            return None;
        }
        if !is_store_schema(conn.schema()) {
            return None;
        }
        let store = conn.into_store();
        if store.is_broken() {
            return None;
        }
        if !are_store_trees(&store) {
            return None;
        }
        Some(RowStore {
            store,
            row: Row::new(alloc),
            alloc,
        })
    }
}

impl<S: Store> RowStore<S> {
    /// The store below, of which this keeps true what it needs, also over a crash.
    pub fn store(&self) -> &S
        ensures value { result.now ≡ self.now }
        ensures rows { IsRowStore (S.Store.view self.now) (S.Store.recovers self.now) }
    {
        &self.store
    }

    /// Puts a row into the batch, in place of one with its key. A failure undoes the batch.
    pub fn put(&mut self, table: StoreTable, row: &Row) -> Result<(), StoreError>
        requires { IsRowOf table row.now }
        ensures ok { OnOk result (IsHonest S.Store self.new → ChangesBatch S.Store self.old self.new
            (with_tree (now_in S.Store self.old) (tree_of table)
            (put_row row.now (now_in S.Store self.old (tree_of table))))) }
        ensures err { OnErr result (IsHonest S.Store self.new
            → IsUndone S.Store self.old self.new) }
        ensures cause { IsHonest S.Store self.new → IfErr result (FailsFor S.Store
            (CanStore (reals_in S.Store self.old) table row.now → ⊥) self.old self.new) }
        ensures calm { IsCalm S.Store self.old self.new }
    {
        match row_calls::put(&mut self.store, table.tree(), row) {
            Ok(()) => Ok(()),
            Err(error) => {
                self.store.rollback();
                Err(error)
            }
        }
    }

    /// Takes the row with this key out, if there is one. A failure undoes the batch.
    pub fn remove(&mut self, table: StoreTable, key: i64) -> Result<(), StoreError>
        ensures ok { OnOk result (IsHonest S.Store self.new → ChangesBatch S.Store self.old self.new
            (with_tree (now_in S.Store self.old) (tree_of table)
            (without_rowid key (now_in S.Store self.old (tree_of table))))) }
        ensures err { OnErr result (IsHonest S.Store self.new
            → IsUndone S.Store self.old self.new) }
        ensures cause { IsHonest S.Store self.new → IfErr result (FailsFor S.Store
            ⊥ self.old self.new) }
        ensures calm { IsCalm S.Store self.old self.new }
    {
        match row_calls::remove(&mut self.store, table.tree(), key) {
            Ok(()) => Ok(()),
            Err(error) => {
                self.store.rollback();
                Err(error)
            }
        }
    }

    /// The records of a table, in the order of their keys. A failure undoes the batch.
    pub fn load<R: Record>(&mut self) -> Result<Vec<R>, LoadFault>
        ensures all { IfOk result (λ all. IsHonest S.Store self.new
            → map R.stored all.items ≡ now_in S.Store self.old (tree_of R.table)) }
        ensures narrow { IfOk result (λ all. All R.is_narrow all.items) }
        ensures damage { IfErr result (λ fault. IsHonest S.Store self.new
            → IsDamage R.table R.stored R.is_narrow
            (now_in S.Store self.old (tree_of R.table)) fault) }
        ensures same { OnOk result (IsHonest S.Store self.new
            → ChangesBatch S.Store self.old self.new (now_in S.Store self.old)) }
        ensures err { OnErr result (IsHonest S.Store self.new
            → IsUndone S.Store self.old self.new) }
        ensures cause { IsHonest S.Store self.new → IfErr result (IfStoreFault (FailsFor S.Store ⊥
            self.old self.new)) }
        ensures calm { IsCalm S.Store self.old self.new }
    {
        let tree = R::table().tree();
        match row_calls::read_all(&mut self.store, self.alloc, &mut self.row, tree) {
            Ok(all) => Ok(all),
            Err(fault) => {
                self.store.rollback();
                Err(fault)
            }
        }
    }

    /// Writes the batch to the disk, whole or not at all. A failure undoes it.
    pub fn commit(&mut self) -> Result<(), StoreError>
        ensures ok { OnOk result (IsHonest S.Store self.new
            → CommitsBatch S.Store self.old self.new) }
        ensures err { OnErr result (IsHonest S.Store self.new
            → IsUndone S.Store self.old self.new) }
        ensures cause { IsHonest S.Store self.new → IfErr result (FailsFor S.Store
            ⊥ self.old self.new) }
        // A crash leaves what it could leave before, or the whole batch.
        ensures crash { IsHonest S.Store self.new → (db : Trees) → S.Store.recovers self.new db
            → S.Store.recovers self.old db ⊎ (db ≡ now_in S.Store self.old) }
        ensures falls { doubt (S.Store.view self.old).is_clean
            ≤ doubt (S.Store.view self.new).is_clean }
    {
        match self.store.commit() {
            Ok(()) => Ok(()),
            Err(error) => Err(error),
        }
    }

    /// Undoes the batch.
    pub fn rollback(&mut self)
        ensures undone { IsHonest S.Store self.new → IsUndone S.Store self.old self.new }
        ensures calm { IsCalm S.Store self.old self.new }
    {
        self.store.rollback();
    }
}
