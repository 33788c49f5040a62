//! Which database is a store.

ghost use Rattle.std.specs.Prelude.{◌≡◌, ◌≤◌, ◌↔◌, IsTrue, IfNone, IfSome};
ghost use Rattle.std.specs.List.{AllByRecursion};
ghost use Rattle.desk_store.specs.Layout.{AreStoreTrees, HasColumnForm, HasNoRule, HaveColumns, HaveForms, IsStoreSchema, IsStoreTable, IsTableOf};
ghost use Rattle.desk_store.specs.Tables.{columns_of, required, optional, tree_of};

use crate::table::{ColumnForm, StoreTable};
use sqlite_schema::schema::{Column, Kind, Schema, Table};
use sqlite_trees::store::{Shape, Store};

// A column of this type, in which no value is missing.
fn required(kind: Kind) -> ColumnForm
    ensures { result ≡ required kind }
{
    ColumnForm {
        kind,
        may_be_null: false,
    }
}

// A column of this type, in which a value may be missing.
fn optional(kind: Kind) -> ColumnForm
    ensures { result ≡ optional kind }
{
    ColumnForm {
        kind,
        may_be_null: true,
    }
}

fn has_form(column: &Column, form: ColumnForm) -> bool
    ensures { IsTrue result ↔ HasColumnForm column.now form }
{
    column.is_strict && column.kind == form.kind && column.not_null == !form.may_be_null
}

fn have_forms(columns: &[Column], forms: &[ColumnForm]) -> bool
    ensures { IsTrue result ↔ HaveForms columns.now forms.now }
{
    let Some((column, columns)) = columns.split_first() else {
        return forms.is_empty();
    };
    let Some((form, forms)) = forms.split_first() else {
        return false;
    };
    has_form(column, *form) && have_forms(columns, forms)
}

fn have_columns(columns: &[Column], table: StoreTable) -> bool
    ensures { IsTrue result ↔ HaveColumns columns.now (columns_of table) }
{
    let Some((_, others)) = columns.split_first() else {
        return false;
    };
    have_other_columns(others, table)
}

// The columns behind the key.
fn have_other_columns(columns: &[Column], table: StoreTable) -> bool
    ensures { IsTrue result ↔ HaveForms columns.now (columns_of table) }
{
    let number = required(Kind::Integer);
    let text = required(Kind::Text);
    let blob = required(Kind::Blob);
    let missing = optional(Kind::Integer);
    let list = optional(Kind::Blob);
    match table {
        StoreTable::Tenant => have_forms(columns, &[number, text, number, number]),
        StoreTable::Job => have_forms(columns, &[number, number, text, number, blob, blob]),
        StoreTable::Outcome => have_forms(
            columns,
            &[number, number, missing, missing, missing, list, list],
        ),
        StoreTable::Desk => have_forms(columns, &[number]),
        StoreTable::Key => have_forms(columns, &[number, number, text]),
    }
}

fn has_no_rule(table: &Table) -> bool
    ensures { IsTrue result ↔ HasNoRule table.now }
{
    table.checks.roots.is_empty() && table.references.is_empty() && table.computed.is_empty()
}

fn table_of(tree: u32) -> Option<StoreTable>
    ensures some { IfSome result (λ table. tree ≡ tree_of table) }
    ensures none { IfNone result (5 ≤ tree) }
{
    match tree {
        0 => Some(StoreTable::Tenant),
        1 => Some(StoreTable::Job),
        2 => Some(StoreTable::Outcome),
        3 => Some(StoreTable::Desk),
        4 => Some(StoreTable::Key),
        _ => None,
    }
}

fn is_table_of(table: &Table, of: StoreTable) -> bool
    ensures { IsTrue result ↔ IsTableOf table.now of }
{
    table.tree == of.tree()
        && table.name.as_slice() == of.name()
        && table.key == Some(0)
        && have_columns(table.columns.as_slice(), of)
        && has_no_rule(table)
}

fn is_store_table(table: &Table) -> bool
    ensures { IsTrue result ↔ IsStoreTable table.now }
{
    match table_of(table.tree) {
        Some(of) => is_table_of(table, of),
        None => false,
    }
}

fn are_store_tables(tables: &[Table]) -> bool
    ensures { IsTrue result ↔ AllByRecursion IsStoreTable tables.now }
{
    let Some((first, others)) = tables.split_first() else {
        return true;
    };
    is_store_table(first) && are_store_tables(others)
}

/// Whether the schema has tables of a store alone.
pub(crate) fn is_store_schema(schema: &Schema) -> bool
    ensures { IsTrue result ↔ IsStoreSchema schema.now }
{
    are_store_tables(schema.tables.as_slice()) && schema.indexes.is_empty()
}

/// Whether each table is there.
pub(crate) fn are_store_trees<S: Store>(store: &S) -> bool
    ensures { IsTrue result ↔ AreStoreTrees (S.Store.view store.now).shape }
{
    store.shape(0) == Shape::Table
        && store.shape(1) == Shape::Table
        && store.shape(2) == Shape::Table
        && store.shape(3) == Shape::Table
        && store.shape(4) == Shape::Table
}
