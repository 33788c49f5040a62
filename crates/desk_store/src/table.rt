//! The tables of a file, and the forms of their columns.

ghost use Rattle.std.specs.Prelude.{◌≡◌};
ghost use Rattle.desk_store.specs.Tables.{table_name, tree_of};

use sqlite_schema::schema::Kind;

/// A table of the file. The first column of each is an INTEGER PRIMARY KEY.
#[derive(Clone, Copy, Debug, PartialEq, Eq)]
pub enum StoreTable {
    /// The tenants of each desk, with their grants.
    Tenant,
    /// The jobs that aren't forgotten.
    Job,
    /// The outcomes of the jobs that are over.
    Outcome,
    /// The desks of which a job is forgotten.
    Desk,
    /// The keys by which jobs are remembered.
    Key,
}

/// The type of a column, and whether a value may be missing in it.
#[derive(Clone, Copy, Debug, PartialEq, Eq)]
pub struct ColumnForm {
    pub kind: Kind,
    pub may_be_null: bool,
}

impl StoreTable {
    /// The number of its tree in the file, from 0.
    pub fn tree(self) -> u32
        ensures { result ≡ tree_of self }
    {
        match self {
            StoreTable::Tenant => 0,
            StoreTable::Job => 1,
            StoreTable::Outcome => 2,
            StoreTable::Desk => 3,
            StoreTable::Key => 4,
        }
    }

    /// Its name in SQL.
    pub fn name(self) -> &'static [u8]
        ensures { result.now ≡ table_name self }
    {
        match self {
            StoreTable::Tenant => b"tenant",
            StoreTable::Job => b"job",
            StoreTable::Outcome => b"outcome",
            StoreTable::Desk => b"desk",
            StoreTable::Key => b"job_key",
        }
    }
}
