//! The reasons why rows aren't loaded, and why no store is opened.

use crate::file_kinds::FileKind;
use crate::table::StoreTable;
use sqlite::Error;
use sqlite_trees::error::StoreError;
use std::alloc::{AllocError, AllocFailed};
use std::io;

/// The reason why rows aren't loaded.
#[derive(Clone, Copy, Debug)]
pub enum LoadFault {
    /// The store refused, or memory was wanting.
    Store(StoreError),
    /// The row with this key is no record's.
    Damaged(StoreTable, i64),
}

impl From<StoreError> for LoadFault {
    ghost use Rattle.std.specs.Prelude.{◌≡◌};
    ghost use Rattle.desk_store.specs.declared.fault.LoadFault.TheVariants.{Store};

    ghost from_gives = { λ error fault. fault ≡ Store error };

    fn from(error: StoreError) -> LoadFault {
        LoadFault::Store(error)
    }
}

impl From<AllocError> for LoadFault {
    ghost use Rattle.std.specs.Prelude.{◌≡◌};
    ghost use Rattle.desk_store.specs.declared.fault.LoadFault.TheVariants.{Store};
    ghost use Rattle.sqlite_trees.specs.declared.error.StoreError.TheVariants.{OutOfMemory};

    ghost from_gives = { λ _ fault. fault ≡ Store OutOfMemory };

    fn from(_error: AllocError) -> LoadFault {
        LoadFault::Store(StoreError::OutOfMemory)
    }
}

impl<T: Drop> From<AllocFailed<T>> for LoadFault {
    ghost use Rattle.std.specs.Prelude.{◌≡◌};
    ghost use Rattle.desk_store.specs.declared.fault.LoadFault.TheVariants.{Store};
    ghost use Rattle.sqlite_trees.specs.declared.error.StoreError.TheVariants.{OutOfMemory};

    ghost from_gives = { λ _ fault. fault ≡ Store OutOfMemory };

    fn from(_error: AllocFailed<T>) -> LoadFault {
        LoadFault::Store(StoreError::OutOfMemory)
    }
}

/// The reason why no store is opened.
#[derive(Debug, Drop)]
pub enum StoreOpenFault {
    /// The system refused.
    System(io::Error),
    /// A folder, a device or the like, and no regular file.
    NoRegularFile,
    /// A link that leads nowhere.
    LostLink,
    /// The file is something else, and is left as it is.
    NoStore(FileKind),
    /// No database can be opened there, or it failed.
    Sqlite(Error),
    /// Its version can't be written.
    Store(StoreError),
    /// It is a database, and its tables aren't those of a store.
    OtherTables,
}

impl From<io::Error> for StoreOpenFault {
    fn from(error: io::Error) -> StoreOpenFault {
        StoreOpenFault::System(error)
    }
}

impl From<Error> for StoreOpenFault {
    fn from(error: Error) -> StoreOpenFault {
        StoreOpenFault::Sqlite(error)
    }
}
