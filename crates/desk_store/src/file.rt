//! A store of rows in the files at a path.

ghost use Rattle.std.specs.Prelude.{IfErr, IfOk};
ghost use Rattle.sqlite_wal.specs.Files.{image_at};
ghost use Rattle.sqlite.specs.Files.{over_files};
ghost use Rattle.sqlite_store.specs.FileStore as store;
ghost use Rattle.desk_store.specs.RowStores.{IsHonest};
ghost use Rattle.desk_store.specs.Found.{IsFoundAgain, IsOpenedBy, OpensAt, RefusesOpen};

use crate::fault::StoreOpenFault;
use crate::file_kinds::FileKind;
use crate::row_store::RowStore;
use crate::system_files::StoreFiles;
use sqlite::{FileFrom, FileStore, Start};
use sqlite_trees::store::Alter;

/// Opens a store, and makes it where there is no file, or a blank one. `start` stands for the
/// contents of the files. Anything else at the path is left as it is.
pub fn open_store<S: Alter + Drop, T: Drop, F: StoreFiles<S, T>>(
    rt: &HostRuntime,
    path: &str,
    start: T,
) -> Result<RowStore<S>, StoreOpenFault>
    ensures opened { IfOk result (IsOpenedBy S.Store F.opens) }
    ensures refused { IfErr result (RefusesOpen S.Store F.finds F.fails F.opens) }
{
    match F::kind(rt, path)? {
        FileKind::Blank => F::make(rt, path)?,
        FileKind::Store => {}
        other => return Err(StoreOpenFault::NoStore(other)),
    }
    let conn = F::open(rt, path, start)?;
    match RowStore::over(rt.alloc(), conn) {
        Some(rows) => Ok(rows),
        None => Err(StoreOpenFault::OtherTables),
    }
}

/// Opens the files that a run before left, which may have ended at any moment. The run finds a
/// database that the one before could leave.
pub fn open_again<S: Start, T: Start + Drop, R: Alter + Drop, F: StoreFiles<R, T>>(
    before: RowStore<FileStore<FileFrom<S>>>,
    rt: &HostRuntime,
    path: &str,
    start: T,
) -> Result<RowStore<R>, StoreOpenFault>
    requires { OpensAt R.Store (image_at T.Start) F.opens }
    ensures found { IfOk result (λ rows. IsHonest over_files before → IsHonest R.Store rows
        → (store.state before).may_leave (image_at T.Start) → IsFoundAgain R.Store before rows) }
    ensures refused { IfErr result (RefusesOpen R.Store F.finds F.fails F.opens) }
{
    let _store = before.store();
    drop(before);
    open_store::<R, T, F>(rt, path, start)
}
