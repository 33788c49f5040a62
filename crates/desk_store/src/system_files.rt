//! What is done with the files of a store: the database at a path, and its log beside it.

ghost use Rattle.std.specs.Prelude.{IfErr, MatchResult};

use crate::fault::StoreOpenFault;
use crate::file_kinds::{FIRST_BYTES, FileKind, STORE_VERSION, file_kind};
use sqlite::{Connection, FileFrom, FileStore, Start};
use sqlite_trees::error::StoreError;
use sqlite_trees::store::Alter;
use std::fs::{self, File};
use std::io::{self, ErrorKind, Read};

// SQLite's text of the tables. Other programs read them by these names.
const TABLES: &str = "BEGIN; \
CREATE TABLE tenant (id INTEGER PRIMARY KEY, desk INTEGER NOT NULL, name TEXT NOT NULL, \
granted INTEGER NOT NULL, spent INTEGER NOT NULL) STRICT; \
CREATE TABLE job (id INTEGER PRIMARY KEY, desk INTEGER NOT NULL, number INTEGER NOT NULL, \
tenant TEXT NOT NULL, credit INTEGER NOT NULL, programs BLOB NOT NULL, \
buffer BLOB NOT NULL) STRICT; \
CREATE TABLE outcome (id INTEGER PRIMARY KEY, desk INTEGER NOT NULL, number INTEGER NOT NULL, \
code INTEGER, spent INTEGER, returned INTEGER, buffer BLOB, tasks BLOB) STRICT; \
CREATE TABLE desk (number INTEGER PRIMARY KEY, taken INTEGER NOT NULL) STRICT; \
CREATE TABLE job_key (id INTEGER PRIMARY KEY, desk INTEGER NOT NULL, number INTEGER NOT NULL, \
key TEXT NOT NULL) STRICT; \
COMMIT";

/// The calls on the files of a store. Only a call tells what it found, or why it failed.
pub trait StoreFiles<S: Alter, T> {
    ghost use Rattle.desk_store.specs.declared.fault.StoreOpenFault.{StoreOpenFault};
    ghost use Rattle.desk_store.specs.declared.file_kinds.FileKind.{FileKind};
    ghost use Rattle.sqlite.specs.Held.{Held};

    // a look found a file of this kind
    ghost finds: { FileKind → Type 0 };

    // a call failed so
    ghost fails: { StoreOpenFault → Type 0 };

    // this connection was opened
    ghost opens: { Held S → Type 0 };

    /// The kind of the file at a path. Nothing is blank too.
    fn kind(rt: &HostRuntime, path: &str) -> Result<FileKind, StoreOpenFault>
        ensures { MatchResult result finds fails };

    /// Makes the tables where there are none.
    fn make(rt: &HostRuntime, path: &str) -> Result<(), StoreOpenFault>
        ensures { IfErr result fails };

    /// Opens the database. `start` stands for the contents of the files.
    fn open(rt: &HostRuntime, path: &str, start: T) -> Result<Connection<S>, StoreOpenFault>
        ensures { MatchResult result opens fails };
}

// The first bytes of a file. It is only read.
fn first_bytes(rt: &HostRuntime, path: &str) -> io::Result<Vec<u8>> {
    let mut bytes = Vec::new(rt.alloc());
    File::open(rt, path)?
        .take(FIRST_BYTES as u64)
        .read_to_end(&mut bytes)?;
    Ok(bytes)
}

// The kind of the file at a path. Nothing is blank too, but for a link that leads nowhere.
fn kind_at(rt: &HostRuntime, path: &str) -> Result<FileKind, StoreOpenFault> {
    match fs::metadata(rt, path) {
        Ok(found) if found.is_file() => Ok(file_kind(&first_bytes(rt, path)?)),
        Ok(_) => Err(StoreOpenFault::NoRegularFile),
        Err(error) if error.kind() == ErrorKind::NotFound => {
            match fs::symlink_metadata(rt, path) {
                Ok(_) => Err(StoreOpenFault::LostLink),
                Err(error) if error.kind() == ErrorKind::NotFound => Ok(FileKind::Blank),
                Err(error) => Err(StoreOpenFault::System(error)),
            }
        }
        Err(error) => Err(StoreOpenFault::System(error)),
    }
}

// Writes the version of the tables, where there is none, and lets the store go.
fn write_version<S: Alter + Drop>(mut store: S) -> Result<(), StoreError> {
    if store.version() == 0 {
        store.set_version(STORE_VERSION)?;
        store.commit()?;
    }
    Ok(())
}

// The same at a path, ahead of the tables: a file that has these has it.
fn make_version(rt: &HostRuntime, path: &str) -> Result<(), StoreOpenFault> {
    let conn = Connection::open(rt, path)?;
    match write_version(conn.into_store()) {
        Ok(()) => {}
        Err(error) => return Err(StoreOpenFault::Store(error)),
    }
    // The close copies it from the log into the file.
    Connection::open(rt, path)?.close()?;
    Ok(())
}

// Makes the tables where there are none, all of them or none.
fn make_tables(rt: &HostRuntime, path: &str) -> Result<(), StoreOpenFault> {
    let mut conn = Connection::open(rt, path)?;
    if conn.schema().tables.is_empty() {
        conn.execute_batch(TABLES)?;
    }
    conn.close()?;
    Ok(())
}

/// The files of the system.
pub struct SystemFiles;

impl<T: Start> StoreFiles<FileStore<FileFrom<T>>, T> for SystemFiles {
    ghost use Rattle.std.specs.Prelude.{⊤};
    ghost use Rattle.sqlite_wal.specs.Files.{image_at};
    ghost use Rattle.sqlite.specs.Files.{over_files};
    ghost use Rattle.desk_store.specs.Found.{IsFoundIn};

    ghost finds = { λ _. ⊤ };

    ghost fails = { λ _. ⊤ };

    ghost opens = { IsFoundIn over_files (image_at T.Start) };

    fn kind(rt: &HostRuntime, path: &str) -> Result<FileKind, StoreOpenFault> {
        kind_at(rt, path)
    }

    fn make(rt: &HostRuntime, path: &str) -> Result<(), StoreOpenFault> {
        make_version(rt, path)?;
        make_tables(rt, path)
    }

    fn open(
        rt: &HostRuntime,
        path: &str,
        start: T,
    ) -> Result<Connection<FileStore<FileFrom<T>>>, StoreOpenFault> {
        match Connection::open_from(rt, path, false, start) {
            Ok(conn) => Ok(conn),
            Err((error, _)) => Err(StoreOpenFault::Sqlite(error)),
        }
    }
}
