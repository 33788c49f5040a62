//! The torn records that a start cuts off a journal: each is kept in a file of its own.

use std::alloc::Global;
use std::fs::{File, Files};
use std::io;
use std::io::{ErrorKind, Write};
use std::os::unix::fs::OpenOptionsExt;

// The permissions of the file: its owner alone reads what tenants submitted.
const OF_OWNER: u32 = 0o600;

// The most torn records of one journal that are kept.
const MOST_KEPT: u32 = 1_000_000;

// The path of the file that keeps a torn record, the first or a later one.
fn kept_path(alloc: Global, path: &str, number: u32) -> io::Result<String> {
    if number == 1 {
        Ok(format!(in alloc; "{path}.torn")?)
    } else {
        Ok(format!(in alloc; "{path}.torn.{number}")?)
    }
}

// A new file at this path.
fn new_file<R: Files<File = File>>(rt: &R, path: &str) -> io::Result<File> {
    File::options()
        .write(true)
        .create_new(true)
        .mode(OF_OWNER)
        .open(rt, path)
}

/// Keeps what is cut off a journal in a new file, `PATH.torn` or with a number behind it, and gives that
/// file's path. The bytes are on the disk then; the file's name is once the folder is synced.
pub fn keep_torn<R: Files<File = File>>(
    rt: &R,
    alloc: Global,
    path: &str,
    torn: &[u8],
) -> io::Result<String> {
    for number in 1..MOST_KEPT {
        let kept = kept_path(alloc, path, number)?;
        match new_file(rt, &kept) {
            Ok(mut file) => {
                file.write_all(torn)?;
                file.sync_all()?;
                return Ok(kept);
            }
            Err(error) if error.kind() == ErrorKind::AlreadyExists => {}
            Err(error) => return Err(error),
        }
    }
    Err(io::Error::from(ErrorKind::AlreadyExists))
}
