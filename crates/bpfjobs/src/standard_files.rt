//! Descriptors 0, 1 and 2, without which a process may be started.

use std::alloc::Global;
use std::fs::{File, Files};
use std::io;
use std::os::fd::{AsRawFd, OwnedFd};

// The descriptor of standard error, the last of the three.
const STANDARD_ERROR: i32 = 2;

// Whether one of the three is closed: whatever is opened next has its number.
fn has_gap<R: Files<File = File>>(rt: &R) -> io::Result<bool> {
    let next = OwnedFd::from(File::open(rt, "/")?);
    Ok(next.as_raw_fd() <= STANDARD_ERROR)
}

/// Opens `/dev/null` in place of each of the three that is closed, and gives what it opened, to be held to
/// the end of the process. Else the next file or connection would be standard error, and lines of the
/// log would be written into it.
pub fn fill_gaps<R: Files<File = File>>(rt: &R, alloc: Global) -> io::Result<Vec<OwnedFd>> {
    let mut filled = Vec::new(alloc);
    for _ in 0..3u32 {
        if !has_gap(rt)? {
            return Ok(filled);
        }
        let null = File::options()
            .read(true)
            .write(true)
            .open(rt, "/dev/null")?;
        filled.push(OwnedFd::from(null))?;
    }
    Ok(filled)
}
