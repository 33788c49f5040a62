//! The paths of a server's sockets: each has one of its own.

use bpfjobs_cli::{Endpoint, FAILED, Serve, UNREAD};
use journal_file::folder_of;
use refusal::NoMemory;
use std::alloc::Global;
use std::fs::Files;
use std::path::Path;

// The path with its folder as the system names it, so that two words for one path become the same. A
// path without such a folder stays as it is: nobody can listen there.
fn resolved<R: Files>(rt: &R, alloc: Global, path: &str) -> Result<String, NoMemory> {
    let Some(name) = Path::new(path).file_name() else {
        return Ok(String::from_str(alloc, path)?);
    };
    match rt.canonicalize(alloc, folder_of(path)) {
        Ok(folder) => Ok(format!(in alloc; "{}/{name}", folder.as_str())?),
        Err(_) => Ok(String::from_str(alloc, path)?),
    }
}

// Takes a further socket's path. Refused, as a line tells, where one before it is the same.
fn take_path<R: Files + Eprint>(
    rt: &R,
    alloc: Global,
    taken: &mut Vec<String>,
    path: &str,
) -> Result<(), u8> {
    let Ok(own) = resolved(rt, alloc, path) else {
        return Err(FAILED);
    };
    if taken.iter().any(|other| other.as_str() == own.as_str()) {
        let _ = eprintln!(rt;
            "error: serve takes another path for each socket, and {path} is taken"
        );
        return Err(UNREAD);
    }
    match taken.push(own) {
        Ok(()) => Ok(()),
        Err(_) => Err(FAILED),
    }
}

/// Refuses a server two of whose sockets would be at one path, however the words and the lines of its
/// tenants write it: a line tells which, and the program ends with this status.
pub fn have_names_of_their_own<R: Files + Eprint>(
    rt: &R,
    alloc: Global,
    server: &Serve,
) -> Result<(), u8> {
    let Endpoint::Socket { path, grants } = &server.endpoint else {
        return Ok(());
    };
    let mut taken = Vec::new(alloc);
    take_path(rt, alloc, &mut taken, path)?;
    if let Some(grants) = grants {
        take_path(rt, alloc, &mut taken, grants)?;
    }
    for tenant in &server.tenants.tenants {
        take_path(rt, alloc, &mut taken, &tenant.path)?;
    }
    Ok(())
}
