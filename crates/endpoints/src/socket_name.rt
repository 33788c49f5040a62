//! A server's own sockets in the file system: how each gets its name, and how that goes again.

use crate::endpoint::SocketMode;
use std::alloc::Global;
use std::fs::{DirBuilder, File, Files, Permissions, TryLockError};
use std::io::ErrorKind;
use std::net::Net;
use std::os::unix::fs::{DirBuilderExt, FileTypeExt, MetadataExt, PermissionsExt};
use std::os::unix::net::{UnixListener, UnixStream};
use std::{fs, io};

// The permissions of the folder in which a socket is made, and of the socket for grants.
const OF_FOLDER: u32 = 0o700;

const OF_OWNERS_SOCKET: u32 = 0o600;

// The permissions of others in a folder.
const OF_OTHERS: u32 = 0o077;

// The folder `PATH~`, which its owner alone enters. Who holds it may give the path to a socket or take
// it from one, and nobody else does so meanwhile.
#[derive(Drop)]
struct LockedFolder {
    path: String,
    _lock: File,
}

/// The name that a socket of this server has: its path, and which file is there.
#[derive(Drop)]
pub struct SocketName {
    path: String,
    device: u64,
    inode: u64,
}

// Somebody else has the path, or is about to take it.
fn in_use() -> io::Error {
    io::Error::from(ErrorKind::AddrInUse)
}

// True of a folder of the user who runs the program, which nobody else may enter.
fn is_own_folder<R: Files>(rt: &R, folder: &fs::Metadata) -> io::Result<bool> {
    let user = fs::metadata(rt, "/proc/self")?.uid();
    Ok(folder.is_dir() && folder.uid() == user && folder.mode() & OF_OTHERS == 0)
}

// Makes the folder of a path, or takes one that a start has left that was cut off, and holds it.
fn hold_folder<R: Files<File = File>>(
    rt: &R,
    alloc: Global,
    path: &str,
) -> io::Result<LockedFolder> {
    let folder = format!(in alloc; "{path}~")?;
    match DirBuilder::new().mode(OF_FOLDER).create(rt, &folder) {
        Ok(()) => {}
        Err(error) if error.kind() == ErrorKind::AlreadyExists => {}
        Err(error) => return Err(error),
    }
    let lock = File::open(rt, &folder)?;
    let held = lock.metadata()?;
    if !is_own_folder(rt, &held)? {
        return Err(in_use());
    }
    match lock.try_lock() {
        Ok(()) => {}
        Err(TryLockError::WouldBlock) => return Err(in_use()),
        Err(TryLockError::Error(error)) => return Err(error),
    }
    // who held it before has removed it, perhaps
    match fs::symlink_metadata(rt, &folder) {
        Ok(named) if (named.dev(), named.ino()) == (held.dev(), held.ino()) => {}
        _ => return Err(in_use()),
    }
    Ok(LockedFolder {
        path: folder,
        _lock: lock,
    })
}

// Removes a folder that is held, and lets it go.
fn let_go<R: Files>(rt: &R, folder: LockedFolder) {
    let _ = fs::remove_dir(rt, &folder.path);
}

// True where a socket stands at a path on which nobody listens.
fn is_dead<R: Files + Net>(rt: &R, path: &str) -> bool {
    match UnixStream::connect(rt, path) {
        Ok(_) => false,
        Err(error) => error.kind() == ErrorKind::ConnectionRefused,
    }
}

// Removes a socket on which nobody listens. Anything else at the path is left, and refused.
fn make_room<R: Files + Net>(rt: &R, path: &str) -> io::Result<()> {
    match fs::symlink_metadata(rt, path) {
        Err(error) if error.kind() == ErrorKind::NotFound => Ok(()),
        Err(error) => Err(error),
        Ok(found) if found.file_type().is_socket() && is_dead(rt, path) => {
            fs::remove_file(rt, path)
        }
        Ok(_) => Err(in_use()),
    }
}

// Listens on a socket in a folder that is held, with its permissions, and then gives it its name. A link
// takes nobody else's name, as a rename would.
fn listen_within<R: Files + Net>(
    rt: &R,
    alloc: Global,
    folder: &LockedFolder,
    path: &str,
    mode: SocketMode,
) -> io::Result<UnixListener> {
    let made = format!(in alloc; "{}/s", folder.path)?;
    let _ = fs::remove_file(rt, &made);
    let listener = UnixListener::bind(rt, &made)?;
    let named = match mode {
        SocketMode::ByUmask => Ok(()),
        SocketMode::OwnerAlone => {
            fs::set_permissions(rt, &made, Permissions::from_mode(OF_OWNERS_SOCKET))
        }
    };
    let named = match named {
        Ok(()) => make_room(rt, path),
        Err(error) => Err(error),
    };
    let named = match named {
        Ok(()) => fs::hard_link(rt, &made, path),
        Err(error) => Err(error),
    };
    let _ = fs::remove_file(rt, &made);
    match named {
        Ok(()) => Ok(listener),
        Err(error) => Err(error),
    }
}

// The name of a socket of ours that stands at a path now.
fn named_now<R: Files>(rt: &R, alloc: Global, path: &str) -> io::Result<SocketName> {
    let path = String::from_str(alloc, path)?;
    let found = fs::symlink_metadata(rt, &path)?;
    Ok(SocketName {
        path,
        device: found.dev(),
        inode: found.ino(),
    })
}

/// Listens at this path, to which those may connect who are given, from the first moment on: the socket
/// is made in the folder `PATH~`, which goes again. A socket that is there and on which nobody listens
/// is removed first. Anything else there is an error, and stays. Of two who begin at one path at the
/// same time one is refused.
pub fn listen_at<R: Files<File = File> + Net>(
    rt: &R,
    alloc: Global,
    path: &str,
    mode: SocketMode,
) -> io::Result<(UnixListener, SocketName)> {
    let folder = hold_folder(rt, alloc, path)?;
    let listened = match listen_within(rt, alloc, &folder, path, mode) {
        Ok(listener) => match named_now(rt, alloc, path) {
            Ok(own) => Ok((listener, own)),
            Err(error) => {
                let _ = fs::remove_file(rt, path);
                Err(error)
            }
        },
        Err(error) => Err(error),
    };
    let_go(rt, folder);
    listened
}

impl SocketName {
    /// Removes the name, once its socket doesn't listen any more. A path that is gone, or that has become
    /// another's meanwhile, is left as it is.
    pub fn remove<R: Files<File = File> + Net>(&self, rt: &R, alloc: Global) {
        let Ok(folder) = hold_folder(rt, alloc, &self.path) else {
            return;
        };
        if let Ok(found) = fs::symlink_metadata(rt, &self.path) {
            let is_own = (found.dev(), found.ino()) == (self.device, self.inode);
            // a number is given anew once its file is gone
            if is_own && is_dead(rt, &self.path) {
                let _ = fs::remove_file(rt, &self.path);
            }
        }
        let_go(rt, folder);
    }
}
