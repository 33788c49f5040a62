//! The input of a command: the file that its words name, or the standard input.

use bpfjobs_cli::{FAILED, read_all};
use std::alloc::Global;
use std::fs::{File, Files};
use std::io;
use streams::{StreamFault, Tap};

/// Tells why a file can't be read, and gives the status.
pub fn unread<R: Eprint>(rt: &R, path: &str, error: &io::Error) -> u8 {
    let _ = eprintln!(rt; "bpfjobs: {path}: {error}");
    FAILED
}

/// Tells why a command has no answer, where its input is this file, and gives the status.
pub fn unanswered<R: Eprint>(rt: &R, path: Option<&str>, fault: StreamFault) -> u8 {
    if let (Some(path), StreamFault::ReadFailed) = (path, fault) {
        let _ = eprintln!(rt; "bpfjobs: {path}: it can't be read");
    }
    FAILED
}

/// The whole input of a command. Where it can't be read, a line tells why, and this is the status.
pub fn whole_input<R>(rt: &R, alloc: Global, path: Option<&str>) -> Result<Vec<u8>, u8>
where
    R: Input + Eprint + Files<File = File>,
{
    let read = match path {
        Some(path) => match File::open(rt, path) {
            Ok(file) => read_all(alloc, &mut Tap::new(file)),
            Err(error) => return Err(unread(rt, path, &error)),
        },
        None => read_all(alloc, &mut Tap::new(rt.reader())),
    };
    match read {
        Ok(input) => Ok(input),
        Err(fault) => Err(unanswered(rt, path, fault)),
    }
}
