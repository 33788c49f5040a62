//! A store of its own, for the tests: `count FILE` adds batches to it until it is killed, and tells
//! each once it is committed. `tell FILE` tells all that a file holds.
//!
//! The batch of a number grants credit to a tenant, and takes and ends a job of that number. From
//! the 11th on it forgets the job ten numbers before.
#![tactic(auto)]

mod batches;
mod telling;

use crate::batches::batch_of;
use crate::telling::{tell_records, tell_refusal};
use desk_records::{StoredRecords, load_records, write_batch};
use desk_store::{RowStore, StoreOpenFault, SystemFiles, open_store};
use sqlite::{FileFrom, FileStore, Start, Unknown};
use sqlite_trees::store::Store;
use std::{env, io};

// How many batches the records are of: as many as the last job's number.
fn last_number(records: &StoredRecords) -> u32 {
    match records.jobs.last() {
        Some(job) => u32::try_from(job.number).unwrap_or(0),
        None => 0,
    }
}

// Adds the batches behind a number, and tells each once it is committed.
fn add_batches<S: Store>(rt: &HostRuntime, rows: &mut RowStore<S>, from: u32) -> io::Result<()> {
    for last in from..u32::MAX {
        let number = last.wrapping_add(1);
        let batch = batch_of(rt.alloc(), number)?;
        rows.rollback(); // for the proof
        if write_batch(rt.alloc(), rows, batch.as_slice()).is_err() {
            return println!(rt; "failed");
        }
        println!(rt; "{number}")?;
    }
    Ok(())
}

// Goes on with the store's batches, or tells its records.
fn go_through<S: Store + Drop>(
    rt: &HostRuntime,
    mut rows: RowStore<S>,
    what: &str,
) -> io::Result<()> {
    match load_records(&mut rows) {
        Ok(records) if what == "count" => {
            let last = last_number(&records);
            drop(records);
            add_batches(rt, &mut rows, last)
        }
        Ok(records) => tell_records(rt, &records),
        Err(fault) => println!(rt; "not loaded: {fault:?}"),
    }
}

// Opens the store at a path, or makes it. `start` stands for the contents of its files.
fn open_at<T: Start + Drop>(
    rt: &HostRuntime,
    path: &str,
    start: T,
) -> Result<RowStore<FileStore<FileFrom<T>>>, StoreOpenFault> {
    open_store::<FileStore<FileFrom<T>>, T, SystemFiles>(rt, path, start)
}

fn main(rt: HostRuntime) -> io::Result<()> {
    let mut words = env::args(&rt)?;
    let _program = words.next();
    let Some(what) = words.next() else {
        return Ok(());
    };
    let Some(path) = words.next() else {
        return Ok(());
    };
    match open_at(&rt, path.as_str(), Unknown) {
        Ok(rows) => go_through(&rt, rows, what.as_str()),
        Err(fault) => tell_refusal(&rt, &fault),
    }
}
