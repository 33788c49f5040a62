//! The keys that the doors of all desks remember.

use crate::key_table::KeyTable;
use crate::routing::place_behind;
use refusal::NoMemory;
use sessions::{JobKey, KeyedJob, KeyedJobs};
use shared_desk::Door;
use std::alloc::Global;
use std::marker::Model;

/// The keyed jobs that each desk's own door remembers. Contracts see it as a list of them for each
/// desk, oldest first.
#[derive(Drop)]
pub struct DoorKeys {
    tables: Vec<KeyTable>,
}

impl Model for DoorKeys {
    ghost use Rattle.std.specs.Prelude.{List};
    ghost use Rattle.sessions.specs.declared.job_key.KeyedJob.{KeyedJob};

    ghost Value = { List (List KeyedJob) };

    ghost view = { λ k. k.tables.items };
}

impl DoorKeys {
    ghost use Rattle.std.specs.Prelude.{◌≡◌, ◌∷◌, ◌++◌, [], IfOk, OnErr, OnOk, replicate};
    ghost use Rattle.tenant_desks.specs.AtDoors.{keys_behind, with_key};
    ghost use Rattle.sessions.specs.JobKeys.{job_among};

    /// No key, at the doors of so many desks, with memory for all that they remember. Refused where
    /// there is none.
    pub fn new(alloc: Global, count: usize) -> Result<DoorKeys, NoMemory>
        ensures { IfOk result (λ keys. keys ≡ replicate count []) }
    {
        let mut tables = Vec::new(alloc);
        for made in 0..count {
            let _ = made;
            tables.push(KeyTable::of(KeyedJobs::new(alloc))?)?;
        }
        Ok(DoorKeys { tables })
    }

    /// No doors.
    pub fn none(alloc: Global) -> DoorKeys
        ensures { result ≡ [] }
    {
        DoorKeys {
            tables: Vec::new(alloc),
        }
    }

    /// One door more, which remembers these keys. Refused where there is no memory for all that it
    /// remembers.
    pub fn add(&mut self, keys: KeyedJobs) -> Result<(), NoMemory>
        ensures ok { OnOk result (self.new ≡ self.old ++ keys.jobs ∷ []) }
        ensures err { OnErr result (self.new ≡ self.old) }
    {
        let table = KeyTable::of(keys)?;
        self.tables.push(table)?;
        Ok(())
    }

    /// The keyed jobs that a door remembers, oldest first.
    pub fn at(&self, door: Door) -> &[KeyedJob]
        ensures { result.now ≡ keys_behind self.now door }
    {
        match self.tables.get(place_behind(door)) {
            Some(table) => table.as_slice(),
            None => &[],
        }
    }

    /// The job of a key, if the door remembers it.
    pub fn job_at(&self, door: Door, key: &JobKey) -> Option<u64>
        ensures { result ≡ job_among (keys_behind self.now door) key.now }
    {
        match self.tables.get(place_behind(door)) {
            Some(table) => table.job_of(key),
            None => None,
        }
    }

    /// Has a door remember a key for a job. The oldest of 1,000 that it remembers is forgotten.
    pub fn note(&mut self, door: Door, job: u64, key: JobKey)
        ensures { self.new ≡ with_key self.old door job key }
    {
        let place = place_behind(door);
        if place < self.tables.len() {
            self.tables[place].note(job, key);
        }
    }
}
