//! Keyed jobs that are remembered, oldest first.

ghost use Rattle.std.specs.Prelude.{◌≡◌, ◌≤◌, drop, length, vec_capacity, vec_len};
ghost use Rattle.sessions.specs.JobKeys as keys_of;
ghost use Rattle.sessions.specs.KeyMarks.{mark_of, marks_of};

use crate::job_key::{JobKey, KeyedJob};
use refusal::NoMemory;
use std::alloc::Global;
use std::marker::Model;

/// How many keyed jobs are remembered in one place.
pub const MOST_KEYS: usize = 1000;

// How many stand in memory: those that are remembered, and as many that are forgotten.
const MOST_HELD: usize = 2000;

/// The keyed jobs that are remembered in one place, oldest first: the last 1,000. Contracts see these,
/// and whether there is memory for all that will be remembered.
#[derive(Drop)]
pub struct KeyedJobs {
    // The first `gone` are forgotten. They are dropped once there are 1,000.
    jobs: Vec<KeyedJob>,
    // The mark of each job's key.
    marks: Vec<u64>,
    gone: usize,
    has_room: bool,
}

impl Model for KeyedJobs {
    ghost use Rattle.std.specs.Prelude.{◌≡◌, ◌≤◌, ◌<◌, ◌+◌, drop, length, true, vec_capacity};
    ghost use Rattle.sessions.specs.KeyMarks.{RememberedJobs, marks_of};

    ghost Value = { RememberedJobs };

    ghost view = { λ k. record { jobs = drop k.gone k.jobs.items; has_room = k.has_room } };

    ghost invariant = { λ k. (k.gone < 1000) × (k.gone ≤ length k.jobs.items)
        × (length k.jobs.items ≤ k.gone + 1000) × (k.marks.items ≡ marks_of k.jobs.items)
        × (k.has_room ≡ true → (2000 ≤ vec_capacity k.jobs) × (2000 ≤ vec_capacity k.marks)) };
}

// The mark of a key. Differing marks are of differing keys.
#[tactic(auto, unfolding(crate::specs::KeyMarks::mark_of))]
fn key_mark(key: &[u8]) -> u64
    ensures { result ≡ mark_of key.now }
{
    let mut mark: u64 = 14695981039346656037;
    let mut rest = key;
    'bytes: while let Some((first, others)) = rest.split_first() {
        mark = (mark ^ u64::from(*first)).wrapping_mul(1099511628211);
        rest = others;
    }
    mark
}

// Drops the first of these.
#[tactic(auto, using(crate::proofs::KeyLemmas::first_dropped))]
fn drop_first<T: Drop>(rows: &mut Vec<T>, count: usize)
    requires { count ≤ length rows.old.items }
    ensures rows { rows.new.items ≡ drop count rows.old.items }
    ensures room { vec_capacity rows.new ≡ vec_capacity rows.old }
{
    let kept = rows.len() - count;
    rows.rotate_left(count);
    rows.truncate(kept);
}

// The job of a key, if it is among these, by their marks.
fn job_among(jobs: &[KeyedJob], marks: &[u64], key: &JobKey) -> Option<u64>
    requires { marks.now ≡ marks_of jobs.now }
    ensures { result ≡ keys_of.job_among jobs.now key.now }
{
    let mark = key_mark(key.as_str().as_bytes());
    let mut place = 0;
    'places: while place < marks.len() {
        if marks[place] == mark && jobs[place].key.as_str() == key.as_str() {
            return Some(jobs[place].job);
        }
        place += 1;
    }
    None
}

impl KeyedJobs {
    ghost use Rattle.std.specs.Prelude.{◌≡◌, ◌≤◌, [], IfOk, OnOk, length, true};
    ghost use Rattle.sessions.specs.JobKeys as keys_of;

    /// None.
    pub fn new(alloc: Global) -> KeyedJobs
        ensures { result.jobs ≡ [] }
    {
        KeyedJobs {
            jobs: Vec::new(alloc),
            marks: Vec::new(alloc),
            gone: 0,
            has_room: false,
        }
    }

    /// Takes memory for all that will be remembered, so that noting a key can't fail. Refused where there
    /// is none.
    pub fn reserve(&mut self) -> Result<(), NoMemory>
        ensures same { self.new.jobs ≡ self.old.jobs }
        ensures ok { OnOk result (self.new.has_room ≡ true) }
    {
        if self.has_room {
            return Ok(());
        }
        self.jobs.reserve(MOST_HELD - self.jobs.len())?;
        self.marks.reserve(MOST_HELD - self.marks.len())?;
        self.has_room = true;
        Ok(())
    }

    /// Remembers a key for a job. Where 1,000 are remembered, the oldest one is forgotten.
    pub fn note(&mut self, job: u64, key: JobKey)
        requires { self.old.has_room ≡ true }
        ensures noted { self.new.jobs ≡ keys_of.noted self.old.jobs job key }
        ensures room { self.new.has_room ≡ true }
    {
        self.marks.push_reserved(key_mark(key.as_str().as_bytes()));
        self.jobs.push_reserved(KeyedJob { job, key });
        if self.jobs.len() - self.gone <= MOST_KEYS {
            return;
        }
        self.gone += 1;
        if self.gone < MOST_KEYS {
            return;
        }
        drop_first(&mut self.jobs, MOST_KEYS);
        drop_first(&mut self.marks, MOST_KEYS);
        self.gone = 0;
    }

    /// The job of a key, if it is remembered.
    pub fn job_of(&self, key: &JobKey) -> Option<u64>
        ensures { result ≡ keys_of.job_among self.now.jobs key.now }
    {
        let jobs = self.jobs.split_at(self.gone).1;
        let marks = self.marks.split_at(self.gone).1;
        job_among(jobs, marks, key)
    }

    /// The keyed jobs, oldest first.
    pub fn as_slice(&self) -> &[KeyedJob]
        ensures same { result.now ≡ self.now.jobs }
        ensures few { length result.now ≤ 1000 }
    {
        self.jobs.split_at(self.gone).1
    }
}
