//! The keys that a desk remembers.

ghost use Rattle.std.specs.Prelude.{◌≡◌, IfOk};
ghost use Rattle.sessions.specs.JobKeys as keys_of;

use refusal::NoMemory;
use sessions::{JobKey, KeyedJob, KeyedJobs};
use std::marker::Model;

/// The keys of the last 1,000 jobs that were submitted at a desk by one. Contracts see it as these,
/// oldest first. Its memory for them is taken ahead, so that noting a key can't fail.
#[derive(Drop)]
pub(crate) struct KeyTable {
    keys: KeyedJobs,
}

impl Model for KeyTable {
    ghost use Rattle.std.specs.Prelude.{◌≡◌, List, true};
    ghost use Rattle.sessions.specs.declared.job_key.KeyedJob.{KeyedJob};

    ghost Value = { List KeyedJob };

    ghost view = { λ t. t.keys.jobs };

    ghost invariant = { λ t. t.keys.has_room ≡ true };
}

impl KeyTable {
    /// These keys, and memory for all that a desk remembers. Refused where there is none.
    pub(crate) fn of(keys: KeyedJobs) -> Result<KeyTable, NoMemory>
        ensures { IfOk result (λ table. table ≡ keys.jobs) }
    {
        let mut keys = keys;
        keys.reserve()?;
        Ok(KeyTable { keys })
    }

    /// The keys, oldest first.
    pub(crate) fn as_slice(&self) -> &[KeyedJob]
        ensures { result.now ≡ self.now }
    {
        self.keys.as_slice()
    }

    /// The job of a key, if it is remembered.
    pub(crate) fn job_of(&self, key: &JobKey) -> Option<u64>
        ensures { result ≡ keys_of.job_among self.now key.now }
    {
        self.keys.job_of(key)
    }

    /// Remembers a key for a job. Where 1,000 are remembered, the oldest one is forgotten.
    pub(crate) fn note(&mut self, job: u64, key: JobKey)
        ensures { self.new ≡ keys_of.noted self.old job key }
    {
        self.keys.note(job, key);
    }
}
