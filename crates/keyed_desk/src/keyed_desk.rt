//! A desk whose changes a journal keeps, and the keys that its jobs came by.

ghost use Rattle.std.specs.Prelude.{◌≡◌, IfOk, IsErrOf, true};
ghost use Rattle.recovery.specs.declared.state_machine.ApplyFault.TheVariants.{Refused};
ghost use Rattle.sessions.specs.Grammar.{is_job_key};
ghost use Rattle.keyed_desk.specs.KeyedSteps.{IsNoKey};

use crate::keyed_change::KeyedChange;
use desk_journal::{DeskChange, JournaledDesk};
use recovery::{ApplyFault, StateMachine};
use sessions::{JobKey, KeyedJobs};
use std::alloc::Global;
use std::marker::Model;

/// A desk whose changes a journal keeps, and the last 1,000 of its jobs that came by a key, oldest
/// first. Contracts see both.
#[derive(Drop)]
pub struct KeyedDesk {
    pub(crate) desk: JournaledDesk,
    pub(crate) keys: KeyedJobs,
}

impl Model for KeyedDesk {
    ghost use Rattle.keyed_desk.specs.KeyedSteps.{KeyedState};

    ghost Value = { KeyedState };

    ghost view = { λ d. record { desk = d.desk; keys = d.keys.jobs } };
}

// The key of these bytes. Refused where they are none.
fn key_of(alloc: Global, bytes: &[u8]) -> Result<JobKey, ApplyFault>
    ensures ok { IfOk result (λ key. (key ≡ bytes.now) × (is_job_key key ≡ true)) }
    ensures refused { IsErrOf result Refused → IsNoKey bytes.now }
{
    match JobKey::of_bytes(alloc, bytes) {
        Ok(Some(key)) => {
            let _ = key.as_str(); // for the proof
            Ok(key)
        }
        Ok(None) => Err(ApplyFault::Refused),
        Err(_) => Err(ApplyFault::NoMemory),
    }
}

impl KeyedDesk {
    ghost use Rattle.std.specs.Prelude.{◌≡◌, ◌⊎◌, ◌≤◌, ◌<◌, ◌^◌, IsErrOf, OnErr, OnOk, length, true};
    ghost use Rattle.desk_journal.specs.DeskChanges.{change_bytes};
    ghost use Rattle.desk_journal.specs.DeskSteps.{MakesBytes, RefusesChangeBytes};
    ghost use Rattle.recovery.specs.declared.state_machine.ApplyFault.TheVariants.{Refused};
    ghost use Rattle.sessions.specs.Grammar.{is_job_key};
    ghost use Rattle.sessions.specs.JobKeys.{noted};
    ghost use Rattle.keyed_desk.specs.KeyedSteps.{IsNoKey};

    /// The desk, and its keyed jobs, oldest first.
    pub fn into_parts(self) -> (JournaledDesk, KeyedJobs)
        ensures same { (result.0 ≡ self.desk) × (result.1.jobs ≡ self.keys) }
        ensures few { length result.1.jobs ≤ 1000 }
    {
        let KeyedDesk { desk, keys } = self;
        let _ = keys.as_slice(); // for the proof
        (desk, keys)
    }

    // Applies a change of the desk by a key.
    fn apply_by_key(
        &mut self,
        alloc: Global,
        key: &[u8],
        change: &DeskChange,
    ) -> Result<(), ApplyFault>
        ensures ok { OnOk result (MakesBytes self.old.desk (change_bytes change.now) self.new.desk
            × (is_job_key key.now ≡ true) × (self.new.keys
            ≡ noted self.old.keys (length self.new.desk.desk.jobs) key.now)) }
        ensures err { OnErr result (self.new ≡ self.old) }
        ensures refused { IsErrOf result Refused → IsNoKey key.now
            ⊎ RefusesChangeBytes self.old.desk (change_bytes change.now) }
    {
        let key = key_of(alloc, key)?;
        if self.keys.reserve().is_err() {
            return Err(ApplyFault::NoMemory);
        }
        self.desk.apply(alloc, change)?;
        self.keys.note(self.desk.desk().job_count(), key);
        Ok(())
    }

    // Has a job's key again.
    fn keep_key(&mut self, alloc: Global, job: u64, key: &[u8]) -> Result<(), ApplyFault>
        ensures ok { OnOk result ((self.new.desk ≡ self.old.desk) × (job < 2 ^ 64)
            × (is_job_key key.now ≡ true) × (self.new.keys ≡ noted self.old.keys job key.now)) }
        ensures err { OnErr result (self.new ≡ self.old) }
        ensures refused { IsErrOf result Refused → IsNoKey key.now }
    {
        let key = key_of(alloc, key)?;
        if self.keys.reserve().is_err() {
            return Err(ApplyFault::NoMemory);
        }
        self.keys.note(job, key);
        Ok(())
    }
}

impl StateMachine for KeyedDesk {
    type StateChange = KeyedChange;

    ghost use Rattle.keyed_desk.specs.KeyedSteps.{IsNewKeyed, MakesKeyed, RefusesKeyed};

    ghost starts = { IsNewKeyed };

    ghost steps = { MakesKeyed };

    ghost refuses = { RefusesKeyed };

    fn start(alloc: Global) -> KeyedDesk {
        KeyedDesk {
            desk: JournaledDesk::start(alloc),
            keys: KeyedJobs::new(alloc),
        }
    }

    fn apply(&mut self, alloc: Global, change: &KeyedChange) -> Result<(), ApplyFault> {
        match change {
            KeyedChange::Plain { change } => self.desk.apply(alloc, change),
            KeyedChange::ByKey { key, change } => self.apply_by_key(alloc, key, change),
            KeyedChange::KeyKept { job, key } => self.keep_key(alloc, *job, key),
        }
    }
}
