//! The changes of a desk and of the keys beside it.

ghost use Rattle.std.specs.Prelude.{◌≡◌, ◌<◌, ◌^◌, ◌++◌, ◌∷◌, ℕ, IfOk, IsErrOf, OnOk, Vec};
ghost use Rattle.std.specs.declared.alloc.Global.{Global};
ghost use Rattle.desk_journal.specs.DeskChanges.{change_bytes};
ghost use Rattle.desk_journal.specs.declared.change.DeskChange.{DeskChange};
ghost use Rattle.recovery.specs.declared.state_machine.ChangeFault.TheVariants.{NotAChange};
ghost use Rattle.keyed_desk.specs.KeyedChanges.{by_key_bytes, key_kept_bytes, keyed_bytes};

use desk_journal::{Blob, DeskChange, Encoded, ReadFault, read_whole, write_bytes};
use recovery::{ChangeFault, StateChange};
use std::alloc::{AllocError, Global};

/// A change of a desk and of the keys beside it. A key is seen as its bytes.
#[derive(Drop)]
pub enum KeyedChange {
    /// A change of the desk alone.
    Plain { change: DeskChange },
    /// A change of the desk, behind which its last job has this key.
    ByKey { key: Vec<u8>, change: DeskChange },
    /// A job has its key again.
    KeyKept { job: u64, key: Vec<u8> },
}

// The first byte of a change by a key. (A change of the desk alone begins with its own number.)
const BY_KEY: u8 = 5;

// The first byte of a key that is kept.
const KEY_KEPT: u8 = 11;

// Adds a change of the desk by a key.
fn write_by_key(key: &[u8], change: &DeskChange, out: &mut Vec<u8>) -> Result<(), AllocError>
    ensures { OnOk result (out.new.items
        ≡ out.old.items ++ by_key_bytes key.now (change_bytes change.now)) }
{
    BY_KEY.write(out)?;
    write_bytes(key, out)?;
    change.write(out)
}

/// Adds a job's key.
pub(crate) fn write_key_kept(job: u64, key: &[u8], out: &mut Vec<u8>) -> Result<(), AllocError>
    ensures bytes { OnOk result (out.new.items ≡ out.old.items ++ key_kept_bytes job key.now) }
    ensures narrow { job < 2 ^ 64 }
{
    KEY_KEPT.write(out)?;
    job.write(out)?;
    write_bytes(key, out)
}

// The change of the desk by a key that has these bytes, behind the first one.
fn read_by_key(alloc: Global, bytes: &[u8]) -> Result<KeyedChange, ChangeFault>
    ensures found { IfOk result (λ change. keyed_bytes change ≡ 5 ∷ bytes.now) }
    ensures refused { IsErrOf result NotAChange → (key : Vec ℕ Global) (change : DeskChange)
        → by_key_bytes key.items (change_bytes change) ≡ 5 ∷ bytes.now → ⊥ }
{
    match read_whole::<(Blob, DeskChange)>(alloc, bytes) {
        Ok((key, change)) => Ok(KeyedChange::ByKey {
            key: key.bytes,
            change,
        }),
        Err(ReadFault::NoMemory) => Err(ChangeFault::NoMemory),
        Err(ReadFault::NoValue) => Err(ChangeFault::NotAChange),
    }
}

// The job's key that has these bytes, behind the first one.
fn read_key_kept(alloc: Global, bytes: &[u8]) -> Result<KeyedChange, ChangeFault>
    ensures found { IfOk result (λ change. keyed_bytes change ≡ 11 ∷ bytes.now) }
    ensures refused { IsErrOf result NotAChange → (job : ℕ) (key : Vec ℕ Global)
        → key_kept_bytes job key.items ≡ 11 ∷ bytes.now → ⊥ }
{
    match read_whole::<(u64, Blob)>(alloc, bytes) {
        Ok((job, key)) => Ok(KeyedChange::KeyKept {
            job,
            key: key.bytes,
        }),
        Err(ReadFault::NoMemory) => Err(ChangeFault::NoMemory),
        Err(ReadFault::NoValue) => Err(ChangeFault::NotAChange),
    }
}

// The change of the desk alone that has these bytes.
fn read_plain(alloc: Global, bytes: &[u8]) -> Result<KeyedChange, ChangeFault>
    ensures found { IfOk result (λ change. keyed_bytes change ≡ bytes.now) }
    ensures refused { IsErrOf result NotAChange → (change : DeskChange)
        → change_bytes change ≡ bytes.now → ⊥ }
{
    match DeskChange::decode(alloc, bytes) {
        Ok(change) => Ok(KeyedChange::Plain { change }),
        Err(fault) => Err(fault),
    }
}

impl StateChange for KeyedChange {
    ghost use Rattle.keyed_desk.specs.KeyedChanges.{keyed_bytes};

    ghost payload = { keyed_bytes };

    fn encode(&self, out: &mut Vec<u8>) -> Result<(), AllocError> {
        match self {
            KeyedChange::Plain { change } => change.encode(out),
            KeyedChange::ByKey { key, change } => write_by_key(key, change, out),
            KeyedChange::KeyKept { job, key } => write_key_kept(*job, key, out),
        }
    }

    fn decode(alloc: Global, bytes: &[u8]) -> Result<KeyedChange, ChangeFault> {
        match bytes.split_first() {
            Some((&BY_KEY, rest)) => read_by_key(alloc, rest),
            Some((&KEY_KEPT, rest)) => read_key_kept(alloc, rest),
            _ => read_plain(alloc, bytes),
        }
    }
}
