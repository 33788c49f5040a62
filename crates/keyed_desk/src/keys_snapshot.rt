//! A snapshot of a desk with its keys: the changes that put both back.

ghost use Rattle.std.specs.Prelude.{◌≡◌, ◌++◌, ℕ, List, OnOk};
ghost use Rattle.journal.specs.Records.{AllFitRecords, FitsRecord, journal_of, record_of};
ghost use Rattle.keyed_desk.specs.KeyedSnapshots.{AreKeyChanges, IsKeyChange};

use crate::keyed_change::write_key_kept;
use crate::keyed_desk::KeyedDesk;
use compaction::{Snapshot, SnapshotFault};
use journal::encode_record;
use sessions::KeyedJob;
use std::alloc::{AllocError, Global};

// Adds the record of a job's key.
fn add_key(alloc: Global, keyed: &KeyedJob, out: &mut Vec<u8>) -> Result<(), AllocError>
    ensures { OnOk result ((payload : List ℕ) × IsKeyChange keyed.now payload
        × FitsRecord payload × (out.new.items ≡ out.old.items ++ record_of payload)) }
{
    let mut payload = Vec::new(alloc);
    write_key_kept(keyed.job, keyed.key.as_str().as_bytes(), &mut payload)?;
    encode_record(out, &payload)
}

// Adds the record of each key, oldest first.
fn add_keys(alloc: Global, keys: &[KeyedJob], out: &mut Vec<u8>) -> Result<(), AllocError>
    ensures { OnOk result ((payloads : List (List ℕ)) × AreKeyChanges keys.now payloads
        × AllFitRecords payloads × (out.new.items ≡ out.old.items ++ journal_of payloads)) }
{
    let mut rest = keys;
    'keys: while let Some((first, others)) = rest.split_first() {
        add_key(alloc, first, out)?;
        rest = others;
    }
    Ok(())
}

impl Snapshot for KeyedDesk {
    ghost use Rattle.keyed_desk.specs.KeyedLemmas.{keyed_alike_self, keyed_alike_step, keyed_alike_through};
    ghost use Rattle.keyed_desk.specs.KeyedSnapshots.{AreKeyedAlike, HasLargeKeyedChange};

    ghost alike = { AreKeyedAlike };

    ghost is_too_large = { HasLargeKeyedChange };

    fn snapshot(&self, alloc: Global, out: &mut Vec<u8>) -> Result<(), SnapshotFault> {
        self.desk.snapshot(alloc, out)?;
        add_keys(alloc, self.keys.as_slice(), out)?;
        Ok(())
    }

    ghost alike_self = { keyed_alike_self };

    ghost alike_through = { keyed_alike_through };

    ghost alike_step = { keyed_alike_step };
}
