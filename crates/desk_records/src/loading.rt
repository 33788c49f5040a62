//! The records that the tables hold.

ghost use Rattle.std.specs.Prelude.{◌≡◌, IfErr, IfOk, OnErr, OnOk};
ghost use Rattle.desk_store.specs.RowStores.{ChangesBatch, IsCalm, IsHonest, IsUndone, now_in};
ghost use Rattle.desk_records.specs.Stored.{AreNarrow, Explains, IsStored};

use crate::stored_desk::StoredDesk;
use crate::stored_job::StoredJob;
use crate::stored_key::StoredKey;
use crate::stored_outcome::StoredOutcome;
use crate::stored_tenant::StoredTenant;
use desk_store::{LoadFault, RowStore};
use sqlite_trees::store::Store;
use std::marker::Model;

/// All records of the tables, each kind in the order of its rows. Contracts see the five lists.
#[derive(Debug, Drop)]
pub struct StoredRecords {
    pub tenants: Vec<StoredTenant>,
    pub jobs: Vec<StoredJob>,
    pub outcomes: Vec<StoredOutcome>,
    pub desks: Vec<StoredDesk>,
    pub keys: Vec<StoredKey>,
}

impl Model for StoredRecords {
    ghost use Rattle.desk_records.specs.Stored.{Ledgers};

    ghost Value = { Ledgers };

    ghost view = { λ r. record {
      tenants = r.tenants.items;
      jobs = r.jobs.items;
      outcomes = r.outcomes.items;
      desks = r.desks.items;
      keys = r.keys.items;
    } };
}

/// Loads all records. Rows that no records have are refused as damage, with the first such row of
/// a table. A failure undoes the batch.
pub fn load_records<S: Store>(rows: &mut RowStore<S>) -> Result<StoredRecords, LoadFault>
    ensures all { IfOk result (λ all. IsHonest S.Store rows.new
        → IsStored (now_in S.Store rows.old) all) }
    ensures narrow { IfOk result AreNarrow }
    ensures damage { IfErr result (λ fault. IsHonest S.Store rows.new
        → Explains (now_in S.Store rows.old) fault) }
    ensures same { OnOk result (IsHonest S.Store rows.new
        → ChangesBatch S.Store rows.old rows.new (now_in S.Store rows.old)) }
    ensures err { OnErr result (IsHonest S.Store rows.new → IsUndone S.Store rows.old rows.new) }
    ensures calm { IsCalm S.Store rows.old rows.new }
{
    let tenants = match rows.load::<StoredTenant>() {
        Ok(tenants) => tenants,
        Err(fault) => return Err(fault),
    };
    let jobs = match rows.load::<StoredJob>() {
        Ok(jobs) => jobs,
        Err(fault) => return Err(fault),
    };
    let outcomes = match rows.load::<StoredOutcome>() {
        Ok(outcomes) => outcomes,
        Err(fault) => return Err(fault),
    };
    let desks = match rows.load::<StoredDesk>() {
        Ok(desks) => desks,
        Err(fault) => return Err(fault),
    };
    let keys = match rows.load::<StoredKey>() {
        Ok(keys) => keys,
        Err(fault) => return Err(fault),
    };
    Ok(StoredRecords {
        tenants,
        jobs,
        outcomes,
        desks,
        keys,
    })
}
