//! The rows of tenants, by their names.

ghost use Rattle.std.specs.Prelude.{◌≡◌, IfOk, None, OnOk, find, length, option_map, true};
ghost use Rattle.desk_records.specs.Stored.{Ledgers};
ghost use Rattle.ledger_records.specs.ChangedRows.{IsRowOfGrant};
ghost use Rattle.ledger_records.specs.LedgerRecords.{is_tenant};
ghost use Rattle.ledger_records.specs.TenantRows.{AreTenantRows, spent_of_result};

use crate::written_rows::outcome_written;
use accounts::SharedReport;
use desk_records::{SettledJob, StoredOutcome, StoredResult, StoredTenant};
use desk_store::{LoadFault, StoreTable};
use sqlite_trees::error::StoreError;
use sqlite_value::value::Bytes;
use std::alloc::{AllocError, Global};
use std::marker::Model;

/// The rows of all tenants. The number of a row is its place, and no tenant has two. Contracts see
/// them as they stand in the store.
#[derive(Drop)]
pub struct TenantRows {
    rows: Vec<StoredTenant>,
}

impl Model for TenantRows {
    ghost use Rattle.std.specs.Prelude.{List};
    ghost use Rattle.desk_records.specs.declared.stored_tenant.StoredTenant.{StoredTenant};
    ghost use Rattle.ledger_records.specs.TenantRows.{AreTenantRows};

    ghost Value = { List StoredTenant };

    ghost view = { λ t. t.rows.items };

    ghost invariant = { λ t. AreTenantRows t.rows.items };
}

// Whether a row is that of the desk's tenant of this name.
fn is_tenant(desk: u16, name: &[u8], row: &StoredTenant) -> bool
    ensures { result ≡ is_tenant desk name.now row.now }
{
    row.desk == desk && row.name.as_slice() == name
}

// The row of the desk's tenant of this name among these, if it has one.
fn row_among<'a>(rows: &'a [StoredTenant], desk: u16, name: &[u8]) -> Option<&'a StoredTenant>
    ensures { option_map (λ t. t.now) result ≡ find (is_tenant desk name.now) rows.now }
{
    rows.iter().find(|row| is_tenant(desk, name, row))
}

// Whether a row has the next number behind others, and is that of another tenant.
fn stands_behind(others: &[StoredTenant], row: &StoredTenant) -> bool
    ensures { result ≡ true → (row.now.number ≡ length others.now)
        × (find (is_tenant row.now.desk row.now.name) others.now ≡ None) }
{
    if row.number as usize != others.len() {
        return false;
    }
    match row_among(others, row.desk, row.name.as_slice()) {
        Some(_) => false,
        None => true,
    }
}

// The rows have to stand at the places of their numbers, and no tenant may have two.
fn check_rows(rows: &[StoredTenant]) -> Result<(), LoadFault>
    ensures { OnOk result (AreTenantRows rows.now) }
{
    for place in 0..rows.len() {
        let (others, behind) = rows.split_at(place);
        let row = &behind[0];
        if !stands_behind(others, row) {
            return Err(LoadFault::Damaged(StoreTable::Tenant, i64::from(row.number)));
        }
    }
    Ok(())
}

// What an outcome spent.
fn spent_in(outcome: &StoredResult) -> u32
    ensures { result ≡ spent_of_result outcome.now }
{
    match outcome {
        StoredResult::Failed(_) => 0,
        StoredResult::Reported(report) => report.spent,
    }
}

// The bytes once more.
fn copied(alloc: Global, bytes: &Bytes) -> Result<Bytes, AllocError>
    ensures { IfOk result (λ copy. copy ≡ bytes.now) }
{
    Bytes::from_slice(alloc, bytes.as_slice())
}

impl TenantRows {
    ghost use Rattle.std.specs.Prelude.{◌≡◌, ◌≤◌, IfOk, OnErr, OnOk, Some, find, length, option_map, slice_get};
    ghost use Rattle.sqlite_keyed.specs.Keyed.{insert_by};
    ghost use Rattle.desk_records.specs.Made.{tenant_key};
    ghost use Rattle.desk_records.specs.declared.stored_job.StoredJob.{StoredJob};
    ghost use Rattle.ledger_records.specs.ChangedRows.{AreRowsOfEnd};
    ghost use Rattle.ledger_records.specs.LedgerRecords.{HasItsNumber, job_record};
    ghost use Rattle.ledger_records.specs.TenantRows.{IsRowOfCost};

    /// All rows, as they are loaded. The first one that stands elsewhere, or is that of a tenant who
    /// has one, is refused.
    pub fn of(rows: Vec<StoredTenant>) -> Result<TenantRows, LoadFault>
        ensures { IfOk result (λ t. t ≡ rows.items) }
    {
        check_rows(rows.as_slice())?;
        Ok(TenantRows { rows })
    }

    /// Puts a tenant's row, in place of the one with its number.
    pub fn put(&mut self, row: StoredTenant) -> Result<(), AllocError>
        requires own { HasItsNumber self.old row }
        requires next { row.number ≤ length self.old }
        ensures ok { OnOk result (self.new ≡ insert_by tenant_key self.old row) }
        ensures err { OnErr result (self.new ≡ self.old) }
    {
        let place = row.number as usize;
        if place < self.rows.len() {
            self.rows[place] = row;
            return Ok(());
        }
        self.rows.reserve(1)?;
        self.rows.push_reserved(row);
        Ok(())
    }

    /// The row of the desk's tenant of this name, if it has one.
    pub fn row_of(&self, desk: u16, name: &[u8]) -> Option<&StoredTenant>
        ensures { option_map (λ t. t.now) result ≡ find (is_tenant desk name.now) self.now }
    {
        row_among(self.rows.as_slice(), desk, name)
    }

    /// The desk and the name of the tenant whose row has this number, if there is one.
    pub fn tenant_of(&self, number: u32) -> Option<&StoredTenant>
        ensures { option_map (λ t. t.now) result ≡ slice_get self.now number }
    {
        self.rows.get(number as usize)
    }

    /// The row of a tenant behind a grant: the same with so much more, or a new one with the next
    /// number.
    pub fn granted(
        &self,
        alloc: Global,
        desk: u16,
        name: &Bytes,
        amount: u32,
    ) -> Result<StoredTenant, StoreError>
        ensures { IfOk result (λ t. (l : Ledgers) → l.tenants ≡ self.now
            → IsRowOfGrant desk l name.now amount t) }
    {
        let name = copied(alloc, name)?;
        let Some(row) = self.row_of(desk, name.as_slice()) else {
            let Ok(number) = u32::try_from(self.rows.len()) else {
                return Err(StoreError::Unstorable);
            };
            return Ok(StoredTenant {
                number,
                desk,
                name,
                granted: u64::from(amount),
                spent: 0,
            });
        };
        let Some(granted) = row.granted.checked_add(u64::from(amount)) else {
            return Err(StoreError::Unstorable);
        };
        Ok(StoredTenant {
            number: row.number,
            desk,
            name,
            granted,
            spent: row.spent,
        })
    }

    // The row of a tenant behind the end of a job that spent so much.
    fn charged(
        &self,
        alloc: Global,
        desk: u16,
        name: &[u8],
        cost: u32,
    ) -> Result<StoredTenant, StoreError>
        ensures { IfOk result (λ t. IsRowOfCost desk self.now name.now cost t) }
    {
        let _ = &self.rows; // for the proof
        let Some(row) = self.row_of(desk, name) else {
            return Err(StoreError::Unstorable);
        };
        let Some(spent) = row.spent.checked_add(u64::from(cost)) else {
            return Err(StoreError::Unstorable);
        };
        Ok(StoredTenant {
            number: row.number,
            desk: row.desk,
            name: copied(alloc, &row.name)?,
            granted: row.granted,
            spent,
        })
    }

    /// The rows of a job that is over, with its tenant's. The job is that of its row, by its tenant
    /// and its credit.
    pub fn settled(
        &self,
        alloc: Global,
        desk: u16,
        number: u64,
        tenant: &[u8],
        credit: u32,
        outcome: &Result<SharedReport, u8>,
    ) -> Result<SettledJob, StoreError>
        ensures { IfOk result (λ s. (l : Ledgers) (job : StoredJob) → l.tenants ≡ self.now
            → job_record l desk number ≡ Some job → job.tenant ≡ tenant.now → job.credit ≡ credit
            → AreRowsOfEnd desk l number outcome.now s) }
    {
        let written = outcome_written(alloc, credit, outcome)?;
        let row = self.charged(alloc, desk, tenant, spent_in(&written))?;
        Ok(SettledJob {
            outcome: StoredOutcome {
                desk,
                number,
                outcome: written,
            },
            tenant: row,
        })
    }
}
