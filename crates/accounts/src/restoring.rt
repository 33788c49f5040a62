//! A desk that is put together again: first its tenants, then its jobs.

ghost use Rattle.std.specs.Prelude.{◌≡◌, ◌≤◌, ◌<◌, ◌+◌, IfOk, IfErr, OnOk, OnErr, option_map};
ghost use Rattle.accounts.specs.Jobs.{job_at, spent_for};
ghost use Rattle.accounts.specs.Ledgers.{most_granted, spent_by_jobs};
ghost use Rattle.accounts.specs.Restoring.{AddsGone, AreKeptAccounts, IsNextKept, OpensAccount, Recalls, RefusesAccount, RefusesGone, RefusesRecall};

use crate::desk::{Desk, MOST_GRANTED};
use crate::fault::RestoreFault;
use crate::job_list::Jobs;
use crate::jobs::{JobEntry, JobStanding};
use crate::kept_accounts::{KeptAccount, list_accounts};
use crate::tenants::{Sums, add, change, sums_of};
use refusal::NoMemory;
use std::alloc::Global;

// What a job spent, where it is this tenant's.
#[tactic(auto, unfolding(crate::specs::Jobs::spent_for))]
fn cost_to(entry: &JobEntry, name: &str) -> u64
    ensures { result ≡ spent_for name.now entry.now }
{
    if name == entry.tenant.as_str() {
        u64::from(entry.standing.spent())
    } else {
        0
    }
}

// What a tenant's jobs spent that aren't forgotten.
fn spent_by(jobs: &Jobs, name: &str) -> u64
    requires { spent_by_jobs jobs.now name.now ≤ most_granted }
    ensures { result ≡ spent_by_jobs jobs.now name.now }
{
    let last = jobs.count();
    let mut spent = 0;
    for number in 0..last {
        let Some(entry) = jobs.entry(number + 1) else {
            unreachable!()
        };
        spent += cost_to(entry, name);
    }
    spent
}

// So much of what a tenant spent was spent by forgotten jobs, at least. Where that is less than a
// job's cost, it is all that they spent. The jobs are looked at in that case alone.
fn recallable_of(jobs: &Jobs, name: &str, sums: Sums, cost: u64) -> u64
    requires there { sums.recallable + spent_by_jobs jobs.now name.now ≤ sums.spent }
    requires limit { sums.spent ≤ most_granted }
    ensures within { result + spent_by_jobs jobs.now name.now ≤ sums.spent }
    ensures all { result < cost → result + spent_by_jobs jobs.now name.now ≡ sums.spent }
{
    if cost <= sums.recallable {
        return sums.recallable;
    }
    sums.spent - spent_by(jobs, name)
}

impl Desk {
    /// Opens a tenant's account with the sum of its grants, and with what its jobs spent. That counts
    /// as spent by forgotten jobs: a desk with a job opens no account.
    pub fn open_account(
        &mut self,
        alloc: Global,
        tenant: &str,
        granted: u64,
        spent: u64,
    ) -> Result<(), RestoreFault>
        ensures opened { OnOk result (OpensAccount self.old tenant.now granted spent self.new) }
        ensures refused { IfErr result (λ e. RefusesAccount self.old tenant.now granted spent e) }
        ensures unchanged { OnErr result (self.new ≡ self.old) }
    {
        if self.jobs.count() > 0 {
            return Err(RestoreFault::TooLate);
        }
        if sums_of(&self.tenants, tenant).is_some() {
            return Err(RestoreFault::KnownTenant);
        }
        if spent > granted {
            return Err(RestoreFault::WrongSums);
        }
        if granted > MOST_GRANTED {
            return Err(RestoreFault::WrongSums);
        }
        let sums = Sums {
            granted,
            opened: 0,
            spent,
            recallable: spent,
        };
        add(alloc, &mut self.tenants, tenant, sums)?;
        Ok(())
    }

    /// Adds so many forgotten jobs behind the others.
    pub fn add_gone(&mut self, count: u64) -> Result<(), RestoreFault>
        ensures added { OnOk result (AddsGone self.old count self.new) }
        ensures refused { IfErr result (λ e. RefusesGone self.old count e) }
        ensures unchanged { OnErr result (self.new ≡ self.old) }
    {
        if count > self.jobs.room() {
            return Err(RestoreFault::TooManyJobs);
        }
        self.jobs.add_gone(count);
        Ok(())
    }

    /// Puts a tenant's job back that is over, behind the others. What it spent is no longer counted as
    /// spent by forgotten jobs, so that each account is as it was.
    pub fn recall(
        &mut self,
        alloc: Global,
        tenant: &str,
        credit: u32,
        standing: JobStanding,
    ) -> Result<(), RestoreFault>
        ensures recalled { OnOk result (Recalls self.old tenant.now credit standing self.new) }
        ensures refused { IfErr result (λ e. RefusesRecall self.old tenant.now standing e) }
        ensures unchanged { OnErr result (self.new ≡ self.old) }
    {
        if standing.is_open() {
            return Err(RestoreFault::NotOver);
        }
        let Some(sums) = sums_of(&self.tenants, tenant) else {
            return Err(RestoreFault::UnknownTenant);
        };
        let cost = u64::from(standing.spent());
        let recallable = recallable_of(&self.jobs, tenant, sums, cost);
        if cost > recallable {
            return Err(RestoreFault::WrongSums);
        }
        if self.jobs.room() == 0 {
            return Err(RestoreFault::TooManyJobs);
        }
        let entry = JobEntry {
            tenant: String::from_str(alloc, tenant)?,
            credit,
            standing,
        };
        self.jobs.add(entry)?;
        let recallable = recallable - cost;
        change(&mut self.tenants, tenant, Sums { recallable, ..sums });
        Ok(())
    }

    /// The accounts of all tenants, in the order of their names.
    pub fn kept_accounts(&self, alloc: Global) -> Result<Vec<KeptAccount>, NoMemory>
        ensures { IfOk result (λ accounts. AreKeptAccounts self.now accounts.items) }
    {
        list_accounts(alloc, &self.tenants)
    }

    /// The job of a number, or the entry of a gone one. None where no job has the number.
    pub fn entry(&self, job: u64) -> Option<&JobEntry>
        ensures { option_map (λ e. e.now) result ≡ job_at self.now.jobs job }
    {
        self.jobs.entry(job)
    }

    /// The number of the first job from this one on that isn't gone. Where there is none, a number that
    /// no job has: this one, or the first one behind all jobs.
    pub fn next_kept(&self, number: u64) -> u64
        requires { 1 ≤ number }
        ensures { IsNextKept self.now.jobs number result }
    {
        self.jobs.next_kept(number)
    }
}
