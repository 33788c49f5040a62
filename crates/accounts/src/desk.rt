//! The desk, where tenants are granted credit and give jobs.

use crate::fault::{DeskFault, SubmitFault};
use crate::job_list::Jobs;
use crate::jobs::{JobEntry, JobStanding, settle};
use crate::keep_limits::KeepLimits;
use crate::kept_report::SharedReport;
use crate::listing::{ListedJob, list_jobs};
use crate::tenants::{Account, Sums, account_of, add, change, sums_of};
use credit_book::{Progress, Report};
use job_core::{AdmitFault, Job, ProgramBytes, admit};
use refusal::NoMemory;
use std::alloc::Global;
use std::collections::BTreeMap;
use std::marker::Model;

/// The most that a tenant is granted in all.
pub(crate) const MOST_GRANTED: u64 = 1_000_000_000_000;

/// Tenants and their jobs.
///
/// A tenant's sums are kept beside its name, so that no call goes over the jobs: tenants are found
/// by a search in a tree, and jobs, whose numbers run from 1, by their place. Jobs are forgotten
/// where a host asks for it alone; the sums keep what they spent.
#[derive(Drop)]
pub struct Desk {
    pub(crate) tenants: BTreeMap<String, Sums>,
    pub(crate) jobs: Jobs,
}

impl Model for Desk {
    ghost use Rattle.std.specs.BTreeMap as tree;
    ghost use Rattle.accounts.specs.Ledgers.{Ledger, IsBalanced, ledger_of};

    ghost Value = { Ledger };

    ghost view = { λ d. ledger_of d.tenants d.jobs };

    ghost invariant = { λ d. IsBalanced (tree.get_by_text d.tenants) d.jobs };
}

impl Desk {
    ghost use Rattle.std.specs.Prelude.{◌≡◌, ◌≤◌, ◌+◌, ℕ, List, [], IfOk, IfErr, OnOk, OnErr, Ok, Err, MatchResult, length, unwrap_or};
    ghost use Rattle.credit_book.specs.declared.book.Report.{Report};
    ghost use Rattle.job_core.specs.Admission.{IsAdmittedFrom};
    ghost use Rattle.job_core.specs.declared.admission.ProgramBytes.{ProgramBytes};
    ghost use Rattle.accounts.specs.Ahead.{IsAdmissionOf};
    ghost use Rattle.accounts.specs.declared.fault.DeskFault.TheVariants as fault;
    ghost use Rattle.accounts.specs.Listing.{listing};
    ghost use Rattle.accounts.specs.Ledgers.{account_at, granted_to, most_granted, GrantsMore, HasBalance, RefusesGrant, Takes, RefusesSubmit, Finishes, Forgets, ForgetsTo, KeepsWithin, IsNotOpen, progress_at, report_at};

    /// A desk with no tenant.
    pub fn new(alloc: Global) -> Desk
        ensures { result ≡ record { grants = []; past = []; jobs = [] } }
    {
        Desk {
            tenants: BTreeMap::new(alloc),
            jobs: Jobs::new(alloc),
        }
    }

    /// A tenant's account; 74 where it was granted nothing.
    #[tactic(auto, unfolding(crate::specs::Ledgers::account_at))]
    pub fn account(&self, tenant: &str) -> Result<Account, DeskFault>
        ensures account { result ≡ account_at self.now tenant.now }
        ensures adds_up { IfOk result (λ a. a.balance + a.opened + a.spent ≡ a.granted) }
    {
        match sums_of(&self.tenants, tenant) {
            Some(sums) => Ok(account_of(sums)),
            None => Err(DeskFault::NoTenant),
        }
    }

    /// Grants credit to a tenant, which is made if it is new, and answers its account.
    ///
    /// 65 where its grants would pass 1,000,000,000,000 in all, and 99 where a growth was refused,
    /// which only a new tenant asks for.
    #[tactic(auto, unfolding(crate::specs::Ledgers::account_at))]
    pub fn grant(&mut self, alloc: Global, tenant: &str, amount: u32) -> Result<Account, DeskFault>
        ensures granted { OnOk result (GrantsMore self.old tenant.now amount self.new) }
        ensures within { OnOk result (unwrap_or (granted_to self.old tenant.now) 0 + amount
            ≤ most_granted) }
        ensures account { IfOk result (λ _. result ≡ account_at self.new tenant.now) }
        ensures refused { IfErr result (λ e. RefusesGrant self.old tenant.now amount e) }
        ensures unchanged { OnErr result (self.new ≡ self.old) }
    {
        match sums_of(&self.tenants, tenant) {
            Some(sums) => {
                let granted = sums.granted + u64::from(amount);
                if granted > MOST_GRANTED {
                    return Err(DeskFault::TooLarge);
                }
                let more = Sums { granted, ..sums };
                change(&mut self.tenants, tenant, more);
                Ok(account_of(more))
            }
            None => {
                let first = Sums {
                    granted: u64::from(amount),
                    opened: 0,
                    spent: 0,
                    recallable: 0,
                };
                add(alloc, &mut self.tenants, tenant, first)?;
                Ok(account_of(first))
            }
        }
    }

    /// Takes a job, and answers its number, counted from 1: its credit goes from the tenant's
    /// balance to what it has open.
    ///
    /// 74 where the tenant was granted nothing, then 75 where the credit is over its balance, then
    /// what [`admit`] refuses, then 99. A refusal uses up no number.
    pub fn submit(
        &mut self,
        alloc: Global,
        tenant: &str,
        programs: &[ProgramBytes],
        credit: u32,
        buffer: Vec<u8>,
    ) -> Result<(u64, Job), SubmitFault>
        ensures taken { OnOk result (Takes self.old tenant.now credit self.new) }
        ensures number { IfOk result (λ taken. taken.0 ≡ length self.new.jobs) }
        ensures admitted { IfOk result (λ taken.
            IsAdmittedFrom programs.now credit buffer.items taken.1) }
        ensures refused { IfErr result
            (λ e. RefusesSubmit self.old tenant.now programs.now credit buffer.items e) }
        ensures unchanged { OnErr result (self.new ≡ self.old) }
    {
        self.may_submit(tenant, credit)?;
        self.take(
            alloc,
            tenant,
            credit,
            admit(alloc, programs, credit, buffer),
        )
    }

    /// Whether a job of this credit may be taken, but for its admission: 74 where the tenant was
    /// granted nothing, then 75 where the credit is over its balance.
    pub fn may_submit(&self, tenant: &str, credit: u32) -> Result<(), SubmitFault>
        ensures refused { IfErr result (λ e. (programs : List ProgramBytes) (buffer : List ℕ)
            → RefusesSubmit self.now tenant.now programs credit buffer e) }
        ensures enough { OnOk result ((balance : ℕ) × HasBalance self.now tenant.now balance
            × (credit ≤ balance)) }
    {
        let Ok(account) = self.account(tenant) else {
            return Err(SubmitFault::NoTenant);
        };
        if u64::from(credit) > account.balance {
            return Err(SubmitFault::BalanceLow);
        }
        Ok(())
    }

    /// Takes a job as [`Desk::submit`] does, that was admitted or refused ahead.
    pub fn take(
        &mut self,
        alloc: Global,
        tenant: &str,
        credit: u32,
        admitted: Result<Job, AdmitFault>,
    ) -> Result<(u64, Job), SubmitFault>
        ensures taken { OnOk result (Takes self.old tenant.now credit self.new) }
        ensures number { IfOk result (λ taken. taken.0 ≡ length self.new.jobs) }
        ensures job { IfOk result (λ taken. admitted ≡ Ok taken.1) }
        ensures refused { (programs : List ProgramBytes) (buffer : List ℕ)
            → IsAdmissionOf programs credit buffer admitted
            → IfErr result (λ e. RefusesSubmit self.old tenant.now programs credit buffer e) }
        ensures unchanged { OnErr result (self.new ≡ self.old) }
    {
        let Some(sums) = sums_of(&self.tenants, tenant) else {
            return Err(SubmitFault::NoTenant);
        };
        if u64::from(credit) > account_of(sums).balance {
            return Err(SubmitFault::BalanceLow);
        }
        let job = match admitted {
            Ok(job) => job,
            Err(fault) => return Err(SubmitFault::Admit(fault)),
        };
        let entry = JobEntry {
            tenant: String::from_str(alloc, tenant)?,
            credit,
            standing: JobStanding::Open,
        };
        self.jobs.add(entry)?;
        let opened = sums.opened + u64::from(credit);
        change(&mut self.tenants, tenant, Sums { opened, ..sums });
        Ok((self.jobs.count(), job))
    }

    /// Ends an open job with its report, or with the number of what it failed by; 76 where no open
    /// job has the number.
    ///
    /// What the report has spent is spent, and the rest of the job's credit is back in the balance.
    /// A report whose spent and returned don't add up to the credit counts as 82; with a number the
    /// whole credit goes back.
    pub fn finish(&mut self, job: u64, outcome: Result<Report, u8>) -> Result<(), DeskFault>
        ensures finished { OnOk result (Finishes self.old job outcome self.new) }
        ensures refused { IfErr result (λ e. (e ≡ fault.NoJob) × IsNotOpen self.old job) }
        ensures unchanged { OnErr result (self.new ≡ self.old) }
    {
        let Some(entry) = self.jobs.entry(job) else {
            return Err(DeskFault::NoJob);
        };
        if !entry.standing.is_open() {
            return Err(DeskFault::NoJob);
        }
        let settled = settle(entry.credit, outcome);
        let Some(sums) = sums_of(&self.tenants, &entry.tenant) else {
            unreachable!()
        };
        let after = Sums {
            opened: sums.opened - u64::from(entry.credit),
            spent: sums.spent + u64::from(settled.spent()),
            ..sums
        };
        change(&mut self.tenants, &entry.tenant, after);
        self.jobs.note(job, settled);
        Ok(())
    }

    /// Forgets each of the first so many jobs that is over. A forgotten job is told as 76, and every
    /// account is as it was.
    pub fn forget(&mut self, ahead: u64)
        ensures { Forgets self.old ahead self.new }
    {
        self.jobs.forget(ahead);
    }

    /// Forgets jobs that are over, the first ones first, until the others are within the limits.
    /// Open jobs stay, and keep no other one. Answers the number of the last job that is forgotten,
    /// or 0: [`Desk::forget`] with that leaves the same.
    pub fn keep_within(&mut self, limits: KeepLimits) -> u64
        ensures kept { KeepsWithin limits self.old self.new }
        ensures forgets { ForgetsTo limits self.old result self.new }
    {
        self.jobs.keep_within(limits)
    }

    /// What a job has come to: its report's totals, or what was seen of it while it is open.
    ///
    /// 76 where there is no such job, or the number that it failed by.
    #[tactic(auto, unfolding(crate::specs::Ledgers::progress_at))]
    pub fn status(&self, job: u64, seen: Progress) -> Result<Progress, DeskFault>
        ensures { result ≡ progress_at self.now job seen }
    {
        let Some(entry) = self.jobs.entry(job) else {
            return Err(DeskFault::NoJob);
        };
        match &entry.standing {
            JobStanding::Open => Ok(seen),
            JobStanding::Reported(report) => Ok(Progress {
                spent: report.get().spent,
                returned: report.get().returned,
                complete: true,
            }),
            JobStanding::Failed(code) => Err(DeskFault::Failed(*code)),
        }
    }

    /// The report of a job; 76 where there is no such job, 77 while it is open, or the number that
    /// it failed by.
    #[tactic(auto, unfolding(crate::specs::Ledgers::report_at))]
    pub fn result(&self, job: u64) -> Result<&Report, DeskFault>
        ensures { MatchResult result (λ report. report_at self.now job
            ≡ Ok report.now) (λ e. report_at self.now job ≡ Err e) }
    {
        let Some(entry) = self.jobs.entry(job) else {
            return Err(DeskFault::NoJob);
        };
        match &entry.standing {
            JobStanding::Open => Err(DeskFault::NotComplete),
            JobStanding::Reported(report) => Ok(report.get()),
            JobStanding::Failed(code) => Err(DeskFault::Failed(*code)),
        }
    }

    /// The report of a job as [`Desk::result`] tells it, for one holder more: the bytes aren't copied,
    /// and stay as long as it is held. 99 where there was no memory to share the report.
    #[tactic(auto, unfolding(crate::specs::Ledgers::report_at))]
    pub fn shared_result(
        &mut self,
        alloc: Global,
        job: u64,
    ) -> Result<Result<SharedReport, DeskFault>, NoMemory>
        ensures told { IfOk result (λ told. report_at self.old job ≡ told) }
        ensures refused { OnErr result
            ((report : Report) × (report_at self.old job ≡ Ok report)) }
        ensures same { self.new ≡ self.old }
    {
        match self.result(job) {
            Ok(_) => {}
            Err(fault) => return Ok(Err(fault)),
        }
        let report = self.jobs.share(alloc, job)?;
        Ok(Ok(report))
    }

    /// How many jobs were taken, with those that are forgotten: the number of the last one.
    pub fn job_count(&self) -> u64
        ensures { result ≡ length self.now.jobs }
    {
        self.jobs.count()
    }

    /// The jobs from this number on, in order, with how each stands, and without the forgotten ones:
    /// the first 1,000 of them.
    pub fn listing(&self, alloc: Global, from: u64) -> Result<Vec<ListedJob>, NoMemory>
        requires { 1 ≤ from }
        ensures { IfOk result (λ found. found.items ≡ listing self.now.jobs from) }
    {
        list_jobs(alloc, &self.jobs, from)
    }
}
