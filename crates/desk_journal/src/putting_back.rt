//! What is put back into a desk: its accounts, and its jobs that are over.

ghost use Rattle.std.specs.Prelude.{◌≡◌, ◌≢◌, ◌⊎◌, ◌<◌, ◌^◌, IsErrOf, OnErr, OnOk};
ghost use Rattle.accounts.specs.Restoring.{AddsGone, OpensAccount, RefusesAccount, RefusesGone};
ghost use Rattle.accounts.specs.declared.fault.RestoreFault.{RestoreFault};
ghost use Rattle.accounts.specs.declared.fault.RestoreFault.TheVariants.{NoMemory};
ghost use Rattle.accounts.specs.declared.jobs.JobStanding.TheVariants.{Reported};
ghost use Rattle.credit_book.specs.declared.book.Report.{Report};
ghost use Rattle.desk_journal.specs.DeskSteps.{IsCopyOf, IsNoText, PutsBack, RefusesPutBack};
ghost use Rattle.recovery.specs.declared.state_machine.ApplyFault.TheVariants.{Refused};

use crate::journaled_desk::{JournaledDesk, copy_of};
use accounts::{JobStanding, KeptReport, RestoreFault};
use credit_book::Report;
use recovery::ApplyFault;
use std::alloc::Global;

// What is told of a refusal.
fn told_of(fault: RestoreFault) -> ApplyFault
    ensures { result ≡ Refused → fault ≢ NoMemory }
{
    match fault {
        RestoreFault::NoMemory => ApplyFault::NoMemory,
        _ => ApplyFault::Refused,
    }
}

impl JournaledDesk {
    /// Opens a tenant's account.
    pub(crate) fn open_account(
        &mut self,
        alloc: Global,
        tenant: &[u8],
        granted: u64,
        spent: u64,
    ) -> Result<(), ApplyFault>
        ensures ok { OnOk result (OpensAccount self.old.desk tenant.now granted spent self.new.desk
            × (self.new.held ≡ self.old.held)) }
        ensures err { OnErr result (self.new ≡ self.old) }
        ensures refused { IsErrOf result Refused → IsNoText tenant.now ⊎ ((fault : RestoreFault)
            × (fault ≢ NoMemory) × RefusesAccount self.old.desk tenant.now granted spent fault) }
    {
        let Ok(name) = str::from_utf8(tenant) else {
            return Err(ApplyFault::Refused);
        };
        match self.desk.open_account(alloc, name, granted, spent) {
            Ok(()) => Ok(()),
            Err(fault) => Err(told_of(fault)),
        }
    }

    /// Puts so many forgotten jobs behind the others.
    pub(crate) fn skip_jobs(&mut self, count: u64) -> Result<(), ApplyFault>
        ensures ok { OnOk result (AddsGone self.old.desk count self.new.desk × (count < 2 ^ 64)
            × (self.new.held ≡ self.old.held)) }
        ensures err { OnErr result (self.new ≡ self.old) }
        ensures refused { IsErrOf result Refused → (fault : RestoreFault)
            × RefusesGone self.old.desk count fault }
    {
        match self.desk.add_gone(count) {
            Ok(()) => Ok(()),
            Err(_) => Err(ApplyFault::Refused),
        }
    }

    /// Puts a job that is over behind the others, as it stands.
    pub(crate) fn put_back(
        &mut self,
        alloc: Global,
        tenant: &[u8],
        credit: u32,
        standing: JobStanding,
    ) -> Result<(), ApplyFault>
        ensures ok { OnOk result (PutsBack tenant.now credit standing self.old self.new) }
        ensures err { OnErr result (self.new ≡ self.old) }
        ensures refused { IsErrOf result Refused → RefusesPutBack tenant.now standing self.old }
    {
        let Ok(name) = str::from_utf8(tenant) else {
            return Err(ApplyFault::Refused);
        };
        match self.desk.recall(alloc, name, credit, standing) {
            Ok(()) => Ok(()),
            Err(fault) => Err(told_of(fault)),
        }
    }

    /// Puts a job behind the others that came to this report.
    pub(crate) fn put_report_back(
        &mut self,
        alloc: Global,
        tenant: &[u8],
        credit: u32,
        report: &Report,
    ) -> Result<(), ApplyFault>
        ensures ok { OnOk result ((copy : Report) × IsCopyOf report.now copy
            × PutsBack tenant.now credit (Reported copy) self.old self.new) }
        ensures err { OnErr result (self.new ≡ self.old) }
        ensures refused { IsErrOf result Refused → (copy : Report) × IsCopyOf report.now copy
            × RefusesPutBack tenant.now (Reported copy) self.old }
    {
        let Ok(report) = copy_of(alloc, report) else {
            return Err(ApplyFault::NoMemory);
        };
        self.put_back(
            alloc,
            tenant,
            credit,
            JobStanding::Reported(KeptReport::new(report)),
        )
    }
}
