//! A desk whose changes a journal keeps, with its open jobs.

ghost use Rattle.std.specs.Prelude.{◌≡◌, ◌⊎◌, ◌<◌, ◌^◌, ◌++◌, ◌∷◌, [], IfOk, IfNone, IfSome, IsErrOf, OnErr, OnOk, length, slice_get, Some};
ghost use Rattle.desk_journal.specs.DeskSteps.{IsCopyOf, IsNotHeld};
ghost use Rattle.desk_journal.specs.declared.journaled_desk.OpenJob.{OpenJob};
ghost use Rattle.recovery.specs.declared.state_machine.ApplyFault.TheVariants.{Refused};

use crate::change::DeskChange;
use accounts::{Desk, DeskFault, JobStanding, SubmitFault};
use credit_book::Report;
use job_core::{AdmitFault, Job, ProgramBytes};
use recovery::{ApplyFault, StateMachine};
use std::alloc::{AllocError, Global};
use std::marker::Model;

/// A job that isn't over, with its number.
#[derive(Drop)]
pub struct OpenJob {
    pub number: u64,
    pub job: Job,
}

/// A desk, and its open jobs in the order in which they were taken. Contracts see both.
///
/// Each open job has the bytes of the change that took it beside it.
#[derive(Drop)]
pub struct JournaledDesk {
    pub(crate) desk: Desk,
    pub(crate) held: Vec<OpenJob>,
    pub(crate) sources: Vec<Vec<u8>>,
}

impl Model for JournaledDesk {
    ghost use Rattle.desk_journal.specs.DeskSteps.{DeskState};
    ghost use Rattle.desk_journal.specs.HeldJobs.{AreHeldFrom};

    ghost Value = { DeskState };

    ghost view = { λ d. record { desk = d.desk; held = d.held.items } };

    ghost invariant = { λ d. AreHeldFrom 1 d.desk.jobs d.held.items d.sources.items };
}

// The place of the job of this number.
fn place_of(held: &[OpenJob], number: u64) -> Option<usize>
    ensures some { IfSome result (λ place. (place < length held.now)
        × ((job : OpenJob) × (slice_get held.now place ≡ Some job) × (job.number ≡ number))) }
    ensures none { IfNone result (IsNotHeld held.now number) }
{
    held.iter().position(|job| job.number == number)
}

// The same number, which is within its width.
pub(crate) fn within_width(number: u32) -> u32
    ensures same { result ≡ number }
    ensures within { result < 2 ^ 32 }
{
    number
}

// The same report.
pub(crate) fn copy_of(alloc: Global, report: &Report) -> Result<Report, AllocError>
    ensures { IfOk result (λ copy. IsCopyOf report.now copy) }
{
    Ok(Report {
        spent: within_width(report.spent),
        returned: within_width(report.returned),
        buffer: report.buffer.to_vec(alloc)?,
        tasks: report.tasks.to_vec(alloc)?,
    })
}

impl JournaledDesk {
    ghost use Rattle.accounts.specs.Ledgers.{Forgets, GrantsMore, RefusesGrant, RefusesSubmit, Takes};
    ghost use Rattle.accounts.specs.declared.fault.DeskFault.{DeskFault};
    ghost use Rattle.accounts.specs.declared.fault.SubmitFault.{SubmitFault};
    ghost use Rattle.job_core.specs.Admission.{IsAdmittedFrom};
    ghost use Rattle.desk_journal.specs.DeskSteps.{EndsJob, IsNoText, RefusesEnd};
    ghost use Rattle.desk_journal.specs.HeldJobs.{IsTakingChange};
    ghost use Rattle.desk_journal.specs.Changes.{report_bytes};

    /// The desk.
    pub fn desk(&self) -> &Desk
        ensures { result.now ≡ self.now.desk }
    {
        &self.desk
    }

    /// The desk, and its open jobs in the order of their numbers.
    pub fn into_parts(self) -> (Desk, Vec<OpenJob>)
        ensures { (result.0 ≡ self.desk) × (result.1.items ≡ self.held) }
    {
        let JournaledDesk {
            desk,
            held,
            sources: _sources,
        } = self;
        (desk, held)
    }

    // Grants credit to a tenant.
    fn grant(&mut self, alloc: Global, tenant: &[u8], amount: u32) -> Result<(), ApplyFault>
        ensures ok { OnOk result (GrantsMore self.old.desk tenant.now amount self.new.desk
            × (self.new.held ≡ self.old.held)) }
        ensures err { OnErr result (self.new ≡ self.old) }
        ensures refused { IsErrOf result Refused → IsNoText tenant.now ⊎ ((fault : DeskFault)
            × RefusesGrant self.old.desk tenant.now amount fault) }
    {
        let Ok(name) = str::from_utf8(tenant) else {
            return Err(ApplyFault::Refused);
        };
        match self.desk.grant(alloc, name, amount) {
            Ok(_) => Ok(()),
            Err(DeskFault::NoMemory) => Err(ApplyFault::NoMemory),
            Err(_) => Err(ApplyFault::Refused),
        }
    }

    // Takes a tenant's job by the change of these bytes.
    fn submit(
        &mut self,
        alloc: Global,
        tenant: &[u8],
        programs: &[ProgramBytes],
        credit: u32,
        buffer: &[u8],
        source: Vec<u8>,
    ) -> Result<(), ApplyFault>
        requires { IsTakingChange tenant.now programs.now credit buffer.now source.items }
        ensures ok { OnOk result (Takes self.old.desk tenant.now credit self.new.desk
            × ((taken : OpenJob) × IsAdmittedFrom programs.now credit buffer.now taken.job
            × (taken.number ≡ length self.new.desk.jobs)
            × (self.new.held ≡ self.old.held ++ taken ∷ []))) }
        ensures err { OnErr result (self.new ≡ self.old) }
        ensures refused { IsErrOf result Refused → IsNoText tenant.now ⊎ ((fault : SubmitFault)
            × RefusesSubmit self.old.desk tenant.now programs.now credit buffer.now fault) }
    {
        let Ok(name) = str::from_utf8(tenant) else {
            return Err(ApplyFault::Refused);
        };
        let Ok(buffer) = buffer.to_vec(alloc) else {
            return Err(ApplyFault::NoMemory);
        };
        if self.held.reserve(1).is_err() {
            return Err(ApplyFault::NoMemory);
        }
        if self.sources.reserve(1).is_err() {
            return Err(ApplyFault::NoMemory);
        }
        match self.desk.submit(alloc, name, programs, credit, buffer) {
            Ok((number, job)) => {
                self.held.push_reserved(OpenJob { number, job });
                self.sources.push_reserved(source);
                Ok(())
            }
            Err(SubmitFault::Admit(AdmitFault::NoMemory)) => Err(ApplyFault::NoMemory),
            Err(_) => Err(ApplyFault::Refused),
        }
    }

    // Ends an open job.
    fn finish(&mut self, job: u64, outcome: Result<Report, u8>) -> Result<(), ApplyFault>
        ensures ok { OnOk result (EndsJob job outcome self.old self.new) }
        ensures err { OnErr result (self.new ≡ self.old) }
        ensures refused { IsErrOf result Refused → RefusesEnd job self.old }
    {
        let Some(place) = place_of(&self.held, job) else {
            return Err(ApplyFault::Refused);
        };
        match self.desk.finish(job, outcome) {
            Ok(()) => {
                self.held.remove(place);
                self.sources.remove(place);
                Ok(())
            }
            Err(_) => Err(ApplyFault::Refused),
        }
    }

    // Ends an open job with a report.
    fn report(&mut self, alloc: Global, job: u64, report: &Report) -> Result<(), ApplyFault>
        ensures ok { OnOk result ((same : Report) × (report_bytes same ≡ report_bytes report.now)
            × EndsJob job (Ok same) self.old self.new) }
        ensures err { OnErr result (self.new ≡ self.old) }
        ensures refused { IsErrOf result Refused → RefusesEnd job self.old }
    {
        let Ok(report) = copy_of(alloc, report) else {
            return Err(ApplyFault::NoMemory);
        };
        self.finish(job, Ok(report))
    }

    // Forgets those of the first so many jobs that are over.
    fn forget(&mut self, ahead: u64)
        ensures { Forgets self.old.desk ahead self.new.desk × (self.new.held ≡ self.old.held) }
    {
        self.desk.forget(ahead);
    }
}

impl StateMachine for JournaledDesk {
    type StateChange = DeskChange;

    ghost use Rattle.desk_journal.specs.DeskSteps.{IsNewDesk, MakesBytes, RefusesChangeBytes};

    ghost starts = { IsNewDesk };

    ghost steps = { MakesBytes };

    ghost refuses = { RefusesChangeBytes };

    fn start(alloc: Global) -> JournaledDesk {
        JournaledDesk {
            desk: Desk::new(alloc),
            held: Vec::new(alloc),
            sources: Vec::new(alloc),
        }
    }

    fn apply(&mut self, alloc: Global, change: &DeskChange) -> Result<(), ApplyFault> {
        match change {
            DeskChange::Granted { tenant, amount } => self.grant(alloc, tenant, *amount),
            DeskChange::Submitted {
                tenant,
                programs,
                credit,
                buffer,
            } => {
                let Ok(source) = change.to_bytes(alloc) else {
                    return Err(ApplyFault::NoMemory);
                };
                self.submit(alloc, tenant, programs, *credit, buffer, source)
            }
            DeskChange::Finished { job, report } => self.report(alloc, *job, report),
            DeskChange::Failed { job, code } => self.finish(*job, Err(*code)),
            DeskChange::Forgotten { ahead } => {
                self.forget(*ahead);
                Ok(())
            }
            DeskChange::AccountOpened {
                tenant,
                granted,
                spent,
            } => self.open_account(alloc, tenant, *granted, *spent),
            DeskChange::JobsSkipped { count } => self.skip_jobs(*count),
            DeskChange::ReportKept {
                tenant,
                credit,
                report,
            } => self.put_report_back(alloc, tenant, *credit, report),
            DeskChange::FailureKept {
                tenant,
                credit,
                code,
            } => self.put_back(alloc, tenant, *credit, JobStanding::Failed(*code)),
        }
    }
}
