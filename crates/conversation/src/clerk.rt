//! What answers requests over accounts, and gives their jobs to the host.

use crate::handed_jobs::HandedJobs;
use accounts::{Desk, DeskFault};
use credit_book::Report;
use refusal::NoMemory;
use sessions::Request;
use std::alloc::Global;
use streams::Handler;

/// Accounts, and the jobs that wait for the host.
#[derive(Drop)]
pub struct Clerk {
    ledger: Desk,
    jobs: HandedJobs,
}

impl Handler<()> for Clerk {
    ghost use Rattle.conversation.specs.Clerks.{ClerkAnswers};

    ghost ready = { λ _. Unit {0} };

    ghost answers = { λ s query reply t. ClerkAnswers s.1 query reply t.1 };

    fn answer(
        &mut self,
        alloc: Global,
        _desk: &mut (),
        request: Result<Request, u8>,
    ) -> Result<Vec<u8>, NoMemory> {
        self.jobs.prepare(alloc, &request);
        self.jobs.answer(alloc, &mut self.ledger, request)
    }
}

impl Clerk {
    ghost use Rattle.std.specs.Prelude.{◌≡◌, ◌⊎◌, ◌∷◌, [], None, OnOk, OnErr, IfErr, IfSome, IfNone, IsSome};
    ghost use Rattle.std.specs.BTreeMap.{get};
    ghost use Rattle.std.specs.Ordering.{nat_cmp};
    ghost use Rattle.accounts.specs.Ledgers.{Finishes, IsNotOpen};
    ghost use Rattle.accounts.specs.declared.fault.DeskFault.TheVariants.{NoJob};
    ghost use Rattle.conversation.specs.Handed.{HasFirst};

    /// No tenant, and no job.
    pub fn new(alloc: Global) -> Clerk
        ensures ledger { result.ledger ≡ record { grants = []; past = []; jobs = [] } }
        ensures jobs { result.jobs.waiting.entries ≡ [] }
    {
        Clerk {
            ledger: Desk::new(alloc),
            jobs: HandedJobs::new(alloc),
        }
    }

    /// The job of lowest number that waits: its number, and its object.
    pub fn first_job(&self) -> Option<(u64, &[u8])>
        ensures some { IfSome result (λ job.
            HasFirst self.now.jobs.waiting.entries job.0 job.1.now) }
        ensures none { IfNone result (self.now.jobs.waiting.entries ≡ []) }
    {
        self.jobs.first()
    }

    /// Gives the job of lowest number that waits to the host, once.
    pub fn fetch_job(&mut self) -> Option<(u64, Vec<u8>)>
        ensures some { IfSome result (λ job.
            self.old.jobs.waiting.entries ≡ job ∷ self.new.jobs.waiting.entries) }
        ensures none { IfNone result ((self.old.jobs.waiting.entries ≡ [])
            × (self.new.jobs.waiting.entries ≡ [])) }
        ensures ledger { self.new.ledger ≡ self.old.ledger }
    {
        self.jobs.fetch()
    }

    /// Ends a job that the host has fetched with its report, or with the number of what it failed
    /// by. 76 where the job still waits, or no open job has the number.
    pub fn finish(&mut self, job: u64, outcome: Result<Report, u8>) -> Result<(), DeskFault>
        ensures finished { OnOk result (Finishes self.old.ledger job outcome self.new.ledger) }
        ensures fetched { OnOk result (get nat_cmp self.old.jobs.waiting job ≡ None) }
        ensures refused { IfErr result (λ e. (e ≡ NoJob)
            × (IsNotOpen self.old.ledger job ⊎ IsSome (get nat_cmp self.old.jobs.waiting job))) }
        ensures unchanged { OnErr result (self.new.ledger ≡ self.old.ledger) }
        ensures jobs { self.new.jobs ≡ self.old.jobs }
    {
        if self.jobs.waits(job) {
            return Err(DeskFault::NoJob);
        }
        self.ledger.finish(job, outcome)
    }
}
