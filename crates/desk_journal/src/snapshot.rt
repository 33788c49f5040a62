//! A snapshot of a desk: the changes that put it back.

ghost use Rattle.std.specs.Prelude.{◌≡◌, ◌⊎◌, ◌++◌, ◌∷◌, ◌<◌, ◌^◌, ℕ, List, false, IfOk, IsErrOf, OnOk};
ghost use Rattle.std.specs.Int.{w32, to_le_bytes};
ghost use Rattle.compaction.specs.declared.snapshot.SnapshotFault.TheVariants.{TooLarge};
ghost use Rattle.journal.specs.Records.{AllFitRecords, FitsRecord, journal_of, record_of};
ghost use Rattle.desk_journal.specs.DeskChanges.{change_bytes};
ghost use Rattle.accounts.specs.Jobs.{is_open};
ghost use Rattle.desk_journal.specs.Changes.{report_bytes};
ghost use Rattle.desk_journal.specs.Encodings.{counted_bytes};
ghost use Rattle.desk_journal.specs.HeldJobs.{AreHeldFrom};
ghost use Rattle.desk_journal.specs.SnapshotChanges.{AreAccountChanges, AreJobChanges, HasLargeAccount, HasLargeJob, IsAccountChange, IsFailureChange, IsReportChange};
ghost use Rattle.desk_journal.specs.declared.change.DeskChange.TheVariants.{JobsSkipped};
ghost use Rattle.desk_journal.specs.declared.journaled_desk.OpenJob.{OpenJob};

use crate::change::{DeskChange, write_report_change};
use crate::journaled_desk::{JournaledDesk, within_width};
use accounts::{Desk, JobEntry, JobStanding, KeptAccount};
use compaction::{Snapshot, SnapshotFault};
use credit_book::Report;
use journal::encode_record;
use std::alloc::{AllocError, Global};

const LONGEST_PAYLOAD: usize = (1 << 32) - 1;

// Adds the record of a change of these bytes.
fn add_record(payload: &[u8], out: &mut Vec<u8>) -> Result<(), SnapshotFault>
    ensures fits { OnOk result (FitsRecord payload.now) }
    ensures added { OnOk result (out.new.items ≡ out.old.items ++ record_of payload.now) }
    ensures too_large { IsErrOf result TooLarge → FitsRecord payload.now → ⊥ }
{
    if payload.len() > LONGEST_PAYLOAD {
        return Err(SnapshotFault::TooLarge);
    }
    encode_record(out, payload)?;
    Ok(())
}

// The change that opens a tenant's account.
fn account_payload(alloc: Global, account: &KeptAccount) -> Result<Vec<u8>, AllocError>
    ensures { IfOk result (λ payload. IsAccountChange account.now payload.items) }
{
    let tenant = account.tenant.as_bytes().to_vec(alloc)?;
    let change = DeskChange::AccountOpened {
        tenant,
        granted: account.granted,
        spent: account.spent,
    };
    change.to_bytes(alloc)
}

// Adds the record that opens each account, in this order.
fn add_accounts(
    alloc: Global,
    accounts: &[KeptAccount],
    out: &mut Vec<u8>,
) -> Result<(), SnapshotFault>
    ensures added { OnOk result ((payloads : List (List ℕ)) × AreAccountChanges accounts.now payloads
        × AllFitRecords payloads × (out.new.items ≡ out.old.items ++ journal_of payloads)) }
    ensures too_large { IsErrOf result TooLarge → HasLargeAccount accounts.now }
{
    let mut rest = accounts;
    'accounts: while let Some((first, others)) = rest.split_first() {
        let payload = account_payload(alloc, first)?;
        add_record(&payload, out)?;
        rest = others;
    }
    Ok(())
}

// Adds the record of a run of so many gone jobs.
fn add_run(alloc: Global, count: u64, out: &mut Vec<u8>) -> Result<(), SnapshotFault>
    ensures few { count < 2 ^ 64 }
    ensures fits { FitsRecord (change_bytes (JobsSkipped count)) }
    ensures added { OnOk result (out.new.items
        ≡ out.old.items ++ record_of (change_bytes (JobsSkipped count))) }
    ensures small { IsErrOf result TooLarge → ⊥ }
{
    let payload = DeskChange::JobsSkipped { count }.to_bytes(alloc)?;
    add_record(&payload, out)
}

// The change that puts a job with this report back.
fn report_payload(
    alloc: Global,
    tenant: &[u8],
    credit: u32,
    report: &Report,
) -> Result<Vec<u8>, AllocError>
    ensures { IfOk result (λ bytes. bytes.items ≡ 9 ∷ (counted_bytes tenant.now
        ++ (to_le_bytes w32 credit ++ report_bytes report.now))) }
{
    let mut bytes = Vec::new(alloc);
    write_report_change(tenant, credit, report, &mut bytes)?;
    Ok(bytes)
}

// The change that puts a job back that is over.
fn entry_payload(alloc: Global, entry: &JobEntry) -> Result<Vec<u8>, AllocError>
    requires { is_open entry.now.standing ≡ false }
    ensures { IfOk result (λ payload. IsReportChange entry.now payload.items
        ⊎ IsFailureChange entry.now payload.items) }
{
    let credit = within_width(entry.credit);
    let tenant = entry.tenant.as_bytes().to_vec(alloc)?;
    match &entry.standing {
        JobStanding::Open => unreachable!(),
        JobStanding::Reported(kept) => {
            let report = kept.get();
            // for the proof
            let _sums = (within_width(report.spent), within_width(report.returned));
            report_payload(alloc, &tenant, credit, report)
        }
        JobStanding::Failed(code) => {
            let change = DeskChange::FailureKept {
                tenant,
                credit,
                code: *code,
            };
            change.to_bytes(alloc)
        }
    }
}

// Adds the record that puts a job back that is over.
fn add_entry(alloc: Global, entry: &JobEntry, out: &mut Vec<u8>) -> Result<(), SnapshotFault>
    requires { is_open entry.now.standing ≡ false }
    ensures added { OnOk result ((payload : List ℕ) × (IsReportChange entry.now payload
        ⊎ IsFailureChange entry.now payload) × FitsRecord payload
        × (out.new.items ≡ out.old.items ++ record_of payload)) }
    ensures too_large { IsErrOf result TooLarge → (payload : List ℕ)
        × (IsReportChange entry.now payload ⊎ IsFailureChange entry.now payload)
        × (FitsRecord payload → ⊥) }
{
    let payload = entry_payload(alloc, entry)?;
    add_record(&payload, out)
}

// Adds the records of all jobs, in the order of their numbers. The open ones have these sources.
fn add_jobs(
    alloc: Global,
    desk: &Desk,
    sources: &[Vec<u8>],
    out: &mut Vec<u8>,
) -> Result<(), SnapshotFault>
    requires { (held : List OpenJob) × AreHeldFrom 1 desk.now.jobs held sources.now }
    ensures added { OnOk result ((payloads : List (List ℕ))
        × AreJobChanges desk.now.jobs sources.now payloads
        × AllFitRecords payloads × (out.new.items ≡ out.old.items ++ journal_of payloads)) }
    ensures too_large { IsErrOf result TooLarge → HasLargeJob desk.now.jobs }
{
    let last = desk.job_count();
    let mut done = 0;
    let mut rest = sources;
    'jobs: while done < last {
        let number = done + 1;
        let next = desk.next_kept(number);
        if next > number {
            add_run(alloc, next - number, out)?;
            done = next - 1;
            continue;
        }
        let Some(entry) = desk.entry(number) else {
            unreachable!()
        };
        done = number;
        if entry.standing.is_open() {
            let Some((first, others)) = rest.split_first() else {
                unreachable!()
            };
            add_record(first, out)?;
            rest = others;
            continue;
        }
        add_entry(alloc, entry, out)?;
    }
    add_run(alloc, 0, out)
}

impl Snapshot for JournaledDesk {
    ghost use Rattle.desk_journal.specs.AlikeDesks.{AreDesksAlike};
    ghost use Rattle.desk_journal.specs.AlikeLemmas.{alike_self, alike_through};
    ghost use Rattle.desk_journal.specs.AlikeSteps.{alike_step};
    ghost use Rattle.desk_journal.specs.SnapshotChanges.{HasLargeChange};

    ghost alike = { AreDesksAlike };

    ghost is_too_large = { HasLargeChange };

    fn snapshot(&self, alloc: Global, out: &mut Vec<u8>) -> Result<(), SnapshotFault> {
        let Ok(accounts) = self.desk.kept_accounts(alloc) else {
            return Err(SnapshotFault::NoMemory);
        };
        add_accounts(alloc, &accounts, out)?;
        add_jobs(alloc, &self.desk, &self.sources, out)
    }

    ghost alike_self = { alike_self };

    ghost alike_through = { alike_through };

    ghost alike_step = { alike_step };
}
