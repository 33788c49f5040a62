//! The changes of a desk.

ghost use Rattle.std.specs.Prelude.{◌≡◌, ◌≤◌, ◌++◌, ◌∷◌, [], ℕ, List, drop, length, IfOk, OnOk, IsErrOf};
ghost use Rattle.std.specs.Int.{w32, w64, to_le_bytes};
ghost use Rattle.desk_journal.specs.Changes.{program_bytes, report_bytes};
ghost use Rattle.desk_journal.specs.DeskChanges.{body_bytes, change_bytes, tag_of};
ghost use Rattle.desk_journal.specs.Encodings.{counted_bytes, list_bytes};
ghost use Rattle.desk_journal.specs.declared.change.DeskChange.{DeskChange};
ghost use Rattle.desk_journal.specs.declared.encoded.ReadFault.TheVariants.{NoValue};

use crate::bytes::{Blob, write_bytes};
use crate::encoded::{Encoded, ReadFault};
use crate::lists::write_list;
use crate::whole::read_whole;
use credit_book::Report;
use job_core::ProgramBytes;
use recovery::{ChangeFault, StateChange};
use std::alloc::{AllocError, Global};

/// A change of a desk. A tenant's name is seen as its bytes.
#[derive(Drop)]
pub enum DeskChange {
    /// A tenant was granted credit.
    Granted {
        tenant: Vec<u8>,
        amount: u32,
    },
    /// A tenant's job was taken.
    Submitted {
        tenant: Vec<u8>,
        programs: Vec<ProgramBytes>,
        credit: u32,
        buffer: Vec<u8>,
    },
    /// An open job came to a report.
    Finished {
        job: u64,
        report: Report,
    },
    /// An open job failed by this refusal.
    Failed {
        job: u64,
        code: u8,
    },
    /// Of the first so many jobs, those that are over were forgotten.
    Forgotten {
        ahead: u64,
    },
    /// A tenant is there again, with the sum of its grants and with what all its jobs spent.
    AccountOpened {
        tenant: Vec<u8>,
        granted: u64,
        spent: u64,
    },
    /// In the place of so many forgotten jobs.
    JobsSkipped {
        count: u64,
    },
    /// A job that is over is there again, with its report.
    ReportKept {
        tenant: Vec<u8>,
        credit: u32,
        report: Report,
    },
    /// A job that is over is there again, with the refusal that it failed by.
    FailureKept {
        tenant: Vec<u8>,
        credit: u32,
        code: u8,
    },
}

// The first byte of each form.
const GRANTED: u8 = 1;

const SUBMITTED: u8 = 2;

const FINISHED: u8 = 3;

const FAILED: u8 = 4;

const FORGOTTEN: u8 = 6;

const ACCOUNT_OPENED: u8 = 7;

const JOBS_SKIPPED: u8 = 8;

const REPORT_KEPT: u8 = 9;

const FAILURE_KEPT: u8 = 10;

// The grant whose bytes stand at the front, behind its tag.
fn read_granted(alloc: Global, input: &[u8]) -> Result<(DeskChange, usize), ReadFault>
    ensures within { IfOk result (λ found. found.1 ≤ length input.now) }
    ensures found { IfOk result (λ found. (tag_of found.0 ≡ 1)
        × (input.now ≡ body_bytes found.0 ++ drop found.1 input.now)) }
    ensures refused { IsErrOf result NoValue → (change : DeskChange) (rest : List ℕ)
        → tag_of change ≡ 1 → input.now ≡ body_bytes change ++ rest → ⊥ }
{
    let ((tenant, amount), length) = <(Blob, u32)>::read(alloc, input)?;
    let tenant = tenant.bytes;
    Ok((DeskChange::Granted { tenant, amount }, length))
}

// The job whose bytes stand at the front, behind its tag.
fn read_submitted(alloc: Global, input: &[u8]) -> Result<(DeskChange, usize), ReadFault>
    ensures within { IfOk result (λ found. found.1 ≤ length input.now) }
    ensures found { IfOk result (λ found. (tag_of found.0 ≡ 2)
        × (input.now ≡ body_bytes found.0 ++ drop found.1 input.now)) }
    ensures refused { IsErrOf result NoValue → (change : DeskChange) (rest : List ℕ)
        → tag_of change ≡ 2 → input.now ≡ body_bytes change ++ rest → ⊥ }
{
    let ((tenant, (programs, (credit, buffer))), length) = <(
        Blob,
        (Vec<ProgramBytes>, (u32, Blob)),
    )>::read(alloc, input)?;
    let change = DeskChange::Submitted {
        tenant: tenant.bytes,
        programs,
        credit,
        buffer: buffer.bytes,
    };
    Ok((change, length))
}

// The report whose bytes stand at the front, behind its tag.
fn read_finished(alloc: Global, input: &[u8]) -> Result<(DeskChange, usize), ReadFault>
    ensures within { IfOk result (λ found. found.1 ≤ length input.now) }
    ensures found { IfOk result (λ found. (tag_of found.0 ≡ 3)
        × (input.now ≡ body_bytes found.0 ++ drop found.1 input.now)) }
    ensures refused { IsErrOf result NoValue → (change : DeskChange) (rest : List ℕ)
        → tag_of change ≡ 3 → input.now ≡ body_bytes change ++ rest → ⊥ }
{
    let ((job, report), length) = <(u64, Report)>::read(alloc, input)?;
    Ok((DeskChange::Finished { job, report }, length))
}

// The failure whose bytes stand at the front, behind its tag.
fn read_failed(alloc: Global, input: &[u8]) -> Result<(DeskChange, usize), ReadFault>
    ensures within { IfOk result (λ found. found.1 ≤ length input.now) }
    ensures found { IfOk result (λ found. (tag_of found.0 ≡ 4)
        × (input.now ≡ body_bytes found.0 ++ drop found.1 input.now)) }
    ensures refused { IsErrOf result NoValue → (change : DeskChange) (rest : List ℕ)
        → tag_of change ≡ 4 → input.now ≡ body_bytes change ++ rest → ⊥ }
{
    let ((job, code), length) = <(u64, u8)>::read(alloc, input)?;
    Ok((DeskChange::Failed { job, code }, length))
}

// The number of jobs whose bytes stand at the front, behind their tag.
fn read_forgotten(alloc: Global, input: &[u8]) -> Result<(DeskChange, usize), ReadFault>
    ensures within { IfOk result (λ found. found.1 ≤ length input.now) }
    ensures found { IfOk result (λ found. (tag_of found.0 ≡ 6)
        × (input.now ≡ body_bytes found.0 ++ drop found.1 input.now)) }
    ensures refused { IsErrOf result NoValue → (change : DeskChange) (rest : List ℕ)
        → tag_of change ≡ 6 → input.now ≡ body_bytes change ++ rest → ⊥ }
{
    let (ahead, length) = u64::read(alloc, input)?;
    Ok((DeskChange::Forgotten { ahead }, length))
}

// The account whose bytes stand at the front, behind its tag.
fn read_account_opened(alloc: Global, input: &[u8]) -> Result<(DeskChange, usize), ReadFault>
    ensures within { IfOk result (λ found. found.1 ≤ length input.now) }
    ensures found { IfOk result (λ found. (tag_of found.0 ≡ 7)
        × (input.now ≡ body_bytes found.0 ++ drop found.1 input.now)) }
    ensures refused { IsErrOf result NoValue → (change : DeskChange) (rest : List ℕ)
        → tag_of change ≡ 7 → input.now ≡ body_bytes change ++ rest → ⊥ }
{
    let ((tenant, (granted, spent)), length) = <(Blob, (u64, u64))>::read(alloc, input)?;
    let change = DeskChange::AccountOpened {
        tenant: tenant.bytes,
        granted,
        spent,
    };
    Ok((change, length))
}

// The number of forgotten jobs whose bytes stand at the front, behind their tag.
fn read_jobs_skipped(alloc: Global, input: &[u8]) -> Result<(DeskChange, usize), ReadFault>
    ensures within { IfOk result (λ found. found.1 ≤ length input.now) }
    ensures found { IfOk result (λ found. (tag_of found.0 ≡ 8)
        × (input.now ≡ body_bytes found.0 ++ drop found.1 input.now)) }
    ensures refused { IsErrOf result NoValue → (change : DeskChange) (rest : List ℕ)
        → tag_of change ≡ 8 → input.now ≡ body_bytes change ++ rest → ⊥ }
{
    let (count, length) = u64::read(alloc, input)?;
    Ok((DeskChange::JobsSkipped { count }, length))
}

// The job with a report whose bytes stand at the front, behind its tag.
fn read_report_kept(alloc: Global, input: &[u8]) -> Result<(DeskChange, usize), ReadFault>
    ensures within { IfOk result (λ found. found.1 ≤ length input.now) }
    ensures found { IfOk result (λ found. (tag_of found.0 ≡ 9)
        × (input.now ≡ body_bytes found.0 ++ drop found.1 input.now)) }
    ensures refused { IsErrOf result NoValue → (change : DeskChange) (rest : List ℕ)
        → tag_of change ≡ 9 → input.now ≡ body_bytes change ++ rest → ⊥ }
{
    let ((tenant, (credit, report)), length) = <(Blob, (u32, Report))>::read(alloc, input)?;
    let change = DeskChange::ReportKept {
        tenant: tenant.bytes,
        credit,
        report,
    };
    Ok((change, length))
}

// The job that failed whose bytes stand at the front, behind its tag.
fn read_failure_kept(alloc: Global, input: &[u8]) -> Result<(DeskChange, usize), ReadFault>
    ensures within { IfOk result (λ found. found.1 ≤ length input.now) }
    ensures found { IfOk result (λ found. (tag_of found.0 ≡ 10)
        × (input.now ≡ body_bytes found.0 ++ drop found.1 input.now)) }
    ensures refused { IsErrOf result NoValue → (change : DeskChange) (rest : List ℕ)
        → tag_of change ≡ 10 → input.now ≡ body_bytes change ++ rest → ⊥ }
{
    let ((tenant, (credit, code)), length) = <(Blob, (u32, u8))>::read(alloc, input)?;
    let change = DeskChange::FailureKept {
        tenant: tenant.bytes,
        credit,
        code,
    };
    Ok((change, length))
}

// The change of the form that a tag names, whose bytes stand at the front behind the tag.
fn read_body(alloc: Global, tag: u8, input: &[u8]) -> Result<(DeskChange, usize), ReadFault>
    ensures within { IfOk result (λ found. found.1 ≤ length input.now) }
    ensures found { IfOk result (λ found. (tag_of found.0 ≡ tag)
        × (input.now ≡ body_bytes found.0 ++ drop found.1 input.now)) }
    ensures refused { IsErrOf result NoValue → (change : DeskChange) (rest : List ℕ)
        → tag_of change ≡ tag → input.now ≡ body_bytes change ++ rest → ⊥ }
{
    if tag == GRANTED {
        return read_granted(alloc, input);
    }
    if tag == SUBMITTED {
        return read_submitted(alloc, input);
    }
    if tag == FINISHED {
        return read_finished(alloc, input);
    }
    if tag == FAILED {
        return read_failed(alloc, input);
    }
    if tag == FORGOTTEN {
        return read_forgotten(alloc, input);
    }
    if tag == ACCOUNT_OPENED {
        return read_account_opened(alloc, input);
    }
    if tag == JOBS_SKIPPED {
        return read_jobs_skipped(alloc, input);
    }
    if tag == REPORT_KEPT {
        return read_report_kept(alloc, input);
    }
    if tag == FAILURE_KEPT {
        return read_failure_kept(alloc, input);
    }
    Err(ReadFault::NoValue)
}

// Adds a job that was taken.
fn write_submitted(
    tenant: &[u8],
    programs: &[ProgramBytes],
    credit: u32,
    buffer: &[u8],
    out: &mut Vec<u8>,
) -> Result<(), AllocError>
    ensures { OnOk result (out.new.items ≡ out.old.items ++ (counted_bytes tenant.now
        ++ (list_bytes program_bytes programs.now
        ++ (to_le_bytes w32 credit ++ counted_bytes buffer.now)))) }
{
    write_bytes(tenant, out)?;
    write_list(programs, out)?;
    credit.write(out)?;
    write_bytes(buffer, out)?;
    Ok(())
}

// Adds the report of a job.
fn write_finished(job: u64, report: &Report, out: &mut Vec<u8>) -> Result<(), AllocError>
    ensures { OnOk result (out.new.items
        ≡ out.old.items ++ (to_le_bytes w64 job ++ report_bytes report.now)) }
{
    job.write(out)?;
    report.write(out)?;
    Ok(())
}

// Adds a tenant's account.
fn write_account(
    tenant: &[u8],
    granted: u64,
    spent: u64,
    out: &mut Vec<u8>,
) -> Result<(), AllocError>
    ensures { OnOk result (out.new.items ≡ out.old.items ++ (counted_bytes tenant.now
        ++ (to_le_bytes w64 granted ++ to_le_bytes w64 spent))) }
{
    write_bytes(tenant, out)?;
    granted.write(out)?;
    spent.write(out)?;
    Ok(())
}

// Adds a job that is over, with its report.
fn write_kept_report(
    tenant: &[u8],
    credit: u32,
    report: &Report,
    out: &mut Vec<u8>,
) -> Result<(), AllocError>
    ensures { OnOk result (out.new.items ≡ out.old.items ++ (counted_bytes tenant.now
        ++ (to_le_bytes w32 credit ++ report_bytes report.now))) }
{
    write_bytes(tenant, out)?;
    credit.write(out)?;
    report.write(out)?;
    Ok(())
}

// Adds a job that failed.
fn write_kept_failure(
    tenant: &[u8],
    credit: u32,
    code: u8,
    out: &mut Vec<u8>,
) -> Result<(), AllocError>
    ensures { OnOk result (out.new.items ≡ out.old.items ++ (counted_bytes tenant.now
        ++ (to_le_bytes w32 credit ++ (code ∷ [])))) }
{
    write_bytes(tenant, out)?;
    credit.write(out)?;
    code.write(out)?;
    Ok(())
}

// Adds what stands behind the tag.
fn write_body(change: &DeskChange, out: &mut Vec<u8>) -> Result<(), AllocError>
    ensures { OnOk result (out.new.items ≡ out.old.items ++ body_bytes change.now) }
{
    match change {
        DeskChange::Granted { tenant, amount } => {
            write_bytes(tenant, out)?;
            amount.write(out)
        }
        DeskChange::Submitted {
            tenant,
            programs,
            credit,
            buffer,
        } => write_submitted(tenant, programs, *credit, buffer, out),
        DeskChange::Finished { job, report } => write_finished(*job, report, out),
        DeskChange::Failed { job, code } => {
            job.write(out)?;
            code.write(out)
        }
        DeskChange::Forgotten { ahead } => ahead.write(out),
        DeskChange::AccountOpened {
            tenant,
            granted,
            spent,
        } => write_account(tenant, *granted, *spent, out),
        DeskChange::JobsSkipped { count } => count.write(out),
        DeskChange::ReportKept {
            tenant,
            credit,
            report,
        } => write_kept_report(tenant, *credit, report, out),
        DeskChange::FailureKept {
            tenant,
            credit,
            code,
        } => write_kept_failure(tenant, *credit, *code, out),
    }
}

/// Adds the change that puts a job with a report back.
pub(crate) fn write_report_change(
    tenant: &[u8],
    credit: u32,
    report: &Report,
    out: &mut Vec<u8>,
) -> Result<(), AllocError>
    ensures { OnOk result (out.new.items ≡ out.old.items ++ (9 ∷ (counted_bytes tenant.now
        ++ (to_le_bytes w32 credit ++ report_bytes report.now)))) }
{
    REPORT_KEPT.write(out)?;
    write_kept_report(tenant, credit, report, out)
}

impl DeskChange {
    // The first byte of its form.
    fn tag(&self) -> u8
        ensures { result ≡ tag_of self.now }
    {
        match self {
            DeskChange::Granted { .. } => GRANTED,
            DeskChange::Submitted { .. } => SUBMITTED,
            DeskChange::Finished { .. } => FINISHED,
            DeskChange::Failed { .. } => FAILED,
            DeskChange::Forgotten { .. } => FORGOTTEN,
            DeskChange::AccountOpened { .. } => ACCOUNT_OPENED,
            DeskChange::JobsSkipped { .. } => JOBS_SKIPPED,
            DeskChange::ReportKept { .. } => REPORT_KEPT,
            DeskChange::FailureKept { .. } => FAILURE_KEPT,
        }
    }

    /// Its bytes, in a vector of their own.
    pub(crate) fn to_bytes(&self, alloc: Global) -> Result<Vec<u8>, AllocError>
        ensures { IfOk result (λ bytes. bytes.items ≡ change_bytes self.now) }
    {
        let mut bytes = Vec::new(alloc);
        self.write(&mut bytes)?;
        Ok(bytes)
    }
}

impl Encoded for DeskChange {
    ghost use Rattle.desk_journal.specs.ChangeLemmas.{change_there, change_rest};

    ghost bytes = { change_bytes };

    fn write(&self, out: &mut Vec<u8>) -> Result<(), AllocError> {
        self.tag().write(out)?;
        write_body(self, out)
    }

    fn read(alloc: Global, input: &[u8]) -> Result<(DeskChange, usize), ReadFault> {
        let (tag, at) = u8::read(alloc, input)?;
        let (change, length) = read_body(alloc, tag, input.split_at(at).1)?;
        Ok((change, at + length))
    }

    ghost is_there = { change_there };

    ghost one_rest = { change_rest };
}

impl StateChange for DeskChange {
    ghost payload = { change_bytes };

    fn encode(&self, out: &mut Vec<u8>) -> Result<(), AllocError> {
        self.write(out)
    }

    fn decode(alloc: Global, bytes: &[u8]) -> Result<DeskChange, ChangeFault> {
        match read_whole::<DeskChange>(alloc, bytes) {
            Ok(change) => Ok(change),
            Err(ReadFault::NoMemory) => Err(ChangeFault::NoMemory),
            Err(ReadFault::NoValue) => Err(ChangeFault::NotAChange),
        }
    }
}
