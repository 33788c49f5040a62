//! Jobs of the pieces of a caller's code, as they are admitted.

ghost use Rattle.std.specs.Prelude.{◌≡◌, length, IfOk, IfErr};
ghost use Rattle.job_core.specs.Admission.{IsWithinLimits};
ghost use Rattle.telgovan_c.specs.Jobs.{IsWithinNumbers};
ghost use Rattle.telgovan_c.specs.Admitting.{IsAdmittedOf, IsCutJob, IsJobRefused, IsRefusedOf};

use crate::jobs::{CodePiece, JobReport, copied, cut, missing_report, over_limits, refused_report};
use job_core::{AdmitFault, Job, ProgramBytes, admit};
use std::alloc::Global;

/// A job that is admitted, beside the bytes of its programs.
#[derive(Drop)]
pub(crate) struct CutJob {
    pub(crate) programs: Vec<ProgramBytes>,
    pub(crate) job: Job,
}

// Admits a job of these programs on a copy of the buffer, or tells the refusal.
fn admit_programs(
    alloc: Global,
    programs: Vec<ProgramBytes>,
    credit: u32,
    buffer: &[u8],
) -> Result<CutJob, JobReport>
    requires limits { IsWithinLimits programs.items credit buffer.now }
    ensures admitted { IfOk result (λ found. IsAdmittedOf programs.items credit buffer.now
        found.programs.items
        found.job) }
    ensures refused { IfErr result (λ told. IsRefusedOf programs.items credit buffer.now told) }
{
    let Ok(own) = copied(alloc, buffer) else {
        return Err(refused_report(&AdmitFault::NoMemory));
    };
    match admit(alloc, &programs, credit, own) {
        Ok(job) => Ok(CutJob { programs, job }),
        Err(fault) => Err(refused_report(&fault)),
    }
}

// Admits a job of these pieces, where the numbers are within their limits, or tells the refusal.
fn admit_within(
    alloc: Global,
    code: &[u8],
    pieces: &[CodePiece],
    credit: u32,
    buffer: &[u8],
) -> Result<CutJob, JobReport>
    requires limits { IsWithinNumbers (length pieces.now) credit (length buffer.now) }
    ensures admitted { IfOk result (λ found. IsCutJob code.now pieces.now credit buffer.now
        found.programs.items
        found.job) }
    ensures refused { IfErr result (λ told. IsJobRefused code.now pieces.now credit buffer.now told) }
{
    match cut(alloc, code, pieces) {
        Ok(programs) => {
            if programs.len() < pieces.len() {
                return Err(missing_report(programs.len() as u32));
            }
            admit_programs(alloc, programs, credit, buffer)
        }
        Err(_) => Err(refused_report(&AdmitFault::NoMemory)),
    }
}

/// Admits a job of the programs that these pieces of the code are, on a copy of the buffer, or tells
/// the refusal. The buffer stays as it was.
pub(crate) fn admit_pieces(
    alloc: Global,
    code: &[u8],
    pieces: &[CodePiece],
    credit: u32,
    buffer: &[u8],
) -> Result<CutJob, JobReport>
    ensures admitted { IfOk result (λ found. IsCutJob code.now pieces.now credit buffer.now
        found.programs.items
        found.job) }
    ensures refused { IfErr result (λ told. IsJobRefused code.now pieces.now credit buffer.now told) }
{
    match over_limits(pieces.len(), credit, buffer.len()) {
        Some(fault) => Err(refused_report(&fault)),
        None => admit_within(alloc, code, pieces, credit, buffer),
    }
}
