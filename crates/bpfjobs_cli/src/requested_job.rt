//! The job that the input says, with its programs as the definitions have them.

ghost use Rattle.std.specs.Prelude.{◌≡◌, List, IfOk, MatchOption};
ghost use Rattle.verifier.specs.Checked.{Checked};
ghost use Rattle.job_core.specs.Admission.{AreAccepted};
ghost use Rattle.run_trace.specs.Spelled.{listings_of, programs_of};
ghost use Rattle.bpfjobs_cli.specs.Shown.{AreSpelledBy, IsRequestedJob, IsRefusedJob};

use job_core::{AdmitFault, ProgramBytes, admit};
use refusal::NoMemory;
use run_trace::JobPrograms;
use sessions::{JobObject, SessionFault, job_object};
use std::alloc::Global;

/// A job that is admitted.
#[derive(Drop)]
pub struct RequestedJob {
    pub programs: JobPrograms,
    pub credit: u32,
    pub buffer: Vec<u8>,
    pub schedule: Vec<u32>,
}

/// The same bytes once more.
fn copied(alloc: Global, bytes: &[u8]) -> Result<Vec<u8>, NoMemory>
    ensures { IfOk result (λ copy. copy.items ≡ bytes.now) }
{
    let mut copy = Vec::new(alloc);
    copy.extend_from_slice(bytes)?;
    Ok(copy)
}

/// The programs of a job, which are accepted.
fn job_programs(alloc: Global, programs: &[ProgramBytes]) -> Result<JobPrograms, NoMemory>
    requires { (accepted : List Checked) × AreAccepted programs.now accepted }
    ensures { IfOk result
        (λ ps. AreSpelledBy programs.now (listings_of ps) (programs_of ps)) }
{
    let mut found = JobPrograms::none(alloc);
    for program in programs {
        found.add(alloc, program.need, &program.code)?;
    }
    Ok(found)
}

/// The job that the input says, with its schedule where one is wanted; none where it says none, or
/// one that isn't admitted. Refused for want of memory alone.
pub fn read_requested_job(
    alloc: Global,
    input: &[u8],
    wants_schedule: bool,
) -> Result<Option<RequestedJob>, NoMemory>
    ensures { IfOk result (λ found. MatchOption found (IsRefusedJob wants_schedule input.now)
        (λ job. IsRequestedJob wants_schedule input.now job)) }
{
    let object = match job_object(alloc, input, wants_schedule) {
        Ok(object) => object,
        Err(SessionFault::NoMemory) => return Err(NoMemory),
        Err(_) => return Ok(None),
    };
    let JobObject {
        programs,
        credit,
        buffer,
        schedule,
    } = object;
    let whole = copied(alloc, &buffer)?;
    match admit(alloc, &programs, credit, whole) {
        Ok(_) => Ok(Some(RequestedJob {
            programs: job_programs(alloc, &programs)?,
            credit,
            buffer,
            schedule,
        })),
        Err(AdmitFault::NoMemory) => Err(NoMemory),
        Err(_) => Ok(None),
    }
}
