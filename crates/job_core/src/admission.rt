//! Admission: from programs as bytes to a job, or the refusal.

ghost use Rattle.std.specs.Prelude.{◌≡◌, ◌≤◌, length, IfOk, IfErr};
ghost use Rattle.job_core.specs.Admitted.{AreOwn};
ghost use Rattle.job_core.specs.Admission.{AreAccepted, IsAdmittedFrom, IsProgramFault, RefusesJob, fault_of_program, code_of_admit_fault, program_of_admit_fault, slot_of_admit_fault};

use crate::job::Job;
use helpers::HelperTable;
use machine_model::{MAX_CREDIT, MAX_PART};
use refusal::NoMemory;
use std::alloc::{AllocError, AllocFailed, Global};
use thiserror::Error;
use verifier::{Refusal, Verified, verify};

/// A program as it comes.
#[derive(Drop)]
pub struct ProgramBytes {
    /// The bytes that each of its tasks needs of its part.
    pub need: u32,
    /// The bytes of its instructions, eight each.
    pub code: Vec<u8>,
}

/// Why a job isn't admitted.
#[derive(Clone, Copy, Debug, PartialEq, Eq, Hash, Error)]
pub enum AdmitFault {
    /// A job has a program at least: 61.
    #[error("61: no program")]
    NoPrograms,
    /// A job has 16 programs at most: 62.
    #[error("62: more than 16 programs")]
    TooManyPrograms,
    /// The credit is at most 2,147,483,647, and the buffer 65,536 bytes: 65.
    #[error("65: credit or buffer over its limit")]
    TooLarge,
    /// The first program that isn't accepted, by its place, and its refusal, with the refusal's
    /// number.
    #[error("program {0}: {1}")]
    Program(u32, Refusal),
    /// The credit is under the root's cost: 63.
    #[error("63: credit under the cost of the root")]
    CreditLow,
    /// The buffer is shorter than the root's need: 64.
    #[error("64: buffer under the need of the root")]
    BufferShort,
    /// A growth was refused: 99.
    #[error("99: out of memory")]
    NoMemory,
}

impl AdmitFault {
    /// The number of the refusal.
    pub fn code(&self) -> u8
        ensures { result ≡ code_of_admit_fault self.now }
    {
        match self {
            AdmitFault::NoPrograms => 61,
            AdmitFault::TooManyPrograms => 62,
            AdmitFault::TooLarge => 65,
            AdmitFault::Program(_, refusal) => refusal.code(),
            AdmitFault::CreditLow => 63,
            AdmitFault::BufferShort => 64,
            AdmitFault::NoMemory => 99,
        }
    }

    /// The place of the program that it tells, if it tells one.
    pub fn program(&self) -> Option<u32>
        ensures { result ≡ program_of_admit_fault self.now }
    {
        match self {
            AdmitFault::Program(index, _) => Some(*index),
            _ => None,
        }
    }

    /// The slot of the program that it tells, if it tells one.
    pub fn slot(&self) -> Option<u32>
        ensures { result ≡ slot_of_admit_fault self.now }
    {
        match self {
            AdmitFault::Program(_, refusal) => refusal.slot(),
            _ => None,
        }
    }
}

impl From<NoMemory> for AdmitFault {
    ghost use Rattle.job_core.specs.declared.admission.AdmitFault.TheVariants as fault;

    ghost from_gives = { λ _ result. result ≡ fault.NoMemory };

    fn from(_error: NoMemory) -> AdmitFault {
        AdmitFault::NoMemory
    }
}

impl From<AllocError> for AdmitFault {
    ghost use Rattle.job_core.specs.declared.admission.AdmitFault.TheVariants as fault;

    ghost from_gives = { λ _ result. result ≡ fault.NoMemory };

    fn from(_error: AllocError) -> AdmitFault {
        AdmitFault::NoMemory
    }
}

impl<T: Drop> From<AllocFailed<T>> for AdmitFault {
    ghost use Rattle.job_core.specs.declared.admission.AdmitFault.TheVariants as fault;

    ghost from_gives = { λ _ result. result ≡ fault.NoMemory };

    fn from(_error: AllocFailed<T>) -> AdmitFault {
        AdmitFault::NoMemory
    }
}

/// Why the program of this number isn't accepted.
fn admit_fault(index: usize, refusal: Refusal) -> AdmitFault
    requires { index ≤ 16 }
    ensures { result ≡ fault_of_program index refusal }
{
    match refusal {
        Refusal::NoMemory => AdmitFault::NoMemory,
        refusal => AdmitFault::Program(index as u32, refusal),
    }
}

/// Each program as the verifier accepts it, or the first that it refuses.
fn verify_each(alloc: Global, programs: &[ProgramBytes]) -> Result<Vec<Verified>, AdmitFault>
    requires { length programs.now ≤ 16 }
    ensures accepted { IfOk result (λ accepted. AreAccepted programs.now accepted.items) }
    ensures own { IfOk result (λ accepted. AreOwn accepted.items) }
    ensures refused { IfErr result (λ fault. IsProgramFault programs.now fault) }
{
    let helpers = HelperTable::job();
    let mut accepted = Vec::new(alloc);
    for program in programs {
        match verify(alloc, program.need, &program.code, &helpers) {
            Ok(verified) => accepted.push(verified)?,
            Err(refusal) => return Err(admit_fault(accepted.len(), refusal)),
        }
    }
    Ok(accepted)
}

/// Admits a job: its programs as bytes, of which number 0 is the root's, its credit and its buffer.
///
/// Of the refusals the first that applies comes, in the order of [`AdmitFault`]; want of memory may
/// come at any time.
pub fn admit(
    alloc: Global,
    programs: &[ProgramBytes],
    credit: u32,
    buffer: Vec<u8>,
) -> Result<Job, AdmitFault>
    ensures admitted { IfOk result (λ job. IsAdmittedFrom programs.now credit buffer.items job) }
    ensures refused { IfErr result (λ fault. RefusesJob programs.now credit buffer.items fault) }
{
    if programs.is_empty() {
        return Err(AdmitFault::NoPrograms);
    }
    if programs.len() > 16 {
        return Err(AdmitFault::TooManyPrograms);
    }
    if credit > MAX_CREDIT || buffer.len() > MAX_PART {
        return Err(AdmitFault::TooLarge);
    }
    let programs = verify_each(alloc, programs)?;
    let root = &programs[0];
    if credit < root.cost() {
        return Err(AdmitFault::CreditLow);
    }
    if buffer.len() < root.need() as usize {
        return Err(AdmitFault::BufferShort);
    }
    Ok(Job {
        programs,
        credit,
        buffer,
    })
}
