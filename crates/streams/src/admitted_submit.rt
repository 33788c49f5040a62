//! A request for a job, which was admitted or refused ahead of the desk.

ghost use Rattle.std.specs.Prelude.{◌≡◌, IfOk};

use job_core::{AdmitFault, Job, ProgramBytes, admit};
use refusal::NoMemory;
use std::alloc::Global;
use std::marker::Model;
use std::snapshot::Snapshot;

/// A request for a job, which was admitted or refused, with a copy of its buffer, if there was
/// memory for one: a job doesn't lend its own. Contracts see it as what was asked.
#[derive(Drop)]
pub struct AdmittedSubmit {
    pub(crate) tenant: String,
    pub(crate) programs: Vec<ProgramBytes>,
    pub(crate) credit: u32,
    pub(crate) admitted: Result<Job, AdmitFault>,
    pub(crate) copy: Result<Vec<u8>, NoMemory>,
    pub(crate) buffer: Snapshot<Vec<u8>>,
}

/// The parts of a request for a job: what was asked, what its admission came to, and a copy of its
/// buffer.
#[derive(Drop)]
pub struct SubmitParts {
    pub tenant: String,
    pub programs: Vec<ProgramBytes>,
    pub credit: u32,
    pub admitted: Result<Job, AdmitFault>,
    pub copy: Result<Vec<u8>, NoMemory>,
    pub buffer: Snapshot<Vec<u8>>,
}

impl Model for AdmittedSubmit {
    ghost use Rattle.std.specs.Prelude.{◌≡◌, IfOk};
    ghost use Rattle.accounts.specs.Ahead.{IsAdmissionOf};
    ghost use Rattle.sessions.specs.Grammar.{Asked};
    ghost use Rattle.streams.specs.Submits.{submit_asked};

    ghost Value = { Asked };

    ghost view = { λ s. submit_asked s.tenant s.programs.items s.credit s.buffer.value.items };

    ghost invariant = { λ s.
        IsAdmissionOf s.programs.items s.credit s.buffer.value.items s.admitted
        × IfOk s.copy (λ copy. copy.items ≡ s.buffer.value.items) };
}

// The same bytes once more.
fn copied(alloc: Global, bytes: &[u8]) -> Result<Vec<u8>, NoMemory>
    ensures { IfOk result (λ copy. copy.items ≡ bytes.now) }
{
    match bytes.to_vec(alloc) {
        Ok(copy) => Ok(copy),
        Err(_) => Err(NoMemory),
    }
}

impl AdmittedSubmit {
    ghost use Rattle.std.specs.Prelude.{◌≡◌, IfOk, Some, string_bytes};
    ghost use Rattle.accounts.specs.Ahead.{IsAdmissionOf};
    ghost use Rattle.streams.specs.Prepared.{submitter_of};
    ghost use Rattle.streams.specs.Submits.{of_tenant, submit_asked};

    /// A request for a job, which is admitted or refused now.
    pub fn admit(
        alloc: Global,
        tenant: String,
        programs: Vec<ProgramBytes>,
        credit: u32,
        buffer: Vec<u8>,
    ) -> AdmittedSubmit
        ensures { result ≡ submit_asked tenant programs.items credit buffer.items }
    {
        let before = Snapshot::of(&buffer);
        let copy = copied(alloc, &buffer);
        let admitted = admit(alloc, &programs, credit, buffer);
        AdmittedSubmit {
            tenant,
            programs,
            credit,
            admitted,
            copy,
            buffer: before,
        }
    }

    /// What was asked, what the admission came to, and a copy of the buffer.
    pub fn into_parts(self) -> SubmitParts
        ensures asked { self ≡ submit_asked result.tenant result.programs.items result.credit
            result.buffer.value.items }
        ensures admission { IsAdmissionOf result.programs.items result.credit
            result.buffer.value.items result.admitted }
        ensures copy { IfOk result.copy (λ copy. copy.items ≡ result.buffer.value.items) }
    {
        let AdmittedSubmit {
            tenant,
            programs,
            credit,
            admitted,
            copy,
            buffer,
        } = self;
        SubmitParts {
            tenant,
            programs,
            credit,
            admitted,
            copy,
            buffer,
        }
    }

    /// The same request, of the tenant of this name.
    pub fn of_tenant(self, tenant: String) -> AdmittedSubmit
        ensures { result ≡ of_tenant (string_bytes tenant) self }
    {
        let AdmittedSubmit {
            programs,
            credit,
            admitted,
            copy,
            buffer,
            ..
        } = self;
        AdmittedSubmit {
            tenant,
            programs,
            credit,
            admitted,
            copy,
            buffer,
        }
    }

    /// The tenant who asks for the job.
    pub fn tenant(&self) -> &str
        ensures { submitter_of self.now ≡ Some result.now }
    {
        self.tenant.as_str()
    }
}
