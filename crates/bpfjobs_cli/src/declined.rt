//! The job that the input says, or why there is none.

ghost use Rattle.std.specs.Prelude.{◌≡◌, IfOk, IfErr, Bool, Some};
ghost use Rattle.bpfjobs_cli.specs.Printed.{Prints};
ghost use Rattle.bpfjobs_cli.specs.Jobs.{IsOrdered, IsDeclined, declined_code, declined_line};

use crate::answer::{Answer, answer_reply};
use job_core::{AdmitFault, Job, admit};
use refusal::NoMemory;
use sessions::{JobObject, Reply, SessionFault, job_object};
use std::alloc::Global;

/// Why there is no job.
#[derive(Clone, Copy, Debug, PartialEq, Eq)]
pub enum JobDeclined {
    /// The input says none.
    Object(SessionFault),
    /// It isn't admitted.
    Job(AdmitFault),
}

impl JobDeclined {
    /// The refusal's number.
    pub fn code(&self) -> u8
        ensures { result ≡ declined_code self.now }
    {
        match self {
            JobDeclined::Object(fault) => fault.code(),
            JobDeclined::Job(fault) => fault.code(),
        }
    }

    /// The refusal as a reply.
    pub fn answer(&self, alloc: Global) -> Result<Answer, NoMemory>
        ensures { IfOk result
            (λ answer. Prints answer.text.items answer.status answer.code (declined_line self.now) 1
            (Some (declined_code self.now))) }
    {
        let refusal = match self {
            JobDeclined::Object(fault) => Reply::Refused {
                code: fault.code(),
                program: None,
                slot: None,
            },
            JobDeclined::Job(fault) => Reply::Refused {
                code: fault.code(),
                program: fault.program(),
                slot: fault.slot(),
            },
        };
        answer_reply(alloc, &refusal, 1)
    }
}

/// The job that the input says, as it is admitted, and its schedule where one is wanted.
pub fn read_job(
    alloc: Global,
    input: &[u8],
    wants_schedule: bool,
) -> Result<(Job, Vec<u32>), JobDeclined>
    ensures ok { IfOk result (λ r. IsOrdered wants_schedule input.now r.0 r.1.items) }
    ensures err { IfErr result (λ why. IsDeclined wants_schedule input.now why) }
{
    let object = match job_object(alloc, input, wants_schedule) {
        Ok(object) => object,
        Err(fault) => return Err(JobDeclined::Object(fault)),
    };
    let JobObject {
        programs,
        credit,
        buffer,
        schedule,
    } = object;
    match admit(alloc, &programs, credit, buffer) {
        Ok(job) => Ok((job, schedule)),
        Err(fault) => Err(JobDeclined::Job(fault)),
    }
}
