//! Jobs that were admitted.

use std::marker::Model;
use verifier::Verified;

/// A job that was admitted.
#[derive(Drop)]
pub struct Job {
    pub(crate) programs: Vec<Verified>,
    pub(crate) credit: u32,
    pub(crate) buffer: Vec<u8>,
}

impl Model for Job {
    ghost use Rattle.job_core.specs.Admitted.{AdmittedJob, IsAdmitted};

    ghost Value = { AdmittedJob };

    ghost view = { λ j. record {
      programs = j.programs.items;
      credit = j.credit;
      buffer = j.buffer.items;
    } };

    ghost invariant = { λ j.
        IsAdmitted (record {
          programs = j.programs.items;
          credit = j.credit;
          buffer = j.buffer.items;
        }) };
}

impl Job {
    ghost use Rattle.std.specs.Prelude.{◌≡◌};
    ghost use Rattle.job_core.specs.Admitted.{IsAdmitted};

    /// The job's programs, of which number 0 is the root's.
    pub fn programs(&self) -> &[Verified]
        ensures { result.now ≡ self.now.programs }
    {
        &self.programs
    }

    /// The credit that it was admitted with.
    pub fn credit(&self) -> u32
        ensures { result ≡ self.now.credit }
    {
        self.credit
    }

    /// The job's programs, its credit and its buffer.
    pub fn into_parts(self) -> (Vec<Verified>, u32, Vec<u8>)
        ensures parts { record {
          programs = result.0.items;
          credit = result.1;
          buffer = result.2.items;
        }
            ≡ self }
        ensures admitted { IsAdmitted
            (record { programs = result.0.items; credit = result.1; buffer = result.2.items }) }
    {
        let Job {
            programs,
            credit,
            buffer,
        } = self;
        (programs, credit, buffer)
    }
}
