//! What holds of the object of every job.

ghost use Rattle.std.specs.Prelude.{◌≡◌, Some};
ghost use Rattle.sessions.specs.Grammar.{JobText, job_from};
ghost use Rattle.conversation.specs.Objects.{job_data};
ghost use Rattle.conversation.specs.Writable.{IsWritable};

/// The object of a job says that job: who reads it as a job object gets the programs, the credit
/// and the buffer that were asked for.
pub fn object_says_its_job()
    ensures { (order : JobText) → IsWritable order → job_from (job_data order) ≡ Some order }
{}
