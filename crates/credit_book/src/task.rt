//! What a book gives out and takes back.

ghost use Rattle.std.specs.Prelude.{◌≡◌};

use helpers::Part;

/// The right to run a task. A book alone makes tickets, one for each task.
#[derive(Drop)]
pub struct Ticket {
    pub(crate) job: u64,
    pub(crate) number: u32,
    pub(crate) program: u16,
    pub(crate) held: u32,
    pub(crate) arg: u64,
    pub(crate) part: Part,
}

impl Ticket {
    /// The number of the job.
    pub fn job(&self) -> u64
        ensures { result ≡ self.now.job }
    {
        self.job
    }

    /// The number of the task in its job.
    pub fn number(&self) -> u32
        ensures { result ≡ self.now.number }
    {
        self.number
    }

    /// Which of the job's programs it runs.
    pub fn program(&self) -> u16
        ensures { result ≡ self.now.program }
    {
        self.program
    }

    /// The credit that it was given.
    pub fn held(&self) -> u32
        ensures { result ≡ self.now.held }
    {
        self.held
    }

    /// The task's argument.
    pub fn arg(&self) -> u64
        ensures { result ≡ self.now.arg }
    {
        self.arg
    }

    /// The task's part of the buffer.
    pub fn part(&self) -> &Part
        ensures { result.now ≡ self.now.part }
    {
        &self.part
    }

    /// Gives its part to the one that runs it.
    pub fn into_part(self) -> Part
        ensures { result ≡ self.part }
    {
        let Ticket { part, .. } = self;
        part
    }
}

/// How a task ended: what it used of its credit, its R0, whether it was run, and what is left of
/// its part.
#[derive(Drop)]
pub struct Outcome {
    pub job: u64,
    pub number: u32,
    pub used: u32,
    pub r0: u64,
    pub ran: bool,
    pub part: Part,
}
