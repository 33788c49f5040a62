//! What each seat of the register of jobs knows, and the kinds of step.

use atomic_table::{Join, Play, Split, TableRule};
use job_core::Job;
use std::collections::LinkedList;
use std::marker::{Brand, PhantomData};

/// A job that was started, under its number. No value of it is made.
pub struct StartedJob {
    pub number: u64,
    pub job: Job,
}

/// What a seat knows. No value of it is made.
///
/// The keeper knows all jobs that were started, and the seat of a job its number and the job. For
/// the time of a step the keeper is the seat of a job too.
pub struct JobView {
    pub is_keeper: bool,
    pub started: LinkedList<StartedJob>,
    pub is_job: bool,
    pub number: u64,
    pub job: Job,
}

/// Names one register, and the history of one queue, each by its table. Each call of a program picks
/// them.
pub trait RegisterId {
    ghost use Rattle.atomic_table.specs.Seated.{TableId};

    ghost table: { TableId };

    ghost turns: { TableId };
}

impl RegisterId for Brand {
    ghost use Rattle.job_pools.specs.JobRule.{no_table};

    ghost table = { no_table };

    ghost turns = { no_table };
}

/// No number is given to two jobs.
pub struct OneJobANumber;

impl TableRule<(), JobView, ()> for OneJobANumber {
    ghost use Rattle.job_pools.specs.JobRule.{IsRegister, first_keeper};

    ghost holds = { λ _ s. IsRegister s.views };

    ghost first = { λ _. first_keeper };
}

/// The keeper takes in the seat of a job.
pub struct TakesJobSeat;

impl Join<JobView> for TakesJobSeat {
    ghost use Rattle.job_pools.specs.JobRule.{with_job, nobody};

    ghost both = { with_job };

    ghost spent = { nobody };
}

/// The keeper gives the seat of a job away.
pub struct LeavesJobSeat;

impl Split<JobView> for LeavesJobSeat {
    ghost use Rattle.job_pools.specs.JobRule.{without_job, only_job};

    ghost left = { without_job };

    ghost right = { only_job };
}

/// Says which job a step may enter. Each call picks it.
pub trait JobRule {
    ghost use Rattle.job_pools.specs.declared.job_seats.StartedJob.{StartedJob};

    ghost enters: { StartedJob → Type 0 };
}

impl JobRule for Brand {
    ghost enters = { λ _. Unit {0} };
}

/// The keeper enters a job under a number that no job has.
pub struct Enters<E: JobRule> {
    of: PhantomData<E>,
}

impl<E: JobRule> Play<(), JobView> for Enters<E> {
    ghost use Rattle.job_pools.specs.JobRule.{EntersJob};

    ghost then = { EntersJob E.enters };
}

/// The keeper finds the job whose seat it took in.
pub struct FindsJob;

impl Play<(), JobView> for FindsJob {
    ghost use Rattle.job_pools.specs.JobRule.{KnowsJob};

    ghost then = { KnowsJob };
}
