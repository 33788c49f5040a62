//! The register of jobs, which exists in proofs alone: which job was started under a number.

ghost use Rattle.std.specs.Prelude.{◌≡◌, ◌∷◌, [], None, Some};
ghost use Rattle.job_pools.specs.Started.{started_at};
ghost use Rattle.job_pools.specs.declared.job_seats.StartedJob.{StartedJob};

use crate::job_seats::{
    Enters, FindsJob, JobRule, JobView, LeavesJobSeat, OneJobANumber, RegisterId, TakesJobSeat,
};
use atomic_table::{Seat, Table};
use job_core::Job;
use refusal::NoMemory;
use std::alloc::Global;
use std::marker::{Brand, Model, PhantomData};

/// An empty register that has no name yet, with its first seat.
#[derive(Drop)]
pub struct NewRegister {
    table: Table<(), JobView, (), OneJobANumber, Global>,
    seat: Seat<(), JobView>,
}

impl Model for NewRegister {
    ghost use Rattle.std.specs.Prelude.{◌≡◌, []};
    ghost use Rattle.atomic_table.specs.Seated.{TableId};
    ghost use Rattle.job_pools.specs.JobRule.{first_keeper};

    ghost Value = { TableId };

    ghost view = { λ r. r.table.shared.table_id };

    ghost invariant = { λ r. (r.table.shared.table_id.words ≡ 1)
        × (r.seat.table_id ≡ r.table.shared.table_id) × (r.seat.me ≡ (first_keeper, [])) };
}

/// The word that all steps are made on.
#[derive(Drop)]
pub struct JobRegister<J: RegisterId> {
    table: Table<(), JobView, (), OneJobANumber, Global>,
    of: PhantomData<J>,
}

impl<J: RegisterId> Model for JobRegister<J> {
    ghost use Rattle.std.specs.Prelude.{◌≡◌};

    ghost Value = { Unit {0} };

    ghost view = { λ _. tt };

    ghost invariant = { λ r. (r.table.shared.table_id ≡ J.table)
        × (r.table.shared.table_id.words ≡ 1) };
}

/// Knows all jobs that were started; contracts see it as these, the last one first.
#[derive(Drop)]
pub struct Keeper<J: RegisterId> {
    seat: Seat<(), JobView>,
    of: PhantomData<J>,
}

impl<J: RegisterId> Model for Keeper<J> {
    ghost use Rattle.std.specs.Prelude.{◌≡◌, [], List};
    ghost use Rattle.job_pools.specs.JobRule.{keeper};
    ghost use Rattle.job_pools.specs.declared.job_seats.StartedJob.{StartedJob};

    ghost Value = { List StartedJob };

    ghost view = { λ k. k.seat.me.0.started };

    ghost invariant = { λ k. (k.seat.table_id ≡ J.table)
        × (k.seat.me ≡ (keeper k.seat.me.0.started, [])) };
}

/// Knows a job and its number, wherever it goes.
#[derive(Drop)]
pub struct JobSeat<J: RegisterId> {
    seat: Seat<(), JobView>,
    of: PhantomData<J>,
}

impl<J: RegisterId> Model for JobSeat<J> {
    ghost use Rattle.std.specs.Prelude.{◌≡◌, []};
    ghost use Rattle.job_pools.specs.JobRule.{job_seat};
    ghost use Rattle.job_pools.specs.declared.job_seats.StartedJob.{StartedJob};

    ghost Value = { StartedJob };

    ghost view = { λ j. record { number = j.seat.me.0.number; job = j.seat.me.0.job } };

    ghost invariant = { λ j. (j.seat.table_id ≡ J.table)
        × (j.seat.me ≡ (job_seat j.seat.me.0.number j.seat.me.0.job, [])) };
}

impl NewRegister {
    /// An empty register. It may answer that there is no memory.
    pub fn new(alloc: Global) -> Result<NewRegister, NoMemory> {
        match Table::of_words(alloc, &[0], &()) {
            Ok((table, seat)) => Ok(NewRegister { table, seat }),
            Err(_) => Err(NoMemory),
        }
    }

    /// The register under a name, and its keeper.
    pub fn named<J: RegisterId>(self) -> (JobRegister<J>, Keeper<J>)
        requires { self ≡ J.table }
        ensures { result.1 ≡ [] }
    {
        let NewRegister { table, seat } = self;
        let register = JobRegister {
            table,
            of: PhantomData,
        };
        let keeper = Keeper {
            seat,
            of: PhantomData,
        };
        (register, keeper)
    }
}

impl<J: RegisterId> JobRegister<J> {
    // Enters what the rule says, which is this job under this number.
    fn enter_as<E: JobRule>(&self, keeper: &mut Keeper<J>, number: u64, job: &Job) -> JobSeat<J>
        requires free { (j : StartedJob) × E.enters j × (started_at j.number keeper.old ≡ None) }
        ensures { (j : StartedJob) × E.enters j × (result ≡ j) × (keeper.new ≡ j ∷ keeper.old) }
    {
        let _ = number;
        let _ = job;
        self.table.shared.load::<Enters<E>>(&mut keeper.seat, 0);
        let seat = self
            .table
            .shared
            .split_seat::<LeavesJobSeat>(&mut keeper.seat);
        JobSeat {
            seat,
            of: PhantomData,
        }
    }

    /// Enters a job under a number that no job has, and gives its seat.
    pub fn enter(&self, keeper: &mut Keeper<J>, number: u64, job: &Job) -> JobSeat<J>
        requires free { started_at number keeper.old ≡ None }
        ensures seat { (result.number ≡ number) × (result.job ≡ job.now) }
        ensures keeper { keeper.new ≡ result ∷ keeper.old }
    {
        self.enter_as::<Brand>(keeper, number, job)
    }

    /// The job of a seat is the one that was started under its number.
    pub fn find(&self, keeper: &mut Keeper<J>, seat: JobSeat<J>)
        ensures same { keeper.new ≡ keeper.old }
        ensures found { started_at seat.number keeper.old ≡ Some seat.job }
    {
        let JobSeat { seat, of: _ } = seat;
        self.table
            .shared
            .join_seat::<TakesJobSeat>(&mut keeper.seat, seat);
        self.table.shared.load::<FindsJob>(&mut keeper.seat, 0);
        let _ = self
            .table
            .shared
            .split_seat::<LeavesJobSeat>(&mut keeper.seat);
    }
}
