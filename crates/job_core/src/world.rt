//! A job under way, and the run of a schedule.

ghost use Rattle.std.specs.Prelude.{◌≡◌, IfOk};

use crate::filling::fill;
use crate::job::Job;
use crate::ledger::TaskLedger;
use crate::live::Vacant;
use crate::place::place_in;
use crate::room::room_of;
use crate::tasks::{Stepped, Tasks};
use crate::totals::{Totals, used_by_live};
use credit_book::{Board, Book, Report};
use helpers::Part;
use refusal::NoMemory;
use std::alloc::Global;
use std::marker::Model;

/// A job under way.
#[derive(Drop)]
pub struct World {
    tasks: Tasks,
}

impl Model for World {
    ghost use Rattle.machine_model.specs.JobState.{JobState};
    ghost use Rattle.job_core.specs.Representation.{WorldState, RepresentsJob};
    ghost use Rattle.job_core.specs.Keeping.{kept_of, IsBooked};

    ghost Value = { WorldState };

    ghost view = { λ w. kept_of w.tasks };

    ghost invariant = { λ w. (j : JobState) × RepresentsJob (kept_of w.tasks) j
        × IsBooked w.tasks };
}

impl World {
    ghost use Rattle.std.specs.Prelude.{◌≡◌, ℕ, ◌<◌, ◌≤◌, ◌↔◌, List, ◌++◌, length, slice_get, Some, IfOk, IfErr, IfSome, IsSome, IsTrue};
    ghost use Rattle.machine_model.specs.JobState as model;
    ghost use Rattle.machine_model.specs.JobState.{start, IsAlive, IsComplete, Member};
    ghost use Rattle.task_trees.specs.Families.{place_of};
    ghost use Rattle.job_core.specs.Representation.{RepresentsJob, Steps, PlaysOn};
    ghost use Rattle.job_core.specs.Answers.{AreTotals, IsReportOf};
    ghost use Rattle.job_core.specs.OneTask.{RunsTask};
    ghost use Rattle.job_core.specs.Rooms.{room_at};
    ghost use Rattle.machine_model.specs.Limits.{max_credit};

    /// The job at its start: the root alone, with all the credit and the whole buffer.
    pub fn open(alloc: Global, job: Job) -> Result<World, NoMemory>
        ensures start { IfOk result (λ world. RepresentsJob world (start job.credit job.buffer)) }
        ensures programs { IfOk result (λ world. world.programs ≡ job.programs) }
    {
        let Job {
            programs,
            credit,
            buffer,
        } = job;
        let mut entries = Vec::new(alloc);
        for program in &programs {
            entries.push(program.entry())?;
        }
        let (_, post, _) = Board::open(alloc, 0, credit)?;
        let (book, ticket) = Book::open(alloc, post, Part::whole(buffer))?;
        let mut lives = Vec::new(alloc);
        lives.push(Some(Vacant::new(alloc)?.enter(ticket)))?;
        let parents = Vec::new(alloc);
        Ok(World {
            tasks: Tasks {
                programs,
                ledger: TaskLedger {
                    alloc,
                    entries,
                    lives,
                    book,
                    turn: 0,
                    parents,
                },
            },
        })
    }

    /// One instruction of a task, if it is alive. Otherwise nothing changes.
    pub fn step(&mut self, alloc: Global, number: u32) -> Stepped
        ensures steps { (j : model.JobState) → RepresentsJob self.old j
            → Steps self.old j number result self.new }
        ensures skipped { result ≡ Stepped.Skipped → self.new ≡ self.old }
        ensures programs { self.new.programs ≡ self.old.programs }
    {
        self.tasks.step(alloc, number)
    }

    /// Runs a task on from its next instruction, `limit` of them at most, or until it ends. How
    /// many ran, and what that came to: it isn't alive, and none ran; it goes on, and `limit` of
    /// them ran; or it ended.
    ///
    /// Each of them costs some of the job's credit, so that a run without a limit, 4,294,967,295,
    /// comes to an end of the task.
    pub fn run(&mut self, alloc: Global, number: u32, limit: u32) -> (u32, Stepped)
        ensures runs { (j : model.JobState) → RepresentsJob self.old j
            → RunsTask self.old j number result.0 result.1 self.new }
        ensures skipped { result.1 ≡ Stepped.Skipped → self.new ≡ self.old }
        ensures whole { result.1 ≡ Stepped.Went → result.0 ≡ limit }
        ensures most { result.0 ≤ limit }
        ensures few { result.0 ≤ max_credit }
        ensures programs { self.new.programs ≡ self.old.programs }
    {
        let (count, came_to) = self.tasks.run_task(alloc, number, limit as usize);
        (count as u32, came_to)
    }

    /// Goes along a schedule as long as it names the task that it begins with, one instruction for
    /// each entry. What is left of it.
    fn follow<'a>(&mut self, alloc: Global, schedule: &'a [u32]) -> &'a [u32]
        requires { 0 < length schedule.now }
        ensures leads { (numbers : List ℕ) × (schedule.now ≡ numbers ++ result.now)
            × PlaysOn self.old numbers self.new }
        ensures shorter { length result.now < length schedule.now }
    {
        self.tasks.run(alloc, schedule)
    }

    /// Whether the task is alive.
    pub fn live(&self, number: u32) -> bool
        ensures { (j : model.JobState) → RepresentsJob self.now j
            → (IsTrue result ↔ IsAlive j number) }
    {
        match self.tasks.ledger.lives.get(number as usize) {
            Some(live) => live.is_some(),
            None => false,
        }
    }

    /// How many tasks there are, those that have ended among them. Their numbers run from 0. Every
    /// world represents a job, whatever was done with it.
    pub fn len(&self) -> u32
        ensures count { (j : model.JobState) → RepresentsJob self.now j → result ≡ length j.tasks }
        ensures behind { (j : model.JobState) × RepresentsJob self.now j }
    {
        self.tasks.ledger.book.count()
    }

    /// Where a task, live or ended, stands in the tree of tasks: the root's place is the empty
    /// list, and that of another task is its parent's, followed by its number among that one's
    /// children, counted from 1. None where no task has this number.
    pub fn place(&self, alloc: Global, number: u32) -> Result<Option<Vec<u32>>, NoMemory>
        ensures known { IfOk result (λ found. (j : model.JobState) → RepresentsJob self.now j
            → (IsSome found ↔ number < length j.tasks)) }
        ensures value { IfOk result (λ found. (j : model.JobState) → RepresentsJob self.now j
            → IfSome found (λ place.
            (m : Member) → slice_get j.tasks number ≡ Some m → place.items ≡ place_of m)) }
    {
        let ledger = &self.tasks.ledger;
        if number as usize > ledger.parents.len() {
            return Ok(None);
        }
        Ok(Some(place_in(alloc, &ledger.parents, number)?))
    }

    /// For how many bytes the task's part has room, which is the memory that it takes. None where
    /// the task isn't alive.
    pub fn part_room(&self, number: u32) -> Option<usize>
        ensures { result ≡ room_at self.now.lives number }
    {
        match self.tasks.ledger.lives.get(number as usize) {
            Some(live) => room_of(live),
            None => None,
        }
    }

    /// Whether no task is alive.
    pub fn is_complete(&self) -> bool
        ensures { (j : model.JobState) → RepresentsJob self.now j → (IsTrue result ↔ IsComplete j) }
    {
        self.tasks.ledger.book.progress().complete
    }

    /// The credit that live tasks hold, and that ended tasks returned and spent, and what all of
    /// them have used.
    pub fn totals(&self) -> Totals
        ensures { (j : model.JobState) → RepresentsJob self.now j → AreTotals result j }
    {
        let book = &self.tasks.ledger.book;
        let progress = book.progress();
        let used = used_by_live(&self.tasks.ledger.lives);
        Totals {
            held: book.issued() - progress.spent - progress.returned,
            returned: progress.returned,
            spent: progress.spent,
            used: progress.spent + used,
        }
    }

    /// The job's buffer as it is now.
    pub fn buffer(&self, alloc: Global) -> Result<Vec<u8>, NoMemory>
        ensures { IfOk result (λ buffer. (j : model.JobState) → RepresentsJob self.now j
            → buffer.items ≡ j.buffer) }
    {
        let mut buffer = Vec::new(alloc);
        buffer.extend_from_slice(self.tasks.ledger.book.collected())?;
        fill(&mut buffer, &self.tasks.ledger.lives);
        Ok(buffer)
    }

    /// The report, where no task is alive.
    pub fn report(&self) -> Option<&Report>
        ensures some { (j : model.JobState) → RepresentsJob self.now j
            → (IsSome result ↔ IsComplete j) }
        ensures value { (j : model.JobState) → RepresentsJob self.now j
            → IfSome result (λ report. IsReportOf report.now j) }
    {
        self.tasks.ledger.book.report()
    }

    /// Gives the report up where no task is alive, and else the world back as it was.
    pub fn close(self) -> Result<Report, World>
        ensures report { IfOk result (λ report. (j : model.JobState) → RepresentsJob self j
            → IsComplete j
            × IsReportOf report j) }
        ensures world { IfErr result (λ world. (world ≡ self)
            × ((j : model.JobState) → RepresentsJob self j → IsComplete j → ⊥)) }
    {
        if !self.is_complete() {
            return Err(self);
        }
        let World { tasks } = self;
        let Tasks { ledger, .. } = tasks;
        let TaskLedger { book, .. } = ledger;
        match book.close() {
            Ok(report) => Ok(report),
            Err(_) => unreachable!(),
        }
    }
}

ghost use Rattle.machine_model.specs.JobState as model;
ghost use Rattle.machine_model.specs.JobState.{start};
ghost use Rattle.job_core.specs.Representation.{RepresentsJob, Plays, PlaysJob};

/// One instruction of each task of the schedule in turn.
///
/// Where no spawn was refused and no task is alive, the buffer, the R0s by place and the credit
/// spent are those that the root comes to with all that it spawns, whatever the schedule.
pub fn play(alloc: Global, job: Job, schedule: &[u32]) -> Result<World, NoMemory>
    ensures { IfOk result (λ world. PlaysJob job schedule.now world) }
{
    let mut world = World::open(alloc, job)?;
    let mut rest = schedule;
    while !rest.is_empty() {
        rest = world.follow(alloc, rest);
    }
    Ok(world)
}

ghost use Rattle.job_core.specs.Representation.{WorldState};

/// What a world keeps leaves one buffer to every job behind what it keeps.
pub fn keeps_one_buffer()
    ensures { (kept : WorldState) (j k : model.JobState) → RepresentsJob kept j
        → RepresentsJob kept k
        → j.buffer ≡ k.buffer }
{}
