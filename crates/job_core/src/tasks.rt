//! The tasks of a job and the step of one of them.

ghost use Rattle.std.specs.Prelude.{◌≡◌, ℕ, ◌<◌, ◌≤◌, ◌^◌, length, replicate, slice_get, List, ◌++◌};

use crate::ledger::TaskLedger;
use crate::schedule::named_ahead;
use interpreter::ControlPoint;
use std::alloc::Global;
use verifier::Verified;

/// The programs and tasks of a job.
#[derive(Drop)]
pub struct Tasks {
    pub programs: Vec<Verified>,
    pub ledger: TaskLedger,
}

/// What a step of a world has come to: no task of that number is alive, or the task went on, or it
/// ended with R0.
#[derive(Clone, Copy, Debug, PartialEq, Eq)]
pub enum Stepped {
    Skipped,
    Went,
    Ended(u64),
}

impl Tasks {
    ghost use Rattle.machine_model.specs.JobState.{JobState};
    ghost use Rattle.job_core.specs.Representation.{RepresentsJob, Steps, PlaysOn};
    ghost use Rattle.job_core.specs.OneTask.{IsSkipped, RunsTask};
    ghost use Rattle.job_core.specs.Keeping.{kept_of, IsBooked};
    ghost use Rattle.machine_model.specs.Limits.{max_credit};

    /// One instruction of a task, if it is alive.
    pub fn step(&mut self, alloc: Global, number: u32) -> Stepped
        requires behind { (j : JobState) × RepresentsJob (kept_of self.old) j }
        requires booked { IsBooked self.old }
        ensures steps { (j : JobState) → RepresentsJob (kept_of self.old) j
            → Steps (kept_of self.old) j number result (kept_of self.new) }
        ensures skipped { result ≡ Stepped.Skipped → kept_of self.new ≡ kept_of self.old }
        ensures programs { self.new.programs.items ≡ self.old.programs.items }
        ensures booked { IsBooked self.new }
    {
        let Some(place) = self.ledger.lives.get_mut(number as usize) else {
            return Stepped::Skipped;
        };
        let Some(mut live) = place.take() else {
            return Stepped::Skipped;
        };
        let code = &self.programs[live.program() as usize];
        self.ledger.turn = number;
        let ran = live.run_at(alloc, code, live.slot(), 1, &mut self.ledger);
        match ran.next {
            ControlPoint::At(next) => {
                live.note_slot(next);
                self.ledger.lives[number as usize] = Some(live);
                Stepped::Went
            }
            ControlPoint::Ended(r0) => {
                self.ledger.end(number, live, r0);
                Stepped::Ended(r0)
            }
        }
    }

    /// Runs a task on from its next instruction, `limit` of them at most, or until it ends. How
    /// many ran, and what that came to: it isn't alive, it goes on, or it ended.
    ///
    /// The task is taken from its place, and its program looked up, but once.
    #[inline(always)]
    pub fn run_task(&mut self, alloc: Global, number: u32, limit: usize) -> (usize, Stepped)
        requires behind { (j : JobState) × RepresentsJob (kept_of self.old) j }
        requires booked { IsBooked self.old }
        ensures leads { PlaysOn (kept_of self.old) (replicate result.0 number) (kept_of self.new) }
        ensures runs { (j : JobState) → RepresentsJob (kept_of self.old) j
            → RunsTask (kept_of self.old) j number result.0 result.1 (kept_of self.new) }
        ensures idle { result.0 ≡ 0 → 0 < limit
            → IsSkipped (kept_of self.old) number (kept_of self.new) }
        ensures skipped { result.1 ≡ Stepped.Skipped → kept_of self.new ≡ kept_of self.old }
        ensures whole { result.1 ≡ Stepped.Went → result.0 ≡ limit }
        ensures most { result.0 ≤ limit }
        ensures few { result.0 ≤ max_credit }
        ensures booked { IsBooked self.new }
    {
        let Tasks { programs, ledger } = self;
        let Some(place) = ledger.lives.get_mut(number as usize) else {
            return (0, Stepped::Skipped);
        };
        let Some(mut live) = place.take() else {
            return (0, Stepped::Skipped);
        };
        let code = &programs[live.program() as usize];
        ledger.turn = number;
        let mut slot = live.slot();
        let mut gone = 0;
        while gone < limit {
            let ran = live.run_at(alloc, code, slot, limit - gone, ledger);
            gone += ran.count;
            match ran.next {
                ControlPoint::At(next) => slot = next,
                ControlPoint::Ended(r0) => {
                    ledger.end(number, live, r0);
                    return (gone, Stepped::Ended(r0));
                }
            }
        }
        live.note_slot(slot);
        ledger.lives[number as usize] = Some(live);
        (gone, Stepped::Went)
    }

    /// Goes along a schedule as long as it names the task that it begins with, one instruction for
    /// each entry. What is left of it. Where the task isn't alive, or ends, what is left of these
    /// entries is passed over, and with it the whole schedule if no task is alive.
    pub fn run<'a>(&mut self, alloc: Global, schedule: &'a [u32]) -> &'a [u32]
        requires behind { (j : JobState) × RepresentsJob (kept_of self.old) j }
        requires booked { IsBooked self.old }
        requires some { 0 < length schedule.now }
        ensures leads { (numbers : List ℕ) × (schedule.now ≡ numbers ++ result.now)
            × PlaysOn (kept_of self.old) numbers (kept_of self.new) }
        ensures booked { IsBooked self.new }
        ensures shorter { length result.now < length schedule.now }
    {
        let named = named_ahead(schedule);
        let (count, _) = self.run_task(alloc, schedule[0], named);
        if count < named && self.ledger.book.progress().complete {
            return &schedule[schedule.len()..];
        }
        &schedule[named..]
    }
}
