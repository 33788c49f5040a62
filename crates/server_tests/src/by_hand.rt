//! Tasks that are run one at a time, without threads, by a book that is the spawner of each.

ghost use Rattle.std.specs.Prelude.{◌≤◌, vec_len};
ghost use Rattle.std.proofs.Props.{props};
ghost use Rattle.job_core.specs.Admitted.{AreOwn};

use crate::stop::ScenarioFault;
use crate::tree::{job, numbers};
use credit_book::{Board, Book, Outcome, Refused, Report, Ticket};
use helpers::{Entry, Part, SpawnRecord, Spawner};
use job_core::Job;
use std::alloc::Global;
use verifier::Verified;
use virtual_machine::Frames;
use workers::{OpenGate, entry_in, unrun, work_one};

/// The programs of a job.
#[derive(Drop)]
struct ProgramList {
    programs: Vec<Verified>,
    ghost few: { vec_len programs ≤ 16 },
    ghost own: { AreOwn programs.items } by { Prim.hlevel props },
}

impl ProgramList {
    /// A job's programs, its credit, and its buffer as the root's part.
    fn of(job: Job) -> (ProgramList, u32, Part) {
        let (programs, credit, buffer) = job.into_parts();
        (ProgramList { programs }, credit, Part::whole(buffer))
    }
}

/// A book, and the programs of its job. What is spawned is parked.
#[derive(Drop)]
struct ByHand<'a> {
    known: &'a ProgramList,
    book: Book,
}

impl<'a> ByHand<'a> {
    /// The book of a job with this number, credit and part of the root, and the root's ticket.
    fn open(
        alloc: Global,
        known: &'a ProgramList,
        number: u64,
        credit: u32,
        root: Part,
    ) -> Result<(ByHand<'a>, Ticket), ScenarioFault> {
        if credit < 1 || credit > 2_147_483_647 {
            return Err(ScenarioFault::Differs("no such job"));
        }
        let (_board, post, _reader) = Board::open(alloc, number, credit)?;
        let (book, ticket) = Book::open(alloc, post, root)?;
        Ok((ByHand { known, book }, ticket))
    }

    /// Runs a task.
    fn run(&mut self, alloc: Global, ticket: Ticket, frames: &mut Frames) -> Outcome {
        let known = self.known;
        work_one(alloc, ticket, &known.programs, self, frames, &OpenGate)
    }

    /// Ends a task. Whether the book takes it.
    fn end(&mut self, outcome: Outcome) -> bool {
        self.book.end(outcome).is_ok()
    }
}

impl Spawner for ByHand<'_> {
    ghost use Rattle.std.specs.Prelude.{◌≡◌, map};
    ghost use Rattle.machine_model.specs.JobState.{entries_of};
    ghost use Rattle.verifier.specs.Checked.{program_of};

    ghost entries = { λ hand. entries_of (map program_of hand.known.now.programs.items) };

    ghost asks = { λ hand child. Unit {0} };

    ghost spawns = { λ old child reply new. Unit {0} };

    ghost calls = { λ old helper arguments answer new. Unit {0} };

    fn entry(&self, program: u64) -> Option<Entry> {
        entry_in(&self.known.programs, program)
    }

    /// The root alone spawns here.
    fn spawn(&mut self, child: SpawnRecord) -> Result<(), SpawnRecord> {
        match self.book.spawn(0, child) {
            Ok(ticket) => {
                let _ = self.book.park(ticket);
                Ok(())
            }
            Err(Refused { fault: _, value }) => Err(value),
        }
    }

    fn call(&mut self, _id: u32, _arguments: [u64; 5]) -> u64 {
        0
    }
}

/// Runs a task, or leaves it, and ends it.
fn finish(
    alloc: Global,
    hand: &mut ByHand,
    frames: &mut Frames,
    ticket: Ticket,
    runs: bool,
) -> Result<(), ScenarioFault> {
    let outcome = if runs {
        hand.run(alloc, ticket, frames)
    } else {
        unrun(ticket)
    };
    if hand.end(outcome) {
        Ok(())
    } else {
        Err(ScenarioFault::Differs("an end is refused"))
    }
}

/// Runs the root and its child, or leaves them, and gives the report.
fn family(alloc: Global, runs_root: bool, runs_child: bool) -> Result<Report, ScenarioFault> {
    let (known, credit, root) = ProgramList::of(job(alloc)?);
    let mut frames = Frames::new(alloc);
    let (mut hand, root) = ByHand::open(alloc, &known, 1, credit, root)?;
    finish(alloc, &mut hand, &mut frames, root, runs_root)?;
    if let Some(child) = hand.book.claim() {
        finish(alloc, &mut hand, &mut frames, child, runs_child)?;
    }
    let ByHand { book, .. } = hand;
    match book.close() {
        Ok(report) => Ok(report),
        Err(_) => Err(ScenarioFault::Differs("a task is alive")),
    }
}

/// The numbers of the reports where all is run, where the child is left, and where the root is,
/// and how many tasks were run: a task that isn't run gives all back.
pub fn left(alloc: Global) -> Result<Vec<u64>, ScenarioFault> {
    let mut told = Vec::new(alloc);
    for (runs_root, runs_child) in [(true, true), (true, false), (false, true)] {
        let report = family(alloc, runs_root, runs_child)?;
        told.extend_from_slice(&numbers(alloc, &report)?)?;
        for end in &report.tasks {
            told.push(u64::from(end.ran))?;
        }
    }
    Ok(told)
}
