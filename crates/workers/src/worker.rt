//! A worker in its thread: where it finds tasks, and whom the one that it runs asks.

ghost use Rattle.std.specs.Prelude.{◌≡◌, ◌≤◌, length};

use crate::bell::Bell;
use crate::gate::{Gate, GateAndObserver, GatedJob};
use crate::held_lock::HeldLock;
use crate::locked_book::{ClosedBook, LockedBook, SpawnRefused};
use crate::outcome::ObservedRun;
use crate::seated::{SeatedOutcome, SeatedTicket, Turn};
use crate::work::{entry_in, work_observed};
use credit_book::Ticket;
use crossbeam_utils::CachePadded;
use helpers::{Entry, SpawnRecord, Spawner};
use lanes::Lanes;
use std::alloc::Global;
use std::marker::Model;
use std::sync::{Mutex, MutexGuard, Wait};
use std::{hint, thread};
use verifier::Verified;
use virtual_machine::Frames;

/// How many outcomes a worker holds back at least, so that the book is told of many at once.
const FEW_HELD_BACK: usize = 16;

/// How many it holds back at most, where others are at the desk.
const MOST_HELD_BACK: usize = 256;

/// A task with at most this credit is brief: what ended before it may wait until it has ended too.
const BRIEF: u32 = 4096;

/// How often a worker tries the desk before it sleeps until it is woken: that takes longer than a
/// worker stays at the desk, and meanwhile others come first.
const TRIES: u32 = 2000;

/// How many moments a worker waits between two tries, and so leaves the lock's line to the worker at
/// the desk.
const MOMENTS: u32 = 8;

/// From which try on a worker leaves the processor to others as well.
const PATIENCE: u32 = 100;

/// When the workers of a job leave.
#[derive(Clone, Copy, PartialEq, Eq, Drop)]
pub(crate) enum Leave {
    /// Once the job is complete.
    Complete,
    /// Once it is complete, or a task of it isn't whole, so that it has no whole report any more.
    NotWhole,
}

/// What the workers of a job share, beside their lanes. The bell, the lock, what is under it and the
/// programs lie on lines of their own, so that who tries the lock holds nobody else up. Contracts see
/// the programs, by which each task of the job runs.
#[derive(Drop)]
pub(crate) struct Shared<J: GatedJob> {
    programs: Vec<Verified>,
    leave: Leave,
    bell: CachePadded<Bell>,
    desk: CachePadded<Mutex<CachePadded<LockedBook<J>>>>,
}

impl<J: GatedJob> Model for Shared<J> {
    ghost use Rattle.std.specs.Prelude.{◌≡◌, ◌≤◌, List, length, map, true};
    ghost use Rattle.verifier.specs.Checked.{Checked, program_of};
    ghost use Rattle.job_core.specs.Admitted.{AreOwn};
    ghost use Rattle.task_register.specs.declared.seats.TaskResult.{TaskResult};
    ghost use Rattle.job_answer.specs.OneAnswer.{RunsOrNot};

    ghost Value = { List Checked };

    ghost view = { λ s. s.programs.items };

    ghost invariant = { λ s. (length s.programs.items ≤ 16) × AreOwn s.programs.items
        × ((o : TaskResult) → RunsOrNot (map program_of s.programs.items) o
        → (o.ran ≡ true → J.heard o.own.number) → J.runs o) };
}

impl<J: GatedJob> Shared<J> {
    ghost use Rattle.std.specs.Prelude.{IfErr, IfOk, map, true};
    ghost use Rattle.workers.specs.Closed.{ClosesWhole};
    ghost use Rattle.workers.specs.Final.{IsFinal};
    ghost use Rattle.verifier.specs.Checked.{program_of};
    ghost use Rattle.job_core.specs.Admitted.{AreOwn};
    ghost use Rattle.task_register.specs.declared.seats.TaskResult.{TaskResult};
    ghost use Rattle.job_answer.specs.OneAnswer.{RunsOrNot};

    /// The programs, and the desk under a lock.
    pub fn new(programs: Vec<Verified>, desk: LockedBook<J>, leave: Leave) -> Shared<J>
        requires few { length programs.items ≤ 16 }
        requires own { AreOwn programs.items }
        requires runs { (o : TaskResult) → RunsOrNot (map program_of programs.items) o
            → (o.ran ≡ true → J.heard o.own.number) → J.runs o }
        ensures { result ≡ programs.items }
    {
        Shared {
            programs,
            leave,
            bell: CachePadded::new(Bell::new()),
            desk: CachePadded::new(Mutex::new(CachePadded::new(desk))),
        }
    }

    /// The programs of the job.
    pub fn list(&self) -> &[Verified]
        ensures programs { result.now ≡ self.now }
        ensures few { length result.now ≤ 16 }
        ensures own { AreOwn result.now }
        ensures runs { (o : TaskResult) → RunsOrNot (map program_of result.now) o
            → (o.ran ≡ true → J.heard o.own.number) → J.runs o }
    {
        &self.programs
    }

    /// The bell that wakes workers.
    pub fn bell(&self) -> &Bell {
        &self.bell
    }

    /// The desk, for one worker alone, if nobody is at it.
    fn desk_if_free(&self) -> Option<AtDesk<'_, J>> {
        self.desk.try_lock()
    }

    /// The desk, for one worker alone, once nobody else is at it.
    fn desk<R: Wait>(&self, rt: &R) -> AtDesk<'_, J> {
        self.desk.lock(rt)
    }

    /// Whether workers leave, by what they see at the desk.
    fn is_given_up(&self, desk: &LockedBook<J>) -> bool {
        match self.leave {
            Leave::Complete => false,
            Leave::NotWhole => desk.refused().is_some(),
        }
    }

    /// The report, once all workers have left and no task is alive, and whether each task was whole.
    /// Otherwise all comes back, and why workers have left ahead of that, if they have.
    pub fn close(self) -> Result<ClosedBook, (Shared<J>, Option<SpawnRefused>)>
        ensures report { IfOk result
            (λ closed. IsFinal J.board.job J.board.issued (length J.root.bytes) closed.report) }
        ensures closes { IfOk result (λ closed. ClosesWhole J.board.job J.board.issued
            (length J.root.bytes) J.root J.runs closed.refused closed.report) }
        ensures back { IfErr result (λ back. back.0 ≡ self) }
    {
        let Shared {
            programs,
            leave,
            bell,
            desk,
        } = self;
        match desk.into_inner().into_inner().into_inner().close() {
            Ok(closed) => Ok(closed),
            Err(back) => {
                let refused = back.refused();
                let shared = Shared {
                    programs,
                    leave,
                    bell,
                    desk: CachePadded::new(Mutex::new(CachePadded::new(back))),
                };
                Err((shared, refused))
            }
        }
    }
}

/// The desk, for one worker alone until it lets go of this.
pub(crate) type AtDesk<'a, J> = MutexGuard<'a, CachePadded<LockedBook<J>>>;

/// Waits ahead of another try.
fn wait_a_while(turn: u32) {
    for _ in 0..MOMENTS {
        hint::spin_loop();
    }
    if turn >= PATIENCE {
        thread::yield_now();
    }
}

/// The desk, for this worker alone until it lets go of it.
fn take_desk<'a, R: Wait, J: GatedJob>(rt: &R, shared: &'a Shared<J>) -> AtDesk<'a, J> {
    for turn in 0..TRIES {
        if let Some(desk) = shared.desk_if_free() {
            return desk;
        }
        wait_a_while(turn);
    }
    shared.desk(rt)
}

/// A worker's lanes, the task that it runs, whether the last claim was made at the desk, whether the
/// job was given up there, and what the worker ran that the book hasn't been told of.
#[derive(Drop)]
pub(crate) struct Worker<'a, 'b, R, J: GatedJob> {
    rt: &'a R,
    pub shared: &'a Shared<J>,
    held_lock: &'b HeldLock<'a, J>,
    lanes: Lanes<SeatedTicket<J>>,
    turn: Option<Turn<J>>,
    has_looked: bool,
    is_given_up: bool,
    ended: Vec<SeatedOutcome<J>>,
}

impl<'a, 'b, R: Wait, J: GatedJob + 'static> Worker<'a, 'b, R, J> {
    ghost use Rattle.std.specs.Prelude.{◌⊎◌, ◌<◌, ◌^◌, ℕ, [], reverse, IfErr, IfOk, None, Some};
    ghost use Rattle.credit_book.specs.Books.{BookState};
    ghost use Rattle.workers.specs.Locked.{IsJustSpawned};
    ghost use Rattle.credit_book.specs.declared.task.Ticket.{Ticket};
    ghost use Rattle.workers.specs.AtDesk.{AreTasksEnded, IsTaskEnded};
    ghost use Rattle.workers.specs.Heard.{HasHeard};
    ghost use Rattle.workers.specs.Handing.{Finds, IsHandedAt, IsHeldBack, IsKeptBeside};
    ghost use Rattle.workers.specs.Seats.{HasOneMore, IsTaskOver, RanAndPaid, task_in};
    ghost use Rattle.task_register.specs.Handing.{IsSeatOf};
    ghost use Rattle.task_register.specs.declared.seats.SeatedTask.{SeatedTask};

    /// A worker that runs no task yet. It holds no outcome back where there is no memory for that.
    pub fn new(
        rt: &'a R,
        alloc: Global,
        shared: &'a Shared<J>,
        held_lock: &'b HeldLock<'a, J>,
        lanes: Lanes<SeatedTicket<J>>,
    ) -> Worker<'a, 'b, R, J>
        ensures { result.shared.now ≡ shared.now }
    {
        let ended = match Vec::with_capacity(alloc, MOST_HELD_BACK) {
            Ok(ended) => ended,
            Err(_) => Vec::new(alloc),
        };
        Worker {
            rt,
            shared,
            held_lock,
            lanes,
            turn: None,
            has_looked: false,
            is_given_up: false,
            ended,
        }
    }

    /// The lanes again, once it has nothing more to do.
    pub fn into_lanes(self) -> Lanes<SeatedTicket<J>>
        ensures { result ≡ self.entry.lanes }
    {
        let Worker { lanes, .. } = self;
        lanes
    }

    /// The desk, for this worker alone until it lets go of it.
    fn desk(&self) -> AtDesk<'a, J> {
        match self.held_lock.take() {
            Some(desk) => desk,
            None => take_desk(self.rt, self.shared),
        }
    }

    /// The same, where nobody else is at it.
    fn desk_if_free(&self) -> Option<AtDesk<'a, J>> {
        match self.held_lock.take() {
            Some(desk) => Some(desk),
            None => self.shared.desk_if_free(),
        }
    }

    /// The ticket of a task to run: of its own lane, or else of another's, or else one that is
    /// parked. The worker keeps its seat, and the children that the task spawns come back here.
    /// Before a task that may take long, and where there is none, the book is told of all that has
    /// ended here.
    pub fn find(&mut self) -> Option<Ticket>
        ensures shared { self.new.shared ≡ self.old.shared }
        ensures found { Finds self.old.lanes result self.new.lanes (task_in self.new.turn).number }
        ensures seat { (ticket : Ticket) → result ≡ Some ticket → (task : SeatedTask)
            × (self.new.turn ≡ Some task) × IsSeatOf ticket task × (ticket.number < 2 ^ 32)
            × (ticket.job ≡ J.board.job) }
        ensures kept { (self.new.ended.items ≡ self.old.ended.items) ⊎ (self.new.ended.items ≡ []) }
        ensures told { result ≡ None → self.new.ended.items ≡ [] }
    {
        let found = match self.lanes.next() {
            Some(seated) => Some(seated),
            None => self.claim(),
        };
        let (ticket, seat) = found?.into_parts();
        self.turn = Some(Turn::new(ticket.number(), seat));
        if ticket.held() > BRIEF {
            self.end_held_back();
        }
        Some(ticket)
    }

    /// The ticket that was parked first, once the book knows of all that has ended here. A worker
    /// that has nothing to tell doesn't wait for the desk: those that have would have to wake it.
    fn claim(&mut self) -> Option<SeatedTicket<J>>
        ensures shared { (self.new.shared ≡ self.old.shared) × (self.new.lanes ≡ self.old.lanes) }
        ensures told { self.new.ended.items ≡ [] }
    {
        self.has_looked = true;
        if !self.ended.is_empty() {
            let mut desk = self.desk();
            self.tell(&mut desk);
            return desk.claim();
        }
        match self.desk_if_free() {
            Some(mut desk) => {
                self.is_given_up = self.shared.is_given_up(&desk);
                desk.claim()
            }
            None => {
                self.has_looked = false;
                None
            }
        }
    }

    /// Whether the last claim was made at the desk. Otherwise a ticket may be parked.
    pub fn has_looked(&self) -> bool
        ensures { result ≡ self.now.has_looked }
    {
        self.has_looked
    }

    /// Whether the job was given up when the worker was last at the desk: it has no whole report any
    /// more, and nobody asks for another one.
    pub fn is_given_up(&self) -> bool
        ensures { result ≡ self.now.is_given_up }
    {
        self.is_given_up
    }

    /// Tells the book at the desk of all that has ended here, in the order in which it ended.
    fn tell(&mut self, desk: &mut LockedBook<J>)
        ensures same { (self.new.shared ≡ self.old.shared) × (self.new.lanes ≡ self.old.lanes)
            × (self.new.turn ≡ self.old.turn) }
        ensures ended { AreTasksEnded desk.old (reverse self.old.ended.items) desk.new }
        ensures all { self.new.ended.items ≡ [] }
    {
        desk.end_all(&mut self.ended);
        self.is_given_up = self.shared.is_given_up(desk);
    }

    /// Tells the book of all that has ended here.
    fn end_held_back(&mut self)
        ensures same { (self.new.shared ≡ self.old.shared) × (self.new.lanes ≡ self.old.lanes)
            × (self.new.turn ≡ self.old.turn) }
        ensures told { self.new.ended.items ≡ [] }
    {
        if self.ended.is_empty() {
            return;
        }
        let mut desk = self.desk();
        self.tell(&mut desk);
    }

    /// The same, where nobody is at the desk. Otherwise all stays held back.
    fn end_if_free(&mut self)
        ensures same { (self.new.shared ≡ self.old.shared) × (self.new.lanes ≡ self.old.lanes)
            × (self.new.turn ≡ self.old.turn) }
        ensures told { (self.new.ended.items ≡ self.old.ended.items) ⊎ (self.new.ended.items ≡ []) }
    {
        if let Some(mut desk) = self.desk_if_free() {
            self.tell(&mut desk);
        }
    }

    /// Tells the book at the desk of all that has ended here, and then of this.
    fn tell_with(&mut self, desk: &mut LockedBook<J>, outcome: SeatedOutcome<J>)
        ensures same { (self.new.shared ≡ self.old.shared) × (self.new.lanes ≡ self.old.lanes)
            × (self.new.turn ≡ self.old.turn) }
        ensures ended { (between : BookState)
            × AreTasksEnded desk.old (reverse self.old.ended.items) between
            × IsTaskEnded between outcome desk.new }
        ensures all { self.new.ended.items ≡ [] }
    {
        self.tell(desk);
        desk.end(outcome);
    }

    /// Runs the task of the ticket that was found to its end, or not at all. What the seat knows
    /// behind it is what the task was given.
    pub fn run<G: Gate>(
        &mut self,
        alloc: Global,
        ticket: Ticket,
        frames: &mut Frames,
        gate_and_observer: &GateAndObserver<'_, '_, G, HeldLock<'a, J>>,
    ) -> ObservedRun
        requires seat { (task : SeatedTask) × (self.old.turn ≡ Some task) × IsSeatOf ticket task }
        requires few { ticket.number < 2 ^ 32 }
        requires job { ticket.job ≡ J.board.job }
        requires gate { (n : ℕ) → HasHeard G.begins G.ends
            gate_and_observer.now.gate.now n → J.heard n }
        ensures over { IsTaskOver (RanAndPaid J.runs) self.new.turn result.outcome result.whole }
        ensures job { result.outcome.job ≡ J.board.job }
    {
        let programs = self.shared.list();
        work_observed(alloc, ticket, programs, self, frames, gate_and_observer)
    }

    /// Ends the task whose turn it is, or holds its outcome back where there is room for it.
    pub fn end(&mut self, run: ObservedRun)
        requires over { IsTaskOver (RanAndPaid J.runs) self.old.turn run.outcome run.whole }
        requires job { run.outcome.job ≡ J.board.job }
        ensures same { (self.new.shared ≡ self.old.shared) × (self.new.lanes ≡ self.old.lanes) }
        ensures told { IsHeldBack self.old.ended.items run.outcome self.new.ended.items }
    {
        let outcome = match self.turn.take() {
            Some(turn) => SeatedOutcome::new(run, turn.into_parts().1),
            None => unreachable!(),
        };
        if self.ended.len() < self.ended.capacity() {
            self.ended.push_reserved(outcome);
            if self.ended.len() >= FEW_HELD_BACK {
                self.end_if_free();
            }
            return;
        }
        let mut desk = self.desk();
        self.tell_with(&mut desk, outcome);
    }

    /// Puts a new task's ticket at the back of its own lane, or parks it where there is no room for
    /// it, and wakes a worker that sleeps.
    fn keep(&mut self, desk: &mut LockedBook<J>, ticket: SeatedTicket<J>)
        requires { IsJustSpawned desk.old ticket.number }
        ensures same { (self.new.shared ≡ self.old.shared) × (self.new.turn ≡ self.old.turn)
            × (self.new.ended ≡ self.old.ended) }
        ensures kept { IsKeptBeside self.old.lanes desk.old ticket self.new.lanes desk.new }
    {
        if let Err(back) = self.lanes.push(ticket) {
            desk.park(back);
        }
        self.shared.bell().ring();
    }

    /// Spawns a child of the task whose turn it is, at the desk, and keeps its ticket. The task's seat
    /// knows the child. A worker that runs no task refuses.
    fn hand(&mut self, desk: &mut LockedBook<J>, child: SpawnRecord) -> Result<(), SpawnRecord>
        ensures same { (self.new.shared ≡ self.old.shared) × (self.new.ended ≡ self.old.ended) }
        ensures handed { IfOk result (λ _. IsHandedAt (task_in self.old.turn).number child
            self.old.lanes desk.old self.new.lanes desk.new) }
        ensures seat { IfOk result (λ _. HasOneMore self.old.turn child self.new.turn) }
        ensures back { IfErr result
            (λ back. (back ≡ child) × (self.new ≡ self.old) × (desk.new ≡ desk.old)) }
    {
        let Some(turn) = self.turn.take() else {
            return Err(child);
        };
        let (number, seat) = turn.into_parts();
        let (seat, spawned) = desk.spawn(seat, number, child);
        self.turn = Some(Turn::new(number, seat));
        match spawned {
            Ok(ticket) => {
                self.keep(desk, ticket);
                Ok(())
            }
            Err(back) => Err(back),
        }
    }
}

impl<R: Wait, J: GatedJob + 'static> Spawner for Worker<'_, '_, R, J> {
    ghost use Rattle.std.specs.Prelude.{◌≡◌, map, MatchResult};
    ghost use Rattle.machine_model.specs.JobState.{entries_of};
    ghost use Rattle.verifier.specs.Checked.{program_of};
    ghost use Rattle.workers.specs.Handing.{IsHanded};
    ghost use Rattle.workers.specs.Seats.{HasOneMore};

    ghost entries = { λ worker. entries_of (map program_of worker.shared.now) };

    ghost asks = { λ worker child. Unit {0} };

    ghost spawns = { λ old child reply new.
        MatchResult reply (λ _. IsHanded old.lanes child new.lanes × (new.shared ≡ old.shared)
        × (new.ended ≡ old.ended) × HasOneMore old.turn child new.turn)
        (λ _. new ≡ old) };

    ghost calls = { λ old helper arguments answer new. (answer ≡ 0) × (new ≡ old) };

    fn entry(&self, program: u64) -> Option<Entry> {
        entry_in(self.shared.list(), program)
    }

    fn spawn(&mut self, child: SpawnRecord) -> Result<(), SpawnRecord> {
        let mut desk = self.desk();
        let spawned = self.hand(&mut desk, child);
        self.held_lock.go_on(desk);
        spawned
    }

    /// A job's programs call no helper of a caller's, so that nobody asks.
    fn call(&mut self, _id: u32, _arguments: [u64; 5]) -> u64 {
        0
    }
}
