//! What lies under the lock of a job: its book, and the register of what its tasks were started with.

ghost use Rattle.std.specs.Prelude.{◌≡◌, ◌↔◌, ◌∷◌, [], IfOk, IfErr, None, length, reverse, true};
ghost use Rattle.credit_book.specs.Books.{IsReport, IsSpawnFault, ticket_of, spawn_event};
ghost use Rattle.credit_book.specs.declared.event.Event.TheVariants.{Open};
ghost use Rattle.credit_book.specs.declared.fault.BookFault.{BookFault};
ghost use Rattle.credit_book.specs.History.{IsComplete, table_of};
ghost use Rattle.job_answer.specs.OneAnswer.{IsPaidFor};
ghost use Rattle.task_register.specs.Handing.{ended_with, start_by};
ghost use Rattle.task_register.specs.Rule.{empty_register, with_one_more, with_start};
ghost use Rattle.workers.specs.AtDesk.{AreTasksEnded, HasMore, IsClaimed, IsTaskEnded, IsParked};
ghost use Rattle.workers.specs.Closed.{ClosesWhole};
ghost use Rattle.workers.specs.Final.{IsFinal};
ghost use Rattle.workers.specs.Locked.{IsJustSpawned};

use crate::outcome::ObservedRun;
use crate::seated::{SeatedOutcome, SeatedTicket};
use credit_book::{Book, Outcome, Refused, Report};
use helpers::SpawnRecord;
use std::marker::Model;
use std::snapshot::Snapshot;
use task_register::{JobId, TaskRegister, TaskSeat};

/// A task of the job found no frame, or was refused a spawn. The end of such a task alone makes one.
#[derive(Clone, Copy, Debug, PartialEq, Eq, Hash, Drop)]
pub struct SpawnRefused {
    seal: (),
}

/// A closed job: its report, and whether a task of it isn't whole.
#[derive(Drop)]
pub(crate) struct ClosedBook {
    pub report: Report,
    pub refused: Option<SpawnRefused>,
}

// Whether a task isn't whole, once one more has ended.
fn refused_so_far(whole: bool, before: Option<SpawnRefused>) -> Option<SpawnRefused>
    ensures { (result ≡ None) ↔ (whole ≡ true) × (before ≡ None) }
{
    if whole {
        before
    } else {
        Some(SpawnRefused { seal: () })
    }
}

/// The book of a job and the register of its tasks, which agree, and whether a task that is over isn't
/// whole. So the book refuses no ticket and no end that has a seat. Contracts see the book.
#[derive(Drop)]
pub(crate) struct LockedBook<J: JobId> {
    book: Book,
    register: TaskRegister<J>,
    refused: Option<SpawnRefused>,
}

impl<J: JobId> Model for LockedBook<J> {
    ghost use Rattle.std.specs.Prelude.{◌≡◌, length};
    ghost use Rattle.credit_book.specs.Books.{BookState};
    ghost use Rattle.job_answer.specs.Agreement.{RegisterAgrees};
    ghost use Rattle.workers.specs.Locked.{AreQueued, AreSeats, TellsSpawnRefusal};

    ghost Value = { BookState };

    ghost view = { λ d. d.book };

    ghost invariant = { λ d. RegisterAgrees d.register.known d.book.history
        × AreSeats J.board.job d.book.waiting d.register.waiting × (d.book.board ≡ J.board)
        × (d.book.size ≡ length J.root.bytes) × AreQueued d.book
        × TellsSpawnRefusal d.refused d.register.known.over };
}

impl<J: JobId> LockedBook<J> {
    /// The desk of a book that was just opened, whose root's ticket is parked.
    pub fn open(book: Book, register: TaskRegister<J>, root: SeatedTicket<J>) -> LockedBook<J>
        requires board { book.board ≡ J.board }
        requires size { book.size ≡ length J.root.bytes }
        requires opened { book.history ≡ Open book.board.job book.board.issued ∷ [] }
        requires none { book.waiting ≡ [] }
        requires register { register
            ≡ record { known = with_start empty_register J.root; waiting = [] } }
        requires root { (J.root.program ≡ 0) × (J.root.arg ≡ 0)
            × (J.root.share ≡ book.board.issued) }
        requires first { root.number ≡ 0 }
        ensures { IsParked book root result }
    {
        let mut desk = LockedBook {
            book,
            register,
            refused: None,
        };
        desk.park(root);
        desk
    }

    /// Parks the ticket of a task that was just spawned, with its seat, for any worker to claim.
    pub fn park(&mut self, seated: SeatedTicket<J>)
        requires { IsJustSpawned self.old seated.number }
        ensures { IsParked self.old seated self.new }
    {
        let (ticket, seat) = seated.into_parts();
        match self.book.park(ticket) {
            Ok(()) => self.register.park(seat),
            Err(_) => unreachable!(),
        }
    }

    /// Spawns a child of the seat's task: its ticket with a seat of its own, or the record as it
    /// was. The seat again, which knows the child.
    pub fn spawn(
        &mut self,
        seat: TaskSeat<J>,
        parent: u32,
        child: SpawnRecord,
    ) -> (TaskSeat<J>, Result<SeatedTicket<J>, SpawnRecord>)
        requires { seat.number ≡ parent }
        ensures ticket { IfOk result.1 (λ ticket. ticket
            ≡ ticket_of self.old.board.job (length (table_of self.old.history).standings) child) }
        ensures seat { IfOk result.1 (λ ticket. result.0
            ≡ with_one_more seat (start_by seat.number ticket)) }
        ensures added { IfOk result.1 (λ _. (self.new.waiting ≡ self.old.waiting)
            × HasMore self.old (spawn_event parent
            (length (table_of self.old.history).standings) child) self.new) }
        ensures fresh { IfOk result.1 (λ ticket. IsJustSpawned self.new ticket.number) }
        ensures back { IfErr result.1 (λ back. (back ≡ child) × (result.0 ≡ seat)
            × (self.new ≡ self.old)) }
        ensures refused { IfErr result.1 (λ _. (fault : BookFault)
            × IsSpawnFault self.old parent child fault) }
    {
        match self.book.spawn(parent, child) {
            Ok(ticket) => {
                let (seat, own) = self.register.add_child(seat, &ticket);
                (seat, Ok(SeatedTicket::new(ticket, own)))
            }
            Err(Refused { fault: _, value }) => (seat, Err(value)),
        }
    }

    /// The ticket that was parked first, with its seat, if one is parked.
    pub fn claim(&mut self) -> Option<SeatedTicket<J>>
        ensures { IsClaimed self.old result self.new }
    {
        let _ = self.book.job();
        match self.book.claim() {
            Some(ticket) => {
                let seat = self.register.claim();
                Some(SeatedTicket::new(ticket, seat))
            }
            None => None,
        }
    }

    // Ends the seat's task.
    fn end_seated(&mut self, outcome: Outcome, whole: bool, seat: TaskSeat<J>)
        requires number { seat.number ≡ outcome.number }
        requires job { outcome.job ≡ J.board.job }
        requires runs { J.runs (ended_with seat outcome whole) }
        requires paid { IsPaidFor (ended_with seat outcome whole) }
        ensures { IsTaskEnded self.old outcome self.new }
    {
        let _ = self.book.job();
        let was = Snapshot::of(&outcome);
        self.register.close(seat, &was, whole);
        self.refused = refused_so_far(whole, self.refused);
        match self.book.end(outcome) {
            Ok(_) => {}
            Err(_) => unreachable!(),
        }
    }

    /// Ends a task.
    pub fn end(&mut self, seated: SeatedOutcome<J>)
        ensures { IsTaskEnded self.old seated self.new }
    {
        let (run, seat) = seated.into_parts();
        let ObservedRun { outcome, whole } = run;
        self.end_seated(outcome, whole, seat);
    }

    /// Ends tasks, the last of the list first.
    pub fn end_all(&mut self, outcomes: &mut Vec<SeatedOutcome<J>>)
        ensures all { outcomes.new.items ≡ [] }
        ensures ended { AreTasksEnded self.old (reverse outcomes.old.items) self.new }
    {
        while let Some(outcome) = outcomes.pop() {
            self.end(outcome);
        }
    }

    /// Whether a task that is over isn't whole.
    pub fn refused(&self) -> Option<SpawnRefused> {
        self.refused
    }

    /// The report, once no task is alive, and whether each task was whole. Otherwise all comes back.
    pub fn close(self) -> Result<ClosedBook, LockedBook<J>>
        ensures report { IfOk result
            (λ closed. IsFinal J.board.job J.board.issued (length J.root.bytes) closed.report) }
        ensures closes { IfOk result (λ closed. ClosesWhole J.board.job J.board.issued
            (length J.root.bytes) J.root J.runs closed.refused closed.report) }
        ensures own { IfOk result (λ closed. IsReport self.size self.history closed.report) }
        ensures back { IfErr result (λ back. back ≡ self) }
        ensures alive { IfErr result (λ _. IsComplete (table_of self.history) → ⊥) }
    {
        let LockedBook {
            book,
            register,
            refused,
        } = self;
        let mut register = register;
        register.look();
        match book.close() {
            Ok(report) => Ok(ClosedBook { report, refused }),
            Err(book) => Err(LockedBook {
                book,
                register,
                refused,
            }),
        }
    }
}
