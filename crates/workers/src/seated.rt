//! Tickets and outcomes with the seats of their tasks. A seat has no bytes: it exists in proofs alone.

ghost use Rattle.std.specs.Prelude.{◌≡◌};
ghost use Rattle.task_register.specs.Handing.{IsSeatOf, ended_with};
ghost use Rattle.workers.specs.Seats.{RanAndPaid};

use crate::outcome::ObservedRun;
use credit_book::{Outcome, Ticket};
use lanes::Carried;
use std::marker::Model;
use task_register::{JobId, TaskSeat};

/// A ticket with the seat of its task, which has no child yet. Contracts see it as the ticket.
#[derive(Drop)]
pub(crate) struct SeatedTicket<J: JobId> {
    ticket: Ticket,
    seat: TaskSeat<J>,
}

impl<J: JobId> Model for SeatedTicket<J> {
    ghost use Rattle.std.specs.Prelude.{◌≡◌};
    ghost use Rattle.credit_book.specs.declared.task.Ticket.{Ticket};
    ghost use Rattle.task_register.specs.Handing.{IsSeatOf};

    ghost Value = { Ticket };

    ghost view = { λ t. t.ticket };

    ghost invariant = { λ t. IsSeatOf t.ticket t.seat × (t.ticket.job ≡ J.board.job) };
}

impl<J: JobId> Carried for SeatedTicket<J> {
    ghost use Rattle.lanes.specs.Plain.{ticket_data};

    ghost task = { ticket_data };
}

impl<J: JobId> SeatedTicket<J> {
    /// The ticket with its seat.
    pub fn new(ticket: Ticket, seat: TaskSeat<J>) -> SeatedTicket<J>
        requires seat { IsSeatOf ticket seat }
        requires job { ticket.job ≡ J.board.job }
        ensures { result ≡ ticket }
    {
        SeatedTicket { ticket, seat }
    }

    /// The ticket and its seat.
    pub fn into_parts(self) -> (Ticket, TaskSeat<J>)
        ensures ticket { result.0 ≡ self }
        ensures seat { IsSeatOf self result.1 }
        ensures job { self.job ≡ J.board.job }
    {
        let SeatedTicket { ticket, seat } = self;
        (ticket, seat)
    }
}

/// The outcome of a task, and whether it is whole, with its seat. Contracts see it as the outcome.
/// What the job promises of each task that is over holds of it, and it was paid for.
#[derive(Drop)]
pub(crate) struct SeatedOutcome<J: JobId> {
    outcome: Outcome,
    whole: bool,
    seat: TaskSeat<J>,
}

impl<J: JobId> Model for SeatedOutcome<J> {
    ghost use Rattle.std.specs.Prelude.{◌≡◌};
    ghost use Rattle.credit_book.specs.declared.task.Outcome.{Outcome};
    ghost use Rattle.task_register.specs.Handing.{ended_with};
    ghost use Rattle.workers.specs.Seats.{RanAndPaid};

    ghost Value = { Outcome };

    ghost view = { λ e. e.outcome };

    ghost invariant = { λ e. (e.seat.number ≡ e.outcome.number)
        × (e.outcome.job ≡ J.board.job)
        × RanAndPaid J.runs (ended_with e.seat e.outcome e.whole) };
}

impl<J: JobId> SeatedOutcome<J> {
    /// The outcome of the seat's task.
    pub fn new(run: ObservedRun, seat: TaskSeat<J>) -> SeatedOutcome<J>
        requires number { seat.number ≡ run.outcome.number }
        requires job { run.outcome.job ≡ J.board.job }
        requires settled { RanAndPaid J.runs (ended_with seat run.outcome run.whole) }
        ensures { result ≡ run.outcome }
    {
        let ObservedRun { outcome, whole } = run;
        SeatedOutcome {
            outcome,
            whole,
            seat,
        }
    }

    /// The outcome, and whether it is whole, and the seat.
    pub fn into_parts(self) -> (ObservedRun, TaskSeat<J>)
        ensures outcome { result.0.outcome ≡ self }
        ensures number { result.1.number ≡ self.number }
        ensures job { self.job ≡ J.board.job }
        ensures settled { RanAndPaid J.runs (ended_with result.1 self result.0.whole) }
    {
        let SeatedOutcome {
            outcome,
            whole,
            seat,
        } = self;
        (ObservedRun { outcome, whole }, seat)
    }
}

/// The task that a worker runs: its number and its seat. Contracts see it as the task.
#[derive(Drop)]
pub(crate) struct Turn<J: JobId> {
    number: u32,
    seat: TaskSeat<J>,
}

impl<J: JobId> Model for Turn<J> {
    ghost use Rattle.std.specs.Prelude.{◌≡◌};
    ghost use Rattle.task_register.specs.declared.seats.SeatedTask.{SeatedTask};

    ghost Value = { SeatedTask };

    ghost view = { λ t. t.seat };

    ghost invariant = { λ t. t.seat.number ≡ t.number };
}

impl<J: JobId> Turn<J> {
    /// The task of this number.
    pub fn new(number: u32, seat: TaskSeat<J>) -> Turn<J>
        requires { seat.number ≡ number }
        ensures { result ≡ seat }
    {
        Turn { number, seat }
    }

    /// The task's number and its seat.
    pub fn into_parts(self) -> (u32, TaskSeat<J>)
        ensures number { result.0 ≡ self.number }
        ensures seat { result.1 ≡ self }
    {
        let Turn { number, seat } = self;
        (number, seat)
    }
}
