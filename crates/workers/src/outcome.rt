//! The outcome of a task that was worked on, and of one that isn't run.

ghost use Rattle.std.specs.Prelude.{◌≡◌, false};
ghost use Rattle.workers.specs.Outcomes.{IsUnrun};

use credit_book::{Outcome, Ticket};

/// A task that was worked on: its outcome, and whether it ran and no spawn of it was refused.
#[derive(Drop)]
pub(crate) struct ObservedRun {
    pub outcome: Outcome,
    pub whole: bool,
}

/// A task that isn't run, which so isn't whole.
pub(crate) fn not_run(ticket: Ticket) -> ObservedRun
    ensures outcome { IsUnrun ticket result.outcome }
    ensures whole { result.whole ≡ false }
{
    ObservedRun {
        outcome: unrun(ticket),
        whole: false,
    }
}

/// The outcome of a task that isn't run: it used nothing, its R0 is 0, and its part is as it was.
/// It takes no memory.
pub fn unrun(ticket: Ticket) -> Outcome
    ensures { IsUnrun ticket result }
{
    let (job, number) = (ticket.job(), ticket.number());
    Outcome {
        job,
        number,
        used: 0,
        r0: 0,
        ran: false,
        part: ticket.into_part(),
    }
}
