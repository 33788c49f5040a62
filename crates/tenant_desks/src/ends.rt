//! Finished jobs, each passed to its own desk.

ghost use Rattle.std.specs.Prelude.{◌≡◌, length};
ghost use Rattle.tenant_desks.specs.Answering.{NotesAtPlace, PassesEnds};

use crate::placed_runner::own_number;
use accounts::Desk;
use credit_book::Report;
use streams::Runner;

// Notes the end of a job at its own desk. One that the desk doesn't have open is passed over.
fn note_end(desks: &mut Vec<Desk>, number: u64, outcome: Result<Report, u8>)
    ensures { NotesAtPlace desks.old.items number outcome desks.new.items }
{
    let (own, place) = own_number(number);
    if place >= desks.len() {
        return;
    }
    let _ = desks[place].finish(own, outcome);
}

/// Passes every finished job from the runner to its own desk. One that no desk has open is passed
/// over.
pub(crate) fn pass_ends<N: Runner>(desks: &mut Vec<Desk>, runner: &mut N)
    requires { N.ready runner.old }
    ensures ready { N.ready runner.new }
    ensures passed { PassesEnds N.takes desks.old.items runner.old desks.new.items runner.new }
    ensures count { length desks.new.items ≡ length desks.old.items }
{
    'jobs: loop {
        match runner.take() {
            Some((number, outcome)) => note_end(desks, number, outcome),
            None => return,
        }
    }
}
