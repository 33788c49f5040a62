//! Finished jobs, each passed to its own desk and recorded in that desk's queue.

ghost use Rattle.std.specs.Prelude.{◌≡◌, length};
ghost use Rattle.tenant_desks.specs.Answering.{NotesAtPlace, PassesEnds};
ghost use Rattle.tenant_recorder.specs.Recorders.{EachRecorder, IsRecordedPlainly};

use accounts::Desk;
use credit_book::Report;
use desk_recorder::{ChangeRecorder, RecordQueue, end_job};
use std::alloc::Global;
use streams::Runner;
use tenant_desks::own_number;

// Notes the end of a job at its own desk, and records it there. One that the desk doesn't have open
// is passed over.
fn note_end<Q: RecordQueue>(
    alloc: Global,
    desks: &mut Vec<Desk>,
    recorders: &mut Vec<ChangeRecorder<Q>>,
    number: u64,
    outcome: Result<Report, u8>,
)
    requires { length recorders.old.items ≡ length desks.old.items }
    ensures noted { NotesAtPlace desks.old.items number outcome desks.new.items }
    ensures records { EachRecorder (IsRecordedPlainly Q.taken Q.has_failed) recorders.old.items
        recorders.new.items desks.old.items desks.new.items }
{
    let (own, place) = own_number(number);
    if place >= desks.len() {
        return;
    }
    end_job(
        alloc,
        &mut desks[place],
        &mut recorders[place],
        own,
        outcome,
    );
}

/// Passes every finished job from the runner to its own desk, and records each that was open there.
pub(crate) fn pass_ends<N: Runner, Q: RecordQueue>(
    alloc: Global,
    desks: &mut Vec<Desk>,
    runner: &mut N,
    recorders: &mut Vec<ChangeRecorder<Q>>,
)
    requires ready { N.ready runner.old }
    requires paired { length recorders.old.items ≡ length desks.old.items }
    ensures ready { N.ready runner.new }
    ensures passed { PassesEnds N.takes desks.old.items runner.old desks.new.items runner.new }
    ensures records { EachRecorder (IsRecordedPlainly Q.taken Q.has_failed) recorders.old.items
        recorders.new.items desks.old.items desks.new.items }
{
    'jobs: loop {
        match runner.take() {
            Some((number, outcome)) => note_end(alloc, desks, recorders, number, outcome),
            None => return,
        }
    }
}
