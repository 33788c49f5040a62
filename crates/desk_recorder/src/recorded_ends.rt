//! Ends of jobs, noted by the desk and recorded.

ghost use Rattle.std.specs.Prelude.{ℕ, []};
ghost use Rattle.accounts.specs.Ledgers.{Ledger};
ghost use Rattle.streams.specs.Passing.{Notes, Passes};
ghost use Rattle.streams.specs.Refusing.{TellsStart};
ghost use Rattle.desk_recorder.specs.Recording.{IsRecorded};

use crate::change_records::{end_record, failure_record};
use crate::record_queue::RecordQueue;
use crate::recorder::ChangeRecorder;
use accounts::Desk;
use credit_book::Report;
use std::alloc::Global;
use streams::{Runner, SubmitRefusal};

/// Ends a job, and records that. One that the desk doesn't have open is passed over.
pub fn end_job<Q: RecordQueue>(
    alloc: Global,
    desk: &mut Desk,
    recorder: &mut ChangeRecorder<Q>,
    number: u64,
    outcome: Result<Report, u8>,
)
    ensures noted { Notes desk.old number outcome desk.new }
    ensures records { IsRecorded Q.taken Q.has_failed recorder.old recorder.new desk.old desk.new [] }
{
    let (record, outcome) = end_record(alloc, number, outcome);
    match desk.finish(number, outcome) {
        Ok(()) => recorder.note(record),
        Err(_) => {}
    }
}

/// Passes every finished job from the runner to the desk, and records each that the desk had open.
pub fn pass_recorded<N: Runner, Q: RecordQueue>(
    alloc: Global,
    desk: &mut Desk,
    runner: &mut N,
    recorder: &mut ChangeRecorder<Q>,
)
    requires { N.ready runner.old }
    ensures ready { N.ready runner.new }
    ensures passed { Passes N.takes desk.old runner.old desk.new runner.new }
    ensures records { IsRecorded Q.taken Q.has_failed recorder.old recorder.new desk.old desk.new [] }
{
    'jobs: loop {
        match runner.take() {
            Some((number, outcome)) => end_job(alloc, desk, recorder, number, outcome),
            None => return,
        }
    }
}

/// Records the end of a job whose start was refused.
pub fn note_start<Q: RecordQueue>(
    alloc: Global,
    recorder: &mut ChangeRecorder<Q>,
    refusal: Option<SubmitRefusal>,
)
    ensures { (old new : Ledger) (number : ℕ) → TellsStart old number refusal new
        → IsRecorded Q.taken Q.has_failed recorder.old recorder.new old new [] }
{
    match refusal {
        Some(why) => match why {
            SubmitRefusal::NotStarted { job, code } => {
                recorder.note(failure_record(alloc, job, code));
            }
            SubmitRefusal::NotTaken { code: _code } => {}
        },
        None => {}
    }
}
