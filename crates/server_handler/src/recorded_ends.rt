//! Ends of jobs, noted by the desk and added.

ghost use Rattle.std.specs.Prelude.{ℕ, []};
ghost use Rattle.accounts.specs.Ledgers.{Ledger};
ghost use Rattle.streams.specs.Passing.{Notes};
ghost use Rattle.streams.specs.Refusing.{TellsStart};
ghost use Rattle.server_state.specs.Changing.{Records};

use crate::made_changes::{add_made, failed_change, settled_change};
use accounts::Desk;
use credit_book::Report;
use server_state::{ChangeSink, JobId};
use std::alloc::Global;
use streams::SubmitRefusal;

/// Ends a job, and adds that. The end of a job that is not open is passed over.
pub fn end_job<C: ChangeSink>(
    alloc: Global,
    desk: &mut Desk,
    changes: &mut C,
    id: JobId,
    outcome: Result<Report, u8>,
)
    ensures noted { Notes desk.old id.number outcome desk.new }
    ensures records { Records C.ChangeSink id.desk changes.old changes.new desk.old desk.new [] }
{
    match desk.finish(id.number, outcome) {
        Ok(()) => {
            let made = settled_change(alloc, changes, desk, id);
            add_made(changes, id.desk, made);
        }
        Err(_) => {}
    }
}

/// Adds the end of a job whose start was refused.
pub fn note_start<C: ChangeSink>(changes: &mut C, place: u16, refusal: Option<SubmitRefusal>)
    ensures { (old new : Ledger) (number : ℕ) → TellsStart old number refusal new
        → Records C.ChangeSink place changes.old changes.new old new [] }
{
    match refusal {
        Some(why) => match why {
            SubmitRefusal::NotStarted { job, code } => {
                let id = JobId {
                    desk: place,
                    number: job,
                };
                add_made(changes, place, Some(failed_change(id, code)));
            }
            SubmitRefusal::NotTaken { code: _code } => {}
        },
        None => {}
    }
}
