//! A server's one desk whose changes a journal keeps.

ghost use Rattle.std.specs.Prelude.{◌≡◌, ◌⊎◌, All, is_some, length};
ghost use Rattle.accounts.specs.Ledgers.{Ledger};
ghost use Rattle.desk_recorder.specs.RecordedAnswers.{answers_recorded};
ghost use Rattle.desk_recorder.specs.declared.recording_handler.RecordingHandler.{RecordingHandler};
ghost use Rattle.shared_desk.specs.Histories.{by_any_passage};
ghost use Rattle.shared_desk.specs.ServerAsked.{answers_counting};
ghost use Rattle.shared_journal.specs.declared.journal_queue.JournalQueue.{JournalQueue};
ghost use Rattle.job_server.specs.AtOnce.{HasNotBegun, IsServingFrom};
ghost use Rattle.job_server.specs.Listening.{AreOf, CameBy};
ghost use Rattle.job_server.specs.Recorded.{IsRestarted, queue_taken, queue_told, recovered_state};
ghost use Rattle.job_server.specs.TenantRecorded.{desks_of};

use crate::at_once::serve_at_once;
use crate::fault::ServeFault;
use crate::listener::Listener;
use crate::plan::Plan;
use accounts::Desk;
use desk_journal::OpenJob;
use desk_recorder::RecordingHandler;
use keyed_desk::KeyedDesk;
use server_log::{CountingHandler, LoggedHandler};
use shared_journal::{JournalNote, JournalQueue, SharedJournal};
use std::alloc::Global;
use std::sync::Wait;
use std::thread::Threads;
use std::time::Clock;
use streams::Runner;

// The one desk that was recovered, and its open jobs.
fn parts_of(alloc: Global, states: Vec<KeyedDesk>) -> (Desk, Vec<OpenJob>)
    requires { length states.items ≡ 1 }
    ensures { (result.0 ≡ (recovered_state (desks_of states.items)).desk)
        × (result.1.items ≡ (recovered_state (desks_of states.items)).held) }
{
    let mut states = states;
    match states.pop() {
        Some(state) => {
            let (desk, _keys) = state.into_parts();
            desk.into_parts()
        }
        None => (Desk::new(alloc), Vec::new(alloc)),
    }
}

/// Serves the connections at a recovered desk, whose jobs this runner runs. First its open jobs are
/// started again: where one is refused nothing is served, and the refusal is the fault. The plan's one
/// journal takes the record of each change.
pub(crate) fn serve_recorded<
    's,
    R: Threads + Wait + Clock + Sync,
    L: Listener + Send + Drop,
    N: Runner + Send + Drop,
>(
    rt: &'s R,
    alloc: Global,
    listener: L,
    runner: N,
    plan: Plan<'s>,
    states: Vec<KeyedDesk>,
) -> Result<(), ServeFault>
    requires ready { N.ready runner }
    requires journal { length plan.journals.now ≡ 1 }
    requires state { length states.items ≡ 1 }
    ensures { ((begun : Ledger × RecordingHandler N (JournalQueue R))
        × (end : Ledger × RecordingHandler N (JournalQueue R))
        × IsRestarted N.starts queue_taken queue_told (recovered_state (desks_of states.items)) runner
        plan.entry.bounds.keep begun
        × (s : IsServingFrom (answers_counting (by_any_passage (answers_recorded N.starts N.looks
        N.takes queue_taken queue_told))) (λ s. s ≡ begun) end plan.entry.sessions (is_some plan.entry.stop) result)
        × AreOf L.opens L.fails listener s.opened
        × All (λ c. CameBy L.opens L.passage c.passage) s.closed)
        ⊎ HasNotBegun result }
{
    let (desk, jobs) = parts_of(alloc, states);
    let queue = JournalQueue::new(rt, &plan.journals[0]);
    let mut recording = RecordingHandler::new(runner, plan.bounds.keep, queue);
    match recording.restart(alloc, jobs) {
        Ok(()) => {}
        Err(code) => return Err(ServeFault::Restart(code)),
    }
    let logged = LoggedHandler::new(rt, plan.log, recording);
    let handler = CountingHandler::new(rt, plan.log, plan.stop, logged);
    let makers = [&plan.journals[0]];
    let served = serve_at_once::<
        R,
        L,
        Desk,
        CountingHandler<'s, R, LoggedHandler<'s, R, RecordingHandler<N, JournalQueue<'s, 's, R>>>>,
        JournalNote<'s>,
        &'s SharedJournal,
    >(rt, alloc, listener, desk, handler, plan, &makers);
    served.2
}
