//! A desk that answers, keeps reports within its limits, and records what changes it.

use crate::record_queue::RecordQueue;
use crate::recorded_answers::answer_recorded;
use crate::recorder::ChangeRecorder;
use crate::restarting::restart_jobs;
use accounts::{Desk, KeepLimits};
use desk_journal::OpenJob;
use refusal::NoMemory;
use sessions::Request;
use std::alloc::Global;
use streams::{
    Handler, Noted, PendingReply, PreparedRequest, Runner, SubmitRefusal, TellingHandler,
    written_frame,
};

/// Answers a request as the runner does, and then has the desk forget until what it keeps is within
/// the limits. Puts the record of each change of the desk into a queue.
#[derive(Drop)]
pub struct RecordingHandler<N, Q> {
    runner: N,
    keep: KeepLimits,
    recorder: ChangeRecorder<Q>,
}

impl<N: Runner, Q: RecordQueue> RecordingHandler<N, Q> {
    ghost use Rattle.std.specs.Prelude.{◌≡◌, false, IfErr, OnOk};
    ghost use Rattle.accounts.specs.Ledgers.{Ledger};
    ghost use Rattle.desk_recorder.specs.Restarts.{RefusesStart, StartsEach};

    /// A runner, how many reports are kept, and the queue of the records.
    pub fn new(runner: N, keep: KeepLimits, queue: Q) -> RecordingHandler<N, Q>
        ensures { (result.runner ≡ runner) × (result.keep ≡ keep)
            × (result.recorder.queue ≡ queue) × (result.recorder.is_stopped ≡ false) }
    {
        RecordingHandler {
            runner,
            keep,
            recorder: ChangeRecorder::new(queue),
        }
    }

    /// Starts the open jobs of a recovered desk, each once and in this order. The first start that is
    /// refused ends that, and its number is the result. Nothing is recorded.
    pub fn restart(&mut self, alloc: Global, jobs: Vec<OpenJob>) -> Result<(), u8>
        requires { N.ready self.old.runner }
        ensures ready { N.ready self.new.runner }
        ensures starts { OnOk result ((desk : Ledger)
            → StartsEach N.starts desk self.old.runner jobs.items desk self.new.runner) }
        ensures refused { IfErr result (λ code. (desk : Ledger)
            → RefusesStart N.starts desk self.old.runner jobs.items code self.new.runner) }
        ensures same { (self.new.keep ≡ self.old.keep)
            × (self.new.recorder ≡ self.old.recorder) }
    {
        restart_jobs(alloc, &mut self.runner, jobs)
    }
}

impl<N: Runner, Q: RecordQueue> Handler<Desk> for RecordingHandler<N, Q> {
    ghost use Rattle.desk_recorder.specs.RecordedAnswers.{answers_recorded};

    ghost ready = { λ h. N.ready h.runner };

    ghost answers = { answers_recorded N.starts N.looks N.takes Q.taken Q.has_failed };

    fn answer(
        &mut self,
        alloc: Global,
        desk: &mut Desk,
        request: Result<Request, u8>,
    ) -> Result<Vec<u8>, NoMemory> {
        let (_, reply) = self.answer_and_tell(alloc, desk, PreparedRequest::AsItCame(request));
        written_frame(alloc, reply)
    }
}

impl<N: Runner, Q: RecordQueue> TellingHandler for RecordingHandler<N, Q> {
    fn answer_and_tell(
        &mut self,
        alloc: Global,
        desk: &mut Desk,
        request: PreparedRequest,
    ) -> (Option<SubmitRefusal>, Result<PendingReply, NoMemory>) {
        answer_recorded(
            alloc,
            desk,
            &mut self.runner,
            &mut self.recorder,
            self.keep,
            request,
        )
    }
}

/// A note covers the records that its recorder has put into the queue.
impl<M, N: Runner, Q: RecordQueue + Noted<M>> Noted<M> for RecordingHandler<N, Q> {
    ghost covers = { λ place note h. Q.covers place note h.recorder.queue };

    fn note(&mut self, place: usize, into: &mut M) {
        Noted::note(&mut self.recorder, place, into);
    }
}
