//! A desk that keeps reports within its limits.

use accounts::{Desk, KeepLimits};
use refusal::NoMemory;
use sessions::Request;
use std::alloc::Global;
use streams::{
    Handler, Noted, PendingReply, PreparedRequest, Runner, SubmitRefusal, TellingHandler,
};

/// Answers a request as the runner does, and then has the desk forget until what it keeps is within
/// the limits.
#[derive(Drop)]
pub struct KeepingHandler<N> {
    runner: N,
    keep: KeepLimits,
}

impl<N: Drop> KeepingHandler<N> {
    ghost use Rattle.std.specs.Prelude.{◌≡◌};

    /// A runner, and how many reports are kept.
    pub fn new(runner: N, keep: KeepLimits) -> KeepingHandler<N>
        ensures { (result.runner ≡ runner) × (result.keep ≡ keep) }
    {
        KeepingHandler { runner, keep }
    }
}

impl<N: Runner> Handler<Desk> for KeepingHandler<N> {
    ghost use Rattle.job_server.specs.Kept.{answers_keeping};

    ghost ready = { λ h. N.ready h.runner };

    ghost answers = { answers_keeping N.starts N.looks N.takes };

    fn answer(
        &mut self,
        alloc: Global,
        desk: &mut Desk,
        request: Result<Request, u8>,
    ) -> Result<Vec<u8>, NoMemory> {
        let reply = self.runner.answer(alloc, desk, request);
        desk.keep_within(self.keep);
        reply
    }
}

impl<N: Runner> TellingHandler for KeepingHandler<N> {
    fn answer_and_tell(
        &mut self,
        alloc: Global,
        desk: &mut Desk,
        request: PreparedRequest,
    ) -> (Option<SubmitRefusal>, Result<PendingReply, NoMemory>) {
        let told = self.runner.answer_and_tell(alloc, desk, request);
        desk.keep_within(self.keep);
        told
    }
}

/// It records nothing, so there is nothing to be noted.
impl<M, N> Noted<M> for KeepingHandler<N> {
    ghost covers = { λ _ _ _. Unit {0} };

    fn note(&mut self, _place: usize, _into: &mut M) {}
}
