//! A handler whose jobs that aren't started, and whose grants, are told to a server's log.

ghost use Rattle.std.specs.Prelude.{◌≡◌};
ghost use Rattle.server_log.specs.Told.{refusal_event};

use crate::grant_note::noted_grant;
use crate::log_line::LogEvent;
use crate::log_queue::ServerLog;
use crate::server_counts::Counter;
use accounts::Desk;
use refusal::NoMemory;
use sessions::{DoorForm, Request};
use shared_desk::{Passage, SharedHandler};
use std::alloc::Global;
use std::marker::Model;
use std::sync::Wait;
use std::time::Clock;
use streams::{
    Noted, PendingReply, PreparedRequest, SubmitRefusal, TellingHandler, wants_admission,
};

/// Answers as a handler does, and tells a log of each job that was taken and whose start is refused,
/// and of each grant. Contracts see it as the handler.
#[derive(Drop)]
pub struct LoggedHandler<'a, R, H> {
    rt: &'a R,
    log: &'a ServerLog,
    handler: H,
}

impl<'a, R, H> Model for LoggedHandler<'a, R, H> {
    ghost Value = { H };

    ghost view = { λ l. l.handler };
}

impl<'a, R, H: Drop> LoggedHandler<'a, R, H> {
    ghost use Rattle.std.specs.Prelude.{◌≡◌};

    /// The same handler, with a log.
    pub fn new(rt: &'a R, log: &'a ServerLog, handler: H) -> LoggedHandler<'a, R, H>
        ensures { result ≡ handler }
    {
        LoggedHandler { rt, log, handler }
    }
}

/// What a log tells of a job that was asked for and doesn't run, beside the reply: that it failed,
/// if it was taken.
pub fn event_of_refusal(refusal: SubmitRefusal) -> Option<LogEvent>
    ensures { result ≡ refusal_event refusal }
{
    match refusal {
        SubmitRefusal::NotTaken { .. } => None,
        SubmitRefusal::NotStarted { job, code } => Some(LogEvent::Failed { job, code }),
    }
}

// Tells a log why a job that was taken doesn't run. No worker takes it.
fn tell_refusal<R: Wait + Clock>(rt: &R, log: &ServerLog, refusal: SubmitRefusal) {
    if let Some(event) = event_of_refusal(refusal) {
        log.raise(Counter::JobsTaken);
        log.raise(Counter::JobsUnstarted);
        log.tell(rt, event);
    }
}

/// Tells a log why a job that was taken doesn't run, and of a grant.
pub fn tell_answer<R: Wait + Clock>(
    rt: &R,
    log: &ServerLog,
    refusal: Option<SubmitRefusal>,
    granted: Option<LogEvent>,
) {
    if let Some(refusal) = refusal {
        tell_refusal(rt, log, refusal);
    }
    if let Some(event) = granted {
        log.tell(rt, event);
    }
}

impl<R: Wait + Clock, H: TellingHandler> SharedHandler<Desk> for LoggedHandler<'_, R, H> {
    ghost use Rattle.shared_desk.specs.Histories.{by_any_passage};

    ghost ready = { λ h. H.ready h };

    ghost answers = { by_any_passage (λ s query reply t. H.answers s query reply t) };

    fn wants_admission(&self, desk: &Desk, _passage: Passage, request: &Request) -> bool {
        wants_admission(desk, request)
    }

    fn answer_by(
        &mut self,
        alloc: Global,
        desk: &mut Desk,
        _passage: Passage,
        request: PreparedRequest,
        _beyond: Option<DoorForm>,
    ) -> Result<PendingReply, NoMemory> {
        let note = noted_grant(alloc, self.log, desk, &request);
        let (refusal, reply) = self.handler.answer_and_tell(alloc, desk, request);
        let granted = match note {
            Some(note) => note.event(desk, false),
            None => None,
        };
        tell_answer(self.rt, self.log, refusal, granted);
        reply
    }
}

/// A note covers what the handler has recorded.
impl<M, R, H: Noted<M>> Noted<M> for LoggedHandler<'_, R, H> {
    ghost covers = { λ place note h. H.covers place note h };

    fn note(&mut self, place: usize, into: &mut M) {
        self.handler.note(place, into);
    }
}
