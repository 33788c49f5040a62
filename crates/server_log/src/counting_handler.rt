//! A handler whose refusals are told to a server's log, behind doors of which one hears what the
//! server counts.

ghost use Rattle.std.specs.Prelude.{◌≡◌, IfOk, List};
ghost use Rattle.shared_desk.specs.Histories.{HistoryEntry, Replays};
ghost use Rattle.shared_desk.specs.ServerAsked.{AreAskedOfDesks, TellsServer, answers_counting};
ghost use Rattle.shared_desk.specs.ServerAsked as asked;

use crate::log_queue::ServerLog;
use crate::reply_events::tell_reply;
use crate::stop_flag::StopFlag;
use refusal::NoMemory;
use sessions::{DoorForm, Reply, Request};
use shared_desk::{Passage, SharedHandler};
use std::alloc::Global;
use std::marker::Model;
use std::sync::Wait;
use std::time::Clock;
use streams::{Noted, PendingReply, PreparedRequest};

// The number of the refusal of what is no request.
const NO_REQUEST: u8 = 73;

/// Answers as a handler does, but for what is asked of the server itself: that a log tells, and the
/// handler is asked what is no request. Where the server is asked to stop, its flag is raised too. The
/// log is told of each reply that is a refusal, and by which connection it was asked. Contracts see it
/// as the handler.
#[derive(Drop)]
pub struct CountingHandler<'a, R, H> {
    rt: &'a R,
    log: &'a ServerLog,
    stop: Option<&'a StopFlag>,
    handler: H,
}

impl<'a, R, H> Model for CountingHandler<'a, R, H> {
    ghost Value = { H };

    ghost view = { λ c. c.handler };
}

impl<'a, R, H: Drop> CountingHandler<'a, R, H> {
    ghost use Rattle.std.specs.Prelude.{◌≡◌};

    /// The same handler, with the log that counts and the flag, if the server has one, that is raised
    /// where it is asked to stop.
    pub fn new(
        rt: &'a R,
        log: &'a ServerLog,
        stop: Option<&'a StopFlag>,
        handler: H,
    ) -> CountingHandler<'a, R, H>
        ensures { result ≡ handler }
    {
        CountingHandler {
            rt,
            log,
            stop,
            handler,
        }
    }
}

// Whether a form asks what the server counts.
fn asks_server(beyond: &Option<DoorForm>) -> bool
    ensures { result ≡ asked.asks_server beyond.now }
{
    match beyond {
        None => false,
        Some(DoorForm::Jobs { .. }) => false,
        Some(DoorForm::Keyed { .. }) => false,
        Some(DoorForm::Server { .. }) => true,
    }
}

// Whether a form asks the server to stop.
fn asks_to_stop(beyond: &Option<DoorForm>) -> bool
    ensures { result ≡ asked.asks_to_stop beyond.now }
{
    match beyond {
        None => false,
        Some(DoorForm::Jobs { .. }) => false,
        Some(DoorForm::Keyed { .. }) => false,
        Some(DoorForm::Server { stops }) => *stops,
    }
}

// The reply that tells what a log has counted.
fn totals_reply<R: Clock>(rt: &R, log: &ServerLog, alloc: Global) -> Result<PendingReply, NoMemory>
    ensures { IfOk result TellsServer }
{
    let totals = log.totals(rt, alloc)?;
    PendingReply::of_reply(alloc, &Reply::Server { totals: &totals })
}

// The same reply. Behind it a flag is raised, if there is one, where the server is to stop.
fn answer_server<R: Clock>(
    rt: &R,
    log: &ServerLog,
    stop: Option<&StopFlag>,
    stops: bool,
    alloc: Global,
) -> Result<PendingReply, NoMemory>
    ensures { IfOk result TellsServer }
{
    let reply = totals_reply(rt, log, alloc)?;
    if let (Some(flag), true) = (stop, stops) {
        flag.raise();
    }
    Ok(reply)
}

impl<D, R: Wait + Clock, H: SharedHandler<D>> SharedHandler<D> for CountingHandler<'_, R, H> {
    ghost use Rattle.shared_desk.specs.ServerAsked.{answers_counting};

    ghost ready = { λ h. H.ready h };

    ghost answers = { answers_counting H.answers };

    fn wants_admission(&self, desk: &D, passage: Passage, request: &Request) -> bool {
        self.handler.wants_admission(desk, passage, request)
    }

    fn serve_next(&mut self, connection: u64) {
        self.log.serve(connection);
    }

    fn answer_by(
        &mut self,
        alloc: Global,
        desk: &mut D,
        passage: Passage,
        request: PreparedRequest,
        beyond: Option<DoorForm>,
    ) -> Result<PendingReply, NoMemory> {
        let stops = asks_to_stop(&beyond);
        if !asks_server(&beyond) {
            let reply = self
                .handler
                .answer_by(alloc, desk, passage, request, beyond);
            tell_reply(self.rt, self.log, &reply);
            return reply;
        }
        drop(request);
        let nothing = PreparedRequest::AsItCame(Err(NO_REQUEST));
        drop(self.handler.answer_by(alloc, desk, passage, nothing, None));
        answer_server(self.rt, self.log, self.stop, stops, alloc)
    }
}

/// A note covers what the handler has recorded.
impl<M, R, H: Noted<M>> Noted<M> for CountingHandler<'_, R, H> {
    ghost covers = { λ place note h. H.covers place note h };

    fn note(&mut self, place: usize, into: &mut M) {
        self.handler.note(place, into);
    }
}

/// Whatever is asked of a server itself, its desks are asked by that: a history is one of what the
/// handler was asked. Where the server was asked, that is no request, and the reply tells what the
/// server counts.
pub fn counts_are_put_aside<D, H: SharedHandler<D>>()
    ensures { (begun end : D × H) (history : List HistoryEntry)
        → Replays (answers_counting H.answers) (λ s. s ≡ begun) history end
        → (plain : List HistoryEntry) × AreAskedOfDesks history plain
        × Replays H.answers (λ s. s ≡ begun) plain end }
{}
