//! A server that connections share, each by the passage that it came by.

ghost use Rattle.std.specs.Prelude.{◌≡◌};
ghost use Rattle.streams.specs.Prepared.{asked_of};
ghost use Rattle.server_handler.specs.DeskAnswers.{query_asked};
ghost use Rattle.server_handler.specs.Shared as shared;

use crate::desk_query::DeskQuery;
use crate::server::Server;
use refusal::NoMemory;
use server_log::{ServerLog, tell_answer};
use server_state::{Access, ChangeSink, JobRunner};
use sessions::{DoorForm, Request};
use shared_desk::{Door, Passage, SharedHandler};
use std::alloc::Global;
use std::marker::Model;
use std::sync::Wait;
use std::time::Clock;
use streams::{PendingReply, PreparedRequest};

// The number of the refusal of what is no request.
const NO_REQUEST: u8 = 73;

// The place of a door's own desk.
fn desk_behind(door: Door) -> u16
    ensures { result ≡ shared.desk_behind door }
{
    match door {
        Door::Port => 0,
        Door::Socket => 0,
        Door::Grants => 0,
        Door::Tenant(number) => u16::from(number) + 1,
    }
}

/// The rights of a connection that came by this passage.
pub fn access_of(passage: Passage) -> Access
    ensures { result ≡ shared.access_of passage }
{
    Access {
        desk: desk_behind(passage.door),
        may_grant: passage.may_grant,
        forms: passage.forms(),
    }
}

// A request, and what was asked beyond the plain protocol, as a query of desks.
fn query_with(request: PreparedRequest, beyond: Option<DoorForm>) -> DeskQuery
    ensures { query_asked result ≡ shared.query_with (asked_of request) beyond }
{
    match beyond {
        None => DeskQuery::Plain(request),
        Some(DoorForm::Jobs { from }) => DeskQuery::Jobs { from },
        Some(DoorForm::Keyed { key }) => DeskQuery::Keyed {
            key,
            submit: request,
        },
        Some(DoorForm::Server { .. }) => {
            DeskQuery::Plain(PreparedRequest::AsItCame(Err(NO_REQUEST)))
        }
    }
}

/// Has a server answer, and adds what changes. A log receives each refusal of a job. Contracts see
/// the changes.
#[derive(Drop)]
pub struct ServerHandler<'a, R, C> {
    rt: &'a R,
    log: &'a ServerLog,
    changes: C,
}

impl<'a, R, C> Model for ServerHandler<'a, R, C> {
    ghost Value = { C };

    ghost view = { λ h. h.changes };
}

impl<'a, R, C: Drop> ServerHandler<'a, R, C> {
    ghost use Rattle.std.specs.Prelude.{◌≡◌};

    /// A handler that adds changes here.
    pub fn new(rt: &'a R, log: &'a ServerLog, changes: C) -> ServerHandler<'a, R, C>
        ensures { result ≡ changes }
    {
        ServerHandler { rt, log, changes }
    }
}

impl<R: Wait + Clock, N: JobRunner, C: ChangeSink> SharedHandler<Server<N>>
    for ServerHandler<'_, R, C> {
    ghost use Rattle.server_state.specs.States.{steps_of};
    ghost use Rattle.server_handler.specs.Shared.{AnswersShared};

    ghost ready = { λ _. Unit {0} };

    ghost answers = { AnswersShared (steps_of N.JobRunner) C.ChangeSink };

    fn wants_admission(&self, server: &Server<N>, passage: Passage, request: &Request) -> bool {
        server.wants_admission(access_of(passage), request)
    }

    fn answer_by(
        &mut self,
        alloc: Global,
        server: &mut Server<N>,
        passage: Passage,
        request: PreparedRequest,
        beyond: Option<DoorForm>,
    ) -> Result<PendingReply, NoMemory> {
        let access = access_of(passage);
        let named = server.own_named(alloc, access, request);
        server.collect(alloc, &mut self.changes);
        let query = query_with(named, beyond);
        let (refusal, reply) = server.answer(alloc, &mut self.changes, access, query);
        tell_answer(self.rt, self.log, refusal, None);
        reply
    }
}
