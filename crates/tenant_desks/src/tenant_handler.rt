//! What answers the requests of tenants, each at its own desk.

ghost use Rattle.std.specs.Prelude.{◌≡◌, ◌≤◌, ◌<◌, ◌+◌, ℕ, IfOk, List, OnErr, length, map, option_map, string_bytes};
ghost use Rattle.streams.specs.Prepared.{asked_of};
ghost use Rattle.tenant_desks.specs.Answering.{AnswersAlone, DeskAnswer, refusal_frame};
ghost use Rattle.tenant_desks.specs.PlacedRunners.{looks_placed, starts_placed};
ghost use Rattle.tenant_desks.specs.Placing.{placed_refusal};
ghost use Rattle.tenant_desks.specs.Routing.{desk_for};

use crate::desks::TenantDesks;
use crate::ends::pass_ends;
use crate::own_names::name_behind;
use crate::placed_runner::{PlacedRunner, placed_number};
use crate::routing::{desk_for, tenant_place};
use crate::told_grants::{granted_among, noted_grant_among};
use accounts::{Desk, KeepLimits};
use refusal::NoMemory;
use server_log::{ServerLog, tell_answer};
use sessions::{DoorForm, Reply, Request};
use shared_desk::{Passage, SharedHandler};
use std::alloc::Global;
use std::marker::Model;
use std::sync::Wait;
use std::time::Clock;
use streams::{
    Noted, PendingReply, PreparedRequest, Runner, SubmitRefusal, TellingHandler, covers_credit,
};

/// Answers each request at the desk that it goes to, by one runner of all jobs, and then has that
/// desk forget until what it keeps is within the limits. Tells a log of each job that is refused,
/// and of each grant. Contracts see the runner and how many reports are kept.
#[derive(Drop)]
pub struct TenantHandler<'a, R, N> {
    rt: &'a R,
    log: &'a ServerLog,
    runner: PlacedRunner<N>,
    keep: KeepLimits,
}

impl<'a, R, N> Model for TenantHandler<'a, R, N> {
    ghost use Rattle.tenant_desks.specs.Answering.{KeptRunner};

    ghost Value = { KeptRunner N };

    ghost view = { λ h. record { runner = h.runner.runner; keep = h.keep } };
}

impl<'a, R, N: Drop> TenantHandler<'a, R, N> {
    ghost use Rattle.std.specs.Prelude.{◌≡◌};

    /// A handler with a runner of all jobs, and with a log.
    pub fn new(
        rt: &'a R,
        log: &'a ServerLog,
        runner: N,
        keep: KeepLimits,
    ) -> TenantHandler<'a, R, N>
        ensures { result ≡ record { runner = runner; keep = keep } }
    {
        TenantHandler {
            rt,
            log,
            runner: PlacedRunner { runner, place: 0 },
            keep,
        }
    }
}

/// The frame of a refusal that has a number alone.
pub fn refuse(alloc: Global, code: u8) -> Result<PendingReply, NoMemory>
    ensures { IfOk result (λ frame. frame ≡ refusal_frame code) }
{
    let refusal = Reply::Refused {
        code,
        program: None,
        slot: None,
    };
    PendingReply::of_reply(alloc, &refusal)
}

/// The same refusal, with the job's number at the runner of all jobs.
pub fn refused_at(refusal: Option<SubmitRefusal>, place: u16) -> Option<SubmitRefusal>
    ensures { result ≡ option_map (placed_refusal place) refusal }
{
    match refusal {
        Some(SubmitRefusal::NotStarted { job, code }) => Some(SubmitRefusal::NotStarted {
            job: placed_number(job, place).unwrap_or(u64::MAX),
            code,
        }),
        other => other,
    }
}

// Answers at one desk, which then forgets. Beside the reply it tells why a job doesn't run.
fn answer_at<N: Runner>(
    alloc: Global,
    desk: &mut Desk,
    runner: &mut PlacedRunner<N>,
    keep: KeepLimits,
    request: PreparedRequest,
) -> (Option<SubmitRefusal>, Result<PendingReply, NoMemory>)
    requires { N.ready runner.old.runner }
    ensures ready { N.ready runner.new.runner }
    ensures ok { IfOk result.1 (λ reply. AnswersAlone (starts_placed N.starts)
        (looks_placed N.looks) keep runner.old runner.new (asked_of request) reply desk.old
        desk.new) }
    ensures err { OnErr result.1 ((reply : List ℕ) × AnswersAlone (starts_placed N.starts)
        (looks_placed N.looks) keep runner.old runner.new (asked_of request) reply desk.old
        desk.new) }
{
    let told = runner.answer_and_tell(alloc, desk, request);
    desk.keep_within(keep);
    told
}

// Passes every finished job to its own desk, and answers at the desk that the request goes to.
fn answer_among<N: Runner>(
    alloc: Global,
    names: &[String],
    desks: &mut Vec<Desk>,
    runner: &mut PlacedRunner<N>,
    keep: KeepLimits,
    passage: Passage,
    request: PreparedRequest,
) -> (Option<SubmitRefusal>, Result<PendingReply, NoMemory>)
    requires ready { N.ready runner.old.runner }
    requires names { length names.now ≤ 256 }
    requires desks { length desks.old.items ≡ length names.now + 1 }
    ensures ready { N.ready runner.new.runner }
    ensures ok { IfOk result.1 (λ reply. DeskAnswer N.starts N.looks N.takes keep
        (desk_for (map string_bytes names.now) passage (asked_of request)) (asked_of request)
        desks.old.items runner.old.runner reply desks.new.items runner.new.runner) }
    ensures err { OnErr result.1 ((reply : List ℕ) × DeskAnswer N.starts N.looks N.takes keep
        (desk_for (map string_bytes names.now) passage (asked_of request)) (asked_of request)
        desks.old.items runner.old.runner reply desks.new.items runner.new.runner) }
    ensures count { length desks.new.items ≡ length desks.old.items }
{
    pass_ends(desks, &mut runner.runner);
    let place = match desk_for(names, passage, &request) {
        Ok(place) => place,
        Err(code) => return (None, refuse(alloc, code)),
    };
    runner.place = place as u16;
    let (refusal, reply) = answer_at(alloc, &mut desks[place], runner, keep, request);
    (refused_at(refusal, place as u16), reply)
}

/// Whether it is worth to admit the job of this request ahead of the answer, at the desk of its
/// tenant: the door's own, where it leaves the name out.
pub fn wants_admission_among(desks: &TenantDesks, passage: Passage, request: &Request) -> bool {
    match request {
        Request::Submit { tenant, credit, .. } => {
            let name = if tenant.is_empty() {
                name_behind(&desks.names, passage.door)
            } else {
                tenant.as_str()
            };
            let place = tenant_place(&desks.names, name);
            covers_credit(&desks.desks[place], name, *credit)
        }
        _ => false,
    }
}

impl<R: Wait + Clock, N: Runner> SharedHandler<TenantDesks> for TenantHandler<'_, R, N> {
    ghost use Rattle.tenant_desks.specs.Answering.{named_answers};

    ghost ready = { λ h. N.ready h.runner };

    ghost answers = { named_answers N.starts N.looks N.takes };

    fn wants_admission(&self, desk: &TenantDesks, passage: Passage, request: &Request) -> bool {
        wants_admission_among(desk, passage, request)
    }

    fn answer_by(
        &mut self,
        alloc: Global,
        desk: &mut TenantDesks,
        passage: Passage,
        request: PreparedRequest,
        _beyond: Option<DoorForm>,
    ) -> Result<PendingReply, NoMemory> {
        let note = noted_grant_among(alloc, self.log, desk, &request);
        let (refusal, reply) = answer_among(
            alloc,
            &desk.names,
            &mut desk.desks,
            &mut self.runner,
            self.keep,
            passage,
            request,
        );
        tell_answer(self.rt, self.log, refusal, granted_among(desk, note));
        reply
    }
}

/// It records nothing, so there is nothing to be noted.
impl<M, R, N> Noted<M> for TenantHandler<'_, R, N> {
    ghost covers = { λ _ _ _. Unit {0} };

    fn note(&mut self, _place: usize, _into: &mut M) {}
}
