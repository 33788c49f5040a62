//! A desk and a runner behind a stream.

ghost use Rattle.std.specs.Prelude.{IfOk, List, ℕ, Ok, OnErr};
ghost use Rattle.sessions.specs.Grammar.{request_asked};
ghost use Rattle.streams.specs.Answering.{Answers, Framed, Replies};
ghost use Rattle.streams.specs.Prepared.{asked_of};
ghost use Rattle.streams.specs.Refusing.{TellsRefusal};

use crate::finished::pass_finished;
use crate::forms::{
    answer_account, answer_admitted, answer_grant, answer_result, answer_status, answer_submit,
    refused,
};
use crate::handler::{Handler, TellingHandler};
use crate::pending_reply::{PendingReply, written_frame};
use crate::prepared_request::PreparedRequest;
use crate::runner::Runner;
use crate::submit_refusal::SubmitRefusal;
use accounts::Desk;
use refusal::NoMemory;
use sessions::Request;
use std::alloc::Global;

// Carries a request out, and gives the frame of its reply, and why a job that was asked for doesn't
// run.
fn carry_out<N: Runner>(
    alloc: Global,
    desk: &mut Desk,
    runner: &mut N,
    request: Request,
) -> (Option<SubmitRefusal>, Result<PendingReply, NoMemory>)
    requires { N.ready runner.old }
    ensures ready { N.ready runner.new }
    ensures refusal { TellsRefusal desk.new (Ok (request_asked request)) result.0 result.1 }
    ensures done { Framed result.1
        (λ told. Replies N.starts N.looks desk.old runner.old
        (Ok (request_asked request)) told desk.new
        runner.new) }
{
    match request {
        Request::Grant { tenant, amount } => (None, answer_grant(alloc, desk, &tenant, amount)),
        Request::Account { tenant } => (None, answer_account(alloc, desk, &tenant)),
        Request::Submit {
            tenant,
            programs,
            credit,
            buffer,
        } => answer_submit(alloc, desk, runner, &tenant, &programs, credit, buffer),
        Request::Status { job } => (None, answer_status(alloc, desk, runner, job)),
        Request::Result { job } => (None, answer_result(alloc, desk, job)),
    }
}

// Carries a request out, or tells the number of its refusal.
fn reply_to<N: Runner>(
    alloc: Global,
    desk: &mut Desk,
    runner: &mut N,
    request: PreparedRequest,
) -> (Option<SubmitRefusal>, Result<PendingReply, NoMemory>)
    requires { N.ready runner.old }
    ensures ready { N.ready runner.new }
    ensures refusal { TellsRefusal desk.new (asked_of request) result.0 result.1 }
    ensures done { Framed result.1
        (λ told. Replies N.starts N.looks desk.old runner.old (asked_of request) told desk.new
        runner.new) }
{
    match request {
        PreparedRequest::AsItCame(Ok(request)) => carry_out(alloc, desk, runner, request),
        PreparedRequest::AsItCame(Err(code)) => (
            None,
            PendingReply::of_reply(alloc, &refused(code)),
        ),
        PreparedRequest::Submit(submit) => answer_admitted(alloc, desk, runner, submit),
    }
}

// Passes every finished job to the desk, and then answers a request.
fn answer_by_runner<N: Runner>(
    alloc: Global,
    desk: &mut Desk,
    runner: &mut N,
    request: PreparedRequest,
) -> (Option<SubmitRefusal>, Result<PendingReply, NoMemory>)
    requires { N.ready runner.old }
    ensures ready { N.ready runner.new }
    ensures refusal { TellsRefusal desk.new (asked_of request) result.0 result.1 }
    ensures ok { IfOk result.1 (λ reply. Answers N.starts N.looks N.takes desk.old runner.old
        (asked_of request) reply desk.new runner.new) }
    ensures err { OnErr result.1 ((reply : List ℕ) × Answers N.starts N.looks N.takes desk.old
        runner.old (asked_of request) reply desk.new runner.new) }
{
    pass_finished(desk, runner);
    reply_to(alloc, desk, runner, request)
}

impl<N: Runner> Handler<Desk> for N {
    ghost use Rattle.streams.specs.Answering.{Answers};

    ghost ready = { N.Runner.ready };

    ghost answers = { λ s query reply t.
        Answers N.starts N.looks N.takes s.0 s.1 query reply t.0 t.1 };

    fn answer(
        &mut self,
        alloc: Global,
        desk: &mut Desk,
        request: Result<Request, u8>,
    ) -> Result<Vec<u8>, NoMemory> {
        let reply = answer_by_runner(alloc, desk, self, PreparedRequest::AsItCame(request)).1;
        written_frame(alloc, reply)
    }
}

impl<N: Runner> TellingHandler for N {
    fn answer_and_tell(
        &mut self,
        alloc: Global,
        desk: &mut Desk,
        request: PreparedRequest,
    ) -> (Option<SubmitRefusal>, Result<PendingReply, NoMemory>) {
        answer_by_runner(alloc, desk, self, request)
    }
}
