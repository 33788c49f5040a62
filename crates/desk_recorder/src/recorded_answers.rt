//! One answer of a desk and a runner, with the records of what it changes.

ghost use Rattle.std.specs.Prelude.{◌≡◌, ◌⊎◌, ◌≤◌, ◌+◌, ℕ, List, [], IfErr, IfOk, OnErr, OnOk, Ok, false, length, option_map, unwrap_or};
ghost use Rattle.accounts.specs.Ledgers.{GrantsMore, KeepsWithin, RefusesGrant, account_at, granted_to, most_granted};
ghost use Rattle.sessions.specs.Grammar.{request_asked};
ghost use Rattle.streams.specs.Answering.{Framed, Grants, GrantsNone, Replies};
ghost use Rattle.streams.specs.Prepared.{asked_of};
ghost use Rattle.streams.specs.Refusing.{TellsRefusal};
ghost use Rattle.desk_recorder.specs.Recording.{IsRecorded, keyed_taken};
ghost use Rattle.desk_recorder.specs.RecordedAnswers.{AnswersRecorded};

use crate::change_records::{forgetting_record, grant_record};
use crate::record_queue::RecordQueue;
use crate::recorded_ends::pass_recorded;
use crate::recorded_submit::{answer_admitted_recorded, answer_submit_recorded};
use crate::recorder::ChangeRecorder;
use accounts::{Account, Desk, DeskFault, KeepLimits};
use refusal::NoMemory;
use sessions::{JobKey, Request};
use std::alloc::Global;
use streams::{
    PendingReply, PreparedRequest, Runner, SubmitRefusal, account_reply, answer_account,
    answer_result, answer_status, refused,
};

/// Grants credit as the desk does, and records that.
pub fn grant_recorded<Q: RecordQueue>(
    alloc: Global,
    desk: &mut Desk,
    recorder: &mut ChangeRecorder<Q>,
    tenant: &str,
    amount: u32,
) -> Result<Account, DeskFault>
    ensures granted { OnOk result (GrantsMore desk.old tenant.now amount desk.new) }
    ensures count { length desk.new.jobs ≡ length desk.old.jobs }
    ensures within { OnOk result (unwrap_or (granted_to desk.old tenant.now) 0 + amount
        ≤ most_granted) }
    ensures account { IfOk result (λ _. result ≡ account_at desk.new tenant.now) }
    ensures refused { IfErr result (λ e. RefusesGrant desk.old tenant.now amount e) }
    ensures unchanged { OnErr result (desk.new ≡ desk.old) }
    ensures records { IsRecorded Q.taken Q.has_failed recorder.old recorder.new desk.old desk.new [] }
{
    let record = grant_record(alloc, tenant, amount);
    match desk.grant(alloc, tenant, amount) {
        Ok(account) => {
            recorder.note(record);
            Ok(account)
        }
        Err(fault) => Err(fault),
    }
}

// Grants and records, and tells the account as it is then.
fn answer_grant_recorded<Q: RecordQueue>(
    alloc: Global,
    desk: &mut Desk,
    recorder: &mut ChangeRecorder<Q>,
    tenant: &str,
    amount: u32,
) -> Result<PendingReply, NoMemory>
    ensures done { Framed result (λ told. Grants desk.old tenant.now amount told desk.new
        ⊎ GrantsNone desk.old tenant.now amount told desk.new) }
    ensures count { length desk.new.jobs ≡ length desk.old.jobs }
    ensures records { IsRecorded Q.taken Q.has_failed recorder.old recorder.new desk.old desk.new [] }
{
    let account = grant_recorded(alloc, desk, recorder, tenant, amount);
    PendingReply::of_reply(alloc, &account_reply(account))
}

// Carries a request out and records what it changes. Gives the frame of its reply, and why a job
// that was asked for doesn't run.
fn carry_out_recorded<N: Runner, Q: RecordQueue>(
    alloc: Global,
    desk: &mut Desk,
    runner: &mut N,
    recorder: &mut ChangeRecorder<Q>,
    key: Option<&JobKey>,
    request: Request,
) -> (Option<SubmitRefusal>, Result<PendingReply, NoMemory>)
    requires { N.ready runner.old }
    ensures ready { N.ready runner.new }
    ensures refusal { TellsRefusal desk.new (Ok (request_asked request)) result.0 result.1 }
    ensures done { Framed result.1
        (λ told. Replies N.starts N.looks desk.old runner.old
        (Ok (request_asked request)) told desk.new
        runner.new) }
    ensures records { IsRecorded Q.taken Q.has_failed recorder.old recorder.new desk.old desk.new
        (keyed_taken (option_map (λ k. k.now) key.entry) desk.old desk.new) }
{
    match request {
        Request::Grant { tenant, amount } => {
            let reply = answer_grant_recorded(alloc, desk, recorder, &tenant, amount);
            (None, reply)
        }
        Request::Account { tenant } => (None, answer_account(alloc, desk, &tenant)),
        Request::Submit {
            tenant,
            programs,
            credit,
            buffer,
        } => answer_submit_recorded(
            alloc, desk, runner, recorder, key, tenant, programs, credit, buffer,
        ),
        Request::Status { job } => (None, answer_status(alloc, desk, runner, job)),
        Request::Result { job } => (None, answer_result(alloc, desk, job)),
    }
}

/// Carries a request out and records what it changes, or tells the number of its refusal. A job that
/// is taken is recorded with the key that it came by. Ends of jobs are passed by the caller.
pub fn reply_recorded<N: Runner, Q: RecordQueue>(
    alloc: Global,
    desk: &mut Desk,
    runner: &mut N,
    recorder: &mut ChangeRecorder<Q>,
    key: Option<&JobKey>,
    request: PreparedRequest,
) -> (Option<SubmitRefusal>, Result<PendingReply, NoMemory>)
    requires { N.ready runner.old }
    ensures ready { N.ready runner.new }
    ensures refusal { TellsRefusal desk.new (asked_of request) result.0 result.1 }
    ensures done { Framed result.1
        (λ told. Replies N.starts N.looks desk.old runner.old (asked_of request) told desk.new
        runner.new) }
    ensures records { IsRecorded Q.taken Q.has_failed recorder.old recorder.new desk.old desk.new
        (keyed_taken (option_map (λ k. k.now) key.entry) desk.old desk.new) }
{
    match request {
        PreparedRequest::AsItCame(Ok(request)) => {
            carry_out_recorded(alloc, desk, runner, recorder, key, request)
        }
        PreparedRequest::AsItCame(Err(code)) => {
            (None, PendingReply::of_reply(alloc, &refused(code)))
        }
        PreparedRequest::Submit(submit) => {
            answer_admitted_recorded(alloc, desk, runner, recorder, key, submit)
        }
    }
}

/// Has the desk forget until what it keeps is within the limits, and records what it forgets, if
/// anything. Does nothing where the recorder has noted no change.
pub fn keep_recorded<Q: RecordQueue>(
    alloc: Global,
    desk: &mut Desk,
    recorder: &mut ChangeRecorder<Q>,
    keep: KeepLimits,
)
    ensures kept { KeepsWithin keep desk.old desk.new
        ⊎ ((desk.new ≡ desk.old) × (recorder.old.has_changed ≡ false)) }
    ensures records { IsRecorded Q.taken Q.has_failed recorder.old recorder.new desk.old desk.new [] }
{
    if !recorder.has_changed {
        return;
    }
    let ahead = desk.keep_within(keep);
    if ahead == 0 {
        return;
    }
    recorder.note(forgetting_record(alloc, ahead));
}

/// Passes every finished job to the desk, answers a request, and then has the desk forget until
/// what it keeps is within the limits. Records each change.
pub fn answer_recorded<N: Runner, Q: RecordQueue>(
    alloc: Global,
    desk: &mut Desk,
    runner: &mut N,
    recorder: &mut ChangeRecorder<Q>,
    keep: KeepLimits,
    request: PreparedRequest,
) -> (Option<SubmitRefusal>, Result<PendingReply, NoMemory>)
    requires { N.ready runner.old }
    ensures ready { N.ready runner.new }
    ensures refusal { TellsRefusal desk.new (asked_of request) result.0 result.1 }
    ensures ok { IfOk result.1 (λ reply. AnswersRecorded N.starts N.looks N.takes Q.taken
        Q.has_failed keep desk.old runner.old recorder.old (asked_of request) reply desk.new
        runner.new recorder.new) }
    ensures err { OnErr result.1 ((reply : List ℕ) × AnswersRecorded N.starts N.looks N.takes
        Q.taken Q.has_failed keep desk.old runner.old recorder.old (asked_of request) reply
        desk.new runner.new recorder.new) }
{
    recorder.begin();
    pass_recorded(alloc, desk, runner, recorder);
    let (refusal, reply) = reply_recorded(alloc, desk, runner, recorder, None, request);
    keep_recorded(alloc, desk, recorder, keep);
    (refusal, reply)
}
