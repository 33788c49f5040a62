//! One answer of a desk and a runner, with the changes that it makes.

ghost use Rattle.std.specs.Prelude.{◌≡◌, ◌⊎◌, ◌≤◌, ◌+◌, ℕ, List, [], IfErr, IfOk, OnErr, OnOk, Ok, false, length, option_map, unwrap_or};
ghost use Rattle.accounts.specs.Ledgers.{GrantsMore, KeepsWithin, RefusesGrant, account_at, granted_to, most_granted};
ghost use Rattle.sessions.specs.Grammar.{request_asked};
ghost use Rattle.streams.specs.Answering.{Framed, Grants, GrantsNone, Replies};
ghost use Rattle.streams.specs.Prepared.{asked_of};
ghost use Rattle.streams.specs.Refusing.{TellsRefusal};
ghost use Rattle.server_state.specs.Changing.{Records};
ghost use Rattle.server_handler.specs.Recording.{keyed_taken};

use crate::made_changes::{add_made, forgotten_change, granted_change, sound_grant};
use crate::recorded_submit::{answer_admitted_recorded, answer_submit_recorded};
use accounts::{Account, Desk, DeskFault, KeepLimits};
use refusal::NoMemory;
use server_state::ChangeSink;
use sessions::{JobKey, Request};
use std::alloc::Global;
use streams::{
    PendingReply, PreparedRequest, Runner, SubmitRefusal, account_reply, answer_account,
    answer_result, answer_status, refused,
};

/// Grants credit as the desk does, and adds that.
pub fn grant_recorded<C: ChangeSink>(
    alloc: Global,
    desk: &mut Desk,
    changes: &mut C,
    place: u16,
    tenant: &str,
    amount: u32,
) -> Result<Account, DeskFault>
    ensures granted { OnOk result (GrantsMore desk.old tenant.now amount desk.new) }
    ensures count { length desk.new.jobs ≡ length desk.old.jobs }
    ensures within { OnOk result (unwrap_or (granted_to desk.old tenant.now) 0 + amount
        ≤ most_granted) }
    ensures account { IfOk result (λ _. result ≡ account_at desk.new tenant.now) }
    ensures refused { IfErr result (λ e. RefusesGrant desk.old tenant.now amount e) }
    ensures unchanged { OnErr result (desk.new ≡ desk.old) }
    ensures records { Records C.ChangeSink place changes.old changes.new desk.old desk.new [] }
{
    let before = desk.account(tenant);
    let made = granted_change(alloc, changes, place, tenant, amount);
    match desk.grant(alloc, tenant, amount) {
        Ok(account) => {
            let made = sound_grant(before, account, made);
            add_made(changes, place, made);
            Ok(account)
        }
        Err(fault) => Err(fault),
    }
}

// Grants, adds that, and tells the account as it is then.
fn answer_grant_recorded<C: ChangeSink>(
    alloc: Global,
    desk: &mut Desk,
    changes: &mut C,
    place: u16,
    tenant: &str,
    amount: u32,
) -> Result<PendingReply, NoMemory>
    ensures done { Framed result (λ told. Grants desk.old tenant.now amount told desk.new
        ⊎ GrantsNone desk.old tenant.now amount told desk.new) }
    ensures count { length desk.new.jobs ≡ length desk.old.jobs }
    ensures records { Records C.ChangeSink place changes.old changes.new desk.old desk.new [] }
{
    let account = grant_recorded(alloc, desk, changes, place, tenant, amount);
    PendingReply::of_reply(alloc, &account_reply(account))
}

// Carries a request out and adds what it changes. Gives the frame of its reply, and why a job
// that was asked for doesn't run.
fn carry_out_recorded<N: Runner, C: ChangeSink>(
    alloc: Global,
    desk: &mut Desk,
    runner: &mut N,
    changes: &mut C,
    place: u16,
    key: Option<&JobKey>,
    request: Request,
) -> (Option<SubmitRefusal>, Result<PendingReply, NoMemory>)
    requires { N.ready runner.old }
    ensures ready { N.ready runner.new }
    ensures refusal { TellsRefusal desk.new (Ok (request_asked request)) result.0 result.1 }
    ensures done { Framed result.1
        (λ told. Replies N.starts N.looks desk.old runner.old
        (Ok (request_asked request)) told desk.new
        runner.new) }
    ensures records { Records C.ChangeSink place changes.old changes.new desk.old desk.new
        (keyed_taken (option_map (λ k. k.now) key.entry) desk.old desk.new) }
{
    match request {
        Request::Grant { tenant, amount } => {
            let reply = answer_grant_recorded(alloc, desk, changes, place, &tenant, amount);
            (None, reply)
        }
        Request::Account { tenant } => (None, answer_account(alloc, desk, &tenant)),
        Request::Submit {
            tenant,
            programs,
            credit,
            buffer,
        } => answer_submit_recorded(
            alloc, desk, runner, changes, place, key, tenant, programs, credit, buffer,
        ),
        Request::Status { job } => (None, answer_status(alloc, desk, runner, job)),
        Request::Result { job } => (None, answer_result(alloc, desk, job)),
    }
}

/// Carries a request out and adds what it changes, or tells the number of its refusal. A job that
/// is taken is added with the key that it came by. Ends of jobs are passed by the caller.
pub fn reply_recorded<N: Runner, C: ChangeSink>(
    alloc: Global,
    desk: &mut Desk,
    runner: &mut N,
    changes: &mut C,
    place: u16,
    key: Option<&JobKey>,
    request: PreparedRequest,
) -> (Option<SubmitRefusal>, Result<PendingReply, NoMemory>)
    requires { N.ready runner.old }
    ensures ready { N.ready runner.new }
    ensures refusal { TellsRefusal desk.new (asked_of request) result.0 result.1 }
    ensures done { Framed result.1
        (λ told. Replies N.starts N.looks desk.old runner.old (asked_of request) told desk.new
        runner.new) }
    ensures records { Records C.ChangeSink place changes.old changes.new desk.old desk.new
        (keyed_taken (option_map (λ k. k.now) key.entry) desk.old desk.new) }
{
    match request {
        PreparedRequest::AsItCame(Ok(request)) => {
            carry_out_recorded(alloc, desk, runner, changes, place, key, request)
        }
        PreparedRequest::AsItCame(Err(code)) => {
            (None, PendingReply::of_reply(alloc, &refused(code)))
        }
        PreparedRequest::Submit(submit) => {
            answer_admitted_recorded(alloc, desk, runner, changes, place, key, submit)
        }
    }
}

/// Has the desk forget until what it keeps is within the limits, and adds what it forgets, if
/// anything.
pub fn keep_recorded<C: ChangeSink>(desk: &mut Desk, changes: &mut C, place: u16, keep: KeepLimits)
    ensures kept { KeepsWithin keep desk.old desk.new }
    ensures count { length desk.new.jobs ≡ length desk.old.jobs }
    ensures records { Records C.ChangeSink place changes.old changes.new desk.old desk.new [] }
{
    let ahead = desk.keep_within(keep);
    if ahead > 0 {
        add_made(changes, place, Some(forgotten_change(place, ahead)));
    }
}
