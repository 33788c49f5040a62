//! One answer for each form of request.

ghost use Rattle.std.specs.Prelude.{◌≡◌, ◌⊎◌, ℕ, IfOk, MatchResult, None, Ok, Result};
ghost use Rattle.credit_book.specs.declared.board.Progress.{Progress};
ghost use Rattle.accounts.specs.Ledgers.{account_at, progress_at, report_at};
ghost use Rattle.sessions.specs.Replies.{reply_data};
ghost use Rattle.sessions.specs.declared.reply.Reply.TheVariants.{Refused};
ghost use Rattle.streams.specs.Answering.{Framed, Grants, GrantsNone, IsOpenJob, Replies, Settles, StartsTaken, Submits, account_told, progress_told, report_told, submit_refused};
ghost use Rattle.streams.specs.Refusing.{IsJustTaken, SaysRefusal, TellsRefusal, TellsStart, start_refused};

use crate::admitted_submit::AdmittedSubmit;
use crate::pending_reply::PendingReply;
use crate::runner::Runner;
use crate::submit_refusal::SubmitRefusal;
use accounts::{Account, Desk, DeskFault, SubmitFault};
use job_core::{Job, ProgramBytes};
use refusal::NoMemory;
use sessions::Reply;
use std::alloc::Global;

/// A refusal that has a number alone.
pub fn refused<'a>(code: u8) -> Reply<'a>
    ensures { result ≡ Refused code None None }
{
    Reply::Refused {
        code,
        program: None,
        slot: None,
    }
}

/// What is told of an account.
pub fn account_reply<'a>(account: Result<Account, DeskFault>) -> Reply<'a>
    ensures { reply_data result ≡ account_told account }
{
    match account {
        Ok(account) => Reply::Account {
            balance: account.balance,
            granted: account.granted,
            opened: account.opened,
            spent: account.spent,
        },
        Err(fault) => refused(fault.code()),
    }
}

/// Grants, and tells the account as it is then.
pub fn answer_grant(
    alloc: Global,
    desk: &mut Desk,
    tenant: &str,
    amount: u32,
) -> Result<PendingReply, NoMemory>
    ensures { Framed result (λ told. Grants desk.old tenant.now amount told desk.new
        ⊎ GrantsNone desk.old tenant.now amount told desk.new) }
{
    let account = desk.grant(alloc, tenant, amount);
    PendingReply::of_reply(alloc, &account_reply(account))
}

/// Tells an account.
pub fn answer_account(alloc: Global, desk: &Desk, tenant: &str) -> Result<PendingReply, NoMemory>
    ensures { Framed result (λ told. told ≡ account_told (account_at desk.now tenant.now)) }
{
    PendingReply::of_reply(alloc, &account_reply(desk.account(tenant)))
}

// Starts a job that was taken. A start that is refused ends the job with its number.
fn start_job<N: Runner>(
    alloc: Global,
    desk: &mut Desk,
    runner: &mut N,
    number: u64,
    job: Job,
) -> Result<(), u8>
    requires ready { N.ready runner.old }
    requires open { IsOpenJob desk.old number }
    ensures ready { N.ready runner.new }
    ensures started { N.starts runner.old number job result runner.new
        × Settles desk.old number result desk.new }
{
    match runner.start(alloc, number, job) {
        Ok(()) => Ok(()),
        Err(code) => {
            let _ = desk.finish(number, Err(code));
            Err(code)
        }
    }
}

// Why a job that was taken doesn't run, if its start was refused.
fn refused_start(job: u64, started: Result<(), u8>) -> Option<SubmitRefusal>
    ensures { result ≡ start_refused job started }
{
    match started {
        Ok(()) => None,
        Err(code) => Some(SubmitRefusal::NotStarted { job, code }),
    }
}

/// Starts a job that was taken, and tells its number; or tells why it wasn't. Beside the reply it
/// tells why the job doesn't run.
pub fn answer_taken<N: Runner>(
    alloc: Global,
    desk: &mut Desk,
    runner: &mut N,
    taken: Result<(u64, Job), SubmitFault>,
) -> (Option<SubmitRefusal>, Result<PendingReply, NoMemory>)
    requires ready { N.ready runner.old }
    requires last { IfOk taken (λ t. IsJustTaken desk.old t.0) }
    ensures ready { N.ready runner.new }
    ensures done { Framed result.1 (λ told. MatchResult taken
        (λ t. StartsTaken N.starts desk.old runner.old t.0 t.1 told desk.new runner.new)
        (λ fault. (desk.new ≡ desk.old) × (runner.new ≡ runner.old)
        × (told ≡ submit_refused fault))) }
    ensures refusal { IfOk result.1 (λ frame. SaysRefusal desk.new result.0 frame) }
    ensures start { IfOk taken (λ t. TellsStart desk.old t.0 result.0 desk.new) }
{
    match taken {
        Ok((number, job)) => {
            let started = start_job(alloc, desk, runner, number, job);
            let reply = PendingReply::of_reply(alloc, &Reply::Submit { job: number });
            (refused_start(number, started), reply)
        }
        Err(fault) => {
            let code = fault.code();
            let refusal = Reply::Refused {
                code,
                program: fault.program(),
                slot: fault.slot(),
            };
            let reply = PendingReply::of_reply(alloc, &refusal);
            (Some(SubmitRefusal::NotTaken { code }), reply)
        }
    }
}

/// Takes a job and starts it, and tells its number. A start that is refused ends the job at once
/// with its number. Beside the reply it tells why the job doesn't run.
pub fn answer_submit<N: Runner>(
    alloc: Global,
    desk: &mut Desk,
    runner: &mut N,
    tenant: &str,
    programs: &[ProgramBytes],
    credit: u32,
    buffer: Vec<u8>,
) -> (Option<SubmitRefusal>, Result<PendingReply, NoMemory>)
    requires { N.ready runner.old }
    ensures ready { N.ready runner.new }
    ensures done { Framed result.1
        (λ told. Submits N.starts desk.old runner.old tenant.now programs.now credit
        buffer.items told desk.new runner.new) }
    ensures refusal { IfOk result.1 (λ frame. SaysRefusal desk.new result.0 frame) }
{
    let taken = desk.submit(alloc, tenant, programs, credit, buffer);
    answer_taken(alloc, desk, runner, taken)
}

/// The same of a job that was admitted or refused ahead.
pub fn answer_admitted<N: Runner>(
    alloc: Global,
    desk: &mut Desk,
    runner: &mut N,
    submit: AdmittedSubmit,
) -> (Option<SubmitRefusal>, Result<PendingReply, NoMemory>)
    requires { N.ready runner.old }
    ensures ready { N.ready runner.new }
    ensures done { Framed result.1
        (λ told. Replies N.starts N.looks desk.old runner.old (Ok submit) told desk.new runner.new) }
    ensures refusal { TellsRefusal desk.new (Ok submit) result.0 result.1 }
{
    let AdmittedSubmit {
        tenant,
        credit,
        admitted,
        ..
    } = submit;
    let taken = desk.take(alloc, &tenant, credit, admitted);
    answer_taken(alloc, desk, runner, taken)
}

/// Tells how far a job is; while it is open, what the runner's look tells.
pub fn answer_status<N: Runner>(
    alloc: Global,
    desk: &Desk,
    runner: &mut N,
    job: u64,
) -> Result<PendingReply, NoMemory>
    requires { N.ready runner.old }
    ensures ready { N.ready runner.new }
    ensures done { Framed result (λ told. (seen : Progress) × N.looks runner.old job seen runner.new
        × (told ≡ progress_told (progress_at desk.now job seen))) }
{
    let seen = runner.look(job);
    match desk.status(job, seen) {
        Ok(progress) => {
            let status = Reply::Status {
                complete: progress.complete,
                returned: progress.returned,
                spent: progress.spent,
            };
            PendingReply::of_reply(alloc, &status)
        }
        Err(fault) => PendingReply::of_reply(alloc, &refused(fault.code())),
    }
}

/// Tells what a job came to. The text of its report is written later.
pub fn answer_result(alloc: Global, desk: &mut Desk, job: u64) -> Result<PendingReply, NoMemory>
    ensures told { Framed result (λ told. told ≡ report_told (report_at desk.old job)) }
    ensures same { desk.new ≡ desk.old }
{
    match desk.shared_result(alloc, job)? {
        Ok(report) => Ok(PendingReply::of_report(report)),
        Err(fault) => PendingReply::of_reply(alloc, &refused(fault.code())),
    }
}
