//! One desk of a server: its accounts and jobs, and the keys that it remembers.

ghost use Rattle.std.specs.Prelude.{◌≡◌, ◌≤◌, IfOk, None, Ok, Some, option_map, length};
ghost use Rattle.sessions.specs.Grammar.{Asked};
ghost use Rattle.sessions.specs.JobKeys.{job_among};
ghost use Rattle.streams.specs.Prepared.{asked_of};
ghost use Rattle.server_state.specs.Desks.{DeskReplies, first_number, jobs_frame, refusal_frame};
ghost use Rattle.server_state.specs.Queries.{keyed, plain};
ghost use Rattle.server_state.specs.States.{steps_of};
ghost use Rattle.server_state.specs.Changing.{Records};
ghost use Rattle.server_handler.specs.DeskAnswers.{IsReply, RepliesFromLedger, RecordsAt, query_asked};
ghost use Rattle.server_handler.specs.Recording.{keyed_taken};

use crate::desk_jobs::DeskJobs;
use crate::desk_query::DeskQuery;
use crate::key_table::KeyTable;
use crate::recorded_answers::{keep_recorded, reply_recorded};
use crate::recorded_ends::end_job;
use accounts::{Desk, KeepLimits};
use credit_book::Report;
use refusal::NoMemory;
use server_state::{ChangeSink, JobId, JobRunner};
use sessions::{JobKey, KeyedJobs, Reply};
use std::alloc::Global;
use std::marker::Model;
use streams::{PendingReply, PreparedRequest, SubmitRefusal};

// The number of the refusal of what is no request.
const NO_REQUEST: u8 = 73;

/// A reply, and beside it why a job that was asked for does not run, if it does not.
pub type DeskReply = (Option<SubmitRefusal>, Result<PendingReply, NoMemory>);

/// A desk of a server. Contracts see its accounts and jobs, and its keyed jobs.
#[derive(Drop)]
pub struct ServedDesk {
    pub(crate) ledger: Desk,
    pub(crate) keys: KeyTable,
}

impl Model for ServedDesk {
    ghost use Rattle.server_state.specs.States.{DeskState};

    ghost Value = { DeskState };

    ghost view = { λ d. record { ledger = d.ledger; keys = d.keys } };
}

impl ServedDesk {
    ghost use Rattle.std.specs.Prelude.{◌≡◌, IfOk};
    ghost use Rattle.server_state.specs.Answering.{NotesEnd};
    ghost use Rattle.server_handler.specs.DeskAnswers.{RecordsAt};

    /// A desk with these keyed jobs. Refused where there is no memory for all that it remembers.
    pub fn new(ledger: Desk, keys: KeyedJobs) -> Result<ServedDesk, NoMemory>
        ensures { IfOk result (λ desk. desk ≡ record { ledger = ledger; keys = keys.jobs }) }
    {
        Ok(ServedDesk {
            ledger,
            keys: KeyTable::of(keys)?,
        })
    }

    /// Notes the end of a job, and adds that. The end of a job that is not open is passed over.
    pub(crate) fn end<C: ChangeSink>(
        &mut self,
        alloc: Global,
        changes: &mut C,
        id: JobId,
        outcome: Result<Report, u8>,
    )
        ensures noted { NotesEnd id.number outcome self.old self.new }
        ensures records { RecordsAt C.ChangeSink id.desk changes.old changes.new self.old self.new }
    {
        end_job(alloc, &mut self.ledger, changes, id, outcome);
    }

    /// Its accounts and jobs.
    pub fn ledger(&self) -> &Desk
        ensures { result.now ≡ self.now.ledger }
    {
        &self.ledger
    }
}

/// The frame of a refusal that has a number alone.
pub(crate) fn refuse(alloc: Global, code: u8) -> DeskReply
    ensures { IfOk result.1 (λ frame. frame ≡ refusal_frame code) }
{
    let refusal = Reply::Refused {
        code,
        program: None,
        slot: None,
    };
    (None, PendingReply::of_reply(alloc, &refusal))
}

// Answers a request by the ledger, which then forgets, and adds what changes.
fn answer_asked<N: JobRunner, C: ChangeSink>(
    alloc: Global,
    ledger: &mut Desk,
    runner: &mut DeskJobs<N>,
    changes: &mut C,
    keep: KeepLimits,
    key: Option<&JobKey>,
    request: PreparedRequest,
) -> DeskReply
    requires ready { N.ready runner.old.jobs }
    requires asked { (asked : Asked) × (asked_of request ≡ Ok asked) }
    ensures ready { N.ready runner.new.jobs }
    ensures place { runner.new.desk ≡ runner.old.desk }
    ensures replies { IsReply result.1 (λ frame. RepliesFromLedger (steps_of N.JobRunner) runner.old.desk
        keep ledger.old runner.old.jobs (asked_of request) frame ledger.new runner.new.jobs) }
    ensures records { Records C.ChangeSink runner.old.desk changes.old changes.new ledger.old ledger.new
        (keyed_taken (option_map (λ k. k.now) key.entry) ledger.old ledger.new) }
{
    let place = runner.desk;
    let told = reply_recorded(alloc, ledger, runner, changes, place, key, request);
    keep_recorded(ledger, changes, place, keep);
    told
}

// The same; or returns the number of a refusal.
fn answer_ledger<N: JobRunner, C: ChangeSink>(
    alloc: Global,
    ledger: &mut Desk,
    runner: &mut DeskJobs<N>,
    changes: &mut C,
    keep: KeepLimits,
    key: Option<&JobKey>,
    request: PreparedRequest,
) -> DeskReply
    requires { N.ready runner.old.jobs }
    ensures ready { N.ready runner.new.jobs }
    ensures place { runner.new.desk ≡ runner.old.desk }
    ensures replies { IsReply result.1 (λ frame. RepliesFromLedger (steps_of N.JobRunner) runner.old.desk
        keep ledger.old runner.old.jobs (asked_of request) frame ledger.new runner.new.jobs) }
    ensures records { Records C.ChangeSink runner.old.desk changes.old changes.new ledger.old ledger.new
        (keyed_taken (option_map (λ k. k.now) key.entry) ledger.old ledger.new) }
{
    match request {
        PreparedRequest::AsItCame(Err(code)) => refuse(alloc, code),
        PreparedRequest::AsItCame(Ok(request)) => {
            let asked = PreparedRequest::AsItCame(Ok(request));
            answer_asked(alloc, ledger, runner, changes, keep, key, asked)
        }
        PreparedRequest::Submit(submit) => {
            let asked = PreparedRequest::Submit(submit);
            answer_asked(alloc, ledger, runner, changes, keep, key, asked)
        }
    }
}

// Answers a request of the plain protocol.
fn answer_plain<N: JobRunner, C: ChangeSink>(
    alloc: Global,
    desk: &mut ServedDesk,
    runner: &mut DeskJobs<N>,
    changes: &mut C,
    keep: KeepLimits,
    request: PreparedRequest,
) -> DeskReply
    requires { N.ready runner.old.jobs }
    ensures ready { N.ready runner.new.jobs }
    ensures replies { IsReply result.1 (λ frame. DeskReplies (steps_of N.JobRunner) runner.old.desk keep
        desk.old runner.old.jobs (plain (asked_of request)) frame desk.new runner.new.jobs) }
    ensures records { RecordsAt C.ChangeSink runner.old.desk changes.old changes.new desk.old desk.new }
{
    answer_ledger(
        alloc,
        &mut desk.ledger,
        runner,
        changes,
        keep,
        None,
        request,
    )
}

// Answers a submit by a new key, which is remembered if the desk takes a job.
fn answer_new_key<N: JobRunner, C: ChangeSink>(
    alloc: Global,
    desk: &mut ServedDesk,
    runner: &mut DeskJobs<N>,
    changes: &mut C,
    keep: KeepLimits,
    key: JobKey,
    submit: PreparedRequest,
) -> DeskReply
    requires ready { N.ready runner.old.jobs }
    requires unknown { job_among desk.old.keys key ≡ None }
    ensures ready { N.ready runner.new.jobs }
    ensures replies { IsReply result.1 (λ frame. DeskReplies (steps_of N.JobRunner) runner.old.desk keep
        desk.old runner.old.jobs (keyed (Some key) (asked_of submit)) frame desk.new
        runner.new.jobs) }
    ensures records { RecordsAt C.ChangeSink runner.old.desk changes.old changes.new desk.old desk.new }
{
    let before = desk.ledger.job_count();
    let told = answer_ledger(
        alloc,
        &mut desk.ledger,
        runner,
        changes,
        keep,
        Some(&key),
        submit,
    );
    let after = desk.ledger.job_count();
    if before < after {
        desk.keys.note(after, key);
    }
    told
}

// Answers a submit by a key. A key that is remembered returns its job once more.
fn answer_keyed<N: JobRunner, C: ChangeSink>(
    alloc: Global,
    desk: &mut ServedDesk,
    runner: &mut DeskJobs<N>,
    changes: &mut C,
    keep: KeepLimits,
    key: JobKey,
    submit: PreparedRequest,
) -> DeskReply
    requires { N.ready runner.old.jobs }
    ensures ready { N.ready runner.new.jobs }
    ensures replies { IsReply result.1 (λ frame. DeskReplies (steps_of N.JobRunner) runner.old.desk keep
        desk.old runner.old.jobs (keyed (Some key) (asked_of submit)) frame desk.new
        runner.new.jobs) }
    ensures records { RecordsAt C.ChangeSink runner.old.desk changes.old changes.new desk.old desk.new }
{
    match desk.keys.job_of(&key) {
        Some(job) => (None, PendingReply::of_reply(alloc, &Reply::Submit { job })),
        None => answer_new_key(alloc, desk, runner, changes, keep, key, submit),
    }
}

// The first number that there is from here on.
fn first_listed(from: u64) -> u64
    ensures number { result ≡ first_number from }
    ensures some { 1 ≤ result }
{
    if from == 0 { 1 } else { from }
}

// The jobs of a desk from a number on.
#[tactic(auto, unfolding(server_state::specs::Desks::jobs_frame, sessions::specs::Replies::frame_of))]
fn list_jobs(alloc: Global, desk: &ServedDesk, from: u64) -> Result<PendingReply, NoMemory>
    ensures { IfOk result (λ frame. frame ≡ jobs_frame desk.now from) }
{
    let jobs = desk.ledger.listing(alloc, first_listed(from))?;
    let told = Reply::Jobs {
        count: desk.ledger.job_count(),
        jobs: &jobs,
        keys: desk.keys.as_slice(),
    };
    PendingReply::of_reply(alloc, &told)
}

/// The answer of a desk to a query, as if there were no other desk. What changes is added.
pub(crate) fn answer_query<N: JobRunner, C: ChangeSink>(
    alloc: Global,
    desk: &mut ServedDesk,
    runner: &mut DeskJobs<N>,
    changes: &mut C,
    keep: KeepLimits,
    query: DeskQuery,
) -> DeskReply
    requires { N.ready runner.old.jobs }
    ensures ready { N.ready runner.new.jobs }
    ensures replies { IsReply result.1 (λ frame. DeskReplies (steps_of N.JobRunner) runner.old.desk keep
        desk.old runner.old.jobs (query_asked query) frame desk.new runner.new.jobs) }
    ensures records { RecordsAt C.ChangeSink runner.old.desk changes.old changes.new desk.old desk.new }
{
    match query {
        DeskQuery::Plain(request) => answer_plain(alloc, desk, runner, changes, keep, request),
        DeskQuery::Keyed { key, submit } => match key {
            Some(key) => answer_keyed(alloc, desk, runner, changes, keep, key, submit),
            None => refuse(alloc, NO_REQUEST),
        },
        DeskQuery::Jobs { from } => (None, list_jobs(alloc, desk, from)),
    }
}
