//! A server's desks and the runner of all jobs, and what they answer.

ghost use Rattle.std.specs.Prelude.{◌≡◌, ◌≤◌, ◌+◌, ℕ, List, [], Result, false, length, map, string_bytes};
ghost use Rattle.credit_book.specs.declared.book.Report.{Report};
ghost use Rattle.server_state.specs.declared.job_id.JobId.{JobId};
ghost use Rattle.server_state.specs.Answering.{ServerAnswers, Collects};
ghost use Rattle.server_state.specs.Changing.{RecordsAll};
ghost use Rattle.server_state.specs.States.{ServerState, steps_of};
ghost use Rattle.server_handler.specs.DeskAnswers.{IsReply, query_asked};
ghost use Rattle.server_handler.specs.Serving.{BeginsOr, NotesAmong, waiting_job};

use crate::desk_jobs::DeskJobs;
use crate::desk_query::DeskQuery;
use crate::own_names::{own_name_of, own_named};
use crate::routing::{desk_for, desk_query, tenant_place};
use crate::served_desk::{DeskReply, ServedDesk, answer_query, refuse};
use accounts::KeepLimits;
use credit_book::Report;
use job_core::Job;
use server_state::{Access, ChangeSink, JobId, JobRunner};
use sessions::Request;
use std::alloc::Global;
use std::collections::VecDeque;
use std::marker::Model;
use streams::{PreparedRequest, covers_credit};

/// An open job of an earlier run that is not begun again yet.
#[derive(Drop)]
pub struct WaitingJob {
    pub id: JobId,
    pub job: Job,
}

/// The desks of a server, and the runner of all jobs.
///
/// The first desk belongs to every tenant that has none of its own; behind it stands one desk for
/// each name. The runner may be called. Contracts see the state of the server.
#[derive(Drop)]
pub struct Server<N: JobRunner> {
    names: Vec<String>,
    keep: KeepLimits,
    desks: Vec<ServedDesk>,
    waiting: VecDeque<WaitingJob>,
    runner: DeskJobs<N>,
}

impl<N: JobRunner> Model for Server<N> {
    ghost use Rattle.std.specs.Prelude.{◌≡◌, ◌≤◌, ◌+◌, length, map, string_bytes};
    ghost use Rattle.server_state.specs.States.{ServerState};
    ghost use Rattle.server_handler.specs.Serving.{waiting_job};

    ghost Value = { ServerState N };

    ghost view = { λ s. record {
      names = map string_bytes s.names.items;
      keep = s.keep;
      desks = s.desks.items;
      waiting = map waiting_job s.waiting.items;
      jobs = s.runner.jobs;
    } };

    ghost invariant = { λ s. (length s.desks.items ≡ length s.names.items + 1)
        × (length s.names.items ≤ 65535) × N.ready s.runner.jobs };
}

// Notes the end of a job at its desk, and adds that.
fn note_end<C: ChangeSink>(
    alloc: Global,
    desks: &mut Vec<ServedDesk>,
    changes: &mut C,
    id: JobId,
    outcome: Result<Report, u8>,
)
    ensures noted { NotesAmong desks.old.items id outcome desks.new.items }
    ensures records { RecordsAll C.ChangeSink changes.old changes.new desks.old.items desks.new.items }
    ensures count { length desks.new.items ≡ length desks.old.items }
{
    let place = usize::from(id.desk);
    if place >= desks.len() {
        return;
    }
    desks[place].end(alloc, changes, id, outcome);
}

// Takes each job that is over from the runner, and notes its end at its desk.
fn collect_ends<N: JobRunner, C: ChangeSink>(
    alloc: Global,
    desks: &mut Vec<ServedDesk>,
    jobs: &mut N,
    changes: &mut C,
)
    requires { N.ready jobs.old }
    ensures ready { N.ready jobs.new }
    ensures collected { (s : ServerState N) → (ends : List (JobId × Result Report ℕ))
        × Collects (steps_of N.JobRunner) (record s { desks = desks.old.items; jobs = jobs.old }) ends
        (record s { desks = desks.new.items; jobs = jobs.new }) }
    ensures records { RecordsAll C.ChangeSink changes.old changes.new desks.old.items desks.new.items }
    ensures count { length desks.new.items ≡ length desks.old.items }
{
    'jobs: loop {
        match jobs.take() {
            Some((id, outcome)) => note_end(alloc, desks, changes, id, outcome),
            None => return,
        }
    }
}

// Answers a query at the desk that it goes to.
fn answer_among<N: JobRunner, C: ChangeSink>(
    alloc: Global,
    names: &[String],
    keep: KeepLimits,
    desks: &mut Vec<ServedDesk>,
    runner: &mut DeskJobs<N>,
    changes: &mut C,
    access: Access,
    query: DeskQuery,
) -> DeskReply
    requires ready { N.ready runner.old.jobs }
    requires names { length names.now ≤ 65535 }
    requires desks { length desks.old.items ≡ length names.now + 1 }
    ensures ready { N.ready runner.new.jobs }
    ensures replies { (s : ServerState N) → s.names ≡ map string_bytes names.now → s.keep ≡ keep
        → IsReply result.1 (λ frame. ServerAnswers (steps_of N.JobRunner)
        (record s { desks = desks.old.items; jobs = runner.old.jobs }) access (query_asked query)
        frame (record s { desks = desks.new.items; jobs = runner.new.jobs })) }
    ensures records { RecordsAll C.ChangeSink changes.old changes.new desks.old.items desks.new.items }
    ensures count { length desks.new.items ≡ length desks.old.items }
{
    let place = match desk_for(names, access, &query) {
        Ok(place) => place,
        Err(code) => return refuse(alloc, code),
    };
    let query = desk_query(names, access, query);
    runner.desk = place as u16;
    answer_query(alloc, &mut desks[place], runner, changes, keep, query)
}

// Starts the first job that waits. A job that is refused waits behind the others.
fn begin_first<N: JobRunner>(
    alloc: Global,
    waiting: &mut VecDeque<WaitingJob>,
    jobs: &mut N,
) -> bool
    requires { N.ready jobs.old }
    ensures ready { N.ready jobs.new }
    ensures none { waiting.old.items ≡ [] → (waiting.new.items ≡ []) × (jobs.new ≡ jobs.old)
        × (result ≡ false) }
    ensures begun { (s : ServerState N) → (waiting.old.items ≡ [] → ⊥)
        → BeginsOr result (steps_of N.JobRunner)
        (record s { waiting = map waiting_job waiting.old.items; jobs = jobs.old })
        (record s { waiting = map waiting_job waiting.new.items; jobs = jobs.new }) }
{
    let Some(first) = waiting.pop_front() else {
        return false;
    };
    let WaitingJob { id, job } = first;
    match jobs.start(alloc, id, job) {
        Ok(()) => true,
        Err(refused) => {
            waiting.push_back_reserved(WaitingJob {
                id,
                job: refused.job,
            });
            false
        }
    }
}

impl<N: JobRunner> Server<N> {
    ghost use Rattle.std.specs.Prelude.{◌≡◌, ◌≤◌, ◌+◌, ℕ, List, [], Result, false, length, map, string_bytes};
    ghost use Rattle.credit_book.specs.declared.book.Report.{Report};
    ghost use Rattle.server_state.specs.declared.job_id.JobId.{JobId};
    ghost use Rattle.server_state.specs.Answering.{ServerAnswers, Collects};
    ghost use Rattle.server_state.specs.Changing.{RecordsAll};
    ghost use Rattle.server_state.specs.States.{steps_of};
    ghost use Rattle.server_handler.specs.DeskAnswers.{IsReply, query_asked};
    ghost use Rattle.streams.specs.Prepared.{asked_of};
    ghost use Rattle.server_handler.specs.Naming.{IsOwnNamed};
    ghost use Rattle.server_handler.specs.Serving.{BeginsOr, waiting_job};

    /// A server of these desks: first that of every tenant without one of its own, and behind it one
    /// for each of these names.
    pub fn new(
        names: Vec<String>,
        keep: KeepLimits,
        desks: Vec<ServedDesk>,
        waiting: VecDeque<WaitingJob>,
        jobs: N,
    ) -> Server<N>
        requires ready { N.ready jobs }
        requires names { length names.items ≤ 65535 }
        requires desks { length desks.items ≡ length names.items + 1 }
        ensures { result ≡ record {
          names = map string_bytes names.items;
          keep = keep;
          desks = desks.items;
          waiting = map waiting_job waiting.items;
          jobs = jobs;
        } }
    {
        Server {
            names,
            keep,
            desks,
            waiting,
            runner: DeskJobs { jobs, desk: 0 },
        }
    }

    /// Takes each job that is over from the runner, and notes its end at its desk. What changes is
    /// added.
    pub fn collect<C: ChangeSink>(&mut self, alloc: Global, changes: &mut C)
        ensures collected { (ends : List (JobId × Result Report ℕ))
            × Collects (steps_of N.JobRunner) self.old ends self.new }
        ensures records { RecordsAll C.ChangeSink changes.old changes.new self.old.desks self.new.desks }
    {
        collect_ends(alloc, &mut self.desks, &mut self.runner.jobs, changes);
    }

    /// The answer to a query of a connection with this access. What changes is added.
    pub fn answer<C: ChangeSink>(
        &mut self,
        alloc: Global,
        changes: &mut C,
        access: Access,
        query: DeskQuery,
    ) -> DeskReply
        ensures replies { IsReply result.1 (λ frame. ServerAnswers (steps_of N.JobRunner) self.old access
            (query_asked query) frame self.new) }
        ensures records { RecordsAll C.ChangeSink changes.old changes.new self.old.desks self.new.desks }
    {
        answer_among(
            alloc,
            &self.names,
            self.keep,
            &mut self.desks,
            &mut self.runner,
            changes,
            access,
            query,
        )
    }

    /// A request, by the name of the connection's own tenant where it leaves the name out. Without
    /// memory for that name it is refused by 99.
    pub fn own_named(
        &self,
        alloc: Global,
        access: Access,
        request: PreparedRequest,
    ) -> PreparedRequest
        ensures { IsOwnNamed self.now.names access (asked_of request) (asked_of result) }
    {
        own_named(alloc, &self.names, access, request)
    }

    /// Whether it is worth to admit the job of this request ahead of the answer: whether the balance
    /// of its tenant covers its credit.
    pub fn wants_admission(&self, access: Access, request: &Request) -> bool {
        match request {
            Request::Submit { tenant, credit, .. } => {
                let name = if tenant.is_empty() {
                    own_name_of(&self.names, access)
                } else {
                    tenant.as_str()
                };
                let place = tenant_place(&self.names, name);
                covers_credit(self.desks[place].ledger(), name, *credit)
            }
            _ => false,
        }
    }

    /// Starts the first job of an earlier run that waits, and returns whether it was started. A job
    /// that is refused waits behind the others.
    pub fn begin_waiting(&mut self, alloc: Global) -> bool
        ensures none { self.old.waiting ≡ [] → (self.new ≡ self.old) × (result ≡ false) }
        ensures begun { (self.old.waiting ≡ [] → ⊥)
            → BeginsOr result (steps_of N.JobRunner) self.old self.new }
    {
        begin_first(alloc, &mut self.waiting, &mut self.runner.jobs)
    }
}
