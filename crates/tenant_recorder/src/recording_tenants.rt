//! What answers the requests of tenants, each at its own desk, and records what changes each desk.

use crate::desk_answers::answer_among;
use crate::desk_credits::credit_each;
use crate::desk_restarts::restart_each;
use crate::recorders::{note_at, recorders_of};
use accounts::KeepLimits;
use desk_journal::OpenJob;
use desk_recorder::{ChangeRecorder, RecordQueue};
use refusal::NoMemory;
use server_log::{ServerLog, tell_answer};
use sessions::{DoorForm, JobKey, Request};
use shared_desk::{Passage, SharedHandler};
use std::alloc::Global;
use std::marker::Model;
use std::sync::Wait;
use std::time::Clock;
use streams::{Noted, PendingReply, PreparedRequest, Runner};
use tenant_desks::{
    KeyedHandler, PlacedRunner, TenantDesks, granted_among, noted_grant_among, refuse,
    wants_admission_among,
};

// The number of the refusal of what has no desk here.
const NO_TENANT: u8 = 74;

/// Answers each request at the desk that it goes to, by one runner of all jobs, and then has that
/// desk forget until what it keeps is within the limits. Puts the record of each change of a desk
/// into that desk's queue. Tells a log of each job that is refused, and of each grant. Contracts see
/// the runner, how many reports are kept, and the recorders.
///
/// It is for as many desks as it has queues. At others it answers nothing: 74.
#[derive(Drop)]
pub struct RecordingTenantHandler<'a, R, N, Q> {
    rt: &'a R,
    log: &'a ServerLog,
    runner: PlacedRunner<N>,
    keep: KeepLimits,
    recorders: Vec<ChangeRecorder<Q>>,
}

impl<'a, R, N, Q> Model for RecordingTenantHandler<'a, R, N, Q> {
    ghost use Rattle.tenant_recorder.specs.TenantsRecorded.{RecordedRunner};

    ghost Value = { RecordedRunner N Q };

    ghost view = { λ h. record {
      runner = h.runner.runner;
      keep = h.keep;
      recorders = h.recorders.items;
    } };
}

impl<'a, R, N: Runner + Drop, Q: RecordQueue> RecordingTenantHandler<'a, R, N, Q> {
    ghost use Rattle.std.specs.Prelude.{◌≡◌, ◌≤◌, ◌+◌, List, IfErr, IfOk, OnOk, length, map, string_bytes, Vec};
    ghost use Rattle.std.specs.List.{AllZip};
    ghost use Rattle.std.specs.declared.alloc.Global.{Global};
    ghost use Rattle.accounts.specs.Ledgers.{Ledger};
    ghost use Rattle.desk_journal.specs.declared.journaled_desk.OpenJob.{OpenJob};
    ghost use Rattle.tenant_recorder.specs.Recorders.{AreRecorded, HaveForgotten, IsNewRecorder};
    ghost use Rattle.tenant_recorder.specs.TenantCredits.{AreCredited};
    ghost use Rattle.tenant_recorder.specs.TenantRestarts.{RefusesStartOf, RestartsEach};

    /// A handler with a runner of all jobs, and with a log. The queues are those of
    /// the desks, in order. Refused where there is no memory.
    pub fn new(
        alloc: Global,
        rt: &'a R,
        log: &'a ServerLog,
        runner: N,
        keep: KeepLimits,
        queues: Vec<Q>,
    ) -> Result<RecordingTenantHandler<'a, R, N, Q>, NoMemory>
        ensures { IfOk result (λ made. (made.runner ≡ runner) × (made.keep ≡ keep)
            × AllZip IsNewRecorder queues.items made.recorders) }
    {
        let recorders = recorders_of(alloc, queues)?;
        Ok(RecordingTenantHandler {
            rt,
            log,
            runner: PlacedRunner { runner, place: 0 },
            keep,
            recorders,
        })
    }

    /// Grants each of these tenants its first credit at its own desk, unless something was granted to
    /// it before, and records that. The desk of everybody else is the first. Refused where there is no
    /// memory: then some may have theirs.
    pub fn grant_first(
        &mut self,
        alloc: Global,
        desks: &mut TenantDesks,
        tenants: &[(String, Option<u32>)],
    ) -> Result<(), NoMemory>
        requires paired { length self.old.recorders ≡ length desks.old.desks }
        requires tenants { length desks.old.desks ≡ length tenants.now + 1 }
        ensures credited { OnOk result (AreCredited
            (map (λ x. (string_bytes x.0, x.1)) tenants.now) desks.old.desks desks.new.desks) }
        ensures records { AreRecorded Q.taken Q.has_failed self.old.recorders
            self.new.recorders desks.old.desks desks.new.desks }
        ensures forgotten { HaveForgotten self.old.keep desks.old.desks
            self.old.recorders
            → HaveForgotten self.new.keep desks.new.desks self.new.recorders }
        ensures same { (self.new.runner ≡ self.old.runner) × (self.new.keep ≡ self.old.keep)
            × (desks.new.names ≡ desks.old.names) }
    {
        credit_each(alloc, &mut desks.desks, &mut self.recorders, tenants)
    }

    /// Starts the open jobs of each recovered desk again, desk after desk, each job once and in
    /// order. The first start that is refused ends that, and its number is the result. Nothing is
    /// recorded.
    pub fn restart(&mut self, alloc: Global, jobs: Vec<Vec<OpenJob>>) -> Result<(), u8>
        requires ready { N.ready self.old.runner }
        requires few { length jobs.items ≤ 257 }
        ensures ready { N.ready self.new.runner }
        ensures starts { OnOk result ((desks : List Ledger) → length desks ≡ length jobs.items
            → RestartsEach N.starts desks self.old.runner
            (map (λ (v : Vec OpenJob Global). v.items) jobs.items) desks self.new.runner) }
        ensures refused { IfErr result (λ code. (desks : List Ledger)
            → length desks ≡ length jobs.items → RefusesStartOf N.starts desks self.old.runner
            (map (λ (v : Vec OpenJob Global). v.items) jobs.items) code self.new.runner) }
        ensures same { (self.new.keep ≡ self.old.keep)
            × (self.new.recorders ≡ self.old.recorders) }
    {
        restart_each(alloc, &mut self.runner, jobs)
    }
}

impl<R: Wait + Clock, N: Runner, Q: RecordQueue> RecordingTenantHandler<'_, R, N, Q> {
    ghost use Rattle.std.specs.Prelude.{◌≡◌, ℕ, List, IfOk, None, OnErr, option_map};
    ghost use Rattle.shared_desk.specs.Answered.{query_by};
    ghost use Rattle.tenant_recorder.specs.TenantsRecorded.{keeps_recorded_key, named_answers_recorded};

    // Answers a plain request, a submit by the key that it came by.
    fn answer(
        &mut self,
        alloc: Global,
        desk: &mut TenantDesks,
        passage: Passage,
        request: PreparedRequest,
        key: Option<&JobKey>,
    ) -> Result<PendingReply, NoMemory>
        requires { N.ready self.old.runner }
        ensures ready { N.ready self.new.runner }
        ensures ok { IfOk result (λ reply. named_answers_recorded N.starts N.looks N.takes Q.taken
            Q.has_failed (desk.old, self.old) (query_by passage request None) reply
            (desk.new, self.new)) }
        ensures err { OnErr result ((reply : List ℕ) × named_answers_recorded N.starts N.looks
            N.takes Q.taken Q.has_failed (desk.old, self.old) (query_by passage request None) reply
            (desk.new, self.new)) }
        ensures kept { keeps_recorded_key Q.taken Q.has_failed (desk.old, self.old) passage.door
            (option_map (λ k. k.now) key.entry) (desk.new, self.new) }
    {
        if self.recorders.len() != desk.desks.len() {
            return refuse(alloc, NO_TENANT);
        }
        let note = noted_grant_among(alloc, self.log, desk, &request);
        let (refusal, reply) = answer_among(
            alloc,
            &desk.names,
            &mut desk.desks,
            &mut self.runner,
            &mut self.recorders,
            self.keep,
            passage,
            key,
            request,
        );
        tell_answer(self.rt, self.log, refusal, granted_among(desk, note));
        reply
    }
}

impl<R: Wait + Clock, N: Runner, Q: RecordQueue> SharedHandler<TenantDesks>
    for RecordingTenantHandler<'_, R, N, Q> {
    ghost use Rattle.tenant_recorder.specs.TenantsRecorded.{named_answers_recorded};

    ghost ready = { λ h. N.ready h.runner };

    ghost answers = { named_answers_recorded N.starts N.looks N.takes Q.taken Q.has_failed };

    fn wants_admission(&self, desk: &TenantDesks, passage: Passage, request: &Request) -> bool {
        wants_admission_among(desk, passage, request)
    }

    fn answer_by(
        &mut self,
        alloc: Global,
        desk: &mut TenantDesks,
        passage: Passage,
        request: PreparedRequest,
        beyond: Option<DoorForm>,
    ) -> Result<PendingReply, NoMemory> {
        let _ = beyond; // plain requests alone are heard here
        self.answer(alloc, desk, passage, request, None)
    }
}

impl<R: Wait + Clock, N: Runner, Q: RecordQueue> KeyedHandler
    for RecordingTenantHandler<'_, R, N, Q> {
    ghost use Rattle.tenant_recorder.specs.TenantsRecorded.{keeps_recorded_key};

    ghost keeps_key = { keeps_recorded_key Q.taken Q.has_failed };

    fn answer_keyed(
        &mut self,
        alloc: Global,
        desk: &mut TenantDesks,
        passage: Passage,
        request: PreparedRequest,
        key: Option<&JobKey>,
    ) -> Result<PendingReply, NoMemory> {
        self.answer(alloc, desk, passage, request, key)
    }
}

/// A note covers the records that the recorder of the desk at a place has put into its queue.
impl<M, R, N, Q: RecordQueue + Noted<M>> Noted<M> for RecordingTenantHandler<'_, R, N, Q> {
    ghost use Rattle.tenant_recorder.specs.Recorders.{CoversDeskAt};

    ghost covers = { λ place note h. CoversDeskAt Q.covers place note h.recorders };

    fn note(&mut self, place: usize, into: &mut M) {
        note_at(&mut self.recorders, place, into);
    }
}
