//! What answers at the desks of tenants, and records what changes each in its own journal.

use refusal::NoMemory;
use sessions::{DoorForm, JobKey, Request};
use shared_desk::{Passage, SharedHandler};
use shared_journal::{JournalNote, JournalQueue};
use std::alloc::Global;
use std::marker::Model;
use std::sync::Wait;
use std::time::Clock;
use streams::{Noted, PendingReply, PreparedRequest, Runner};
use tenant_desks::{KeyedHandler, TenantDesks, own_named};
use tenant_recorder::RecordingTenantHandler;

/// A handler whose journals are lent for as long as it is. What leaves its tenant's name out is asked by
/// the name of the door's own tenant. Contracts see the handler itself.
#[derive(Drop)]
pub(crate) struct TenantRecording<'s, 'j, R, N> {
    handler: RecordingTenantHandler<'s, R, N, JournalQueue<'s, 'j, R>>,
}

impl<'s, 'j, R, N> Model for TenantRecording<'s, 'j, R, N> {
    ghost use Rattle.shared_journal.specs.declared.journal_queue.JournalQueue.{JournalQueue};
    ghost use Rattle.tenant_recorder.specs.TenantsRecorded.{RecordedRunner};

    ghost Value = { RecordedRunner N (JournalQueue R) };

    ghost view = { λ h. h.handler };
}

impl<'s, 'j, R, N: Drop> TenantRecording<'s, 'j, R, N> {
    ghost use Rattle.std.specs.Prelude.{◌≡◌};

    /// This handler.
    pub fn of(
        handler: RecordingTenantHandler<'s, R, N, JournalQueue<'s, 'j, R>>,
    ) -> TenantRecording<'s, 'j, R, N>
        ensures { result ≡ handler.entry }
    {
        TenantRecording { handler }
    }
}

impl<R: Wait + Clock, N: Runner> SharedHandler<TenantDesks> for TenantRecording<'_, '_, R, N> {
    ghost use Rattle.tenant_recorder.specs.TenantsRecorded.{tenant_answers_recorded};
    ghost use Rattle.job_server.specs.Recorded.{queue_taken, queue_told};

    ghost ready = { λ h. N.ready h.runner };

    ghost answers = { tenant_answers_recorded N.starts N.looks N.takes queue_taken queue_told };

    fn wants_admission(&self, desk: &TenantDesks, passage: Passage, request: &Request) -> bool {
        self.handler.wants_admission(desk, passage, request)
    }

    fn answer_by(
        &mut self,
        alloc: Global,
        desk: &mut TenantDesks,
        passage: Passage,
        request: PreparedRequest,
        _beyond: Option<DoorForm>,
    ) -> Result<PendingReply, NoMemory> {
        let named = own_named(alloc, &desk.names, passage.door, request);
        self.handler.answer_by(alloc, desk, passage, named, None)
    }
}

impl<R: Wait + Clock, N: Runner> KeyedHandler for TenantRecording<'_, '_, R, N> {
    ghost use Rattle.tenant_recorder.specs.TenantsRecorded.{keeps_recorded_key};
    ghost use Rattle.job_server.specs.Recorded.{queue_taken, queue_told};

    ghost keeps_key = { keeps_recorded_key queue_taken queue_told };

    fn answer_keyed(
        &mut self,
        alloc: Global,
        desk: &mut TenantDesks,
        passage: Passage,
        request: PreparedRequest,
        key: Option<&JobKey>,
    ) -> Result<PendingReply, NoMemory> {
        let named = own_named(alloc, &desk.names, passage.door, request);
        self.handler.answer_keyed(alloc, desk, passage, named, key)
    }
}

/// A note covers the records that the recorder of the desk at a place has put into its queue.
impl<'s, 'j, R: Wait, N> Noted<JournalNote<'j>> for TenantRecording<'s, 'j, R, N> {
    ghost use Rattle.shared_journal.specs.JournalHistories.{IsNoteOf};
    ghost use Rattle.tenant_recorder.specs.Recorders.{CoversDeskAt};

    ghost covers = { λ place note h. CoversDeskAt (λ _ n q. IsNoteOf n q.seat) place note h.recorders };

    fn note(&mut self, place: usize, into: &mut JournalNote<'j>) {
        self.handler.note(place, into);
    }
}
