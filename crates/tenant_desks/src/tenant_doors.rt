//! A handler of tenants' desks behind doors that hear more than the plain protocol.

use crate::desks::TenantDesks;
use crate::door_answers::answer_form;
use crate::door_keys::DoorKeys;
use crate::keyed_handler::KeyedHandler;
use refusal::NoMemory;
use sessions::{DoorForm, Request};
use shared_desk::{Passage, SharedHandler};
use std::alloc::Global;
use std::marker::Model;
use streams::{Noted, PendingReply, PreparedRequest};

/// Answers what a door hears beyond the plain protocol, and has the handler answer all plain requests.
/// Each door remembers the keys of its last 1,000 keyed jobs: a submit by one of them is told the
/// number of that job again, and starts nothing. Contracts see the handler and these keys.
#[derive(Drop)]
pub struct TenantDoors<H> {
    handler: H,
    keys: DoorKeys,
}

impl<H> Model for TenantDoors<H> {
    ghost use Rattle.tenant_desks.specs.AtDoors.{BehindDoors};

    ghost Value = { BehindDoors H };

    ghost view = { λ d. record { handler = d.handler; keys = d.keys } };
}

impl<H: Drop> TenantDoors<H> {
    ghost use Rattle.std.specs.Prelude.{◌≡◌};

    /// The handler, behind doors that remember these keys.
    pub fn of(handler: H, keys: DoorKeys) -> TenantDoors<H>
        ensures { result ≡ record { handler = handler; keys = keys } }
    {
        TenantDoors { handler, keys }
    }
}

impl<H: KeyedHandler> SharedHandler<TenantDesks> for TenantDoors<H> {
    ghost use Rattle.tenant_desks.specs.AtDoors.{answers_at_doors};

    ghost ready = { λ d. H.ready d.handler };

    ghost answers = { answers_at_doors H.answers H.keeps_key };

    fn wants_admission(&self, desk: &TenantDesks, passage: Passage, request: &Request) -> bool {
        self.handler.wants_admission(desk, passage, request)
    }

    fn answer_by(
        &mut self,
        alloc: Global,
        desk: &mut TenantDesks,
        passage: Passage,
        request: PreparedRequest,
        beyond: Option<DoorForm>,
    ) -> Result<PendingReply, NoMemory> {
        match beyond {
            None => self
                .handler
                .answer_keyed(alloc, desk, passage, request, None),
            Some(form) => {
                let TenantDoors { handler, keys } = self;
                answer_form(alloc, handler, keys, desk, passage, request, form)
            }
        }
    }
}

/// A note covers what the handler has recorded.
impl<M, H: Noted<M>> Noted<M> for TenantDoors<H> {
    ghost covers = { λ place note d. H.covers place note d.handler };

    fn note(&mut self, place: usize, into: &mut M) {
        self.handler.note(place, into);
    }
}
