//! A handler of tenants' desks at whose doors a tenant's name may be left out.

use crate::desks::TenantDesks;
use crate::keyed_handler::KeyedHandler;
use crate::own_names::own_named;
use refusal::NoMemory;
use sessions::{DoorForm, JobKey, Request};
use shared_desk::{Passage, SharedHandler};
use std::alloc::Global;
use std::marker::Model;
use streams::{Noted, PendingReply, PreparedRequest};

/// Puts the name of a door's own tenant into a request that leaves it out, and has the handler answer
/// that. Contracts see the handler.
#[derive(Drop)]
pub struct OwnNaming<H> {
    handler: H,
}

impl<H> Model for OwnNaming<H> {
    ghost Value = { H };

    ghost view = { λ n. n.handler };
}

impl<H: Drop> OwnNaming<H> {
    ghost use Rattle.std.specs.Prelude.{◌≡◌};

    /// The handler, behind doors at which the tenant's name may be left out.
    pub fn of(handler: H) -> OwnNaming<H>
        ensures { result ≡ handler }
    {
        OwnNaming { handler }
    }
}

impl<H: SharedHandler<TenantDesks>> SharedHandler<TenantDesks> for OwnNaming<H> {
    ghost use Rattle.tenant_desks.specs.OwnNamed.{answers_own_named};

    ghost ready = { λ n. H.ready n };

    ghost answers = { answers_own_named (λ s. s.0.names) H.answers };

    fn wants_admission(&self, desk: &TenantDesks, passage: Passage, request: &Request) -> bool {
        self.handler.wants_admission(desk, passage, request)
    }

    fn answer_by(
        &mut self,
        alloc: Global,
        desk: &mut TenantDesks,
        passage: Passage,
        request: PreparedRequest,
        _beyond: Option<DoorForm>,
    ) -> Result<PendingReply, NoMemory> {
        let named = own_named(alloc, &desk.names, passage.door, request);
        self.handler.answer_by(alloc, desk, passage, named, None)
    }
}

/// No key is kept beside the desks.
impl<H: SharedHandler<TenantDesks>> KeyedHandler for OwnNaming<H> {
    ghost use Rattle.tenant_desks.specs.AtDoors.{keeps_no_key};

    ghost keeps_key = { keeps_no_key };

    fn answer_keyed(
        &mut self,
        alloc: Global,
        desk: &mut TenantDesks,
        passage: Passage,
        request: PreparedRequest,
        _key: Option<&JobKey>,
    ) -> Result<PendingReply, NoMemory> {
        self.answer_by(alloc, desk, passage, request, None)
    }
}

/// A note covers what the handler has recorded.
impl<M, H: Noted<M>> Noted<M> for OwnNaming<H> {
    ghost covers = { λ place note n. H.covers place note n };

    fn note(&mut self, place: usize, into: &mut M) {
        self.handler.note(place, into);
    }
}
