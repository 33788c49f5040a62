//! What answers submits that came by a key.

ghost use Rattle.std.specs.Prelude.{ℕ, List, IfOk, None, OnErr, Option, option_map};
ghost use Rattle.shared_desk.specs.Answered.{query_by};
ghost use Rattle.shared_desk.specs.declared.door.Door.{Door};
ghost use Rattle.tenant_desks.specs.Tenancies.{Tenancy};

use crate::desks::TenantDesks;
use refusal::NoMemory;
use sessions::JobKey;
use shared_desk::{Passage, SharedHandler};
use std::alloc::Global;
use streams::{PendingReply, PreparedRequest};

/// A handler of tenants' desks that may keep the keys of jobs beside them.
pub trait KeyedHandler: SharedHandler<TenantDesks> {
    // From desks and a handler to those behind an answer at a door: what the handler keeps beside the
    // desks has this key with the job that the door's own desk took, if it took one, and no other key.
    ghost keeps_key: { Tenancy × Self → Door → Option (List ℕ) → Tenancy × Self → Type 0 };

    /// Answers a plain request, and a submit that came by a key as it does without.
    fn answer_keyed(
        &mut self,
        alloc: Global,
        desk: &mut TenantDesks,
        passage: Passage,
        request: PreparedRequest,
        key: Option<&JobKey>,
    ) -> Result<PendingReply, NoMemory>
        requires { Self.ready self.old }
        ensures ready { Self.ready self.new }
        ensures ok { IfOk result (λ reply. Self.answers (desk.old, self.old)
            (query_by passage request None) reply (desk.new, self.new)) }
        ensures err { OnErr result ((reply : List ℕ) × Self.answers (desk.old, self.old)
            (query_by passage request None) reply (desk.new, self.new)) }
        ensures kept { keeps_key (desk.old, self.old) passage.door
            (option_map (λ k. k.now) key.entry) (desk.new, self.new) };
}
