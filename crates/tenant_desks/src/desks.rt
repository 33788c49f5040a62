//! The desks of tenants, each with its own, and the one of everybody else.

use accounts::Desk;
use std::marker::Model;

/// The names of the tenants that have a desk of their own, and the desks: first that of everybody
/// else, and behind it one for each name. Contracts see it as these two lists.
#[derive(Drop)]
pub struct TenantDesks {
    pub names: Vec<String>,
    pub desks: Vec<Desk>,
}

impl Model for TenantDesks {
    ghost use Rattle.std.specs.Prelude.{◌≡◌, ◌≤◌, ◌+◌, length, map, string_bytes};
    ghost use Rattle.tenant_desks.specs.Tenancies.{Tenancy};

    ghost Value = { Tenancy };

    ghost view = { λ t. record { names = map string_bytes t.names.items; desks = t.desks.items } };

    ghost invariant = { λ t. (length t.desks.items ≡ length t.names.items + 1)
        × (length t.names.items ≤ 256) };
}

impl TenantDesks {
    ghost use Rattle.std.specs.Prelude.{◌≡◌, ◌≤◌, ◌+◌, length, map, string_bytes};

    /// Desks that were there before: first that of everybody else, and behind it one for each of
    /// these names.
    pub fn of(names: Vec<String>, desks: Vec<Desk>) -> TenantDesks
        requires names { length names.items ≤ 256 }
        requires desks { length desks.items ≡ length names.items + 1 }
        ensures { result ≡ record { names = map string_bytes names.items; desks = desks.items } }
    {
        TenantDesks { names, desks }
    }
}
