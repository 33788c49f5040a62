//! The places that each endpoint of a server has at most.

ghost use Rattle.std.specs.Prelude.{◌≡◌, IfNone, IfOk, IfSome, replicate};
ghost use Rattle.endpoints.specs.Places.{HasPlaceLeft, one_fewer_at, one_more_at, shares_for};

use refusal::NoMemory;
use std::alloc::Global;
use std::marker::Model;

/// The most tenants that can have an endpoint of their own.
pub const MOST_TENANTS: usize = 256;

/// A place of an endpoint's share, which a connection has. It can't be copied or dropped: who has it
/// gives it back.
pub struct TakenPlace {
    endpoint: usize,
}

/// The connections that each endpoint of a server has now. None has more than its share of the
/// server's places, so that each always finds a place for its own. Contracts see the share, and these
/// counts.
#[derive(Drop)]
pub struct Shares {
    share: u32,
    counts: Vec<u32>,
}

impl Model for Shares {
    ghost use Rattle.std.specs.Prelude.{◌≤◌, ℕ, All, List};

    ghost Value = { ℕ × List ℕ };

    ghost view = { λ s. (s.share, s.counts.items) };

    ghost invariant = { λ s. All (λ count. count ≤ s.share) s.counts.items };
}

impl Shares {
    /// So many places for each of so many endpoints, which have no connection.
    pub fn new(alloc: Global, share: u32, endpoints: usize) -> Result<Shares, NoMemory>
        ensures { IfOk result (λ shares. shares ≡ (share, replicate endpoints 0)) }
    {
        let counts = Vec::from_elem(alloc, 0, endpoints)?;
        Ok(Shares { share, counts })
    }

    /// A place for one more connection of an endpoint, unless this has its share.
    pub fn enter(&mut self, endpoint: usize) -> Option<TakenPlace>
        ensures taken { IfSome result (λ place. (place.endpoint ≡ endpoint)
            × HasPlaceLeft self.old.0 self.old.1 endpoint
            × (self.new ≡ (self.old.0, one_more_at self.old.1 endpoint))) }
        ensures full { IfNone result ((self.new ≡ self.old)
            × (HasPlaceLeft self.old.0 self.old.1 endpoint → ⊥)) }
    {
        if endpoint >= self.counts.len() || self.counts[endpoint] >= self.share {
            return None;
        }
        self.counts[endpoint] += 1;
        Some(TakenPlace { endpoint })
    }

    /// Takes a place back.
    pub fn leave(&mut self, place: TakenPlace)
        ensures { self.new ≡ (self.old.0, one_fewer_at self.old.1 place.endpoint) }
    {
        let TakenPlace { endpoint } = place;
        if endpoint < self.counts.len() {
            self.counts[endpoint] = self.counts[endpoint].saturating_sub(1);
        }
    }
}

/// The shares of the endpoints of so many tenants, of that for all others and that for grants. There
/// are none where there are no tenants, or less than two places for each endpoint: a client that comes
/// again finds its last connection still there.
pub fn shares_of(alloc: Global, places: u32, tenants: usize) -> Result<Option<Shares>, NoMemory>
    ensures { IfOk result (λ shares. shares ≡ shares_for places tenants) }
{
    if tenants == 0 || tenants > MOST_TENANTS {
        return Ok(None);
    }
    let share = places / (tenants as u32 + 2);
    if share < 2 {
        return Ok(None);
    }
    Ok(Some(Shares::new(alloc, share, tenants + 2)?))
}
