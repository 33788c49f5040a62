//! The places that each socket of a server has at most.

ghost use Rattle.std.specs.Prelude.{◌≡◌, ◌≤◌, ◌/◌, ◌+◌, IfOk, IfSome};

use crate::socket_listener::MOST_DOORS;
use refusal::NoMemory;
use shared_desk::Door;
use std::alloc::Global;
use std::sync::atomic::{AtomicU32, Ordering};

/// The connections that each socket of a server has now. None has more than its share of the
/// server's places, so that each always finds a place for its own.
#[derive(Drop)]
pub(crate) struct Shares {
    share: u32,
    all: AtomicU32,
    grants: AtomicU32,
    tenants: Vec<AtomicU32>,
}

impl Shares {
    /// So many places for each of the sockets of these tenants, the one for all others and that for
    /// grants.
    fn new(alloc: Global, share: u32, tenants: u32) -> Result<Shares, NoMemory>
        ensures { IfOk result (λ shares. shares.share ≡ share) }
    {
        let mut counts = Vec::new(alloc);
        for _ in 0..tenants {
            counts.push(AtomicU32::new(0))?;
        }
        Ok(Shares {
            share,
            all: AtomicU32::new(0),
            grants: AtomicU32::new(0),
            tenants: counts,
        })
    }

    // The count of a socket.
    fn count(&self, door: Door) -> &AtomicU32 {
        match door {
            Door::Port => &self.all,
            Door::Socket => &self.all,
            Door::Grants => &self.grants,
            Door::Tenant(number) => match self.tenants.get(usize::from(number)) {
                Some(count) => count,
                None => &self.all,
            },
        }
    }

    /// Counts one more connection of a socket, unless it has its share. Tells whether it did.
    pub fn enter(&self, door: Door) -> bool {
        let share = self.share;
        self.count(door)
            .fetch_update(Ordering::SeqCst, Ordering::SeqCst, |count| {
                if count < share { Some(count + 1) } else { None }
            })
            .is_ok()
    }

    /// Counts one connection of a socket less.
    pub fn leave(&self, door: Door) {
        let _ = self
            .count(door)
            .fetch_update(Ordering::SeqCst, Ordering::SeqCst, |count| {
                Some(count.saturating_sub(1))
            });
    }
}

/// The shares of the sockets of so many tenants. There are none where there are no tenants, or less
/// than two places for each socket: a client that comes again finds its last connection still there.
pub(crate) fn shares_of(
    alloc: Global,
    places: u32,
    tenants: usize,
) -> Result<Option<Shares>, NoMemory>
    ensures { IfOk result (λ shares. IfSome shares (λ s. (1 ≤ tenants) × (2 ≤ s.share)
        × (s.share ≡ places / (tenants + 2)))) }
{
    if tenants == 0 || tenants > MOST_DOORS {
        return Ok(None);
    }
    let share = places / (tenants as u32 + 2);
    if share < 2 {
        return Ok(None);
    }
    Ok(Some(Shares::new(alloc, share, tenants as u32)?))
}

/// Counts one connection of a socket less, where there are shares.
pub(crate) fn leave(shares: Option<&Shares>, door: Door) {
    if let Some(shares) = shares {
        shares.leave(door);
    }
}

/// Counts one more connection of a socket, where there are shares. Tells whether it may be served.
pub(crate) fn may_enter(shares: Option<&Shares>, door: Door) -> bool {
    match shares {
        Some(shares) => shares.enter(door),
        None => true,
    }
}
