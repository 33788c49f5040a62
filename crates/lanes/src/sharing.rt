//! The lanes of workers that steal from one another.
ghost use Rattle.std.specs.Prelude.{◌≡◌, ◌+◌, ◌<◌, ◌≤◌, [], ◌∷◌, All, IfOk, MatchResult, MatchOption, length, vec_len};
ghost use Rattle.lanes.specs.Interleaving.{new_thief, with_thief, RefusesTicket};
ghost use Rattle.lanes.specs.Sharing.{AreApart, AreNew, AreNewTo, IsAlone, IsIdle, IsTaken, IsUnused, LeadRound, Puts, lanes_of};

use crate::deque::Lane;
use crate::moves::Carried;
use crate::seated_thief::{SeatedThief, first_stolen};
use refusal::NoMemory;
use std::alloc::Global;
use std::marker::{Brand, Model};

/// What one of several workers has of their lanes: the owner's end of its own, and a way into each
/// other one. Contracts see which lane each is, and what it has moved in it.
#[derive(Drop)]
pub struct Lanes<T: Carried> {
    own: Lane<T>,
    ways: Vec<SeatedThief<T>>,
}

impl<T: Carried> Model for Lanes<T> {
    ghost use Rattle.crossbeam_deque.specs.Handles.{worker_deque, worker_index, worker_view};
    ghost use Rattle.lanes.specs.Sharing.{Moved};

    ghost Value = { Moved };

    ghost view = { λ l. record {
      own = record {
        lane = record {
          name = (worker_view l.own.ready).lane;
          deque = (worker_deque l.own.ready).0;
        };
        moved = worker_view l.own.ready;
        next = worker_index l.own.ready;
      };
      others = l.ways.items;
    } };
}

impl<T: Carried> Lanes<T> {
    /// A lane of this name with no ticket, and no way into another.
    fn alone(alloc: Global, name: u32) -> Result<Lanes<T>, NoMemory>
        ensures { IfOk result (λ m. IsAlone m × (m.own.lane.name ≡ name)) }
    {
        let mut own = Lane::empty(alloc)?;
        if name > 0 {
            own.give_name::<Brand>(name);
        }
        Ok(Lanes {
            own,
            ways: Vec::new(alloc),
        })
    }

    /// A way into its own lane, for another worker.
    fn way(&mut self) -> Result<SeatedThief<T>, NoMemory>
        ensures made { IfOk result (λ _. self.new ≡ record {
          own = record {
            lane = self.old.own.lane;
            moved = with_thief self.old.own.lane.name self.old.own.moved;
            next = self.old.own.next;
          };
          others = self.old.others;
        }) }
        ensures way { IfOk result (λ way. (way.lane ≡ self.old.own.lane)
            × (way.moved ≡ new_thief self.old.own.lane.name)) }
    {
        let (thief, seat) = self.own.way()?;
        Ok(SeatedThief::new(thief, seat))
    }

    /// Gives it these ways.
    fn meet(&mut self, ways: Vec<SeatedThief<T>>)
        ensures { self.new ≡ record { own = self.old.own; others = ways.items } }
    {
        self.ways = ways;
    }

    /// Puts a ticket at the back of the worker's own lane. The ticket comes back where there is no
    /// room for it.
    pub fn push(&mut self, ticket: T) -> Result<(), T>
        ensures { MatchResult result (λ _. Puts T.task self.old (ticket ∷ []) self.new)
            (λ back. (back ≡ ticket) × (self.new ≡ self.old)
            × RefusesTicket T.task self.old.own.next self.old.own.moved) }
    {
        self.own.put(ticket)
    }

    /// The ticket at the front of its own lane, or, where that has none, at the front of the first
    /// other one that gives one. Then some of those behind it may come over into its own lane, so
    /// that a thief needn't come back for each. Nothing else is moved.
    pub fn next(&mut self) -> Option<T>
        ensures { MatchOption result (IsIdle T.task self.old self.new)
            (λ ticket. IsTaken T.task self.old ticket self.new) }
    {
        if let Some(ticket) = self.own.next() {
            return Some(ticket);
        }
        first_stolen(&mut self.ways, &mut self.own)
    }
}

/// The ways of the worker at this place into the others' lanes, the next worker's first.
fn ways_of<T: Carried>(
    alloc: Global,
    all: &mut Vec<Lanes<T>>,
    place: usize,
) -> Result<Vec<SeatedThief<T>>, NoMemory>
    requires within { place < length all.old.items }
    requires unused { All (λ m. IsUnused m.own) all.old.items }
    requires made { AreNewTo place all.old.items }
    ensures lanes { IfOk result (λ _. lanes_of all.new.items ≡ lanes_of all.old.items) }
    ensures unused { IfOk result (λ _. All (λ m. IsUnused m.own) all.new.items) }
    ensures made { IfOk result (λ _. AreNewTo place all.new.items) }
    ensures count { IfOk result (λ ways. vec_len ways + 1 ≡ length all.old.items) }
    ensures new { IfOk result (λ ways. All (λ way. way.moved ≡ new_thief way.lane.name) ways.items) }
    ensures leads { IfOk result (λ ways. LeadRound (lanes_of all.old.items) place ways.items) }
{
    let mut ways = Vec::with_capacity(alloc, all.len())?;
    for step in 1..all.len() {
        let other = (place + step) % all.len();
        ways.push_reserved(all[other].way()?);
    }
    Ok(ways)
}

/// The lanes of so many workers, 16 at most, each of which has a lane of its own and a way into
/// each other one, the next worker's first.
pub fn lanes_between<T: Carried>(alloc: Global, workers: u32) -> Result<Vec<Lanes<T>>, NoMemory>
    requires { workers ≤ 16 }
    ensures count { IfOk result (λ all. vec_len all ≡ workers) }
    ensures new { IfOk result (λ all. AreNew all.items) }
    ensures apart { IfOk result (λ all. AreApart (lanes_of all.items)) }
{
    let mut all = Vec::with_capacity(alloc, workers as usize)?;
    for name in 0..workers {
        all.push_reserved(Lanes::alone(alloc, name)?);
    }
    for place in 0..all.len() {
        let ways = ways_of(alloc, &mut all, place)?;
        all[place].meet(ways);
    }
    Ok(all)
}
