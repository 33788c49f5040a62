//! The way of one worker into another's lane.
ghost use Rattle.std.specs.Prelude.{◌≡◌, MatchOption, length};
ghost use Rattle.crossbeam_deque.specs.Handles.{worker_deque, worker_view};
ghost use Rattle.lanes.specs.Interleaving.{StealsSome, ThiefFoundNone};
ghost use Rattle.lanes.specs.Passes.{CameTooLate, IsSameLane, MatchStolen};
ghost use Rattle.lanes.specs.Sharing.{FirstGaveNone, GaveNone, StealsFirst};

use crate::deque::{Lane, Seat, Stolen, Thief};
use crate::moves::Carried;
use std::hint;
use std::marker::Model;

/// How often a thief tries a lane from which others take at the same time. Whenever it is too late,
/// another has taken a ticket.
const TRIES: u32 = 100;

/// A thief beside what it knows. Contracts see which lane it leads into, what it has moved there,
/// and how many tickets it knows to have left it.
#[derive(Drop)]
pub(crate) struct SeatedThief<T: Carried> {
    thief: Thief<T>,
    seat: Seat<T>,
}

impl<T: Carried> Model for SeatedThief<T> {
    ghost use Rattle.std.specs.Prelude.{◌≡◌, true};
    ghost use Rattle.crossbeam_deque.specs.Handles.{stealer_deque, IsPassOf};
    ghost use Rattle.lanes.specs.Passes.{known_moves, known_gone};
    ghost use Rattle.lanes.specs.Sharing.{InOther};

    ghost Value = { InOther };

    ghost view = { λ w. record {
      lane = record { name = (known_moves w.seat).lane; deque = (stealer_deque w.thief.reach).0 };
      moved = known_moves w.seat;
      gone = known_gone w.seat;
    } };

    ghost invariant = { λ w. IsPassOf (stealer_deque w.thief.reach) w.seat
        × ((known_moves w.seat).steals ≡ true) };
}

impl<T: Carried> SeatedThief<T> {
    ghost use Rattle.std.specs.Prelude.{true};
    ghost use Rattle.crossbeam_deque.specs.Handles.{stealer_deque, IsPassOf};
    ghost use Rattle.lanes.specs.Passes.{known_moves, known_gone};

    /// The way of a thief with a seat of its own.
    pub fn new(thief: Thief<T>, seat: Seat<T>) -> SeatedThief<T>
        requires { IsPassOf (stealer_deque thief.reach) seat × ((known_moves seat).steals ≡ true) }
        ensures { result ≡ record {
          lane = record { name = (known_moves seat).lane; deque = (stealer_deque thief.reach).0 };
          moved = known_moves seat;
          gone = known_gone seat;
        } }
    {
        SeatedThief { thief, seat }
    }

    /// Takes the ticket at the front of the lane, and moves some of those behind it into the
    /// thief's own lane, where no other caller comes first.
    fn steal(&mut self, own: &mut Lane<T>) -> Stolen<T>
        ensures same { (self.new.lane ≡ self.old.lane) × IsSameLane own.old own.new }
        ensures moved { MatchStolen result
            ((self.new.moved ≡ self.old.moved) × (worker_view own.new.ready ≡ worker_view own.old.ready)
            × ThiefFoundNone T.task self.old.moved)
            ((self.new.moved ≡ self.old.moved) × (worker_view own.new.ready ≡ worker_view own.old.ready)
            × CameTooLate T.task self.old.moved self.old.gone self.new.gone)
            (λ ticket. StealsSome T.task 8 self.old.moved (worker_view own.old.ready) ticket
            self.new.moved (worker_view own.new.ready)) }
    {
        self.thief.steal_some(&mut self.seat, own)
    }

    /// The same. Where other callers come first it tries again, as long as it doesn't look as if
    /// they always did.
    pub fn take(&mut self, own: &mut Lane<T>) -> Option<T>
        ensures same { (self.new.lane ≡ self.old.lane) × IsSameLane own.old own.new }
        ensures moved { MatchOption result
            (GaveNone T.task 100 self.old self.new
            × (worker_view own.new.ready ≡ worker_view own.old.ready))
            (λ ticket. StealsSome T.task 8 self.old.moved (worker_view own.old.ready) ticket
            self.new.moved (worker_view own.new.ready)) }
    {
        for _ in 0..TRIES {
            match self.steal(own) {
                Stolen::Got(ticket) => return Some(ticket),
                Stolen::Empty => return None,
                Stolen::Retry => hint::spin_loop(),
            }
        }
        None
    }
}

/// The ticket at the front of the first lane that gives one. Some of those behind it may come over
/// into the thief's own lane.
pub(crate) fn first_stolen<T: Carried>(
    ways: &mut Vec<SeatedThief<T>>,
    own: &mut Lane<T>,
) -> Option<T>
    ensures same { IsSameLane own.old own.new }
    ensures moved { MatchOption result
        (FirstGaveNone T.task 100 (length ways.old.items) ways.old.items ways.new.items
        × (worker_view own.new.ready ≡ worker_view own.old.ready))
        (λ ticket. StealsFirst T.task 8 100 ways.old.items (worker_view own.old.ready) ticket
        ways.new.items (worker_view own.new.ready)) }
{
    for place in 0..ways.len() {
        if let Some(ticket) = ways[place].take(own) {
            return Some(ticket);
        }
    }
    None
}
