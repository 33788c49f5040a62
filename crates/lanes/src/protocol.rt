//! The rule of a lane, and what its steps tell a caller. For the proof: no value of these types is
//! made.
ghost use Rattle.std.specs.Prelude.{ℕ};

use crate::moves::{Carried, Moves};
use crossbeam_deque::protocol::{Join, Lesson, Outcome, Protocol, Split};
use std::marker::{Brand, PhantomData};

/// Every ticket that is pushed leaves once, in the order of pushing.
pub struct InOrder<T: Carried> {
    of: PhantomData<T>,
}

impl<T: Carried> Protocol<T, Moves> for InOrder<T> {
    ghost use Rattle.lanes.specs.Interleaving.{newcomer};
    ghost use Rattle.lanes.specs.Rule.{Interleaved};

    ghost holds = { Interleaved T.task };

    ghost first = { newcomer };

    ghost guest = { newcomer };
}

/// The number of a lane's slots, which a call picks.
pub(crate) trait Slots {
    ghost slots: { ℕ };
}

impl Slots for Brand {
    ghost slots = { 0 };
}

/// What a push tells its lane's owner: also that the lane was full, where it was.
pub(crate) struct Put<S: Slots> {
    of: PhantomData<S>,
}

impl<T: Carried, S: Slots> Outcome<T, Moves> for Put<S> {
    ghost use Rattle.lanes.specs.Interleaving.{OwnerPut, HasNoFreeSlot};

    ghost then = { OwnerPut T.task };

    ghost full = { HasNoFreeSlot T.task S.slots };
}

/// What a pop tells its lane's owner: also that there was none, where there was none.
pub(crate) struct Popped;

impl<T: Carried> Outcome<T, Moves> for Popped {
    ghost use Rattle.lanes.specs.Interleaving.{OwnerTook, FoundNone};

    ghost then = { OwnerTook T.task };

    ghost empty = { FoundNone T.task };
}

/// What a steal tells its thief: also that there was none, where there was none.
pub(crate) struct Stole;

impl<T: Carried> Outcome<T, Moves> for Stole {
    ghost use Rattle.lanes.specs.Interleaving.{ThiefTook, ThiefFoundNone};

    ghost then = { ThiefTook T.task };

    ghost empty = { ThiefFoundNone T.task };
}

/// The owner makes a pass for a thief.
pub(crate) struct Hires;

impl Split<Moves> for Hires {
    ghost use Rattle.lanes.specs.Interleaving.{with_thief, new_thief};

    ghost left = { λ m. with_thief m.lane m };

    ghost right = { λ m. new_thief m.lane };
}

/// The name that a call picks for a lane.
pub(crate) trait LaneName {
    ghost lane: { ℕ };
}

impl LaneName for Brand {
    ghost lane = { 0 };
}

/// The owner gives its lane a name, and makes a pass for a thief that knows it.
pub(crate) struct Names<N: LaneName> {
    of: PhantomData<N>,
}

impl<N: LaneName> Split<Moves> for Names<N> {
    ghost use Rattle.lanes.specs.Interleaving.{with_thief, new_thief};

    ghost left = { with_thief N.lane };

    ghost right = { λ _. new_thief N.lane };
}

/// The owner takes in the pass of a thief, with which nobody steals any more.
pub(crate) struct Gathers;

impl Join<Moves> for Gathers {
    ghost use Rattle.lanes.specs.Interleaving.{newcomer, with_gathered};

    ghost both = { with_gathered };

    ghost spent = { newcomer };
}

/// What a look at the tickets tells its lane's owner.
pub(crate) struct SeesTickets;

impl<T: Carried> Lesson<T, Moves> for SeesTickets {
    ghost use Rattle.lanes.specs.Interleaving.{Stands};

    ghost fact = { λ m items. Stands T.task items m };
}
