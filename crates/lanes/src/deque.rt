//! A deque of ready tickets: its owner pushes and takes, and thieves steal, first in first out.
ghost use Rattle.std.specs.Prelude.{◌≡◌, ◌≤◌};
ghost use Rattle.crossbeam_deque.specs.Handles.{worker_port, worker_flavor, worker_capacity, stealer_flavor};

use crate::moves::{Carried, Moves};
use crate::protocol::{
    Gathers, Hires, InOrder, LaneName, Names, Popped, Put, SeesTickets, Slots, Stole,
};
use crossbeam_deque::{Steal, Stealer, Worker};
use refusal::NoMemory;
use std::alloc::Global;
use std::marker::Brand;
use std::snapshot::Snapshot;

type Ready<T> = Worker<T, Global, Moves, InOrder<T>>;

type LaneStealer<T> = Stealer<T, Global, Moves, InOrder<T>>;

/// What a thief knows, without a look at the lane.
pub(crate) type Seat<T> = crossbeam_deque::Pass<T, Moves>;

/// The slots that a lane begins with.
const FIRST_ROOM: usize = 16;

/// How many tickets a thief takes at most at once: the first, and at most half of those behind it.
const MOST_AT_ONCE: usize = 8;

/// The owner's end.
#[derive(Drop)]
pub struct Lane<T: Carried> {
    ready: Ready<T>,
    ghost owner: { worker_port ready ≡ 0 },
    ghost fifo: { worker_flavor ready ≡ 0 },
    ghost room: { 16 ≤ worker_capacity ready },
}

/// A thief's end.
#[derive(Drop)]
pub struct Thief<T: Carried> {
    reach: LaneStealer<T>,
    ghost fifo: { stealer_flavor reach ≡ 0 },
}

/// What a caller has moved. The owner's is a `Pass<Owning<T>>`, and a thief's a `Pass<Stealing<T>>`.
#[derive(Drop)]
pub struct Pass<K> {
    knows: K,
}

/// What an owner's pass knows: its worker. A type that held a worker's snapshot beside a seat would
/// find no proof that it may cross to a thread.
#[derive(Drop)]
pub struct Owning<T: Carried> {
    seen: Snapshot<Ready<T>>,
}

/// What a thief's pass knows: its seat.
#[derive(Drop)]
pub struct Stealing<T: Carried> {
    seat: Seat<T>,
}

/// What a thief was given.
#[must_use]
#[derive(Drop)]
pub enum Stolen<T> {
    Got(T),
    /// The lane had no ticket.
    Empty,
    /// Another caller came first. Try again.
    Retry,
}

impl<T: Carried> Lane<T> {
    ghost use Rattle.std.specs.Prelude.{MatchResult, MatchOption, [], ◌∷◌, ◌++◌, ◌+◌, All, List, length, map, vec_len, IfOk};
    ghost use Rattle.crossbeam_deque.specs.Handles.{worker_view, worker_deque, worker_index, worker_capacity, view, stealer_deque, IsPassOf};
    ghost use Rattle.lanes.specs.Interleaving.{newcomer, new_thief, named, with_thief, with_gathered, AllAreBack, FoundNone, RefusesTicket, OwnerPut, OwnerTook, SharedOut, Stands};
    ghost use Rattle.lanes.specs.Passes.{moves, moves_of, name_of, next_place, IsOwner, IsGuestOf, IsThiefOf, IsNewThief, IsSameLane};

    /// A lane with no ticket.
    pub(crate) fn empty(alloc: Global) -> Result<Lane<T>, NoMemory>
        ensures { IfOk result (λ lane. (worker_view lane.ready ≡ newcomer) × (worker_index lane.ready ≡ 0)) }
    {
        Ok(Lane {
            ready: Ready::<T>::fifo_as(alloc, FIRST_ROOM)?,
        })
    }

    /// Gives a new lane this name: with a pass for a thief, which comes back at once.
    pub(crate) fn give_name<N: LaneName>(&mut self, _name: u32)
        requires new { worker_view self.old.ready ≡ newcomer }
        requires name { _name ≡ N.lane }
        ensures same { IsSameLane self.old self.new
            × (worker_index self.new.ready ≡ worker_index self.old.ready) }
        ensures named { worker_view self.new.ready ≡ named _name }
    {
        let seat = self.ready.another::<Names<N>>();
        self.ready.absorb::<Gathers>(seat);
    }

    /// The pass of its owner.
    pub(crate) fn owner(&self) -> Pass<Owning<T>>
        ensures { IsOwner self.now result × (moves_of result ≡ worker_view self.now.ready) }
    {
        let seen = Snapshot::of(&self.ready);
        Pass {
            knows: Owning { seen },
        }
    }

    /// A thief of this lane, and a bare seat of its own.
    pub(crate) fn way(&mut self) -> Result<(Thief<T>, Seat<T>), NoMemory>
        ensures same { IfOk result (λ _. IsSameLane self.old self.new
            × (worker_index self.new.ready ≡ worker_index self.old.ready)) }
        ensures made { IfOk result (λ g. worker_view self.new.ready ≡ with_thief (name_of self.old) (worker_view self.old.ready)) }
        ensures thief { IfOk result (λ g. IsThiefOf self.old g.0
            × IsPassOf (stealer_deque g.0.reach) g.1 × (view g.1 ≡ new_thief (name_of self.old))) }
    {
        let reach = self.ready.stealer()?;
        let seat = self.ready.another::<Hires>();
        Ok((Thief { reach }, seat))
    }

    /// A thief of this lane, and its pass.
    pub(crate) fn thief(&mut self) -> Result<(Thief<T>, Pass<Stealing<T>>), NoMemory>
        ensures same { IfOk result (λ _. IsSameLane self.old self.new
            × (worker_index self.new.ready ≡ worker_index self.old.ready)) }
        ensures made { IfOk result (λ g. worker_view self.new.ready ≡ with_thief (name_of self.old) (worker_view self.old.ready)) }
        ensures thief { IfOk result (λ g. IsNewThief self.old g.0 g.1) }
    {
        let (thief, seat) = self.way()?;
        let pass = Pass {
            knows: Stealing { seat },
        };
        Ok((thief, pass))
    }

    /// Puts a ticket at the back, or gives it back where there is no room for it.
    pub(crate) fn put(&mut self, ticket: T) -> Result<(), T>
        ensures same { IsSameLane self.old self.new }
        ensures moved { MatchResult result
            (λ _. OwnerPut T.task (worker_view self.old.ready) (ticket ∷ []) (worker_view self.new.ready))
            (λ back. (back ≡ ticket) × (worker_view self.new.ready ≡ worker_view self.old.ready)
            × RefusesTicket T.task (worker_index self.old.ready) (worker_view self.old.ready)) }
        ensures place { MatchResult result
            (λ _. worker_index self.new.ready ≡ worker_index self.old.ready + 1)
            (λ _. worker_index self.new.ready ≡ worker_index self.old.ready) }
    {
        self.put_within::<Brand>(ticket)
    }

    /// The same, where it is picked how many slots the lane has.
    fn put_within<S: Slots>(&mut self, ticket: T) -> Result<(), T>
        requires { S.slots ≡ worker_capacity self.old.ready }
        ensures same { IsSameLane self.old self.new }
        ensures moved { MatchResult result
            (λ _. OwnerPut T.task (worker_view self.old.ready) (ticket ∷ []) (worker_view self.new.ready))
            (λ back. (back ≡ ticket) × (worker_view self.new.ready ≡ worker_view self.old.ready)
            × RefusesTicket T.task (worker_index self.old.ready) (worker_view self.old.ready)) }
        ensures place { MatchResult result
            (λ _. worker_index self.new.ready ≡ worker_index self.old.ready + 1)
            (λ _. worker_index self.new.ready ≡ worker_index self.old.ready) }
    {
        self.ready.push_as::<Put<S>>(ticket)
    }

    /// The ticket at the front. `None`: there was none at one moment of the call.
    pub(crate) fn next(&mut self) -> Option<T>
        ensures same { IsSameLane self.old self.new }
        ensures moved { MatchOption result
            ((worker_view self.new.ready ≡ worker_view self.old.ready)
            × FoundNone T.task (worker_view self.old.ready))
            (λ ticket. OwnerTook T.task (worker_view self.old.ready) (ticket ∷ [])
            (worker_view self.new.ready)) }
        ensures place { worker_index self.new.ready ≤ worker_index self.old.ready }
    {
        self.ready.pop_as::<Popped>()
    }

    /// Puts a ticket at the back. The ticket comes back where there is no room for it.
    ///
    /// A ticket that was put in stands in the lane's order of pushing, of which each caller has
    /// taken its own: `each_once_in_order` says what that means.
    pub fn push(&mut self, pass: &mut Pass<Owning<T>>, ticket: T) -> Result<(), T>
        requires { IsOwner self.old pass.old }
        ensures pass { IsOwner self.new pass.new }
        ensures same { IsSameLane self.old self.new }
        ensures moved { MatchResult result
            (λ _. OwnerPut T.task (moves_of pass.old) (ticket ∷ []) (moves_of pass.new))
            (λ back. (back ≡ ticket) × (moves_of pass.new ≡ moves_of pass.old)
            × RefusesTicket T.task (next_place self.old) (moves_of pass.old)) }
        ensures place { MatchResult result (λ _. next_place self.new ≡ next_place self.old + 1)
            (λ _. next_place self.new ≡ next_place self.old) }
    {
        let pushed = self.put(ticket);
        pass.knows.seen = Snapshot::of(&self.ready);
        pushed
    }

    /// Takes the ticket at the front, which was pushed, and which no other caller takes. `None`:
    /// the lane had no ticket at one moment of the call.
    pub fn take(&mut self, pass: &mut Pass<Owning<T>>) -> Option<T>
        requires { IsOwner self.old pass.old }
        ensures pass { IsOwner self.new pass.new }
        ensures same { IsSameLane self.old self.new }
        ensures moved { MatchOption result
            ((moves_of pass.new ≡ moves_of pass.old) × FoundNone T.task (moves_of pass.old))
            (λ ticket. OwnerTook T.task (moves_of pass.old) (ticket ∷ []) (moves_of pass.new)) }
        ensures place { next_place self.new ≤ next_place self.old }
    {
        let taken = self.next();
        pass.knows.seen = Snapshot::of(&self.ready);
        taken
    }

    /// Takes in the pass of a thief, which steals no more: the owner's pass shows what it took.
    pub fn gather(&mut self, pass: &mut Pass<Owning<T>>, thief: Pass<Stealing<T>>)
        requires { IsOwner self.old pass.old × IsGuestOf self.old thief }
        ensures pass { IsOwner self.new pass.new }
        ensures same { IsSameLane self.old self.new × (next_place self.new ≡ next_place self.old) }
        ensures gathered { moves_of pass.new ≡ with_gathered (moves_of pass.old) (moves thief) }
    {
        let Pass { knows } = thief;
        let Stealing { seat } = knows;
        self.ready.absorb::<Gathers>(seat);
        pass.knows.seen = Snapshot::of(&self.ready);
    }

    /// How many tickets stand in the lane at one moment of the call.
    ///
    /// What the owner pushed is an interleaving of what each caller took, followed by these. Where
    /// all passes were taken in, the owner's shows what each caller took.
    pub fn count(&mut self, pass: &mut Pass<Owning<T>>) -> usize
        requires { IsOwner self.old pass.old }
        ensures pass { IsOwner self.new pass.new }
        ensures same { IsSameLane self.old self.new × (next_place self.new ≡ next_place self.old)
            × (moves_of pass.new ≡ moves_of pass.old) }
        ensures stands { (items : List T) × (length items ≡ result)
            × Stands T.task items (moves_of pass.old) }
        ensures all { AllAreBack (moves_of pass.old) → (items : List T) × (length items ≡ result)
            × SharedOut T.task (moves_of pass.old).pushed
            ((moves_of pass.old).taken ∷ (moves_of pass.old).gathered) items }
    {
        let count = self.ready.len_as::<SeesTickets>();
        pass.knows.seen = Snapshot::of(&self.ready);
        count
    }

    /// Takes in the passes of all thieves, and tells how many tickets still stand in the lane at one
    /// moment after that: what the owner pushed is an interleaving of what each caller took,
    /// followed by these.
    pub fn settle(&mut self, pass: &mut Pass<Owning<T>>, thieves: Vec<Pass<Stealing<T>>>) -> usize
        requires owner { IsOwner self.old pass.old }
        requires thieves { All (λ p. IsGuestOf self.old p) thieves.items }
        requires all { vec_len thieves + length (moves_of pass.old).gathered
            ≡ (moves_of pass.old).thieves }
        ensures pass { IsOwner self.new pass.new }
        ensures same { IsSameLane self.old self.new × (next_place self.new ≡ next_place self.old) }
        ensures shared { (items : List T) × (length items ≡ result)
            × SharedOut T.task (moves_of pass.old).pushed ((moves_of pass.old).taken
            ∷ map (λ p. (moves p).taken) thieves.items ++ (moves_of pass.old).gathered) items }
    {
        let mut thieves = thieves;
        while let Some(thief) = thieves.pop() {
            self.gather(pass, thief);
        }
        self.count(pass)
    }
}

impl<T: Carried> Thief<T> {
    ghost use Rattle.std.specs.Prelude.{◌⊎◌, ◌<◌, true, [], ◌∷◌};
    ghost use Rattle.crossbeam_deque.specs.Handles.{view, taken, worker_view, worker_deque, stealer_deque, IsPassOf};
    ghost use Rattle.lanes.specs.Interleaving.{StealsSome, ThiefTook, ThiefFoundNone};
    ghost use Rattle.lanes.specs.Passes.{moves, gone, CameTooLate, IsGuest, IsSameLane, IsSameThief, MatchStolen};

    /// Takes the ticket at the front of another worker's lane, which its owner has pushed, and
    /// which no other caller takes.
    pub fn steal(&mut self, pass: &mut Pass<Stealing<T>>) -> Stolen<T>
        requires { IsGuest self.old pass.old }
        ensures pass { IsGuest self.new pass.new }
        ensures same { IsSameThief self.old self.new }
        ensures moved { MatchStolen result
            ((moves pass.new ≡ moves pass.old) × ThiefFoundNone T.task (moves pass.old))
            ((moves pass.new ≡ moves pass.old)
            × CameTooLate T.task (moves pass.old) (gone pass.old) (gone pass.new))
            (λ ticket. ThiefTook T.task (moves pass.old) (ticket ∷ []) (moves pass.new)) }
    {
        self.steal_on(&mut pass.knows.seat)
    }

    /// The ticket at the front, for a bare seat.
    pub(crate) fn steal_on(&mut self, seat: &mut Seat<T>) -> Stolen<T>
        requires { IsPassOf (stealer_deque self.old.reach) seat.old × ((view seat.old).steals ≡ true) }
        ensures same { IsSameThief self.old self.new }
        ensures pass { IsPassOf (stealer_deque self.new.reach) seat.new × ((view seat.new).steals ≡ true) }
        ensures moved { MatchStolen result
            ((view seat.new ≡ view seat.old) × ThiefFoundNone T.task (view seat.old))
            ((view seat.new ≡ view seat.old)
            × CameTooLate T.task (view seat.old) (taken seat.old) (taken seat.new))
            (λ ticket. ThiefTook T.task (view seat.old) (ticket ∷ []) (view seat.new)) }
    {
        match self.reach.steal_as::<Stole>(seat) {
            Steal::Success(ticket) => Stolen::Got(ticket),
            Steal::Empty => Stolen::Empty,
            Steal::Retry => Stolen::Retry,
        }
    }

    /// The ticket at the front, for a bare seat. Some of those behind it, seven at most, go into
    /// the thief's own lane, in order.
    pub(crate) fn steal_some(&mut self, seat: &mut Seat<T>, own: &mut Lane<T>) -> Stolen<T>
        requires { IsPassOf (stealer_deque self.old.reach) seat.old × ((view seat.old).steals ≡ true) }
        ensures same { IsSameThief self.old self.new × IsSameLane own.old own.new }
        ensures pass { IsPassOf (stealer_deque self.new.reach) seat.new × ((view seat.new).steals ≡ true) }
        ensures moved { MatchStolen result
            ((view seat.new ≡ view seat.old) × (worker_view own.new.ready ≡ worker_view own.old.ready)
            × ThiefFoundNone T.task (view seat.old))
            ((view seat.new ≡ view seat.old) × (worker_view own.new.ready ≡ worker_view own.old.ready)
            × CameTooLate T.task (view seat.old) (taken seat.old) (taken seat.new))
            (λ ticket. StealsSome T.task 8 (view seat.old) (worker_view own.old.ready) ticket
            (view seat.new) (worker_view own.new.ready)) }
    {
        match self
            .reach
            .steal_batch_and_pop_as::<Global, Moves, InOrder<T>, Stole, Put<Brand>>(
                seat,
                &mut own.ready,
                MOST_AT_ONCE,
            ) {
            Steal::Success(ticket) => Stolen::Got(ticket),
            Steal::Empty => Stolen::Empty,
            Steal::Retry => Stolen::Retry,
        }
    }
}
