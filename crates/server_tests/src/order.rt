//! Tickets of one book leave lanes once, in the order of pushing.

ghost use Rattle.lanes.specs.Passes.{IsOwner, IsGuest, IsSameLane, IsSameThief};

use crate::stop::ScenarioFault;
use crate::tickets::{Tickets, number_of};
use credit_book::Ticket;
use lanes::{Lanes, lanes_between};
use std::alloc::Global;
use workers::{Lane, Owning, Pass, Stealing, Stolen, Thief, lane};

/// Puts the next ticket into the lane.
fn put(
    alloc: Global,
    tickets: &mut Tickets,
    lane: &mut Lane,
    pass: &mut Pass<Owning>,
) -> Result<(), ScenarioFault>
    requires { IsOwner lane.old pass.old }
    ensures { IsOwner lane.new pass.new × IsSameLane lane.old lane.new }
{
    let ticket = tickets.next(alloc)?;
    match lane.push(pass, ticket) {
        Ok(()) => Ok(()),
        Err(_) => Err(ScenarioFault::Differs("a push is refused")),
    }
}

/// The number of what a thief is given: 0 where the lane is empty, and 99 where it has to come
/// again.
fn stolen(thief: &mut Thief, pass: &mut Pass<Stealing>) -> u64
    requires { IsGuest thief.old pass.old }
    ensures { IsGuest thief.new pass.new × IsSameThief thief.old thief.new }
{
    match thief.steal(pass) {
        Stolen::Got(ticket) => u64::from(ticket.number()),
        Stolen::Empty => 0,
        Stolen::Retry => 99,
    }
}

/// What an owner and a thief find of three tickets: the owner, the thief, the owner twice, and the
/// thief. Then how many are left of two more, once the owner has the thief's pass.
pub fn in_order(alloc: Global) -> Result<Vec<u64>, ScenarioFault> {
    let mut numbers = Vec::new(alloc);
    let mut tickets = Tickets::open(alloc)?;
    let (mut lane, mut pass, mut thieves) = lane(alloc, 1)?;
    put(alloc, &mut tickets, &mut lane, &mut pass)?;
    put(alloc, &mut tickets, &mut lane, &mut pass)?;
    put(alloc, &mut tickets, &mut lane, &mut pass)?;
    let Some((mut thief, mut seat)) = thieves.pop() else {
        return Err(ScenarioFault::Differs("there is no thief"));
    };
    let found = [
        number_of(lane.take(&mut pass)),
        stolen(&mut thief, &mut seat),
        number_of(lane.take(&mut pass)),
        number_of(lane.take(&mut pass)),
        stolen(&mut thief, &mut seat),
    ];
    numbers.extend_from_slice(&found)?;
    put(alloc, &mut tickets, &mut lane, &mut pass)?;
    put(alloc, &mut tickets, &mut lane, &mut pass)?;
    lane.gather(&mut pass, seat);
    numbers.push(lane.count(&mut pass) as u64)?;
    Ok(numbers)
}

/// How many tickets each worker has in its lane, and the places of the workers that take one, one
/// after the other.
type Turns = (&'static [u32], &'static [usize]);

/// A worker takes its own ticket, and then the next worker's.
const OWN: [Turns; 4] = [
    (&[1], &[0, 0]),
    (&[1, 1, 1], &[0, 0, 0, 0]),
    (&[1, 1, 1], &[1, 1, 1, 2]),
    (&[1, 1, 1, 1], &[3, 3, 1, 1, 1]),
];

/// A thief takes up to half of a lane, and eight tickets at most.
const HALVES: [Turns; 5] = [
    (&[1, 0], &[1, 1, 0]),
    (&[2, 0], &[1, 0, 1]),
    (&[3, 0], &[1, 0, 1, 0]),
    (&[9, 0], &[1, 0, 1, 1, 1, 1, 1]),
    (&[30, 0], &[1, 0, 1, 0, 1]),
];

/// Lanes between workers, with so many tickets in each worker's own.
fn filled(alloc: Global, counts: &[u32]) -> Result<Vec<Lanes<Ticket>>, ScenarioFault> {
    let mut tickets = Tickets::open(alloc)?;
    let workers = if counts.len() < 16 {
        counts.len() as u32
    } else {
        16
    };
    let mut all = lanes_between(alloc, workers)?;
    for (lanes, count) in all.iter_mut().zip(counts) {
        for _ in 0..*count {
            let ticket = tickets.next(alloc)?;
            if lanes.push(ticket).is_err() {
                return Err(ScenarioFault::Differs("a push is refused"));
            }
        }
    }
    Ok(all)
}

/// Adds the number of what each of these places finds, 0 where that is nothing.
fn find(alloc: Global, turns: Turns, numbers: &mut Vec<u64>) -> Result<(), ScenarioFault> {
    let (counts, places) = turns;
    let mut all = filled(alloc, counts)?;
    for place in places {
        let taken = match all.get_mut(*place) {
            Some(lanes) => lanes.next(),
            None => None,
        };
        numbers.push(number_of(taken))?;
    }
    Ok(())
}

fn found(alloc: Global, rows: &[Turns]) -> Result<Vec<u64>, ScenarioFault> {
    let mut numbers = Vec::new(alloc);
    for turns in rows {
        find(alloc, *turns, &mut numbers)?;
    }
    Ok(numbers)
}

/// What workers find that have a ticket each.
pub fn own_first(alloc: Global) -> Result<Vec<u64>, ScenarioFault> {
    found(alloc, &OWN)
}

/// What two workers find, of which the first has all tickets.
pub fn by_halves(alloc: Global) -> Result<Vec<u64>, ScenarioFault> {
    found(alloc, &HALVES)
}
