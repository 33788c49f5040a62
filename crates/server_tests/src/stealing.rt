//! An owner that pushes and takes, while thieves steal from it and from one another.

use crate::stop::ScenarioFault;
use crate::tally::Tally;
use crate::tickets::Tickets;
use credit_book::Ticket;
use lanes::{Lanes, lanes_between};
use std::alloc::Global;
use std::sync::Wait;
use std::thread;
use std::thread::Threads;

/// How many tickets are pushed.
const TICKETS: u32 = 100_000;

/// Marks what it finds until all was pushed and it finds nothing. It comes in the order of pushing
/// where nobody else steals: a thief may also take from another what that one has taken earlier.
fn steals<R: Wait>(rt: &R, lanes: Lanes<Ticket>, is_alone: bool, tally: &Tally) {
    let mut lanes = lanes;
    let mut last = 0;
    for _ in rt.forever() {
        let was_over = tally.is_over();
        match lanes.next() {
            Some(ticket) => {
                let number = tally.see(&ticket);
                if is_alone && number <= last {
                    tally.fail();
                }
                last = number;
            }
            None if was_over => break,
            None => thread::yield_now(),
        }
    }
}

/// Pushes all tickets, of which it takes one for every eight, and then what is left.
fn pushes(alloc: Global, lanes: Lanes<Ticket>, tally: &Tally) -> Result<(), ScenarioFault> {
    let mut lanes = lanes;
    let mut tickets = Tickets::open(alloc)?;
    for turn in 0..TICKETS {
        let ticket = tickets.next(alloc)?;
        if lanes.push(ticket).is_err() {
            return Err(ScenarioFault::Differs("a push is refused"));
        }
        if turn % 8 == 0
            && let Some(ticket) = lanes.next()
        {
            tally.see(&ticket);
        }
    }
    tally.end();
    for _ in 0..TICKETS {
        let Some(ticket) = lanes.next() else {
            break;
        };
        tally.see(&ticket);
    }
    Ok(())
}

/// Lets so many thieves, 1 to 15, and an owner have the tickets. Whether each was seen once.
fn shared_out<R: Threads + Wait + Sync>(
    rt: &R,
    alloc: Global,
    thieves: u32,
) -> Result<bool, ScenarioFault> {
    let tally = Tally::new(alloc, 100_001)?;
    let seen = &tally;
    let thieves = thieves.clamp(1, 15);
    let is_alone = thieves == 1;
    let mut all = lanes_between(alloc, thieves + 1)?;
    let Some(own) = all.pop() else {
        return Err(ScenarioFault::Differs("there are no lanes"));
    };
    let pushed = thread::scope(thread::scope_env(), rt, |scope| {
        for lanes in all {
            if scope
                .spawn(move || steals(rt, lanes, is_alone, seen))
                .is_err()
            {
                seen.fail();
            }
        }
        let pushed = pushes(alloc, own, seen);
        seen.end();
        pushed
    });
    pushed?;
    Ok(tally.is_whole())
}

/// Whether each ticket is seen once, where one thief takes and where three do.
pub fn by_lanes<R: Threads + Wait + Sync>(
    rt: &R,
    alloc: Global,
) -> Result<Vec<u64>, ScenarioFault> {
    let mut numbers = Vec::new(alloc);
    for thieves in [1, 3] {
        numbers.push(u64::from(shared_out(rt, alloc, thieves)?))?;
    }
    Ok(numbers)
}
