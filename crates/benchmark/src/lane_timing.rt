//! What it takes to push a ticket into a lane, to take it out of there, and to steal it.

use crate::book_timing::{TICKETS, print_each, spawned};
use anyhow::bail;
use credit_book::Ticket;
use lanes::{Lanes, lanes_between};
use std::alloc::Global;
use std::io::Write;
use std::rt::Clock;
use std::time::{Duration, Instant};

/// How often each round is run.
const ROUNDS: u32 = 50;

/// The times of so many pushes, takes and steals.
#[derive(Clone, Copy)]
struct LaneTimes {
    push: Duration,
    take: Duration,
    steal: Duration,
}

/// The time in which the tickets of a new book go into a worker's lane.
fn pushed<C: Clock>(
    clock: &C,
    alloc: Global,
    lanes: &mut Lanes<Ticket>,
) -> anyhow::Result<Duration> {
    let mut tickets = Vec::new(alloc);
    let _book = spawned(alloc, &mut tickets)?;
    let start = Instant::now(clock)?;
    for ticket in tickets {
        drop(lanes.push(ticket));
    }
    Ok(start.elapsed(clock)?)
}

/// The time in which a worker finds so many tickets, in its own lane or in another's.
fn found<C: Clock>(clock: &C, lanes: &mut Lanes<Ticket>) -> anyhow::Result<Duration> {
    let start = Instant::now(clock)?;
    for _ in 0..TICKETS {
        if lanes.next().is_none() {
            bail!("a ticket is missing");
        }
    }
    Ok(start.elapsed(clock)?)
}

/// One round, in one thread.
fn timed<C: Clock>(clock: &C, alloc: Global) -> anyhow::Result<LaneTimes> {
    let mut all = lanes_between(alloc, 2)?;
    let (Some(mut thief), Some(mut owner)) = (all.pop(), all.pop()) else {
        bail!("there are no lanes");
    };
    let push = pushed(clock, alloc, &mut owner)?;
    let take = found(clock, &mut owner)?;
    pushed(clock, alloc, &mut owner)?;
    let steal = found(clock, &mut thief)?;
    Ok(LaneTimes { push, take, steal })
}

/// Prints what calls on lanes take, each the quickest of all rounds. A thief takes up to eight
/// tickets at once, so that its time is that of a steal and of takes from its own lane.
pub fn print_lane_times<C: Clock, W: Write>(
    clock: &C,
    alloc: Global,
    output: &mut W,
) -> anyhow::Result<()> {
    let mut quickest = timed(clock, alloc)?;
    for _ in 1..ROUNDS {
        let LaneTimes { push, take, steal } = timed(clock, alloc)?;
        quickest.push = quickest.push.min(push);
        quickest.take = quickest.take.min(take);
        quickest.steal = quickest.steal.min(steal);
    }
    print_each(output, "a ticket pushed", quickest.push, TICKETS)?;
    print_each(output, "a ticket taken", quickest.take, TICKETS)?;
    print_each(output, "a ticket stolen", quickest.steal, TICKETS)
}
