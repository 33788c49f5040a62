//! An owner and three thieves of one lane, each in a thread of its own and with its pass.

ghost use Rattle.std.specs.Prelude.{All};
ghost use Rattle.lanes.specs.Passes.{IsOwner, IsGuest};

use crate::stop::ScenarioFault;
use crate::tally::Tally;
use crate::tickets::Tickets;
use std::alloc::Global;
use std::marker::Model;
use std::sync::Wait;
use std::sync::atomic::{AtomicBool, Ordering};
use std::thread::{JoinHandle, Scope, Threads};
use std::{hint, thread};
use workers::{Lane, Owning, Pass, Stealing, Stolen, Thief, lane};

/// How many tickets are pushed.
const TICKETS: u32 = 50_000;

/// A thief beside its pass.
#[derive(Drop)]
struct Seated {
    thief: Thief,
    pass: Pass<Stealing>,
}

impl Model for Seated {
    ghost use Rattle.lanes.specs.Passes.{IsGuest};

    ghost Value = { Unit {0} };

    ghost view = { λ _. tt };

    ghost invariant = { λ s. IsGuest s.thief s.pass };
}

/// Steals until all was pushed and the lane is empty. The numbers of what it stole, in order.
fn steals<R: Wait>(rt: &R, alloc: Global, seated: Seated, is_over: &AtomicBool) -> Vec<u32> {
    let Seated { thief, pass } = seated;
    let mut thief = thief;
    let mut pass = pass;
    let mut seen = Vec::new(alloc);
    for _ in rt.forever() {
        let was_over = is_over.load(Ordering::SeqCst);
        match thief.steal(&mut pass) {
            Stolen::Got(ticket) => {
                let _ = seen.push(ticket.number());
            }
            Stolen::Empty => {
                if was_over {
                    break;
                }
                thread::yield_now();
            }
            Stolen::Retry => hint::spin_loop(),
        }
    }
    seen
}

/// Takes a ticket and notes its number. Whether there was one.
fn takes(lane: &mut Lane, pass: &mut Pass<Owning>, seen: &mut Vec<u32>) -> bool
    requires { IsOwner lane.old pass.old }
    ensures { IsOwner lane.new pass.new }
{
    match lane.take(pass) {
        Some(ticket) => {
            let _ = seen.push(ticket.number());
            true
        }
        None => false,
    }
}

/// Pushes a ticket, and takes one for every eighth.
fn pushes_one(
    alloc: Global,
    lane: &mut Lane,
    pass: &mut Pass<Owning>,
    tickets: &mut Tickets,
    turn: u32,
    seen: &mut Vec<u32>,
) -> Result<(), ScenarioFault>
    requires { IsOwner lane.old pass.old }
    ensures { IsOwner lane.new pass.new }
{
    let ticket = tickets.next(alloc)?;
    if lane.push(pass, ticket).is_err() {
        return Err(ScenarioFault::Differs("a push is refused"));
    }
    if turn % 8 == 0 {
        takes(lane, pass, seen);
    }
    Ok(())
}

/// Pushes all tickets, and then takes what is left. The numbers of what it took, in order.
fn pushes(
    alloc: Global,
    lane: Lane,
    pass: Pass<Owning>,
    is_over: &AtomicBool,
) -> Result<Vec<u32>, ScenarioFault>
    requires { IsOwner lane pass }
{
    let mut lane = lane;
    let mut pass = pass;
    let mut seen = Vec::new(alloc);
    let mut tickets = Tickets::open(alloc)?;
    for turn in 0..TICKETS {
        pushes_one(alloc, &mut lane, &mut pass, &mut tickets, turn, &mut seen)?;
    }
    is_over.store(true, Ordering::SeqCst);
    for _ in 0..TICKETS {
        if !takes(&mut lane, &mut pass, &mut seen) {
            break;
        }
    }
    Ok(seen)
}

/// Starts the thread of a thief, if it can be started.
fn start<'s, E: 's, R: Threads + Wait + Sync>(
    rt: &'s R,
    scope: &Scope<'s, E>,
    alloc: Global,
    seated: Seated,
    is_over: &'s AtomicBool,
) -> Option<JoinHandle<Vec<u32>>> {
    scope.spawn(move || steals(rt, alloc, seated, is_over)).ok()
}

/// Starts the thieves, and owns the lane meanwhile. Marks what each of them has taken.
fn run_all<'s, E: 's, R: Threads + Wait + Sync>(
    rt: &'s R,
    scope: &Scope<'s, E>,
    alloc: Global,
    lane: Lane,
    pass: Pass<Owning>,
    thieves: Vec<(Thief, Pass<Stealing>)>,
    is_over: &'s AtomicBool,
    tally: &Tally,
) -> Result<(), ScenarioFault>
    requires owner { IsOwner lane pass }
    requires thieves { All (λ g. IsGuest g.0 g.1) thieves.items }
{
    let mut thieves = thieves;
    let mut started = Vec::new(alloc);
    while let Some(pair) = thieves.pop() {
        let (thief, pass) = pair;
        started.push(start(rt, scope, alloc, Seated { thief, pass }, is_over))?;
    }
    let pushed = pushes(alloc, lane, pass, is_over);
    is_over.store(true, Ordering::SeqCst);
    tally.mark_rising(&pushed?);
    for thread in started {
        match thread {
            Some(thread) => tally.mark_rising(&thread.join(rt)),
            None => tally.fail(),
        }
    }
    Ok(())
}

/// Lets an owner and three thieves have the tickets. Whether each was taken once, and each of them
/// took them in the order of pushing.
fn shared_out<R: Threads + Wait + Sync>(rt: &R, alloc: Global) -> Result<bool, ScenarioFault> {
    let tally = Tally::new(alloc, 50_001)?;
    let seen = &tally;
    let over = AtomicBool::new(false);
    let is_over = &over;
    let (own, pass, thieves) = lane(alloc, 3)?;
    let pushed = thread::scope(
        thread::scope_env(),
        rt,
        |scope| -> Result<(), ScenarioFault>
            requires { IsOwner own pass × All (λ g. IsGuest g.0 g.1) thieves.items }
        { run_all(rt, scope, alloc, own, pass, thieves, is_over, seen) },
    );
    pushed?;
    Ok(tally.is_whole())
}

/// Whether an owner and three thieves, each in a thread of its own, take each ticket once and in
/// the order of pushing.
pub fn by_passes<R: Threads + Wait + Sync>(
    rt: &R,
    alloc: Global,
) -> Result<Vec<u64>, ScenarioFault> {
    let mut numbers = Vec::new(alloc);
    numbers.push(u64::from(shared_out(rt, alloc)?))?;
    Ok(numbers)
}
