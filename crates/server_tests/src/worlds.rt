//! A job from its programs' texts to its report: played along a schedule, and step by step.

use crate::stop::{ScenarioFault, holds};
use crate::tree::{CREDIT, job, told};
use job_core::{Report, World, play};
use std::alloc::Global;

/// The root to its end, and then the child.
const SCHEDULE: [u32; 12] = [0, 0, 0, 0, 0, 0, 0, 0, 0, 1, 1, 1];

/// The job over the schedule.
pub fn played(alloc: Global) -> Result<Vec<u64>, ScenarioFault> {
    let world = play(alloc, job(alloc)?, &SCHEDULE)?;
    match world.close() {
        Ok(report) => told(alloc, &report),
        Err(_) => Err(ScenarioFault::Differs("a task is alive")),
    }
}

/// Takes the steps of the schedule, and looks at the sums, the buffer and the task's place after
/// each.
fn looks_at(alloc: Global, world: &mut World) -> Result<Vec<u64>, ScenarioFault> {
    let mut looks = Vec::new(alloc);
    for number in SCHEDULE {
        world.step(alloc, number);
        adds_up(world)?;
        looks.push(first_and_fifth(alloc, world)?)?;
        looks.push(length_of_place(alloc, world, number)?)?;
    }
    Ok(looks)
}

/// The numbers of the report, and behind them those of the looks.
fn told_with(alloc: Global, report: &Report, looks: &[u64]) -> Result<Vec<u64>, ScenarioFault> {
    let mut numbers = told(alloc, report)?;
    for look in looks {
        numbers.push(*look)?;
    }
    Ok(numbers)
}

/// The job step by step, with its sums, its buffer and the place of each task looked at between.
pub fn stepped(alloc: Global) -> Result<Vec<u64>, ScenarioFault> {
    let mut world = World::open(alloc, job(alloc)?)?;
    let looks = looks_at(alloc, &mut world)?;
    match world.close() {
        Ok(report) => told_with(alloc, &report, &looks),
        Err(_) => Err(ScenarioFault::Differs("a task is alive")),
    }
}

/// All of the credit that was issued is held, returned or spent.
fn adds_up(world: &World) -> Result<(), ScenarioFault> {
    let totals = world.totals();
    let ended = totals.returned.checked_add(totals.spent);
    let sum = match ended {
        Some(ended) => totals.held.checked_add(ended),
        None => None,
    };
    holds(sum == Some(CREDIT), "held, returned and spent don't add up")
}

/// The first byte of the buffer and the first of the child's.
fn first_and_fifth(alloc: Global, world: &World) -> Result<u64, ScenarioFault> {
    let before = world.totals();
    for _ in 0..2u8 {
        if let Ok(buffer) = world.buffer(alloc) {
            let first = buffer.get(0).copied().unwrap_or(255);
            let fifth = buffer.get(4).copied().unwrap_or(255);
            holds(buffer.len() == 8, "the buffer has another length")?;
            return Ok(u64::from(first) * 256 + u64::from(fifth));
        }
        holds(
            world.totals() == before,
            "a buffer that was refused changed the sums",
        )?;
    }
    Err(ScenarioFault::Differs("the buffer is refused twice"))
}

/// How deep in the tree the task stands.
fn length_of_place(alloc: Global, world: &World, number: u32) -> Result<u64, ScenarioFault> {
    for _ in 0..2u8 {
        match world.place(alloc, number) {
            Ok(Some(place)) => return Ok(place.len() as u64),
            Ok(None) => return Ok(99),
            Err(_) => {}
        }
    }
    Err(ScenarioFault::Differs("a place is refused twice"))
}
