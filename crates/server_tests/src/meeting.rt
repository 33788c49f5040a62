//! A gate at which two tasks meet, if they run at once: two workers run two tasks at once, and one
//! worker doesn't.

use crate::opened::Opened;
use crate::stop::ScenarioFault;
use crate::tree::{admitted, assembled};
use std::alloc::Global;
use std::hint;
use std::sync::Wait;
use std::sync::atomic::{AtomicBool, Ordering};
use std::thread::Threads;
use workers::Gate;

/// Whether tasks 1 and 2 came, and whether each saw that the other had come.
#[derive(Drop)]
pub struct Meeting {
    first_came: AtomicBool,
    second_came: AtomicBool,
    first_saw: AtomicBool,
    second_saw: AtomicBool,
}

/// Says that a task came, and looks for the other one for 10,000,000 turns at most. A task that
/// hasn't seen it isn't there any longer.
fn meet(own: &AtomicBool, other: &AtomicBool, saw: &AtomicBool) {
    own.store(true, Ordering::SeqCst);
    for _ in 0..10_000_000u32 {
        if other.load(Ordering::SeqCst) {
            saw.store(true, Ordering::SeqCst);
            return;
        }
        hint::spin_loop();
    }
    own.store(false, Ordering::SeqCst);
}

impl Meeting {
    /// Nobody came yet.
    pub fn new() -> Meeting {
        Meeting {
            first_came: AtomicBool::new(false),
            second_came: AtomicBool::new(false),
            first_saw: AtomicBool::new(false),
            second_saw: AtomicBool::new(false),
        }
    }

    /// Whether task 1 saw task 2, and task 2 task 1.
    pub fn saw(&self) -> (bool, bool) {
        (
            self.first_saw.load(Ordering::SeqCst),
            self.second_saw.load(Ordering::SeqCst),
        )
    }
}

impl Gate for Meeting {
    ghost begins = { λ _ _. Unit {0} };

    ghost ends = { λ _ _. Unit {0} };

    fn before(&self, number: u32) {
        match number {
            1 => meet(&self.first_came, &self.second_came, &self.first_saw),
            2 => meet(&self.second_came, &self.first_came, &self.second_saw),
            _ => {}
        }
    }

    fn after(&self, _number: u32) {}
}

/// Spawns program 1 twice, each with 3 of credit, and costs 42.
const ROOT: &str = "\
mov64 r1, 1
mov64 r2, 3
mov64 r3, 0
mov64 r4, 0
call 1
mov64 r1, 1
mov64 r2, 3
mov64 r3, 0
mov64 r4, 0
call 1
mov64 r0, 0
exit
";

/// The jobs that are tried until two workers meet: on a machine that others use, one of them may come
/// too late.
const TRIES: u32 = 20;

/// What two tasks come to that so many workers run, and whether each saw the other.
fn met<R: Threads + Wait + Sync>(
    rt: &R,
    alloc: Global,
    workers: u32,
) -> Result<[u64; 5], ScenarioFault> {
    let programs = assembled(alloc, &[(0, ROOT), (0, "mov64 r0, 0\nexit\n")])?;
    let job = admitted(alloc, &programs, 48, Vec::new(alloc))?;
    let gate = Meeting::new();
    let report = Opened::new(alloc, 19, job)?.run(rt, alloc, workers, &gate)?;
    let (first, second) = gate.saw();
    Ok([
        u64::from(report.spent),
        u64::from(report.returned),
        report.tasks.len() as u64,
        u64::from(first),
        u64::from(second),
    ])
}

/// The same of two workers, until both tasks saw each other.
fn met_by_two<R: Threads + Wait + Sync>(rt: &R, alloc: Global) -> Result<[u64; 5], ScenarioFault> {
    for _ in 1..TRIES {
        let numbers = met(rt, alloc, 2)?;
        if numbers[3] == 1 && numbers[4] == 1 {
            return Ok(numbers);
        }
    }
    met(rt, alloc, 2)
}

/// The same of two workers and of one.
pub fn meetings<R: Threads + Wait + Sync>(
    rt: &R,
    alloc: Global,
) -> Result<Vec<u64>, ScenarioFault> {
    let mut numbers = Vec::new(alloc);
    for number in met_by_two(rt, alloc)? {
        numbers.push(number)?;
    }
    for number in met(rt, alloc, 1)? {
        numbers.push(number)?;
    }
    Ok(numbers)
}
