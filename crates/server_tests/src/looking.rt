//! Four threads look at the board of a job of a thousand tasks, while four workers run it.

use crate::lookers::looks;
use crate::opened::Opened;
use crate::stop::ScenarioFault;
use crate::tree::{admitted, assembled};
use std::alloc::Global;
use std::sync::Wait;
use std::sync::atomic::{AtomicBool, Ordering};
use std::thread;
use std::thread::Threads;
use workers::OpenGate;

/// The text of a program that spawns 32 tasks of a program, each with the share.
fn spawning(alloc: Global, program: u32, share: u32) -> Result<String, ScenarioFault> {
    let mut text = String::new(alloc);
    for _ in 0..32u32 {
        let spawn = format!(in alloc;
            "mov64 r1, {program}\nmov64 r2, {share}\nmov64 r3, 0\nmov64 r4, 0\ncall 1\n"
        )?;
        text.push_str(&spawn)?;
    }
    text.push_str("mov64 r0, 0\nexit\n")?;
    Ok(text)
}

/// A root that spawns 32 tasks, each of which spawns 32 that only end: 1,057 tasks. A spawn costs
/// 20 with its moves, and all ends 2.
fn crowd(alloc: Global) -> Result<Opened, ScenarioFault> {
    let share = 20 * 32 + 2 + 32 * 2;
    let credit = 20 * 32 + 2 + 32 * share;
    let root = spawning(alloc, 1, share)?;
    let child = spawning(alloc, 2, 2)?;
    let texts = [
        (0, root.as_str()),
        (0, child.as_str()),
        (0, "mov64 r0, 0\nexit\n"),
    ];
    let programs = assembled(alloc, &texts)?;
    let job = admitted(alloc, &programs, credit, Vec::new(alloc))?;
    Opened::new(alloc, 1, job)
}

/// Runs the job with four workers, while four other threads look. Whether each look was right, and
/// all was spent.
fn watched<R: Threads + Wait + Sync>(rt: &R, alloc: Global) -> Result<bool, ScenarioFault> {
    let mut opened = crowd(alloc)?;
    let issued = opened.issued();
    let mut lookers = Vec::new(alloc);
    for _ in 0..4u32 {
        lookers.push(opened.looker()?)?;
    }
    let (over, alarm) = (AtomicBool::new(false), AtomicBool::new(false));
    let (is_over, is_wrong) = (&over, &alarm);
    let ran = thread::scope(thread::scope_env(), rt, |scope| {
        for looker in lookers {
            let started = scope.spawn(move || looks(rt, looker, is_over, is_wrong, issued));
            if started.is_err() {
                is_wrong.store(true, Ordering::SeqCst);
            }
        }
        let ran = opened.run(rt, alloc, 4, &OpenGate);
        is_over.store(true, Ordering::SeqCst);
        ran
    });
    let report = ran?;
    let is_wrong = alarm.load(Ordering::SeqCst);
    Ok(!is_wrong && report.spent == issued && report.tasks.len() == 1057)
}

/// In how many of a hundred runs no look goes back.
pub fn looked_at<R: Threads + Wait + Sync>(
    rt: &R,
    alloc: Global,
) -> Result<Vec<u64>, ScenarioFault> {
    let mut right = 0u64;
    for _ in 0..100u32 {
        right = right.wrapping_add(u64::from(watched(rt, alloc)?));
    }
    let mut numbers = Vec::new(alloc);
    numbers.push(right)?;
    Ok(numbers)
}
