//! Where workers sleep while there is nothing to do.

use std::sync::Wait;
use std::sync::atomic::{AtomicU64, Ordering};
use std::time::Duration;

/// How many rounds a worker looks for a task in vain before it sleeps. A round is some hundred
/// nanoseconds, a wake some ten microseconds.
const PATIENT_ROUNDS: u32 = 64;

/// How long a worker sleeps at most, in milliseconds. Nothing rests on it: whoever has a task for
/// others wakes one, and whoever leaves wakes all.
const LONGEST_SLEEP: u64 = 50;

/// A bell that wakes workers, and how many of them may have to be woken.
#[derive(Drop)]
pub(crate) struct Bell {
    rung: AtomicU64,
    sleepers: AtomicU64,
}

impl Bell {
    /// A bell that nobody waits for.
    pub fn new() -> Bell {
        Bell {
            rung: AtomicU64::new(0),
            sleepers: AtomicU64::new(0),
        }
    }

    /// Wakes one worker, if any sleeps.
    pub fn ring(&self) {
        if self.sleepers.load(Ordering::SeqCst) > 0 {
            self.rung.fetch_add(1, Ordering::SeqCst);
            self.rung.wake_one();
        }
    }

    /// Wakes all workers that sleep.
    pub fn ring_for_all(&self) {
        if self.sleepers.load(Ordering::SeqCst) > 0 {
            self.rung.fetch_add(1, Ordering::SeqCst);
            self.rung.wake_all();
        }
    }
}

/// A worker's rest between two looks for a task.
#[derive(Drop)]
pub(crate) struct Rest<'a> {
    bell: &'a Bell,
    rounds: u32,
    heard: u64,
}

impl<'a> Rest<'a> {
    /// The worker has just had a task.
    pub fn new(bell: &'a Bell) -> Rest<'a> {
        Rest {
            bell,
            rounds: 0,
            heard: 0,
        }
    }

    /// The worker has a task again.
    pub fn end(&mut self) {
        if self.rounds > PATIENT_ROUNDS {
            self.bell.sleepers.fetch_sub(1, Ordering::SeqCst);
        }
        self.rounds = 0;
    }

    /// Rests after a look in vain: others have the processor first, and after some rounds the worker
    /// sleeps until the bell rings. It looks once more between the round in which it is counted
    /// among those who sleep and its first sleep, so that it sleeps through no task. A round in
    /// which the desk was taken is no look.
    pub fn pause<R: Wait>(&mut self, rt: &R, has_looked: bool) {
        if !has_looked {
            std::thread::yield_now();
            return;
        }
        if self.rounds < PATIENT_ROUNDS {
            self.rounds += 1;
            std::thread::yield_now();
            return;
        }
        if self.rounds == PATIENT_ROUNDS {
            self.rounds += 1;
            self.bell.sleepers.fetch_add(1, Ordering::SeqCst);
        } else {
            let longest = Duration::from_millis(LONGEST_SLEEP);
            self.bell
                .rung
                .park_timeout(rt, (self.heard & 0xffff_ffff) as u32, longest);
        }
        self.heard = self.bell.rung.load(Ordering::SeqCst);
    }
}
