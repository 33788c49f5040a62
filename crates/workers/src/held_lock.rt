//! How long a worker keeps its job's lock, from one spawn of a task to the next.

use crate::worker::AtDesk;
use std::cell::RefCell;
use task_register::JobId;
use virtual_machine::RunObserver;

/// The lock, held, and whether the task has spawned since the last stretch of it ended.
#[derive(Drop)]
struct LockHold<'a, J: JobId> {
    desk: AtDesk<'a, J>,
    has_spawned: bool,
}

/// Whether a worker is at the desk. A task that spawns many children spawns them in a row, and a
/// worker that let go of the desk in between would wait for it again at each. So it stays, and
/// leaves once a stretch of the task has gone by without a spawn, at its end at the latest.
#[derive(Drop)]
pub(crate) struct HeldLock<'a, J: JobId> {
    hold: RefCell<Option<LockHold<'a, J>>>,
}

impl<'a, J: JobId> HeldLock<'a, J> {
    /// The worker is away from the desk.
    pub fn away() -> HeldLock<'a, J> {
        HeldLock {
            hold: RefCell::new(None),
        }
    }

    /// The desk, if the worker is at it. Whoever drops what this gives leaves it.
    pub fn take(&self) -> Option<AtDesk<'a, J>> {
        match self.hold.try_replace(None) {
            Ok(Some(hold)) => Some(hold.desk),
            _ => None,
        }
    }

    /// Stays at the desk after a spawn.
    pub fn go_on(&self, desk: AtDesk<'a, J>) {
        self.set(LockHold {
            desk,
            has_spawned: true,
        });
    }

    fn set(&self, hold: LockHold<'a, J>) {
        let _ = self.hold.try_replace(Some(hold));
    }
}

impl<J: JobId> RunObserver for HeldLock<'_, J> {
    /// Leaves the desk, unless the task spawned a child in this stretch.
    fn pause(&self) {
        if let Ok(Some(hold)) = self.hold.try_replace(None)
            && hold.has_spawned
        {
            self.set(LockHold {
                desk: hold.desk,
                has_spawned: false,
            });
        }
    }
}
