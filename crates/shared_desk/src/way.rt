//! The way to a desk that many share.

use crate::desk::SharedDesk;
use crate::seats::Origin;
use crate::shared_handler::SharedHandler;
use crate::shared_history::SharedHistory;
use std::sync::Mutex;

/// Leads to a desk that many share: to its lock, to the handle that waits for the lock, and to the
/// history.
pub trait DeskWay<R, D, H: SharedHandler<D>, J: Origin<D, H>> {
    /// The handle that waits for the lock.
    fn handle(&self) -> &R;

    /// The history that has every answer of the desk.
    fn history(&self) -> &SharedHistory<J>;

    /// The desk under its lock.
    fn locked_desk(&self) -> &Mutex<SharedDesk<D, H, J>>;
}

/// The way to a desk that is lent.
#[derive(Drop)]
pub struct LentDesk<'a, R, D, H: SharedHandler<D>, J: Origin<D, H>> {
    rt: &'a R,
    history: &'a SharedHistory<J>,
    lock: &'a Mutex<SharedDesk<D, H, J>>,
}

impl<'a, R, D, H: SharedHandler<D>, J: Origin<D, H>> LentDesk<'a, R, D, H, J> {
    /// The way to the desk under this lock.
    pub fn new(
        rt: &'a R,
        history: &'a SharedHistory<J>,
        lock: &'a Mutex<SharedDesk<D, H, J>>,
    ) -> LentDesk<'a, R, D, H, J> {
        LentDesk { rt, history, lock }
    }
}

impl<R, D, H: SharedHandler<D>, J: Origin<D, H>> DeskWay<R, D, H, J> for LentDesk<'_, R, D, H, J> {
    fn handle(&self) -> &R {
        self.rt
    }

    fn history(&self) -> &SharedHistory<J> {
        self.history
    }

    fn locked_desk(&self) -> &Mutex<SharedDesk<D, H, J>> {
        self.lock
    }
}
