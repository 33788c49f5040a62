//! A flag that says whether a server takes further connections.

use std::sync::atomic::{AtomicBool, Ordering};

/// A flag that a host raises where its server is to take no further connection. Any thread may raise
/// it at any time, so no contract says when it is up.
#[derive(Drop)]
pub struct StopFlag {
    raised: AtomicBool,
}

impl StopFlag {
    /// A flag that is down.
    pub fn new() -> StopFlag {
        StopFlag {
            raised: AtomicBool::new(false),
        }
    }

    /// Raises the flag.
    pub fn raise(&self) {
        self.raised.store(true, Ordering::SeqCst);
    }

    /// Whether the flag was raised.
    pub fn is_raised(&self) -> bool {
        self.raised.load(Ordering::SeqCst)
    }
}
