//! The reasons for which a change is not recorded or committed.

use crate::state_machine::ApplyFault;

/// Why a writer did nothing more. From then on it never does.
#[derive(Clone, Copy, Debug, PartialEq, Eq)]
pub enum StopFault {
    /// The log failed in this call.
    LogFailed,
    /// The log failed in an earlier call.
    Stopped,
}

/// Why a change was not recorded. After `LogFailed` none is recorded any more.
#[derive(Clone, Copy, Debug, PartialEq, Eq)]
pub enum RecordFault {
    /// A growth was refused.
    NoMemory,
    /// The payload has 2 ^ 32 bytes or more.
    TooLarge,
    /// The state machine did not apply the change.
    NotApplied(ApplyFault),
    /// The log failed in this call.
    LogFailed,
    /// The log failed in an earlier call.
    Stopped,
}
