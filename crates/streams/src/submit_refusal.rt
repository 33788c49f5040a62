//! Why a job that was asked for doesn't run.

/// Why a job that was asked for doesn't run.
#[derive(Clone, Copy, Debug, PartialEq, Eq)]
pub enum SubmitRefusal {
    /// It wasn't taken.
    NotTaken { code: u8 },
    /// It was taken under this number, and its start was refused.
    NotStarted { job: u64, code: u8 },
}
