//! How many reports a desk keeps.

/// What a desk keeps of jobs that are over: the reports of the last `jobs` jobs, and of these no
/// more than hold `bytes` bytes. Where one is 0, it bounds nothing.
#[derive(Clone, Copy, Debug, PartialEq, Eq)]
pub struct KeepLimits {
    /// Of how many last jobs the reports are kept.
    pub jobs: u32,
    /// The bytes that the kept reports hold: those of their buffers, and 40 for each task.
    pub bytes: u64,
}

impl KeepLimits {
    ghost use Rattle.std.specs.Prelude.{◌≡◌};
    ghost use Rattle.accounts.specs.Limits.{keeps_all};

    /// No bound.
    pub fn none() -> KeepLimits
        ensures { result ≡ keeps_all }
    {
        KeepLimits { jobs: 0, bytes: 0 }
    }
}
