//! The bounds that a host sets for its server.

use accounts::KeepLimits;

/// What a host bounds of its server.
#[derive(Clone, Copy, Debug, PartialEq, Eq)]
pub struct Bounds {
    /// Connections at once, 1 to 1,024.
    pub clients: u32,
    /// Seconds, 1 to 3600, after which a client is given up that keeps a read or a write waiting, or
    /// a frame. 0: none is.
    pub timeout: u32,
    /// Jobs, 1 to 1,000,000, that may be open at once. 0: any number.
    pub open_jobs: u32,
    /// Jobs, 1 to 1,000,000, that each tenant may have open at once, where tenants have doors.
    /// Everybody else counts as one. 0: any number.
    pub tenant_jobs: u32,
    /// The reports that each desk keeps.
    pub keep: KeepLimits,
}
