//! Whether a request has to name its tenant.

/// Whether a request has to name its tenant.
#[derive(Clone, Copy, Debug, PartialEq, Eq)]
pub enum TenantKey {
    /// The name has to be there.
    Required,
    /// It may be left out: what is asked is then asked of the empty name, which no tenant has.
    Optional,
}
