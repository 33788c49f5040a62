//! What the run of a single program comes to.

/// R0 at a program's end, and what it used of its credit.
#[derive(Clone, Copy, Debug, PartialEq, Eq)]
pub struct Executed {
    pub r0: u64,
    pub used: u32,
}
