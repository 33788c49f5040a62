//! The limit of a program's bytes.

/// The most slots of a program, each of 8 bytes.
pub const MAX_SLOTS: usize = 4096;
