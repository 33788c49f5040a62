//! What is known of a program by its number.

/// What a spawn has to know of the program that it starts.
#[derive(Clone, Copy, Debug, PartialEq, Eq)]
pub struct Entry {
    /// The greatest cost of a run from its first slot.
    pub cost: u32,
    /// The bytes that it needs of its part.
    pub need: u32,
}
