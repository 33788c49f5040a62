//! One step of a run, and what it changed.

use explain::InstructionPlace;
use reference::Content;

/// A register that changed, and what it holds from then on.
#[derive(Clone, Copy, Debug, PartialEq, Eq)]
pub struct RegisterChange {
    /// 0 to 10.
    pub register: u8,
    pub content: Content,
}

/// Bytes that changed: from a place of their region on it has these.
#[derive(Drop)]
pub struct ChangedBytes {
    pub at: usize,
    pub bytes: Vec<u8>,
}

/// A step of a run.
#[derive(Drop)]
pub struct Step {
    /// The instruction that ran.
    pub place: InstructionPlace,
    /// The registers that hold something else than before.
    pub registers: Vec<RegisterChange>,
    /// The bytes of the stack, from the first that is another than before to the last.
    pub stack: Option<ChangedBytes>,
    /// The bytes of the part, likewise.
    pub part: Option<ChangedBytes>,
    /// What the run has used of the credit, with this instruction's price.
    pub used: u32,
}
