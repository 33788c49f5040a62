//! What is known of a register before a program runs: ranges of numbers, as they are and read as
//! signed numbers, and of positions in the stack and in the part. Each table is exact, and covers
//! what the machine can give. The hints on inlining keep what a verifier asks at each instruction
//! out of memory.
#![tactic(auto)]

mod abs;
mod arithmetic;
mod fault;
mod joins;
mod laws;
mod numbers;
mod pointers;
mod range;
mod refinements;
mod rows;
mod signed_rows;
mod unary_rows;
mod words;

pub use abs::{Abs, Reach};
pub use arithmetic::{alu, compute};
pub use fault::PointerFault;
pub use joins::{join, join_into};
pub use laws::{joins_are_hulls, tidied_is_tidy};
pub use numbers::Numbers;
pub use range::{Range, SignedRange};
pub use refinements::refine;
pub use words::{entry, immediate, loaded};
