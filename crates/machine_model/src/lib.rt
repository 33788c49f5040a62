//! The machine that tasks are run by: what each instruction means, and what a job is. The
//! definitions are in `specs/`.
#![tactic(auto)]

mod laws;
mod limits;
mod prices;
mod program;

pub use laws::{conserves_credit, keeps_tiling, steps_follow_edges};
pub use limits::{MAX_CREDIT, MAX_PART};
pub use prices::{helper_price, price};
pub use program::Entry;

// the exact operators
mod operators;
mod unary;

pub use operators::{alu_number, apply_alu, bits, holds, low_bits, residue, shift_count, signed};
pub use unary::{extension_width, low_end, negate, reorder_bytes, sign_extend};

// loads and stores
pub mod memory;
