//! BPF instructions as text.
#![tactic(auto)]

mod law;
mod printing;
mod signed_number;
mod word;

pub use law::one_line;
pub use printing::{disassemble, line};
pub use signed_number::SignedNumber;
pub use word::Word;
