//! BPF instructions as bytes: the instruction encoding of RFC 9669, in both directions.
#![tactic(auto)]

mod decoder;
mod encoder;
mod fault;
mod insn;
mod laws;
mod limits;
mod opcodes;
mod operation;
mod register;
mod slot;

pub use decoder::decode;
pub use encoder::encode;
pub use fault::CodecFault;
pub use insn::{
    AluOp, ByteOrder, Condition, EndSize, Insn, LoadKind, Operand, Placed, SignExtension, Size,
    Width,
};
pub use laws::{nothing_refused, one_refusal, one_spelling};
pub use limits::MAX_SLOTS;
pub use register::Register;
