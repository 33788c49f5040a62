//! From a source text to bytes.

ghost use Rattle.std.specs.Prelude.{List, IfOk, IfErr};
ghost use Rattle.insn_codec.specs.declared.insn.Insn.{Insn};
ghost use Rattle.assembler.specs.Source.{source_lines, IsAssembly, IsTextRefusal};

use crate::fault::TextFault;
use crate::source::insns_from;
use insn_codec::{CodecFault, encode};
use std::alloc::Global;

/// The bytes of the program that a source text says: its lines, without comments and blanks around
/// them, are the lines of the instructions that these bytes spell. A refusal of a line tells the
/// lowest that is no instruction's; `Empty` and `TooLong` come only where each line is one's.
pub fn assemble(alloc: Global, source: &str) -> Result<Vec<u8>, TextFault>
    ensures found { IfOk result (λ bytes. (insns : List Insn)
        × IsAssembly bytes.items insns (source_lines source.now)) }
    ensures refused { IfErr result (λ e. IsTextRefusal e (source_lines source.now)) }
{
    let insns = insns_from(alloc, source.as_bytes())?;
    match encode(alloc, &insns) {
        Ok(bytes) => Ok(bytes),
        Err(CodecFault::Empty) => Err(TextFault::Empty),
        Err(CodecFault::TooLong) => Err(TextFault::TooLong),
        Err(_) => Err(TextFault::NoMemory),
    }
}
