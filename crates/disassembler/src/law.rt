//! The law of the text table.

ghost use Rattle.std.specs.Prelude.{◌≡◌};
ghost use Rattle.insn_codec.specs.declared.insn.Insn.{Insn};
ghost use Rattle.insn_codec.specs.Spelling.{IsInsn};
ghost use Rattle.disassembler.specs.Line.{line_text};

/// One line has one instruction.
pub fn one_line()
    ensures { (a b : Insn) → IsInsn a → IsInsn b → line_text a ≡ line_text b → a ≡ b }
{}
