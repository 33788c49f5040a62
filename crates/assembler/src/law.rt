//! The laws of source texts: none has two programs or two refusals, and what is written is read
//! back.

ghost use Rattle.std.specs.Prelude.{◌≡◌, ◌≢◌, ℕ, List};
ghost use Rattle.std.specs.List.{AllByRecursion};
ghost use Rattle.insn_codec.specs.declared.insn.Insn.{Insn};
ghost use Rattle.insn_codec.specs.Spelling.{IsInsn, IsWhole, spellings};
ghost use Rattle.disassembler.specs.Line.{lines_text};
ghost use Rattle.assembler.specs.declared.fault.TextFault.{TextFault};
ghost use Rattle.assembler.specs.declared.fault.TextFault.TheVariants.{NoMemory};
ghost use Rattle.assembler.specs.Source.{source_lines, AreLinesOf, IsTextRefusal};

/// The lines of a source text are of one program.
pub fn one_program()
    ensures { (a b : List Insn) (lines : List (ℕ × List ℕ)) → AreLinesOf a lines
        → AreLinesOf b lines → a ≡ b }
{}

/// Lines of a program have no fault, so `assemble` refuses them for want of memory alone.
pub fn nothing_refused()
    ensures { (insns : List Insn) (lines : List (ℕ × List ℕ)) → AreLinesOf insns lines
        → IsWhole (spellings insns)
        → (e : TextFault) → IsTextRefusal e lines → e ≡ NoMemory }
{}

/// A source text has one refusal at most, but for want of memory.
pub fn one_refusal()
    ensures { (lines : List (ℕ × List ℕ)) (e f : TextFault) → IsTextRefusal e lines
        → IsTextRefusal f lines
        → e ≢ NoMemory → f ≢ NoMemory → e ≡ f }
{}

/// What `disassemble` writes has the lines of its program, so that `assemble` gives its bytes back.
pub fn read_back()
    ensures { (insns : List Insn) → AllByRecursion IsInsn insns
        → AreLinesOf insns (source_lines (lines_text insns)) }
{}
