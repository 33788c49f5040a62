//! What the definitions mean: no program has two spellings, and no bytes two refusals.

ghost use Rattle.std.specs.Prelude.{◌≡◌, ◌≢◌, ℕ, List, ◌++◌};
ghost use Rattle.insn_codec.specs.Spelling.{IsInsn, IsRefusal, IsWhole, spelling, spellings};
ghost use Rattle.std.specs.List.{AllByRecursion};
ghost use Rattle.insn_codec.specs.declared.fault.CodecFault.{CodecFault};
ghost use Rattle.insn_codec.specs.declared.fault.CodecFault.TheVariants.{NoMemory};
ghost use Rattle.insn_codec.specs.declared.insn.Insn.{Insn};

/// No spelling of an instruction begins another's.
pub fn one_spelling()
    ensures { (a b : Insn) (x y : List ℕ) → IsInsn a → IsInsn b
        → spelling a ++ x ≡ spelling b ++ y → (a ≡ b) × (x ≡ y) }
{}

/// The bytes of a program have no fault, so `decode` refuses them for want of memory alone.
pub fn nothing_refused()
    ensures { (insns : List Insn) → AllByRecursion IsInsn insns → IsWhole (spellings insns)
        → (e : CodecFault) → IsRefusal e (spellings insns) → e ≡ NoMemory }
{}

/// Bytes have one refusal at most, but for want of memory.
pub fn one_refusal()
    ensures { (bytes : List ℕ) (e f : CodecFault) → IsRefusal e bytes → IsRefusal f bytes
        → e ≢ NoMemory → f ≢ NoMemory → e ≡ f }
{}
