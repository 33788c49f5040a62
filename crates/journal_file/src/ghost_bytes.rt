//! Bytes that stand in proofs alone.

ghost use Rattle.std.specs.Prelude.{◌≡◌, ◌++◌, [], ℕ, List};
ghost use Rattle.std.specs.Coded.{coded_list, coded_ℕ};
ghost use base.Fml.{ftrue};

use std::marker::Model;

/// A list of bytes that takes no memory.
#[derive(Drop)]
pub struct GhostBytes {
    ghost bytes: { List ℕ } by { coded_list coded_ℕ },
}

impl Model for GhostBytes {
    ghost also_owns = { λ _. ftrue };
}

impl GhostBytes {
    /// No bytes.
    pub fn new() -> GhostBytes
        ensures { result.bytes ≡ [] }
    {
        GhostBytes {}
    }

    /// These bytes, and then those of a piece.
    pub fn then(&self, _piece: &[u8]) -> GhostBytes
        ensures { result.bytes ≡ self.now.bytes ++ _piece.now }
    {
        GhostBytes {}
    }
}

// Nothing is there, so nothing is left behind. That is proved; the checker doesn't find it itself.
unsafe impl Send for GhostBytes {}
