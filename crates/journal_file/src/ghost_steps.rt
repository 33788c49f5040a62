//! Lists of bytes that stand in proofs alone, the latest first.

ghost use Rattle.std.specs.Prelude.{◌≡◌, ◌∷◌, [], ℕ, List};
ghost use Rattle.std.specs.Coded.{coded_list, coded_ℕ};
ghost use base.Fml.{ftrue};

use crate::ghost_bytes::GhostBytes;
use std::marker::Model;

/// Lists of bytes, the latest first. They take no memory.
#[derive(Drop)]
pub struct GhostSteps {
    ghost steps: { List (List ℕ) } by { coded_list (coded_list coded_ℕ) },
}

impl Model for GhostSteps {
    ghost also_owns = { λ _. ftrue };
}

impl GhostSteps {
    /// No list.
    pub fn new() -> GhostSteps
        ensures { result.steps ≡ [] }
    {
        GhostSteps {}
    }

    /// A list more.
    pub fn then(&self, _piece: &[u8]) -> GhostSteps
        ensures { result.steps ≡ _piece.now ∷ self.now.steps }
    {
        GhostSteps {}
    }

    /// A list more, of bytes that stand in proofs alone.
    pub fn then_ghost(&self, _piece: &GhostBytes) -> GhostSteps
        ensures { result.steps ≡ _piece.now.bytes ∷ self.now.steps }
    {
        GhostSteps {}
    }
}
