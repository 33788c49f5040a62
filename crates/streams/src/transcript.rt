//! The bytes that went through an end of a stream.

ghost use Rattle.std.specs.Prelude.{◌≡◌, ◌++◌, [], ℕ, List};
ghost use Rattle.std.specs.Coded.{coded_list, coded_ℕ};
ghost use base.Fml.{ftrue};

use std::marker::Model;

/// The bytes that went through so far. It takes no room.
#[derive(Drop)]
pub struct Transcript {
    ghost bytes: { List ℕ } by { coded_list coded_ℕ },
}

impl Model for Transcript {
    ghost also_owns = { λ _. ftrue };
}

impl Transcript {
    /// No byte yet.
    pub fn new() -> Transcript
        ensures { result.bytes ≡ [] }
    {
        Transcript {}
    }

    /// These, and then the bytes of a piece.
    pub fn then(&self, _piece: &[u8]) -> Transcript
        ensures { result.bytes ≡ self.now.bytes ++ _piece.now }
    {
        Transcript {}
    }
}
