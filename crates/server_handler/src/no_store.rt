//! Changes that nobody keeps.

use refusal::NoMemory;
use server_state::{ChangeSink, DeskChange};

/// Keeps no change: a server without a file.
#[derive(Drop)]
pub struct NoStore;

impl ChangeSink for NoStore {
    ghost use Rattle.std.specs.Prelude.{[], false};

    ghost sound = { λ _. false };

    ghost added = { λ _. [] };

    fn are_kept(&self) -> bool {
        false
    }

    fn reserve(&mut self) -> Result<(), NoMemory> {
        Ok(())
    }

    fn add(&mut self, change: DeskChange) {
        drop(change);
    }

    fn fail(&mut self) {}
}
