//! Who answers a call: the host has given the answer before.

use helpers::{Entry, SpawnRecord, Spawner};

/// The answer to a call, whatever is called. Nothing is spawned beside it.
#[derive(Drop)]
pub(crate) struct CallAnswer {
    pub(crate) word: u64,
}

impl Spawner for CallAnswer {
    ghost use Rattle.std.specs.Prelude.{◌≡◌, Err};
    ghost use Rattle.machine_model.specs.Alone.{no_entries};

    ghost entries = { λ s. no_entries };

    ghost asks = { λ s child. Unit {0} };

    ghost spawns = { λ s child reply s'. (s' ≡ s) × (reply ≡ Err child) };

    ghost calls = { λ s id arguments answer s'. answer ≡ s.word };

    fn entry(&self, _program: u64) -> Option<Entry> {
        None
    }

    fn spawn(&mut self, child: SpawnRecord) -> Result<(), SpawnRecord> {
        Err(child)
    }

    fn call(&mut self, _id: u32, _arguments: [u64; 5]) -> u64 {
        self.word
    }
}
