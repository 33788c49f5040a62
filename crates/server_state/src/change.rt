//! The changes of desks, as a store keeps them.

ghost use Rattle.std.specs.Prelude.{◌≡◌, ◌++◌, ◌∷◌, [], Bool, List, false, true};
ghost use Rattle.server_state.specs.declared.change.DeskChange.{DeskChange};

use crate::job_id::JobId;
use accounts::SharedReport;
use job_core::ProgramBytes;
use refusal::NoMemory;

/// A change of a desk.
#[derive(Drop)]
pub enum DeskChange {
    /// A tenant was granted credit.
    Granted {
        desk: u16,
        tenant: String,
        amount: u32,
    },
    /// A job was taken as the desk's next one, which is open; by a key, if it came by one.
    Taken {
        desk: u16,
        tenant: String,
        key: Option<String>,
        programs: Vec<ProgramBytes>,
        credit: u32,
        buffer: Vec<u8>,
    },
    /// An open job is over.
    Settled {
        id: JobId,
        outcome: Result<SharedReport, u8>,
    },
    /// Of the jobs up to this number, those that are over were forgotten.
    Forgotten {
        desk: u16,
        ahead: u64,
    },
}

/// Takes the changes of desks, in order. Once one is missing it is not sound any more, for good.
pub trait ChangeSink {
    // It has taken each change.
    ghost sound: { Self → Bool };

    // The changes that it has taken.
    ghost added: { Self → List DeskChange };

    /// Whether it takes changes at all.
    fn are_kept(&self) -> bool
        ensures { result ≡ false → sound self.now ≡ false };

    /// Makes room for one change more.
    fn reserve(&mut self) -> Result<(), NoMemory>
        ensures sound { sound self.new ≡ sound self.old }
        ensures same { added self.new ≡ added self.old };

    /// Takes a change behind the others.
    fn add(&mut self, change: DeskChange)
        ensures sound { sound self.new ≡ true → sound self.old ≡ true }
        ensures added { sound self.new ≡ true → added self.new ≡ added self.old ++ change ∷ [] };

    /// Misses a change: nothing is to be sent from now on.
    fn fail(&mut self)
        ensures { sound self.new ≡ false };
}
