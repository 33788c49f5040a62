//! The board of a job, on which any thread reads how far it is.

use crate::job::Job;
use credit_book::{Board, Post, Reader};
use refusal::NoMemory;
use std::alloc::Global;
use std::sync::Arc;

impl Job {
    ghost use Rattle.std.specs.Prelude.{◌≡◌, ◌∷◌, [], IfOk};
    ghost use Rattle.std.specs.Arc.{arc_value};
    ghost use Rattle.credit_book.specs.declared.event.Event.TheVariants.{Open};

    /// A board for the job under this number, its post, and a reader that has seen the opening.
    pub fn board(&self, alloc: Global, number: u64) -> Result<(Arc<Board>, Post, Reader), NoMemory>
        ensures board { IfOk result (λ r. ((arc_value r.0).job ≡ number)
            × ((arc_value r.0).issued ≡ self.now.credit)) }
        ensures post { IfOk result (λ r. (r.1.board ≡ arc_value r.0)
            × (r.1.history ≡ Open number self.now.credit ∷ [])) }
        ensures reader { IfOk result (λ r. (r.2.board ≡ arc_value r.0)
            × (r.2.seen ≡ Open number self.now.credit ∷ []) × (r.2.looks ≡ 0)) }
    {
        // for the proof: what the type says of the root
        prove!(self.programs[0].need() <= 65_536);
        Board::open(alloc, number, self.credit)
    }
}
