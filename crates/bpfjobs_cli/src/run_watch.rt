//! A watch is told of a job's board ahead of its run, and of each task of it.

use credit_book::{Board, Reader};
use std::sync::Arc;
use workers::{Gate, OpenGate};

/// Is given the board of a job ahead of its first task, and is told of each task as a gate.
pub trait RunWatch: Gate {
    ghost use Rattle.std.specs.Prelude.{◌≡◌, ℕ};
    ghost use Rattle.std.specs.Arc.{arc_value};

    // The watch was given a board of a job with this credit, and a reader of it.
    ghost opens: { Self → ℕ → Type 0 };

    /// The credit of the job that is about to run, its board, and a reader of it.
    fn opened(&self, credit: u32, board: Arc<Board>, reader: Reader)
        requires reader { reader.board ≡ arc_value board }
        requires credit { (arc_value board).issued ≡ credit }
        ensures { opens self.now credit };
}

impl RunWatch for OpenGate {
    ghost opens = { λ _ _. Unit {0} };

    fn opened(&self, _credit: u32, _board: Arc<Board>, _reader: Reader) {}
}
