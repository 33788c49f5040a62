//! A worker's view of how far the job is.

ghost use Rattle.std.specs.Prelude.{◌≡◌, ◌+◌, ◌↔◌, ◌∷◌, [], IfOk, IsTrue};
ghost use Rattle.std.specs.Arc.{arc_value};
ghost use mathlib.Core.List.{IsPrefix};
ghost use Rattle.credit_book.specs.declared.event.Event.TheVariants.{Open};
ghost use Rattle.credit_book.specs.History.{IsComplete, IsHistoryOf, table_of};

use credit_book::{Board, Post, Reader};
use refusal::NoMemory;
use std::sync::Arc;

/// A board and a reader of it.
#[derive(Drop)]
pub(crate) struct Watch {
    board: Arc<Board>,
    reader: Reader,
    ghost same: { reader.board ≡ arc_value board },
}

impl Watch {
    /// A watch over the post's board, which has seen its opening alone.
    pub fn over(post: &mut Post) -> Result<Watch, NoMemory>
        ensures same { post.new ≡ post.old }
        ensures board { IfOk result (λ watch. watch.reader.board ≡ post.old.board) }
        ensures seen { IfOk result (λ watch. watch.reader.seen
            ≡ Open post.old.board.job post.old.board.issued ∷ []) }
    {
        let (board, reader) = post.seat()?;
        Ok(Watch { board, reader })
    }

    /// Looks whether no task is alive, in the history that is then seen.
    pub fn is_complete(&mut self) -> bool
        ensures board { self.new.reader.board ≡ self.old.reader.board }
        ensures counted { self.new.reader.looks ≡ self.old.reader.looks + 1 }
        ensures later { IsPrefix self.old.reader.seen self.new.reader.seen }
        ensures legal { IsHistoryOf self.old.reader.board.job self.old.reader.board.issued
            self.new.reader.seen }
        ensures complete { IsTrue result ↔ IsComplete (table_of self.new.reader.seen) }
    {
        let board: &Board = &self.board;
        board.look(&mut self.reader).complete
    }
}
