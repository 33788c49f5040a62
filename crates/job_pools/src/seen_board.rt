//! The board of a job that a pool holds, with what was seen of it.

ghost use Rattle.std.specs.Prelude.{◌≡◌, ◌≢◌, ℕ, None, Some, IfSome, IfNone};
ghost use Rattle.std.specs.BTreeMap as tree;
ghost use Rattle.std.specs.Ordering.{nat_cmp};
ghost use Rattle.job_pools.specs.Started.{IsLook};

use credit_book::{Board, Progress, Reader};
use std::collections::BTreeMap;
use std::marker::Model;
use std::sync::Arc;

/// A board and its reader. Contracts see it as what was seen.
#[derive(Drop)]
pub(crate) struct SeenBoard {
    board: Arc<Board>,
    reader: Reader,
}

impl Model for SeenBoard {
    ghost use Rattle.std.specs.Prelude.{◌≡◌};
    ghost use Rattle.std.specs.Arc.{arc_value};
    ghost use Rattle.credit_book.specs.Boards.{Sight};

    ghost Value = { Sight };

    ghost view = { λ w. w.reader };

    ghost invariant = { λ w. w.reader.board ≡ arc_value w.board };
}

impl SeenBoard {
    ghost use Rattle.std.specs.Prelude.{◌≡◌};
    ghost use Rattle.std.specs.Arc.{arc_value};
    ghost use Rattle.job_pools.specs.Started.{IsLook};

    /// A board of which this reader has seen something.
    pub fn new(board: Arc<Board>, reader: Reader) -> SeenBoard
        requires { reader.board ≡ arc_value board }
        ensures { result ≡ reader }
    {
        SeenBoard { board, reader }
    }

    /// What the board tells now.
    pub fn look(&mut self) -> Progress
        ensures { IsLook self.old result self.new }
    {
        let board: &Board = &self.board;
        board.look(&mut self.reader)
    }
}

/// What the board of this number tells now.
pub(crate) fn look_at(boards: &mut BTreeMap<u64, SeenBoard>, number: u64) -> Option<Progress>
    ensures some { IfSome result (λ told. (old : _) × (new : _)
        × (tree.get nat_cmp boards.old number ≡ Some old) × IsLook old told new
        × (tree.get nat_cmp boards.new number ≡ Some new)) }
    ensures others { (n : ℕ) → n ≢ number
        → tree.get nat_cmp boards.new n ≡ tree.get nat_cmp boards.old n }
    ensures count { tree.btree_map_len boards.new ≡ tree.btree_map_len boards.old }
    ensures none { IfNone result ((tree.get nat_cmp boards.old number ≡ None)
        × (boards.new.entries ≡ boards.old.entries)) }
{
    match boards.get_mut(&number) {
        Some(watched) => Some(watched.look()),
        None => None,
    }
}
