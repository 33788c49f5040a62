//! The board of a job: one word that any thread reads, and the post that alone writes it.
ghost use Rattle.std.specs.Prelude.{◌≡◌, ◌+◌, ◌*◌, ◌%◌, ◌<◌, ◌≤◌, ◌↔◌, [], ◌∷◌, ◌++◌, IfOk, IsTrue};
ghost use Rattle.std.specs.Arc.{arc_value};
ghost use mathlib.Core.List.{IsPrefix};
ghost use Rattle.credit_book.specs.declared.event.Event.TheVariants.{Open};
ghost use Rattle.credit_book.specs.History.{IsHistoryOf, IsComplete, table_of, spent_in, returned_in, board_word};
ghost use Rattle.machine_model.specs.Limits.{max_credit};

use crate::past::Past;
use crate::seats::{Chronicle, Opening, Publishes, Ruled, Sees, Tells, View};
use atomic_table::{Seat, Table};
use refusal::NoMemory;
use std::alloc::Global;
use std::marker::Model;
use std::sync::Arc;

/// What a look tells.
#[derive(Clone, Copy, PartialEq, Eq, Debug)]
pub struct Progress {
    pub spent: u32,
    pub returned: u32,
    pub complete: bool,
}

/// One word: what was returned, times 2^32, and what was spent.
#[derive(Drop)]
pub struct Board {
    table: Table<(), View, Opening, Ruled, Global>,
    opening: Opening,
}

impl Model for Board {
    ghost use Rattle.std.specs.Prelude.{◌≡◌};
    ghost use Rattle.credit_book.specs.Boards.{Sign};

    ghost Value = { Sign };

    ghost view = { λ b. record {
      table = b.table.shared.table_id;
      job = b.opening.job;
      issued = b.opening.issued;
    } };

    ghost invariant = { λ b. (b.table.shared.table_id.words ≡ 1)
        × (b.table.shared.key ≡ b.opening) };
}

/// What one thread has seen of a board.
#[derive(Drop)]
pub struct Reader {
    seat: Seat<(), View>,
    opening: Opening,
}

impl Model for Reader {
    ghost use Rattle.std.specs.Prelude.{◌≡◌, false};
    ghost use Rattle.credit_book.specs.Boards.{Sight};
    ghost use Rattle.credit_book.specs.History.{IsHistoryOf};

    ghost Value = { Sight };

    ghost view = { λ r. record {
      board = record {
        table = r.seat.table_id;
        job = r.opening.job;
        issued = r.opening.issued;
      };
      seen = r.seat.me.0.history;
      looks = r.seat.me.0.looks;
    } };

    ghost invariant = { λ r. (r.seat.me.0.writes ≡ false)
        × IsHistoryOf r.opening.job r.opening.issued r.seat.me.0.history };
}

/// The seat that alone writes the board of a job.
#[derive(Drop)]
pub(crate) struct Writer {
    seat: Seat<(), View>,
    board: Arc<Board>,
}

impl Model for Writer {
    ghost use Rattle.std.specs.Prelude.{◌≡◌, true};
    ghost use Rattle.std.specs.Arc.{arc_value};
    ghost use Rattle.credit_book.specs.Boards.{Known};
    ghost use Rattle.credit_book.specs.History.{IsHistoryOf};

    ghost Value = { Known };

    ghost view = { λ p. record { board = arc_value p.board; history = p.seat.me.0.history } };

    ghost invariant = { λ p. (p.seat.table_id ≡ (arc_value p.board).table)
        × (p.seat.me.0.writes ≡ true)
        × IsHistoryOf (arc_value p.board).job (arc_value p.board).issued p.seat.me.0.history };
}

/// The right to open the book of a job: its board has the opening alone.
#[derive(Drop)]
pub struct Post {
    writer: Writer,
}

impl Model for Post {
    ghost use Rattle.std.specs.Prelude.{◌≡◌, ◌∷◌, []};
    ghost use Rattle.credit_book.specs.declared.event.Event.TheVariants.{Open};
    ghost use Rattle.credit_book.specs.Boards.{Known};

    ghost Value = { Known };

    ghost view = { λ p. p.writer };

    ghost invariant = { λ p. p.writer.history ≡ Open p.writer.board.job p.writer.board.issued
        ∷ [] };
}

impl Post {
    /// The board, and a reader that has seen the opening alone.
    pub fn seat(&mut self) -> Result<(Arc<Board>, Reader), NoMemory>
        ensures board { IfOk result (λ r. (arc_value r.0 ≡ self.old.board)
            × (r.1.board ≡ self.old.board)) }
        ensures seen { IfOk result (λ r. (r.1.seen
            ≡ Open self.old.board.job self.old.board.issued ∷ []) × (r.1.looks ≡ 0)) }
        ensures same { self.new ≡ self.old }
    {
        self.writer.seat()
    }

    pub(crate) fn into_writer(self) -> Writer
        ensures same { result ≡ self }
        ensures opened { result.history ≡ Open result.board.job result.board.issued ∷ [] }
    {
        let Post { writer } = self;
        writer
    }
}

impl Board {
    /// The totals of the history that is then seen, which begins with all that the reader had seen.
    pub fn look(&self, reader: &mut Reader) -> Progress
        requires { reader.old.board ≡ self.now }
        ensures board { reader.new.board ≡ reader.old.board }
        ensures counted { reader.new.looks ≡ reader.old.looks + 1 }
        ensures later { IsPrefix reader.old.seen reader.new.seen }
        ensures legal { IsHistoryOf self.now.job self.now.issued reader.new.seen }
        ensures totals { (result.spent ≡ spent_in (table_of reader.new.seen))
            × (result.returned ≡ returned_in (table_of reader.new.seen)) }
        ensures complete { IsTrue result.complete ↔ IsComplete (table_of reader.new.seen) }
    {
        let issued = self.opening.issued;
        let word = self.table.shared.load::<Sees>(&mut reader.seat, 0);
        let spent = (word % (1 << 32)) as u32;
        let returned = (word >> 32) as u32;
        let complete = u64::from(spent) + u64::from(returned) == u64::from(issued);
        Progress {
            spent,
            returned,
            complete,
        }
    }
}

impl Board {
    /// A board with the opening alone, its post, and a reader that has seen just that.
    pub fn open(
        alloc: Global,
        job: u64,
        issued: u32,
    ) -> Result<(Arc<Board>, Post, Reader), NoMemory>
        requires { (1 ≤ issued) × (issued ≤ max_credit) }
        ensures board { IfOk result (λ r. ((arc_value r.0).job ≡ job)
            × ((arc_value r.0).issued ≡ issued)) }
        ensures post { IfOk result (λ r. (r.1.board ≡ arc_value r.0)
            × (r.1.history ≡ Open job issued ∷ [])) }
        ensures reader { IfOk result (λ r. (r.2.board ≡ arc_value r.0)
            × (r.2.seen ≡ Open job issued ∷ []) × (r.2.looks ≡ 0)) }
    {
        let opening = Opening { job, issued };
        let (table, mut seat) = Table::of_words(alloc, &[0], &opening)?;
        let seen = table.shared.split_seat::<Tells>(&mut seat);
        let board = Arc::new(alloc, Board { table, opening })?;
        let writer = Writer {
            seat,
            board: Arc::try_clone(&board)?,
        };
        let post = Post { writer };
        let reader = Reader {
            seat: seen,
            opening,
        };
        Ok((board, post, reader))
    }

    /// A reader that has seen the same.
    pub fn another(&self, reader: &mut Reader) -> Result<Reader, NoMemory>
        requires { reader.old.board ≡ self.now }
        ensures new { IfOk result (λ r. (r.board ≡ self.now) × (r.seen ≡ reader.old.seen)
            × (r.looks ≡ 0)) }
        ensures same { reader.new ≡ reader.old }
    {
        let opening = reader.opening;
        let seat = self.table.shared.split_seat::<Tells>(&mut reader.seat);
        Ok(Reader { seat, opening })
    }
}

impl Writer {
    /// The job and its credit.
    pub(crate) fn opening(&self) -> Opening
        ensures same { (result.job ≡ self.now.board.job) × (result.issued ≡ self.now.board.issued) }
        ensures legal { IsHistoryOf self.now.board.job self.now.board.issued self.now.history }
    {
        let board: &Board = &self.board;
        board.opening
    }

    /// The board, and a reader that has seen what the writer knows.
    pub(crate) fn seat(&mut self) -> Result<(Arc<Board>, Reader), NoMemory>
        ensures board { IfOk result (λ r. (arc_value r.0 ≡ self.old.board)
            × (r.1.board ≡ self.old.board)) }
        ensures seen { IfOk result (λ r. (r.1.seen ≡ self.old.history) × (r.1.looks ≡ 0)) }
        ensures same { self.new ≡ self.old }
    {
        let shared = Arc::try_clone(&self.board)?;
        let board: &Board = &self.board;
        let opening = board.opening;
        let seat = board.table.shared.split_seat::<Tells>(&mut self.seat);
        Ok((shared, Reader { seat, opening }))
    }
}

impl Writer {
    ghost use Rattle.credit_book.specs.History.{IsLegal};
    ghost use Rattle.credit_book.specs.Quiet.{GrowsByEnd};

    /// An empty history.
    pub(crate) fn past(&self) -> Past
        ensures { result ≡ [] }
    {
        Past::new(&self.seat)
    }

    /// Publishes a history that has grown by an end, whose sums are those of the last one and these
    /// amounts, in one step. `past` and `about` are for the proof alone: the caller's picks the
    /// history by them.
    pub(crate) fn publish<J: Chronicle, T>(&mut self, past: &Past, about: &T, amount: u64)
        requires legal { IsLegal J.history }
        requires grows { GrowsByEnd self.old.history J.history }
        requires amount { board_word J.history ≡ board_word self.old.history + amount }
        ensures board { self.new.board ≡ self.old.board }
        ensures history { self.new.history ≡ J.history }
    {
        let _ = past;
        let _ = about;
        let board: &Board = &self.board;
        board
            .table
            .shared
            .fetch_add::<Publishes<J>>(&mut self.seat, 0, amount);
    }
}
