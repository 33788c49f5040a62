//! Threads that look at a board while its job runs.

ghost use Rattle.std.specs.Prelude.{◌≡◌};
ghost use Rattle.std.specs.Arc.{arc_value};

use credit_book::{Board, Post, Progress, Reader};
use refusal::NoMemory;
use std::sync::atomic::{AtomicBool, Ordering};
use std::sync::{Arc, Wait};

/// A board and a reader of it.
#[derive(Drop)]
pub struct Looker {
    board: Arc<Board>,
    reader: Reader,
    ghost same: { reader.board ≡ arc_value board },
}

impl Looker {
    /// One that has seen the opening alone.
    pub fn at(post: &mut Post) -> Result<Looker, NoMemory>
        ensures { post.new ≡ post.old }
    {
        let (board, reader) = post.seat()?;
        Ok(Looker { board, reader })
    }

    /// Looks once.
    pub fn look(&mut self) -> Progress {
        let board: &Board = &self.board;
        board.look(&mut self.reader)
    }
}

/// Whether a look may follow another, of a job with so much credit.
fn follows(before: Progress, now: Progress, issued: u32) -> bool {
    before.spent <= now.spent
        && before.returned <= now.returned
        && (now.complete || !before.complete)
        && (!now.complete || now.spent.wrapping_add(now.returned) == issued)
}

/// Looks until the job is over and once more, and raises an alarm where a look goes back, or says
/// complete with less than what was issued, or the last one doesn't say complete.
pub fn looks<R: Wait>(
    rt: &R,
    looker: Looker,
    is_over: &AtomicBool,
    alarm: &AtomicBool,
    issued: u32,
) {
    let mut looker = looker;
    let mut last = looker.look();
    for _ in rt.forever() {
        let was_over = is_over.load(Ordering::SeqCst);
        let now = looker.look();
        if !follows(last, now, issued) || (was_over && !now.complete) {
            alarm.store(true, Ordering::SeqCst);
        }
        last = now;
        if was_over {
            break;
        }
    }
}
