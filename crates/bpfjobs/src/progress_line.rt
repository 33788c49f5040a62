//! One line on a terminal, which tells how far a job is while it runs.

ghost use Rattle.std.specs.Prelude.{◌≡◌, ◌≤◌};
ghost use Rattle.std.specs.Arc.{arc_value};

use bpfjobs_cli::{Answer, RunWatch, answer_run, answer_watched};
use credit_book::{Board, Reader};
use refusal::NoMemory;
use std::alloc::Global;
use std::marker::Model;
use std::sync::atomic::{AtomicU64, Ordering};
use std::sync::{Arc, Mutex, Wait};
use std::thread::Threads;
use std::time::{Clock, Duration, Instant};
use workers::Gate;

// Each line stands for so many milliseconds at least.
const PAUSE: u64 = 100;

/// The board of a job with this credit, and a reader of it.
#[derive(Drop)]
struct WatchedBoard {
    credit: u32,
    board: Arc<Board>,
    reader: Reader,
}

impl Model for WatchedBoard {
    ghost use Rattle.std.specs.Prelude.{◌≡◌};
    ghost use Rattle.std.specs.Arc.{arc_value};

    ghost Value = { Unit {0} };

    ghost view = { λ _. tt };

    ghost invariant = { λ b. (b.reader.board ≡ arc_value b.board)
        × ((arc_value b.board).issued ≡ b.credit) };
}

/// The board that the next line is of, the time of the last line, and whether there was one.
#[derive(Drop)]
struct LineState {
    read: Option<WatchedBoard>,
    last: Instant,
    is_drawn: bool,
}

/// The line of a job whose run began at `start`. So many of its tasks have ended.
#[derive(Drop)]
struct ProgressLine<'a, R> {
    rt: &'a R,
    start: Instant,
    ended: AtomicU64,
    state: Mutex<LineState>,
}

// Prints a line in the place of the last one.
fn draw<R: Eprint>(rt: &R, read: &mut WatchedBoard, ended: u64, time: Duration) {
    let WatchedBoard {
        credit,
        board,
        reader,
    } = read;
    let told = board.look(reader);
    let (spent, returned) = (told.spent, told.returned);
    let millis = time.as_millis().max(1);
    let rate = u128::from(ended) * 1000 / millis;
    let (seconds, tenths) = (millis / 1000, millis % 1000 / 100);
    let _ = eprint!(rt;
        "\r{spent} spent, {returned} returned of {credit}; {rate} tasks/s; {seconds}.{tenths} s\x1b[K"
    );
}

impl<'a, R: Eprint + Clock> ProgressLine<'a, R> {
    // No line yet, of a job that begins now.
    fn new(rt: &'a R, start: Instant) -> ProgressLine<'a, R> {
        ProgressLine {
            rt,
            start,
            ended: AtomicU64::new(0),
            state: Mutex::new(LineState {
                read: None,
                last: start,
                is_drawn: false,
            }),
        }
    }

    // Draws the line anew where the last one has stood for its time.
    fn draw_in_time(&self, state: &mut LineState, ended: u64) {
        let Ok(now) = Instant::now(self.rt) else {
            return;
        };
        if now.duration_since(state.last) < Duration::from_millis(PAUSE) {
            return;
        }
        if let Some(read) = &mut state.read {
            draw(self.rt, read, ended, now.duration_since(self.start));
            state.last = now;
            state.is_drawn = true;
        }
    }

    // Takes the last line away.
    fn wipe(self) {
        let ProgressLine { rt, state, .. } = self;
        if state.into_inner().is_drawn {
            let _ = eprint!(rt; "\r\x1b[K");
        }
    }
}

impl<R: Eprint + Clock> Gate for ProgressLine<'_, R> {
    ghost begins = { λ _ _. Unit {0} };

    ghost ends = { λ _ _. Unit {0} };

    fn before(&self, _number: u32) {}

    fn after(&self, _number: u32) {
        let ended = self.ended.fetch_add(1, Ordering::Relaxed).saturating_add(1);
        if let Some(mut state) = self.state.try_lock() {
            self.draw_in_time(&mut state, ended);
        }
    }
}

impl<R: Eprint + Clock> RunWatch for ProgressLine<'_, R> {
    ghost opens = { λ _ _. Unit {0} };

    fn opened(&self, credit: u32, board: Arc<Board>, reader: Reader) {
        if let Some(mut state) = self.state.try_lock() {
            state.read = Some(WatchedBoard {
                credit,
                board,
                reader,
            });
        }
    }
}

/// Runs a job as [`answer_run`] does. On a terminal a line tells meanwhile how far it is.
pub fn answer_shown<R: Eprint + Clock + Threads + Wait + Sync>(
    rt: &R,
    alloc: Global,
    workers: u32,
    input: &[u8],
    on_terminal: bool,
) -> Result<Answer, NoMemory>
    requires { (1 ≤ workers) × (workers ≤ 16) }
{
    if !on_terminal {
        return answer_run(rt, alloc, workers, input);
    }
    match Instant::now(rt) {
        Ok(start) => {
            let line = ProgressLine::new(rt, start);
            let answer = answer_watched(rt, alloc, workers, input, &line);
            line.wipe();
            answer
        }
        Err(_) => answer_run(rt, alloc, workers, input),
    }
}
