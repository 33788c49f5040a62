//! What a look at a job, a task that is parked and claimed, and a task that is spawned and ends
//! take.

ghost use Rattle.std.specs.Prelude.{◌≡◌};
ghost use Rattle.std.specs.Arc.{arc_value};

use anyhow::bail;
use assembler::assemble;
use credit_book::{Board, Book, Progress, Reader, Ticket};
use helpers::{Part, SpawnRecord};
use job_core::{ProgramBytes, admit, play};
use std::alloc::Global;
use std::io::Write;
use std::rt::Clock;
use std::sync::Arc;
use std::time::{Duration, Instant};

/// How often each round is run.
const ROUNDS: u32 = 50;

const LOOKS: u32 = 100_000;

/// How many tickets a round moves.
pub(crate) const TICKETS: u32 = 10_000;

/// So many children fit into a program, each spawned by five instructions.
const CHILDREN: u32 = 800;

/// A board and a reader of it.
#[derive(Drop)]
struct BoardReader {
    board: Arc<Board>,
    reader: Reader,
    ghost same: { reader.board ≡ arc_value board },
}

impl BoardReader {
    fn look(&mut self) -> Progress {
        let board: &Board = &self.board;
        board.look(&mut self.reader)
    }
}

/// The time of so many looks, the quickest of all rounds.
fn looked<C: Clock>(clock: &C, alloc: Global) -> anyhow::Result<Duration> {
    let mut quickest = Duration::MAX;
    for _ in 0..ROUNDS {
        let (_board, mut post, _reader) = Board::open(alloc, 1, 34)?;
        let (board, reader) = post.seat()?;
        let mut looker = BoardReader { board, reader };
        let start = Instant::now(clock)?;
        for _ in 0..LOOKS {
            let _ = looker.look();
        }
        quickest = quickest.min(start.elapsed(clock)?);
    }
    Ok(quickest)
}

/// A book with so many tasks that wait.
pub(crate) fn spawned(alloc: Global, tickets: &mut Vec<Ticket>) -> anyhow::Result<Book> {
    let (_board, post, _reader) = Board::open(alloc, 1, 2 * TICKETS)?;
    let Ok((mut book, _root)) = Book::open(alloc, post, Part::whole(Vec::new(alloc))) else {
        bail!("no memory for a book");
    };
    for _ in 0..TICKETS {
        let record = SpawnRecord {
            program: 0,
            share: 1,
            arg: 0,
            part: Part::whole(Vec::new(alloc)),
        };
        if let Ok(ticket) = book.spawn(0, record) {
            tickets.push(ticket)?;
        }
    }
    Ok(book)
}

/// The time in which so many tasks are parked and claimed again, the quickest of all rounds.
fn parked<C: Clock>(clock: &C, alloc: Global) -> anyhow::Result<Duration> {
    let mut quickest = Duration::MAX;
    for _ in 0..ROUNDS {
        let mut tickets = Vec::new(alloc);
        let mut book = spawned(alloc, &mut tickets)?;
        let start = Instant::now(clock)?;
        for ticket in tickets {
            drop(book.park(ticket));
        }
        for _ in 0..TICKETS {
            drop(book.claim());
        }
        quickest = quickest.min(start.elapsed(clock)?);
    }
    Ok(quickest)
}

/// The root spawns its children, which end at once.
fn family(alloc: Global) -> anyhow::Result<[ProgramBytes; 2]> {
    let mut source = String::new(alloc);
    for _ in 0..CHILDREN {
        source.push_str("mov64 r1, 1\nmov64 r2, 2\nmov64 r3, 0\nmov64 r4, 0\ncall 1\n")?;
    }
    source.push_str("exit\n")?;
    let root = assemble(alloc, source.as_str())?;
    let child = assemble(alloc, "mov64 r0, 0\nexit\n")?;
    Ok([
        ProgramBytes {
            need: 0,
            code: root,
        },
        ProgramBytes {
            need: 0,
            code: child,
        },
    ])
}

/// The time in which so many children are spawned and end, the quickest of all rounds.
fn played<C: Clock>(clock: &C, alloc: Global) -> anyhow::Result<Duration> {
    let programs = family(alloc)?;
    let mut numbers = vec![in alloc; 0u32; 4001]?;
    for child in 1..=CHILDREN {
        numbers.push(child)?;
        numbers.push(child)?;
    }
    let mut quickest = Duration::MAX;
    for _ in 0..ROUNDS {
        let job = admit(alloc, &programs, 20_000, Vec::new(alloc))?;
        let start = Instant::now(clock)?;
        let world = play(alloc, job, &numbers)?;
        quickest = quickest.min(start.elapsed(clock)?);
        drop(world);
    }
    Ok(quickest)
}

/// Prints a time divided by how often it was done, in nanoseconds.
pub(crate) fn print_each<W: Write>(
    output: &mut W,
    what: &str,
    whole: Duration,
    times: u32,
) -> anyhow::Result<()> {
    let tenths = whole.as_nanos().saturating_mul(10) / u128::from(times.max(1));
    let (units, rest) = (tenths / 10, tenths % 10);
    writeln!(output, "{what}: {units}.{rest} ns")?;
    Ok(())
}

/// Prints what calls on a job's credit take.
pub fn print_book_times<C: Clock, W: Write>(
    clock: &C,
    alloc: Global,
    output: &mut W,
) -> anyhow::Result<()> {
    print_each(output, "a look", looked(clock, alloc)?, LOOKS)?;
    print_each(
        output,
        "a task parked and claimed",
        parked(clock, alloc)?,
        TICKETS,
    )?;
    print_each(
        output,
        "a task spawned, run for two steps and ended",
        played(clock, alloc)?,
        CHILDREN,
    )
}
