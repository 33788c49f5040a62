//! A job of a root and its child, worked by hand: what the book answers, what the board tells, and
//! what is left of both.

ghost use Rattle.std.specs.Prelude.{◌≡◌};

use crate::scenarios::Findings;
use anyhow::bail;
use credit_book::{Board, Book, BookFault, Outcome, Post, Progress, Reader, Report, Ticket};
use helpers::{Part, SpawnRecord};
use std::alloc::Global;

fn progress(spent: u32, returned: u32, complete: bool) -> Progress {
    Progress {
        spent,
        returned,
        complete,
    }
}

/// The end of a task of job 1 that was run, with its part.
fn end(book: &mut Book, number: u32, used: u32, part: Part) -> Result<Progress, (u8, usize)> {
    let outcome = Outcome {
        job: 1,
        number,
        used,
        r0: 0,
        ran: true,
        part,
    };
    match book.end(outcome) {
        Ok(progress) => Ok(progress),
        Err(refused) => Err((refused.fault.code(), refused.value.part.len())),
    }
}

fn none(alloc: Global) -> Part {
    Part::whole(Vec::new(alloc))
}

/// The book of a job with a credit of 34 and eight bytes, whose root has spawned a child with 10 of
/// it and the last four bytes, what the root has left, and the child's ticket.
fn family(alloc: Global, post: Post) -> anyhow::Result<(Book, Part, Ticket)> {
    let (mut book, root) = open(alloc, post)?;
    let mut part = root.into_part();
    if part.len() < 4 {
        bail!("the root has another part");
    }
    let piece = part.cut(alloc, 4)?;
    let child = SpawnRecord {
        program: 1,
        share: 10,
        arg: 9,
        part: piece,
    };
    match book.spawn(0, child) {
        Ok(ticket) => Ok((book, part, ticket)),
        Err(_) => bail!("the child is refused"),
    }
}

/// Gives two bytes of a part, the second and the third, this value.
fn mark(part: &mut Part, byte: u8) -> anyhow::Result<()> {
    if part.len() < 3 {
        bail!("the part is too short");
    }
    part.fill(1, 2, byte);
    Ok(())
}

fn open(alloc: Global, post: Post) -> anyhow::Result<(Book, Ticket)> {
    let Ok((book, root)) = Book::open(alloc, post, Part::whole(vec![in alloc; 0; 8]?)) else {
        bail!("no memory for a book");
    };
    if (
        root.job(),
        root.number(),
        root.program(),
        root.held(),
        root.arg(),
    ) != (1, 0, 0, 34, 0)
    {
        bail!("the root has another ticket");
    }
    if book.job() != 1 || root.part().len() != 8 {
        bail!("the book is another job's");
    }
    Ok((book, root))
}

/// What the board tells before a task has ended, at its own reader and at a second seat.
fn nothing_is_spent_yet(
    board: &Board,
    reader: &mut Reader,
    post: &mut Post,
    findings: &mut Findings,
) -> anyhow::Result<()>
    requires { reader.old.board ≡ board.now }
    ensures { reader.new.board ≡ board.now }
{
    let (seated, mut other) = post.seat()?;
    let seated: &Board = &seated;
    let first = seated.look(&mut other);
    findings.holds(first == progress(0, 0, false), "nothing is spent yet (1)");
    let second = board.look(reader);
    findings.holds(second == progress(0, 0, false), "nothing is spent yet (2)");
    Ok(())
}

/// The child's ticket, as the root asked for it.
fn child_has_its_ticket(child: &Ticket, findings: &mut Findings) {
    let told = (
        child.number(),
        child.program(),
        child.held(),
        child.arg(),
        child.part().len(),
    );
    findings.holds(told == (1, 1, 10, 9, 4), "a child has its ticket");
}

/// Ends of a task that isn't there, and of more than the root held.
fn ends_are_refused(alloc: Global, book: &mut Book, findings: &mut Findings) {
    let unknown = end(book, 7, 0, none(alloc));
    findings.holds(unknown == Err((51, 0)), "ends are refused (1)");
    let over = end(book, 0, 25, none(alloc));
    findings.holds(over == Err((52, 0)), "ends are refused (2)");
}

/// The root ends once, and its bytes lie in the buffer.
fn root_ends(
    alloc: Global,
    book: &mut Book,
    mut root: Part,
    findings: &mut Findings,
) -> anyhow::Result<()> {
    mark(&mut root, 6)?;
    let first = end(book, 0, 24, root);
    findings.holds(first == Ok(progress(24, 0, false)), "a root ends (1)");
    let told = book.progress();
    findings.holds(told == progress(24, 0, false), "a root ends (2)");
    let is_collected = book.collected() == [0, 6, 6, 0, 0, 0, 0, 0].as_slice();
    findings.holds(is_collected, "a root ends (3)");
    let second = end(book, 0, 24, none(alloc));
    findings.holds(second == Err((51, 0)), "a root ends (4)");
    findings.holds(book.report().is_none(), "a root ends (5)");
    Ok(())
}

/// The child ends, and the job is complete.
fn child_ends(book: &mut Book, child: Ticket, findings: &mut Findings) -> anyhow::Result<()> {
    let mut part = child.into_part();
    mark(&mut part, 9)?;
    let last = end(book, 1, 3, part);
    findings.holds(last == Ok(progress(27, 7, true)), "a child ends");
    Ok(())
}

/// What the board tells then, at its reader and at another.
fn board_tells_the_end(
    board: &Board,
    reader: &mut Reader,
    findings: &mut Findings,
) -> anyhow::Result<()>
    requires { reader.old.board ≡ board.now }
{
    let told = board.look(reader);
    findings.holds(told == progress(27, 7, true), "a board tells the end (1)");
    let mut other = board.another(reader)?;
    let again = board.look(&mut other);
    findings.holds(again == progress(27, 7, true), "a board tells the end (2)");
    Ok(())
}

/// The report of both tasks.
fn report_has_both(report: &Report, findings: &mut Findings) -> anyhow::Result<()> {
    let sums = (report.spent, report.returned);
    findings.holds(sums == (27, 7), "a report has both (1)");
    let is_buffer = report.buffer.as_slice() == [0, 6, 6, 0, 0, 9, 9, 0].as_slice();
    findings.holds(is_buffer, "a report has both (2)");
    let [first, second] = report.tasks.as_slice() else {
        bail!("there aren't two tasks");
    };
    let root = (
        first.number,
        first.given,
        first.spent,
        first.rest,
        first.ran,
    );
    findings.holds(root == (0, 34, 24, 0, true), "a report has both (3)");
    let child = (
        second.number,
        second.program,
        second.arg,
        second.given,
        second.spent,
        second.rest,
    );
    findings.holds(child == (1, 1, 9, 10, 3, 7), "a report has both (4)");
    Ok(())
}

/// The book of a job whose root has ended, and the child's ticket.
fn after_the_root(
    alloc: Global,
    board: &Board,
    mut post: Post,
    reader: &mut Reader,
    findings: &mut Findings,
) -> anyhow::Result<(Book, Ticket)>
    requires { reader.old.board ≡ board.now }
    ensures { reader.new.board ≡ board.now }
{
    nothing_is_spent_yet(board, reader, &mut post, findings)?;
    let (mut book, root, child) = family(alloc, post)?;
    child_has_its_ticket(&child, findings);
    ends_are_refused(alloc, &mut book, findings);
    root_ends(alloc, &mut book, root, findings)?;
    let told = board.look(reader);
    let is_told = told == progress(24, 0, false);
    findings.holds(is_told, "two tasks are spent and returned (1)");
    Ok((book, child))
}

/// The report of a book whose child is the last task.
fn closed(book: Book, child: Ticket, findings: &mut Findings) -> anyhow::Result<Report> {
    let Err(mut book) = book.close() else {
        bail!("the book is closed while a task is alive");
    };
    child_ends(&mut book, child, findings)?;
    match book.close() {
        Ok(report) => Ok(report),
        Err(_) => bail!("the book isn't closed"),
    }
}

fn two_tasks_are_spent_and_returned(alloc: Global, findings: &mut Findings) -> anyhow::Result<()> {
    let (board, post, mut reader) = Board::open(alloc, 1, 34)?;
    let (book, child) = after_the_root(alloc, &board, post, &mut reader, findings)?;
    let report = closed(book, child, findings)?;
    board_tells_the_end(&board, &mut reader, findings)?;
    report_has_both(&report, findings)
}

/// Parks a child, which can't end then, and claims it.
fn claimed(
    alloc: Global,
    book: &mut Book,
    child: Ticket,
    findings: &mut Findings,
) -> anyhow::Result<Ticket> {
    let is_parked = book.park(child).is_ok();
    findings.holds(is_parked, "a parked task is claimed once (1)");
    let ended = end(book, 1, 3, none(alloc));
    findings.holds(ended == Err((51, 0)), "a parked task is claimed once (2)");
    match book.claim() {
        Some(child) => Ok(child),
        None => bail!("nothing is parked"),
    }
}

/// Why a ticket isn't parked, and how many bytes come back with it.
fn not_parked(book: &mut Book, ticket: Ticket) -> Option<(u8, usize)> {
    match book.park(ticket) {
        Ok(()) => None,
        Err(refused) => Some((refused.fault.code(), refused.value.part().len())),
    }
}

fn a_parked_task_is_claimed_once(alloc: Global, findings: &mut Findings) -> anyhow::Result<()> {
    let (_board, post, _reader) = Board::open(alloc, 1, 34)?;
    let (mut book, _root, child) = family(alloc, post)?;
    let child = claimed(alloc, &mut book, child, findings)?;
    let told = (
        child.number(),
        child.held(),
        child.arg(),
        child.part().len(),
    );
    findings.holds(told == (1, 10, 9, 4), "a parked task is claimed once (3)");
    let again = not_parked(&mut book, child);
    findings.holds(again == Some((51, 4)), "a parked task is claimed once (4)");
    findings.holds(book.claim().is_none(), "a parked task is claimed once (5)");
    Ok(())
}

/// The number of a child with this share and a byte, or why there is none, and how many bytes come
/// back.
fn spawned(
    alloc: Global,
    book: &mut Book,
    parent: u32,
    share: u32,
) -> anyhow::Result<Result<u32, (u8, usize)>> {
    let record = SpawnRecord {
        program: 2,
        share,
        arg: 0,
        part: Part::whole(vec![in alloc; 5]?),
    };
    match book.spawn(parent, record) {
        Ok(ticket) => Ok(Ok(ticket.number())),
        Err(refused) => Ok(Err((refused.fault.code(), refused.value.part.len()))),
    }
}

fn shares_are_more_than_nothing_and_less_than_all(
    alloc: Global,
    findings: &mut Findings,
) -> anyhow::Result<()> {
    let (_board, post, _reader) = Board::open(alloc, 1, 34)?;
    let (mut book, _root, _child) = family(alloc, post)?;
    for (parent, share, want) in [
        (0, 0, Err((53, 1))),
        (0, 24, Err((53, 1))),
        (0, 23, Ok(2)),
        (0, 1, Err((53, 1))),
        (7, 1, Err((51, 1))),
    ] {
        let told = spawned(alloc, &mut book, parent, share)?;
        findings.holds(
            told == want,
            "shares are more than nothing and less than all (1)",
        );
    }
    findings.holds(
        BookFault::NoMemory.code() == 99,
        "shares are more than nothing and less than all (2)",
    );
    Ok(())
}

/// Goes through all of it.
pub fn go_through(alloc: Global, findings: &mut Findings) -> anyhow::Result<()> {
    two_tasks_are_spent_and_returned(alloc, findings)?;
    a_parked_task_is_claimed_once(alloc, findings)?;
    shares_are_more_than_nothing_and_less_than_all(alloc, findings)
}
