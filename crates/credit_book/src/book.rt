//! The book of a job: which tasks are alive, what they hold, and what was spent and returned.
ghost use Rattle.std.specs.Prelude.{◌≡◌, ◌+◌, ◌-◌, ◌<◌, ◌≤◌, ◌↔◌, [], ◌∷◌, ◌++◌, length, replicate, slice_index_or, slice_set, true, vec_capacity, IfOk, OnOk, IfSome, IfNone, IsSome, IsOk, IfErr, IsTrue};
ghost use Rattle.credit_book.specs.declared.event.Stage.TheVariants.{Ended, Fresh};
ghost use Rattle.std.specs.VecDeque.{deque_capacity, deque_len};
ghost use Rattle.credit_book.specs.declared.event.Event.TheVariants.{Open, Park, Claim};
ghost use Rattle.credit_book.specs.History.{IsHistoryOf, IsComplete, May, is_fresh, may_work, table_of, spent_in, returned_in, board_word};
ghost use Rattle.credit_book.specs.Tasks.{no_task, ended_task, blank_task};

use crate::board::{Post, Progress, Writer};
use crate::event::{Stage, Standing, TaskEnd};
use crate::fault::{BookFault, Refused, Unopened};
use crate::past::Past;
use crate::task::{Outcome, Ticket};
use helpers::{Part, SpawnRecord};
use refusal::NoMemory;
use std::alloc::Global;
use std::collections::VecDeque;
use std::marker::{Brand, Model};

/// What a job came to.
#[derive(Drop)]
pub struct Report {
    pub spent: u32,
    pub returned: u32,
    pub buffer: Vec<u8>,
    pub tasks: Vec<TaskEnd>,
}

/// The tasks of a job. A book lies under the job's lock.
#[derive(Drop)]
pub struct Book {
    writer: Writer,
    past: Past,
    report: Report,
    standings: Vec<Standing>,
    parked: VecDeque<Ticket>,
}

impl Model for Book {
    ghost use Rattle.std.specs.Prelude.{map, length, ◌≤◌};
    ghost use Rattle.std.specs.VecDeque.{deque_capacity};
    ghost use Rattle.credit_book.specs.Books.{BookState, IsBook, IsPosted};
    ghost use Rattle.credit_book.specs.Buffers.{IsLeftBuffer};

    ghost Value = { BookState };

    ghost view = { λ b. record {
      board = b.writer.board;
      history = b.past;
      size = length b.report.buffer.items;
      waiting = b.parked.items;
    } };

    ghost invariant = { λ b. IsBook b.writer.board b.past b.standings.items b.report.tasks.items
        (map (λ t. t.number) b.parked.items) b.report.spent b.report.returned
        × (length b.standings.items ≤ deque_capacity b.parked) × IsPosted b.writer.history b.past
        × IsLeftBuffer b.report.buffer.items b.past };
}

impl Stage {
    /// Alive, and not parked.
    pub fn may_work(self) -> bool
        ensures { result ≡ may_work self }
    {
        matches!(self, Stage::Fresh | Stage::Claimed)
    }
}

impl Stage {
    /// Neither parked nor run so far.
    pub fn is_fresh(self) -> bool
        ensures { result ≡ is_fresh self }
    {
        matches!(self, Stage::Fresh)
    }
}

fn standing_of(standings: &[Standing], number: u32) -> Standing
    ensures { result ≡ slice_index_or standings.now number (record { held = 0; stage = Ended }) }
{
    match standings.get(number as usize) {
        Some(standing) => *standing,
        None => Standing {
            held: 0,
            stage: Stage::Ended,
        },
    }
}

fn end_task(tasks: &mut Vec<TaskEnd>, outcome: &Outcome, rest: u32)
    requires { outcome.now.number < length tasks.old.items }
    ensures items { tasks.new.items
        ≡ slice_set tasks.old.items outcome.now.number
        (ended_task (slice_index_or tasks.old.items outcome.now.number no_task) outcome.now
        rest) }
    ensures room { vec_capacity tasks.new ≡ vec_capacity tasks.old }
{
    let number = outcome.number as usize;
    let task = tasks[number];
    tasks[number] = TaskEnd {
        spent: outcome.used,
        rest,
        r0: outcome.r0,
        ran: outcome.ran,
        ..task
    };
}

impl Book {
    ghost use Rattle.credit_book.specs.Books.{IsEndFault, end_event};

    /// Ends a task: what it used is spent, the rest of what it held comes back.
    pub fn end(&mut self, outcome: Outcome) -> Result<Progress, Refused<Outcome>>
        ensures done { IfOk result (λ p. (self.new.board ≡ self.old.board)
            × (self.new.size ≡ self.old.size) × (self.new.waiting ≡ self.old.waiting)
            × (outcome.job ≡ self.old.board.job)
            × (self.new.history ≡ self.old.history ++ end_event outcome ∷ [])) }
        ensures legal { IfOk result
            (λ _. IsHistoryOf self.new.board.job self.new.board.issued self.new.history) }
        ensures totals { IfOk result (λ p. (p.spent ≡ spent_in (table_of self.new.history))
            × (p.returned ≡ returned_in (table_of self.new.history))) }
        ensures complete { IfOk result (λ p. IsTrue p.complete
            ↔ IsComplete (table_of self.new.history)) }
        ensures refused { IfErr result (λ r. (self.new ≡ self.old) × (r.value ≡ outcome)
            × IsEndFault self.old outcome r.fault) }
    {
        let opening = self.writer.opening();
        let number = outcome.number as usize;
        let standing = standing_of(self.standings.as_slice(), outcome.number);
        if outcome.job != opening.job || !standing.stage.may_work() {
            return Err(Refused::of(BookFault::Stranger, outcome));
        }
        if outcome.used > standing.held {
            return Err(Refused::of(BookFault::OverSpent, outcome));
        }
        let rest = standing.held - outcome.used;
        self.standings[number] = Standing {
            held: 0,
            stage: Stage::Ended,
        };
        end_task(&mut self.report.tasks, &outcome, rest);
        outcome.part.copy_within(&mut self.report.buffer);
        self.report.spent += outcome.used;
        self.report.returned += rest;
        let amount = (u64::from(rest) << 32) + u64::from(outcome.used);
        self.writer
            .publish::<Brand, Outcome>(&self.past, &outcome, amount);
        self.past.add::<Brand, Outcome>(outcome.number, &outcome);
        Ok(Progress {
            spent: self.report.spent,
            returned: self.report.returned,
            complete: self.report.spent + self.report.returned == opening.issued,
        })
    }
}

// The lists of a book and its queue, with room for the root's task, and its buffer of zeros.
fn first_rooms(
    alloc: Global,
    size: usize,
) -> Result<(Vec<Standing>, Vec<TaskEnd>, VecDeque<Ticket>, Vec<u8>), NoMemory>
    ensures lists { IfOk result (λ r. (r.0.items ≡ []) × (0 < vec_capacity r.0)
        × (r.1.items ≡ []) × (0 < vec_capacity r.1)) }
    ensures queue { IfOk result (λ r. (r.2.items ≡ []) × (1 ≤ deque_capacity r.2)) }
    ensures buffer { IfOk result (λ r. r.3.items ≡ replicate size 0) }
{
    let standings = Vec::with_capacity(alloc, 1)?;
    let tasks = Vec::with_capacity(alloc, 1)?;
    let parked = VecDeque::with_capacity(alloc, 1)?;
    let buffer = vec![in alloc; 0; size]?;
    Ok((standings, tasks, parked, buffer))
}

// Makes room for a task more: in the lists, and in the queue for all tasks.
fn reserve_task(
    standings: &mut Vec<Standing>,
    tasks: &mut Vec<TaskEnd>,
    parked: &mut VecDeque<Ticket>,
) -> Result<(), NoMemory>
    ensures items { (standings.new.items ≡ standings.old.items)
        × (tasks.new.items ≡ tasks.old.items) × (parked.new.items ≡ parked.old.items) }
    ensures kept { deque_capacity parked.old ≤ deque_capacity parked.new }
    ensures room { OnOk result ((length standings.new.items < vec_capacity standings.new)
        × (length tasks.new.items < vec_capacity tasks.new)
        × (length standings.old.items + 1 ≤ deque_capacity parked.new)) }
{
    standings.reserve(1)?;
    tasks.reserve(1)?;
    let wanted = (standings.len() + 1).saturating_sub(parked.len());
    parked.reserve(wanted)?;
    Ok(())
}

// Leaves the parent what its child doesn't take, and makes the child's standing.
fn share_out(standings: &mut Vec<Standing>, parent: u32, standing: Standing, share: u32)
    requires there { parent < length standings.old.items }
    requires room { length standings.old.items < vec_capacity standings.old }
    requires covered { share ≤ standing.held }
    ensures { standings.new.items
        ≡ slice_set standings.old.items parent
        (record { held = standing.held - share; stage = standing.stage })
        ++ record { held = share; stage = Fresh } ∷ [] }
{
    standings[parent as usize] = Standing {
        held: standing.held - share,
        stage: standing.stage,
    };
    standings.push_reserved(Standing {
        held: share,
        stage: Stage::Fresh,
    });
}

impl Book {
    ghost use Rattle.credit_book.specs.Books.{IsReport, root_ticket};
    ghost use Rattle.credit_book.specs.Buffers.{buffer_of};

    /// The book with the root's task alone, which holds all the credit. Where there is no memory
    /// for it (99), the post and the part come back as they were.
    pub fn open(alloc: Global, post: Post, root: Part) -> Result<(Book, Ticket), Unopened>
        ensures book { IfOk result (λ r. (r.0.board ≡ post.board) × (r.0.history ≡ post.history)
            × (r.0.size ≡ length root.bytes) × (r.0.waiting ≡ [])) }
        ensures opened { IfOk result (λ r. (r.0.history
            ≡ Open post.board.job post.board.issued ∷ [])
            × IsHistoryOf post.board.job post.board.issued r.0.history) }
        ensures ticket { IfOk result (λ r. r.1
            ≡ root_ticket post.board.job post.board.issued root) }
        ensures refused { IfErr result (λ r. (r.post ≡ post) × (r.root ≡ root)) }
    {
        let Ok((mut standings, mut tasks, parked, buffer)) = first_rooms(alloc, root.len()) else {
            return Err(Unopened { post, root });
        };
        let writer = post.into_writer();
        let opening = writer.opening();
        let mut past = writer.past();
        past.add::<Brand, u64>(opening.issued, &opening.job);
        standings.push_reserved(Standing {
            held: opening.issued,
            stage: Stage::Fresh,
        });
        tasks.push_reserved(new_task(0, 0, 0, opening.issued));
        let report = Report {
            spent: 0,
            returned: 0,
            buffer,
            tasks,
        };
        let book = Book {
            writer,
            past,
            report,
            standings,
            parked,
        };
        let ticket = Ticket {
            job: opening.job,
            number: 0,
            program: 0,
            held: opening.issued,
            arg: 0,
            part: root,
        };
        Ok((book, ticket))
    }

    /// The number of the job.
    pub fn job(&self) -> u64
        ensures job { result ≡ self.now.board.job }
        ensures legal { IsHistoryOf self.now.board.job self.now.board.issued self.now.history }
    {
        self.writer.opening().job
    }

    /// The credit that was issued for it.
    pub fn issued(&self) -> u32
        ensures issued { result ≡ self.now.board.issued }
        ensures legal { IsHistoryOf self.now.board.job self.now.board.issued self.now.history }
    {
        self.writer.opening().issued
    }

    /// How many tasks there are, those that have ended among them. Their numbers run from 0.
    pub fn count(&self) -> u32
        ensures { result ≡ length (table_of self.now.history).standings }
    {
        self.standings.len() as u32
    }

    /// What the tasks that ended have left in the job's buffer so far.
    pub fn collected(&self) -> &[u8]
        ensures buffer { result.now ≡ buffer_of self.now.size self.now.history }
        ensures legal { IsHistoryOf self.now.board.job self.now.board.issued self.now.history }
    {
        &self.report.buffer
    }

    /// What was spent and returned so far.
    pub fn progress(&self) -> Progress
        ensures totals { (result.spent ≡ spent_in (table_of self.now.history))
            × (result.returned ≡ returned_in (table_of self.now.history)) }
        ensures complete { IsTrue result.complete ↔ IsComplete (table_of self.now.history) }
        ensures legal { IsHistoryOf self.now.board.job self.now.board.issued self.now.history }
    {
        let complete = self.is_complete();
        Progress {
            spent: self.report.spent,
            returned: self.report.returned,
            complete,
        }
    }

    // No task is alive.
    fn is_complete(&self) -> bool
        ensures { IsTrue result ↔ IsComplete (table_of self.now.history) }
    {
        let opening = self.writer.opening();
        self.report.spent + self.report.returned == opening.issued
    }

    /// What the job came to, where no task is alive.
    pub fn report(&self) -> Option<&Report>
        ensures variant { IsSome result ↔ IsComplete (table_of self.now.history) }
        ensures report { IfSome result (λ r. IsReport self.now.size self.now.history r.now) }
        ensures legal { IfSome result
            (λ _. IsHistoryOf self.now.board.job self.now.board.issued self.now.history) }
    {
        if self.is_complete() {
            Some(&self.report)
        } else {
            None
        }
    }

    /// The report, for the book. The book comes back where a task is alive.
    pub fn close(self) -> Result<Report, Book>
        ensures variant { IsOk result ↔ IsComplete (table_of self.history) }
        ensures report { IfOk result (λ r. IsReport self.size self.history r) }
        ensures legal { IfOk result (λ _.
            IsHistoryOf self.board.job self.board.issued self.history) }
        ensures same { IfErr result (λ b. b ≡ self) }
    {
        if !self.is_complete() {
            return Err(self);
        }
        let Book { report, .. } = self;
        Ok(report)
    }
}

impl Book {
    ghost use Rattle.credit_book.specs.Books.{IsParkFault, IsSpawnFault, spawn_event, ticket_of};

    /// Keeps the ticket of a task that has not run.
    pub fn park(&mut self, ticket: Ticket) -> Result<(), Refused<Ticket>>
        ensures done { IfOk result (λ _. (self.new.board ≡ self.old.board)
            × (self.new.size ≡ self.old.size)
            × (self.new.waiting ≡ self.old.waiting ++ ticket ∷ [])
            × (ticket.job ≡ self.old.board.job)
            × (self.new.history ≡ self.old.history ++ Park ticket.number ∷ [])) }
        ensures legal { IfOk result
            (λ _. IsHistoryOf self.new.board.job self.new.board.issued self.new.history) }
        ensures refused { IfErr result (λ r. (self.new ≡ self.old) × (r.value ≡ ticket)
            × IsParkFault self.old ticket r.fault) }
    {
        let opening = self.writer.opening();
        let number = ticket.number as usize;
        let standing = standing_of(self.standings.as_slice(), ticket.number);
        if ticket.job != opening.job || !standing.stage.is_fresh() {
            return Err(Refused::of(BookFault::Stranger, ticket));
        }
        self.standings[number] = Standing {
            held: standing.held,
            stage: Stage::Parked,
        };
        self.past.add::<Brand, ()>(ticket.number, &());
        self.parked.push_back_reserved(ticket);
        Ok(())
    }

    /// The ticket that was parked first.
    pub fn claim(&mut self) -> Option<Ticket>
        ensures some { IfSome result (λ t. (self.new.board ≡ self.old.board)
            × (self.new.size ≡ self.old.size) × (self.old.waiting ≡ t ∷ self.new.waiting)
            × (self.new.history ≡ self.old.history ++ Claim t.number ∷ [])) }
        ensures legal { IfSome result
            (λ _. IsHistoryOf self.new.board.job self.new.board.issued self.new.history) }
        ensures none { IfNone result ((self.old.waiting ≡ [])
            × ((table_of self.old.history).queue ≡ []) × (self.new ≡ self.old)) }
    {
        let ticket = self.parked.pop_front()?;
        let number = ticket.number as usize;
        let standing = standing_of(self.standings.as_slice(), ticket.number);
        self.standings[number] = Standing {
            held: standing.held,
            stage: Stage::Claimed,
        };
        self.past.add::<Brand, ()>(ticket.number, &());
        Some(ticket)
    }

    /// A new task, with a share of its parent's credit.
    pub fn spawn(&mut self, parent: u32, asked: SpawnRecord) -> Result<Ticket, Refused<SpawnRecord>>
        ensures done { let child = length (table_of self.old.history).standings in IfOk result
            (λ t. (self.new.board ≡ self.old.board) × (self.new.size ≡ self.old.size)
            × (self.new.waiting ≡ self.old.waiting)
            × (t ≡ ticket_of self.old.board.job child asked)
            × (self.new.history ≡ self.old.history ++ spawn_event parent child asked ∷ [])) }
        ensures legal { IfOk result
            (λ _. IsHistoryOf self.new.board.job self.new.board.issued self.new.history) }
        ensures refused { IfErr result (λ r. (self.new ≡ self.old) × (r.value ≡ asked)
            × IsSpawnFault self.old parent asked r.fault) }
    {
        let opening = self.writer.opening();
        let standing = standing_of(self.standings.as_slice(), parent);
        if !standing.stage.may_work() {
            return Err(Refused::of(BookFault::Stranger, asked));
        }
        if asked.share == 0 || asked.share >= standing.held {
            return Err(Refused::of(BookFault::CreditLow, asked));
        }
        if reserve_task(
            &mut self.standings,
            &mut self.report.tasks,
            &mut self.parked,
        )
        .is_err()
        {
            return Err(Refused::of(BookFault::NoMemory, asked));
        }
        let child = self.standings.len() as u32;
        let SpawnRecord {
            program,
            share,
            arg,
            part,
        } = asked;
        share_out(&mut self.standings, parent, standing, share);
        self.report
            .tasks
            .push_reserved(new_task(child, program, arg, share));
        let ticket = Ticket {
            job: opening.job,
            number: child,
            program,
            held: share,
            arg,
            part,
        };
        self.past.add::<Brand, Ticket>(parent, &ticket);
        Ok(ticket)
    }
}

fn new_task(number: u32, program: u16, arg: u64, given: u32) -> TaskEnd
    ensures { result ≡ blank_task number program arg given }
{
    TaskEnd {
        number,
        program,
        arg,
        given,
        spent: 0,
        rest: 0,
        r0: 0,
        ran: false,
    }
}
