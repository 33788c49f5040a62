//! What is kept of a live task.

ghost use Rattle.std.specs.Prelude.{◌≡◌, ℕ, ◌≤◌, ◌<◌, ◌^◌, length, IfOk};
ghost use Rattle.helpers.specs.Piece.{Piece};
ghost use Rattle.interpreter.specs.Representation.{IsCovered, entry_frame, at_slot, out_of, slot_after, zeroed};
ghost use Rattle.interpreter.specs.StepEffectForAll.{StepEffectForAll, StepEffectAndRefusalForAll};
ghost use Rattle.interpreter.specs.Stretch as stretch;
ghost use Rattle.interpreter.specs.Children.{MayHandOver};
ghost use Rattle.job_core.specs.Living.{Living};

use credit_book::Ticket;
use helpers::{Part, Spawner};
use interpreter::{ControlPoint, Credit, Frame, Ran};
use refusal::NoMemory;
use std::alloc::Global;
use std::marker::Model;
use verifier::Verified;

/// The number of a task's program, its frame and its part. The frame's own slot says nothing here.
#[derive(Drop)]
struct Body {
    program: u16,
    frame: Frame,
    part: Part,
}

/// A place for a task that starts: a frame of zeros, in a box.
#[derive(Drop)]
pub struct Vacant {
    body: Box<Body>,
    ghost fresh: { body.value.frame ≡ zeroed },
}

impl Vacant {
    /// A place in memory of its own.
    pub fn new(alloc: Global) -> Result<Vacant, NoMemory> {
        let body = Body {
            program: 0,
            frame: Frame::zeroed(),
            part: Part::whole(Vec::new(alloc)),
        };
        Ok(Vacant {
            body: Box::new(alloc, body)?,
        })
    }

    /// Starts the task of a ticket in it.
    pub fn enter(self, ticket: Ticket) -> Live
        ensures program { result.program ≡ ticket.program }
        ensures frame { result.frame ≡ entry_frame (length ticket.part.bytes) ticket.arg }
        ensures part { result.part ≡ ticket.part }
        ensures credit { result.credit ≡ record { held = ticket.held; used = 0 } }
        ensures arg { ticket.arg < 2 ^ 64 }
    {
        let Vacant { mut body } = self;
        let credit = Credit {
            held: ticket.held(),
            used: 0,
        };
        body.program = ticket.program();
        body.frame.enter(ticket.part().len() as u32, ticket.arg());
        body.part = ticket.into_part();
        Live {
            slot: 0,
            credit,
            body,
        }
    }
}

/// A live task: the slot of its next instruction and its credit, which each step changes, and the
/// rest in a box. A run of steps takes it from its place, which moves a few words, and holds these
/// two in registers.
#[derive(Drop)]
pub struct Live {
    slot: u32,
    credit: Credit,
    body: Box<Body>,
}

impl Model for Live {
    ghost use Rattle.interpreter.specs.Representation.{at_slot};
    ghost use Rattle.job_core.specs.Living.{Living};

    ghost Value = { Living };

    ghost view = { λ l. record {
      program = l.body.value.program;
      frame = at_slot l.body.value.frame l.slot;
      part = l.body.value.part;
      credit = l.credit;
    } };
}

impl Live {
    ghost use Rattle.interpreter.specs.declared.frame.ControlPoint.TheVariants as ControlPoint;

    /// The number of the task's program.
    pub fn program(&self) -> u16
        ensures { result ≡ self.now.program }
    {
        self.body.program
    }

    /// The task's part of the buffer.
    pub fn part(&self) -> &Part
        ensures { result.now ≡ self.now.part }
    {
        &self.body.part
    }

    /// The task's part, once it has ended.
    pub fn into_part(self) -> Part
        ensures { result ≡ self.part }
    {
        let Live { body, .. } = self;
        let Body { part, .. } = Box::into_inner(body);
        part
    }

    /// The credit that it holds, and what it has used of it.
    pub fn credit(&self) -> Credit
        ensures { result ≡ self.now.credit }
    {
        self.credit
    }

    /// The slot of its next instruction.
    #[inline(always)]
    pub fn slot(&self) -> u32
        ensures { result ≡ self.now.frame.slot }
    {
        self.slot
    }

    /// Notes the slot of its next instruction.
    #[inline(always)]
    pub fn note_slot(&mut self, slot: u32)
        ensures { self.new ≡ record self.old { frame = at_slot self.old.frame slot } }
    {
        self.slot = slot;
    }

    /// The instructions from a slot of its program on, which is its next one: `limit` at most, up
    /// to and with the first that ends it or calls a helper. The slot stays noted where it was.
    #[inline(always)]
    pub fn run_at<S: Spawner>(
        &mut self,
        alloc: Global,
        code: &Verified,
        slot: u32,
        limit: usize,
        spawner: &mut S,
    ) -> Ran
        requires covered { IsCovered code.now (at_slot self.old.frame slot) self.old.part
            self.old.credit }
        requires some { 0 < limit }
        requires children { MayHandOver (S.entries spawner.old) self.old.credit.held
            (S.asks spawner.old) }
        ensures ran { stretch.Ran code.now self.old.credit limit result.count
            (at_slot self.old.frame slot) self.old.part (λ frame part credit.
            StepEffectForAll code.now (S.entries spawner.old) frame part credit
            (out_of result.next) (at_slot self.new.frame (slot_after frame.slot result.next))
            self.new.part self.new.credit (spawner.new ≡ spawner.old)
            (λ child reply. S.spawns spawner.old child reply spawner.new)
            (λ helper arguments answer. S.calls spawner.old helper arguments answer spawner.new)) }
        ensures told { stretch.Ran code.now self.old.credit limit result.count
            (at_slot self.old.frame slot) self.old.part (λ frame part credit.
            StepEffectAndRefusalForAll result.refused code.now (S.entries spawner.old) frame part
            credit (out_of result.next) (at_slot self.new.frame (slot_after frame.slot result.next))
            self.new.part self.new.credit (spawner.new ≡ spawner.old)
            (λ child reply. S.spawns spawner.old child reply spawner.new)
            (λ helper arguments answer. S.calls spawner.old helper arguments answer spawner.new)) }
        ensures covered { (next : ℕ) → result.next ≡ ControlPoint.At next
            → IsCovered code.now (at_slot self.new.frame next) self.new.part self.new.credit }
        ensures base { self.new.part.base ≡ self.old.part.base }
        ensures program { self.new.program ≡ self.old.program }
        ensures slot { self.new.frame.slot ≡ self.old.frame.slot }
        ensures most { result.count ≤ limit }
        ensures entries { S.entries spawner.new ≡ S.entries spawner.old }
    {
        let body = &mut *self.body;
        body.frame.run_at(
            alloc,
            code,
            slot,
            limit,
            &mut body.part,
            &mut self.credit,
            spawner,
        )
    }
}
