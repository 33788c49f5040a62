//! A task in pieces.

ghost use Rattle.std.specs.Prelude.{◌≡◌, ◌+◌, ◌≤◌, length, Some, IfOk, MatchResult};
ghost use Rattle.std.specs.Arc.{arc_value};
ghost use Rattle.machine_model.specs.Limits.{max_part, max_credit};
ghost use Rattle.interpreter.specs.Representation.{entry_frame};
ghost use Rattle.virtual_machine.specs.Executes.{IsUnrunnable};
ghost use Rattle.yielding.specs.GoFaults.{StaysAt};
ghost use Rattle.yielding.specs.Going.{HasGone, IsAtStart, StaysWithin};
ghost use Rattle.yielding.specs.Pieces.{limit_of, one_if};
ghost use Rattle.yielding.specs.Standing.{has_ended, waits};

use crate::event::PieceEnd;
use crate::go_fault::GoFault;
use crate::phase::{Phase, has_ended, phase_after, waits};
use crate::pieces::go_piece;
use interpreter::{Credit, Frame};
use std::alloc::Global;
use std::marker::Model;
use std::sync::Arc;
use verifier::Verified;
use virtual_machine::VmFault;

/// A task whose run stops where it asks its host: one owner of its program, its frame, its credit,
/// and how many bytes its memory has. The memory is the host's, which lends it to each piece.
#[derive(Drop)]
pub struct HostedTask {
    program: Arc<Verified, Global>,
    frame: Frame,
    slot: u32,
    credit: Credit,
    len: usize,
    phase: Phase,
}

impl Model for HostedTask {
    ghost use Rattle.std.specs.Arc.{arc_value};
    ghost use Rattle.interpreter.specs.Representation.{at_slot};
    ghost use Rattle.yielding.specs.Standing.{IsStanding, PausedTask};

    ghost Value = { PausedTask };

    ghost view = { λ t. record {
      program = arc_value t.program;
      frame = at_slot t.frame t.slot;
      credit = t.credit;
      len = t.len;
      phase = t.phase;
    } };

    ghost invariant = { λ t. IsStanding (arc_value t.program) (at_slot t.frame t.slot) t.credit
        t.len t.phase };
}

/// The frame of a task that starts on so many bytes.
fn entered(len: u32, argument: u64) -> Frame
    ensures { result ≡ entry_frame len argument }
{
    let mut frame = Frame::zeroed();
    frame.enter(len, argument);
    frame
}

impl HostedTask {
    /// A task at the start of its program, with this credit and this argument, whose memory will
    /// have `len` bytes.
    ///
    /// The call asks for at most 65,536 bytes and for a credit of at most 2,147,483,647. The
    /// refusals, in this order: 42 the credit is under the program's cost, 43 the memory is shorter
    /// than the program's need.
    pub fn start(
        program: Arc<Verified, Global>,
        credit: u32,
        argument: u64,
        len: usize,
    ) -> Result<HostedTask, VmFault>
        requires small { len ≤ max_part }
        requires limit { credit ≤ max_credit }
        ensures { MatchResult result
            (λ task. IsAtStart (arc_value program) argument credit len task)
            (λ fault. IsUnrunnable (Some (arc_value program)) credit len fault) }
    {
        let code: &Verified = &program;
        let cost = code.cost();
        let need = code.need();
        if credit < cost {
            return Err(VmFault::CreditLow {
                wanted: cost,
                given: credit,
            });
        }
        if len < need as usize {
            return Err(VmFault::MemoryShort {
                wanted: need,
                given: len as u32,
            });
        }
        Ok(HostedTask {
            program,
            frame: entered(len as u32, argument),
            slot: 0,
            credit: Credit {
                held: credit,
                used: 0,
            },
            len,
            phase: Phase::Ready,
        })
    }

    /// Goes on. Where the task waits, the call that it asked gets this answer. Then `limit`
    /// instructions run at most, until one ends the task or calls a helper of the host's: that one
    /// waits for the next piece. The call that is answered isn't one of the `limit`.
    ///
    /// The memory may have changed since the last piece. The refusals, in this order, after which
    /// all is as it was: 47 the task has ended, 43 the memory has another length than at the start.
    pub fn go(&mut self, answer: u64, memory: &mut [u8], limit: u32) -> Result<PieceEnd, GoFault>
        ensures goes { MatchResult result
            (λ event. HasGone self.old answer limit memory.old event self.new memory.new)
            (λ fault. StaysAt self.old.phase self.old.len (length memory.old) fault
            × (self.new ≡ self.old) × (memory.new ≡ memory.old)) }
        ensures same { (self.new.program ≡ self.old.program) × (self.new.len ≡ self.old.len) }
        ensures spends { IfOk result (λ event. self.old.credit.used
            + (one_if (waits self.old.phase) + limit_of limit event) ≤ self.new.credit.used) }
        ensures holds { self.new.credit.held ≤ self.old.credit.held }
        ensures within { IfOk result (λ event. StaysWithin event self.new.credit) }
    {
        if has_ended(self.phase) {
            return Err(GoFault::Ended);
        }
        if memory.len() != self.len {
            return Err(GoFault::OtherLength {
                wanted: self.len,
                given: memory.len(),
            });
        }
        let asked = waits(self.phase);
        let piece = go_piece(
            &self.program,
            &mut self.frame,
            self.slot,
            &mut self.credit,
            memory,
            asked,
            answer,
            limit as usize,
        );
        self.slot = piece.slot;
        self.phase = phase_after(&piece.event);
        Ok(piece.event)
    }

    /// What the task has used of its credit.
    pub fn used(&self) -> u32
        ensures { result ≡ self.now.credit.used }
    {
        self.credit.used
    }

    /// Whether the task waits for the answer to a call.
    pub fn waits(&self) -> bool
        ensures { result ≡ waits self.now.phase }
    {
        waits(self.phase)
    }

    /// Whether the task has ended.
    pub fn has_ended(&self) -> bool
        ensures { result ≡ has_ended self.now.phase }
    {
        has_ended(self.phase)
    }
}
