//! A piece of a task's run, over what is kept of the task.

ghost use Rattle.std.specs.Prelude.{◌≡◌, ◌≢◌, ℕ, ◌+◌, ◌<◌, ◌≤◌, length, None, Some, true};
ghost use Rattle.helpers.specs.Table.{arity_in};
ghost use Rattle.machine_model.specs.Machine.{State, effect};
ghost use Rattle.machine_model.specs.Alone.{no_entries};
ghost use Rattle.verifier.specs.Checked.{program_of};
ghost use Rattle.interpreter.specs.declared.frame.ControlPoint.TheVariants as ControlPoint;
ghost use Rattle.interpreter.specs.Operands.{arguments_of};
ghost use Rattle.interpreter.specs.Representation.{IsCovered, RepresentsState, at_slot, lent, slot_after};
ghost use Rattle.yielding.specs.Leading.{IsAnswered};
ghost use Rattle.yielding.specs.Standing.{MayGo, IsAsking};
ghost use Rattle.yielding.specs.Stops.{RunsByItself};
ghost use Rattle.yielding.specs.Pieces.{GoesPiece, MayResume, RunsPiece, StepsTo, limit_of, one_if};

use crate::answer::CallAnswer;
use crate::event::{PieceEnd, Question};
use crate::stops::{Stop, stop_of};
use interpreter::{ControlPoint, Credit, Frame, Stretch};
use verifier::Verified;

/// A piece that has ended: the slot of the next instruction, and why it ended.
#[derive(Clone, Copy)]
pub(crate) struct EndedPiece {
    pub(crate) slot: u32,
    pub(crate) event: PieceEnd,
}

/// What a call of a helper asks.
fn question(code: &Verified, frame: &Frame, helper: u32) -> Question
    requires { arity_in code.now.helpers helper ≢ None }
    ensures helper { result.helper ≡ helper }
    ensures arguments { (arity : ℕ) × (arity_in code.now.helpers helper ≡ Some arity)
        × (result.arguments ≡ arguments_of frame.now.words arity) }
{
    match code.arity(helper) {
        Some(arity) => Question {
            helper,
            arguments: frame.arguments(arity),
        },
        None => unreachable!(),
    }
}

/// Runs the instruction at the slot, which asks nothing of the host.
fn step(
    code: &Verified,
    frame: &mut Frame,
    slot: u32,
    credit: &mut Credit,
    memory: &mut [u8],
) -> ControlPoint
    requires { RunsByItself code.now (at_slot frame.old slot) (lent memory.old) credit.old }
    ensures steps { (s : State)
        → RepresentsState code.now (at_slot frame.old slot) (lent memory.old) credit.old s
        → StepsTo code.now (effect (program_of code.now) no_entries s) result
        (at_slot frame.new (slot_after slot result)) memory.new credit.new }
    ensures covered { (next : ℕ) → result ≡ ControlPoint.At next
        → IsCovered code.now (at_slot frame.new next) (lent memory.new) credit.new }
    ensures len { length memory.new ≡ length memory.old }
    ensures spends { credit.old.used < credit.new.used }
    ensures holds { credit.new.held ≤ credit.old.held }
{
    let mut nothing = CallAnswer { word: 0 };
    let ran = frame.run_on(code, slot, 1, memory, credit, &mut nothing);
    ran.next
}

/// Runs the call at the slot, which the host has answered, and gives the next slot.
fn answer_call(
    code: &Verified,
    frame: &mut Frame,
    slot: u32,
    credit: &mut Credit,
    memory: &mut [u8],
    answer: u64,
) -> u32
    requires { IsAsking code.now (at_slot frame.old slot) (lent memory.old) credit.old }
    ensures answers { (s : State)
        → RepresentsState code.now (at_slot frame.old slot) (lent memory.old) credit.old s
        → (first : State) × IsAnswered (program_of code.now) true answer s first
        × RepresentsState code.now (at_slot frame.new result) (lent memory.new) credit.new first }
    ensures covered { IsCovered code.now (at_slot frame.new result) (lent memory.new) credit.new }
    ensures len { length memory.new ≡ length memory.old }
    ensures spends { credit.old.used < credit.new.used }
    ensures holds { credit.new.held ≤ credit.old.held }
{
    let mut given = CallAnswer { word: answer };
    let ran = frame.run_on(code, slot, 1, memory, credit, &mut given);
    match ran.next {
        ControlPoint::At(next) => next,
        ControlPoint::Ended(_) => unreachable!(),
    }
}

/// The slot that a piece begins at: behind the call that was answered, if one waits.
fn begin(
    code: &Verified,
    frame: &mut Frame,
    slot: u32,
    credit: &mut Credit,
    memory: &mut [u8],
    waits: bool,
    answer: u64,
) -> u32
    requires { MayGo code.now (at_slot frame.old slot) (lent memory.old) credit.old waits }
    ensures begins { (s : State)
        → RepresentsState code.now (at_slot frame.old slot) (lent memory.old) credit.old s
        → (first : State) × IsAnswered (program_of code.now) waits answer s first
        × RepresentsState code.now (at_slot frame.new result) (lent memory.new) credit.new first }
    ensures covered { IsCovered code.now (at_slot frame.new result) (lent memory.new) credit.new }
    ensures len { length memory.new ≡ length memory.old }
    ensures spends { credit.old.used + one_if waits ≤ credit.new.used }
    ensures holds { credit.new.held ≤ credit.old.held }
{
    if waits {
        answer_call(code, frame, slot, credit, memory, answer)
    } else {
        slot
    }
}

/// Runs the instructions from the slot on, `limit` at most, until one ends the task or calls a
/// helper of the host's, which isn't run.
fn run_piece(
    code: &Verified,
    frame: &mut Frame,
    slot: u32,
    credit: &mut Credit,
    memory: &mut [u8],
    limit: usize,
) -> EndedPiece
    requires { IsCovered code.now (at_slot frame.old slot) (lent memory.old) credit.old }
    ensures runs { RunsPiece code.now limit (at_slot frame.old slot) memory.old credit.old
        result.event (at_slot frame.new result.slot) memory.new credit.new }
    ensures settled { MayResume code.now (at_slot frame.new result.slot) (lent memory.new)
        credit.new result.event }
    ensures len { length memory.new ≡ length memory.old }
    ensures spends { credit.old.used + limit_of limit result.event ≤ credit.new.used }
    ensures holds { credit.new.held ≤ credit.old.held }
{
    let mut slot = slot;
    let mut left = limit;
    'stretches: loop {
        let stretch = frame.go_on(code, slot, left, memory, credit);
        let Stretch {
            ran,
            slot: at,
            pause,
        } = stretch;
        left -= ran;
        match stop_of(pause) {
            Stop::AtLimit => {
                return EndedPiece {
                    slot: at,
                    event: PieceEnd::AtLimit,
                };
            }
            Stop::Asks(helper) => {
                return EndedPiece {
                    slot: at,
                    event: PieceEnd::Asks(question(code, frame, helper)),
                };
            }
            Stop::ByItself => match step(code, frame, at, credit, memory) {
                ControlPoint::At(next) => {
                    slot = next;
                    left -= 1;
                }
                ControlPoint::Ended(r0) => {
                    return EndedPiece {
                        slot: at,
                        event: PieceEnd::Ended(r0),
                    };
                }
            },
        }
    }
}

/// A piece from its beginning to its end: the call that waits is answered, if one does, and then
/// `limit` instructions run at most.
pub(crate) fn go_piece(
    code: &Verified,
    frame: &mut Frame,
    slot: u32,
    credit: &mut Credit,
    memory: &mut [u8],
    waits: bool,
    answer: u64,
    limit: usize,
) -> EndedPiece
    requires { MayGo code.now (at_slot frame.old slot) (lent memory.old) credit.old waits }
    ensures goes { GoesPiece code.now waits answer limit (at_slot frame.old slot) memory.old
        credit.old result.event (at_slot frame.new result.slot) memory.new credit.new }
    ensures settled { MayResume code.now (at_slot frame.new result.slot) (lent memory.new)
        credit.new result.event }
    ensures len { length memory.new ≡ length memory.old }
    ensures spends { credit.old.used + (one_if waits + limit_of limit result.event)
        ≤ credit.new.used }
    ensures holds { credit.new.held ≤ credit.old.held }
{
    let first = begin(code, frame, slot, credit, memory, waits, answer);
    run_piece(code, frame, first, credit, memory, limit)
}
