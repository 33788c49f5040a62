//! The reference's helpers: those of every program, and calls of a caller's own.

ghost use Rattle.std.specs.Prelude.{◌≡◌, ℕ, ◌-◌, ◌<◌, ◌≤◌, ◌^◌, List, [], ◌∷◌, sum, map, length, slice_index_or, None, Some, Err, IfOk};
ghost use Rattle.machine_model.specs.JobState.{entries_of};
ghost use Rattle.machine_model.specs.Machine.{Effect, Continues, answered, argument, call, call_registered, fill, filled, sum_of, summed};
ghost use Rattle.reference.specs.declared.records.Unanswered.TheVariants as unanswered;
ghost use Rattle.reference.specs.Records.{GoesFar, counting, effect_of, passing, program_of, state_of, value_of};

use crate::accesses::place;
use crate::calls::{put_answer, spawn};
use crate::records::{
    Content, Place, ReferenceProgram, Running, StepOutcome, TrapCause, Unanswered,
};
use crate::registers::{content, number};
use insn_codec::Register;
use machine_model::memory;
use std::alloc::Global;

/// The credit that is left.
fn credit_left(state: Running) -> StepOutcome
    requires { state.slot < 4294967296 }
    ensures { effect_of result ≡ Continues (answered (state_of state) (state.held - state.used)) }
{
    let left = state.held.saturating_sub(state.used);
    StepOutcome::Continues(put_answer(state, u64::from(left)))
}

/// The length of the part.
fn part_len(state: Running) -> StepOutcome
    requires { state.slot < 4294967296 }
    ensures { effect_of result ≡ Continues (answered (state_of state) (length state.part.items)) }
{
    let size = state.part.as_slice().len();
    StepOutcome::Continues(put_answer(state, size as u64))
}

/// So many bytes from a pointer on become this one.
fn fill_at(mut state: Running, pointer: Content, len: u64, byte: u8) -> StepOutcome
    requires { state.slot < 4294967296 }
    ensures { effect_of result ≡ filled (state_of state) (value_of pointer) len byte }
{
    let count = len as usize;
    match place(&state, pointer, 0, count) {
        Err(cause) => StepOutcome::Traps(cause),
        Ok(Place::Stack(at)) => {
            memory::fill(&mut state.stack, at, count, byte);
            StepOutcome::Continues(put_answer(state, 0))
        }
        Ok(Place::Part(at)) => {
            memory::fill(&mut state.part, at, count, byte);
            StepOutcome::Continues(put_answer(state, 0))
        }
    }
}

/// Fills the bytes that R1 points to, as many as R2 says, with the low byte of R3.
fn fill(state: Running) -> StepOutcome
    requires { state.slot < 4294967296 }
    ensures { effect_of result ≡ fill (state_of state) }
{
    let pointer = content(&state, Register::new(1));
    match number(content(&state, Register::new(2))) {
        Err(cause) => StepOutcome::Traps(cause),
        Ok(len) => match number(content(&state, Register::new(3))) {
            Err(cause) => StepOutcome::Traps(cause),
            Ok(byte) => fill_at(state, pointer, len, (byte % 256) as u8),
        },
    }
}

/// The sum of bytes, if it has 64 bits.
fn total(bytes: &[u8]) -> Option<u64>
    ensures fits { (n : ℕ) → result ≡ Some n → n ≡ sum bytes.now }
    ensures large { result ≡ None → 2 ^ 64 ≤ sum bytes.now }
{
    let mut total = 0u64;
    for byte in bytes {
        total = total.checked_add(u64::from(*byte))?;
    }
    Some(total)
}

/// The sum of so many bytes from a pointer on.
fn sum_at(state: Running, pointer: Content, len: u64) -> Result<StepOutcome, Unanswered>
    requires { state.slot < 4294967296 }
    ensures value { IfOk result (λ e. effect_of e
        ≡ summed (state_of state) (value_of pointer) len) }
    ensures far { result ≡ Err unanswered.TooLarge
        → GoesFar (summed (state_of state) (value_of pointer) len) }
{
    let count = len as usize;
    match place(&state, pointer, 0, count) {
        Err(cause) => Ok(StepOutcome::Traps(cause)),
        Ok(Place::Stack(at)) => match total(&state.stack[at..at + count]) {
            None => Err(Unanswered::TooLarge),
            Some(sum) => Ok(StepOutcome::Continues(put_answer(state, sum))),
        },
        Ok(Place::Part(at)) => match total(&state.part[at..at + count]) {
            None => Err(Unanswered::TooLarge),
            Some(sum) => Ok(StepOutcome::Continues(put_answer(state, sum))),
        },
    }
}

/// Sums up the bytes that R1 points to, as many as R2 says.
fn sum_of(state: Running) -> Result<StepOutcome, Unanswered>
    requires { state.slot < 4294967296 }
    ensures value { IfOk result (λ e. effect_of e ≡ sum_of (state_of state)) }
    ensures far { result ≡ Err unanswered.TooLarge → GoesFar (sum_of (state_of state)) }
{
    let pointer = content(&state, Register::new(1));
    match number(content(&state, Register::new(2))) {
        Err(cause) => Ok(StepOutcome::Traps(cause)),
        Ok(len) => sum_at(state, pointer, len),
    }
}

/// An argument of a helper that takes so many: those past them are 0.
fn argument(state: &Running, arity: u32, register: Register) -> Result<u64, TrapCause>
    ensures { (go : ℕ → Effect)
        → argument (state_of state.now) arity register go ≡ counting go result }
{
    if u32::from(register.number()) <= arity {
        number(content(state, register))
    } else {
        Ok(0)
    }
}

/// The five arguments of a helper that takes so many.
fn arguments(state: &Running, arity: u32) -> Result<[u64; 5], TrapCause>
    ensures { (go : List ℕ → Effect)
        → argument (state_of state.now) arity 1
        (λ a. argument (state_of state.now) arity 2 (λ b.
        argument (state_of state.now) arity 3 (λ c. argument (state_of state.now) arity 4 (λ d.
        argument (state_of state.now) arity 5 (λ e. go (a ∷ b ∷ c ∷ d ∷ e ∷ []))))))
        ≡ passing go result }
{
    let first = argument(state, arity, Register::new(1))?;
    let second = argument(state, arity, Register::new(2))?;
    let third = argument(state, arity, Register::new(3))?;
    let fourth = argument(state, arity, Register::new(4))?;
    let fifth = argument(state, arity, Register::new(5))?;
    Ok([first, second, third, fourth, fifth])
}

/// How many arguments a helper of the caller's own takes, if there is such a one.
fn arity_of(registered: &[Option<u32>], helper: u32) -> Option<u32>
    ensures { result ≡ slice_index_or registered.now helper None }
{
    match registered.get(helper as usize) {
        None => None,
        Some(arity) => *arity,
    }
}

/// A call of a helper of the caller's own, if there is such a one.
fn call_registered(state: Running, helper: u32, arity: Option<u32>) -> StepOutcome
    ensures { effect_of result ≡ call_registered (state_of state) helper arity }
{
    match arity {
        None => StepOutcome::Traps(TrapCause::NoHelper),
        Some(arity) => match arguments(&state, arity) {
            Err(cause) => StepOutcome::Traps(cause),
            Ok(arguments) => StepOutcome::Calls(helper, arguments, state),
        },
    }
}

/// What a call does, by the helper's number.
pub(crate) fn call(
    alloc: Global,
    program: &ReferenceProgram,
    programs: &[ReferenceProgram],
    state: Running,
    helper: u32,
) -> Result<StepOutcome, Unanswered>
    requires { state.slot < 4294967296 }
    ensures value { IfOk result (λ e. effect_of e
        ≡ call (program_of program.now) (entries_of (map program_of programs.now))
        (state_of state) helper) }
    ensures far { result ≡ Err unanswered.TooLarge
        → GoesFar
        (call (program_of program.now) (entries_of (map program_of programs.now))
        (state_of state) helper) }
{
    match helper {
        1 => spawn(alloc, program, programs, state),
        2 => Ok(credit_left(state)),
        3 => Ok(part_len(state)),
        4 => Ok(fill(state)),
        5 => sum_of(state),
        _ => {
            let arity = arity_of(&program.registered, helper);
            Ok(call_registered(state, helper, arity))
        }
    }
}
