//! The reference's loads and stores.

ghost use Rattle.std.specs.Prelude.{◌≡◌, ℕ, ◌+◌, ◌+ℤ◌, ◌<◌, ◌≤◌, Ok, Some, length};
ghost use Rattle.insn_codec.specs.declared.insn.Insn.{Insn};
ghost use Rattle.insn_codec.specs.declared.insn.Insn.TheVariants.{Load, Store, StoreRegister};
ghost use Rattle.machine_model.specs.Edges.{Always, leads};
ghost use Rattle.machine_model.specs.Machine.{Effect, Entries, Program, Trap, located, meaning, stored, within};
ghost use Rattle.machine_model.specs.Memory.{store_bytes};
ghost use Rattle.reference.specs.Records.{at_place, effect_of, placing, state_of, value_of};
ghost use Rattle.reference.specs.declared.records.Place.TheVariants as place;

use crate::records::{Content, Place, Running, StepOutcome, TrapCause};
use crate::registers::{content, immediate, number, put};
use insn_codec::{LoadKind, Register, Size};
use machine_model::memory::{load_bytes, store_bytes};

/// Where so many bytes from a position on are in a region of this size, if they are there.
fn place_within(position: i64, offset: i16, count: usize, size: usize) -> Option<usize>
    ensures within { (trap : Trap) (go : ℕ → Effect)
        → within (position +ℤ offset) count size trap go ≡ at_place trap go result }
    ensures inside { (at : ℕ) → result ≡ Some at → at + count ≤ size }
{
    let at = i128::from(position) + i128::from(offset);
    if at < 0 {
        return None;
    }
    if at + count as i128 > size as i128 {
        return None;
    }
    Some(at as usize)
}

/// Where so many bytes are that a pointer leads to.
pub(crate) fn place(
    state: &Running,
    pointer: Content,
    offset: i16,
    count: usize,
) -> Result<Place, TrapCause>
    ensures leads { (stack part : ℕ → Effect)
        → located (state_of state.now) (value_of pointer) offset count stack part
        ≡ placing stack part result }
    ensures stack { (at : ℕ) → result ≡ Ok (place.Stack at) → at + count ≤ length state.now.stack }
    ensures part { (at : ℕ) → result ≡ Ok (place.Part at)
        → at + count ≤ length state.now.part.items }
{
    match pointer {
        Content::Unset => Err(TrapCause::UnsetRead),
        Content::Num(_) => Err(TrapCause::WrongKind),
        Content::Stack(position) => {
            match place_within(position, offset, count, state.stack.len()) {
                None => Err(TrapCause::OutsideStack),
                Some(at) => Ok(Place::Stack(at)),
            }
        }
        Content::Part(position) => {
            match place_within(position, offset, count, state.part.as_slice().len()) {
                None => Err(TrapCause::OutsidePart),
                Some(at) => Ok(Place::Part(at)),
            }
        }
    }
}

/// A load.
pub(crate) fn load(
    state: Running,
    kind: LoadKind,
    dst: Register,
    base: Register,
    offset: i16,
) -> StepOutcome
    requires { state.slot < 4294967296 }
    ensures { (p : Program) (entries : Entries)
        → effect_of result ≡ meaning p entries (state_of state) (Load kind dst base offset) }
{
    if dst.number() == 10 {
        return StepOutcome::Traps(TrapCause::WritesStackEnd);
    }
    match place(&state, content(&state, base), offset, load_bytes(kind)) {
        Err(cause) => StepOutcome::Traps(cause),
        Ok(Place::Stack(at)) => {
            let number = machine_model::memory::load(kind, &state.stack, at);
            put(state, dst, Content::Num(number))
        }
        Ok(Place::Part(at)) => {
            let number = machine_model::memory::load(kind, &state.part, at);
            put(state, dst, Content::Num(number))
        }
    }
}

/// Stores the low bytes of a number where a pointer leads, and goes on to the next slot.
fn store_number(
    mut state: Running,
    size: Size,
    pointer: Content,
    offset: i16,
    number: u64,
) -> StepOutcome
    requires { state.slot < 4294967296 }
    ensures { (i : Insn) → leads i state.slot Always ≡ Some (state.slot + 1) →
        effect_of result
        ≡ stored i (state_of state) (value_of pointer) offset (store_bytes size) number }
{
    match place(&state, pointer, offset, store_bytes(size)) {
        Err(cause) => StepOutcome::Traps(cause),
        Ok(Place::Stack(at)) => {
            machine_model::memory::store(size, &mut state.stack, at, number);
            state.slot += 1;
            StepOutcome::Continues(state)
        }
        Ok(Place::Part(at)) => {
            machine_model::memory::store(size, &mut state.part, at, number);
            state.slot += 1;
            StepOutcome::Continues(state)
        }
    }
}

/// A store of a number that the instruction has.
pub(crate) fn store(
    state: Running,
    size: Size,
    base: Register,
    offset: i16,
    imm: i32,
) -> StepOutcome
    requires { state.slot < 4294967296 }
    ensures { (p : Program) (entries : Entries)
        → effect_of result ≡ meaning p entries (state_of state) (Store size base offset imm) }
{
    let pointer = content(&state, base);
    store_number(state, size, pointer, offset, immediate(imm))
}

/// A store of a register's number.
pub(crate) fn store_register(
    state: Running,
    size: Size,
    base: Register,
    offset: i16,
    src: Register,
) -> StepOutcome
    requires { state.slot < 4294967296 }
    ensures { (p : Program) (entries : Entries)
        → effect_of result
        ≡ meaning p entries (state_of state) (StoreRegister size base offset src) }
{
    let pointer = content(&state, base);
    match number(content(&state, src)) {
        Err(cause) => StepOutcome::Traps(cause),
        Ok(stored) => store_number(state, size, pointer, offset, stored),
    }
}
