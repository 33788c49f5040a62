//! The reference's calls and exits.

ghost use Rattle.std.specs.Prelude.{◌≡◌, ℕ, ◌+◌, ◌<◌, ◌≤◌, length, map, Err, IfOk};
ghost use Rattle.insn_codec.specs.declared.insn.Insn.TheVariants.{Exit};
ghost use Rattle.machine_model.specs.JobState.{entries_of};
ghost use Rattle.reference.specs.declared.records.Unanswered.{Unanswered};
ghost use Rattle.reference.specs.declared.records.Unanswered.TheVariants as unanswered;
ghost use Rattle.machine_model.specs.Machine.{Effect, Entries, Program, answered, cost_at, meaning, number_in, spawn, spawned};
ghost use Rattle.machine_model.specs.Spawn.{answer_of};
ghost use Rattle.reference.specs.Records.{asking, effect_of, program_of, registers_of, state_of};

use crate::records::{
    Child, Content, ReferenceProgram, Running, SpawnArguments, StepOutcome, TrapCause, Unanswered,
};
use crate::registers::{content, number};
use insn_codec::Register;
use machine_model::Entry;
use std::alloc::Global;

/// After a call: the answer in R0, and no arguments.
pub(crate) fn put_answer(mut state: Running, answer: u64) -> Running
    requires { state.slot < 4294967296 }
    ensures { state_of result ≡ answered (state_of state) answer }
{
    state.slot += 1;
    state.registers[0] = Content::Num(answer);
    state.registers[1] = Content::Unset;
    state.registers[2] = Content::Unset;
    state.registers[3] = Content::Unset;
    state.registers[4] = Content::Unset;
    state.registers[5] = Content::Unset;
    state
}

fn request(state: &Running) -> Result<SpawnArguments, TrapCause>
    ensures { (go : ℕ → ℕ → ℕ → ℕ → Effect)
        → number_in (registers_of state.now.registers 1) (λ program.
        number_in (registers_of state.now.registers 2)
        (λ share. number_in (registers_of state.now.registers 3) (λ cut.
        number_in (registers_of state.now.registers 4) (λ arg. go program share cut arg))))
        ≡ asking go result }
{
    let program = number(content(state, Register::new(1)))?;
    let share = number(content(state, Register::new(2)))?;
    let cut = number(content(state, Register::new(3)))?;
    let arg = number(content(state, Register::new(4)))?;
    Ok(SpawnArguments {
        program,
        share,
        cut,
        arg,
    })
}

/// What a spawn is answered.
fn answer(
    child: Option<Entry>,
    request: SpawnArguments,
    state: &Running,
    after: u32,
    need: u32,
) -> u64
    ensures value { result
        ≡ answer_of child request.share request.cut state.now.held state.now.used after
        (length state.now.part.items) need }
    ensures few { result ≡ 0 → request.share ≤ state.now.held }
    ensures short { result ≡ 0 → request.cut ≤ length state.now.part.items }
{
    let Some(child) = child else {
        return 1;
    };
    if request.share < u64::from(child.cost) {
        return 2;
    }
    if request.share > u64::from(state.held) {
        return 3;
    }
    if u64::from(state.held) < request.share + u64::from(state.used) + u64::from(after) {
        return 3;
    }
    if request.cut < u64::from(child.need) {
        return 4;
    }
    let part = state.part.as_slice();
    let size = part.len() as u64;
    if request.cut > size {
        return 5;
    }
    if size - request.cut < u64::from(need) {
        return 5;
    }
    0
}

/// The child gets the last bytes, and the parent keeps the rest.
fn hand_over(
    alloc: Global,
    state: Running,
    request: SpawnArguments,
) -> Result<StepOutcome, Unanswered>
    requires slot { state.slot < 4294967296 }
    requires share { request.share ≤ state.held }
    requires cut { request.cut ≤ length state.part.items }
    ensures spawned { IfOk result (λ e. effect_of e
        ≡ spawned (state_of state) request.program request.share request.cut request.arg 0) }
    ensures memory { (error : Unanswered) → result ≡ Err error → error ≡ unanswered.NoMemory }
{
    let part = state.part.as_slice();
    let keep = part.len() - request.cut as usize;
    let mut kept = Vec::new(alloc);
    kept.extend_from_slice(&part[..keep])?;
    let mut bytes = Vec::new(alloc);
    bytes.extend_from_slice(&part[keep..])?;
    let share = request.share as u32;
    let taken = Running {
        slot: state.slot,
        registers: state.registers,
        stack: state.stack,
        part: kept,
        held: state.held - share,
        used: state.used,
    };
    let child = Child {
        program: request.program,
        share,
        arg: request.arg,
        bytes,
    };
    Ok(StepOutcome::Spawns(child, put_answer(taken, 0), put_answer(state, 6)))
}

fn cost_at(program: &ReferenceProgram, slot: usize) -> u32
    ensures { result ≡ cost_at (program_of program.now) slot }
{
    match program.costs.get(slot) {
        None => 0,
        Some(cost) => *cost,
    }
}

fn entry_at(programs: &[ReferenceProgram], number: u64) -> Option<Entry>
    ensures { result ≡ entries_of (map program_of programs.now) number }
{
    match programs.get(number as usize) {
        None => None,
        Some(program) => Some(Entry {
            cost: cost_at(program, 0),
            need: program.need,
        }),
    }
}

/// Ends the task with R0.
pub(crate) fn exit(state: Running) -> StepOutcome
    ensures { (p : Program) (entries : Entries)
        → effect_of result ≡ meaning p entries (state_of state) Exit }
{
    match number(content(&state, Register::new(0))) {
        Err(cause) => StepOutcome::Traps(cause),
        Ok(r0) => StepOutcome::Ends(r0, state),
    }
}

/// Asks for a child.
pub(crate) fn spawn(
    alloc: Global,
    program: &ReferenceProgram,
    programs: &[ReferenceProgram],
    state: Running,
) -> Result<StepOutcome, Unanswered>
    requires { state.slot < 4294967296 }
    ensures spawn { IfOk result (λ e. effect_of e
        ≡ spawn (program_of program.now) (entries_of (map program_of programs.now))
        (state_of state)) }
    ensures memory { (error : Unanswered) → result ≡ Err error → error ≡ unanswered.NoMemory }
{
    let asked = match request(&state) {
        Ok(asked) => asked,
        Err(cause) => return Ok(StepOutcome::Traps(cause)),
    };
    let child = entry_at(programs, asked.program);
    let after = cost_at(program, state.slot + 1);
    let reply = answer(child, asked, &state, after, program.need);
    if reply == 0 {
        return hand_over(alloc, state, asked);
    }
    Ok(StepOutcome::Continues(put_answer(state, reply)))
}
