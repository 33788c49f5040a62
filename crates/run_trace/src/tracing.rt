//! The steps of a run, one after the other, by the definitions' own step.

ghost use Rattle.std.specs.Prelude.{◌≡◌, ℕ, ◌≤◌, ◌<◌, length, map, option_map, Err, IfOk, Some};
ghost use Rattle.flow_graph.specs.Program.{IsDecoded, code_of};
ghost use Rattle.verifier.specs.Refusals.{HasFlow};
ghost use Rattle.insn_codec.specs.declared.insn.Insn.{Insn};
ghost use Rattle.machine_model.specs.Edges.{insn_at};
ghost use Rattle.explain.specs.Lines.{numbered_text};
ghost use Rattle.reference.specs.Records.{FarWithin, program_of, state_of};
ghost use Rattle.reference.specs.declared.records.Unanswered.TheVariants as untraced;
ghost use Rattle.run_trace.specs.Following.{ReachesEnd, FollowsTo, IsReference};
ghost use Rattle.run_trace.specs.Steps.{IsStep};
ghost use Rattle.run_trace.specs.Traces.{RunGoesFar, IsTrace, Runs, unanswered};
ghost use Rattle.task_trees.specs.Solo.{entering};

use crate::changes::{changed_bytes, changed_registers};
use crate::step::Step;
use explain::{SourceLine, lines_in, place_in};
use flow_graph::{FlowFault, build};
use insn_codec::{CodecFault, Placed, decode};
use reference::{Content, ReferenceProgram, Running, StepOutcome, Unanswered, effect};
use refusal::NoMemory;
use std::alloc::Global;

/// The steps of a run in their order, and what it came to.
#[derive(Drop)]
pub struct Trace {
    pub steps: Vec<Step>,
    pub r0: u64,
    pub used: u32,
    /// The part, as the run leaves it.
    pub part: Vec<u8>,
}

/// A program, with its instructions and the lines that say them.
#[derive(Clone, Copy)]
pub(crate) struct Listing<'a> {
    pub(crate) placed: &'a [Placed],
    pub(crate) lines: &'a [SourceLine<'a>],
}

/// The task at its start, with all the credit, this argument and these bytes as its part.
fn start(alloc: Global, memory: &[u8], arg: u64, credit: u32) -> Result<Running, NoMemory>
    ensures { IfOk result (λ start. state_of start ≡ entering arg credit memory.now) }
{
    let mut part = Vec::new(alloc);
    part.extend_from_slice(memory)?;
    Ok(Running {
        slot: 0,
        registers: [
            Content::Unset,
            Content::Part(0),
            Content::Num(memory.len() as u64),
            Content::Num(arg),
            Content::Unset,
            Content::Unset,
            Content::Unset,
            Content::Unset,
            Content::Unset,
            Content::Unset,
            Content::Stack(512),
        ],
        stack: [0; 512],
        part,
        held: credit,
        used: 0,
    })
}

/// The same task once more.
fn copied(alloc: Global, state: &Running) -> Result<Running, NoMemory>
    ensures { IfOk result (λ copy. state_of copy ≡ state_of state.now) }
{
    let mut part = Vec::new(alloc);
    part.extend_from_slice(&state.part)?;
    Ok(Running {
        slot: state.slot,
        registers: state.registers,
        stack: state.stack,
        part,
        held: state.held,
        used: state.used,
    })
}

/// The step from one state to the next.
pub(crate) fn step_between(
    alloc: Global,
    listing: &Listing<'_>,
    before: &Running,
    after: &Running,
) -> Result<Step, NoMemory>
    requires begins { (i : Insn) × (insn_at (code_of listing.now.placed.now) before.now.slot
        ≡ Some i) }
    requires turn { IsDecoded listing.now.placed.now }
    requires size { length after.now.part.items ≡ length before.now.part.items }
    ensures { IfOk result (λ step. IsStep listing.now.placed.now
        (map numbered_text listing.now.lines.now) (state_of before.now) step (state_of after.now)) }
{
    let found = place_in(alloc, listing.placed, listing.lines, before.slot as u32)?;
    let Some(place) = found else { unreachable!() };
    let registers = changed_registers(alloc, &before.registers, &after.registers)?;
    let stack = changed_bytes(alloc, &before.stack, &after.stack)?;
    let part = changed_bytes(alloc, &before.part, &after.part)?;
    Ok(Step {
        place,
        registers,
        stack,
        part,
        used: after.used,
    })
}

/// The program as the definitions' step has it.
fn reference_of(alloc: Global, placed: &[Placed]) -> Result<ReferenceProgram, NoMemory>
    requires flow { HasFlow (code_of placed.now) }
    requires turn { IsDecoded placed.now }
    ensures { IfOk result (λ program. IsReference placed.now (program_of program)) }
{
    let graph = match build(alloc, placed) {
        Ok(graph) => graph,
        Err(FlowFault::NoMemory) => return Err(NoMemory),
        Err(_) => unreachable!(),
    };
    let arities = [None, Some(4), Some(0), Some(0), Some(3), Some(2)];
    let registered = Vec::from_array(alloc, arities)?;
    Ok(ReferenceProgram {
        need: 0,
        code: graph.into_code(),
        costs: Vec::new(alloc),
        registered,
    })
}

/// The steps of a program from this state on, which ends.
fn follow(
    alloc: Global,
    program: &ReferenceProgram,
    listing: &Listing<'_>,
    start: Running,
) -> Result<Trace, Unanswered>
    requires reference { IsReference listing.now.placed.now (program_of program.now) }
    requires turn { IsDecoded listing.now.placed.now }
    requires ends { ReachesEnd (program_of program.now) (state_of start) }
    ensures steps { IfOk result (λ trace. FollowsTo (program_of program.now)
        listing.now.placed.now (map numbered_text listing.now.lines.now) (state_of start) trace) }
    ensures far { result ≡ Err untraced.TooLarge → (n : ℕ)
        × FarWithin (program_of program.now) unanswered n (state_of start) }
{
    let mut steps = Vec::new(alloc);
    let mut state = start;
    'run: loop {
        let before = copied(alloc, &state)?;
        match effect(alloc, program, &[], state)? {
            StepOutcome::Continues(next) => {
                steps.push(step_between(alloc, listing, &before, &next)?)?;
                state = next;
            }
            StepOutcome::Ends(r0, last) => {
                steps.push(step_between(alloc, listing, &before, &last)?)?;
                let Running { part, used, .. } = last;
                return Ok(Trace {
                    steps,
                    r0,
                    used,
                    part,
                });
            }
            StepOutcome::Spawns(..) => unreachable!(),
            StepOutcome::Calls(..) => unreachable!(),
            StepOutcome::Traps(_) => unreachable!(),
        }
    }
}

/// The steps of a program's run by itself on this memory, of a program that is accepted and whose
/// run ends. A source text gives the lines. Refused for want of memory, and where a pointer's
/// position on the way has more than 64 bits.
pub fn trace_run(
    alloc: Global,
    code: &[u8],
    source: Option<&str>,
    memory: &[u8],
    arg: u64,
    credit: u32,
) -> Result<Trace, Unanswered>
    requires { Runs code.now arg credit memory.now }
    ensures steps { IfOk result (λ trace. IsTrace code.now
        (option_map (λ text. text.now) source.entry) arg credit memory.now trace) }
    ensures far { result ≡ Err untraced.TooLarge → RunGoesFar code.now arg credit memory.now }
{
    let placed = match decode(alloc, code) {
        Ok(placed) => placed,
        Err(CodecFault::NoMemory) => return Err(Unanswered::NoMemory),
        Err(_) => unreachable!(),
    };
    let lines = lines_in(alloc, source)?;
    let program = reference_of(alloc, &placed)?;
    let listing = Listing {
        placed: &placed,
        lines: &lines,
    };
    follow(
        alloc,
        &program,
        &listing,
        start(alloc, memory, arg, credit)?,
    )
}
