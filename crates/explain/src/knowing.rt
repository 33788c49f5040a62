//! What is known ahead of an instruction that isn't allowed, and a way there.

ghost use Rattle.std.specs.Prelude.{◌≡◌, ◌≤◌, Some, IfOk};
ghost use Rattle.machine_model.specs.Edges.{insn_at};
ghost use Rattle.machine_model.specs.Limits.{max_part};
ghost use Rattle.verifier.specs.InStates.{Reached, in_state};
ghost use Rattle.verifier.specs.Refusals.{RefusesProgram};
ghost use Rattle.explain.specs.Arriving.{subject_of_program};
ghost use Rattle.explain.specs.Refused.{IsRefusedAt};
ghost use Rattle.explain.specs.Told.{IsKnownAt, IsKnownIn, IsKnownOf, ruled_slot};

use crate::arriving::{AnalyzedProgram, state_at};
use crate::explanation::RefusalContext;
use crate::leading::way_to;
use crate::needs::least_need;
use flow_graph::{FlowFault, build};
use helpers::HelperTable;
use insn_codec::{CodecFault, Insn, decode};
use instruction_rules::AbsState;
use refusal::NoMemory;
use std::alloc::Global;
use verifier::Refusal;

/// The slot of the instruction that isn't allowed, where the refusal is of one.
fn ruled_slot(refusal: &Refusal) -> Option<u32>
    ensures { result ≡ ruled_slot refusal.now }
{
    match refusal {
        Refusal::UnsetRead(slot)
        | Refusal::OutOfStack(slot)
        | Refusal::OutOfPart(slot)
        | Refusal::BadKind(slot)
        | Refusal::PointerRange(slot)
        | Refusal::FramePointer(slot)
        | Refusal::NoHelper(slot) => Some(*slot),
        Refusal::NeedTooLarge | Refusal::Codec(_) | Refusal::Flow(_) | Refusal::NoMemory => None,
    }
}

/// What is known at a slot where this instruction stands and this state arrives.
pub(crate) fn known_in(
    alloc: Global,
    analyzed: &AnalyzedProgram<'_>,
    insn: &Insn,
    slot: u32,
    state: AbsState,
) -> Result<RefusalContext, NoMemory>
    requires need { analyzed.now.need ≤ max_part }
    requires there { insn_at analyzed.now.graph.now.code slot ≡ Some insn.now }
    requires arrives { in_state (subject_of_program analyzed.now) slot ≡ Reached state }
    ensures { IfOk result (λ known. IsKnownIn (subject_of_program analyzed.now) slot known) }
{
    let way = way_to(alloc, analyzed.graph, slot)?;
    let enough = least_need(analyzed.need, analyzed.helpers, insn, &state);
    Ok(RefusalContext { way, state, enough })
}

/// What is known at the slot, of a program that is refused there.
fn known_at(
    alloc: Global,
    need: u32,
    code: &[u8],
    helpers: &HelperTable,
    slot: u32,
) -> Result<RefusalContext, NoMemory>
    requires { IsRefusedAt need code.now helpers.now slot }
    ensures { IfOk result (λ known. IsKnownAt need code.now helpers.now slot known) }
{
    let placed = match decode(alloc, code) {
        Ok(placed) => placed,
        Err(CodecFault::NoMemory) => return Err(NoMemory),
        Err(_) => unreachable!(),
    };
    let graph = match build(alloc, &placed) {
        Ok(graph) => graph,
        Err(FlowFault::NoMemory) => return Err(NoMemory),
        Err(_) => unreachable!(),
    };
    let analyzed = AnalyzedProgram {
        need,
        helpers,
        graph: &graph,
    };
    let state = state_at(alloc, &analyzed, slot)?;
    match graph.insn(slot) {
        Some(insn) => known_in(alloc, &analyzed, insn, slot, state),
        None => unreachable!(),
    }
}

/// What is known where a program is refused, if that is for an instruction that isn't allowed.
pub(crate) fn known_of(
    alloc: Global,
    need: u32,
    code: &[u8],
    helpers: &HelperTable,
    refusal: &Refusal,
) -> Result<Option<RefusalContext>, NoMemory>
    requires { RefusesProgram need code.now helpers.now refusal.now }
    ensures { IfOk result
        (λ known. IsKnownOf need code.now helpers.now (ruled_slot refusal.now) known) }
{
    match ruled_slot(refusal) {
        Some(slot) => Ok(Some(known_at(alloc, need, code, helpers, slot)?)),
        None => Ok(None),
    }
}
