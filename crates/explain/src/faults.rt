//! All instructions of a program that aren't allowed.

ghost use Rattle.std.specs.Prelude.{◌≡◌, ◌<◌, ◌≤◌, ◌∷◌, [], ℕ, length, map, option_map, IfOk, MatchOption, None};
ghost use Rattle.machine_model.specs.Limits.{max_part};
ghost use Rattle.verifier.specs.RefusalCodes.{refusal_at};
ghost use Rattle.explain.specs.Arriving.{AreArrivals, subject_of_program};
ghost use Rattle.explain.specs.Faults.{AreFaultsTold, AreTold, IsFaultTold, broken_at, refusal_of};
ghost use Rattle.explain.specs.Lines.{numbered_text};

use crate::arriving::{AnalyzedProgram, Arrival, arrivals};
use crate::explaining::explain_refusal;
use crate::explanation::Explanation;
use crate::graphed_program::graphed;
use crate::instruction_places::{lines_for, place_in};
use crate::knowing::known_in;
use crate::lines::SourceLine;
use crate::predecessors::Predecessors;
use helpers::HelperTable;
use insn_codec::Placed;
use instruction_rules::{Rule, judge};
use refusal::NoMemory;
use std::alloc::Global;
use verifier::Refusal;

/// The refusal of the instruction at the slot, which breaks the rule.
fn refusal_at(slot: u32, rule: Rule) -> Refusal
    ensures { result ≡ refusal_at slot rule }
{
    match rule {
        Rule::UnsetRead => Refusal::UnsetRead(slot),
        Rule::OutOfStack => Refusal::OutOfStack(slot),
        Rule::OutOfPart => Refusal::OutOfPart(slot),
        Rule::BadKind => Refusal::BadKind(slot),
        Rule::PointerRange => Refusal::PointerRange(slot),
        Rule::FramePointer => Refusal::FramePointer(slot),
        Rule::NoHelper => Refusal::NoHelper(slot),
    }
}

/// What is told of the instruction at a slot, if it isn't allowed there.
fn fault_at(
    alloc: Global,
    analyzed: &AnalyzedProgram<'_>,
    table: &[Arrival],
    placed: &[Placed],
    lines: &[SourceLine<'_>],
    slot: u32,
) -> Result<Option<Explanation>, NoMemory>
    requires need { analyzed.now.need ≤ max_part }
    requires slot { slot < length analyzed.now.graph.now.code }
    requires table { AreArrivals (subject_of_program analyzed.now) table.now }
    ensures { IfOk result (λ found. MatchOption found
        (broken_at (subject_of_program analyzed.now) slot ≡ None)
        (λ why. IsFaultTold (subject_of_program analyzed.now) placed.now
        (map numbered_text lines.now) why
        × (refusal_of slot (broken_at (subject_of_program analyzed.now) slot)
        ≡ why.refusal ∷ []))) }
{
    let Some(insn) = analyzed.graph.insn(slot) else {
        return Ok(None);
    };
    match &table[slot as usize] {
        Arrival::Unreached => Ok(None),
        Arrival::Undefined => Ok(None),
        Arrival::Reached(state) => match judge(analyzed.need, analyzed.helpers, insn, state) {
            Ok(_) => Ok(None),
            Err(rule) => {
                let place = place_in(alloc, placed, lines, slot)?;
                let known = known_in(alloc, analyzed, insn, slot, *state)?;
                Ok(Some(Explanation {
                    refusal: refusal_at(slot, rule),
                    place,
                    known: Some(known),
                }))
            }
        },
    }
}

/// What is told of each instruction that isn't allowed.
fn faults(
    alloc: Global,
    analyzed: &AnalyzedProgram<'_>,
    placed: &[Placed],
    lines: &[SourceLine<'_>],
) -> Result<Vec<Explanation>, NoMemory>
    requires need { analyzed.now.need ≤ max_part }
    ensures { IfOk result (λ list. AreFaultsTold (subject_of_program analyzed.now) placed.now
        (map numbered_text lines.now) list.items) }
{
    let predecessors = Predecessors::of(alloc, analyzed.graph)?;
    let table = arrivals(alloc, analyzed, &predecessors)?;
    let mut list = Vec::new(alloc);
    for slot in 0..analyzed.graph.slots() {
        match fault_at(alloc, analyzed, &table, placed, lines, slot)? {
            None => {}
            Some(why) => list.push(why)?,
        }
    }
    Ok(list)
}

/// Why a program is refused, with all instructions that aren't allowed: of each slot where a state
/// arrives with which its instruction breaks a rule, what [`explain`](crate::explain) tells of the
/// first one. No state arrives where a way passes such a slot. None where the program is accepted,
/// one where it has no graph. Refused for want of memory alone.
pub fn explain_all(
    alloc: Global,
    need: u32,
    code: &[u8],
    helpers: &HelperTable,
    source: Option<&str>,
) -> Result<Vec<Explanation>, NoMemory>
    ensures { IfOk result (λ list. AreTold need code.now helpers.now
        (option_map (λ text. text.now) source.entry) list.items) }
{
    let whole = match graphed(alloc, need, code) {
        Ok(whole) => whole,
        Err(Refusal::NoMemory) => return Err(NoMemory),
        Err(refusal) => {
            let mut list = Vec::new(alloc);
            list.push(explain_refusal(alloc, need, code, helpers, source, refusal)?)?;
            return Ok(list);
        }
    };
    let analyzed = AnalyzedProgram {
        need,
        helpers,
        graph: &whole.graph,
    };
    let lines = lines_for(alloc, code, source)?;
    faults(alloc, &analyzed, &whole.placed, &lines)
}
