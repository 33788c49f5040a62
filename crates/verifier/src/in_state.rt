//! The in-state of one slot of a verified program, worked out again.

ghost use Rattle.std.specs.Prelude.{◌≡◌, ◌≤◌, ◌<◌, ℕ, length, slice_index_or, None, IfOk};
ghost use Rattle.machine_model.specs.Limits.{max_part};
ghost use Rattle.verifier.specs.InStates.{in_state, state_of};
ghost use Rattle.verifier.specs.Survey.{subject_of};
ghost use Rattle.verifier.specs.Verdict.{IsAllowedAt};

use crate::held::{Boxes, Held};
use crate::sources::Sources;
use crate::states::{Survey, places, propagate_waiting, slot_at, visit};
use instruction_rules::AbsState;
use predecoding::Region;
use refusal::NoMemory;
use std::alloc::Global;

/// A copy of the state at the slot, if there is one.
fn state_in(states: &[Option<Held>], slot: u32) -> Option<AbsState>
    requires { slot < length states.now }
    ensures { result ≡ slice_index_or states.now slot None }
{
    match &states[slot as usize] {
        None => None,
        Some(state) => Some(*state.get()),
    }
}

/// The state that arrives at a slot of a program whose instructions are allowed: the analysis once
/// more, up to that slot.
pub(crate) fn in_state_at(
    alloc: Global,
    survey: &Survey<'_>,
    slot: u32,
) -> Result<Option<AbsState>, NoMemory>
    requires need { survey.now.need ≤ max_part }
    requires slot { slot < length survey.now.graph.now.code }
    requires allowed { (s : ℕ) → IsAllowedAt (subject_of survey.now) s }
    ensures { IfOk result (λ state. state ≡ state_of (in_state (subject_of survey.now) slot)) }
{
    let slots = survey.graph.slots();
    let mut sources = Sources::of(alloc, survey.graph)?;
    let mut states = places(alloc, survey.need, slots)?;
    let mut regions = vec![in alloc; Region::Stack; slots as usize]?;
    let mut boxes = Boxes::new(alloc);
    for place in 0..survey.graph.order().len() {
        if slot_at(survey.graph, place) == slot {
            propagate_waiting(&mut boxes, &mut states, &mut sources, survey, place)?;
            return Ok(state_in(&states, slot));
        }
        let fault = visit(
            &mut boxes,
            &mut states,
            &mut sources,
            &mut regions,
            survey,
            place,
        )?;
        match fault {
            None => {}
            Some(_) => unreachable!(),
        }
    }
    Ok(None)
}
