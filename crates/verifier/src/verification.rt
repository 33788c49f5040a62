//! Which programs are accepted.

ghost use Rattle.std.specs.Prelude.{◌≤◌, ◌↔◌, IsTrue, MatchResult};
ghost use Rattle.verifier.specs.Refusals.{RefusesProgram, IsAccepted};
ghost use Rattle.machine_model.specs.Limits.{max_part};

use crate::refusals::Refusal;
use crate::regions::predecoded;
use crate::states::{Found, states};
use crate::verified::Verified;
use cost_bound::costs;
use flow_graph::build;
use helpers::HelperTable;
use insn_codec::decode;
use std::alloc::Global;

/// The greatest need of a program.
const GREATEST_NEED: u32 = 65536;

/// A part may have the bytes that the program needs.
fn is_small(need: u32) -> bool
    ensures { IsTrue result ↔ (need ≤ max_part) }
{
    need <= GREATEST_NEED
}

/// Accepts a program, or tells the one reason why not: its need, then its bytes, its edges, and at
/// last the first instruction that isn't allowed where what is known of the registers is what its
/// paths leave. Of all that applies at one slot the lowest number is told.
pub fn verify(
    alloc: Global,
    need: u32,
    code: &[u8],
    helpers: &HelperTable,
) -> Result<Verified, Refusal>
    ensures { MatchResult result (λ verified. IsAccepted need code.now helpers.now verified)
        (λ refusal. RefusesProgram need code.now helpers.now refusal) }
{
    if !is_small(need) {
        return Err(Refusal::NeedTooLarge);
    }
    let placed = decode(alloc, code)?;
    let graph = build(alloc, &placed)?;
    drop(placed);
    let found = states(alloc, need, helpers, &graph)?;
    let costs = costs(alloc, &graph)?;
    let predecoded = predecoded(alloc, &graph, &found.regions)?;
    let helpers = helpers.copied(alloc)?;
    let Found { merges, .. } = found;
    Ok(Verified::of(need, helpers, graph, predecoded, merges, costs.into_table()))
}
