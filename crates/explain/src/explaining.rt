//! The verdict on a program, and why.

ghost use Rattle.std.specs.Prelude.{◌≡◌, ◌≢◌, option_map, IfOk, MatchOption};
ghost use Rattle.verifier.specs.Refusals.{RefusesProgram};
ghost use Rattle.verifier.specs.declared.refusals.Refusal.TheVariants as refused;
ghost use Rattle.explain.specs.Told.{IsAllowed, IsTold};

use crate::explanation::Explanation;
use crate::instruction_places::place_of;
use crate::knowing::known_of;
use helpers::HelperTable;
use refusal::NoMemory;
use std::alloc::Global;
use verifier::{Refusal, verify};

/// Why the program is refused so.
pub(crate) fn explain_refusal(
    alloc: Global,
    need: u32,
    code: &[u8],
    helpers: &HelperTable,
    source: Option<&str>,
    refusal: Refusal,
) -> Result<Explanation, NoMemory>
    requires refused { RefusesProgram need code.now helpers.now refusal }
    requires lasting { refusal ≢ refused.NoMemory }
    ensures told { IfOk result (λ why. IsTold need code.now helpers.now
        (option_map (λ text. text.now) source.entry) why) }
    ensures same { IfOk result (λ why. why.refusal ≡ refusal) }
{
    let place = place_of(alloc, code, source, refusal.slot())?;
    let known = known_of(alloc, need, code, helpers, &refusal)?;
    Ok(Explanation {
        refusal,
        place,
        known,
    })
}

/// Why the program is refused, `None` where it is accepted: the refusal, the instruction that it
/// tells of, with its line in the source text, a way along the program's edges that leads there,
/// and what is known of each register there, on every way. Refused for want of memory alone.
pub fn explain(
    alloc: Global,
    need: u32,
    code: &[u8],
    helpers: &HelperTable,
    source: Option<&str>,
) -> Result<Option<Explanation>, NoMemory>
    ensures { IfOk result
        (λ told. MatchOption told (IsAllowed need code.now helpers.now)
        (λ why. IsTold need code.now helpers.now (option_map (λ text. text.now) source.entry)
        why)) }
{
    match verify(alloc, need, code, helpers) {
        Ok(_) => Ok(None),
        Err(Refusal::NoMemory) => Err(NoMemory),
        Err(refusal) => {
            let why = explain_refusal(alloc, need, code, helpers, source, refusal)?;
            Ok(Some(why))
        }
    }
}
