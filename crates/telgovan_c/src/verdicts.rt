//! The verdict on a program.

ghost use Rattle.std.specs.Prelude.{◌≡◌};
ghost use Rattle.telgovan_c.specs.Verdicts.{IsVerdict, accepted_verdict, refused_verdict};

use helpers::HelperTable;
use std::alloc::Global;
use verifier::{Refusal, Verified, verify};

/// What is said of a program: `status` is 0 where it is accepted, and then `cost` is the most that
/// a run may use of its credit. Otherwise `status` is the number of the refusal, and `slot` where
/// it stands, if `has_slot`.
#[repr(C)]
#[derive(Clone, Copy)]
pub struct Verdict {
    pub status: u32,
    pub cost: u32,
    pub slot: u32,
    pub has_slot: bool,
}

/// The verdict on a program that is accepted.
pub(crate) fn accepted_verdict(program: &Verified) -> Verdict
    ensures { result ≡ accepted_verdict program.now }
{
    Verdict {
        status: 0,
        cost: program.cost(),
        slot: 0,
        has_slot: false,
    }
}

/// The verdict on one that is refused.
pub(crate) fn refused_verdict(refusal: &Refusal) -> Verdict
    ensures { result ≡ refused_verdict refusal.now }
{
    let slot = refusal.slot();
    Verdict {
        status: u32::from(refusal.code()),
        cost: 0,
        slot: slot.unwrap_or(0),
        has_slot: slot.is_some(),
    }
}

// The verdict on a program.
fn verdict_on(alloc: Global, need: u32, code: &[u8]) -> Verdict
    ensures { IsVerdict need code.now result }
{
    match verify(alloc, need, code, &HelperTable::job()) {
        Ok(program) => accepted_verdict(&program),
        Err(refusal) => refused_verdict(&refusal),
    }
}

/// Verifies a program of this need, with the helpers of a job, and answers the verdict's status.
#[unsafe(no_mangle)]
pub extern "C" fn telgovan_verify(
    alloc: Global,
    need: u32,
    code: &[u8],
    verdict: &mut Verdict,
) -> u32
    ensures verdict { IsVerdict need code.now verdict.new }
    ensures status { result ≡ verdict.new.status }
{
    *verdict = verdict_on(alloc, need, code);
    verdict.status
}
