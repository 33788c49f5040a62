//! Opening a lane, with its owner's pass and its thieves.

ghost use Rattle.std.specs.Prelude.{◌≡◌, ◌≤◌, All, IfOk, vec_len};
ghost use Rattle.lanes.specs.Interleaving.{with_thieves};
ghost use Rattle.lanes.specs.Passes.{moves_of, next_place, IsOwner, IsNewThief};

use crate::deque::{Lane, Owning, Pass, Stealing, Thief};
use crate::moves::Carried;
use refusal::NoMemory;
use std::alloc::Global;

/// A lane with no ticket, the pass of its owner, and so many thieves, 15 at most, each with a pass.
pub fn lane<T: Carried>(
    alloc: Global,
    thieves: u32,
) -> Result<(Lane<T>, Pass<Owning<T>>, Vec<(Thief<T>, Pass<Stealing<T>>)>), NoMemory>
    requires { thieves ≤ 15 }
    ensures owner { IfOk result (λ r. IsOwner r.0 r.1 × (moves_of r.1 ≡ with_thieves 0 thieves)) }
    ensures place { IfOk result (λ r. next_place r.0 ≡ 0) }
    ensures count { IfOk result (λ r. vec_len r.2 ≡ thieves) }
    ensures thieves { IfOk result (λ r. All (λ g. IsNewThief r.0 g.0 g.1) r.2.items) }
{
    let mut lane = Lane::empty(alloc)?;
    let mut all = Vec::with_capacity(alloc, thieves as usize)?;
    for _ in 0..thieves {
        all.push_reserved(lane.thief()?);
    }
    let pass = lane.owner();
    Ok((lane, pass, all))
}
