//! The sums of a job's credit.

ghost use Rattle.std.specs.Prelude.{◌≡◌, ◌^◌, ◌<◌, sum_by};
ghost use Rattle.job_core.specs.Sums.{used_of};

use crate::live::Live;

/// Credit that live tasks hold, that ended tasks returned and spent, and that all of them have
/// used.
#[derive(Clone, Copy, Debug, PartialEq, Eq)]
pub struct Totals {
    pub held: u32,
    pub returned: u32,
    pub spent: u32,
    pub used: u32,
}

/// What the live tasks have used.
pub fn used_by_live(lives: &[Option<Live>]) -> u32
    requires { sum_by used_of lives.now < 2 ^ 32 }
    ensures { result ≡ sum_by used_of lives.now }
{
    let mut used = 0;
    for live in lives {
        if let Some(live) = live {
            used += live.credit().used;
        }
    }
    used
}
