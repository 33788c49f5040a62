//! A runner for one desk of many, which share the runner of all jobs.

ghost use Rattle.std.specs.Prelude.{◌≡◌, ◌≤◌, ◌<◌, ◌+◌, ◌^◌, IfSome, None};
ghost use Rattle.tenant_desks.specs.Placing.{placed};

use credit_book::{Progress, Report};
use job_core::Job;
use std::alloc::Global;
use streams::Runner;

// How many places there may be.
const PLACES: u64 = 1000;

// The number of the refusal of a start where so many jobs are open that none more can be.
const TOO_MANY: u8 = 81;

/// The runner of all jobs, for the desk at a place: each job of the desk has a number of its own
/// there.
///
/// A job whose number there passes 64 bits isn't started: 81. Ends of jobs are taken from the
/// runner of all jobs alone.
#[derive(Drop)]
pub struct PlacedRunner<N> {
    pub runner: N,
    pub place: u16,
}

/// A job's number at the runner of all jobs; none where it passes 64 bits.
pub fn placed_number(number: u64, place: u16) -> Option<u64>
    ensures fits { IfSome result (λ n. (n ≡ placed number place) × (placed number place < 2 ^ 64)) }
    ensures none { result ≡ None → 2 ^ 64 ≤ placed number place }
{
    match number.checked_mul(PLACES) {
        Some(first) => first.checked_add(u64::from(place)),
        None => None,
    }
}

/// A job's number at its own desk, and the desk's place.
pub fn own_number(number: u64) -> (u64, usize)
    ensures is { number ≡ placed result.0 result.1 }
    ensures small { result.1 < 1000 }
{
    (number / PLACES, (number % PLACES) as usize)
}

impl<N: Runner> Runner for PlacedRunner<N> {
    ghost use Rattle.tenant_desks.specs.PlacedRunners.{looks_placed, starts_placed, takes_placed};

    ghost held = { λ p. N.held p.runner };

    ghost ready = { λ p. N.ready p.runner };

    ghost starts = { starts_placed N.starts };

    ghost looks = { looks_placed N.looks };

    ghost takes = { takes_placed };

    fn start(&mut self, alloc: Global, number: u64, job: Job) -> Result<(), u8> {
        match placed_number(number, self.place) {
            Some(number) => self.runner.start(alloc, number, job),
            None => Err(TOO_MANY),
        }
    }

    fn look(&mut self, number: u64) -> Progress {
        match placed_number(number, self.place) {
            Some(number) => self.runner.look(number),
            None => Progress {
                spent: 0,
                returned: 0,
                complete: false,
            },
        }
    }

    fn take(&mut self) -> Option<(u64, Result<Report, u8>)> {
        None
    }
}
