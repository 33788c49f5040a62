//! The limits of lines of numbers: one for all lines, and those of some by themselves.

ghost use Rattle.std.specs.Prelude.{◌≡◌};
ghost use Rattle.job_pools.specs.LineLimiting.{line_limit};

use std::marker::Model;

/// How many jobs of each line may be held. 0 allows any number.
#[derive(Drop)]
pub struct LineLimits {
    all: u32,
    own: Vec<Option<u32>>,
}

impl Model for LineLimits {
    ghost use Rattle.job_pools.specs.LineLimiting.{LimitsByLine};

    ghost Value = { LimitsByLine };

    ghost view = { λ l. record {
      all = l.all;
      own = l.own.items;
    } };
}

impl LineLimits {
    /// One limit for all lines, and the limits of their own that some have, by line from 0 on.
    pub fn new(all: u32, own: Vec<Option<u32>>) -> LineLimits
        ensures { result ≡ record { all = all; own = own.items } }
    {
        LineLimits { all, own }
    }

    /// The limit of a line.
    pub(crate) fn at(&self, line: usize) -> u32
        ensures { result ≡ line_limit self.now line }
    {
        match self.own.get(line) {
            Some(own) => match own {
                Some(own) => *own,
                None => self.all,
            },
            None => self.all,
        }
    }
}
