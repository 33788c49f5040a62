//! How many jobs of each line of numbers are held.

ghost use Rattle.std.specs.Prelude.{◌≡◌, ◌<◌, IfOk, replicate, slice_index, slice_set};

use refusal::NoMemory;
use std::alloc::Global;
use std::marker::Model;

/// A count for each of the 1,000 lines.
#[derive(Drop)]
pub struct LineCounts {
    counts: Vec<u64>,
}

impl Model for LineCounts {
    ghost use Rattle.std.specs.Prelude.{◌≡◌, ℕ, List, length};

    ghost Value = { List ℕ };

    ghost view = { λ c. c.counts.items };

    ghost invariant = { λ c. length c.counts.items ≡ 1000 };
}

impl LineCounts {
    /// No job is held.
    pub fn new(alloc: Global) -> Result<LineCounts, NoMemory>
        ensures { IfOk result (λ counts. counts ≡ replicate 1000 0) }
    {
        let Ok(counts) = vec![in alloc; 0u64; 1000] else {
            return Err(NoMemory);
        };
        Ok(LineCounts { counts })
    }

    /// The count of a line.
    pub(crate) fn at(&self, line: usize) -> u64
        requires { line < 1000 }
        ensures { result ≡ slice_index self.now line }
    {
        self.counts[line]
    }

    /// Sets the count of a line.
    pub(crate) fn set(&mut self, line: usize, count: u64)
        requires { line < 1000 }
        ensures { self.new ≡ slice_set self.old line count }
    {
        self.counts[line] = count;
    }
}
