//! A table of costs by slot.

ghost use Rattle.std.specs.Prelude.{◌≡◌, ◌<◌, length, slice_index};

use std::marker::Model;

/// The cost of each slot.
#[derive(Drop)]
pub struct Costs {
    table: Vec<u32>,
}

impl Model for Costs {
    ghost use Rattle.std.specs.Prelude.{List, ℕ};

    ghost Value = { List ℕ };

    ghost view = { λ c. c.table.items };
}

impl Costs {
    /// The costs in a list.
    pub(crate) fn of(table: Vec<u32>) -> Costs
        ensures { result ≡ table.items }
    {
        Costs { table }
    }

    /// The greatest sum of prices over all paths from the slot to an exit.
    pub fn at(&self, slot: u32) -> u32
        requires { slot < length self.now }
        ensures { result ≡ slice_index self.now slot }
    {
        self.table[slot as usize]
    }

    /// The costs as a list, by slot.
    pub fn into_table(self) -> Vec<u32>
        ensures { result.items ≡ self }
    {
        let Costs { table } = self;
        table
    }
}
