//! The helpers that a program may call.

ghost use Rattle.std.specs.Prelude.{◌≡◌, ◌≢◌, ℕ, ◌==◌, ◌≤◌, ◌<◌, [], Some, length, slice_set, if◌then◌else◌, IfOk, OnErr};
ghost use Rattle.helpers.specs.Table.{arity_in, own_arity, job_table, IsHelperTable};

use refusal::NoMemory;
use std::alloc::Global;
use std::marker::Model;

/// The first id of a caller's own helpers.
const FIRST_ADDED: u32 = 64;

/// The helpers that a program may call: `spawn`, `credit_left`, `part_len`, `fill` and `sum`, of
/// ids 1 to 5, and those that the caller added, of ids 64 to 127. Contracts see how many arguments
/// each of the added ones takes, which has no places before the first is added.
#[derive(Drop)]
pub struct HelperTable {
    added: Option<Box<[Option<u32>; 64]>>,
}

impl Model for HelperTable {
    ghost use Rattle.std.specs.Prelude.{◌≡◌, [], unwrap_or, option_map};
    ghost use Rattle.helpers.specs.Table.{Table, IsHelperTable};

    ghost Value = { Table };

    ghost view = { λ t. unwrap_or (option_map (λ b. b.value) t.added) [] };

    ghost invariant = { λ t. IsHelperTable (unwrap_or (option_map (λ b. b.value) t.added) []) };
}

/// How many arguments each helper takes that every program may call.
fn own_arity(id: u32) -> Option<u32>
    ensures { result ≡ own_arity id }
{
    match id {
        1 => Some(4),
        2 | 3 => Some(0),
        4 => Some(3),
        5 => Some(2),
        _ => None,
    }
}

/// Puts a number of arguments at a place.
fn put(places: &mut [Option<u32>; 64], place: usize, arity: u32)
    requires { place < 64 }
    ensures set { places.new ≡ slice_set places.old place (Some arity) }
    ensures places { length places.old ≡ 64 }
{
    places[place] = Some(arity);
}

impl HelperTable {
    /// The helpers of a job's programs: none is added.
    pub fn job() -> Self
        ensures { result ≡ job_table }
    {
        HelperTable { added: None }
    }

    /// Adds a helper of the caller's own, with so many arguments, or gives the one of this id
    /// another number of them. Memory is taken for the first one alone.
    pub fn add(&mut self, alloc: Global, id: u32, arity: u32) -> Result<(), NoMemory>
        requires added { 64 ≤ id }
        requires few { id < 128 }
        requires arity { arity ≤ 5 }
        ensures ok { IfOk result (λ _. (other : ℕ)
            → arity_in self.new other
            ≡ (if other == id then Some arity else arity_in self.old other)) }
        ensures err { OnErr result (self.new ≡ self.old) }
        ensures first { OnErr result (self.old ≡ job_table) }
    {
        let place = (id - FIRST_ADDED) as usize;
        match &mut self.added {
            Some(places) => put(places, place, arity),
            None => {
                let mut places = [None; 64];
                put(&mut places, place, arity);
                self.added = Some(Box::new(alloc, places)?);
            }
        }
        Ok(())
    }

    /// A copy of the table.
    pub fn copied(&self, alloc: Global) -> Result<HelperTable, NoMemory>
        ensures same { IfOk result (λ copy. copy ≡ self.now) }
        ensures added { OnErr result (self.now ≢ job_table) }
        ensures known { IsHelperTable self.now }
    {
        let added = match &self.added {
            Some(added) => Some(Box::new(alloc, **added)?),
            None => None,
        };
        Ok(HelperTable { added })
    }

    /// How many arguments the helper of this id takes, if it is in the table.
    pub fn arity(&self, id: u32) -> Option<u32>
        ensures { result ≡ arity_in self.now id }
    {
        if id < FIRST_ADDED {
            return own_arity(id);
        }
        match &self.added {
            Some(added) => match added.get((id - FIRST_ADDED) as usize) {
                Some(arity) => *arity,
                None => None,
            },
            None => None,
        }
    }
}
