//! The functions that a caller has registered.

ghost use Rattle.std.specs.Prelude.{◌≡◌, ℕ, ◌-◌, ◌<◌, ◌≤◌, [], length, slice_set, Some, option_map, OnOk};

use crate::registered::Registered;
use helpers::{Entry, SpawnRecord, Spawner};
use refusal::NoMemory;
use std::alloc::Global;

/// The first id of a registered function.
const FIRST_REGISTERED: u32 = 64;

/// How many ids there are.
const PLACES: usize = 64;

/// The functions by their ids less 64: none, or as many places as there are ids, which are 64 to
/// 127. Nothing is spawned beside them.
#[derive(Drop)]
pub struct Functions {
    places: Vec<Option<Registered>>,
}

impl Functions {
    ghost use Rattle.virtual_machine.specs.Functions.{function_of};

    /// No functions.
    pub fn none(alloc: Global) -> Functions
        ensures { result.places.items ≡ [] }
    {
        Functions {
            places: Vec::new(alloc),
        }
    }

    /// Makes the places, where there are none.
    pub(crate) fn make_room(&mut self, alloc: Global) -> Result<(), NoMemory>
        ensures room { OnOk result (64 ≤ length self.new.places.items) }
        ensures same { (id : ℕ)
            → function_of self.new.places.items id ≡ function_of self.old.places.items id }
    {
        while self.places.len() < PLACES {
            self.places.push(None)?;
        }
        Ok(())
    }

    /// Registers the function of an id, in place of the one that it had.
    pub(crate) fn put(&mut self, id: u32, registered: Registered)
        requires id { (64 ≤ id) × (id < 128) }
        requires room { 64 ≤ length self.old.places.items }
        ensures { self.new.places.items
            ≡ slice_set self.old.places.items (id - 64) (Some registered) }
    {
        self.places[(id - FIRST_REGISTERED) as usize] = Some(registered);
    }

    /// The function of an id, if it has one.
    fn get(&self, id: u32) -> Option<&Registered>
        ensures { option_map (λ f. f.now) result ≡ function_of self.now.places.items id }
    {
        if id < FIRST_REGISTERED {
            return None;
        }
        match self.places.get((id - FIRST_REGISTERED) as usize) {
            Some(Some(registered)) => Some(registered),
            _ => None,
        }
    }
}

impl Spawner for Functions {
    ghost use Rattle.std.specs.Prelude.{◌≡◌, Err};
    ghost use Rattle.machine_model.specs.Alone.{no_entries};
    ghost use Rattle.virtual_machine.specs.Functions.{function_of, may_answer};

    ghost entries = { λ s. no_entries };

    ghost asks = { λ s child. Unit {0} };

    ghost spawns = { λ s child reply s'. (s' ≡ s) × (reply ≡ Err child) };

    ghost calls = { λ s id arguments answer s'. (s' ≡ s)
        × may_answer (function_of s.places.items id) arguments answer };

    fn entry(&self, _program: u64) -> Option<Entry> {
        None
    }

    fn spawn(&mut self, child: SpawnRecord) -> Result<(), SpawnRecord> {
        Err(child)
    }

    fn call(&mut self, id: u32, arguments: [u64; 5]) -> u64 {
        match self.get(id) {
            Some(registered) => registered.answer(arguments),
            None => 0,
        }
    }
}
