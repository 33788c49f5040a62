//! Numbers of the slots by their strongly connected components: those slots have one number that
//! paths join in both directions. Nothing is proved of the numbers, and `crate::cycle` checks what it
//! needs of them: a mistake here would cost time and change no answer.

ghost use Rattle.std.specs.Prelude.{◌≡◌};
ghost use Rattle.flow_graph.specs.Flow.{IsJoined};
ghost use Rattle.flow_graph.specs.Numbers.{number_at};

use crate::graph::{Next, begins_at, next_of};
use insn_codec::Insn;
use refusal::NoMemory;
use std::alloc::Global;

/// A walk in depth that numbers the components (Tarjan's algorithm, in Pearce's form).
#[derive(Drop)]
struct Numbering {
    /// By slot: 0 ahead of the walk, then the turn of the lowest slot that it is known to lead back
    /// to, and at last the number of its component.
    numbers: Vec<u32>,
    /// The slots of the walk's path, from the first on.
    path: Vec<u32>,
    /// The slots that the walk has left ahead of their component's first slot.
    waiting: Vec<u32>,
    /// The turn of the slot that was entered last.
    turn: u32,
    /// The next component's number. A component is complete after those that it leads to, and gets
    /// a lower number. Turns are lower than all of these.
    component: u32,
}

/// The slot's number.
pub(crate) fn number_of(numbers: &[u32], slot: u32) -> u32
    ensures { result ≡ number_at numbers.now slot }
{
    match numbers.get(slot as usize) {
        Some(number) => *number,
        None => 0,
    }
}

/// Gives the slot a number.
fn set_number(numbers: &mut Vec<u32>, slot: u32, number: u32) {
    if let Some(place) = numbers.get_mut(slot as usize) {
        *place = number;
    }
}

/// The first of the slots ahead that the walk hasn't entered.
fn unmet(numbers: &[u32], next: Next) -> Option<u32> {
    match next {
        Next::Zero => None,
        Next::One(to) => if number_of(numbers, to) == 0 {
            Some(to)
        } else {
            None
        },
        Next::Two(following, to) => {
            if number_of(numbers, following) == 0 {
                Some(following)
            } else if number_of(numbers, to) == 0 {
                Some(to)
            } else {
                None
            }
        }
    }
}

/// The lowest number of the slots ahead.
fn lowest(numbers: &[u32], next: Next) -> u32 {
    match next {
        Next::Zero => u32::MAX,
        Next::One(to) => number_of(numbers, to),
        Next::Two(following, to) => number_of(numbers, following).min(number_of(numbers, to)),
    }
}

impl Numbering {
    /// Goes on to the slot.
    fn enter(&mut self, slot: u32) -> Result<(), NoMemory> {
        self.path.push(slot)?;
        self.turn = self.turn.saturating_add(1);
        set_number(&mut self.numbers, slot, self.turn);
        Ok(())
    }

    /// Leaves the slot. It waits where it leads back to a slot that was entered before it. Else it is
    /// the first of its component.
    fn leave(&mut self, slot: u32, lowest: u32) -> Result<(), NoMemory> {
        let turn = number_of(&self.numbers, slot);
        if lowest < turn {
            set_number(&mut self.numbers, slot, lowest);
            self.waiting.push(slot)?;
            return Ok(());
        }
        set_number(&mut self.numbers, slot, self.component);
        self.complete(turn)
    }

    /// Numbers what waits for the component whose first slot was entered at this turn.
    fn complete(&mut self, turn: u32) -> Result<(), NoMemory> {
        while let Some(slot) = self.waiting.pop() {
            if number_of(&self.numbers, slot) < turn {
                self.waiting.push(slot)?;
                break;
            }
            set_number(&mut self.numbers, slot, self.component);
        }
        self.component = self.component.saturating_sub(1);
        Ok(())
    }

    /// Goes one slot on or back. Tells whether there was one.
    fn advance(&mut self, code: &[Option<Insn>]) -> Result<bool, NoMemory>
        requires { IsJoined code.now }
    {
        let Some(slot) = self.path.pop() else {
            return Ok(false);
        };
        if !begins_at(code, slot) {
            return Ok(false);
        }
        let next = next_of(code, slot);
        match unmet(&self.numbers, next) {
            Some(to) => {
                self.path.push(slot)?;
                self.enter(to)?;
            }
            None => {
                let lowest = lowest(&self.numbers, next);
                self.leave(slot, lowest)?;
            }
        }
        Ok(true)
    }
}

/// The numbers of the slots by their components, in time linear in the slots. An edge leads to the
/// same number, or to a larger one.
pub(crate) fn component_numbers(alloc: Global, code: &[Option<Insn>]) -> Result<Vec<u32>, NoMemory>
    requires { IsJoined code.now }
{
    let slots = code.len() as u32;
    let mut numbering = Numbering {
        numbers: vec![in alloc; 0; code.len()]?,
        path: Vec::new(alloc),
        waiting: Vec::new(alloc),
        turn: 0,
        component: u32::MAX,
    };
    for slot in 0..slots {
        if begins_at(code, slot) && number_of(&numbering.numbers, slot) == 0 {
            numbering.enter(slot)?;
            // each slot is entered once and left once
            for _turn in 0..2 * slots {
                if !numbering.advance(code)? {
                    break;
                }
            }
        }
    }
    Ok(numbering.numbers)
}
