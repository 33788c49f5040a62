//! States that are needed further, and the boxes that hold them.

ghost use Rattle.std.specs.Prelude.{◌≡◌, IfOk, if◌then◌else◌};
ghost use Rattle.machine_model.specs.Edges.{NotTaken, Taken};
ghost use Rattle.instruction_rules.specs.Joining.{joined_into};
ghost use Rattle.instruction_rules.specs.Judged.{destination_left};
ghost use Rattle.instruction_rules.specs.States.{joined_state, transferred};

use insn_codec::Insn;
use instruction_rules::{AbsState, transfer};
use refusal::NoMemory;
use std::alloc::Global;
use std::marker::Model;
use value_ranges::Abs;

/// A state that is handed on from slot to slot, in a box.
#[derive(Drop)]
pub(crate) struct Held {
    state: Box<AbsState>,
}

impl Model for Held {
    ghost use Rattle.instruction_rules.specs.declared.state.AbsState.{AbsState};

    ghost Value = { AbsState };

    ghost view = { λ h. h.state.value };
}

impl Held {
    /// The state, in memory of its own.
    pub(crate) fn new(alloc: Global, state: &AbsState) -> Result<Held, NoMemory>
        ensures { IfOk result (λ held. held ≡ state.now) }
    {
        Ok(Held {
            state: Box::new(alloc, *state)?,
        })
    }

    /// The state.
    pub(crate) fn get(&self) -> &AbsState
        ensures { result.now ≡ self.now }
    {
        &self.state
    }

    /// The state becomes what is known after an instruction.
    #[inline(always)]
    pub(crate) fn transfer(&mut self, insn: &Insn, taken: bool, left: &Abs)
        requires { left.now ≡ destination_left insn.now self.old }
        ensures { self.new ≡ transferred insn.now (if taken then Taken else NotTaken) self.old }
    {
        transfer(&mut self.state, insn, taken, left);
    }

    /// Joins the state into the one at a place. A box that is no longer needed is reused for the
    /// next copy.
    #[inline(always)]
    pub(crate) fn join_into(self, place: &mut Option<Held>, boxes: &mut Boxes)
        ensures { place.new ≡ joined_into place.old self }
    {
        match place {
            Some(before) => {
                before.state.join(&self.state);
                boxes.free = Some(self);
            }
            None => *place = Some(self),
        }
    }
}

/// Where copies of states get their boxes: one that is needed no longer, or new memory.
#[derive(Drop)]
pub(crate) struct Boxes {
    alloc: Global,
    free: Option<Held>,
}

impl Boxes {
    /// No box is free.
    pub(crate) fn new(alloc: Global) -> Boxes {
        Boxes { alloc, free: None }
    }

    /// A copy of the state, in a box of its own.
    pub(crate) fn copy(&mut self, state: &AbsState) -> Result<Held, NoMemory>
        ensures { IfOk result (λ held. held ≡ state.now) }
    {
        match self.free.take() {
            Some(mut held) => {
                *held.state = *state;
                Ok(held)
            }
            None => Held::new(self.alloc, state),
        }
    }
}
