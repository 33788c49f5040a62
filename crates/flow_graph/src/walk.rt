//! A walk in depth over all instructions, which finds an order of them or a cycle.

ghost use Rattle.std.specs.Prelude.{◌≡◌, ◌<◌, ◌++◌, ◌∷◌, [], length, reverse, slice_set, IfOk};
ghost use Rattle.machine_model.specs.Edges.{Begins};
ghost use Rattle.flow_graph.specs.Flow.{IsJoined};
ghost use Rattle.flow_graph.specs.Walks.{mark_at, way_to, IsWay, IsWalk, HasEnded, HasMet, HasWalked};
ghost use Rattle.flow_graph.specs.declared.walk.Mark.TheVariants.{Open, Done};

use crate::graph::{Next, begins_at, next_of};
use insn_codec::Insn;
use refusal::NoMemory;
use std::alloc::Global;

/// How far the walk has come with an instruction.
#[derive(Clone, Copy, Debug, PartialEq, Eq)]
pub(crate) enum Mark {
    /// The walk hasn't met the instruction.
    New,
    /// The instruction is on the path that is walked.
    Open,
    /// The walk is done with all that the instruction leads to.
    Done,
}

/// How a walk goes on from an instruction.
#[derive(Clone, Copy, Debug, PartialEq, Eq)]
pub(crate) enum Way {
    /// To a slot that the walk hasn't met.
    To(u32),
    /// Back to a slot of its path.
    Back(u32),
    /// The walk is done with all that the instruction leads to.
    Finished,
}

/// A walk on its way.
#[derive(Drop)]
pub(crate) struct Walk {
    /// By slot.
    pub(crate) marks: Vec<Mark>,
    /// The slots of its path, from the first on.
    pub(crate) path: Vec<u32>,
    /// The slots that it is done with, in turn.
    pub(crate) done: Vec<u32>,
}

/// How a walk ends.
#[derive(Drop)]
pub(crate) enum Walked {
    /// With nothing left of its path.
    All(Walk),
    /// At a slot on a cycle.
    Cycle(u32),
}

impl Walk {
    /// Goes on from the slot to the next.
    fn enter(&mut self, slot: u32, next: u32) -> Result<(), NoMemory>
        requires { next < length self.old.marks.items }
        ensures marks { IfOk result (λ _. self.new.marks.items
            ≡ slice_set self.old.marks.items next Open) }
        ensures path { IfOk result (λ _. self.new.path.items ≡ (self.old.path.items ++ slot ∷ [])
            ++ next ∷ []) }
        ensures done { IfOk result (λ _. self.new.done.items ≡ self.old.done.items) }
    {
        self.path.push(slot)?;
        self.path.push(next)?;
        self.marks[next as usize] = Mark::Open;
        Ok(())
    }

    /// Is done with the slot.
    fn leave(&mut self, slot: u32) -> Result<(), NoMemory>
        requires { slot < length self.old.marks.items }
        ensures marks { IfOk result (λ _. self.new.marks.items
            ≡ slice_set self.old.marks.items slot Done) }
        ensures path { IfOk result (λ _. self.new.path.items ≡ self.old.path.items) }
        ensures done { IfOk result (λ _. self.new.done.items ≡ self.old.done.items ++ slot ∷ []) }
    {
        self.done.push(slot)?;
        self.marks[slot as usize] = Mark::Done;
        Ok(())
    }
}

/// How a walk goes on to the slot.
fn way_to(marks: &[Mark], slot: u32) -> Way
    requires { slot < length marks.now }
    ensures { result ≡ way_to (mark_at marks.now slot) slot }
{
    match marks[slot as usize] {
        Mark::New => Way::To(slot),
        Mark::Open => Way::Back(slot),
        Mark::Done => Way::Finished,
    }
}

/// How a walk goes on from the slot.
fn way_on(code: &[Option<Insn>], marks: &[Mark], slot: u32) -> Way
    requires joined { IsJoined code.now }
    requires begins { Begins code.now slot }
    requires slots { length marks.now ≡ length code.now }
    ensures { IsWay code.now marks.now slot result }
{
    match next_of(code, slot) {
        Next::Zero => Way::Finished,
        Next::One(to) => way_to(marks, to),
        Next::Two(following, to) => match way_to(marks, following) {
            Way::Finished => way_to(marks, to),
            way => way,
        },
    }
}

/// Walks on until nothing is left of the path.
fn walk_on(code: &[Option<Insn>], mut walk: Walk) -> Result<Walked, NoMemory>
    requires joined { IsJoined code.now }
    requires walk { IsWalk code.now walk.marks.items walk.path.items walk.done.items }
    ensures { IfOk result (λ walked. HasEnded code.now walk.marks.items walked) }
{
    while let Some(slot) = walk.path.pop() {
        match way_on(code, &walk.marks, slot) {
            Way::To(next) => walk.enter(slot, next)?,
            Way::Back(next) => return Ok(Walked::Cycle(next)),
            Way::Finished => walk.leave(slot)?,
        }
    }
    Ok(Walked::All(walk))
}

/// Walks from an instruction, if it hasn't been met.
fn walk_from(code: &[Option<Insn>], mut walk: Walk, slot: u32) -> Result<Walked, NoMemory>
    requires joined { IsJoined code.now }
    requires begins { Begins code.now slot }
    requires walk { IsWalk code.now walk.marks.items walk.path.items walk.done.items }
    requires ended { walk.path.items ≡ [] }
    ensures ended { IfOk result (λ walked. HasEnded code.now walk.marks.items walked) }
    ensures met { IfOk result (λ walked. HasMet slot walked) }
{
    if let Mark::New = walk.marks[slot as usize] {
        walk.path.push(slot)?;
        walk.marks[slot as usize] = Mark::Open;
        return walk_on(code, walk);
    }
    Ok(Walked::All(walk))
}

/// Walks from each instruction in turn.
pub(crate) fn walk_all(alloc: Global, code: &[Option<Insn>]) -> Result<Walked, NoMemory>
    requires { IsJoined code.now }
    ensures { IfOk result (λ walked. HasWalked code.now walked) }
{
    let slots = code.len() as u32;
    let marks = vec![in alloc; Mark::New; slots as usize]?;
    let mut walk = Walk {
        marks,
        path: Vec::new(alloc),
        done: Vec::with_capacity(alloc, slots as usize)?,
    };
    for slot in 0..slots {
        if begins_at(code, slot) {
            match walk_from(code, walk, slot)? {
                Walked::All(further) => walk = further,
                Walked::Cycle(slot) => return Ok(Walked::Cycle(slot)),
            }
        }
    }
    Ok(Walked::All(walk))
}

/// What a walk was done with, the last of it first.
pub(crate) fn order_of(walk: Walk) -> Vec<u32>
    ensures { result.items ≡ reverse walk.done.items }
{
    let Walk { mut done, .. } = walk;
    done.reverse();
    done
}
