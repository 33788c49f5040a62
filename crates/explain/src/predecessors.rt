//! The slots that lead to each slot, one after the other, and how many edges lead there.

ghost use Rattle.std.specs.Prelude.{◌≡◌, ◌+◌, ℕ, ◌<◌, length, Some, None, slice_index_or, slice_set, IfOk};
ghost use Rattle.machine_model.specs.Edges.{Begins};
ghost use Rattle.verifier.specs.Sources.{AreLinked, link_of};

use flow_graph::{Graph, Next};
use refusal::NoMemory;
use std::alloc::Global;
use std::marker::Model;

/// The slots that lead to each slot, lowest first: a list for each slot, linked through the edges.
/// The verifier takes from its own lists what has come; these stay whole.
#[derive(Drop)]
pub(crate) struct Predecessors {
    /// The lowest slot that leads to a slot.
    first: Vec<Option<u32>>,
    /// The next slot that leads where a slot's edge to the following slot, or its only one, does.
    following: Vec<Option<u32>>,
    /// The next slot that leads where a slot's jump does.
    taken: Vec<Option<u32>>,
    /// How many edges lead to a slot, for the proof.
    edges: Vec<u32>,
}

impl Model for Predecessors {
    ghost use Rattle.verifier.specs.Sources.{Links};

    ghost Value = { Links };

    ghost view = { λ t. record {
      first = t.first.items;
      following = t.following.items;
      taken = t.taken.items;
      edges = t.edges.items;
    } };
}

impl Predecessors {
    /// No slot is linked.
    fn none(alloc: Global, slots: u32) -> Result<Predecessors, NoMemory>
        ensures first { IfOk result (λ t. (length t.first ≡ slots)
            × ((s : ℕ) → s < slots → slice_index_or t.first s None ≡ None)) }
        ensures following { IfOk result (λ t. length t.following ≡ slots) }
        ensures taken { IfOk result (λ t. length t.taken ≡ slots) }
        ensures edges { IfOk result (λ t. (length t.edges ≡ slots)
            × ((s : ℕ) → s < slots → slice_index_or t.edges s 0 ≡ 0)) }
    {
        let first = vec![in alloc; None; slots as usize]?;
        let following = vec![in alloc; None; slots as usize]?;
        let taken = vec![in alloc; None; slots as usize]?;
        let edges = vec![in alloc; 0; slots as usize]?;
        Ok(Predecessors {
            first,
            following,
            taken,
            edges,
        })
    }

    /// One edge more leads to the slot.
    fn count(&mut self, to: u32)
        requires to { to < length self.old.edges }
        requires room { slice_index_or self.old.edges to 0 < 4294967295 }
        ensures edges { self.new.edges
            ≡ slice_set self.old.edges to (slice_index_or self.old.edges to 0 + 1) }
        ensures first { self.new.first ≡ self.old.first }
        ensures following { self.new.following ≡ self.old.following }
        ensures taken { self.new.taken ≡ self.old.taken }
    {
        self.edges[to as usize] += 1;
    }

    /// The slot leads to another by its edge to the following slot, or by its only one.
    fn link_following(&mut self, from: u32, to: u32)
        requires from { from < length self.old.following }
        requires to { to < length self.old.first }
        ensures first { self.new.first ≡ slice_set self.old.first to (Some from) }
        ensures following { self.new.following
            ≡ slice_set self.old.following from (slice_index_or self.old.first to None) }
        ensures taken { self.new.taken ≡ self.old.taken }
        ensures edges { self.new.edges ≡ self.old.edges }
    {
        self.following[from as usize] = self.first[to as usize];
        self.first[to as usize] = Some(from);
    }

    /// The slot leads to another by its jump.
    fn link_taken(&mut self, from: u32, to: u32)
        requires from { from < length self.old.taken }
        requires to { to < length self.old.first }
        ensures first { self.new.first ≡ slice_set self.old.first to (Some from) }
        ensures following { self.new.following ≡ self.old.following }
        ensures taken { self.new.taken
            ≡ slice_set self.old.taken from (slice_index_or self.old.first to None) }
        ensures edges { self.new.edges ≡ self.old.edges }
    {
        self.taken[from as usize] = self.first[to as usize];
        self.first[to as usize] = Some(from);
    }

    /// The slot is linked to where its edges lead.
    fn link(&mut self, graph: &Graph, from: u32)
        requires begins { Begins graph.now.code from }
        requires linked { AreLinked graph.now.code self.old (from + 1) }
        ensures { AreLinked graph.now.code self.new from }
    {
        let slots = graph.slots();
        prove!(from < slots);
        match graph.successors(from) {
            Next::Zero => {}
            Next::One(to) => {
                self.link_following(from, to);
                self.count(to);
            }
            Next::Two(following, to) => {
                if to == following {
                    self.link_following(from, to);
                    self.count(to);
                    self.count(to);
                } else {
                    self.link_following(from, following);
                    self.link_taken(from, to);
                    self.count(following);
                    self.count(to);
                }
            }
        }
    }

    /// The slots that lead to each slot of a program.
    pub(crate) fn of(alloc: Global, graph: &Graph) -> Result<Predecessors, NoMemory>
        ensures { IfOk result (λ predecessors. AreLinked graph.now.code predecessors 0) }
    {
        let slots = graph.slots();
        let mut predecessors = Predecessors::none(alloc, slots)?;
        let mut from = slots;
        while from > 0 {
            from -= 1;
            if let Some(_) = graph.insn(from) {
                predecessors.link(graph, from);
            }
        }
        Ok(predecessors)
    }

    /// The lowest slot that leads to the slot.
    #[inline(always)]
    pub(crate) fn first(&self, to: u32) -> Option<u32>
        requires { to < length self.now.first }
        ensures { result ≡ slice_index_or self.now.first to None }
    {
        self.first[to as usize]
    }

    /// The next slot that leads to a slot, after one that leads there by one of these edges.
    #[inline(always)]
    pub(crate) fn after(&self, next: Next, from: u32, to: u32) -> Option<u32>
        requires following { from < length self.now.following }
        requires taken { from < length self.now.taken }
        ensures { result ≡ link_of self.now next from to }
    {
        match next {
            Next::Zero => None,
            Next::One(_) => self.following[from as usize],
            Next::Two(following, _) => {
                if following == to {
                    self.following[from as usize]
                } else {
                    self.taken[from as usize]
                }
            }
        }
    }
}
