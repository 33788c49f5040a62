//! What the definitions mean: what each refusal says of the program, and that none has two.

ghost use Rattle.std.specs.Prelude.{◌≡◌, ◌≢◌, ◌↔◌, ℕ, List, Some, None};
ghost use Rattle.insn_codec.specs.declared.insn.Insn.{Insn};
ghost use Rattle.insn_codec.specs.declared.insn.Placed.{Placed};
ghost use Rattle.machine_model.specs.Edges.{Code, insn_at};
ghost use Rattle.flow_graph.specs.Cycles.{IsOnCycle};
ghost use Rattle.flow_graph.specs.Faults.{fault_at};
ghost use Rattle.flow_graph.specs.Flow.{Flow, IsOrder};
ghost use Rattle.flow_graph.specs.Landings.{JumpsOut, JumpsInto, IsLast, IsSettled};
ghost use Rattle.flow_graph.specs.Program.{code_of, IsDecoded};
ghost use Rattle.flow_graph.specs.Refusals.{Refuses, IsBuilt};
ghost use Rattle.flow_graph.specs.declared.fault.FlowFault.{FlowFault};
ghost use Rattle.flow_graph.specs.declared.fault.FlowFault.TheVariants.{JumpOut, IntoWide, FallsOff, NoMemory};

/// Where the instructions have an order, no path of one edge or more leads back to its slot.
pub fn orders_have_no_cycle()
    ensures { (code : Code) (order : List ℕ) (slot : ℕ) → IsOrder code order → IsOnCycle code slot
        → ⊥ }
{}

/// A program has one refusal at most, but for want of memory.
pub fn one_refusal()
    ensures { (code : Code) (f g : FlowFault) → Refuses code f → Refuses code g → f ≢ NoMemory
        → g ≢ NoMemory → f ≡ g }
{}

/// A program that has a graph is refused for want of memory alone.
pub fn nothing_refused()
    ensures { (code : Code) (graph : Flow) (f : FlowFault) → IsBuilt code graph → Refuses code f
        → f ≡ NoMemory }
{}

/// Where an instruction begins, 21 is told of a jump whose target is below slot 0 or not under the
/// number of slots.
pub fn jumps_out()
    ensures { (code : Code) (slot : ℕ) (i : Insn) → insn_at code slot ≡ Some i
        → (fault_at code slot ≡ Some (JumpOut slot)) ↔ JumpsOut code slot i }
{}

/// 22 is told of a jump to a slot of the code where no instruction begins.
pub fn jumps_into()
    ensures { (code : Code) (slot : ℕ) (i : Insn) → insn_at code slot ≡ Some i
        → (fault_at code slot ≡ Some (IntoWide slot)) ↔ JumpsInto code slot i }
{}

/// 24 is told of an instruction that goes on where nothing stands after it, and that has no fault
/// of a jump.
pub fn falls_off()
    ensures { (code : Code) (slot : ℕ) (i : Insn) → insn_at code slot ≡ Some i
        → (fault_at code slot ≡ Some (FallsOff slot))
        ↔ (IsLast code slot i × (JumpsOut code slot i → ⊥) × (JumpsInto code slot i → ⊥)) }
{}

/// Nothing is told of an instruction of a decoded program whose target isn't below slot 0, where it
/// has one, and whose edges all lead to instructions.
pub fn edges_are_settled()
    ensures { (placed : List Placed) (slot : ℕ) (i : Insn) → IsDecoded placed
        → insn_at (code_of placed) slot ≡ Some i
        → (fault_at (code_of placed) slot ≡ None) ↔ IsSettled (code_of placed) slot i }
{}
