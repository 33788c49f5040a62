//! What is known along the edges that leave an instruction.

ghost use Rattle.std.specs.Prelude.{◌≡◌, if◌then◌else◌};
ghost use Rattle.machine_model.specs.Edges.{NotTaken, Taken};
ghost use Rattle.value_ranges.specs.Refinements.{IsConditional, refined_by};
ghost use Rattle.instruction_rules.specs.Covers.{abs_at};
ghost use Rattle.instruction_rules.specs.Judged.{destination_left};
ghost use Rattle.instruction_rules.specs.States.{transferred, operand_at, refined_state};

use crate::state::AbsState;
use insn_codec::{Insn, Operand, Register};
use value_ranges::{Abs, refine};

/// A conditional jump tells of its operands on this edge.
#[inline(always)]
fn refine_operands(state: &mut AbsState, insn: &Insn, taken: bool, dst: Register, src: &Operand)
    requires { IsConditional insn.now }
    ensures { state.new ≡ refined_state state.old dst src.now
        (refined_by insn.now taken (abs_at state.old dst) (operand_at state.old src.now)) }
{
    let (left, right) = refine(insn, taken, state.at(dst), state.operand(src));
    state.set_operands(dst, src, left, right);
}

/// The transfer function of an instruction: the state becomes what is known after it, on the edge
/// of a jump that is taken or on another edge.
#[inline(always)]
pub fn transfer(state: &mut AbsState, insn: &Insn, taken: bool, left: &Abs)
    requires { left.now ≡ destination_left insn.now state.old }
    ensures { state.new ≡ transferred insn.now (if taken then Taken else NotTaken) state.old }
{
    match *insn {
        Insn::Alu { dst, .. }
        | Insn::Mov { dst, .. }
        | Insn::MovSx { dst, .. }
        | Insn::Neg { dst, .. }
        | Insn::End { dst, .. }
        | Insn::LoadWide { dst, .. }
        | Insn::Load { dst, .. } => state.set(dst, *left),
        Insn::Call { .. } => state.set_answer(*left),
        Insn::JumpIf { dst, src, .. } => refine_operands(state, insn, taken, dst, &src),
        Insn::Store { .. }
        | Insn::StoreRegister { .. }
        | Insn::Jump { .. }
        | Insn::Jump32 { .. }
        | Insn::Exit => {}
    }
}
