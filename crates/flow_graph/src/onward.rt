//! How an instruction goes on.

ghost use Rattle.std.specs.Prelude.{◌≡◌, ◌<◌};
ghost use Rattle.machine_model.specs.Edges.{target};
ghost use Rattle.flow_graph.specs.Onward.{onward_of};
ghost use Rattle.insn_codec.specs.Limits.{max_slots};

use insn_codec::Insn;

/// How an instruction goes on. Offsets count from the slot after it.
#[derive(Clone, Copy, Debug, PartialEq, Eq)]
pub(crate) enum Onward {
    /// To the slot after it.
    Steps,
    /// To the slot after its second one.
    StepsWide,
    /// To a target.
    Jumps(i32),
    /// To the slot after it, or to a target.
    Branches(i32),
    /// Nowhere.
    Ends,
}

/// How the instruction goes on.
#[inline(always)]
pub(crate) fn onward_of(insn: &Insn) -> Onward
    ensures { result ≡ onward_of insn.now }
{
    match insn {
        Insn::LoadWide { .. } => Onward::StepsWide,
        Insn::Jump { offset } => Onward::Jumps(i32::from(*offset)),
        Insn::Jump32 { offset } => Onward::Jumps(*offset),
        Insn::JumpIf { offset, .. } => Onward::Branches(i32::from(*offset)),
        Insn::Exit => Onward::Ends,
        _ => Onward::Steps,
    }
}

/// The slot that a jump leads to, `None` where it lies below 0.
pub(crate) fn target(slot: u32, offset: i32) -> Option<u32>
    requires { slot < max_slots }
    ensures { result ≡ target slot offset }
{
    let to = i64::from(slot) + 1 + i64::from(offset);
    if to < 0 { None } else { Some(to as u32) }
}
