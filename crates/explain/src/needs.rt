//! The needs with which an access lies within the part, where this is known of the registers.

ghost use Rattle.std.specs.Prelude.{◌≡◌, ◌↔◌, ◌≤◌, IsTrue};
ghost use Rattle.machine_model.specs.Limits.{max_part};
ghost use Rattle.instruction_rules.specs.declared.rule.Rule.TheVariants as broken;
ghost use Rattle.explain.specs.Needs.{IsEnoughOf, LeavesPart};

use helpers::HelperTable;
use insn_codec::Insn;
use instruction_rules::{AbsState, Rule, judge};

/// The greatest need of a program.
const GREATEST_NEED: u32 = 65536;

/// The needs with which an access lies within the part.
#[derive(Clone, Copy, Debug, PartialEq, Eq)]
pub enum Enough {
    /// This one and each greater one.
    From(u32),
    /// None of those that a program may have.
    Never,
}

/// Whether the rule is that accesses of the part lie within it.
fn is_of_part(rule: Rule) -> bool
    ensures { IsTrue result ↔ (rule ≡ broken.OutOfPart) }
{
    match rule {
        Rule::OutOfPart => true,
        Rule::UnsetRead => false,
        Rule::OutOfStack => false,
        Rule::BadKind => false,
        Rule::PointerRange => false,
        Rule::FramePointer => false,
        Rule::NoHelper => false,
    }
}

/// Whether the instruction may leave the part in a program of this need.
fn leaves_part(need: u32, helpers: &HelperTable, insn: &Insn, state: &AbsState) -> bool
    ensures { IsTrue result ↔ LeavesPart helpers.now insn.now state.now need }
{
    match judge(need, helpers, insn, state) {
        Err(rule) => is_of_part(rule),
        Ok(_) => false,
    }
}

/// The needs with which the instruction no longer leaves the part; `None` where it doesn't leave it
/// with this one.
pub(crate) fn least_need(
    need: u32,
    helpers: &HelperTable,
    insn: &Insn,
    state: &AbsState,
) -> Option<Enough>
    requires { need ≤ max_part }
    ensures { IsEnoughOf helpers.now insn.now state.now need result }
{
    if !leaves_part(need, helpers, insn, state) {
        return None;
    }
    if leaves_part(GREATEST_NEED, helpers, insn, state) {
        return Some(Enough::Never);
    }
    let (mut low, mut high) = (need, GREATEST_NEED);
    while low + 1 < high {
        let middle = low + (high - low) / 2;
        if leaves_part(middle, helpers, insn, state) {
            low = middle;
        } else {
            high = middle;
        }
    }
    Some(Enough::From(high))
}
