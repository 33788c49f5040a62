//! What a call has to find known.

ghost use Rattle.std.specs.Prelude.{◌≡◌, ◌+◌, ◌≤◌, ◌<◌, ℤ, pos, ◌+ℤ◌};
ghost use Rattle.helpers.specs.Table.{arity_in};
ghost use Rattle.instruction_rules.specs.Covers.{abs_at};
ghost use Rattle.instruction_rules.specs.States.{first_rule, unset_fault, number_fault, region_fault, access_fault, unset_arguments, number_arguments, span_fault, length_fault, kind_fault, call_fault};

use crate::allowed::{access_fault, number_fault, unset_fault};
use crate::rule::Rule;
use crate::state::AbsState;
use helpers::HelperTable;
use value_ranges::Abs;

/// The greatest number of bytes that a helper goes over.
const GREATEST_LENGTH: u64 = 512;

/// What is known of the register of this number: nothing, where there is none.
fn argument(state: &AbsState, number: u32) -> Abs
    ensures { result ≡ abs_at state.now number }
{
    match state.registers.get(number as usize) {
        Some(abs) => *abs,
        None => Abs::Unset,
    }
}

/// The fault of an argument that is unset, of the registers from R1 on.
fn unset_arguments(state: &AbsState, arity: u32) -> Option<Rule>
    ensures { result ≡ unset_arguments state.now arity }
{
    for before in 0..arity {
        if let Some(rule) = unset_fault(&argument(state, before + 1)) {
            return Some(rule);
        }
    }
    None
}

/// The fault of an argument that has no number, of the registers from R1 on.
fn number_arguments(state: &AbsState, arity: u32) -> Option<Rule>
    ensures { result ≡ number_arguments state.now arity }
{
    for before in 0..arity {
        if let Some(rule) = number_fault(&argument(state, before + 1)) {
            return Some(rule);
        }
    }
    None
}

/// The fault of the bytes at a pointer, of which some may lie outside where they are as many as a
/// length tells.
fn span_fault(need: u32, pointer: Abs, len: &Abs) -> Option<Rule>
    ensures { result ≡ span_fault need pointer len.now }
{
    match len {
        Abs::Unset => Some(Rule::UnsetRead),
        Abs::Num(numbers) => access_fault(need, pointer, 0, numbers.greatest()),
        Abs::Stack(_) | Abs::Part(_) => Some(Rule::BadKind),
    }
}

/// The fault of a length that may be over the greatest, or is none.
fn length_fault(len: &Abs) -> Option<Rule>
    ensures { result ≡ length_fault len.now }
{
    match len {
        Abs::Unset => Some(Rule::UnsetRead),
        Abs::Num(numbers) if numbers.greatest() <= GREATEST_LENGTH => None,
        Abs::Num(_) | Abs::Stack(_) | Abs::Part(_) => Some(Rule::BadKind),
    }
}

/// The fault of a pointer and a length: of what they span, or of the length.
fn buffer_fault(need: u32, pointer: Abs, len: &Abs) -> Option<Rule>
    ensures { result ≡ first_rule (span_fault need pointer len.now) (length_fault len.now) }
{
    match span_fault(need, pointer, len) {
        Some(rule) => Some(rule),
        None => length_fault(len),
    }
}

/// The fault of an argument that isn't of its helper's kind.
fn kind_fault(need: u32, state: &AbsState, helper: u32, arity: u32) -> Option<Rule>
    ensures { result ≡ kind_fault need state.now helper arity }
{
    match helper {
        4 => match buffer_fault(need, argument(state, 1), &argument(state, 2)) {
            Some(rule) => Some(rule),
            None => number_fault(&argument(state, 3)),
        },
        5 => buffer_fault(need, argument(state, 1), &argument(state, 2)),
        _ => number_arguments(state, arity),
    }
}

/// The fault of a call: its helper isn't in the table, or an argument is unset or of another kind.
pub(crate) fn call_fault(
    need: u32,
    helpers: &HelperTable,
    state: &AbsState,
    helper: u32,
) -> Option<Rule>
    ensures { result ≡ call_fault need state.now helper (arity_in helpers.now helper) }
{
    match helpers.arity(helper) {
        None => Some(Rule::NoHelper),
        Some(arity) => match unset_arguments(state, arity) {
            Some(rule) => Some(rule),
            None => kind_fault(need, state, helper, arity),
        },
    }
}
