//! The rules that an instruction keeps where it stands.

ghost use Rattle.std.specs.Prelude.{◌≡◌};
ghost use Rattle.instruction_rules.specs.Rules.{number_of_rule, pointer_rule};

use value_ranges::PointerFault;

/// A rule that an instruction breaks.
#[derive(Clone, Copy, Debug, PartialEq, Eq, Hash)]
pub enum Rule {
    /// A register that is read is set.
    UnsetRead,
    /// An access doesn't leave the stack.
    OutOfStack,
    /// An access doesn't leave the part.
    OutOfPart,
    /// A number stands where one is wanted, and a pointer where one is.
    BadKind,
    /// A pointer doesn't go too far.
    PointerRange,
    /// R10 isn't written.
    FramePointer,
    /// The helper is in the table.
    NoHelper,
}

impl Rule {
    /// The number of the refusal that tells of the rule.
    pub fn code(self) -> u8
        ensures { result ≡ number_of_rule self }
    {
        match self {
            Rule::UnsetRead => 31,
            Rule::OutOfStack => 32,
            Rule::OutOfPart => 33,
            Rule::BadKind => 34,
            Rule::PointerRange => 35,
            Rule::FramePointer => 36,
            Rule::NoHelper => 37,
        }
    }

    /// The rule that arithmetic without a result breaks.
    #[inline(always)]
    pub(crate) fn of_pointer(fault: PointerFault) -> Rule
        ensures { result ≡ pointer_rule fault }
    {
        match fault {
            PointerFault::NoResult => Rule::BadKind,
            PointerFault::TooFar => Rule::PointerRange,
        }
    }
}
