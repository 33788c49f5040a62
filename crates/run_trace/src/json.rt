//! Steps as JSON, a line each.

use crate::step::{ChangedBytes, RegisterChange, Step};
use crate::telling::{Digits, Holding};
use std::fmt;

/// A step as a JSON object.
#[derive(Clone, Copy)]
pub struct Json<'a>(pub &'a Step);

/// The bytes of a region that were written, as a member.
#[derive(Clone, Copy)]
struct RegionMember<'a>(&'a str, &'a Option<ChangedBytes>);

impl<'a> fmt::Display for RegionMember<'a> {
    ghost use Rattle.std.specs.Prelude.{Some};
    ghost use Rattle.run_trace.specs.StepObjects.{region_member};

    ghost output = { λ member. Some (region_member member.0.now member.1.now) };

    fn fmt<W: fmt::Write>(&self, f: &mut fmt::Formatter<W>) -> fmt::Result {
        match self.1 {
            Some(written) => {
                let digits = Digits(&written.bytes);
                write!(
                    f,
                    ",\"{}\":{{\"at\":{},\"bytes\":\"{digits}\"}}",
                    self.0, written.at
                )
            }
            None => Ok(()),
        }
    }
}

/// The line of the source text, as a member.
#[derive(Clone, Copy)]
struct LineMember(Option<u64>);

impl fmt::Display for LineMember {
    ghost use Rattle.std.specs.Prelude.{Some};
    ghost use Rattle.run_trace.specs.StepObjects.{line_member};

    ghost output = { λ member. Some (line_member member.0) };

    fn fmt<W: fmt::Write>(&self, f: &mut fmt::Formatter<W>) -> fmt::Result {
        match self.0 {
            Some(line) => write!(f, ",\"line\":{line}"),
            None => Ok(()),
        }
    }
}

/// A register that changed, as a member.
#[derive(Clone, Copy)]
struct RegisterMember<'a>(&'a RegisterChange);

impl<'a> fmt::Display for RegisterMember<'a> {
    ghost use Rattle.std.specs.Prelude.{Some};
    ghost use Rattle.run_trace.specs.StepObjects.{register_member};

    ghost output = { λ member. Some (register_member member.0.now) };

    fn fmt<W: fmt::Write>(&self, f: &mut fmt::Formatter<W>) -> fmt::Result {
        let change = *self.0;
        write!(
            f,
            "\"r{}\":\"{}\"",
            change.register,
            Holding(change.content)
        )
    }
}

/// Members behind the first, each behind a comma.
#[derive(Clone, Copy)]
struct FurtherMembers<'a>(&'a [RegisterChange]);

impl<'a> fmt::Display for FurtherMembers<'a> {
    ghost use Rattle.std.specs.Prelude.{Some};
    ghost use Rattle.run_trace.specs.StepObjects.{further_members};

    ghost output = { λ members. Some (further_members members.0.now) };

    fn fmt<W: fmt::Write>(&self, f: &mut fmt::Formatter<W>) -> fmt::Result {
        for change in self.0 {
            write!(f, ",{}", RegisterMember(change))?;
        }
        Ok(())
    }
}

/// The registers that changed, as members.
#[derive(Clone, Copy)]
struct RegisterMembers<'a>(&'a [RegisterChange]);

impl<'a> fmt::Display for RegisterMembers<'a> {
    ghost use Rattle.std.specs.Prelude.{Some};
    ghost use Rattle.run_trace.specs.StepObjects.{register_members};

    ghost output = { λ members. Some (register_members members.0.now) };

    fn fmt<W: fmt::Write>(&self, f: &mut fmt::Formatter<W>) -> fmt::Result {
        match self.0.split_first() {
            Some((first, more)) => {
                write!(f, "{}{}", RegisterMember(first), FurtherMembers(more))
            }
            None => Ok(()),
        }
    }
}

/// What a step changed, as members.
#[derive(Clone, Copy)]
struct Effects<'a>(&'a Step);

impl<'a> fmt::Display for Effects<'a> {
    ghost use Rattle.std.specs.Prelude.{Some};
    ghost use Rattle.run_trace.specs.StepObjects.{effect_members};

    ghost output = { λ effects. Some (effect_members effects.0.now) };

    fn fmt<W: fmt::Write>(&self, f: &mut fmt::Formatter<W>) -> fmt::Result {
        let step = self.0;
        let registers = RegisterMembers(&step.registers);
        let (stack, part) = (
            RegionMember("stack", &step.stack),
            RegionMember("part", &step.part),
        );
        write!(
            f,
            ",\"registers\":{{{registers}}}{stack}{part},\"used\":{}",
            step.used
        )
    }
}

/// The members of a step.
#[derive(Clone, Copy)]
pub(crate) struct Members<'a>(pub(crate) &'a Step);

impl<'a> fmt::Display for Members<'a> {
    ghost use Rattle.std.specs.Prelude.{Some};
    ghost use Rattle.run_trace.specs.StepObjects.{step_members};

    ghost output = { λ members. Some (step_members members.0.now) };

    fn fmt<W: fmt::Write>(&self, f: &mut fmt::Formatter<W>) -> fmt::Result {
        let step = self.0;
        let place = &step.place;
        write!(
            f,
            "\"slot\":{},\"insn\":\"{}\"{}{}",
            place.slot,
            place.text,
            LineMember(place.line),
            Effects(step)
        )
    }
}

impl<'a> fmt::Display for Json<'a> {
    ghost use Rattle.std.specs.Prelude.{Some};
    ghost use Rattle.run_trace.specs.StepObjects.{step_object};

    ghost output = { λ json. Some (step_object json.0.now) };

    fn fmt<W: fmt::Write>(&self, f: &mut fmt::Formatter<W>) -> fmt::Result {
        write!(f, "{{{}}}", Members(self.0))
    }
}
