//! Why a program is refused, as a value.

ghost use Rattle.std.specs.Prelude.{IfOk, string_bytes};
ghost use Rattle.explain.specs.Texts.{IsTextOf};

use crate::needs::Enough;
use crate::registers::RegisterLines;
use crate::wording::refusal_words;
use refusal::NoMemory;
use std::alloc::Global;
use std::fmt;
use verifier::{AbsState, Refusal};

/// The instruction at a slot.
#[derive(Drop)]
pub struct InstructionPlace {
    pub slot: u32,
    /// The number of its line in the source text, from 1 on, where there is such a text.
    pub line: Option<u64>,
    /// The instruction, as it is written.
    pub text: String,
}

/// What is known ahead of an instruction that isn't allowed.
#[derive(Drop)]
pub struct RefusalContext {
    /// The slots of a way that leads there, from slot 0 on.
    pub way: Vec<u32>,
    /// What is known of each register there, on every way.
    pub state: AbsState,
    /// Where it leaves the part, the needs with which it doesn't, where this is known.
    pub enough: Option<Enough>,
}

/// Why a program is refused. Its text tells what is wrong, and of one instruction of which that holds
/// the line of the source, if there is one, the least need where it leaves the part, a
/// way from slot 0 there, and what is known of each register ahead of it.
#[derive(Drop)]
pub struct Explanation {
    pub refusal: Refusal,
    /// Where the refusal tells the slot of an instruction.
    pub place: Option<InstructionPlace>,
    /// Where that instruction isn't allowed: 31 to 37.
    pub known: Option<RefusalContext>,
}

impl fmt::Display for InstructionPlace {
    ghost use Rattle.std.specs.Prelude.{Some};
    ghost use Rattle.explain.specs.Texts.{instruction_place_text};

    ghost output = { λ place. Some (instruction_place_text place) };

    fn fmt<W: fmt::Write>(&self, f: &mut fmt::Formatter<W>) -> fmt::Result {
        let slot = self.slot;
        match self.line {
            Some(line) => write!(f, "slot {slot}, line {line}: {}", self.text),
            None => write!(f, "slot {slot}: {}", self.text),
        }
    }
}

/// The slots of a way, each behind a space.
#[derive(Clone, Copy)]
struct WayText<'a>(&'a [u32]);

impl<'a> fmt::Display for WayText<'a> {
    ghost use Rattle.std.specs.Prelude.{Some};
    ghost use Rattle.explain.specs.Texts.{way_text};

    ghost output = { λ way. Some (way_text way.0.now) };

    fn fmt<W: fmt::Write>(&self, f: &mut fmt::Formatter<W>) -> fmt::Result {
        for slot in self.0 {
            write!(f, " {slot}")?;
        }
        Ok(())
    }
}

/// The least need with which an access lies within the part, on a line, where one doesn't.
#[derive(Clone, Copy)]
struct NeedLine(Option<Enough>);

impl fmt::Display for NeedLine {
    ghost use Rattle.std.specs.Prelude.{Some};
    ghost use Rattle.explain.specs.Texts.{need_text};

    ghost output = { λ line. Some (need_text line.0) };

    fn fmt<W: fmt::Write>(&self, f: &mut fmt::Formatter<W>) -> fmt::Result {
        match self.0 {
            Some(Enough::From(least)) => write!(f, "least need here: {least}\n"),
            Some(Enough::Never) => write!(f, "least need here: none up to 65536\n"),
            None => Ok(()),
        }
    }
}

impl fmt::Display for RefusalContext {
    ghost use Rattle.std.specs.Prelude.{Some};
    ghost use Rattle.explain.specs.Texts.{state_text};

    ghost output = { λ known. Some (state_text known) };

    fn fmt<W: fmt::Write>(&self, f: &mut fmt::Formatter<W>) -> fmt::Result {
        let (need, way) = (NeedLine(self.enough), WayText(&self.way));
        let state = RegisterLines(self.state);
        write!(f, "{need}way:{way}\nknown there:\n{state}")
    }
}

/// The line of a place, where there is one.
#[derive(Clone, Copy)]
struct PlaceLine<'a>(&'a Option<InstructionPlace>);

impl<'a> fmt::Display for PlaceLine<'a> {
    ghost use Rattle.std.specs.Prelude.{Some};
    ghost use Rattle.explain.specs.Texts.{place_line};

    ghost output = { λ line. Some (place_line line.0.now) };

    fn fmt<W: fmt::Write>(&self, f: &mut fmt::Formatter<W>) -> fmt::Result {
        match self.0 {
            Some(place) => write!(f, "{place}\n"),
            None => Ok(()),
        }
    }
}

/// The lines of what is known, where it is.
#[derive(Clone, Copy)]
struct KnownLines<'a>(&'a Option<RefusalContext>);

impl<'a> fmt::Display for KnownLines<'a> {
    ghost use Rattle.std.specs.Prelude.{Some};
    ghost use Rattle.explain.specs.Texts.{known_lines};

    ghost output = { λ lines. Some (known_lines lines.0.now) };

    fn fmt<W: fmt::Write>(&self, f: &mut fmt::Formatter<W>) -> fmt::Result {
        match self.0 {
            Some(known) => write!(f, "{known}"),
            None => Ok(()),
        }
    }
}

/// The text of an explanation behind its refusal: what is wrong, the place and what is known there.
#[derive(Clone, Copy)]
struct Reason<'a>(&'a Explanation);

impl<'a> fmt::Display for Reason<'a> {
    ghost use Rattle.std.specs.Prelude.{Some};
    ghost use Rattle.explain.specs.Texts.{reason_text};

    ghost output = { λ reason. Some (reason_text reason.0.now) };

    fn fmt<W: fmt::Write>(&self, f: &mut fmt::Formatter<W>) -> fmt::Result {
        let why = self.0;
        let (place, known) = (PlaceLine(&why.place), KnownLines(&why.known));
        let words = refusal_words(why.refusal.code());
        write!(f, "why: {words}\n{place}{known}")
    }
}

impl fmt::Display for Explanation {
    fn fmt<W: fmt::Write>(&self, f: &mut fmt::Formatter<W>) -> fmt::Result {
        write!(f, "refused {}\n{}", self.refusal, Reason(self))
    }
}

/// The text of an explanation. Refused for want of memory alone.
pub fn text_of(alloc: Global, why: &Explanation) -> Result<String, NoMemory>
    ensures { IfOk result (λ text. IsTextOf why.now (string_bytes text)) }
{
    let words = format!(in alloc; "{}", why.refusal)?;
    Ok(format!(in alloc; "refused {words}\n{}", Reason(why))?)
}
