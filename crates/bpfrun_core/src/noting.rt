//! What is known of a program that the verifier refuses, and what helps, as notes of a report.

use crate::answering::RunOptions;
use crate::form::FileForm;
use crate::helping::{general_help, help_of_bytes};
use explain::{AbsText, Enough, Explanation, RefusalContext, line_at, lines_of, refusal_words};
use flow_graph::FlowFault;
use insn_codec::{CodecFault, Insn, Placed, Register, decode};
use refusal::NoMemory;
use std::alloc::Global;
use verifier::Refusal;

// The names of the registers.
const NAMES: [&str; 11] = [
    "r0", "r1", "r2", "r3", "r4", "r5", "r6", "r7", "r8", "r9", "r10",
];

// Whether operands begin with a register, or with a place that it leads to.
fn begins_with(operands: &str, name: &str) -> bool {
    let bare = match operands.strip_prefix("[") {
        Some(rest) => rest,
        None => operands,
    };
    match bare.strip_prefix(name) {
        Some(rest) => {
            rest.is_empty()
                || rest.starts_with(",")
                || rest.starts_with("+")
                || rest.starts_with("-")
        }
        None => false,
    }
}

// Whether an instruction writes the register of its first operand, and doesn't read it.
fn writes_first(insn: &str) -> bool {
    insn.starts_with("ldx") || insn.starts_with("mov")
}

// Whether an instruction reads a register: a call those of its arguments, and the end R0.
fn reads(insn: &str, number: u8, name: &str) -> bool {
    if insn.starts_with("call ") {
        return 0 < number && number < 6;
    }
    let Some((_word, operands)) = insn.split_once(' ') else {
        return number == 0;
    };
    match operands.split_once(", ") {
        None => begins_with(operands, name),
        Some((_first, rest)) => {
            begins_with(rest, name) || !writes_first(insn) && begins_with(operands, name)
        }
    }
}

// What is known of the registers that the instruction reads, or of all.
fn note_registers(
    alloc: Global,
    mut notes: Vec<String>,
    why: &Explanation,
    known: &RefusalContext,
    is_full: bool,
) -> Result<Vec<String>, NoMemory> {
    for number in 0..11u8 {
        let name = NAMES[number as usize];
        let is_used = match &why.place {
            Some(place) => reads(place.text.as_str(), number, name),
            None => false,
        };
        if is_full || is_used {
            let content = AbsText(known.state.at(Register::new(number)));
            notes.push(format!(in alloc; "known: {name} {content}")?)?;
        }
    }
    Ok(notes)
}

// The way there.
fn note_way(
    alloc: Global,
    mut notes: Vec<String>,
    known: &RefusalContext,
) -> Result<Vec<String>, NoMemory> {
    let mut text = format!(in alloc; "way: slots")?;
    let way: &[u32] = &known.way;
    for slot in way {
        text.push_str(format!(in alloc; " {slot}")?.as_str())?;
    }
    notes.push(text)?;
    Ok(notes)
}

// The slot that a jump leads to, if this is one.
fn target_of(placed: &Placed) -> Option<i64> {
    let offset = match placed.insn {
        Insn::Jump { offset } => i64::from(offset),
        Insn::Jump32 { offset } => i64::from(offset),
        Insn::JumpIf { offset, .. } => i64::from(offset),
        _ => return None,
    };
    Some(i64::from(placed.slot) + 1 + offset)
}

// The first jump from a slot, or from behind it, to that slot: its number, and its own slot.
fn jump_back(placed: &[Placed], slot: u32) -> Option<(usize, u32)> {
    for index in 0..placed.len() {
        let from = &placed[index];
        if from.slot >= slot && target_of(from) == Some(i64::from(slot)) {
            return Some((index, from.slot));
        }
    }
    None
}

// What helps with a loop whose lowest slot is this one.
fn help_of_loop(
    alloc: Global,
    form: FileForm,
    input: &[u8],
    code: &[u8],
    slot: u32,
) -> Result<String, NoMemory> {
    let general = general_help(23);
    let placed = match decode(alloc, code) {
        Ok(placed) => placed,
        Err(CodecFault::NoMemory) => return Err(NoMemory),
        Err(_) => return Ok(format!(in alloc; "{general}")?),
    };
    let Some((index, from)) = jump_back(&placed, slot) else {
        return Ok(format!(in alloc; "{general}")?);
    };
    if form != FileForm::Text {
        return Ok(format!(in alloc; "slot {from} jumps back: {general}")?);
    }
    match line_at(&lines_of(alloc, input)?, index) {
        Some(line) => Ok(format!(in alloc; "line {} jumps back: {general}", line.number)?),
        None => Ok(format!(in alloc; "slot {from} jumps back: {general}")?),
    }
}

// What helps where the part is left.
fn help_of_need(alloc: Global, enough: Option<Enough>) -> Result<String, NoMemory> {
    match enough {
        Some(Enough::From(least)) => Ok(format!(in alloc; "--need {least}")?),
        Some(Enough::Never) => Ok(format!(in alloc;
            "no need allows this: let a jump test the index ahead of it"
        )?),
        None => Ok(format!(in alloc; "{}", general_help(33))?),
    }
}

// Whether the refusal is of the end of the program.
fn is_at_exit(why: &Explanation) -> bool {
    match &why.place {
        Some(place) => place.text.as_str() == "exit",
        None => false,
    }
}

// What helps.
fn help_of(
    alloc: Global,
    asked: &RunOptions<'_>,
    input: &[u8],
    code: &[u8],
    why: &Explanation,
) -> Result<String, NoMemory> {
    match why.refusal {
        Refusal::OutOfPart(_) => match &why.known {
            Some(known) => help_of_need(alloc, known.enough),
            None => help_of_need(alloc, None),
        },
        Refusal::Flow(FlowFault::Cycle(slot)) => help_of_loop(alloc, asked.form, input, code, slot),
        Refusal::BadKind(_) if is_at_exit(why) => Ok(format!(in alloc;
            "r0 holds a pointer at `exit`: end with a number there"
        )?),
        Refusal::Codec(_) => {
            let text = help_of_bytes(asked.form, input, why.refusal.code());
            Ok(format!(in alloc; "{text}")?)
        }
        _ => Ok(format!(in alloc; "{}", general_help(why.refusal.code()))?),
    }
}

// The slot, and where no line is shown the instruction.
fn note_place(alloc: Global, why: &Explanation) -> Result<Vec<String>, NoMemory> {
    let mut notes = Vec::new(alloc);
    let Some(slot) = why.refusal.slot() else {
        return Ok(notes);
    };
    match &why.place {
        Some(place) if place.line.is_none() => notes.push(format!(in alloc; "at: {place}")?)?,
        _ => notes.push(format!(in alloc; "at: slot {slot}")?)?,
    }
    Ok(notes)
}

/// The notes of a refusal: where it stands, what is known there, and what helps.
pub(crate) fn notes_of(
    alloc: Global,
    asked: &RunOptions<'_>,
    input: &[u8],
    code: &[u8],
    why: &Explanation,
) -> Result<Vec<String>, NoMemory> {
    let mut notes = note_place(alloc, why)?;
    if let Some(known) = &why.known {
        notes = note_registers(alloc, notes, why, known, asked.explains)?;
        if asked.explains {
            notes = note_way(alloc, notes, known)?;
        }
    }
    let help = help_of(alloc, asked, input, code, why)?;
    notes.push(format!(in alloc; "help: {help}")?)?;
    Ok(notes)
}

// What kind of access an instruction is.
fn kind_of(insn: &str) -> &'static str {
    if insn.starts_with("ldx") {
        "load"
    } else if insn.starts_with("st") {
        "store"
    } else {
        "call"
    }
}

/// What is wrong.
pub(crate) fn words_of(alloc: Global, need: u32, why: &Explanation) -> Result<String, NoMemory> {
    match why.refusal {
        Refusal::OutOfPart(_) => {
            let kind = match &why.place {
                Some(place) => kind_of(place.text.as_str()),
                None => "access",
            };
            Ok(format!(in alloc;
                "this {kind} may leave the {need} bytes that the program may count on"
            )?)
        }
        _ => Ok(format!(in alloc; "{}", refusal_words(why.refusal.code()))?),
    }
}
