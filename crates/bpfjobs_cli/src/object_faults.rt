//! Where a text is no job object, in words for whoever wrote it.

ghost use Rattle.std.specs.Prelude.{◌≡◌, IfOk, MatchOption, None, Ok};
ghost use Rattle.bpfjobs_cli.specs.ObjectFaults.{IsJobText, IsNoJobText};

use refusal::NoMemory;
use serde_json::{Category, Value};
use sessions::{SessionFault, job_object};
use std::alloc::Global;
use std::fmt;

const U32_MAX: u64 = 4_294_967_295;

/// A part of a job object. A program and an entry of the schedule have their place, from 0 on.
#[derive(Clone, Copy, Debug, PartialEq, Eq)]
pub enum ObjectPart {
    Object,
    Credit,
    Buffer,
    Programs,
    Need(usize),
    Code(usize),
    Schedule,
    Entry(usize),
}

impl fmt::Display for ObjectPart {
    fn fmt<W: fmt::Write>(&self, f: &mut fmt::Formatter<W>) -> fmt::Result {
        match self {
            ObjectPart::Object => write!(f, "the text"),
            ObjectPart::Credit => write!(f, "credit"),
            ObjectPart::Buffer => write!(f, "buffer"),
            ObjectPart::Programs => write!(f, "programs"),
            ObjectPart::Need(n) => write!(f, "programs[{n}].need"),
            ObjectPart::Code(n) => write!(f, "programs[{n}].code"),
            ObjectPart::Schedule => write!(f, "schedule"),
            ObjectPart::Entry(n) => write!(f, "schedule[{n}]"),
        }
    }
}

impl ObjectPart {
    // The value that is wanted there.
    fn wanted(self) -> &'static str {
        match self {
            ObjectPart::Object => "a JSON object",
            ObjectPart::Credit | ObjectPart::Need(_) | ObjectPart::Entry(_) => {
                "a whole number from 0 to 4294967295"
            }
            ObjectPart::Buffer | ObjectPart::Code(_) => "a text of pairs of hexadecimal digits",
            ObjectPart::Programs => "a list of programs",
            ObjectPart::Schedule => "a list of task numbers",
        }
    }
}

/// The reason why a text is no job object.
#[derive(Clone, Copy, Debug, PartialEq, Eq)]
pub enum ObjectFault {
    /// It is no JSON from this line and column on, each from 1.
    NotJson { line: usize, column: usize },
    /// This part is missing, or is another value.
    Wrong(ObjectPart),
}

impl fmt::Display for ObjectFault {
    fn fmt<W: fmt::Write>(&self, f: &mut fmt::Formatter<W>) -> fmt::Result {
        match self {
            ObjectFault::NotJson { line, column } => {
                write!(f, "line {line}, column {column}: this is no JSON")
            }
            ObjectFault::Wrong(part) => write!(f, "{part}: {} is wanted", part.wanted()),
        }
    }
}

fn is_number(value: Option<&Value>) -> bool {
    match value.and_then(Value::as_u64) {
        Some(number) => number <= U32_MAX,
        None => false,
    }
}

fn is_hexadecimal(alloc: Global, value: Option<&Value>) -> bool {
    match value.and_then(Value::as_str) {
        Some(text) => hex::decode(alloc, text.as_bytes()).is_ok(),
        None => false,
    }
}

// The first part of the programs that is wrong.
fn wrong_program(alloc: Global, value: &Value) -> Option<ObjectPart> {
    let Some(programs) = value.get("programs").and_then(Value::as_array) else {
        return Some(ObjectPart::Programs);
    };
    for (place, program) in programs.iter().enumerate() {
        if !is_number(program.get("need")) {
            return Some(ObjectPart::Need(place));
        }
        if !is_hexadecimal(alloc, program.get("code")) {
            return Some(ObjectPart::Code(place));
        }
    }
    None
}

// The first part of the schedule that is wrong.
fn wrong_entry(value: &Value) -> Option<ObjectPart> {
    let Some(entries) = value.get("schedule").and_then(Value::as_array) else {
        return Some(ObjectPart::Schedule);
    };
    for (place, entry) in entries.iter().enumerate() {
        if !is_number(Some(entry)) {
            return Some(ObjectPart::Entry(place));
        }
    }
    None
}

// The first part of an object that is wrong.
fn wrong_part(alloc: Global, value: &Value, wants_schedule: bool) -> ObjectPart {
    if value.as_object().is_none() {
        return ObjectPart::Object;
    }
    if !is_number(value.get("credit")) {
        return ObjectPart::Credit;
    }
    if !is_hexadecimal(alloc, value.get("buffer")) {
        return ObjectPart::Buffer;
    }
    if let Some(part) = wrong_program(alloc, value) {
        return part;
    }
    if wants_schedule {
        if let Some(part) = wrong_entry(value) {
            return part;
        }
    }
    ObjectPart::Object
}

// The first part of a text that is JSON, and no job object, that is wrong.
fn wrong_in(alloc: Global, text: &[u8], wants_schedule: bool) -> Result<ObjectPart, NoMemory> {
    match Value::from_slice(alloc, text) {
        Ok(value) => Ok(wrong_part(alloc, &value, wants_schedule)),
        Err(error) if error.classify() == Category::Memory => Err(NoMemory),
        Err(_) => Ok(ObjectPart::Object),
    }
}

// The line and the column from which on a text is no JSON.
fn end_of_json(alloc: Global, text: &[u8]) -> Result<(usize, usize), NoMemory> {
    match Value::from_slice(alloc, text) {
        Ok(_) => Ok((0, 0)),
        Err(error) if error.classify() == Category::Memory => Err(NoMemory),
        Err(error) => Ok((error.line(), error.column())),
    }
}

/// The reason why a text is no job object, with a schedule where one is wanted; none where it is one.
pub fn object_fault(
    alloc: Global,
    text: &[u8],
    wants_schedule: bool,
) -> Result<Option<ObjectFault>, NoMemory>
    ensures { IfOk result (λ found. MatchOption found (IsJobText wants_schedule text.now)
        (λ fault. IsNoJobText wants_schedule text.now fault)) }
{
    let fault = match job_object(alloc, text, wants_schedule) {
        Ok(_) => return Ok(None),
        Err(fault) => fault,
    };
    match fault {
        SessionFault::BadRequest => {
            let part = wrong_in(alloc, text, wants_schedule)?;
            Ok(Some(ObjectFault::Wrong(part)))
        }
        SessionFault::NotJson => {
            let (line, column) = end_of_json(alloc, text)?;
            Ok(Some(ObjectFault::NotJson { line, column }))
        }
        SessionFault::NoMemory => Err(NoMemory),
        SessionFault::FrameTooLarge => unreachable!(),
    }
}
