//! The words on standard error for input that a command refuses.

use bpfjobs_cli::{Command, object_fault};
use explain::{refusal_help, refusal_text};
use std::alloc::Global;

/// The form of a job object that a command reads.
#[derive(Clone, Copy)]
pub enum JobForm {
    Plain,
    /// With a schedule.
    Scheduled,
}

/// The form of a job object that this command reads, if it reads one.
pub fn job_form(command: &Command) -> Option<JobForm> {
    match command {
        Command::Play => Some(JobForm::Scheduled),
        Command::Run { .. } => Some(JobForm::Plain),
        _ => None,
    }
}

/// Tells the text of a refusal, the file and the line that it is about, and what to do.
pub fn tell_refusal<R: Eprint>(rt: &R, path: Option<&str>, line: Option<u64>, code: u8) {
    let Some(text) = refusal_text(code) else {
        return;
    };
    let file = match path {
        Some(path) => path,
        None => "standard input",
    };
    let _ = match line {
        Some(line) => eprintln!(rt; "error[{code}]: {text}\n --> {file}:{line}"),
        None => eprintln!(rt; "error[{code}]: {text}\n --> {file}"),
    };
    if let Some(help) = refusal_help(code) {
        let _ = eprintln!(rt; "  = help: {help}");
    }
}

/// Tells the part of a text that makes it no job object. Whether there is one.
pub fn tell_object_fault<R: Eprint>(
    rt: &R,
    alloc: Global,
    form: JobForm,
    path: Option<&str>,
    input: &[u8],
) -> bool {
    let wants_schedule = match form {
        JobForm::Plain => false,
        JobForm::Scheduled => true,
    };
    let Ok(Some(fault)) = object_fault(alloc, input, wants_schedule) else {
        return false;
    };
    let _ = match path {
        Some(path) => eprintln!(rt; "bpfjobs: {path}: {fault}"),
        None => eprintln!(rt; "bpfjobs: {fault}"),
    };
    true
}

/// Tells why a command refused its input, where it did: the part of a job object that is wrong, or
/// the text of the refusal. Standard output has the number already.
pub fn tell_input_fault<R: Eprint>(
    rt: &R,
    alloc: Global,
    form: Option<JobForm>,
    path: Option<&str>,
    input: &[u8],
    code: Option<u8>,
) {
    let Some(code) = code else {
        return;
    };
    if let Some(form) = form {
        if tell_object_fault(rt, alloc, form, path, input) {
            return;
        }
    }
    tell_refusal(rt, path, None, code);
}
