//! `check`: the verdict on a result in a file.

use crate::command_input::whole_input;
use crate::input_faults::{JobForm, tell_object_fault, tell_refusal};
use bpfjobs_cli::{FAILED, ResultVerdict, check_result, read_job};
use reference::Unanswered;
use std::alloc::Global;
use std::fs::{File, Files};

// The path of a file; none for the standard input.
fn file_of(path: &str) -> Option<&str> {
    if path == "-" { None } else { Some(path) }
}

// Tells why a text says no job that is admitted.
fn tell_no_job<R: Eprint>(rt: &R, alloc: Global, path: Option<&str>, text: &[u8]) {
    if tell_object_fault(rt, alloc, JobForm::Plain, path, text) {
        return;
    }
    if let Err(why) = read_job(alloc, text, false) {
        tell_refusal(rt, path, None, why.code());
    }
}

// Prints the verdict, and gives the status.
fn print_verdict<R: Print>(rt: &R, verdict: &ResultVerdict) -> u8 {
    match println!(rt; "{verdict}") {
        Ok(()) => verdict.status(),
        Err(_) => FAILED,
    }
}

/// Prints whether the result in a file is the one answer of the job in another, and gives the
/// status: 0 where it is, 1 where it isn't, or where one of them is refused, 3 where one can't be read
/// or there is no memory.
pub fn check_files<R>(rt: &R, alloc: Global, job: &str, given: &str) -> u8
where
    R: Input + Print + Eprint + Files<File = File>,
{
    let (job, given) = (file_of(job), file_of(given));
    let job_text = match whole_input(rt, alloc, job) {
        Ok(text) => text,
        Err(status) => return status,
    };
    let given_text = match whole_input(rt, alloc, given) {
        Ok(text) => text,
        Err(status) => return status,
    };
    let verdict = match check_result(alloc, &job_text, &given_text) {
        Ok(verdict) => verdict,
        Err(Unanswered::NoMemory) => {
            let _ = eprintln!(rt; "bpfjobs: there is no memory for the check");
            return FAILED;
        }
        Err(Unanswered::TooLarge) => {
            let _ = eprintln!(rt; "bpfjobs: the job is too large for the check");
            return FAILED;
        }
    };
    let status = print_verdict(rt, &verdict);
    match &verdict {
        ResultVerdict::NoJob => tell_no_job(rt, alloc, job, &job_text),
        ResultVerdict::NoResult(fault) => tell_refusal(rt, given, None, fault.code()),
        ResultVerdict::Answer => {}
        ResultVerdict::Differs(_) => {}
        ResultVerdict::NoAnswer => {}
    }
    status
}
