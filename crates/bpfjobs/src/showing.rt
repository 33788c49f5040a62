//! Jobs, with what is shown of them beside their answers.

ghost use Rattle.std.specs.Prelude.{◌≤◌};

use crate::command_input::whole_input;
use crate::input_faults::{JobForm, tell_input_fault};
use crate::progress_line::answer_shown;
use bpfjobs_cli::{
    Answer, FAILED, Shown, answer_play, step_lines, step_objects, steps_of, tell, tree_in,
    tree_text,
};
use refusal::NoMemory;
use run_trace::JobStep;
use std::fs::{File, Files};
use std::sync::Wait;
use std::thread::Threads;
use std::time::Clock;
use std::{fs, io};
use streams::Tap;

// Writes a file, or prints a line that tells why it can't be written. Tells which.
fn written<R: Files + Eprint>(rt: &R, path: &str, text: &str) -> bool {
    match fs::write(rt, path, text) {
        Ok(()) => true,
        Err(error) => {
            let _ = eprintln!(rt; "bpfjobs: {path}: {error}");
            false
        }
    }
}

// Prints an answer, if there was memory for it, tells a refusal in words, and gives the status.
fn told<R: Print + Eprint + AllocGlobal>(
    rt: &R,
    form: JobForm,
    path: Option<&str>,
    input: &[u8],
    answer: Result<Answer, NoMemory>,
) -> u8 {
    let Ok(answer) = answer else {
        return FAILED;
    };
    let mut writer = Tap::new(io::writer(rt));
    match tell(&mut writer, &answer) {
        Ok(status) => {
            tell_input_fault(rt, rt.alloc(), Some(form), path, input, answer.code);
            status
        }
        Err(_) => FAILED,
    }
}

// Tells the steps on standard error, in a file, or both. Tells whether that went well.
fn told_steps<R: Files + Eprint + AllocGlobal>(
    rt: &R,
    shown: &Shown<'_>,
    steps: &[JobStep],
) -> bool {
    let alloc = rt.alloc();
    if shown.traces {
        let Ok(lines) = step_lines(alloc, steps) else {
            return false;
        };
        if eprint!(rt; "{lines}").is_err() {
            return false;
        }
    }
    match shown.trace_json {
        Some(path) => match step_objects(alloc, steps) {
            Ok(objects) => written(rt, path, objects.as_str()),
            Err(_) => false,
        },
        None => true,
    }
}

// Writes the tree of a job into a file; nothing of what is no job. Tells whether that went well.
fn told_tree<R: Files + Eprint + AllocGlobal>(rt: &R, path: &str, input: &[u8]) -> bool {
    let alloc = rt.alloc();
    match tree_in(alloc, input) {
        Ok(Some(found)) => match tree_text(alloc, &found) {
            Ok(text) => written(rt, path, text.as_str()),
            Err(_) => false,
        },
        Ok(None) => true,
        Err(_) => false,
    }
}

/// Plays a job by its schedule, tells its steps, prints how far it comes, and gives the status.
pub fn play_shown<R>(rt: &R, path: Option<&str>, shown: &Shown<'_>) -> u8
where
    R: Input + Print + Eprint + Files<File = File> + AllocGlobal,
{
    let alloc = rt.alloc();
    let input = match whole_input(rt, alloc, path) {
        Ok(input) => input,
        Err(status) => return status,
    };
    let Ok(found) = steps_of(alloc, &input) else {
        return FAILED;
    };
    if let Some(steps) = found {
        if !told_steps(rt, shown, &steps) {
            return FAILED;
        }
    }
    let answer = answer_play(alloc, &input);
    told(rt, JobForm::Scheduled, path, &input, answer)
}

/// Runs a job on so many threads, writes its tree into a file that is named, prints what it comes to,
/// and gives the status. On a terminal a line tells meanwhile how far it is.
pub fn run_shown<R>(
    rt: &R,
    workers: u32,
    path: Option<&str>,
    tree: Option<&str>,
    on_terminal: bool,
) -> u8
where
    R: Input + Print + Eprint + Files<File = File> + Threads + Wait + Clock + Sync + AllocGlobal,
    requires { (1 ≤ workers) × (workers ≤ 16) }
{
    let alloc = rt.alloc();
    let input = match whole_input(rt, alloc, path) {
        Ok(input) => input,
        Err(status) => return status,
    };
    if let Some(tree) = tree {
        if !told_tree(rt, tree, &input) {
            return FAILED;
        }
    }
    let answer = answer_shown(rt, alloc, workers, &input, on_terminal);
    told(rt, JobForm::Plain, path, &input, answer)
}
