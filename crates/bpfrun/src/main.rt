//! `bpfrun FILE`: verifies one eBPF program, runs it by itself and prints what it comes to. `bpfrun
//! --help` tells how.
#![tactic(auto)]

ghost use Rattle.std.specs.Prelude.{◌≡◌, ◌≤◌};
ghost use Rattle.machine_model.specs.Limits.{max_credit};

use bpfjobs_cli::{Answer, FAILED, UNREAD, print_usage, tell, words};
use bpfrun_core::{
    RunArguments, RunOptions, answer, draw, form_of, request, step_lines, step_objects, trace,
};
use std::alloc::Global;
use std::env::Env;
use std::io::IsTerminal;
use std::process::ExitCode;
use std::rt::Files;
use std::{env, fs, io};
use streams::Tap;

// The bytes of a file; none, and a line that tells why, where it can't be read.
fn contents<R: Files + Eprint + AllocGlobal>(rt: &R, path: &str) -> Option<Vec<u8>> {
    match fs::read(rt, path) {
        Ok(bytes) => Some(bytes),
        Err(error) => {
            let _ = eprintln!(rt; "bpfrun: {path}: {error}");
            None
        }
    }
}

// Prints a refusal where errors are printed, and gives its status.
fn refused<R: Eprint>(rt: &R, answer: &Answer) -> u8 {
    if let Ok(text) = str::from_utf8(&answer.text) {
        let _ = eprint!(rt; "{text}");
    }
    answer.status
}

// Prints an answer, or a refusal, and gives the status.
fn answered<R: Print + Eprint>(rt: &R, answer: &Answer) -> u8 {
    if answer.status == 0 {
        told(rt, answer)
    } else {
        refused(rt, answer)
    }
}

// Prints a graph, also one of a program that is refused, or the refusal of what has none, and gives
// the status.
fn drawn<R: Print + Eprint>(rt: &R, answer: &Answer) -> u8 {
    if answer.code.is_none() {
        told(rt, answer)
    } else {
        refused(rt, answer)
    }
}

// Whether errors may be coloured: a terminal shows them, and nobody asked for none.
fn may_colour<R: Env + AllocGlobal>(rt: &R, is_terminal: bool) -> bool {
    is_terminal && env::var(rt, "NO_COLOR").is_err()
}

// Prints an answer, and gives the status.
fn told<R: Print>(rt: &R, answer: &Answer) -> u8 {
    let mut writer = Tap::new(io::writer(rt));
    match tell(&mut writer, answer) {
        Ok(status) => status,
        Err(_) => FAILED,
    }
}

// Prints the steps of the run, or writes them into a file, as the words ask for; nothing where the
// program doesn't run. Tells whether that went well.
fn traced<R: Files + Print + Eprint + AllocGlobal>(
    rt: &R,
    request: &RunArguments<'_>,
    asked: &RunOptions,
    input: &[u8],
    memory: Option<&[u8]>,
) -> bool
    requires { asked.now.credit ≤ max_credit }
{
    let alloc = rt.alloc();
    let Ok(found) = trace(alloc, asked, input, memory) else {
        return false;
    };
    let Some(steps) = found else {
        return true;
    };
    if request.traces {
        let Ok(lines) = step_lines(alloc, &steps) else {
            return false;
        };
        let text = lines.into_bytes();
        let steps = Answer {
            text,
            status: 0,
            code: None,
        };
        if told(rt, &steps) != 0 {
            return false;
        }
    }
    match request.trace_json {
        Some(path) => match step_objects(alloc, &steps) {
            Ok(objects) => written(rt, path, objects.as_str()),
            Err(_) => false,
        },
        None => true,
    }
}

// Writes a file, or prints a line that tells why it can't be written. Tells which.
fn written<R: Files + Eprint>(rt: &R, path: &str, text: &str) -> bool {
    match fs::write(rt, path, text) {
        Ok(()) => true,
        Err(error) => {
            let _ = eprintln!(rt; "bpfrun: {path}: {error}");
            false
        }
    }
}

// How the program is tried.
fn asked_of<'a>(request: &RunArguments<'a>, is_coloured: bool) -> RunOptions<'a>
    ensures { result.credit ≡ request.now.credit }
{
    RunOptions {
        file: request.file,
        form: form_of(request.file),
        need: request.need,
        arg: request.arg,
        credit: request.credit,
        explains: request.explains,
        explains_all: request.explains_all,
        is_coloured,
    }
}

// Tries the program on its memory, prints what it comes to, and gives the status.
fn tried<R: Files + Print + Eprint + AllocGlobal>(
    rt: &R,
    request: &RunArguments<'_>,
    memory: Option<Vec<u8>>,
    is_coloured: bool,
) -> u8
    requires { request.now.credit ≤ max_credit }
{
    let Some(input) = contents(rt, request.file) else {
        return FAILED;
    };
    let asked = asked_of(request, is_coloured);
    let lent: Option<&[u8]> = match &memory {
        Some(bytes) => Some(bytes),
        None => None,
    };
    if request.draws {
        return match draw(rt.alloc(), &asked, &input, lent) {
            Ok(answer) => drawn(rt, &answer),
            Err(_) => FAILED,
        };
    }
    if request.traces || request.trace_json.is_some() {
        if !traced(rt, request, &asked, &input, lent) {
            return FAILED;
        }
    }
    match answer(rt.alloc(), &asked, &input, memory) {
        Ok(answer) => answered(rt, &answer),
        Err(_) => FAILED,
    }
}

// Tells how numbers are written, where a word is a hexadecimal one.
fn help_with_numbers<R: Eprint>(rt: &R, words: &[String]) {
    for word in words {
        if word.as_str().starts_with("0x") {
            let _ = eprintln!(rt; "help: numbers are decimal: 16, and not 0x10");
            return;
        }
    }
}

// Does what the words ask for, and gives the status.
fn act<R: Files + Print + Eprint + AllocGlobal>(
    rt: &R,
    request: &RunArguments<'_>,
    is_coloured: bool,
) -> u8
    requires { request.now.credit ≤ max_credit }
{
    let Some(path) = request.memory else {
        return tried(rt, request, None, is_coloured);
    };
    match contents(rt, path) {
        Some(memory) => tried(rt, request, Some(memory), is_coloured),
        None => FAILED,
    }
}

fn main(rt: HostRuntime) -> ExitCode {
    let Ok(words) = words(&rt) else {
        return ExitCode::from(UNREAD);
    };
    let status = match request(rt.alloc(), &words) {
        Ok(request) => {
            let is_coloured = may_colour(&rt, rt.stderr().is_terminal());
            act(&rt, &request, is_coloured)
        }
        Err(usage) => {
            let status = print_usage(&rt, usage);
            help_with_numbers(&rt, &words);
            status
        }
    };
    ExitCode::from(status)
}
