//! The words of a process, and the lines that tell why they are wrong.

ghost use Rattle.std.specs.Prelude.{◌≡◌};
ghost use Rattle.bpfjobs_cli.specs.Commands.{AsksHelp};

use crate::commands::Usage;
use crate::job_sources::JobWordFault;
use std::env::Env;
use std::{env, io};

/// The status where the words can't be read.
pub const UNREAD: u8 = 2;

/// The status where a file, the input, the output or a socket fails, or there is no memory.
pub const FAILED: u8 = 3;

/// The words of the command line, the program's name first.
pub fn words<R: Env + AllocGlobal>(rt: &R) -> io::Result<Vec<String>> {
    let mut words = Vec::new(rt.alloc());
    for word in env::args(rt)? {
        words.push(word)?;
    }
    Ok(words)
}

/// Prints why the words are wrong, or the help that they ask for, and gives the status: 0 where
/// help was asked for, and else 2.
pub fn print_usage<R: Print + Eprint>(rt: &R, usage: Usage) -> u8
    ensures help { AsksHelp usage → result ≡ 0 }
    ensures mistake { (AsksHelp usage → ⊥) → result ≡ 2 }
{
    match &usage {
        Usage::Refused(error) => {
            let _ = error.print(rt);
        }
        Usage::Endpoint(fault) => {
            let text = fault.text();
            let _ = eprintln!(rt; "{text}");
        }
        Usage::Tenant(word, fault) => {
            let text = fault.text();
            let _ = eprintln!(rt; "error: --tenant {word}: {text}");
        }
        Usage::Ask(fault) => {
            let text = fault.text();
            let _ = eprintln!(rt; "{text}");
        }
        Usage::Job(fault) => {
            let _ = match fault {
                JobWordFault::Source(word) => eprintln!(rt;
                    "error: job takes words FILE:NEED, with a NEED from 0 to 4294967295, and not {word}"
                ),
                JobWordFault::Buffer => eprintln!(rt;
                    "error: job takes --buffer HEX or --buffer HEX*COUNT, of 65536 bytes at most"
                ),
                JobWordFault::Schedule => eprintln!(rt;
                    "error: job takes --schedule NUMBER,NUMBER,.. of tasks, from 0 to 4294967295"
                ),
            };
        }
        Usage::TwoInputs => {
            let _ = eprintln!(rt; "error: check takes - for one of its files, and not for both");
        }
        Usage::NoMemory => {}
    }
    usage.status()
}
