//! The file of tenants with sockets of their own, which the words of `serve` may name.

ghost use Rattle.std.specs.Prelude.{◌≡◌, ℕ, IfOk, List, Ok};
ghost use Rattle.bpfjobs_cli.specs.Commands.{IsServeInRange};
ghost use Rattle.bpfjobs_cli.specs.Tenants.{entered, lines_said, tenants_in};

use bpfjobs_cli::{FAILED, Serve, TenantWords, UNREAD, WrongTenant, with_lines};
use std::alloc::Global;
use std::fs;
use std::fs::Files;

// The file's bytes; none, and a line tells why, where it can't be read.
fn contents<R: Files + Eprint + AllocGlobal>(rt: &R, path: &str) -> Option<Vec<u8>> {
    match fs::read(rt, path) {
        Ok(bytes) => Some(bytes),
        Err(error) => {
            let _ = eprintln!(rt; "bpfjobs: {path}: {error}");
            None
        }
    }
}

// Tells what is wrong with a file's line, and gives the status.
fn refused<R: Eprint>(rt: &R, path: &str, wrong: WrongTenant) -> u8 {
    match wrong {
        WrongTenant::At(number, fault) => {
            let text = fault.text();
            let _ = eprintln!(rt; "error: {path}, line {number}: {text}");
            UNREAD
        }
        WrongTenant::NoMemory => FAILED,
    }
}

/// The server, with the tenants of its file's lines behind those of its words; or the status that the
/// program ends with, where the file can't be read or a line of it is wrong. Then a line tells why.
pub fn with_file<R: Files + Eprint + AllocGlobal>(
    rt: &R,
    alloc: Global,
    server: Serve,
) -> Result<Serve, u8>
    requires { IsServeInRange server }
    ensures range { IfOk result (λ new. IsServeInRange new) }
    ensures rest { IfOk result (λ new. (new.endpoint ≡ server.endpoint)
        × (new.journal ≡ server.journal) × (new.journal_sync ≡ server.journal_sync)
        × (new.options ≡ server.options)
        × (new.tenants.open_jobs ≡ server.tenants.open_jobs)) }
    ensures lines { IfOk result (λ new. (text : List ℕ)
        × (entered (tenants_in server.tenants.tenants.items) 1 (lines_said text)
        ≡ Ok (tenants_in new.tenants.tenants.items))) }
{
    let Serve {
        endpoint,
        tenants: TenantWords {
            tenants,
            file,
            open_jobs,
        },
        journal,
        journal_sync,
        options,
    } = server;
    let tenants = match &file {
        Some(path) => {
            let Some(text) = contents(rt, path) else {
                return Err(FAILED);
            };
            match with_lines(alloc, tenants, &text) {
                Ok(tenants) => tenants,
                Err(wrong) => return Err(refused(rt, path, wrong)),
            }
        }
        None => tenants,
    };
    Ok(Serve {
        endpoint,
        tenants: TenantWords {
            tenants,
            file,
            open_jobs,
        },
        journal,
        journal_sync,
        options,
    })
}
