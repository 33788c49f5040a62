//! What a server begins with, ahead of its threads.

ghost use Rattle.bpfjobs_cli.specs.Commands.{IsServeInRange};
ghost use Rattle.std.specs.Prelude.{◌≡◌, ℕ, IfOk, IfSome, length};
ghost use Rattle.std.specs.Arc.{arc_value};
ghost use Rattle.bpfjobs.specs.Listening.{IsBeginningOf};

use crate::journal_following::JournalFollowers;
use crate::journal_opening::{OpenedJournals, open_server_journals};
use crate::listening::{Listening, listen};
use crate::server_threads::{Helper, helpers_of};
use crate::serving::doors_of;
use bpfjobs_cli::{FAILED, Serve};
use job_server::{StopFlag, TenantDoor};
use server_log::ServerLog;
use std::alloc::Global;
use std::fs::{File, Files};
use std::net::{Net, TcpListener, TcpStream};
use std::sync::{Arc, Wait};
use std::time::Clock;

// The journals of a server, and who follows them.
fn parts_of(
    opened: Option<(OpenedJournals, JournalFollowers)>,
) -> (Option<OpenedJournals>, Option<JournalFollowers>)
    ensures { (many : ℕ) → IfSome opened (λ some. length (arc_value some.0.journals).items ≡ many)
        → IfSome result.0 (λ some. length (arc_value some.journals).items ≡ many) }
{
    match opened {
        Some((opened, followers)) => (Some(opened), Some(followers)),
        None => (None, None),
    }
}

/// What a server begins with, ahead of its threads: its journals, the doors of its tenants, where it
/// listens, and its flag.
#[derive(Drop)]
pub struct Beginning {
    pub opened: Option<OpenedJournals>,
    pub doors: Vec<TenantDoor>,
    pub listening: Listening,
    pub stop: Option<Arc<StopFlag, Global>>,
}

/// Opens the journals and the sockets of a server, with what the threads beside it do. Where it
/// can't, a line tells why, and the program ends with this status.
pub fn begin<R>(
    rt: &R,
    alloc: Global,
    log: &Arc<ServerLog, Global>,
    server: &Serve,
) -> Result<(Beginning, Vec<Helper>), u8>
where
    R: Net<Stream = TcpStream, Listener = TcpListener> + Files<File = File> + Wait + Clock,
    requires { IsServeInRange server.now }
    ensures { IfOk result (λ begun. IsBeginningOf server.now.tenants.tenants.items begun.0) }
{
    let opened = open_server_journals(rt, alloc, log, server)?;
    let (opened, followers) = parts_of(opened);
    let Ok(doors) = doors_of(alloc, &server.tenants.tenants) else {
        log.lose_note(rt);
        return Err(FAILED);
    };
    let listening = listen(rt, alloc, log, &server.endpoint, &doors)?;
    let journals = match &opened {
        Some(opened) => Some(&opened.journals),
        None => None,
    };
    match helpers_of(alloc, server, &listening, log, journals, followers) {
        Ok((stop, helpers)) => {
            let begun = Beginning {
                opened,
                doors,
                listening,
                stop,
            };
            Ok((begun, helpers))
        }
        Err(_) => {
            listening.close(rt, alloc);
            log.lose_note(rt);
            Err(FAILED)
        }
    }
}
