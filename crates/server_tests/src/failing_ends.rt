//! Ends of a stream that fail at some call: what was written is a beginning of the replies, and the
//! desk is that of the requests read.

use crate::frames::frames;
use crate::stop::{ScenarioFault, holds};
use accounts::Desk;
use std::alloc::Global;
use std::io::{self, ErrorKind, Read, Write};
use streams::{Failed, InlineRunner, Sink, Source, Tap, serve_stream};

/// More calls than a scenario makes.
pub const ALWAYS: u64 = u64::MAX;

/// A reader that gives so many bytes at a call, and fails once it was called so often.
#[derive(Drop)]
pub struct Dripping<'a> {
    pub rest: &'a [u8],
    pub step: usize,
    pub calls: u64,
}

impl Read for Dripping<'_> {
    fn read(&mut self, buf: &mut [u8]) -> io::Result<usize> {
        if self.calls == 0 {
            return Err(ErrorKind::ConnectionReset.into());
        }
        self.calls -= 1;
        let count = self.rest.len().min(buf.len()).min(self.step);
        let (first, rest) = self.rest.split_at(count);
        buf[..count].copy_from_slice(first);
        self.rest = rest;
        Ok(count)
    }
}

/// A writer that takes so many bytes at a call and, once it was called so often, fails or takes
/// none.
#[derive(Drop)]
pub struct Filling {
    pub bytes: Vec<u8>,
    pub step: usize,
    pub calls: u64,
    pub fails: bool,
}

impl Write for Filling {
    fn write(&mut self, buf: &[u8]) -> io::Result<usize> {
        if self.calls == 0 {
            if self.fails {
                return Err(ErrorKind::BrokenPipe.into());
            }
            return Ok(0);
        }
        self.calls -= 1;
        let count = buf.len().min(self.step);
        self.bytes.extend_from_slice(&buf[..count])?;
        Ok(count)
    }

    fn flush(&mut self) -> io::Result<()> {
        Ok(())
    }
}

/// A stream of some grants and their replies, and ends that fail at each call up to a number: the
/// reader's calls are counted or else the writer's, which fails or takes nothing from then on.
#[derive(Clone, Copy)]
struct Sweep {
    grants: usize,
    step: usize,
    room: usize,
    of_reader: bool,
    fails: bool,
    most: u64,
}

/// A sweep's name, its grants, the bytes of a read and of a write, whether the reader's calls are
/// counted, whether the writer fails, and the most calls.
type SweepRow = (&'static str, usize, usize, usize, bool, bool, u64);

// A request has 44 bytes and a reply 62. So of the pieces of 50 four end within the fourth frame,
// and a reply is written in three calls, or in nine.
const SWEEPS: [SweepRow; 5] = [
    ("reads", 4, 50, 25, true, true, 5),
    ("writes", 4, 50, 25, false, true, 12),
    ("drips", 1, 1, 4096, true, true, 45),
    ("fills", 1, 4096, 7, false, true, 9),
    ("empties", 1, 4096, 7, false, false, 9),
];

const GRANT: &str = "{\"op\":\"grant\",\"tenant\":\"t\",\"amount\":100}";

/// The replies to four of them.
const REPLIES: [&str; 4] = [
    "{\"balance\":100,\"granted\":100,\"ok\":true,\"open\":0,\"spent\":0}",
    "{\"balance\":200,\"granted\":200,\"ok\":true,\"open\":0,\"spent\":0}",
    "{\"balance\":300,\"granted\":300,\"ok\":true,\"open\":0,\"spent\":0}",
    "{\"balance\":400,\"granted\":400,\"ok\":true,\"open\":0,\"spent\":0}",
];

/// What a stream comes to where so many calls go well: the number of its fault or how many frames
/// were answered, how many bytes of the replies were written, and what was granted.
fn came(
    alloc: Global,
    sweep: Sweep,
    calls: u64,
    bytes: &[u8],
    replies: &[u8],
) -> Result<[u64; 3], ScenarioFault> {
    let (reads, writes) = if sweep.of_reader {
        (calls, ALWAYS)
    } else {
        (ALWAYS, calls)
    };
    let mut reader = Tap::new(Dripping {
        rest: bytes,
        step: sweep.step,
        calls: reads,
    });
    let mut writer = Tap::new(Filling {
        bytes: Vec::new(alloc),
        step: sweep.room,
        calls: writes,
        fails: sweep.fails,
    });
    let mut desk = Desk::new(alloc);
    let mut runner = InlineRunner::new(alloc);
    let answer = serve_stream(alloc, &mut reader, &mut writer, &mut desk, &mut runner);
    let granted = match desk.account("t") {
        Ok(account) => account.granted,
        Err(_) => 0,
    };
    let told = match answer {
        Ok(count) => count,
        Err(fault) => u64::from(fault.code()),
    };
    let written = writer.into_inner().bytes;
    holds(
        replies.starts_with(&written),
        "what is written is no beginning of the replies",
    )?;
    Ok([told, written.len() as u64, granted])
}

/// What the streams of a sweep come to, by the calls that go well.
fn swept(alloc: Global, sweep: Sweep) -> Result<Vec<u64>, ScenarioFault> {
    let mut bytes = frames(alloc, &[GRANT; 4])?;
    bytes.truncate(sweep.grants.saturating_mul(44));
    let mut replies = frames(alloc, &REPLIES)?;
    replies.truncate(sweep.grants.saturating_mul(62));
    let mut numbers = Vec::new(alloc);
    for calls in 0..=sweep.most {
        for number in came(alloc, sweep, calls, &bytes, &replies)? {
            numbers.push(number)?;
        }
    }
    Ok(numbers)
}

/// What the streams of the sweep of this name come to.
pub fn swept_by_name(alloc: Global, name: &str) -> Result<Vec<u64>, ScenarioFault> {
    for (other, grants, step, room, of_reader, fails, most) in SWEEPS {
        if name == other {
            let sweep = Sweep {
                grants,
                step,
                room,
                of_reader,
                fails,
                most,
            };
            return swept(alloc, sweep);
        }
    }
    Err(ScenarioFault::Differs("no such sweep"))
}

/// Each end by itself: what a reader gives and what a writer takes, and 84 for what it doesn't.
pub fn handed_on(alloc: Global) -> Result<Vec<u64>, ScenarioFault> {
    let failed = ScenarioFault::Differs("an end in memory failed");
    let mut numbers = Vec::new(alloc);
    let mut reader = Tap::new(b"abc".as_slice());
    let mut piece = [0u8; 2];
    let Ok(first) = reader.read(&mut piece) else {
        return Err(failed);
    };
    holds(piece == *b"ab", "another piece is read first")?;
    let Ok(second) = reader.read(&mut piece) else {
        return Err(failed);
    };
    holds(piece == *b"cb", "another piece is read then")?;
    let Ok(third) = reader.read(&mut piece) else {
        return Err(failed);
    };
    for count in [first, second, third] {
        numbers.push(count as u64)?;
    }
    take(alloc, &mut numbers)?;
    Ok(numbers)
}

/// Adds what a writer takes of three bytes and of none, and one that takes none at all.
fn take(alloc: Global, numbers: &mut Vec<u64>) -> Result<(), ScenarioFault> {
    let failed = ScenarioFault::Differs("an end in memory failed");
    let mut writer = Tap::new(Vec::new(alloc));
    let Ok(three) = writer.write(b"abc") else {
        return Err(failed);
    };
    let Ok(none) = writer.write(b"") else {
        return Err(failed);
    };
    holds(
        writer.into_inner().as_slice() == b"abc".as_slice(),
        "other bytes are written",
    )?;
    let mut full = Tap::new(Filling {
        bytes: Vec::new(alloc),
        step: 7,
        calls: 0,
        fails: false,
    });
    let Ok(empty) = full.write(b"") else {
        return Err(failed);
    };
    for count in [three, none, empty] {
        numbers.push(count as u64)?;
    }
    let last = match full.write(b"a") {
        Ok(count) => count as u64,
        Err(Failed) => 84,
    };
    numbers.push(last)?;
    Ok(())
}
