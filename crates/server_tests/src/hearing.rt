//! A session that is fed in pieces, and replies.

use crate::frames::frames;
use crate::stop::{ScenarioFault, holds};
use credit_book::{Report, TaskEnd};
use sessions::{Reply, Request, Session, SessionFault, reply_frame, reply_text};
use std::alloc::Global;

/// Requests, and what isn't any.
const TEXTS: [&str; 7] = [
    "{\"op\":\"grant\",\"tenant\":\"t\",\"amount\":100}",
    "{\"op\":\"account\",\"tenant\":\"tenant-of-some-length\"}",
    "{\"op\":\"submit\",\"tenant\":\"t\",\"credit\":34,\"buffer\":\"0000000000000000\",\"programs\":[{\"need\":4,\"code\":\"7331000000000000b7000000000000009500000000000000\"},{\"need\":0,\"code\":\"9500000000000000\"}]}",
    "{\"op\":",
    "{\"op\":\"grant\",\"tenant\":\"t\",\"amount\":0}",
    "{\"op\":\"status\",\"job\":1}",
    "{\"op\":\"result\",\"job\":2}",
];

/// The bytes of a piece.
const PIECE_LEN: usize = 40;

/// What is heard of the stream.
pub fn heard(alloc: Global) -> Result<Vec<u64>, ScenarioFault> {
    let stream = frames(alloc, &TEXTS)?;
    let mut session = Session::new(alloc);
    let mut numbers = Vec::new(alloc);
    for piece in stream.chunks(PIECE_LEN) {
        feed(&mut session, piece)?;
        for _ in 0..TEXTS.len() {
            match session.next_request(alloc) {
                Ok(None) => break,
                Ok(Some(request)) => numbers.push(number_of(&request))?,
                Err(SessionFault::NoMemory) => return Err(stays_refused(alloc, &mut session)),
                Err(fault) => numbers.push(u64::from(fault.code()))?,
            }
        }
    }
    holds(
        numbers.len() == TEXTS.len(),
        "not every frame is heard once",
    )?;
    Ok(numbers)
}

/// A piece that is refused is taken when it comes again.
fn feed(session: &mut Session, piece: &[u8]) -> Result<(), ScenarioFault> {
    for _ in 0..2u8 {
        match session.feed(piece) {
            Ok(()) => return Ok(()),
            Err(SessionFault::NoMemory) => {}
            Err(_) => return Err(ScenarioFault::Differs("a piece is refused by another number")),
        }
    }
    Err(ScenarioFault::Differs("a piece is refused twice"))
}

/// A session whose frame found no memory answers nothing else from then on.
fn stays_refused(alloc: Global, session: &mut Session) -> ScenarioFault {
    for _ in 0..2u8 {
        match session.next_request(alloc) {
            Err(SessionFault::NoMemory) => {}
            _ => return ScenarioFault::Differs("a request after a frame that found no memory"),
        }
        if session.feed(b"{}") != Err(SessionFault::NoMemory) {
            return ScenarioFault::Differs("a piece after a frame that found no memory");
        }
    }
    ScenarioFault::Refused
}

fn number_of(request: &Request) -> u64 {
    match request {
        Request::Grant { tenant, amount } => 1_000 + u64::from(*amount) + tenant.len() as u64 % 100,
        Request::Account { tenant } => 2_000 + tenant.len() as u64 % 100,
        Request::Submit {
            tenant,
            programs,
            credit,
            buffer,
        } => {
            let bytes = tenant.len() as u64 % 100 + buffer.len() as u64 % 100;
            3_000 + u64::from(*credit) + bytes + programs.len() as u64 % 100
        }
        Request::Status { job } => 4_000 + *job % 1_000,
        Request::Result { job } => 5_000 + *job % 1_000,
    }
}

/// The texts and the frames of replies.
pub fn replied(alloc: Global, report: &Report) -> Result<Vec<u64>, ScenarioFault> {
    let mut numbers = Vec::new(alloc);
    for reply in [
        Reply::Refused {
            code: 33,
            program: Some(1),
            slot: Some(2),
        },
        Reply::Account {
            balance: 1,
            granted: 6,
            opened: 2,
            spent: 3,
        },
        Reply::Submit { job: 7 },
        Reply::Status {
            complete: true,
            returned: 7,
            spent: 27,
        },
        Reply::Result {
            buffer: &report.buffer,
            returned: report.returned,
            spent: report.spent,
            tasks: &report.tasks,
        },
    ] {
        numbers.push(frame_length(alloc, &reply)?)?;
    }
    Ok(numbers)
}

/// A reply that is refused is given when it is asked for again, and its frame is its text behind
/// its length.
fn frame_length(alloc: Global, reply: &Reply) -> Result<u64, ScenarioFault> {
    for _ in 0..3u8 {
        let Ok(text) = reply_text(alloc, reply) else {
            continue;
        };
        let Ok(frame) = reply_frame(alloc, reply) else {
            continue;
        };
        holds(
            frame.get(4..) == Some(text.as_slice()),
            "a frame isn't its text behind its length",
        )?;
        return Ok(text.len() as u64);
    }
    Err(ScenarioFault::Differs("a reply is refused three times"))
}

const TASKS: [TaskEnd; 1] = [TaskEnd {
    number: 4294967295,
    program: 65535,
    arg: 1,
    given: 2,
    spent: 3,
    rest: 4,
    r0: 18446744073709551615,
    ran: false,
}];

/// Replies that no client sees in a test, with their texts.
const REPLIES: [(Reply<'static>, &str); 2] = [
    (
        Reply::Submit {
            job: 18446744073709551615,
        },
        "{\"job\":18446744073709551615,\"ok\":true}",
    ),
    (
        Reply::Result {
            buffer: &[0, 0xab, 0xff],
            returned: 1,
            spent: 2,
            tasks: &TASKS,
        },
        "{\"buffer\":\"00abff\",\"ok\":true,\"returned\":1,\"spent\":2,\"tasks\":[\
{\"number\":4294967295,\"program\":65535,\"r0\":18446744073709551615,\"ran\":false,\"rest\":4,\"spent\":3}]}",
    ),
];

/// The lengths of replies whose texts have to be those written out by hand.
pub fn written(alloc: Global) -> Result<Vec<u64>, ScenarioFault> {
    let mut numbers = Vec::new(alloc);
    for (reply, text) in REPLIES {
        let told = reply_text(alloc, &reply)?;
        holds(
            told.as_slice() == text.as_bytes(),
            "a reply has another text",
        )?;
        numbers.push(frame_length(alloc, &reply)?)?;
    }
    Ok(numbers)
}
