//! How quick a session and a desk read and answer requests, beside `serde_json`'s own reading of
//! the same texts.

use accounts::Desk;
use serde_json::Value;
use sessions::{Reply, Request, Session, reply_frame};
use std::alloc::Global;
use std::io::Write;
use std::rt::Clock;
use std::time::{Duration, Instant};

/// How often each load is read.
const ROUNDS: u32 = 50;

/// A request's text, how often it comes, and whether it is answered too.
#[derive(Drop)]
struct Load {
    name: &'static str,
    text: Vec<u8>,
    times: u32,
    is_answered: bool,
}

/// The load as one stream of frames.
fn stream_of(alloc: Global, load: &Load) -> anyhow::Result<Vec<u8>> {
    let length = u32::try_from(load.text.len())?;
    let mut stream = Vec::new(alloc);
    for _ in 0..load.times {
        stream.extend_from_slice(&length.to_be_bytes())?;
        stream.extend_from_slice(&load.text)?;
    }
    Ok(stream)
}

/// Answers a grant; other requests are read alone.
fn answer(alloc: Global, desk: &mut Desk, request: &Request) -> anyhow::Result<()> {
    if let Request::Grant { tenant, amount } = request {
        let account = desk.grant(alloc, tenant.as_str(), *amount)?;
        let reply = Reply::Account {
            balance: account.balance,
            granted: account.granted,
            opened: account.opened,
            spent: account.spent,
        };
        drop(reply_frame(alloc, &reply)?);
    }
    Ok(())
}

/// Reads a stream that comes in pieces of 4,096 bytes, and answers it if that is wanted.
fn serve(alloc: Global, stream: &[u8], is_answered: bool) -> anyhow::Result<()> {
    let mut session = Session::new(alloc);
    let mut desk = Desk::new(alloc);
    for piece in stream.chunks(4096) {
        session.feed(piece)?;
        for _ in 0..piece.len() {
            match session.next_request(alloc)? {
                Some(request) if is_answered => answer(alloc, &mut desk, &request)?,
                Some(_) => {}
                None => break,
            }
        }
    }
    Ok(())
}

/// The time of the quickest of `ROUNDS` rounds, by a session and a desk.
fn served<C: Clock>(clock: &C, alloc: Global, load: &Load) -> anyhow::Result<Duration> {
    let stream = stream_of(alloc, load)?;
    let mut quickest = Duration::MAX;
    for _ in 0..ROUNDS {
        let start = Instant::now(clock)?;
        serve(alloc, &stream, load.is_answered)?;
        quickest = quickest.min(start.elapsed(clock)?);
    }
    Ok(quickest)
}

/// The same by `serde_json` alone, which gets each text whole.
fn read<C: Clock>(clock: &C, alloc: Global, load: &Load) -> anyhow::Result<Duration> {
    let mut quickest = Duration::MAX;
    for _ in 0..ROUNDS {
        let start = Instant::now(clock)?;
        for _ in 0..load.times {
            drop(Value::from_slice(alloc, &load.text)?);
        }
        quickest = quickest.min(start.elapsed(clock)?);
    }
    Ok(quickest)
}

fn text_of(alloc: Global, text: &str) -> anyhow::Result<Vec<u8>> {
    let mut bytes = Vec::new(alloc);
    bytes.extend_from_slice(text.as_bytes())?;
    Ok(bytes)
}

/// A submit whose buffer has so many bytes.
fn submit(alloc: Global, size: u32) -> anyhow::Result<Vec<u8>> {
    let mut text = text_of(
        alloc,
        "{\"op\":\"submit\",\"tenant\":\"t\",\"programs\":[{\"need\":0,\"code\":\"b70000002a0000009500000000000000\"}],\"credit\":2,\"buffer\":\"",
    )?;
    for place in 0..size {
        let digits: [u8; 2] = if place % 3 == 0 { *b"a7" } else { *b"0f" };
        text.extend_from_slice(&digits)?;
    }
    text.extend_from_slice(b"\"}")?;
    Ok(text)
}

/// Prints requests and bytes a second, and the part of `serde_json`'s own speed that this is.
fn print_load<C: Clock, W: Write>(
    clock: &C,
    alloc: Global,
    output: &mut W,
    load: &Load,
) -> anyhow::Result<()> {
    let nanos = served(clock, alloc, load)?.as_nanos().max(1);
    let alone = read(clock, alloc, load)?.as_nanos();
    let requests = u128::from(load.times).saturating_mul(1_000_000) / nanos;
    let length = u128::try_from(load.text.len())?;
    let bytes = length
        .saturating_mul(u128::from(load.times))
        .saturating_mul(1000)
        / nanos;
    let hundredths = alone.saturating_mul(100) / nanos;
    let (units, rest) = (hundredths / 100, hundredths % 100);
    writeln!(
        output,
        "requests {}: {requests} a millisecond, {bytes} million bytes a second, {units}.{rest:02} of serde_json's speed",
        load.name
    )?;
    Ok(())
}

/// Prints how quick requests are read and answered.
pub fn print_protocol_times<C: Clock, W: Write>(
    clock: &C,
    alloc: Global,
    output: &mut W,
) -> anyhow::Result<()> {
    let grant = "{\"op\":\"grant\",\"tenant\":\"t\",\"amount\":100}";
    for load in [
        Load {
            name: "grant",
            text: text_of(alloc, grant)?,
            times: 1000,
            is_answered: false,
        },
        Load {
            name: "grant, answered",
            text: text_of(alloc, grant)?,
            times: 1000,
            is_answered: true,
        },
        Load {
            name: "submit of 8 bytes",
            text: submit(alloc, 8)?,
            times: 1000,
            is_answered: false,
        },
        Load {
            name: "submit of 65536 bytes",
            text: submit(alloc, 65536)?,
            times: 10,
            is_answered: false,
        },
    ] {
        print_load(clock, alloc, output, &load)?;
    }
    Ok(())
}
