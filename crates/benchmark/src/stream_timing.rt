//! How quick a stream of requests is answered, in memory beside the bare session and desk, and over
//! the loopback address.

use accounts::{Desk, KeepLimits};
use anyhow::bail;
use job_core::play_lowest;
use job_server::{Bounds, Plan, serve_listener};
use server_log::ServerLog;
use sessions::{Reply, Request, Session, reply_frame};
use shared_journal::ReplySync;
use std::alloc::Global;
use std::io::{Read, Write};
use std::net::{Ipv4Addr, Net, Shutdown, SocketAddr, TcpListener, TcpStream};
use std::rt::Clock;
use std::sync::Wait;
use std::thread;
use std::thread::Threads;
use std::time::{Duration, Instant};
use streams::{InlineRunner, Tap, serve_stream};

/// How often each stream is served.
const ROUNDS: u32 = 20;

/// Requests of a stream of grants, and jobs of the other one.
const REQUESTS: u32 = 1000;

const GRANT: &str = "{\"op\":\"grant\",\"tenant\":\"t\",\"amount\":100}";

const MUCH: &str = "{\"op\":\"grant\",\"tenant\":\"t\",\"amount\":34000}";

/// A task that hands four bytes of its part to a child, and the child.
const SUBMIT: &str =
    "{\"op\":\"submit\",\"tenant\":\"t\",\"credit\":34,\"buffer\":\"0000000000000000\",\"programs\":[{\"need\":4,\"code\":\"bf16000000000000b701000001000000b70200000a000000b703000004000000b70400000900000085000000010000007306000000000000b7000000000000009500000000000000\"},{\"need\":4,\"code\":\"7331000000000000b7000000000000009500000000000000\"}]}";

/// Adds the frame of a text.
fn add(bytes: &mut Vec<u8>, text: &str) -> anyhow::Result<()> {
    let length = u32::try_from(text.len())?;
    bytes.extend_from_slice(&length.to_be_bytes())?;
    bytes.extend_from_slice(text.as_bytes())?;
    Ok(())
}

fn grants(alloc: Global) -> anyhow::Result<Vec<u8>> {
    let mut bytes = Vec::new(alloc);
    for _ in 0..REQUESTS {
        add(&mut bytes, GRANT)?;
    }
    Ok(bytes)
}

/// Jobs, and what each came to.
fn jobs(alloc: Global) -> anyhow::Result<Vec<u8>> {
    let mut bytes = Vec::new(alloc);
    add(&mut bytes, MUCH)?;
    for job in 0..REQUESTS {
        add(&mut bytes, SUBMIT)?;
        let number = u64::from(job) + 1;
        let result = format!(in alloc; "{{\"op\":\"result\",\"job\":{number}}}")?;
        add(&mut bytes, result.as_str())?;
    }
    Ok(bytes)
}

/// The time of the quickest round, by `serve_stream`.
fn streamed<C: Clock>(clock: &C, alloc: Global, bytes: &[u8]) -> anyhow::Result<Duration> {
    let mut quickest = Duration::MAX;
    for _ in 0..ROUNDS {
        let mut reader = Tap::new(bytes);
        let mut writer = Tap::new(Vec::new(alloc));
        let mut desk = Desk::new(alloc);
        let mut runner = InlineRunner::new(alloc);
        let start = Instant::now(clock)?;
        serve_stream(alloc, &mut reader, &mut writer, &mut desk, &mut runner)?;
        quickest = quickest.min(start.elapsed(clock)?);
    }
    Ok(quickest)
}

/// The frame of a reply, without a stream and a runner.
fn answered(alloc: Global, desk: &mut Desk, request: Request) -> anyhow::Result<Vec<u8>> {
    match request {
        Request::Grant { tenant, amount } => {
            let account = desk.grant(alloc, tenant.as_str(), amount)?;
            let reply = Reply::Account {
                balance: account.balance,
                granted: account.granted,
                opened: account.opened,
                spent: account.spent,
            };
            Ok(reply_frame(alloc, &reply)?)
        }
        Request::Submit {
            tenant,
            programs,
            credit,
            buffer,
        } => {
            let (number, job) = desk.submit(alloc, tenant.as_str(), &programs, credit, buffer)?;
            let report = play_lowest(alloc, job)?;
            desk.finish(number, Ok(report))?;
            Ok(reply_frame(alloc, &Reply::Submit { job: number })?)
        }
        Request::Result { job } => {
            let report = desk.result(job)?;
            let reply = Reply::Result {
                buffer: &report.buffer,
                returned: report.returned,
                spent: report.spent,
                tasks: &report.tasks,
            };
            Ok(reply_frame(alloc, &reply)?)
        }
        _ => bail!("no such request here"),
    }
}

/// Answers a stream that comes in pieces of 4,096 bytes, by a session and a desk alone.
fn answer_all(alloc: Global, bytes: &[u8]) -> anyhow::Result<()> {
    let mut session = Session::new(alloc);
    let mut desk = Desk::new(alloc);
    let mut written = Vec::new(alloc);
    for piece in bytes.chunks(4096) {
        session.feed(piece)?;
        for _ in 0..piece.len() {
            match session.next_request(alloc)? {
                Some(request) => {
                    written.extend_from_slice(&answered(alloc, &mut desk, request)?)?;
                }
                None => break,
            }
        }
    }
    Ok(())
}

/// The time of the quickest round, by a session and a desk alone.
fn bare<C: Clock>(clock: &C, alloc: Global, bytes: &[u8]) -> anyhow::Result<Duration> {
    let mut quickest = Duration::MAX;
    for _ in 0..ROUNDS {
        let start = Instant::now(clock)?;
        answer_all(alloc, bytes)?;
        quickest = quickest.min(start.elapsed(clock)?);
    }
    Ok(quickest)
}

/// Prints requests a millisecond in memory, and the part of the bare speed that this is.
fn print_memory<C: Clock, W: Write>(
    clock: &C,
    alloc: Global,
    output: &mut W,
    name: &str,
    requests: u32,
    bytes: &[u8],
) -> anyhow::Result<()> {
    let nanos = streamed(clock, alloc, bytes)?.as_nanos().max(1);
    let alone = bare(clock, alloc, bytes)?.as_nanos();
    let rate = u128::from(requests).saturating_mul(1_000_000) / nanos;
    let hundredths = alone.saturating_mul(100) / nanos;
    let (units, rest) = (hundredths / 100, hundredths % 100);
    writeln!(
        output,
        "serve_stream, {name}: {rate} requests a millisecond, {units}.{rest:02} of the bare session's and desk's speed"
    )?;
    Ok(())
}

/// Asks for grants one by one. How long they take.
fn one_by_one<R: Clock + Net<Stream = TcpStream>>(
    rt: &R,
    address: SocketAddr,
    frame: &[u8],
) -> anyhow::Result<Duration> {
    let mut stream = TcpStream::connect(rt, address)?;
    let mut reply = [0u8; 256];
    let start = Instant::now(rt)?;
    for _ in 0..REQUESTS {
        stream.write_all(frame)?;
        let mut head = [0u8; 4];
        stream.read_exact(&mut head)?;
        let length = u32::from_be_bytes(head).min(256);
        stream.read_exact(&mut reply[..length as usize])?;
    }
    Ok(start.elapsed(rt)?)
}

/// Asks for all grants at once, and then reads the answers.
fn at_once<R: Clock + Net<Stream = TcpStream>>(
    rt: &R,
    alloc: Global,
    address: SocketAddr,
    bytes: &[u8],
) -> anyhow::Result<Duration> {
    let mut stream = TcpStream::connect(rt, address)?;
    let start = Instant::now(rt)?;
    stream.write_all(bytes)?;
    stream.shutdown(Shutdown::Write)?;
    let mut answer = Vec::new(alloc);
    stream.read_to_end(&mut answer)?;
    Ok(start.elapsed(rt)?)
}

/// Prints requests a millisecond over the loopback address, one at a time and a thousand in flight.
fn print_loopback<R, W: Write>(rt: &R, alloc: Global, output: &mut W) -> anyhow::Result<()>
where
    R: Clock + Net<Stream = TcpStream, Listener = TcpListener> + Threads + Wait,
    R: Copy + Send + Sync + Drop + 'static,
{
    let rt = *rt;
    let mut frame = Vec::new(alloc);
    add(&mut frame, GRANT)?;
    let all = grants(alloc)?;
    let listener = TcpListener::bind(&rt, SocketAddr::from((Ipv4Addr::LOCALHOST, 0)))?;
    let address = listener.local_addr()?;
    let log = ServerLog::counting(&rt, alloc)?;
    let (served, times) = thread::join(
        &rt,
        || {
            let plan = Plan {
                place: "a port",
                workers: 1,
                sessions: 2,
                bounds: Bounds {
                    clients: 1,
                    timeout: 0,
                    open_jobs: 0,
                    tenant_jobs: 0,
                    keep: KeepLimits::none(),
                },
                tenants: &[],
                stop: None,
                log: &log,
                journals: &[],
                sync: ReplySync::Always,
            };
            serve_listener(&rt, alloc, &listener, plan, Vec::new(alloc))
        },
        || (
            one_by_one(&rt, address, &frame),
            at_once(&rt, alloc, address, &all),
        ),
    );
    served?;
    for (name, time) in [
        ("one at a time", times.0),
        ("a thousand in flight", times.1),
    ] {
        let nanos = time?.as_nanos().max(1);
        let rate = u128::from(REQUESTS).saturating_mul(1_000_000) / nanos;
        writeln!(
            output,
            "over loopback, {name}: {rate} requests a millisecond"
        )?;
    }
    Ok(())
}

/// Prints how quick streams are served.
pub fn print_stream_times<R, W: Write>(rt: &R, alloc: Global, output: &mut W) -> anyhow::Result<()>
where
    R: Clock + Net<Stream = TcpStream, Listener = TcpListener> + Threads + Wait,
    R: Copy + Send + Sync + Drop + 'static,
{
    let bytes = grants(alloc)?;
    print_memory(rt, alloc, output, "grant", REQUESTS, &bytes)?;
    let bytes = jobs(alloc)?;
    print_memory(rt, alloc, output, "submit and result", 2 * REQUESTS, &bytes)?;
    print_loopback(rt, alloc, output)
}
