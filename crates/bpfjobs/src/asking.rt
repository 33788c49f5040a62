//! The command `ask`: one request to a server that runs, and its reply.

use crate::input_faults::{JobForm, tell_input_fault};
use crate::printing::print_text;
use bpfjobs_cli::{
    Ask, Endpoint, FAILED, JobDeclined, ServerQuestion, ask_frame, ask_request, read_all,
    reply_status,
};
use job_server::{SocketErrorWords, address_of};
use std::alloc::Global;
use std::io::{ErrorKind, Read, Write};
use std::net::{Net, TcpStream};
use std::os::unix::net::UnixStream;
use std::time::{Clock, Duration};
use std::{io, thread};
use streams::Tap;

// How many milliseconds go by between two tries to connect, and how many tries are made in a second.
const BETWEEN_TRIES: u64 = 20;

const TRIES_A_SECOND: u64 = 50;

// The most bytes that a read asks for.
const PIECE_LEN: usize = 65_536;

/// The reason why there is no reply.
#[derive(Clone, Copy)]
enum ReplyFault {
    /// The stream ended, or failed, ahead of its end.
    Cut,
    NoMemory,
}

// A connection to a server.
#[derive(Drop)]
enum AskConnection {
    Port(TcpStream),
    Path(UnixStream),
}

fn connected<R: Net<Stream = TcpStream>>(rt: &R, endpoint: &Endpoint) -> io::Result<AskConnection> {
    match endpoint {
        Endpoint::Port(port) => Ok(AskConnection::Port(TcpStream::connect(rt, address_of(*port))?)),
        Endpoint::Socket { path, grants: _ } => {
            Ok(AskConnection::Path(UnixStream::connect(rt, path.as_str())?))
        }
    }
}

// Whether nobody listens there.
fn is_deserted(error: &io::Error) -> bool {
    matches!(
        error.kind(),
        ErrorKind::NotFound | ErrorKind::ConnectionRefused
    )
}

// A connection, for which so many seconds are tried while nobody listens there.
fn connection<R: Net<Stream = TcpStream> + Clock>(
    rt: &R,
    endpoint: &Endpoint,
    wait: u32,
) -> io::Result<AskConnection> {
    for _ in 0..u64::from(wait) * TRIES_A_SECOND {
        match connected(rt, endpoint) {
            Err(error) if is_deserted(&error) => {}
            tried => return tried,
        }
        thread::sleep(rt, Duration::from_millis(BETWEEN_TRIES));
    }
    connected(rt, endpoint)
}

// The next bytes of a stream, so many.
fn next_bytes<I: Read>(alloc: Global, stream: &mut I, count: usize) -> Result<Vec<u8>, ReplyFault> {
    let mut bytes = Vec::new(alloc);
    let mut piece = [0u8; PIECE_LEN];
    for _ in 0..u64::MAX {
        if bytes.len() >= count {
            return Ok(bytes);
        }
        let wanted = (count - bytes.len()).min(PIECE_LEN);
        match stream.read(&mut piece[..wanted]) {
            Ok(0) => return Err(ReplyFault::Cut),
            Ok(read) => {
                if bytes.extend_from_slice(&piece[..read]).is_err() {
                    return Err(ReplyFault::NoMemory);
                }
            }
            Err(error) if error.kind() == ErrorKind::Interrupted => {}
            Err(_) => return Err(ReplyFault::Cut),
        }
    }
    Err(ReplyFault::Cut)
}

// The text of the reply to a request. A server may answer ahead of a request's end and close the
// stream, so that a write that fails is no want of a reply.
fn reply_to<I: Read + Drop, O: Write + Drop>(
    alloc: Global,
    mut reader: I,
    mut writer: O,
    frame: &[u8],
) -> Result<Vec<u8>, ReplyFault> {
    let _ = writer.write_all(frame);
    let length = next_bytes(alloc, &mut reader, 4)?;
    if length.len() != 4 {
        return Err(ReplyFault::Cut);
    }
    let length = u32::from_be_bytes([length[0], length[1], length[2], length[3]]);
    next_bytes(alloc, &mut reader, length as usize)
}

// Tells why there is no reply, and gives the status.
fn told<R: Eprint>(rt: &R, endpoint: &Endpoint, what: &str, why: &str) -> u8 {
    let _ = match endpoint {
        Endpoint::Port(port) => eprintln!(rt; "bpfjobs: {what}127.0.0.1:{port}: {why}"),
        Endpoint::Socket { path, grants: _ } => eprintln!(rt; "bpfjobs: {what}{path}: {why}"),
    };
    FAILED
}

// Tells why no connection was made, and gives the status.
fn not_connected<R: Eprint>(rt: &R, alloc: Global, endpoint: &Endpoint, error: &io::Error) -> u8 {
    let what = "cannot connect to ";
    match format!(in alloc; "{}", SocketErrorWords(error)) {
        Ok(why) => told(rt, endpoint, what, &why),
        Err(_) => told(rt, endpoint, what, "no memory"),
    }
}

// What the input says of a request: the job of a submit, and nothing of any other.
fn input_for<R: Input>(rt: &R, alloc: Global, question: &ServerQuestion) -> Option<Vec<u8>> {
    match question {
        ServerQuestion::Submit { .. } => {
            let mut reader = Tap::new(rt.reader());
            match read_all(alloc, &mut reader) {
                Ok(input) => Some(input),
                Err(_) => None,
            }
        }
        _ => Some(Vec::new(alloc)),
    }
}

// Prints the refusal of input that is no job, tells it in words, and gives the status.
fn declined<R: Print + Eprint>(rt: &R, alloc: Global, why: JobDeclined, input: &[u8]) -> u8 {
    let Ok(answer) = why.answer(alloc) else {
        return FAILED;
    };
    let status = print_text(rt, &answer.text, answer.status);
    tell_input_fault(rt, alloc, Some(JobForm::Plain), None, input, answer.code);
    status
}

// Prints a reply, and gives the status.
fn reply_told<R: Print + Eprint>(rt: &R, alloc: Global, endpoint: &Endpoint, reply: Vec<u8>) -> u8 {
    let status = match reply_status(alloc, &reply) {
        Ok(Some(status)) => status,
        Ok(None) => return told(rt, endpoint, "", "what came is no reply"),
        Err(_) => return told(rt, endpoint, "", "no memory for the reply"),
    };
    let mut text = reply;
    match text.push(b'\n') {
        Ok(()) => print_text(rt, &text, status),
        Err(_) => told(rt, endpoint, "", "no memory for the reply"),
    }
}

/// Asks a server, prints its reply, and gives the status: 0 where the reply is ok, 1 where it is a
/// refusal, 3 where there is none.
pub fn ask_server<R>(rt: &R, alloc: Global, ask: &Ask) -> u8
where
    R: Input + Print + Eprint + Net<Stream = TcpStream> + Clock,
{
    let Some(input) = input_for(rt, alloc, &ask.question) else {
        let _ = eprintln!(rt; "bpfjobs: the input can't be read");
        return FAILED;
    };
    let text = match ask_request(alloc, &ask.question, &input) {
        Ok(text) => text,
        Err(fault) => return declined(rt, alloc, JobDeclined::Object(fault), &input),
    };
    let frame = match ask_frame(alloc, &text) {
        Ok(frame) => frame,
        Err(fault) => return declined(rt, alloc, JobDeclined::Object(fault), &input),
    };
    let reply = match connection(rt, &ask.endpoint, ask.wait) {
        Ok(AskConnection::Port(stream)) => reply_to(alloc, &stream, &stream, &frame),
        Ok(AskConnection::Path(stream)) => reply_to(alloc, &stream, &stream, &frame),
        Err(error) => return not_connected(rt, alloc, &ask.endpoint, &error),
    };
    match reply {
        Ok(reply) => reply_told(rt, alloc, &ask.endpoint, reply),
        Err(ReplyFault::Cut) => told(rt, &ask.endpoint, "", "the stream ended ahead of a reply"),
        Err(ReplyFault::NoMemory) => told(rt, &ask.endpoint, "", "no memory for the reply"),
    }
}
