//! The lines of a server's log: as JSON, or its notes alone in plain words. They have numbers, words of
//! ours, the configured names of tenants, and what is told of the server's own files.

ghost use Rattle.std.specs.Prelude.{◌≡◌, IfOk, map, string_bytes};
ghost use Rattle.serde_json.specs.Data.{string};
ghost use Rattle.serde_json.specs.Written.{compact_text};
ghost use Rattle.server_log.specs.LogLines as lines;

use serde_json::Value;
use shared_desk::Door;
use std::alloc::{AllocError, Global};
use std::fmt;

/// The form of a log's lines.
#[derive(Clone, Copy, Debug, PartialEq, Eq)]
pub enum LogForm {
    /// A JSON object for each event.
    Json,
    /// The notes in plain words, and nothing of the other events.
    Notes,
}

impl LogForm {
    ghost use Rattle.std.specs.Prelude.{◌≡◌};
    ghost use Rattle.server_log.specs.LogLines as lines;

    /// Whether a log of this form has lines of what clients do.
    pub fn tells_clients(self) -> bool
        ensures { result ≡ lines.tells_clients self }
    {
        match self {
            LogForm::Json => true,
            LogForm::Notes => false,
        }
    }
}

/// How a connection ended.
#[derive(Clone, Copy, Debug, PartialEq, Eq)]
pub enum ConnectionEnd {
    /// The client ended its stream.
    Input,
    /// The host stopped the server.
    Stopped,
    /// A frame was too large: 71.
    TooLarge,
    /// A read waited too long: 83.
    ReadTimeout,
    /// A read failed: 83.
    ReadCut,
    /// A write waited too long: 84.
    WriteTimeout,
    /// A write failed: 84.
    WriteCut,
    /// The journal failed, so that nothing was written: 84.
    Journal,
    /// There was no memory: 99.
    NoMemory,
}

impl ConnectionEnd {
    ghost use Rattle.server_log.specs.LogLines.{ending_code};

    /// The number of the refusal, and 0 where there is none.
    pub fn code(self) -> u8
        ensures { result ≡ ending_code self }
    {
        match self {
            ConnectionEnd::Input => 0,
            ConnectionEnd::Stopped => 0,
            ConnectionEnd::TooLarge => 71,
            ConnectionEnd::ReadTimeout => 83,
            ConnectionEnd::ReadCut => 83,
            ConnectionEnd::WriteTimeout => 84,
            ConnectionEnd::WriteCut => 84,
            ConnectionEnd::Journal => 84,
            ConnectionEnd::NoMemory => 99,
        }
    }
}

impl fmt::Display for ConnectionEnd {
    ghost use Rattle.std.specs.Prelude.{Some};
    ghost use Rattle.server_log.specs.LogLines.{ending_text};

    ghost output = { λ ending. Some (ending_text ending) };

    fn fmt<W: fmt::Write>(&self, f: &mut fmt::Formatter<W>) -> fmt::Result {
        match self {
            ConnectionEnd::Input => write!(f, "input"),
            ConnectionEnd::Stopped => write!(f, "stopped"),
            ConnectionEnd::TooLarge => write!(f, "frame too large"),
            ConnectionEnd::ReadTimeout => write!(f, "timeout"),
            ConnectionEnd::ReadCut => write!(f, "cut"),
            ConnectionEnd::WriteTimeout => write!(f, "timeout"),
            ConnectionEnd::WriteCut => write!(f, "cut"),
            ConnectionEnd::Journal => write!(f, "journal"),
            ConnectionEnd::NoMemory => write!(f, "memory"),
        }
    }
}

/// What happened. Connections and jobs have their numbers.
#[derive(Drop)]
pub enum LogEvent {
    /// The server takes connections from now on.
    Ready,
    /// It takes no more connections.
    Stopping,
    /// Its journal failed, so that it tells nobody anything from now on.
    JournalFailed,
    /// A connection was taken.
    Opened {
        connection: u64,
        by: Door,
    },
    /// A connection is over, after so many requests and milliseconds.
    Closed {
        connection: u64,
        requests: u64,
        end: ConnectionEnd,
        ms: u64,
    },
    /// A worker has taken a job, with its credit and so many programs, which waited for so many
    /// milliseconds. It came from this connection; a job that a journal starts again came from none.
    Started {
        job: u64,
        connection: Option<u64>,
        credit: u32,
        programs: u64,
        wait: u64,
    },
    /// A job was run: its credit, its tasks, the bytes of its buffer, and its milliseconds.
    Ended {
        job: u64,
        spent: u32,
        returned: u32,
        tasks: u64,
        buffer: u64,
        ms: u64,
    },
    /// A job failed by this refusal.
    Failed {
        job: u64,
        code: u8,
    },
    /// A request of this connection was refused.
    Refused {
        connection: u64,
        code: u8,
    },
    /// A tenant was granted so much by a request of this connection, and has this balance then. Its
    /// name is that of the configuration, if it stands there.
    Granted {
        connection: u64,
        tenant: Option<String>,
        amount: u32,
        balance: u64,
    },
    /// The server tells its host this, in words.
    Note {
        text: String,
    },
    /// Lines were lost: how many the line itself tells.
    Lost,
}

// A text in quotes, as JSON has it.
fn quoted(alloc: Global, text: &str) -> Result<String, AllocError>
    ensures { IfOk result (λ quoted. string_bytes quoted ≡ compact_text (string text.now)) }
{
    let value = Value::String(String::from_str(alloc, text)?);
    value.to_string(alloc)
}

// A byte of a plain line.
fn plain_byte(byte: u8) -> u8
    ensures { result ≡ lines.plain_byte byte }
{
    if byte < b' ' { b' ' } else { byte }
}

// A text on one line.
fn one_line(alloc: Global, text: &str) -> Result<String, AllocError>
    ensures { IfOk result (λ line. string_bytes line ≡ map lines.plain_byte text.now) }
{
    let mut bytes = Vec::with_capacity(alloc, text.len())?;
    for byte in text.as_bytes() {
        bytes.push(plain_byte(*byte))?;
    }
    // No proof says that these are UTF-8, so they are checked.
    match String::from_utf8(bytes) {
        Ok(line) => Ok(line),
        Err(_) => Err(AllocError),
    }
}

impl LogEvent {
    ghost use Rattle.std.specs.Prelude.{◌≡◌, IfOk, option_map, string_bytes};
    ghost use Rattle.server_log.specs.LogLines.{event_text, note_of};

    // The words that it tells the host, if it does.
    fn note(&self) -> Option<&str>
        ensures { option_map (λ text. text.now) result ≡ note_of self.now }
    {
        match self {
            LogEvent::Ready => None,
            LogEvent::Stopping => None,
            LogEvent::JournalFailed => None,
            LogEvent::Opened { .. } => None,
            LogEvent::Closed { .. } => None,
            LogEvent::Started { .. } => None,
            LogEvent::Ended { .. } => None,
            LogEvent::Failed { .. } => None,
            LogEvent::Refused { .. } => None,
            LogEvent::Granted { .. } => None,
            LogEvent::Note { text } => Some(text.as_str()),
            LogEvent::Lost => None,
        }
    }

    // Its part of a line of JSON.
    fn json(&self, alloc: Global) -> Result<String, AllocError>
        ensures { IfOk result (λ text. string_bytes text ≡ event_text self.now) }
    {
        match self {
            LogEvent::Ready => format!(in alloc; "\"ready\",\"version\":\"0.1.0\""),
            LogEvent::Stopping => format!(in alloc; "\"stopping\""),
            LogEvent::JournalFailed => format!(in alloc; "\"journal failed\""),
            LogEvent::Opened { connection, by } => {
                format!(in alloc; "\"opened\",\"connection\":{connection},\"socket\":\"{by}\"")
            }
            LogEvent::Closed {
                connection,
                requests,
                end,
                ms,
            } => {
                let code = end.code();
                format!(in alloc;
                    "\"closed\",\"connection\":{connection},\"requests\":{requests},\"code\":{code},\"end\":\"{end}\",\"ms\":{ms}"
                )
            }
            LogEvent::Started {
                job,
                connection: None,
                credit,
                programs,
                wait,
            } => {
                format!(in alloc;
                    "\"started\",\"job\":{job},\"credit\":{credit},\"programs\":{programs},\"wait\":{wait}"
                )
            }
            LogEvent::Started {
                job,
                connection: Some(connection),
                credit,
                programs,
                wait,
            } => {
                format!(in alloc;
                    "\"started\",\"job\":{job},\"connection\":{connection},\"credit\":{credit},\"programs\":{programs},\"wait\":{wait}"
                )
            }
            LogEvent::Ended {
                job,
                spent,
                returned,
                tasks,
                buffer,
                ms,
            } => {
                format!(in alloc;
                    "\"ended\",\"job\":{job},\"spent\":{spent},\"returned\":{returned},\"tasks\":{tasks},\"buffer\":{buffer},\"ms\":{ms}"
                )
            }
            LogEvent::Failed { job, code } => format!(in alloc;
                "\"failed\",\"job\":{job},\"code\":{code}"
            ),
            LogEvent::Refused { connection, code } => {
                format!(in alloc; "\"refused\",\"connection\":{connection},\"code\":{code}")
            }
            LogEvent::Granted {
                connection,
                tenant: None,
                amount,
                balance,
            } => {
                format!(in alloc;
                    "\"granted\",\"connection\":{connection},\"amount\":{amount},\"balance\":{balance}"
                )
            }
            LogEvent::Granted {
                connection,
                tenant: Some(tenant),
                amount,
                balance,
            } => {
                format!(in alloc;
                    "\"granted\",\"connection\":{connection},\"tenant\":\"{tenant}\",\"amount\":{amount},\"balance\":{balance}"
                )
            }
            LogEvent::Note { text } => {
                let text = quoted(alloc, text)?;
                format!(in alloc; "\"note\",\"text\":{text}")
            }
            LogEvent::Lost => format!(in alloc; "\"lost\""),
        }
    }
}

// How many lines were lost ahead of one, if any were.
#[derive(Clone, Copy)]
struct LostMember(u64);

impl fmt::Display for LostMember {
    ghost use Rattle.std.specs.Prelude.{Some};
    ghost use Rattle.server_log.specs.LogLines.{lost_text};

    ghost output = { λ lost. Some (lost_text lost.0) };

    fn fmt<W: fmt::Write>(&self, f: &mut fmt::Formatter<W>) -> fmt::Result {
        if self.0 == 0 {
            Ok(())
        } else {
            write!(f, ",\"lost\":{}", self.0)
        }
    }
}

// The same as a line of its own.
#[derive(Clone, Copy)]
struct LostLine(u64);

impl fmt::Display for LostLine {
    ghost use Rattle.std.specs.Prelude.{Some};
    ghost use Rattle.server_log.specs.LogLines.{plain_lost};

    ghost output = { λ lost. Some (plain_lost lost.0) };

    fn fmt<W: fmt::Write>(&self, f: &mut fmt::Formatter<W>) -> fmt::Result {
        if self.0 == 0 {
            Ok(())
        } else {
            write!(f, "bpfjobs: {} lines lost\n", self.0)
        }
    }
}

/// A line: when it happened, in milliseconds since 1970, what happened, and how many lines ahead of it
/// were lost.
#[derive(Drop)]
pub struct LogLine {
    pub time: u64,
    pub event: LogEvent,
    pub lost: u64,
}

impl LogLine {
    ghost use Rattle.std.specs.Prelude.{◌≡◌, ◌++◌, IfOk, string_bytes};
    ghost use Rattle.server_log.specs.LogLines.{json_line, log_text, note_of, plain_lost, plain_note};

    // As a JSON object.
    fn json(&self, alloc: Global) -> Result<String, AllocError>
        ensures { IfOk result (λ text. string_bytes text ≡ json_line self.now) }
    {
        let event = self.event.json(alloc)?;
        let lost = LostMember(self.lost);
        format!(in alloc; "{{\"time\":{},\"event\":{event}{lost}}}\n", self.time)
    }

    // As plain lines.
    fn plain(&self, alloc: Global) -> Result<String, AllocError>
        ensures { IfOk result (λ text. string_bytes text
            ≡ plain_lost self.now.lost ++ plain_note (note_of self.now.event)) }
    {
        let lost = LostLine(self.lost);
        match self.event.note() {
            Some(note) => {
                let note = one_line(alloc, note)?;
                format!(in alloc; "{lost}bpfjobs: {note}\n")
            }
            None => format!(in alloc; "{lost}"),
        }
    }

    /// Its text in a log of this form.
    pub(crate) fn text(&self, alloc: Global, form: LogForm) -> Result<String, AllocError>
        ensures { IfOk result (λ text. string_bytes text ≡ log_text form self.now) }
    {
        match form {
            LogForm::Json => self.json(alloc),
            LogForm::Notes => self.plain(alloc),
        }
    }
}
