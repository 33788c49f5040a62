//! A reply whose frame may still have to be written.

ghost use Rattle.std.specs.Prelude.{◌≡◌, IfOk, Ok};
ghost use Rattle.sessions.specs.Replies.{frame_of, frame_or_refusal};
ghost use Rattle.streams.specs.Answering.{report_told};
ghost use Rattle.streams.specs.Pending.{code_of_reply};

use accounts::SharedReport;
use credit_book::Report;
use refusal::NoMemory;
use sessions::{Reply, reply_frame};
use std::alloc::Global;
use std::marker::Model;

// What a reply's frame is made of.
#[derive(Drop)]
enum ReplySource {
    Frame(Vec<u8>),
    Report(SharedReport),
}

/// A reply that is decided. The frame of a short one is there; the text of a report, which may be
/// long, is written where nobody waits for it. It keeps the number of the refusal that it is, if it is
/// one. Contracts see it as the bytes of its frame.
#[derive(Drop)]
pub struct PendingReply {
    source: ReplySource,
    code: Option<u8>,
}

impl Model for PendingReply {
    ghost use Rattle.std.specs.Prelude.{ℕ, List};

    ghost Value = { List ℕ };

    ghost use Rattle.streams.specs.Pending.{bytes_of_source, TellsCode};

    ghost view = { λ p. bytes_of_source p.source };

    ghost invariant = { λ p. TellsCode (bytes_of_source p.source) p.code };
}

// The number of the refusal that a reply is, if it is one.
fn code_of(reply: &Reply<'_>) -> Option<u8>
    ensures { result ≡ code_of_reply reply.now }
{
    match reply {
        Reply::Refused { code, .. } => Some(*code),
        Reply::Account { .. } => None,
        Reply::Submit { .. } => None,
        Reply::Status { .. } => None,
        Reply::Result { .. } => None,
        Reply::Jobs { .. } => None,
        Reply::Server { .. } => None,
        Reply::Play { .. } => None,
    }
}

// The frame that tells what a job came to.
fn report_frame(alloc: Global, report: &Report) -> Result<Vec<u8>, NoMemory>
    ensures { IfOk result
        (λ frame. frame.items ≡ frame_or_refusal (report_told (Ok report.now))) }
{
    let told = Reply::Result {
        buffer: &report.buffer,
        returned: report.returned,
        spent: report.spent,
        tasks: &report.tasks,
    };
    reply_frame(alloc, &told)
}

impl PendingReply {
    ghost use Rattle.std.specs.Prelude.{◌≡◌, IfOk, Ok};
    ghost use Rattle.sessions.specs.Replies.{frame_of, frame_or_refusal};
    ghost use Rattle.streams.specs.Answering.{report_told};
    ghost use Rattle.streams.specs.Pending.{TellsCode};

    /// A reply whose frame is written at once.
    pub fn of_reply(alloc: Global, reply: &Reply<'_>) -> Result<PendingReply, NoMemory>
        ensures { IfOk result (λ bytes. bytes ≡ frame_of reply.now) }
    {
        let frame = reply_frame(alloc, reply)?;
        Ok(PendingReply {
            source: ReplySource::Frame(frame),
            code: code_of(reply),
        })
    }

    /// The reply that tells what a job came to.
    pub(crate) fn of_report(report: SharedReport) -> PendingReply
        ensures { result ≡ frame_or_refusal (report_told (Ok report)) }
    {
        PendingReply {
            source: ReplySource::Report(report),
            code: None,
        }
    }

    /// The number of the refusal that it is, if it is one.
    pub fn refusal(&self) -> Option<u8>
        ensures { TellsCode self.now result }
    {
        self.code
    }

    /// The reply's frame. That of a report is written now.
    pub fn into_frame(self, alloc: Global) -> Result<Vec<u8>, NoMemory>
        ensures { IfOk result (λ frame. frame.items ≡ self) }
    {
        match self.source {
            ReplySource::Frame(frame) => Ok(frame),
            ReplySource::Report(report) => report_frame(alloc, report.get()),
        }
    }
}

/// The frame of a reply, if there is one and memory for it.
pub fn written_frame(
    alloc: Global,
    reply: Result<PendingReply, NoMemory>,
) -> Result<Vec<u8>, NoMemory>
    ensures { IfOk result (λ frame. reply ≡ Ok frame.items) }
{
    match reply {
        Ok(reply) => reply.into_frame(alloc),
        Err(NoMemory) => Err(NoMemory),
    }
}
