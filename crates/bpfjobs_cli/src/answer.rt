//! An answer: the text that is printed, and the status that goes with it.

ghost use Rattle.std.specs.Prelude.{◌≡◌, IfOk, Some, None};
ghost use Rattle.sessions.specs.Replies.{reply_data};
ghost use Rattle.streams.specs.Pending.{code_of_reply};
ghost use Rattle.bpfjobs_cli.specs.Printed.{Prints, refusal_line, refusal_reply, reply_line};

use refusal::NoMemory;
use sessions::{Reply, reply_text};
use std::alloc::Global;

/// The text that is printed, and the status: 0 answered, 1 refused.
#[derive(Drop)]
pub struct Answer {
    pub text: Vec<u8>,
    pub status: u8,
    /// The number of the refusal that the text tells, if it is one.
    pub code: Option<u8>,
}

/// The line of a refusal: `refused N`, or `refused N at K`, where K is the line or the slot.
pub(crate) fn answer_refusal(
    alloc: Global,
    number: u8,
    place: Option<u64>,
) -> Result<Answer, NoMemory>
    ensures { IfOk result
        (λ answer. Prints answer.text.items answer.status answer.code (refusal_line number place) 1
        (Some number)) }
{
    match place {
        Some(place) => {
            let line = format!(in alloc; "refused {number} at {place}\n")?;
            Ok(Answer {
                text: line.into_bytes(),
                status: 1,
                code: Some(number),
            })
        }
        None => {
            let line = format!(in alloc; "refused {number}\n")?;
            Ok(Answer {
                text: line.into_bytes(),
                status: 1,
                code: Some(number),
            })
        }
    }
}

// The number of a refusal.
fn code_of(reply: &Reply) -> Option<u8>
    ensures { result ≡ code_of_reply reply.now }
{
    match reply {
        Reply::Refused { code, .. } => Some(*code),
        _ => None,
    }
}

/// A reply as JSON, in a line.
pub fn answer_reply(alloc: Global, reply: &Reply, status: u8) -> Result<Answer, NoMemory>
    ensures { IfOk result
        (λ answer. Prints answer.text.items answer.status answer.code (reply_line (reply_data reply.now))
        status (code_of_reply reply.now)) }
{
    let mut text = reply_text(alloc, reply)?;
    text.push(b'\n')?;
    Ok(Answer {
        text,
        status,
        code: code_of(reply),
    })
}

/// A refusal as a reply, by its number alone.
pub(crate) fn answer_failure(alloc: Global, code: u8) -> Result<Answer, NoMemory>
    ensures { IfOk result
        (λ answer. Prints answer.text.items answer.status answer.code (refusal_reply code None None) 1
        (Some code)) }
{
    let refusal = Reply::Refused {
        code,
        program: None,
        slot: None,
    };
    answer_reply(alloc, &refusal, 1)
}
