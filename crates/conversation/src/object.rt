//! A job as JSON, for who runs it.

ghost use Rattle.std.specs.Prelude.{◌≡◌, Ok, IfOk, map};
ghost use Rattle.serde_json.specs.View.{view};
ghost use Rattle.sessions.specs.Grammar.{request_asked, program_asked};
ghost use Rattle.streams.specs.Hearing.{query_of};
ghost use Rattle.conversation.specs.Objects.{IsObject, IsObjectFor, job_data, program_data};

use job_core::ProgramBytes;
use refusal::NoMemory;
use serde_json::{Value, json};
use sessions::Request;
use std::alloc::{AllocError, Global};

#[tactic(auto, unfolding(crate::specs::Objects::program_data))]
fn program_value(alloc: Global, program: &ProgramBytes) -> Result<Value, AllocError>
    ensures { IfOk result (λ v. view v ≡ program_data (program_asked program.now)) }
{
    let code = hex::encode(alloc, &program.code)?;
    json!(in alloc; {"code": code.as_str(), "need": program.need})
}

fn program_values(alloc: Global, programs: &[ProgramBytes]) -> Result<Vec<Value>, AllocError>
    ensures { IfOk result (λ vs. map view vs.items
        ≡ map program_data (map program_asked programs.now)) }
{
    let mut values = Vec::new(alloc);
    for program in programs {
        values.push(program_value(alloc, program)?)?;
    }
    Ok(values)
}

#[tactic(auto, unfolding(crate::specs::Objects::job_data))]
fn order_value(
    alloc: Global,
    programs: &[ProgramBytes],
    credit: u32,
    buffer: &[u8],
) -> Result<Value, AllocError>
    ensures { IfOk result (λ v. view v ≡ job_data (record {
      programs = map program_asked programs.now;
      credit = credit;
      buffer = buffer.now;
    })) }
{
    let buffer = hex::encode(alloc, buffer)?;
    let programs = Value::Array(program_values(alloc, programs)?);
    json!(in alloc; {"buffer": buffer.as_str(), "credit": credit, "programs": programs})
}

// The object of a job.
fn object_text(
    alloc: Global,
    programs: &[ProgramBytes],
    credit: u32,
    buffer: &[u8],
) -> Result<Vec<u8>, NoMemory>
    ensures { IfOk result (λ text. IsObject (record {
      programs = map program_asked programs.now;
      credit = credit;
      buffer = buffer.now;
    }) text.items) }
{
    let value = order_value(alloc, programs, credit, buffer)?;
    let text = value.to_vec(alloc)?;
    Ok(text)
}

// The object of a submit's job, if there is memory for it.
fn submit_object(alloc: Global, request: &Request) -> Option<Vec<u8>>
    ensures { IsObjectFor result (Ok (request_asked request.now)) }
{
    match request {
        Request::Submit {
            tenant: _,
            programs,
            credit,
            buffer,
        } => match object_text(alloc, programs, *credit, buffer) {
            Ok(text) => Some(text),
            Err(_) => None,
        },
        Request::Grant { .. } => None,
        Request::Account { .. } => None,
        Request::Status { .. } => None,
        Request::Result { .. } => None,
    }
}

/// The object of the job that a frame asks for, if it asks for one and there is memory for it.
pub(crate) fn asked_object(alloc: Global, request: &Result<Request, u8>) -> Option<Vec<u8>>
    ensures { IsObjectFor result (query_of request.now) }
{
    match request {
        Ok(request) => submit_object(alloc, request),
        Err(_) => None,
    }
}
