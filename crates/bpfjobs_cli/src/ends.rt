//! A command from a source to a sink.

ghost use Rattle.std.specs.Prelude.{◌≡◌, ◌≢◌, ◌<◌, ◌++◌, ℕ, List, true, false, take, length, is_err, OnOk, OnErr, IfOk, IfErr, Err};
ghost use Rattle.bpfjobs_cli.specs.Performing.{AnswersAll, AnswersInput, GivesUp, IsAllRead, IsAnswer, NeedsNoThread};

use crate::Command;
use crate::answer::Answer;
use crate::code::{answer_assemble, answer_disassemble, answer_verify};
use crate::job::answer_play;
use crate::run::answer_run;
use refusal::NoMemory;
use std::alloc::Global;
use std::sync::Wait;
use std::thread::Threads;
use streams::{Sink, Source, StreamFault, write_all};

// The most bytes that a read asks for.
const PIECE_LEN: usize = 4096;

/// The end of a command.
#[derive(Drop)]
pub struct Performed {
    /// The status: 0 answered, 1 refused.
    pub status: u8,
    /// The number of the refusal that it told, if it was one.
    pub code: Option<u8>,
    /// The whole input, which it read.
    pub input: Vec<u8>,
}

/// All that the reader gives, in pieces of at most 4,096 bytes, at most `2^64 - 1` of them.
pub fn read_all<R: Source>(alloc: Global, reader: &mut R) -> Result<Vec<u8>, StreamFault>
    requires { R.has_failed reader.old ≡ false }
    ensures told { IfOk result (λ bytes. R.transcript reader.new ≡ R.transcript reader.old
        ++ bytes.items) }
    ensures over { IfOk result
        (λ bytes. IsAllRead (R.is_over reader.new ≡ true) bytes.items) }
    ensures well { OnOk result (R.has_failed reader.new ≡ false) }
    ensures stopped { OnErr result ((input : List ℕ)
        × (R.transcript reader.new ≡ R.transcript reader.old ++ input)) }
    ensures read_failed { result ≡ Err StreamFault.ReadFailed → R.has_failed reader.new ≡ true }
    ensures no_memory { result ≡ Err StreamFault.NoMemory → R.has_failed reader.new ≡ false }
    ensures no_other { result ≢ Err StreamFault.WriteFailed }
{
    let mut bytes = Vec::new(alloc);
    let mut piece = [0u8; PIECE_LEN];
    'reads: for _ in 0..u64::MAX {
        let count = match reader.read(&mut piece) {
            Ok(count) => count,
            Err(_) => return Err(StreamFault::ReadFailed),
        };
        if count == 0 {
            return Ok(bytes);
        }
        if bytes.extend_from_slice(&piece[..count]).is_err() {
            return Err(StreamFault::NoMemory);
        }
    }
    Ok(bytes)
}

/// Writes an answer, and gives its status. It is refused where the writer fails, by 84: of the
/// answer a beginning is written then, and not all.
pub fn tell<W: Sink>(writer: &mut W, answer: &Answer) -> Result<u8, StreamFault>
    requires { W.has_failed writer.old ≡ false }
    ensures status { IfOk result (λ status. status ≡ answer.now.status) }
    ensures ok { OnOk result (W.transcript writer.new ≡ W.transcript writer.old
        ++ answer.now.text.items) }
    ensures err { IfErr result (λ fault. (fault ≡ StreamFault.WriteFailed)
        × (n : ℕ) × (n < length answer.now.text.items)
        × (W.transcript writer.new ≡ W.transcript writer.old ++ take n answer.now.text.items)) }
    ensures failed { W.has_failed writer.new ≡ is_err result }
{
    match write_all(writer, &answer.text) {
        Ok(()) => Ok(answer.status),
        Err(_) => Err(StreamFault::WriteFailed),
    }
}

// What is answered to the input, by a command that needs no thread.
fn answer_to(alloc: Global, command: Command, input: &[u8]) -> Result<Answer, NoMemory>
    requires { NeedsNoThread command }
    ensures { IfOk result (λ answer. IsAnswer command input.now answer.text.items answer.status answer.code) }
{
    match command {
        Command::Assemble => answer_assemble(alloc, input),
        Command::Disassemble => answer_disassemble(alloc, input),
        Command::Verify { need } => answer_verify(alloc, need, input),
        Command::Play => answer_play(alloc, input),
        Command::Run { .. } => unreachable!(),
        Command::Serve(_) => unreachable!(),
        Command::Journal { .. } => unreachable!(),
        Command::Ask(_) => unreachable!(),
        Command::Job(_) => unreachable!(),
        Command::Check { .. } => unreachable!(),
    }
}

/// Reads the whole input, writes the answer of a command that needs no thread, and gives the status
/// with that input. It returns if its ends do.
///
/// 83 where the reader failed, and 99 where the input or the answer found no memory and neither end
/// has failed: nothing is written. 84 where the writer failed, once all input was read: of the
/// answer a beginning is written, and not all.
pub fn perform_alone<R: Source, W: Sink>(
    alloc: Global,
    command: Command,
    reader: &mut R,
    writer: &mut W,
) -> Result<Performed, StreamFault>
    requires alone { NeedsNoThread command }
    requires source { R.has_failed reader.old ≡ false }
    requires sink { W.has_failed writer.old ≡ false }
    ensures done { IfOk result (λ done. AnswersAll command (R.transcript reader.old)
        (R.transcript reader.new) (R.is_over reader.new ≡ true) (W.transcript writer.old)
        (W.transcript writer.new) done.status done.code) }
    ensures input { IfOk result (λ done. R.transcript reader.new ≡ R.transcript reader.old
        ++ done.input.items) }
    ensures stopped { IfErr result (λ fault. GivesUp command (R.transcript reader.old)
        (R.transcript reader.new) (R.is_over reader.new ≡ true) (W.transcript writer.old)
        (W.transcript writer.new) fault) }
    ensures read_failed { result ≡ Err StreamFault.ReadFailed → R.has_failed reader.new ≡ true }
    ensures write_failed { result ≡ Err StreamFault.WriteFailed → W.has_failed writer.new ≡ true }
    ensures no_memory { result ≡ Err StreamFault.NoMemory → (R.has_failed reader.new ≡ false)
        × (W.has_failed writer.new ≡ false) }
    ensures well { OnOk result ((R.has_failed reader.new ≡ false)
        × (W.has_failed writer.new ≡ false)) }
{
    let input = read_all(alloc, reader)?;
    let answer = answer_to(alloc, command, &input)?;
    let code = answer.code;
    match tell(writer, &answer) {
        Ok(status) => Ok(Performed {
            status,
            code,
            input,
        }),
        Err(fault) => Err(fault),
    }
}

/// Reads the whole input, writes the answer of any command that has one to it, and gives the status
/// with that input. A `run` waits for its threads, so that of this call it isn't proved that it
/// returns; of `perform_alone`, which all others go to, it is. The faults are the same.
pub fn perform<T: Threads + Wait + Sync, R: Source, W: Sink>(
    rt: &T,
    alloc: Global,
    command: Command,
    reader: &mut R,
    writer: &mut W,
) -> Result<Performed, StreamFault>
    requires answers { AnswersInput command }
    requires source { R.has_failed reader.old ≡ false }
    requires sink { W.has_failed writer.old ≡ false }
    ensures done { IfOk result (λ done. AnswersAll command (R.transcript reader.old)
        (R.transcript reader.new) (R.is_over reader.new ≡ true) (W.transcript writer.old)
        (W.transcript writer.new) done.status done.code) }
    ensures input { IfOk result (λ done. R.transcript reader.new ≡ R.transcript reader.old
        ++ done.input.items) }
    ensures stopped { IfErr result (λ fault. GivesUp command (R.transcript reader.old)
        (R.transcript reader.new) (R.is_over reader.new ≡ true) (W.transcript writer.old)
        (W.transcript writer.new) fault) }
    ensures read_failed { result ≡ Err StreamFault.ReadFailed → R.has_failed reader.new ≡ true }
    ensures write_failed { result ≡ Err StreamFault.WriteFailed → W.has_failed writer.new ≡ true }
    ensures no_memory { result ≡ Err StreamFault.NoMemory → (R.has_failed reader.new ≡ false)
        × (W.has_failed writer.new ≡ false) }
    ensures well { OnOk result ((R.has_failed reader.new ≡ false)
        × (W.has_failed writer.new ≡ false)) }
{
    match command {
        Command::Run { workers } => {
            let input = read_all(alloc, reader)?;
            let answer = answer_run(rt, alloc, workers, &input)?;
            let code = answer.code;
            match tell(writer, &answer) {
                Ok(status) => Ok(Performed {
                    status,
                    code,
                    input,
                }),
                Err(fault) => Err(fault),
            }
        }
        Command::Serve(_) => unreachable!(),
        Command::Journal { .. } => unreachable!(),
        Command::Ask(_) => unreachable!(),
        Command::Job(_) => unreachable!(),
        Command::Check { .. } => unreachable!(),
        alone => perform_alone(alloc, alone, reader, writer),
    }
}
