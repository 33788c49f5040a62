//! A writer of a connection that waits no longer than a host allows.

ghost use Rattle.std.specs.Prelude.{◌≡◌, ◌≢◌, ◌≤◌, ◌<◌, IfErr, IfOk, None, false, length};
ghost use Rattle.std.specs.Io.{WritesAtMost};
ghost use Rattle.std.specs.Io.KnownBytes.{WriteAppends};
ghost use Rattle.std.specs.IoError.{error_kind};
ghost use Rattle.endpoints.specs.Limits.{IsDueIn, IsInTime, IsDueForRest};

use crate::limits::{Timer, due_in, left_until};
use crate::timed_ends::TimedWrite;
use std::io;
use std::io::{ErrorKind, Write};
use std::sync::Wait;
use std::time::Instant;

// The most bytes of one try, where there is a limit of time: the system may wait anew for each part of
// what it is given.
const MOST: usize = 65536;

/// Writes a connection. What it is given to write has to be taken within the limit of time, however
/// often its peer takes a part. A write that a signal ends is taken up again. Where the peer has let
/// the connection go, its bytes are nobody's, and no write fails.
#[derive(Drop)]
pub struct TimedWriter<'a, R, S> {
    rt: &'a R,
    stream: S,
    seconds: u32,
    due: Option<Instant>,
}

impl<'a, R, S> TimedWriter<'a, R, S> {
    /// A writer of a stream to which nothing was written, with the seconds that what it is given may
    /// take; 0: any time.
    pub fn new(rt: &'a R, stream: S, seconds: u32) -> TimedWriter<'a, R, S>
        ensures stream { (result.stream ≡ stream) × (result.seconds ≡ seconds) }
        ensures due { result.due ≡ None }
    {
        TimedWriter {
            rt,
            stream,
            seconds,
            due: None,
        }
    }
}

impl<R: Timer<S>, S> TimedWriter<'_, R, S> {
    // The time by which what is written now has to be taken: the rest of what was begun has its own.
    fn due(&self) -> Option<Instant>
        ensures { IsDueForRest R.tells R.fails self.entry.now.rt.now self.entry.now.stream
            self.entry.now.seconds self.entry.now.due result }
    {
        match self.due {
            Some(due) => Some(due),
            None => due_in(self.rt, &self.stream, self.seconds),
        }
    }

    // The number of bytes, of so many, that one try has.
    fn part_of(&self, len: usize) -> usize
        ensures { result ≤ len }
    {
        if self.seconds == 0 {
            len
        } else {
            len.min(MOST)
        }
    }
}

impl<R: Timer<S> + Wait, S: TimedWrite> Write for TimedWriter<'_, R, S> {
    ghost contents = { λ w. S.contents w.stream };

    fn write(&mut self, piece: &[u8]) -> io::Result<usize>
        ensures bound { WritesAtMost result piece.now }
        ensures bytes { WriteAppends (S.contents self.old.stream) (S.contents self.new.stream) result
            piece.now }
        ensures retried { IfErr result (λ error. error_kind error ≢ ErrorKind.Interrupted) }
        ensures timed { IsInTime R.tells R.fails self.old.rt.now S.writes S.failed
            (IsDueForRest R.tells R.fails self.old.rt.now self.old.stream self.old.seconds
            self.old.due) false self.old.stream self.new.stream result }
        ensures rest { IfOk result (λ count. count < length piece.now → IsDueForRest R.tells R.fails
            self.old.rt.now self.old.stream self.old.seconds self.old.due self.new.due) }
        ensures whole { IfOk result (λ count. length piece.now ≤ count → self.new.due ≡ None) }
        ensures seconds { self.new.seconds ≡ self.old.seconds }
    {
        let rt = self.rt;
        let due = self.due();
        let part = &piece[..self.part_of(piece.len())];
        'trying: for _ in rt.forever() {
            let left = left_until(rt, &self.stream, due)?;
            match self.stream.write_within(part, left) {
                Ok(count) => {
                    self.due = if count < piece.len() { due } else { None };
                    return Ok(count);
                }
                Err(error) => {
                    if self.stream.was_let_go(&error) {
                        self.due = None;
                        return Ok(piece.len());
                    }
                    if error.kind() != ErrorKind::Interrupted {
                        return Err(error);
                    }
                }
            }
        }
        unreachable!()
    }

    fn flush(&mut self) -> io::Result<()> {
        Ok(())
    }
}
