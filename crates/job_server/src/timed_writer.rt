//! A writer of a connection that waits no longer than a host allows.

ghost use Rattle.std.specs.Prelude.{◌≡◌, ◌≢◌, ◌≤◌, ℕ, IfErr, IfOk, Option};
ghost use Rattle.std.specs.Io.{WritesAtMost};
ghost use Rattle.std.specs.Io.KnownBytes.{WriteAppends};
ghost use Rattle.std.specs.IoError.{error_kind};
ghost use Rattle.job_server.specs.Stopping.{IsWaitFor};

use crate::timed_stream::TimedSink;
use std::io;
use std::io::{ErrorKind, Write};
use std::net::TcpStream;
use std::time::{Clock, Duration, Instant};

// The most bytes of one try, where there is a limit of time: the system may wait anew for each part of
// what it is given.
const MOST: usize = 65536;

/// Writes a connection. What it is given to write has to be taken within the limit of time, however
/// often its peer takes a part. A write that a signal ends is taken up again. Where the peer has let
/// the connection go, its bytes are nobody's, and no write fails.
#[derive(Drop)]
pub(crate) struct TimedWriter<'a, R, S = &'a TcpStream> {
    rt: &'a R,
    stream: S,
    seconds: u32,
    due: Option<Instant>,
}

impl<'a, R, S> TimedWriter<'a, R, S> {
    ghost use Rattle.std.specs.Prelude.{◌≡◌};

    /// A writer of a stream to which nothing was written, and the seconds that what it is given may
    /// take; 0: any time.
    pub fn over(rt: &'a R, stream: S, seconds: u32) -> TimedWriter<'a, R, S>
        ensures { (result.stream ≡ stream) × (result.seconds ≡ seconds) }
    {
        TimedWriter {
            rt,
            stream,
            seconds,
            due: None,
        }
    }
}

impl<R: Clock, S: TimedSink> TimedWriter<'_, R, S> {
    ghost use Rattle.std.specs.Prelude.{◌≡◌};

    // When what is written from now on has to be taken, if there is a limit, and a clock.
    fn due_from_now(&self) -> Option<Instant> {
        if self.seconds == 0 {
            return None;
        }
        let limit = Duration::from_secs(u64::from(self.seconds));
        Instant::now(self.rt).ok()?.checked_add(limit)
    }

    // Lets the next try wait to the time that is due.
    fn set_wait(&self, due: Option<Instant>) -> io::Result<()>
        ensures { IfOk result (λ _. (left : Option ℕ) × IsWaitFor due left
            × S.was_set self.now.stream left) }
    {
        let mut left = None;
        if let Some(due) = due {
            match due.checked_duration_since(Instant::now(self.rt)?) {
                Some(time) if time > Duration::ZERO => left = Some(time),
                _ => return Err(io::Error::from(ErrorKind::TimedOut)),
            }
        }
        self.stream.set_wait(left)
    }

    // How many bytes of so many one try has.
    fn part_of(&self, len: usize) -> usize
        ensures { result ≤ len }
    {
        if self.seconds == 0 {
            len
        } else {
            len.min(MOST)
        }
    }
}

impl<R: Clock, S: TimedSink> Write for TimedWriter<'_, R, S> {
    ghost contents = { λ w. S.contents w.stream };

    fn write(&mut self, piece: &[u8]) -> io::Result<usize>
        ensures bound { WritesAtMost result piece.now }
        ensures bytes { WriteAppends (S.contents self.old.stream) (S.contents self.new.stream) result
            piece.now }
        ensures retried { IfErr result (λ e. error_kind e ≢ ErrorKind.Interrupted) }
    {
        let due = match self.due {
            Some(due) => Some(due),
            None => self.due_from_now(),
        };
        let part = &piece[..self.part_of(piece.len())];
        'trying: for _ in 0..u64::MAX {
            if self.seconds > 0 && self.set_wait(due).is_err() {
                return Err(io::Error::from(ErrorKind::TimedOut));
            }
            match self.stream.write(part) {
                Ok(count) => {
                    // the rest of what it was given has what is left of the time
                    self.due = if count < piece.len() { due } else { None };
                    return Ok(count);
                }
                Err(error) => {
                    if self.stream.was_let_go(&error) {
                        return Ok(piece.len());
                    }
                    if error.kind() != ErrorKind::Interrupted {
                        return Err(error);
                    }
                }
            }
        }
        Err(io::Error::from(ErrorKind::TimedOut))
    }

    fn flush(&mut self) -> io::Result<()> {
        Ok(())
    }
}
