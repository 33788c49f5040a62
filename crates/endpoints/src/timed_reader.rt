//! A reader of a connection that waits no longer than a host allows.

ghost use Rattle.std.specs.Prelude.{◌≡◌, ◌≢◌, IfErr, IfSome, None, Ok, false, is_some, true};
ghost use Rattle.std.specs.Io.{ReadsAtMost};
ghost use Rattle.std.specs.Io.KnownBytes.{ReadConsumes};
ghost use Rattle.std.specs.IoError.{error_kind};
ghost use Rattle.endpoints.specs.Limits.{IsDueFor, IsDueIn, IsInTime};
ghost use Rattle.endpoints.specs.Stopping.{left_unless_stopped};

use crate::flag_watch::FlagWatch;
use crate::limits::{Timer, due_in, left_until, wait_of};
use crate::stop_flag::StopFlag;
use crate::timed_ends::TimedRead;
use std::io;
use std::io::{ErrorKind, Read};
use std::sync::Wait;
use std::time::Instant;

/// Reads a connection: the bytes of its stream, up to where a host stops it, or its peer lets it go.
/// A read between frames has a time of its own. Those within one frame have one time together: however
/// many pieces it comes in, its time begins once. A read that a signal ends is taken up again.
#[derive(Drop)]
pub struct TimedReader<'a, R, S> {
    rt: &'a R,
    stream: S,
    seconds: u32,
    watch: FlagWatch<'a>,
    frame: Option<u64>,
    due: Option<Instant>,
}

impl<'a, R, S> TimedReader<'a, R, S> {
    /// A reader of a stream of which nothing was read, with the seconds that a read may wait, and a
    /// frame take; 0: any time. Where the flag is raised, a read that waits ends the stream.
    pub fn new(
        rt: &'a R,
        stream: S,
        seconds: u32,
        stop: Option<&'a StopFlag>,
    ) -> TimedReader<'a, R, S>
        ensures stream { (result.stream ≡ stream) × (result.seconds ≡ seconds) }
        ensures watch { result.watch ≡ (is_some stop.entry, false) }
        ensures place { result.frame ≡ None }
    {
        TimedReader {
            rt,
            stream,
            seconds,
            watch: FlagWatch::new(stop),
            frame: None,
            due: None,
        }
    }
}

impl<R: Timer<S>, S: TimedRead> TimedReader<'_, R, S> {
    /// Tells where the stream stands: within the frame of this number, or between frames. The time of
    /// a frame begins here, and once.
    pub fn at(&mut self, frame: Option<u64>)
        ensures frame { self.new.frame ≡ frame }
        ensures same { frame ≡ self.old.frame → self.new.due ≡ self.old.due }
        ensures begun { frame ≢ self.old.frame → IfSome frame
            (λ _. IsDueIn R.tells R.fails self.old.rt.now self.old.stream self.old.seconds
            self.new.due) }
        ensures others { (self.new.stream ≡ self.old.stream) × (self.new.rt ≡ self.old.rt)
            × (self.new.seconds ≡ self.old.seconds) × (self.new.watch ≡ self.old.watch) }
    {
        if frame != self.frame {
            self.due = match frame {
                Some(_) => due_in(self.rt, &self.stream, self.seconds),
                None => None,
            };
            self.frame = frame;
        }
    }

    // The time by which what is waited for has to be there: the rest of a frame has that frame's.
    fn due(&self) -> Option<Instant>
        ensures { IsDueFor R.tells R.fails self.entry.now.rt.now self.entry.now.stream
            self.entry.now.seconds self.entry.now.frame self.entry.now.due result }
    {
        match self.frame {
            Some(_) => self.due,
            None => due_in(self.rt, &self.stream, self.seconds),
        }
    }
}

impl<R: Timer<S> + Wait, S: TimedRead> Read for TimedReader<'_, R, S> {
    ghost remaining = { λ r. left_unless_stopped r.watch.0 (S.remaining r.stream) };

    fn read(&mut self, piece: &mut [u8]) -> io::Result<usize>
        ensures bound { ReadsAtMost result piece.new }
        ensures bytes { ReadConsumes (left_unless_stopped self.old.watch.0 (S.remaining self.old.stream))
            (left_unless_stopped self.new.watch.0 (S.remaining self.new.stream)) result piece.new }
        ensures retried { IfErr result (λ error. error_kind error ≢ ErrorKind.Interrupted) }
        ensures timed { IsInTime R.tells R.fails self.old.rt.now S.reads S.failed
            (IsDueFor R.tells R.fails self.old.rt.now self.old.stream self.old.seconds self.old.frame
            self.old.due) self.old.watch.0 self.old.stream self.new.stream result }
        ensures gives { self.new.watch.1 ≡ false → ReadConsumes (S.remaining self.old.stream)
            (S.remaining self.new.stream) result piece.new }
        ensures stopped { self.new.watch.1 ≡ true → result ≡ Ok 0 }
        ensures stays { self.old.watch.1 ≡ true
            → (self.new.watch.1 ≡ true) × (self.new.stream ≡ self.old.stream) }
        ensures place { (self.new.frame ≡ self.old.frame) × (self.new.due ≡ self.old.due)
            × (self.new.seconds ≡ self.old.seconds) × (self.new.watch.0 ≡ self.old.watch.0) }
    {
        let rt = self.rt;
        let due = self.due();
        'trying: for _ in rt.forever() {
            if self.watch.is_up() {
                return Ok(0);
            }
            let wait = wait_of(left_until(rt, &self.stream, due)?, self.watch.may_stop());
            match self.stream.read_within(piece, wait) {
                Ok(count) => return Ok(count),
                Err(error) => {
                    if self.stream.was_let_go(&error) {
                        return Ok(0);
                    }
                    match error.kind() {
                        // a look at the flag is due, or a signal came
                        ErrorKind::WouldBlock | ErrorKind::Interrupted => {}
                        _ => return Err(error),
                    }
                }
            }
        }
        unreachable!()
    }
}
