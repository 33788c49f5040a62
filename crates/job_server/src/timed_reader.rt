//! A reader of a connection that waits no longer than a host allows.

ghost use Rattle.std.specs.Prelude.{◌≡◌, ◌≢◌, ℕ, IfErr, IfOk, Option, option_map};
ghost use Rattle.std.specs.Duration.{as_nanos};
ghost use Rattle.std.specs.Io.{ReadsAtMost};
ghost use Rattle.std.specs.Io.KnownBytes.{ReadConsumes};
ghost use Rattle.std.specs.IoError.{error_kind};
ghost use Rattle.job_server.specs.Stopping.{IsWaitFor, wait_within};

use crate::frame_place::FramePlace;
use crate::timed_stream::{FlaggedStream, StoppableStream};
use server_log::StopFlag;
use std::io;
use std::io::{ErrorKind, Read};
use std::net::TcpStream;
use std::time::{Clock, Duration, Instant};

/// How long the reads of a connection may wait.
#[derive(Clone, Copy)]
pub struct Waiting<'a> {
    /// Seconds for a read between frames, and from a frame's first byte to its last; 0: any time.
    pub seconds: u32,
    /// Where this is raised, a read that waits ends the stream.
    pub stop: Option<&'a StopFlag>,
}

// How many milliseconds a read waits until it looks at the flag.
const LOOK: u64 = 200;

// The wait of one try: the time that is left, and no more than to the next look at a flag.
fn wait_of(left: Option<Duration>, may_stop: bool) -> Option<Duration>
    ensures { option_map as_nanos result ≡ wait_within (option_map as_nanos left) may_stop }
{
    if !may_stop {
        return left;
    }
    let look = Duration::from_millis(LOOK);
    match left {
        Some(left) if left < look => Some(left),
        _ => Some(look),
    }
}

/// Reads a connection: the bytes of its stream, up to where a host stops it, or its peer lets it go. A
/// read fails that waits too long, or once a frame is not whole in time. One that a signal ends is
/// taken up again.
#[derive(Drop)]
pub(crate) struct TimedReader<'a, R, S = FlaggedStream<'a, &'a TcpStream>> {
    rt: &'a R,
    stream: S,
    seconds: u32,
    place: FramePlace,
    due: Option<Instant>,
}

impl<'a, R> TimedReader<'a, R> {
    ghost use Rattle.std.specs.Prelude.{◌≡◌};

    /// A reader of a connection of which nothing was read.
    pub fn new(rt: &'a R, stream: &'a TcpStream, waiting: Waiting<'a>) -> TimedReader<'a, R>
        ensures { (result.stream.stop ≡ waiting.entry.stop)
            × (result.seconds ≡ waiting.entry.seconds) }
    {
        TimedReader::over(
            rt,
            FlaggedStream::new(stream, waiting.stop),
            waiting.seconds,
        )
    }
}

impl<'a, R, S> TimedReader<'a, R, S> {
    ghost use Rattle.std.specs.Prelude.{◌≡◌};

    /// A reader of a stream of which nothing was read, and the seconds that a read may wait; 0: any
    /// time.
    pub fn over(rt: &'a R, stream: S, seconds: u32) -> TimedReader<'a, R, S>
        ensures { (result.stream ≡ stream) × (result.seconds ≡ seconds) }
    {
        TimedReader {
            rt,
            stream,
            seconds,
            place: FramePlace::between(),
            due: None,
        }
    }
}

impl<R: Clock, S: StoppableStream> TimedReader<'_, R, S> {
    ghost use Rattle.std.specs.Prelude.{◌≡◌};

    // When what is waited for from now on has to be there, if there is a limit, and a clock.
    fn due_from_now(&self) -> Option<Instant> {
        if self.seconds == 0 {
            return None;
        }
        let limit = Duration::from_secs(u64::from(self.seconds));
        Instant::now(self.rt).ok()?.checked_add(limit)
    }

    // Lets the next try wait as long as it may: to the time that is due, or to the next look.
    fn set_wait(&self, due: Option<Instant>) -> io::Result<()>
        ensures { IfOk result (λ _. (left : Option ℕ) × IsWaitFor due left
            × S.was_set self.now.stream (wait_within left (S.stops self.now.stream))) }
    {
        let mut left = None;
        if let Some(due) = due {
            match due.checked_duration_since(Instant::now(self.rt)?) {
                Some(time) if time > Duration::ZERO => left = Some(time),
                _ => return Err(io::Error::from(ErrorKind::TimedOut)),
            }
        }
        self.stream.set_wait(wait_of(left, self.stream.may_stop()))
    }

    // Notes what was read: a frame that began in it and isn't whole has its time from now on. It
    // can't fail: what was read is never lost.
    fn note(&mut self, piece: &[u8])
        ensures { self.new.stream ≡ self.old.stream }
    {
        let frames = self.place.behind(piece);
        self.place = frames.place;
        if !frames.place.is_within() {
            self.due = None;
        } else if frames.begins {
            self.due = self.due_from_now();
        }
    }
}

impl<R: Clock, S: StoppableStream> Read for TimedReader<'_, R, S> {
    ghost remaining = { λ r. S.remaining r.stream };

    fn read(&mut self, piece: &mut [u8]) -> io::Result<usize>
        ensures bound { ReadsAtMost result piece.new }
        ensures bytes { ReadConsumes (S.remaining self.old.stream) (S.remaining self.new.stream) result
            piece.new }
        ensures retried { IfErr result (λ e. error_kind e ≢ ErrorKind.Interrupted) }
    {
        let is_timed = self.seconds > 0 || self.stream.may_stop();
        let due = if self.place.is_within() {
            self.due
        } else {
            self.due_from_now()
        };
        'trying: for _ in 0..u64::MAX {
            if self.stream.is_stopped() {
                return Ok(0);
            }
            if is_timed && self.set_wait(due).is_err() {
                return Err(io::Error::from(ErrorKind::TimedOut));
            }
            match self.stream.read(piece) {
                Ok(count) => {
                    self.note(&piece[..count]);
                    return Ok(count);
                }
                Err(error) => {
                    if self.stream.was_let_go(&error) {
                        return Ok(0);
                    }
                    match error.kind() {
                        // a look at the flag is due, or a signal came
                        ErrorKind::WouldBlock | ErrorKind::Interrupted => {}
                        _ => return Err(error),
                    }
                }
            }
        }
        Err(io::Error::from(ErrorKind::TimedOut))
    }
}
