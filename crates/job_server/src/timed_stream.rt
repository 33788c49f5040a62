//! Streams whose reads and writes wait so long at most, and that a host may stop.

ghost use Rattle.std.specs.Prelude.{◌≡◌, IfOk, None, true, is_some, option_map};
ghost use Rattle.std.specs.Duration.{as_nanos};
ghost use Rattle.job_server.specs.Stopping.{left_unless};
ghost use Rattle.std.specs.Io.{ReadsAtMost};
ghost use Rattle.std.specs.Io.KnownBytes.{IsAtEnd, ReadConsumes};

use crate::stop_flag::is_stopped;
use server_log::StopFlag;
use std::io;
use std::io::{ErrorKind, Read, Write};
use std::net::TcpStream;
use std::time::Duration;

/// A stream whose reads can be made to wait no longer than a time.
pub(crate) trait TimedStream: Read {
    ghost use Rattle.std.specs.Prelude.{ℕ, Option};

    // Its reads were set to wait so many nanoseconds; none: any time.
    ghost was_set: { Self → Option ℕ → Type 0 };

    /// Lets each read from now on wait so long, and fail then by `WouldBlock`; `None`: any time.
    fn set_wait(&self, wait: Option<Duration>) -> io::Result<()>
        ensures { IfOk result (λ _. was_set self.now (option_map as_nanos wait)) };

    /// Whether a read failed by this since the peer has let the stream go: no byte is left then.
    fn was_let_go(&self, error: &io::Error) -> bool
        ensures { result ≡ true → IsAtEnd (Self.remaining self.now) };
}

// Whether the system says by this that the peer has let a connection go.
fn is_reset(error: &io::Error) -> bool {
    matches!(
        error.kind(),
        ErrorKind::ConnectionReset | ErrorKind::BrokenPipe
    )
}

impl TimedStream for &TcpStream {
    // The system says nothing of it in a contract.
    ghost was_set = { λ _ _. Unit {0} };

    fn set_wait(&self, wait: Option<Duration>) -> io::Result<()> {
        self.set_read_timeout(wait)
    }

    fn was_let_go(&self, error: &io::Error) -> bool {
        is_reset(error)
    }
}

/// A stream whose writes can be made to wait no longer than a time.
pub(crate) trait TimedSink: Write {
    ghost use Rattle.std.specs.Prelude.{ℕ, Option};

    // Its writes were set to wait so many nanoseconds; none: any time.
    ghost was_set: { Self → Option ℕ → Type 0 };

    /// Lets each write from now on wait so long, and fail then by `WouldBlock`; `None`: any time.
    fn set_wait(&self, wait: Option<Duration>) -> io::Result<()>
        ensures { IfOk result (λ _. was_set self.now (option_map as_nanos wait)) };

    /// Whether a write failed by this since the peer has let the stream go: nobody has what is written
    /// there.
    fn was_let_go(&self, error: &io::Error) -> bool
        ensures { result ≡ true → Self.contents self.now ≡ None };
}

impl TimedSink for &TcpStream {
    // The system says nothing of it in a contract.
    ghost was_set = { λ _ _. Unit {0} };

    fn set_wait(&self, wait: Option<Duration>) -> io::Result<()> {
        self.set_write_timeout(wait)
    }

    fn was_let_go(&self, error: &io::Error) -> bool {
        is_reset(error)
    }
}

/// A stream that a host may stop. It then ends, whatever its peer still sends: the bytes that it
/// has left are those that it gives before.
pub(crate) trait StoppableStream: TimedStream {
    ghost use Rattle.std.specs.Prelude.{Bool};

    // A host may stop it.
    ghost stops: { Self → Bool };

    /// True where a host may stop it while a read waits.
    fn may_stop(&self) -> bool
        ensures { result ≡ stops self.now };

    /// True once a host has stopped it: no byte is left then.
    fn is_stopped(&self) -> bool
        ensures { result ≡ true → IsAtEnd (Self.remaining self.now) };
}

/// A stream that a flag stops, if there is one.
#[derive(Drop)]
pub(crate) struct FlaggedStream<'a, S> {
    stream: S,
    stop: Option<&'a StopFlag>,
}

impl<'a, S> FlaggedStream<'a, S> {
    /// This stream, with this flag.
    pub fn new(stream: S, stop: Option<&'a StopFlag>) -> FlaggedStream<'a, S>
        ensures { (result.stream ≡ stream) × (result.stop ≡ stop.entry) }
    {
        FlaggedStream { stream, stop }
    }
}

/// Gives what the stream gives. With a flag, the number of bytes that come before it is raised
/// isn't known.
impl<S: Read> Read for FlaggedStream<'_, S> {
    ghost remaining = { λ s. left_unless s.stop (S.remaining s.stream) };

    fn read(&mut self, piece: &mut [u8]) -> io::Result<usize>
        ensures bound { ReadsAtMost result piece.new }
        ensures bytes { ReadConsumes (left_unless self.old.stop (S.remaining self.old.stream))
            (left_unless self.new.stop (S.remaining self.new.stream)) result piece.new }
        ensures gives { ReadConsumes (S.remaining self.old.stream) (S.remaining self.new.stream)
            result piece.new }
    {
        self.stream.read(piece)
    }
}

impl<S: TimedStream> TimedStream for FlaggedStream<'_, S> {
    ghost was_set = { λ s wait. S.was_set s.stream wait };

    fn set_wait(&self, wait: Option<Duration>) -> io::Result<()> {
        self.stream.set_wait(wait)
    }

    fn was_let_go(&self, error: &io::Error) -> bool {
        self.stream.was_let_go(error)
    }
}

impl<S: TimedStream> StoppableStream for FlaggedStream<'_, S> {
    ghost stops = { λ s. is_some s.stop };

    fn may_stop(&self) -> bool {
        self.stop.is_some()
    }

    fn is_stopped(&self) -> bool {
        is_stopped(self.stop)
    }
}
