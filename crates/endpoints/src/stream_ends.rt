//! The ends of a connection of the system's.

use crate::timed_ends::{TimedRead, TimedWrite};
use std::io;
use std::io::{ErrorKind, Read, Write};
use std::net::TcpStream;
use std::time::Duration;

// True where the system says by this that the peer has let a connection go.
fn is_reset(error: &io::Error) -> bool {
    matches!(
        error.kind(),
        ErrorKind::ConnectionReset | ErrorKind::BrokenPipe
    )
}

/// The end of a connection that is read. It knows how long its reads may wait now, so that the system
/// is told of a change alone.
#[derive(Drop)]
pub struct ReadEnd<'a> {
    stream: &'a TcpStream,
    wait: Option<Duration>,
}

impl<'a> ReadEnd<'a> {
    /// The end of a connection whose reads may wait any time.
    pub fn new(stream: &'a TcpStream) -> ReadEnd<'a> {
        ReadEnd { stream, wait: None }
    }

    // Lets reads wait so long from now on.
    fn set_wait(&mut self, wait: Option<Duration>) -> io::Result<()> {
        if wait != self.wait {
            self.stream.set_read_timeout(wait)?;
            self.wait = wait;
        }
        Ok(())
    }
}

// The system says nothing in a contract of bytes and times.
impl TimedRead for ReadEnd<'_> {
    ghost use Rattle.std.specs.Prelude.{None};

    ghost remaining = { λ _. None };

    ghost reads = { λ _ _ _. Unit {0} };

    ghost failed = { λ _. Unit {0} };

    fn read_within(&mut self, piece: &mut [u8], wait: Option<Duration>) -> io::Result<usize> {
        if self.set_wait(wait).is_err() {
            return Err(io::Error::from(ErrorKind::TimedOut));
        }
        self.stream.read(piece)
    }

    fn was_let_go(&self, error: &io::Error) -> bool {
        is_reset(error)
    }
}

/// The end of a connection that is written. It knows how long its writes may wait now.
#[derive(Drop)]
pub struct WriteEnd<'a> {
    stream: &'a TcpStream,
    wait: Option<Duration>,
}

impl<'a> WriteEnd<'a> {
    /// The end of a connection whose writes may wait any time.
    pub fn new(stream: &'a TcpStream) -> WriteEnd<'a> {
        WriteEnd { stream, wait: None }
    }

    // Lets writes wait so long from now on.
    fn set_wait(&mut self, wait: Option<Duration>) -> io::Result<()> {
        if wait != self.wait {
            self.stream.set_write_timeout(wait)?;
            self.wait = wait;
        }
        Ok(())
    }
}

// The system says nothing in a contract of bytes and times.
impl TimedWrite for WriteEnd<'_> {
    ghost use Rattle.std.specs.Prelude.{None};

    ghost contents = { λ _. None };

    ghost writes = { λ _ _ _. Unit {0} };

    ghost failed = { λ _. Unit {0} };

    fn write_within(&mut self, piece: &[u8], wait: Option<Duration>) -> io::Result<usize> {
        if self.set_wait(wait).is_err() {
            return Err(io::Error::from(ErrorKind::TimedOut));
        }
        self.stream.write(piece)
    }

    fn was_let_go(&self, error: &io::Error) -> bool {
        is_reset(error)
    }
}
