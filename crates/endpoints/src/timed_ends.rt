//! The ends of a connection, whose reads and writes can be made to wait no longer than a time.

ghost use Rattle.std.specs.Prelude.{◌≡◌, ℕ, IfErr, List, None, Option, option_map, true};
ghost use Rattle.std.specs.Duration.{as_nanos};
ghost use Rattle.std.specs.Io.{ReadsAtMost, WritesAtMost};
ghost use Rattle.std.specs.Io.KnownBytes.{IsAtEnd, ReadConsumes, WriteAppends};
ghost use Rattle.std.specs.IoError.{error_kind};
ghost use Rattle.std.specs.declared.io.ErrorKind.{ErrorKind};

use std::io;
use std::time::Duration;

/// An end that is read.
pub trait TimedRead {
    // The bytes that it has left, where they are known.
    ghost remaining: { Self → Option (List ℕ) };

    // One try to read, from a state to the next, that waited so many nanoseconds at most; none: any
    // time.
    ghost reads: { Self → Option ℕ → Self → Type 0 };

    // A try failed by this.
    ghost failed: { ErrorKind → Type 0 };

    /// Reads what has come, or waits so long for it, and fails then by `WouldBlock`; `None`: any time.
    fn read_within(&mut self, piece: &mut [u8], wait: Option<Duration>) -> io::Result<usize>
        ensures bound { ReadsAtMost result piece.new }
        ensures bytes { ReadConsumes (remaining self.old) (remaining self.new) result piece.new }
        ensures tried { reads self.old (option_map as_nanos wait) self.new }
        ensures failed { IfErr result (λ error. failed (error_kind error)) };

    /// True where a read failed by this since the peer has let the connection go: no byte is left.
    fn was_let_go(&self, error: &io::Error) -> bool
        ensures { result ≡ true → IsAtEnd (remaining self.now) };
}

/// An end that is written.
pub trait TimedWrite {
    // The bytes that were written, where they are known.
    ghost contents: { Self → Option (List ℕ) };

    // One try to write, from a state to the next, that waited so many nanoseconds at most; none: any
    // time.
    ghost writes: { Self → Option ℕ → Self → Type 0 };

    // A try failed by this.
    ghost failed: { ErrorKind → Type 0 };

    /// Writes what there is room for, or waits so long for it, and fails then by `WouldBlock`; `None`:
    /// any time.
    fn write_within(&mut self, piece: &[u8], wait: Option<Duration>) -> io::Result<usize>
        ensures bound { WritesAtMost result piece.now }
        ensures bytes { WriteAppends (contents self.old) (contents self.new) result piece.now }
        ensures tried { writes self.old (option_map as_nanos wait) self.new }
        ensures failed { IfErr result (λ error. failed (error_kind error)) };

    /// True where a write failed by this since the peer has let the connection go: nobody has what is
    /// written there.
    fn was_let_go(&self, error: &io::Error) -> bool
        ensures { result ≡ true → contents self.now ≡ None };
}
