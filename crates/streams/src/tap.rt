//! A source or a sink of a std reader or writer.

use crate::{Failed, Sink, Source, Transcript};
use std::io::{Read, Write};

/// A reader or a writer, with what went through it.
///
/// Its read fails where that of the reader gives an error, its write where that of the writer gives
/// an error or takes no byte of a piece that isn't empty. Neither is tried again. What goes through
/// it leaves the reader, or comes to the writer, where it is known what these have.
#[derive(Drop)]
pub struct Tap<T> {
    inner: T,
    transcript: Transcript,
    has_failed: bool,
    is_over: bool,
}

impl<T: Drop> Tap<T> {
    ghost use Rattle.std.specs.Prelude.{◌≡◌, [], false};

    /// An end that nothing went through.
    pub fn new(inner: T) -> Tap<T>
        ensures inner { result.inner ≡ inner }
        ensures told { result.transcript.bytes ≡ [] }
        ensures well { result.has_failed ≡ false }
    {
        Tap {
            inner,
            transcript: Transcript::new(),
            has_failed: false,
            is_over: false,
        }
    }

    /// The reader or the writer itself.
    pub fn into_inner(self) -> T
        ensures { result ≡ self.inner }
    {
        let Tap { inner, .. } = self;
        inner
    }
}

impl<T: Read> Source for Tap<T> {
    ghost transcript = { λ t. t.transcript.bytes };

    ghost has_failed = { λ t. t.has_failed };

    ghost is_over = { λ t. t.is_over };

    ghost left = { λ t. T.remaining t.inner };

    fn read(&mut self, piece: &mut [u8]) -> Result<usize, Failed> {
        match self.inner.read(piece) {
            Ok(count) => {
                self.transcript = self.transcript.then(&piece[..count]);
                self.is_over = count == 0;
                Ok(count)
            }
            Err(_) => {
                self.has_failed = true;
                Err(Failed)
            }
        }
    }
}

impl<T: Write> Sink for Tap<T> {
    ghost transcript = { λ t. t.transcript.bytes };

    ghost has_failed = { λ t. t.has_failed };

    ghost holds = { λ t. T.contents t.inner };

    fn write(&mut self, piece: &[u8]) -> Result<usize, Failed> {
        let count = match self.inner.write(piece) {
            Ok(count) => count,
            Err(_) => {
                self.has_failed = true;
                return Err(Failed);
            }
        };
        if count == 0 && !piece.is_empty() {
            self.has_failed = true;
            return Err(Failed);
        }
        self.transcript = self.transcript.then(&piece[..count]);
        Ok(count)
    }
}
