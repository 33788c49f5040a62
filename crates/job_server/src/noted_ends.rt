//! The two ends of a connection, which note how its stream goes and ends.

use crate::frame_place::FramePlace;
use crate::stop_flag::is_stopped;
use server_log::{ConnectionEnd, StopFlag};
use std::io;
use std::io::{ErrorKind, Read, Write};

/// Reads what a reader gives, counts the frames that came, and keeps how the input ended.
#[derive(Drop)]
pub(crate) struct NotedReader<'a, T> {
    reader: T,
    stop: Option<&'a StopFlag>,
    place: FramePlace,
    requests: u64,
    ending: Option<ConnectionEnd>,
}

impl<'a, T> NotedReader<'a, T> {
    ghost use Rattle.std.specs.Prelude.{◌≡◌};

    /// A reader of which nothing was read.
    pub fn new(reader: T, stop: Option<&'a StopFlag>) -> NotedReader<'a, T>
        ensures { result.reader ≡ reader }
    {
        NotedReader {
            reader,
            stop,
            place: FramePlace::between(),
            requests: 0,
            ending: None,
        }
    }

    /// How many whole frames came.
    pub fn requests(&self) -> u64 {
        self.requests
    }

    // Notes what was read, none at the end of input.
    fn note(&mut self, piece: &[u8])
        ensures { self.new.reader ≡ self.old.reader }
    {
        if piece.is_empty() {
            self.ending = Some(if is_stopped(self.stop) {
                ConnectionEnd::Stopped
            } else {
                ConnectionEnd::Input
            });
            return;
        }
        if self.ending.is_some() {
            return;
        }
        let frames = self.place.behind(piece);
        self.place = frames.place;
        self.requests = self.requests.saturating_add(frames.whole);
        if frames.too_large {
            self.ending = Some(ConnectionEnd::TooLarge);
        }
    }
}

impl<T: Read> Read for NotedReader<'_, T> {
    ghost remaining = { λ r. T.remaining r.reader };

    fn read(&mut self, piece: &mut [u8]) -> io::Result<usize> {
        let read = self.reader.read(piece);
        match &read {
            Ok(count) => self.note(&piece[..*count]),
            Err(error) => {
                self.ending = Some(if error.kind() == ErrorKind::TimedOut {
                    ConnectionEnd::ReadTimeout
                } else {
                    ConnectionEnd::ReadCut
                });
            }
        }
        read
    }
}

/// Writes to a writer, and keeps why a write failed.
#[derive(Drop)]
pub(crate) struct NotedWriter<W> {
    writer: W,
    ending: Option<ConnectionEnd>,
}

impl<W> NotedWriter<W> {
    ghost use Rattle.std.specs.Prelude.{◌≡◌};

    /// A writer to which nothing was written.
    pub fn new(writer: W) -> NotedWriter<W>
        ensures { result.writer ≡ writer }
    {
        NotedWriter {
            writer,
            ending: None,
        }
    }
}

impl<W: Write> Write for NotedWriter<W> {
    ghost contents = { λ w. W.contents w.writer };

    fn write(&mut self, piece: &[u8]) -> io::Result<usize> {
        let written = self.writer.write(piece);
        match &written {
            Ok(0) => self.ending = Some(ConnectionEnd::WriteCut),
            Ok(_) => {}
            Err(error) => {
                let waited = matches!(error.kind(), ErrorKind::WouldBlock | ErrorKind::TimedOut);
                self.ending = Some(if waited {
                    ConnectionEnd::WriteTimeout
                } else {
                    ConnectionEnd::WriteCut
                });
            }
        }
        written
    }

    fn flush(&mut self) -> io::Result<()> {
        Ok(())
    }
}

/// How a connection ended, by its two ends, and by whether a reply was refused since the journal has
/// failed. Where none tells, there was no memory.
pub(crate) fn ending_of<T, W>(
    reader: &NotedReader<'_, T>,
    writer: &NotedWriter<W>,
    is_refused: bool,
) -> ConnectionEnd {
    if is_refused {
        return ConnectionEnd::Journal;
    }
    match (writer.ending, reader.ending) {
        (Some(ending), _) => ending,
        (None, Some(ending)) => ending,
        (None, None) => ConnectionEnd::NoMemory,
    }
}
