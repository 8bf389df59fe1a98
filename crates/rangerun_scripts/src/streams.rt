//! A reader and a writer that take a few bytes at a time, and of which one call may fail.

use std::io::{self, ErrorKind, Read, Write};

/// The calls of streams that may fail.
#[derive(Clone, Copy, PartialEq, Eq)]
pub enum Stream {
    /// Reads.
    Reads,
    /// Writes.
    Writes,
    /// Flushes.
    Flushes,
}

/// How many bytes the calls of a stream take, and which of these calls fails. The calls of other streams take
/// all bytes, and pass.
#[derive(Clone, Copy)]
pub struct Trouble {
    /// The calls.
    pub stream: Stream,
    /// The most bytes that one takes.
    pub size: usize,
    /// How many of them pass before one fails. Those behind it pass too.
    pub passed: u64,
    /// How it fails.
    pub kind: ErrorKind,
}

impl Trouble {
    /// Calls that take so many bytes at a time, and don't fail.
    pub fn pieces(stream: Stream, size: usize) -> Trouble {
        Trouble {
            stream,
            size,
            passed: u64::MAX,
            kind: ErrorKind::Other,
        }
    }

    // Counts a call of a stream, and fails it if its turn has come. Returns the most bytes that it takes.
    fn pass(&mut self, stream: Stream) -> io::Result<usize> {
        if self.stream != stream {
            return Ok(usize::MAX);
        }
        let left = self.passed;
        self.passed = left.wrapping_sub(1);
        if left == 0 {
            return Err(io::Error::from(self.kind));
        }
        Ok(self.size)
    }
}

/// Gives a text piece by piece, and counts the lines that it has begun.
#[derive(Drop)]
pub struct Source<'a> {
    rest: &'a [u8],
    trouble: Trouble,
    begins_line: bool,
    lines: &'a mut u64,
}

impl<'a> Source<'a> {
    /// Gives `text`. The lines are counted in `lines`, if a piece has one byte.
    pub fn new(text: &'a [u8], trouble: Trouble, lines: &'a mut u64) -> Source<'a> {
        Source {
            rest: text,
            trouble,
            begins_line: true,
            lines,
        }
    }
}

impl Read for Source<'_> {
    fn read(&mut self, buf: &mut [u8]) -> io::Result<usize> {
        let most = self.trouble.pass(Stream::Reads)?;
        let count = most.min(buf.len()).min(self.rest.len());
        let (piece, rest) = self.rest.split_at(count);
        buf[..count].copy_from_slice(piece);
        self.rest = rest;
        if let Some(last) = piece.last() {
            *self.lines = self.lines.saturating_add(u64::from(self.begins_line));
            self.begins_line = *last == b'\n';
        }
        Ok(count)
    }
}

/// Holds what is written.
#[derive(Drop)]
pub struct Sink<'a> {
    held: &'a mut Vec<u8>,
    trouble: Trouble,
}

impl<'a> Sink<'a> {
    /// Appends to `held`.
    pub fn new(held: &'a mut Vec<u8>, trouble: Trouble) -> Sink<'a> {
        Sink { held, trouble }
    }
}

impl Write for Sink<'_> {
    fn write(&mut self, buf: &[u8]) -> io::Result<usize> {
        let most = self.trouble.pass(Stream::Writes)?;
        let count = most.min(buf.len());
        self.held.extend_from_slice(&buf[..count])?;
        Ok(count)
    }

    fn flush(&mut self) -> io::Result<()> {
        self.trouble.pass(Stream::Flushes)?;
        Ok(())
    }
}
