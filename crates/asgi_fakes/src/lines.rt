//! Readers and writers whose every step a test sets, and a line of them.
ghost use Rattle.std.specs.Prelude.{◌≤◌, length};

use asgi_ws::{Pair, Wired};
use std::alloc::{AllocError, AllocGlobal};
use std::io::{self, ErrorKind, Read, Write};

/// A reader that gives its bytes in pieces.
#[derive(Clone, Copy)]
pub struct Pieces<'a> {
    pub bytes: &'a [u8],
    /// The most bytes of the first read, and of each later one.
    pub first: usize,
    pub later: usize,
    /// The fault that comes before each read, if any.
    pub before: Option<ErrorKind>,
    /// The read that fails, counted from 1, if any.
    pub fails_at: u64,
    /// How many reads gave bytes, the end or that failure.
    pub reads: u64,
    is_ready: bool,
}

impl<'a> Pieces<'a> {
    /// A reader of the bytes, at most `first` of them in the first read and at most `later` in each other.
    pub fn new(bytes: &'a [u8], first: usize, later: usize) -> Self {
        Pieces {
            bytes,
            first,
            later,
            before: None,
            fails_at: 0,
            reads: 0,
            is_ready: false,
        }
    }
}

impl Read for Pieces<'_> {
    fn read(&mut self, buf: &mut [u8]) -> io::Result<usize> {
        if let Some(kind) = self.before {
            self.is_ready = !self.is_ready;
            if self.is_ready {
                return Err(io::Error::from(kind));
            }
        }
        self.reads = self.reads.saturating_add(1);
        if self.reads == self.fails_at {
            return Err(io::Error::from(ErrorKind::ConnectionReset));
        }
        let most = if self.reads == 1 {
            self.first
        } else {
            self.later
        };
        Ok(give(&mut self.bytes, most, buf))
    }
}

/// Moves at most `most` bytes into the buffer, and returns how many.
fn give(bytes: &mut &[u8], most: usize, buf: &mut [u8]) -> usize
    ensures { result ≤ length buf.new }
{
    let n = most.min(bytes.len()).min(buf.len());
    let (now, rest) = bytes.split_at(n);
    buf[..n].copy_from_slice(now);
    *bytes = rest;
    n
}

/// A reader that would block for ever.
#[derive(Clone, Copy)]
pub struct Never;

impl Read for Never {
    fn read(&mut self, _buf: &mut [u8]) -> io::Result<usize> {
        Err(io::Error::from(ErrorKind::WouldBlock))
    }
}

/// A writer that keeps what it takes.
#[derive(Drop)]
pub struct Sink {
    pub taken: Vec<u8>,
    /// The most bytes that a call takes.
    pub most: usize,
    /// The call that fails, counted from 1, if any.
    pub fails_at: u64,
    /// How many calls return this fault before the next that takes.
    pub faults: u64,
    /// How many do so again after each call that takes.
    pub again: u64,
    pub fault: ErrorKind,
    pub calls: u64,
}

impl Write for Sink {
    fn write(&mut self, buf: &[u8]) -> io::Result<usize> {
        if self.faults > 0 {
            self.faults -= 1;
            return Err(io::Error::from(self.fault));
        }
        self.calls = self.calls.saturating_add(1);
        if self.calls == self.fails_at {
            return Err(io::Error::from(ErrorKind::BrokenPipe));
        }
        self.faults = self.again;
        let n = self.most.min(buf.len());
        self.taken.extend_from_slice(&buf[..n])?;
        Ok(n)
    }

    fn flush(&mut self) -> io::Result<()> {
        Ok(())
    }
}

/// A line of a reader, and of a writer that keeps what it takes.
pub type Memory<R> = Wired<Pair<R, Vec<u8>>>;

/// A line on which nothing was read or written yet.
pub fn line_of<H: AllocGlobal, R: Read + Drop>(rt: &H, reader: R) -> Result<Memory<R>, AllocError> {
    let writer = Vec::with_capacity(rt.alloc(), 256)?;
    Ok(Wired::new(rt.alloc(), Pair { reader, writer }))
}

/// What was written to the line.
pub fn text_of<R: Drop>(line: &Memory<R>) -> &[u8] {
    match line.stream() {
        Some(pair) => pair.writer.as_slice(),
        None => &[],
    }
}
