//! A stream for tests.
use std::alloc::{AllocError, Global};
use std::io::{self, ErrorKind, Read, Write};

/// A stream that reads its input in parts, would block before each if `blocks` is set, and keeps what is written.
#[derive(Drop)]
pub struct Wire {
    pub input: Vec<u8>,
    pub at: usize,
    pub part: usize,
    pub blocks: bool,
    pub is_blocked: bool,
    pub fails: bool,
    /// How often in a row the next write would block.
    pub waits: u32,
    pub output: Vec<u8>,
}

impl Wire {
    pub fn new(alloc: Global, input: &[u8], part: usize, blocks: bool) -> Result<Wire, AllocError> {
        Ok(Wire {
            input: input.to_vec(alloc)?,
            at: 0,
            part,
            blocks,
            is_blocked: false,
            fails: false,
            waits: 0,
            // Room for what a test writes: a write takes no memory.
            output: Vec::with_capacity(alloc, 64)?,
        })
    }
}

impl Read for Wire {
    fn read(&mut self, buf: &mut [u8]) -> io::Result<usize> {
        if self.blocks && !self.is_blocked {
            self.is_blocked = true;
            return Err(io::Error::from(ErrorKind::WouldBlock));
        }
        self.is_blocked = false;
        if self.at > self.input.len() {
            return Ok(0);
        }
        let left = &self.input[self.at..];
        let n = left.len().min(buf.len()).min(self.part);
        if n == 0 && self.fails {
            return Err(io::Error::from(ErrorKind::ConnectionReset));
        }
        buf[..n].copy_from_slice(&left[..n]);
        self.at += n;
        Ok(n)
    }
}

impl Write for Wire {
    fn write(&mut self, buf: &[u8]) -> io::Result<usize> {
        if self.waits > 0 {
            self.waits -= 1;
            return Err(io::Error::from(ErrorKind::WouldBlock));
        }
        if self.output.extend_from_slice(buf).is_err() {
            return Err(io::Error::from(ErrorKind::OutOfMemory));
        }
        Ok(buf.len())
    }

    fn flush(&mut self) -> io::Result<()> {
        Ok(())
    }
}
