//! The text that a line in memory reads.
ghost use Rattle.std.specs.Prelude.{◌≡◌, ◌≤◌, ◌++◌, [], length, drop, Some, OnErr};
ghost use Rattle.std.specs.Io.{ReadsAtMost};
ghost use Rattle.std.specs.Io.KnownBytes.{ReadConsumes};
ghost use Rattle.asgi_ws.specs.Scripts.{bytes_of, IsHeldUp};

use std::alloc::Global;
use std::collections::VecDeque;
use std::io::{self, ErrorKind};

/// What one read of text returns.
#[derive(Debug, Drop)]
pub enum ScriptBytes {
    /// These bytes, in as many reads as they need. If there are none, the read would block.
    Bytes(Vec<u8>),
    /// Nothing yet.
    WouldBlock,
    /// The read fails.
    Fault,
}

/// The piece that is being read, from `at` on, and those after it.
#[derive(Drop)]
pub struct Pieces {
    /// The current piece.
    pub current: Vec<u8>,
    /// How many of its bytes were read.
    pub at: usize,
    /// The pieces after it.
    pub pieces: VecDeque<ScriptBytes>,
    ghost inside: { at ≤ length current.items },
}

impl Pieces {
    /// These pieces, none read yet. Allocates nothing.
    pub fn new(alloc: Global, pieces: VecDeque<ScriptBytes>) -> Self
        ensures { (result.current.items ≡ []) × (result.pieces ≡ pieces) }
    {
        Pieces {
            current: Vec::new(alloc),
            at: 0,
            pieces,
        }
    }

    /// Reads bytes of one piece into the front of `buf`, and returns how many: none after the last
    /// piece, or if `buf` has no room. The error is `WouldBlock` or `Other`, by the piece.
    pub fn read(&mut self, buf: &mut [u8]) -> io::Result<usize>
        ensures bound { ReadsAtMost result buf.new }
        ensures bytes { ReadConsumes (Some (drop self.old.at self.old.current.items ++ bytes_of self.old.pieces.items))
            (Some (drop self.new.at self.new.current.items ++ bytes_of self.new.pieces.items)) result buf.new }
        ensures held_up { OnErr result ((self.old.at ≡ length self.old.current.items) × IsHeldUp self.old.pieces.items) }
    {
        if self.at == self.current.len() {
            match self.pieces.pop_front() {
                None => return Ok(0),
                Some(ScriptBytes::WouldBlock) => return Err(io::Error::from(ErrorKind::WouldBlock)),
                Some(ScriptBytes::Fault) => return Err(io::Error::from(ErrorKind::Other)),
                Some(ScriptBytes::Bytes(bytes)) => {
                    self.current = bytes;
                    self.at = 0;
                }
            }
        }
        self.read_current(buf)
    }

    // Reads what is left of the current piece. An empty piece is a read that would block.
    fn read_current(&mut self, buf: &mut [u8]) -> io::Result<usize>
        ensures bound { ReadsAtMost result buf.new }
        ensures bytes { ReadConsumes (Some (drop self.old.at self.old.current.items ++ bytes_of self.old.pieces.items))
            (Some (drop self.new.at self.new.current.items ++ bytes_of self.new.pieces.items)) result buf.new }
        ensures held_up { OnErr result (self.old.at ≡ length self.old.current.items) }
    {
        if buf.is_empty() {
            return Ok(0);
        }
        let left = self.current.len() - self.at;
        if left == 0 {
            return Err(io::Error::from(ErrorKind::WouldBlock));
        }
        let n = left.min(buf.len());
        buf[..n].copy_from_slice(&self.current[self.at..self.at + n]);
        self.at += n;
        Ok(n)
    }
}
