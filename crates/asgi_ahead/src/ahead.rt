//! What is read of a stream ahead of what is asked for.
ghost use Rattle.std.specs.Prelude.{◌≡◌, ◌↔◌, ◌<◌, ◌≤◌, ℕ, List, Option, true, IsTrue, vec_len};
ghost use Rattle.std.specs.Io.{ReadsAtMost};
ghost use Rattle.std.specs.Io.KnownBytes.{IsAtEnd, ReadConsumes};
ghost use Rattle.asgi_ahead.specs.Reading.{left};

use std::alloc::Global;
use std::io::{self, Read};

/// How many bytes are read ahead at the most.
const AHEAD: usize = 65_536;

/// The bytes that were read of a stream and not given yet. Once a read has filled all the room that it was given, the next
/// one asks for more than there is room for, so that many bytes that are there take few reads. Each byte is given once and in
/// order.
///
/// The memory is taken with the first such read. If it is refused, nothing is read ahead.
#[derive(Drop)]
pub struct Ahead {
    alloc: Global,
    // `buf[start..end]` was read and not given yet.
    buf: Vec<u8>,
    start: usize,
    end: usize,
    // The last read of the stream filled its room.
    was_filled: bool,
    ghost ordered: { start ≤ end },
    ghost in_bounds: { end ≤ vec_len buf },
}

impl Ahead {
    /// Nothing was read yet. Allocates nothing.
    pub fn new(alloc: Global) -> Self
        ensures { result.start ≡ result.end }
    {
        Ahead {
            alloc,
            buf: Vec::new(alloc),
            start: 0,
            end: 0,
            was_filled: false,
        }
    }

    /// Whether nothing is held, so that the next read is one of the stream.
    pub fn is_empty(&self) -> bool
        ensures { IsTrue result ↔ (self.now.start ≡ self.now.end) }
    {
        self.start == self.end
    }

    /// Whether the last read of the stream filled all the room that it was given, so that there may be more.
    pub fn was_filled(&self) -> bool
        ensures { result ≡ self.now.was_filled }
    {
        self.was_filled
    }

    /// Gives the memory back, unless something is held. It is taken again once a read has filled its room.
    pub fn let_go(&mut self)
        ensures held { (self.new.start ≡ self.new.end) ↔ (self.old.start ≡ self.old.end) }
        ensures bytes { (known : Option (List ℕ)) → left self.new.buf.items self.new.start self.new.end known ≡ left self.old.buf.items self.old.start self.old.end known }
    {
        if self.is_empty() {
            self.start = 0;
            self.end = 0;
            self.buf = Vec::new(self.alloc);
        }
    }

    /// Reads some bytes into the front of `buf`, and returns how many: none at the end. They are those that were read
    /// before, or the next ones of the stream, which is read at most once.
    pub fn read<S: Read>(&mut self, stream: &mut S, buf: &mut [u8]) -> io::Result<usize>
        ensures bound { ReadsAtMost result buf.new }
        ensures bytes { ReadConsumes (left self.old.buf.items self.old.start self.old.end (S.remaining stream.old)) (left self.new.buf.items self.new.start self.new.end (S.remaining stream.new)) result buf.new }
    {
        if self.start < self.end {
            return self.give(buf);
        }
        if !self.was_filled {
            return self.read_straight(stream, buf);
        }
        if !self.has_room() {
            return self.read_straight(stream, buf);
        }
        self.read_ahead(stream, buf)
    }

    /// Whether there is room to read ahead: taken at the first call, unless memory for it is refused.
    fn has_room(&mut self) -> bool
        requires { self.old.start ≡ self.old.end }
        ensures bytes { (known : Option (List ℕ)) → left self.new.buf.items self.new.start self.new.end known ≡ left self.old.buf.items self.old.start self.old.end known }
        ensures nothing { self.new.start ≡ self.new.end }
        ensures room { result ≡ true → 0 < vec_len self.new.buf }
    {
        if self.buf.is_empty() && self.buf.resize(AHEAD, 0).is_err() {
            return false;
        }
        !self.buf.is_empty()
    }

    /// Gives what was read before, as much of it as there is room for.
    fn give(&mut self, buf: &mut [u8]) -> io::Result<usize>
        ensures bound { ReadsAtMost result buf.new }
        ensures bytes { (known : Option (List ℕ)) → (self.old.start ≡ self.old.end → IsAtEnd known)
            → ReadConsumes (left self.old.buf.items self.old.start self.old.end known) (left self.new.buf.items self.new.start self.new.end known) result buf.new }
    {
        let mut held = &self.buf[self.start..self.end];
        let given = held.read(buf)?;
        self.start += given;
        Ok(given)
    }

    /// Reads once into the room of the caller, and nothing ahead.
    fn read_straight<S: Read>(&mut self, stream: &mut S, buf: &mut [u8]) -> io::Result<usize>
        requires { self.old.start ≡ self.old.end }
        ensures bound { ReadsAtMost result buf.new }
        ensures bytes { ReadConsumes (left self.old.buf.items self.old.start self.old.end (S.remaining stream.old)) (left self.new.buf.items self.new.start self.new.end (S.remaining stream.new)) result buf.new }
    {
        let many = stream.read(buf)?;
        self.was_filled = many == buf.len();
        Ok(many)
    }

    /// Reads once as much as is read ahead, and gives as much of it as there is room for.
    fn read_ahead<S: Read>(&mut self, stream: &mut S, buf: &mut [u8]) -> io::Result<usize>
        requires { (self.old.start ≡ self.old.end) × (0 < vec_len self.old.buf) }
        ensures bound { ReadsAtMost result buf.new }
        ensures bytes { ReadConsumes (left self.old.buf.items self.old.start self.old.end (S.remaining stream.old)) (left self.new.buf.items self.new.start self.new.end (S.remaining stream.new)) result buf.new }
    {
        match stream.read(self.buf.as_mut_slice()) {
            Ok(many) => {
                self.start = 0;
                self.end = many;
                self.was_filled = many == self.buf.len();
            }
            Err(e) => return Err(e),
        }
        self.give(buf)
    }
}
