//! What a stream has not taken yet.
ghost use Rattle.std.specs.Prelude.{◌≡◌, ◌↔◌, ◌≤◌, ◌++◌, [], ℕ, List, IsTrue, IfOk, OnOk, OnErr, length, take, vec_len, drop, ◌+◌};
ghost use Rattle.asgi_reactor.specs.Holding.{GoesOut, TakesOn, many, taken, waiting};

use crate::faults::may_pass;
use std::alloc::{AllocError, Global};
use std::io::{self, Write};

/// How many bytes wait at the most before they are pushed, unless the stream has no room.
///
/// A body event has 16 KiB unless set otherwise: there is room for four, the head and what frames them.
pub(crate) const JOINED: usize = 69_632;

/// How many bytes are many: once so many wait, more are likely to follow.
const MANY: usize = 4_096;

/// How much of a write was taken.
#[derive(Clone, Copy, Debug)]
pub enum Took {
    /// All of it: what the stream does not take waits.
    All,
    /// So many bytes of its front: memory for the others was refused.
    Part(usize, AllocError),
}

/// Bytes that wait to be written, in order.
#[derive(Drop)]
pub struct Held {
    alloc: Global,
    // `buf[start..]` waits.
    buf: Vec<u8>,
    start: usize,
    ghost in_bounds: { start ≤ vec_len buf },
}

impl Held {
    /// Nothing waits. Allocates nothing.
    pub fn new(alloc: Global) -> Self
        ensures { waiting result.buf.items result.start ≡ [] }
    {
        Held {
            alloc,
            buf: Vec::new(alloc),
            start: 0,
        }
    }

    /// How many bytes wait.
    pub fn len(&self) -> usize
        ensures { result ≡ length (waiting self.now.buf.items self.now.start) }
    {
        self.buf.len() - self.start
    }

    /// Whether nothing waits.
    pub fn is_empty(&self) -> bool
        ensures { IsTrue result ↔ (length (waiting self.now.buf.items self.now.start) ≡ 0) }
    {
        self.len() == 0
    }

    /// These bytes wait behind the others. If memory is refused, nothing changes.
    pub fn put(&mut self, bytes: &[u8]) -> Result<(), AllocError>
        ensures waits { OnOk result (waiting self.new.buf.items self.new.start ≡ waiting self.old.buf.items self.old.start ++ bytes.now) }
        ensures refused { OnErr result (waiting self.new.buf.items self.new.start ≡ waiting self.old.buf.items self.old.start) }
    {
        self.buf.extend_from_slice(bytes)
    }

    /// Writes once what waits, as much of it as the stream takes, and returns whether all of it is out.
    pub fn push<W: Write>(&mut self, stream: &mut W) -> io::Result<bool>
        ensures bytes { GoesOut (W.contents stream.old) (W.contents stream.new) (waiting self.old.buf.items self.old.start) (waiting self.new.buf.items self.new.start) }
        ensures all { IfOk result (λ all. IsTrue all → waiting self.new.buf.items self.new.start ≡ []) }
    {
        let took = stream.write(&self.buf[self.start..])?;
        self.start += took;
        if self.start < self.buf.len() {
            return Ok(false);
        }
        self.clear();
        Ok(true)
    }

    /// Nothing waits any more. Its memory is given back if it is much, and else kept for what follows.
    fn clear(&mut self)
        ensures { waiting self.new.buf.items self.new.start ≡ [] }
    {
        self.start = 0;
        self.buf.clear();
        if self.buf.capacity() > MANY {
            self.buf = Vec::new(self.alloc);
        }
    }

    /// Gives back the memory, unless something waits in it.
    pub fn let_go(&mut self)
        ensures { waiting self.new.buf.items self.new.start ≡ waiting self.old.buf.items self.old.start }
    {
        if self.is_empty() {
            self.start = 0;
            self.buf = Vec::new(self.alloc);
        }
    }

    /// Writes the bytes behind those that wait. What the stream does not take waits too, so all are taken, unless the stream
    /// fails, or memory is refused.
    pub fn write<W: Write>(&mut self, stream: &mut W, buf: &[u8]) -> io::Result<Took>
        ensures bound { IfOk result (λ took. many buf.now took ≤ length buf.now) }
        ensures bytes { TakesOn (taken (W.contents stream.old) self.old.buf.items self.old.start) (taken (W.contents stream.new) self.new.buf.items self.new.start) result buf.now }
    {
        if !self.is_empty() {
            match self.push(stream) {
                Ok(true) => {}
                Ok(false) => return Ok(self.hold(buf)),
                Err(e) if may_pass(&e) => return Ok(self.hold(buf)),
                Err(e) => return Err(e),
            }
        }
        match stream.write(buf) {
            Ok(took) => Ok(self.hold_rest(buf, took)),
            Err(e) if may_pass(&e) => Ok(self.hold(buf)),
            Err(e) => Err(e),
        }
    }

    /// The same, but while few bytes wait these wait with them, so that one push writes all.
    pub fn join<W: Write>(&mut self, stream: &mut W, buf: &[u8]) -> io::Result<Took>
        ensures bound { IfOk result (λ took. many buf.now took ≤ length buf.now) }
        ensures bytes { TakesOn (taken (W.contents stream.old) self.old.buf.items self.old.start) (taken (W.contents stream.new) self.new.buf.items self.new.start) result buf.now }
    {
        if buf.len() <= JOINED.saturating_sub(self.len()) {
            let _room = self.make_room(buf.len());
            if let Ok(()) = self.put(buf) {
                return Ok(Took::All);
            }
        }
        self.write(stream, buf)
    }

    /// Takes room for all that may wait, if this many bytes are the first. Where that is refused, `put` takes what it needs.
    fn make_room(&mut self, many: usize) -> Result<(), AllocError>
        ensures { waiting self.new.buf.items self.new.start ≡ waiting self.old.buf.items self.old.start }
    {
        if many < MANY || !self.buf.is_empty() {
            return Ok(());
        }
        self.buf.reserve(JOINED)
    }

    /// All of these bytes wait, or none of them.
    fn hold(&mut self, bytes: &[u8]) -> Took
        ensures bound { many bytes.now result ≤ length bytes.now }
        ensures waits { waiting self.new.buf.items self.new.start ≡ waiting self.old.buf.items self.old.start ++ take (many bytes.now result) bytes.now }
    {
        match self.put(bytes) {
            Ok(()) => Took::All,
            Err(e) => Took::Part(0, e),
        }
    }

    /// The bytes behind the first few wait, and are taken too, unless memory is refused.
    fn hold_rest(&mut self, bytes: &[u8], took: usize) -> Took
        requires { took ≤ length bytes.now }
        ensures bound { many bytes.now result ≤ length bytes.now }
        ensures waits { (n : ℕ) × (waiting self.new.buf.items self.new.start ≡ waiting self.old.buf.items self.old.start ++ take n (drop took bytes.now)) × (many bytes.now result ≡ took + n) }
    {
        match self.put(&bytes[took..]) {
            Ok(()) => Took::All,
            Err(e) => Took::Part(took, e),
        }
    }
}
