//! The stream below a line.
ghost use Rattle.std.specs.Prelude.{◌≡◌, ℕ, List, [], ◌∷◌, length, Option, None};
ghost use Rattle.std.specs.Io.{ReadsAtMost, WritesAtMost};
ghost use Rattle.std.specs.Io.KnownBytes.{ReadConsumes, WriteAppends, Keeps};
ghost use Rattle.asgi_ws.specs.Streams.{StreamCall, Adds};
ghost use Rattle.asgi_ws.specs.Streams as call;

use std::io::{self, Read, Write};

/// A byte stream in both directions. A read does not change what was written, and a write does not
/// change what is still to be read.
pub trait Stream {
    /// The bytes that are still to come, if they are known.
    ghost remaining: { Self → Option (List ℕ) };

    /// The bytes that were written, if they are known.
    ghost contents: { Self → Option (List ℕ) };

    /// The calls, each with its result, the oldest first, if they are known.
    ghost calls: { Self → Option (List StreamCall) };

    /// Reads some bytes into the front of `buf`, and returns how many: none at the end.
    fn read_part(&mut self, buf: &mut [u8]) -> io::Result<usize>
        ensures bound { ReadsAtMost result buf.new }
        ensures bytes { ReadConsumes (remaining self.old) (remaining self.new) result buf.new }
        ensures told { Adds (calls self.old) (calls self.new) (call.Read (length buf.new) result ∷ []) }
        ensures stays { contents self.new ≡ contents self.old };

    /// Writes some of the bytes, from the first on, and returns how many.
    fn write_part(&mut self, bytes: &[u8]) -> io::Result<usize>
        ensures bound { WritesAtMost result bytes.now }
        ensures bytes { WriteAppends (contents self.old) (contents self.new) result bytes.now }
        ensures told { Adds (calls self.old) (calls self.new) (call.Write bytes.now result ∷ []) }
        ensures stays { remaining self.new ≡ remaining self.old };

    /// Flushes what a buffer holds.
    fn flush_parts(&mut self) -> io::Result<()>
        ensures bytes { Keeps (contents self.old) (contents self.new) }
        ensures told { Adds (calls self.old) (calls self.new) (call.Flush result ∷ []) }
        ensures stays { remaining self.new ≡ remaining self.old };
}

/// A stream made of a reader and a writer, each with its own bytes.
#[derive(Debug, Drop)]
pub struct Pair<R, W> {
    /// The source of the bytes that are read.
    pub reader: R,
    /// The destination of the bytes that are written.
    pub writer: W,
}

impl<R: Read, W: Write> Stream for Pair<R, W> {
    ghost remaining = { λ p. R.remaining p.reader };

    ghost contents = { λ p. W.contents p.writer };

    ghost calls = { λ _. None };

    fn read_part(&mut self, buf: &mut [u8]) -> io::Result<usize> {
        self.reader.read(buf)
    }

    fn write_part(&mut self, bytes: &[u8]) -> io::Result<usize> {
        self.writer.write(bytes)
    }

    fn flush_parts(&mut self) -> io::Result<()> {
        self.writer.flush()
    }
}

/// One value that reads and writes, such as a socket: nothing is known of its bytes, since a write
/// may change what is still to be read.
impl<S: Read + Write> Stream for S {
    ghost remaining = { λ _. None };

    ghost contents = { λ _. None };

    ghost calls = { λ _. None };

    fn read_part(&mut self, buf: &mut [u8]) -> io::Result<usize> {
        self.read(buf)
    }

    fn write_part(&mut self, bytes: &[u8]) -> io::Result<usize> {
        self.write(bytes)
    }

    fn flush_parts(&mut self) -> io::Result<()> {
        self.flush()
    }
}
