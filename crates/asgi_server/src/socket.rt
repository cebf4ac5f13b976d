//! A socket that is closed only once its peer had time to read what was written.
ghost use Rattle.std.specs.Prelude.{◌≡◌};
ghost use Rattle.std.specs.Io.{WritesAtMost};
ghost use Rattle.asgi_ahead.specs.Reading.{left};

use asgi_ahead::Ahead;
use asgi_io::is_passing;
use std::alloc::Global;
use std::io::{self, ErrorKind, Read, Write};
use std::net::{OpenStream, Shutdown};
use std::time::{Clock, Duration, Instant};

/// How long a write waits for room, and a waiting read for bytes, in milliseconds. The system keeps no
/// shorter time than its own step, some 4 to 8 milliseconds.
const TIMEOUT: u64 = 1;

/// How many reads at the end of a connection may find nothing: some 800 milliseconds.
const SILENT_READS: u32 = 100;

/// How long the end of a connection may take, in milliseconds.
const LONGEST_END: u64 = 1_000;

/// A socket, which is closed when it is dropped: first its write half, and then its read half, once the peer
/// has closed too, or was silent for a while, or a second has passed. A socket that is closed while input
/// waits in it would be reset, and the peer could lose the end of what was written (RFC 9112, section 9.6).
///
/// A socket that can't be made ready, because its peer is gone, for example, reads and writes nothing.
pub struct Socket<'a, H: Clock, S: Read + OpenStream> {
    clock: &'a H,
    stream: S,
    /// What was read of the stream and not given yet.
    ahead: Ahead,
    /// Reads wait for bytes, for a short while.
    waits: bool,
    is_ready: bool,
}

impl<'a, H: Clock, S: Read + OpenStream> Socket<'a, H, S> {
    /// A socket over this stream. From here on its writes wait for a short while only, and its reads too, or not
    /// at all. Allocates nothing, until a read has filled its room.
    pub fn new(clock: &'a H, alloc: Global, stream: S, waits: bool) -> Self
        ensures stream { result.stream ≡ stream }
        ensures nothing { result.ahead.start ≡ result.ahead.end }
    {
        let is_ready = ready(&stream, waits).is_ok();
        Socket {
            clock,
            stream,
            ahead: Ahead::new(alloc),
            waits,
            is_ready,
        }
    }
}

/// Makes a stream ready to be served.
fn ready<S: OpenStream>(stream: &S, waits: bool) -> io::Result<()> {
    // A response leaves in several writes, none of which is to wait for an acknowledgement of the one before.
    stream.set_nodelay(true)?;
    stream.set_read_timeout(Some(Duration::from_millis(TIMEOUT)))?;
    stream.set_write_timeout(Some(Duration::from_millis(TIMEOUT)))?;
    stream.set_nonblocking(!waits)
}

impl<'a, H: Clock, S: Read + OpenStream + Drop> Drop for Socket<'a, H, S> {
    fn drop(self) {
        let Socket {
            clock,
            mut stream,
            ahead: _ahead,
            waits: _,
            is_ready,
        } = self;
        if is_ready && end_writing(&stream).is_ok() {
            drain(clock, &mut stream);
        }
    }
}

/// Ends the write half. Reads wait for a short while from here on.
fn end_writing<S: OpenStream>(stream: &S) -> io::Result<()> {
    stream.shutdown(Shutdown::Write)?;
    stream.set_nonblocking(false)
}

/// Reads and drops what the peer still sends.
fn drain<H: Clock, S: Read>(clock: &H, stream: &mut S) {
    let Ok(began) = Instant::now(clock) else {
        return;
    };
    let mut piece = [0; 16_384];
    let mut silent = 0u32;
    for _read in 0..u32::MAX {
        match stream.read(&mut piece) {
            Ok(0) => return,
            Ok(_) => {}
            Err(e) => {
                silent = silent.saturating_add(1);
                if !is_passing(&e) || silent >= SILENT_READS {
                    return;
                }
            }
        }
        if is_late(clock, began) {
            return;
        }
    }
}

/// Whether the end of a connection that began then is to be over; true if no time is available.
fn is_late<H: Clock>(clock: &H, began: Instant) -> bool {
    match began.elapsed(clock) {
        Ok(time) => time >= Duration::from_millis(LONGEST_END),
        Err(_) => true,
    }
}

fn unready() -> io::Error {
    io::Error::from(ErrorKind::NotConnected)
}

/// Whether a write found no room.
fn is_full(wrote: &io::Result<usize>) -> bool {
    match wrote {
        Ok(_) => false,
        Err(e) => e.kind() == ErrorKind::WouldBlock,
    }
}

impl<H: Clock, S: Read + Write + OpenStream> Socket<'_, H, S> {
    /// Writes once there is room, if that comes soon.
    fn write_waiting(&mut self, buf: &[u8]) -> io::Result<usize>
        ensures bound { WritesAtMost result buf.now }
    {
        self.stream.set_nonblocking(false)?;
        let wrote = self.stream.write(buf);
        self.is_ready = self.stream.set_nonblocking(true).is_ok();
        wrote
    }
}

impl<H: Clock, S: Read + OpenStream> Read for Socket<'_, H, S> {
    ghost remaining = { λ s. left s.ahead.buf.items s.ahead.start s.ahead.end (S.remaining s.stream) };

    fn read(&mut self, buf: &mut [u8]) -> io::Result<usize> {
        if !self.is_ready {
            return Err(unready());
        }
        self.ahead.read(&mut self.stream, buf)
    }
}

impl<H: Clock, S: Read + Write + OpenStream> Write for Socket<'_, H, S> {
    fn write(&mut self, buf: &[u8]) -> io::Result<usize> {
        if !self.is_ready {
            return Err(unready());
        }
        let wrote = self.stream.write(buf);
        if !self.waits && is_full(&wrote) {
            return self.write_waiting(buf);
        }
        wrote
    }

    fn flush(&mut self) -> io::Result<()> {
        self.stream.flush()
    }
}
