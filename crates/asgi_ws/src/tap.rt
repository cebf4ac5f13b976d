//! The stream as the message layer sees it. Once the input ended or failed, reads would block, so that messages can
//! still be sent; and a write that would block is retried, a bounded number of times.
ghost use Rattle.std.specs.Prelude.{◌≡◌, None, IsSome, false, length};
ghost use Rattle.std.specs.Io.{ReadsAtMost, WritesAtMost};
ghost use Rattle.std.specs.Io.KnownBytes.{ReadConsumes, WriteAppends, Keeps};
ghost use Rattle.std.specs.IoError.{error_kind};
ghost use Rattle.std.specs.declared.io.ErrorKind.TheVariants.{TimedOut, WouldBlock};
ghost use Rattle.asgi_ws.specs.Streams.{FailsWith};
ghost use Rattle.asgi_ws.specs.Streams as call;
ghost use Rattle.asgi_ws.specs.private.Taps.{Lasts, stop_after, IsLeft, is_stuck, Tries, ReadsOnce};

use crate::stream::Stream;
use asgi_io::is_passing;
use std::io::{self, ErrorKind, Read, Write};

/// How often a write that was interrupted or would block is tried. After that its client counts as one that reads
/// nothing more.
const TRIES: u32 = 1_001;

/// How the input of a stream stopped.
#[derive(Clone, Copy, Debug, PartialEq, Eq)]
pub enum Stop {
    /// A read found its end.
    Ended,
    /// A read failed with an error that is not transient.
    Failed,
    /// A write timed out: it still would block at its last try, or the stream returned that error.
    Stuck,
}

/// A stream whose reads would block once its input has ended or failed.
#[derive(Drop)]
pub struct Tap<S> {
    /// The stream below.
    pub stream: S,
    /// How the input stopped, once a call found out.
    pub stop: Option<Stop>,
}

impl<S> Tap<S> {
    /// The stream, whose input has not stopped.
    pub fn new(stream: S) -> Self
        ensures { result ≡ record { stream = stream; stop = None } }
    {
        Tap { stream, stop: None }
    }

    /// Whether a write timed out, after which none is made.
    fn is_stuck(&self) -> bool
        ensures { result ≡ is_stuck self.now.stop }
    {
        matches!(self.stop, Some(Stop::Stuck))
    }

    /// Records a write that timed out.
    fn note<T>(&mut self, answered: &io::Result<T>)
        ensures stops { self.new.stop ≡ stop_after answered.now self.old.stop }
        ensures stays { self.new.stream ≡ self.old.stream }
    {
        if let Err(e) = answered
            && e.kind() == ErrorKind::TimedOut
        {
            self.stop = Some(Stop::Stuck);
        }
    }
}

/// The error after too many tries.
fn timed_out() -> io::Error
    ensures { error_kind result ≡ TimedOut }
{
    io::Error::from(ErrorKind::TimedOut)
}

impl<S: Stream> Read for Tap<S> {
    ghost remaining = { λ t. S.remaining t.stream };

    fn read(&mut self, buf: &mut [u8]) -> io::Result<usize>
        ensures bound { ReadsAtMost result buf.new }
        ensures bytes { ReadConsumes (S.remaining self.old.stream) (S.remaining self.new.stream) result buf.new }
        ensures stopped { IsSome self.old.stop → (self.new ≡ self.old) × FailsWith WouldBlock result }
        ensures reads { self.old.stop ≡ None → ReadsOnce (S.calls self.old.stream) (S.calls self.new.stream) (length buf.new) result self.new.stop }
    {
        if self.stop.is_some() {
            return Err(io::Error::from(ErrorKind::WouldBlock));
        }
        match self.stream.read_part(buf) {
            Ok(0) => {
                if buf.is_empty() {
                    return Ok(0);
                }
                self.stop = Some(Stop::Ended);
                Err(io::Error::from(ErrorKind::WouldBlock))
            }
            Ok(n) => Ok(n),
            Err(e) => {
                if !is_passing(&e) {
                    self.stop = Some(Stop::Failed);
                }
                Err(io::Error::from(ErrorKind::WouldBlock))
            }
        }
    }
}

/// An error of a write is not transient: after too many tries it is `ErrorKind::TimedOut`, and from then on no write
/// reaches the stream.
impl<S: Stream> Write for Tap<S> {
    ghost contents = { λ t. S.contents t.stream };

    fn write(&mut self, buf: &[u8]) -> io::Result<usize>
        ensures bound { WritesAtMost result buf.now }
        ensures bytes { WriteAppends (S.contents self.old.stream) (S.contents self.new.stream) result buf.now }
        ensures lasting { Lasts result }
        ensures stops { self.new.stop ≡ stop_after result self.old.stop }
        ensures stuck { IsLeft self.old.stop self.old.stream self.new.stream result }
        ensures tries { is_stuck self.old.stop ≡ false → Tries (call.Write buf.now) (S.calls self.old.stream) (S.calls self.new.stream) result }
    {
        if self.is_stuck() {
            return Err(timed_out());
        }
        let wrote = write_retrying(&mut self.stream, buf);
        self.note(&wrote);
        wrote
    }

    fn flush(&mut self) -> io::Result<()>
        ensures kept { Keeps (S.contents self.old.stream) (S.contents self.new.stream) }
        ensures lasting { Lasts result }
        ensures stops { self.new.stop ≡ stop_after result self.old.stop }
        ensures stuck { IsLeft self.old.stop self.old.stream self.new.stream result }
        ensures tries { is_stuck self.old.stop ≡ false → Tries call.Flush (S.calls self.old.stream) (S.calls self.new.stream) result }
    {
        if self.is_stuck() {
            return Err(timed_out());
        }
        let flushed = flush_retrying(&mut self.stream);
        self.note(&flushed);
        flushed
    }
}

/// Writes some of the bytes, and returns how many.
fn write_retrying<S: Stream>(stream: &mut S, bytes: &[u8]) -> io::Result<usize>
    ensures bound { WritesAtMost result bytes.now }
    ensures bytes { WriteAppends (S.contents stream.old) (S.contents stream.new) result bytes.now }
    ensures lasting { Lasts result }
    ensures tries { Tries (call.Write bytes.now) (S.calls stream.old) (S.calls stream.new) result }
{
    for _tried in 0..TRIES {
        match stream.write_part(bytes) {
            Ok(n) => return Ok(n),
            Err(e) => {
                if !is_passing(&e) {
                    return Err(e);
                }
            }
        }
    }
    Err(timed_out())
}

/// Flushes what a buffer holds.
fn flush_retrying<S: Stream>(stream: &mut S) -> io::Result<()>
    ensures kept { Keeps (S.contents stream.old) (S.contents stream.new) }
    ensures lasting { Lasts result }
    ensures tries { Tries call.Flush (S.calls stream.old) (S.calls stream.new) result }
{
    for _tried in 0..TRIES {
        match stream.flush_parts() {
            Ok(()) => return Ok(()),
            Err(e) => {
                if !is_passing(&e) {
                    return Err(e);
                }
            }
        }
    }
    Err(timed_out())
}
