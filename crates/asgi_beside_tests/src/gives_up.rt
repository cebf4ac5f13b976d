//! A task that is given up while its connection still reads, or once its client has gone.
ghost use Rattle.std.specs.Prelude.{◌≤◌, length};

use asgi_apps::{AppTask, Application, Echo, WsEcho};
use asgi_conn::{Host, Line, Outcome};
use asgi_fakes::{GONE, Gone, Memory, STREAM, Way, gone_line, line_of, serve};
use asgi_types::{BadLimit, Limits};
use std::io::{self, Read};
use std::test::Fail;
use std::thread;
use std::time::{Clock, Duration};

const POST: &[u8] = b"POST / HTTP/1.1\r\nHost: a\r\nContent-Length: 1000000\r\n\r\n";

const HANDSHAKE: &[u8] =
    b"GET / HTTP/1.1\r\nHost: a\r\nUpgrade: websocket\r\nConnection: Upgrade\r\nSec-WebSocket-Key: dGhlIHNhbXBsZSBub25jZQ==\r\nSec-WebSocket-Version: 13\r\n\r\n";

/// A ping without a payload, under a mask of zeros (RFC 6455, section 5.2).
const PING: &[u8] = b"\x89\x80\0\0\0\0";

/// What comes first, and what comes again and again: too little of a body for an event, or messages that are none.
const BODY: (&[u8], &[u8]) = (POST, b"a");

const PINGS: (&[u8], &[u8]) = (HANDSHAKE, PING);

/// Gives a text, and then another one each millisecond.
#[derive(Drop)]
struct Trickle<R> {
    clock: R,
    first: &'static [u8],
    more: &'static [u8],
    has_begun: bool,
}

impl<R: Clock> Read for Trickle<R> {
    fn read(&mut self, buf: &mut [u8]) -> io::Result<usize> {
        if !self.has_begun {
            self.has_begun = true;
            return Ok(give(self.first, buf));
        }
        thread::sleep(&self.clock, Duration::from_millis(1));
        Ok(give(self.more, buf))
    }
}

/// Copies as many of the bytes as the buffer takes, and returns how many.
fn give(bytes: &[u8], buf: &mut [u8]) -> usize
    ensures { result ≤ length buf.new }
{
    let n = bytes.len().min(buf.len());
    buf[..n].copy_from_slice(&bytes[..n]);
    n
}

/// So many idle turns in a row, for the task too, and ten million turns.
fn limits_of(idle_turns: u32) -> Result<Limits, BadLimit> {
    Limits::new(16_384, 64, 1_048_576, 16_384, 16, idle_turns, 10_000_000)
}

fn is_given_up_over<H: Host, R: Read + Drop, T: AppTask + Send + 'static, A: Application<Task = T>>(
    rt: &H,
    limits: &Limits,
    app: &A,
    line: &mut Memory<R>,
) -> io::Result<bool> {
    let (report, _) = serve(rt, Way::Beside, limits, app, line)?;
    Ok(matches!(report.outcome, Outcome::Idle) && report.turns < 1_000_000)
}

/// Whether a connection is given up whose task waits for an event that does not come, and that after the idle turns, and
/// not only once all turns were taken.
fn is_given_up<H: Host + Clock + Drop, T: AppTask + Send + 'static, A: Application<Task = T>>(
    rt: &H,
    app: &A,
    texts: (&'static [u8], &'static [u8]),
) -> Result<bool, Fail> {
    let limits = limits_of(100)?;
    let trickle = Trickle {
        clock: *rt,
        first: texts.0,
        more: texts.1,
        has_begun: false,
    };
    let mut line = line_of(rt, trickle)?;
    Ok(is_given_up_over(rt, &limits, app, &mut line)?)
}

#[test]
fn a_task_that_is_given_up_takes_its_connection_with_it(rt: HostRuntime) -> Result<(), Fail> {
    let of_a_body = is_given_up(&rt, &Echo, BODY)?;
    let of_pings = is_given_up(&rt, &WsEcho, PINGS)?;
    assert!(rt; (of_a_body, of_pings) == (true, true));
    Ok(())
}

/// Whether a stream that goes on in its own thread ends so once its client has gone, and that long before all turns were taken:
/// after the idle turns of its connection, or those of its own thread, if that comes to them first.
fn is_left_over<H: Host, L: Line>(
    rt: &H,
    limits: &Limits,
    line: &mut L,
    out: usize,
) -> io::Result<bool> {
    let (report, _) = serve(rt, Way::Beside, limits, &STREAM, line)?;
    let ended = (report.outcome, report.exchanges) == (Outcome::WriteFailed(out), 1);
    Ok(ended && report.turns < 1_000_000)
}

/// So many idle turns that a new thread has begun within them, however busy the processors are: the first hundred only let
/// other threads go first, each later one waits for up to five milliseconds.
const PATIENT: u32 = 250;

fn is_left<H: Host>(rt: &H, row: &Gone) -> Result<bool, Fail> {
    let limits = limits_of(PATIENT)?;
    let mut line = gone_line(rt, row)?;
    Ok(is_left_over(rt, &limits, &mut line, row.2)?)
}

#[test]
fn a_stream_in_its_own_thread_ends_with_its_client(rt: HostRuntime) -> Result<(), Fail> {
    for (place, row) in GONE.iter().enumerate() {
        assert!(rt; is_left(&rt, row)?, "row {place}");
    }
    Ok(())
}
