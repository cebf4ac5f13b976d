//! Responses and messages that go out in part, or not at all.
use crate::apps::{Heard, Said, Step};
use crate::rows::{BOTH, Written, is_written, joined};
use crate::scripts::{Given, Out, is_handed, script_of};
use crate::serving::{App, end_of, serve_by, serve_script};
use crate::texts::{ACCEPTED, CLOSE, DENIED, FORBIDDEN, HANDSHAKE, HELLO, SERVER_ERROR};
use asgi_conn::{Host, Outcome};
use asgi_fakes::{Pieces, Sink, Way};
use asgi_io::Counts;
use asgi_types::Limits;
use asgi_ws::{Pair, Script, Wired};
use std::alloc::{AllocError, AllocGlobal};
use std::io::{self, ErrorKind};
use std::test::Fail;

const CONNECTS: Step = Step::Hears(Heard::Connect);

const ACCEPTS: Step = Step::Says(Said::Accept("", &[]));

const LOSES: Step = Step::Hears(Heard::Disconnect(1006, ""));

/// The application, and its text.
type Answer = (App, &'static [u8]);

/// Responses, of which three bytes go out at a time.
const ANSWERS: &[Answer] = &[
    (App::Scripted(&[CONNECTS, ACCEPTS, LOSES, LOSES]), ACCEPTED),
    (App::Hello, FORBIDDEN),
    (App::Scripted(&[CONNECTS]), SERVER_ERROR),
    (
        App::Scripted(&[
            CONNECTS,
            Step::Says(Said::Denial(401, &[])),
            Step::Says(Said::Part("no")),
            LOSES,
        ]),
        DENIED,
    ),
];

/// Whether exactly `out` bytes of the response are written, and nothing else is done.
fn is_cut_off<H: Host>(
    rt: &H,
    way: Way,
    row: &Answer,
    out: usize,
    line: &mut Script,
) -> io::Result<bool> {
    let (end, _) = serve_script(rt, way, &Limits::usual(), row.0, line)?;
    let ended = (end, line.failures()) == ((Outcome::WriteFailed(out), 1, 0), 1);
    let is_silent = line.leftover().is_none() && line.received().is_empty();
    Ok(ended && is_silent && Some(line.text()) == row.1.get(..out))
}

/// The same over a line that takes `out` bytes, three at a time.
fn stops_at<H: Host>(rt: &H, way: Way, row: &Answer, out: usize) -> io::Result<bool> {
    let line = script_of(rt.alloc(), &[HANDSHAKE], &[Given::Text("x")])?;
    let mut line = line.failing_write((out / 3) as u64, 3);
    is_cut_off(rt, way, row, out, &mut line)
}

/// The first number of bytes after which the response is cut off in another way.
fn wrong_out<H: Host>(rt: &H, way: Way, row: &Answer) -> io::Result<Option<usize>> {
    for out in 0..row.1.len() {
        if out % 3 == 0 && !stops_at(rt, way, row, out)? {
            return Ok(Some(out));
        }
    }
    Ok(None)
}

#[test]
fn an_answer_may_go_out_in_part(rt: HostRuntime) -> Result<(), Fail> {
    for way in BOTH {
        for (place, row) in ANSWERS.iter().enumerate() {
            let out = wrong_out(&rt, *way, row)?;
            assert!(rt; out.is_none(), "row {place}, {} bytes", out.unwrap_or(0));
        }
    }
    Ok(())
}

/// The application, how many sends succeed, the messages, what is sent, and how many tasks faulted.
type Row = (App, u64, &'static [Given], &'static [Out], u64);

const IDLE: &[Given] = &[Given::Idle; 9];

/// A message or a close that the line refuses: the client is gone.
const REFUSED: &[Row] = &[
    (
        App::Scripted(&[CONNECTS, ACCEPTS, Step::Says(Said::Text("x")), LOSES, LOSES]),
        0,
        IDLE,
        &[],
        0,
    ),
    (
        App::Scripted(&[
            CONNECTS,
            ACCEPTS,
            Step::Says(Said::Text("x")),
            Step::Says(Said::Text("y")),
            LOSES,
            Step::IsRefused(Said::Text("z"), 2),
        ]),
        1,
        IDLE,
        &[Out::Text("x")],
        0,
    ),
    (App::WsEcho, 0, &[Given::Text("x")], &[], 0),
    (
        App::Scripted(&[
            CONNECTS,
            ACCEPTS,
            Step::Says(Said::Close(1001, "")),
            Step::Hears(Heard::Disconnect(1001, "")),
        ]),
        0,
        &[],
        &[],
        0,
    ),
    // The server's own close, unless the task has a thread of its own and the end of the input is read before.
    (App::Scripted(&[CONNECTS, ACCEPTS]), 0, &[], &[], 0),
    (
        App::Scripted(&[CONNECTS, ACCEPTS, Step::Faults]),
        0,
        &[],
        &[],
        1,
    ),
];

fn is_lost<H: Host>(rt: &H, way: Way, row: &Row, line: &mut Script) -> io::Result<bool> {
    let (end, _) = serve_script(rt, way, &Limits::usual(), row.0, line)?;
    let is_so = end == (Outcome::WriteFailed(0), 1, row.4);
    let is_early = way == Way::Beside && row.2.is_empty();
    let ended = is_so || is_early && end == (Outcome::InputBroke, 1, row.4);
    Ok(ended && is_handed(line, row.3) && line.text() == ACCEPTED)
}

fn loses<H: Host>(rt: &H, way: Way, row: &Row) -> io::Result<bool> {
    let line = script_of(rt.alloc(), &[HANDSHAKE], row.2)?;
    let mut line = line.failing_send(row.1);
    is_lost(rt, way, row, &mut line)
}

#[test]
fn a_message_that_is_refused_is_a_failed_write(rt: HostRuntime) -> Result<(), Fail> {
    for way in BOTH {
        for (place, row) in REFUSED.iter().enumerate() {
            let is_so = loses(&rt, *way, row)?;
            assert!(rt; is_so, "row {place}");
        }
    }
    Ok(())
}

/// What a writer takes at a time, the call that fails, and what it takes of the echo.
type Frame = (usize, u64, &'static [u8]);

type SinkLine<'a> = Wired<Pair<Pieces<'a>, Sink>>;

/// A line of this input, to a writer that takes at most `most` bytes at a time, whose call number `fails_at` fails.
fn line_to<'a, H: AllocGlobal>(
    rt: &H,
    input: &'a [u8],
    most: usize,
    fails_at: u64,
) -> Result<SinkLine<'a>, AllocError> {
    let taken = Vec::with_capacity(rt.alloc(), 256)?;
    let reader = Pieces::new(input, 4_096, 4_096);
    let writer = Sink {
        taken,
        most,
        fails_at,
        faults: 0,
        again: 0,
        fault: ErrorKind::WouldBlock,
        calls: 0,
    };
    Ok(Wired::new(rt.alloc(), Pair { reader, writer }))
}

fn taken_by<'a>(line: &'a SinkLine<'_>) -> &'a [u8] {
    match line.stream() {
        Some(pair) => pair.writer.taken.as_slice(),
        None => &[],
    }
}

/// Whether the connection ends by a failed write, with this taken.
fn is_failed_write<H: Host>(
    rt: &H,
    way: Way,
    app: App,
    line: &mut SinkLine<'_>,
    taken: Written<'_>,
) -> io::Result<bool> {
    let (report, _) = serve_by(rt, way, &Limits::usual(), app, line)?;
    let ended = end_of(&report) == (Outcome::WriteFailed(0), 1, 0);
    Ok(ended && is_written(taken_by(line), taken))
}

/// The same over a line of this input, to a writer of this kind.
fn fails_to<H: Host>(
    rt: &H,
    way: Way,
    app: App,
    input: &[u8],
    frame: &Frame,
    taken: Written<'_>,
) -> io::Result<bool> {
    let mut line = line_to(rt, input, frame.0, frame.1)?;
    is_failed_write(rt, way, app, &mut line, taken)
}

/// The accept has 129 bytes, and the frame of the echo 7.
const FRAMES: &[Frame] = &[
    (200, 2, b""),
    (3, 44, b""),
    (3, 45, b"\x81\x05H"),
    (3, 46, b"\x81\x05Hell"),
];

const HEARS_HELLO: App = App::Listens(&[
    Heard::Connect,
    Heard::Text("Hello"),
    Heard::Disconnect(1006, ""),
]);

/// Whether the writer was called this often.
fn is_called(line: &SinkLine<'_>, calls: u64) -> bool {
    match line.stream() {
        Some(pair) => pair.writer.calls == calls,
        None => false,
    }
}

/// Whether the call that fails is also the last one.
fn fails_at_last<H: Host>(rt: &H, way: Way, input: &[u8], frame: &Frame) -> io::Result<bool> {
    let taken = Written::Just(&[ACCEPTED, frame.2]);
    let mut line = line_to(rt, input, frame.0, frame.1)?;
    let is_so = is_failed_write(rt, way, HEARS_HELLO, &mut line, taken)?;
    Ok(is_so && is_called(&line, frame.1))
}

fn echo_fails<H: Host>(rt: &H, way: Way, frame: &Frame) -> io::Result<bool> {
    let input = joined(rt.alloc(), HANDSHAKE, &[HELLO])?;
    fails_at_last(rt, way, &input, frame)
}

#[test]
fn a_frame_that_goes_out_in_part_is_a_failed_write(rt: HostRuntime) -> Result<(), Fail> {
    for way in BOTH {
        for (place, frame) in FRAMES.iter().enumerate() {
            let is_so = echo_fails(&rt, *way, frame)?;
            assert!(rt; is_so, "row {place}");
        }
    }
    Ok(())
}

/// A message after the client's close, which the application has not received: the message layer refuses it. (In one
/// thread: in two, the task may have rested before the close is read.)
const LATE: App = App::Scripted(&[
    CONNECTS,
    ACCEPTS,
    Step::Rests(100),
    Step::Says(Said::Text("x")),
    Step::Hears(Heard::Disconnect(1000, "")),
]);

fn late_fails<H: Host>(rt: &H) -> io::Result<bool> {
    let input = joined(rt.alloc(), HANDSHAKE, &[CLOSE])?;
    let taken = Written::Around(&[ACCEPTED], b"");
    fails_to(rt, Way::Inline, LATE, &input, &(200, 0, b""), taken)
}

#[test]
fn a_message_after_the_clients_close_is_a_failed_write(rt: HostRuntime) -> Result<(), Fail> {
    let is_so = late_fails(&rt)?;
    assert!(rt; is_so);
    Ok(())
}

/// Sends a message again and again, and receives nothing more.
const STREAM: App = App::Scripted(&[CONNECTS, ACCEPTS, Step::Repeats(Said::Text("x"))]);

/// Twenty idle turns in a row.
fn few() -> Limits {
    let mut limits = Limits::usual();
    limits.idle_turns = 20;
    limits.turns = 10_000;
    limits
}

/// Whether its session ends by a send that failed, after the idle turns, with so many messages sent.
fn is_given_up<H: Host>(rt: &H, line: &mut Script, sends: usize) -> io::Result<bool> {
    let (end, idle) = serve_script(rt, Way::Inline, &few(), STREAM, line)?;
    let ended = (end, idle) == ((Outcome::WriteFailed(0), 1, 0), 20);
    Ok(ended && line.handed().len() == sends)
}

fn stream_fails<H: Host>(rt: &H, sends: u64) -> io::Result<bool> {
    let line = script_of(rt.alloc(), &[HANDSHAKE], IDLE)?;
    let mut line = line.failing_send(sends);
    is_given_up(rt, &mut line, sends as usize)
}

#[test]
fn messages_without_end_end_with_their_client(rt: HostRuntime) -> Result<(), Fail> {
    for sends in [0, 1, 15, 16, 100] {
        assert!(rt; stream_fails(&rt, sends)?, "{sends} messages");
    }
    Ok(())
}
