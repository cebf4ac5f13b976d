//! The same response however the input is cut.
use asgi_conn::{Host, Outcome};
use asgi_fakes::texts::{BAD_REQUEST, GET, HELLO, HELLO_AND_CLOSE};
use asgi_fakes::{App, End, Memory, Pieces, Way, is_served, line_of, serve_by, text_of};
use asgi_io::Reads;
use asgi_types::Limits;
use std::io::{self, ErrorKind};
use std::process::Abort;
use std::test::Fail;

const CLOSE: &[u8] = b"\r\nGET / HTTP/1.1\r\nHost: a\r\nConnection: close\r\n\r\n";

const MIXED: &[u8] = b"GET /x HTTP/1.1\nHost: a\r\nX: \r\n\n";

const NO_HOST: &[u8] = b"GET / HTTP/1.1\r\n\r\n";

const LENGTH: &[u8] = b"POST / HTTP/1.1\r\nHost: a\r\nContent-Length: 3\r\n\r\nabc";

/// The input, what is written, and the end.
type Row = (&'static [u8], &'static [u8], End);

const ROWS: &[Row] = &[
    (GET, HELLO, (Outcome::Finished, 1, 0)),
    (CLOSE, HELLO_AND_CLOSE, (Outcome::Finished, 1, 0)),
    (MIXED, HELLO, (Outcome::Finished, 1, 0)),
    (NO_HOST, BAD_REQUEST, (Outcome::Refused(400), 0, 0)),
    (LENGTH, HELLO, (Outcome::Finished, 1, 0)),
];

/// Whether the input, cut like this, gets the response to the whole.
fn is_row<H: Host>(rt: &H, row: &Row, reader: Pieces) -> io::Result<bool> {
    let (_, wanted, end) = *row;
    is_served(rt, &Limits::usual(), App::Hello, reader, wanted, end)
}

fn check_halves<H: Abort + Host>(rt: &H, row: &Row) -> Result<(), Fail> {
    for place in 1..row.0.len() {
        let two = Pieces::new(row.0, place, 4_096);
        assert!(rt; is_row(rt, row, two)?, "cut at {place}");
    }
    Ok(())
}

/// Pieces of four sizes, with this fault before each read, if any.
fn check_pieces<H: Abort + Host>(rt: &H, row: &Row, before: Option<ErrorKind>) -> Result<(), Fail> {
    for size in [1, 2, 7, 1_000] {
        let mut pieces = Pieces::new(row.0, size, size);
        pieces.before = before;
        assert!(rt; is_row(rt, row, pieces)?, "pieces of {size}");
    }
    Ok(())
}

#[test]
fn cuts_change_nothing(rt: HostRuntime) -> Result<(), Fail> {
    for row in ROWS {
        check_halves(&rt, row)?;
        check_pieces(&rt, row, None)?;
        check_pieces(&rt, row, Some(ErrorKind::WouldBlock))?;
        check_pieces(&rt, row, Some(ErrorKind::Interrupted))?;
    }
    Ok(())
}

/// A reader that gives a byte at a time, and whose read of this number fails.
fn failing_at(bytes: &[u8], fails_at: u64) -> Pieces {
    let mut pieces = Pieces::new(bytes, 1, 1);
    pieces.fails_at = fails_at;
    pieces
}

/// Whether nothing is answered, and each read is counted, if the read of this number fails.
fn is_unanswered<H: Host>(rt: &H, failing: u64) -> io::Result<bool> {
    let mut line = line_of(rt, failing_at(GET, failing))?;
    is_line_unanswered(rt, &mut line, failing)
}

fn is_line_unanswered<H: Host>(
    rt: &H,
    line: &mut Memory<Pieces>,
    failing: u64,
) -> io::Result<bool> {
    let (report, _) = serve_by(rt, Way::Inline, &Limits::usual(), App::Hello, line)?;
    let counts = (report.exchanges, report.turns, line.faults());
    let ended = report.outcome == Outcome::InputBroke && counts == (0, failing, 1);
    Ok(ended && text_of(line).is_empty())
}

#[test]
fn a_read_that_fails_gets_no_answer(rt: HostRuntime) -> Result<(), Fail> {
    for failing in 1..=27 {
        assert!(rt; is_unanswered(&rt, failing)?, "read {failing}");
    }
    Ok(())
}

/// Whether the request is answered, with this outcome, if the read of this number fails.
fn is_answered<H: Host>(rt: &H, failing: u64, outcome: Outcome) -> io::Result<bool> {
    let pieces = failing_at(GET, failing);
    let end = (outcome, 1, 0);
    is_served(rt, &Limits::usual(), App::Hello, pieces, HELLO, end)
}

#[test]
fn a_read_that_fails_after_a_request_leaves_its_answer(rt: HostRuntime) -> Result<(), Fail> {
    // The read after the request, and one more, which is not made.
    assert!(rt; is_answered(&rt, 28, Outcome::InputBroke)?);
    assert!(rt; is_answered(&rt, 29, Outcome::Finished)?);
    Ok(())
}

/// A request of 86 bytes, whose body comes in two chunks, and what `Echo` answers in blocks of four.
const CHUNKS: &[u8] =
    b"POST / HTTP/1.1\r\nHost: a\r\nTransfer-Encoding: chunked\r\n\r\n4\r\nabcd\r\n5\r\nefghi\r\n0\r\nx: y\r\n\r\n";

const CHUNKS_ECHOED: &[u8] =
    b"HTTP/1.1 200 OK\r\ncontent-type: application/octet-stream\r\ntransfer-encoding: chunked\r\n\r\n4\r\nabcd\r\n4\r\nefgh\r\n1\r\ni\r\n0\r\n\r\n";

/// Whether a beginning of the answer is written, and the input broke, if the read of this number fails.
fn is_begun<H: Host>(rt: &H, way: Way, limits: &Limits, failing: u64) -> io::Result<bool> {
    let mut line = line_of(rt, failing_at(CHUNKS, failing))?;
    is_line_begun(rt, way, limits, &mut line)
}

fn is_line_begun<H: Host>(
    rt: &H,
    way: Way,
    limits: &Limits,
    line: &mut Memory<Pieces>,
) -> io::Result<bool> {
    let (report, _) = serve_by(rt, way, limits, App::Echo, line)?;
    Ok(report.outcome == Outcome::InputBroke && CHUNKS_ECHOED.starts_with(text_of(line)))
}

#[test]
fn a_read_that_fails_in_a_body_leaves_a_beginning_of_its_answer(
    rt: HostRuntime,
) -> Result<(), Fail> {
    let limits = Limits::new(16_384, 64, 1_048_576, 4, 16, 30_000, 1_000_000)?;
    for way in [Way::Inline, Way::Beside] {
        for failing in 1..=87 {
            assert!(rt; is_begun(&rt, way, &limits, failing)?, "read {failing}");
        }
    }
    Ok(())
}
