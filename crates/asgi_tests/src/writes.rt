//! Writers that take little, fail, or would block.
use asgi_conn::{Host, Outcome};
use asgi_fakes::texts::{GET, GET_TAKING_TRAILERS, HELLO, TWO_REQUESTS};
use asgi_fakes::{App, End, Heard, Pieces, Said, Sink, Step, Way, serve_by};
use asgi_io::{Counts, Reads};
use asgi_types::Limits;
use asgi_ws::{Pair, Wired};
use std::alloc::{AllocError, AllocGlobal};
use std::io::{self, ErrorKind};
use std::test::Fail;

/// What a writer of nine bytes takes first.
const NINE_BYTES: &[u8] = b"HTTP/1.1 ";

type SinkLine = Wired<Pair<Pieces<'static>, Sink>>;

/// Both runners meet each writer.
const WAYS: [Way; 2] = [Way::Inline, Way::Beside];

/// A writer that takes `most` bytes at a time.
fn sink<H: AllocGlobal>(rt: &H, most: usize) -> Result<Sink, AllocError> {
    let taken = Vec::with_capacity(rt.alloc(), 256)?;
    Ok(Sink {
        taken,
        most,
        fails_at: 0,
        faults: 0,
        again: 0,
        fault: ErrorKind::WouldBlock,
        calls: 0,
    })
}

/// A writer whose call of this number fails.
fn failing_sink<H: AllocGlobal>(rt: &H, most: usize, fails_at: u64) -> Result<Sink, AllocError> {
    let mut writer = sink(rt, most)?;
    writer.fails_at = fails_at;
    Ok(writer)
}

/// A line of these bytes, to this writer.
fn line_to<H: AllocGlobal>(rt: &H, input: &'static [u8], writer: Sink) -> SinkLine {
    let reader = Pieces::new(input, 4_096, 4_096);
    Wired::new(rt.alloc(), Pair { reader, writer })
}

/// What the writer of the line took.
fn taken_by(line: &SinkLine) -> &[u8] {
    match line.stream() {
        Some(pair) => pair.writer.taken.as_slice(),
        None => &[],
    }
}

/// Whether the connection over the line ends like this, and its writer took this.
fn is_line_served<H: Host>(
    rt: &H,
    way: Way,
    app: App,
    line: &mut SinkLine,
    wanted: &[u8],
    end: End,
) -> io::Result<bool> {
    let (report, _) = serve_by(rt, way, &Limits::usual(), app, line)?;
    let ended = (report.outcome, report.exchanges, report.faults);
    Ok(ended == end && taken_by(line) == wanted)
}

/// Whether a connection to this writer, served by `Hello`, ends like this.
fn is_written<H: Host>(
    rt: &H,
    way: Way,
    input: &'static [u8],
    writer: Sink,
    wanted: &[u8],
    end: End,
) -> io::Result<bool> {
    let mut line = line_to(rt, input, writer);
    is_line_served(rt, way, App::Hello, &mut line, wanted, end)
}

/// Whether a request to a writer of three bytes, whose call of number `call` fails, ends like this with `failures`.
fn is_failed_at<H: Host>(
    rt: &H,
    way: Way,
    call: u64,
    wanted: &[u8],
    outcome: Outcome,
    failures: u64,
) -> io::Result<bool> {
    let mut line = line_to(rt, GET, failing_sink(rt, 3, call)?);
    has_failed(rt, way, &mut line, wanted, outcome, failures)
}

fn has_failed<H: Host>(
    rt: &H,
    way: Way,
    line: &mut SinkLine,
    wanted: &[u8],
    outcome: Outcome,
    failures: u64,
) -> io::Result<bool> {
    let is_so = is_line_served(rt, way, App::Hello, line, wanted, (outcome, 1, 0))?;
    Ok(is_so && line.failures() == failures)
}

#[test]
fn a_failed_write_says_how_far_it_came(rt: HostRuntime) -> Result<(), Fail> {
    assert_eq!(rt; HELLO.len(), 89);
    for way in WAYS {
        for failing in 1..=30usize {
            let out = 3 * (failing - 1);
            let wanted = HELLO.get(..out).unwrap_or(b"");
            let outcome = Outcome::WriteFailed(out);
            assert!(rt;
                is_failed_at(&rt, way, failing as u64, wanted, outcome, 1)?,
                "call {failing}"
            );
        }
    }
    Ok(())
}

#[test]
fn a_fault_after_the_answer_is_not_met(rt: HostRuntime) -> Result<(), Fail> {
    for way in WAYS {
        assert!(rt; is_failed_at(&rt, way, 31, HELLO, Outcome::Finished, 0)?);
    }
    Ok(())
}

/// The content `x`, and two trailers.
const TRAILS: App = App::Sends(&[
    Said::Announce(200, &[]),
    Said::Last("x"),
    Said::Trailers(&[("x-sum", "7")]),
    Said::LastTrailers(&[("x-end", "y")]),
]);

/// Its text.
const TRAILED: &[u8] =
    b"HTTP/1.1 200 OK\r\ntransfer-encoding: chunked\r\n\r\n1\r\nx\r\n0\r\nx-sum: 7\r\nx-end: y\r\n\r\n";

/// Where the text of each of its events begins, and how many bytes it has: of the last body with the head, and of each
/// of the trailers.
const TEXTS: &[(usize, usize)] = &[(0, 56), (56, 10), (66, 12)];

/// Whether so many bytes of it are taken, if the write of the next byte fails, which is the byte after `n` of the text
/// in hand.
fn is_trailed_to<H: Host>(rt: &H, way: Way, out: usize, n: usize) -> io::Result<bool> {
    let call = (out as u64).saturating_add(1);
    let wanted = TRAILED.get(..out).unwrap_or(b"");
    let end = (Outcome::WriteFailed(n), 1, 0);
    let mut line = line_to(rt, GET_TAKING_TRAILERS, failing_sink(rt, 1, call)?);
    is_line_served(rt, way, TRAILS, &mut line, wanted, end)
}

#[test]
fn trailers_go_out_as_far_as_they_are_taken(rt: HostRuntime) -> Result<(), Fail> {
    assert_eq!(rt; TRAILED.len(), 78);
    for way in WAYS {
        for text in TEXTS {
            let (at, length) = *text;
            for n in 0..length {
                let out = at.saturating_add(n);
                assert!(rt; is_trailed_to(&rt, way, out, n)?, "{out} bytes");
            }
        }
    }
    Ok(())
}

/// Answers as `Hello`, and then receives that the client is gone.
const GREETS_AND_HEARS: App = App::Scripted(&[
    Step::Says(Said::Start(200, &[("content-type", "text/plain")])),
    Step::Says(Said::Last("hello\n")),
    Step::Hears(Heard::Disconnect),
]);

/// Sends a part, and faults.
const PART_AND_FAULT: App = App::Scripted(&[
    Step::Says(Said::Start(200, &[])),
    Step::Says(Said::Part("x")),
    Step::Faults,
]);

const PART_OF_A_BODY: &[u8] = b"POST / HTTP/1.1\r\nHost: a\r\nContent-Length: 10\r\n\r\nabcd";

const BAD_BODY: &[u8] = b"POST / HTTP/1.1\r\nHost: a\r\nTransfer-Encoding: chunked\r\n\r\nx\r\n";

/// The application, the input, the tasks that faulted, and the reads that did.
type Nine = (App, &'static [u8], u64, u64);

/// The second read would fail: it is not made, since nothing is read while the application goes on. It may be made if
/// the application has a thread of its own, once that was waited for.
const NINE: &[Nine] = &[
    (App::Hello, GET, 0, 0),
    (GREETS_AND_HEARS, GET, 0, 0),
    (PART_AND_FAULT, GET, 1, 0),
    (App::Hello, PART_OF_A_BODY, 0, 0),
    (App::Hello, BAD_BODY, 0, 0),
    (App::Refuses, GET, 1, 0),
];

/// Whether nine bytes are taken, and then the write fails.
fn is_nine<H: Host>(rt: &H, way: Way, row: &Nine) -> io::Result<bool> {
    let mut reader = Pieces::new(row.1, 4_096, 4_096);
    reader.fails_at = 2;
    let writer = failing_sink(rt, 9, 2)?;
    let mut line = Wired::new(rt.alloc(), Pair { reader, writer });
    is_nine_of(rt, way, &mut line, row)
}

fn is_nine_of<H: Host>(rt: &H, way: Way, line: &mut SinkLine, row: &Nine) -> io::Result<bool> {
    let (app, _, faults, reads) = *row;
    let end = (Outcome::WriteFailed(9), 1, faults);
    let is_so = is_line_served(rt, way, app, line, NINE_BYTES, end)?;
    Ok(is_so && (line.faults() == reads || way == Way::Beside && line.faults() == 1))
}

#[test]
fn nine_bytes_and_then_a_fault(rt: HostRuntime) -> Result<(), Fail> {
    for way in WAYS {
        for (place, row) in NINE.iter().enumerate() {
            assert!(rt; is_nine(&rt, way, row)?, "row {place}");
        }
    }
    Ok(())
}

#[test]
fn a_refusal_that_is_not_written_is_a_failed_write(rt: HostRuntime) -> Result<(), Fail> {
    let input = b"GET / HTTP/1.1\r\n\r\n";
    let end = (Outcome::WriteFailed(9), 0, 0);
    for way in WAYS {
        let writer = failing_sink(&rt, 9, 2)?;
        assert!(rt; is_written(&rt, way, input, writer, NINE_BYTES, end)?);
    }
    Ok(())
}

#[test]
fn the_second_answer_may_fail(rt: HostRuntime) -> Result<(), Fail> {
    let end = (Outcome::WriteFailed(0), 2, 0);
    for way in WAYS {
        let writer = failing_sink(&rt, 89, 2)?;
        assert!(rt; is_written(&rt, way, TWO_REQUESTS, writer, HELLO, end)?);
    }
    Ok(())
}

/// Whether the line's writer is called once, and takes nothing.
fn takes_nothing<H: Host>(rt: &H, way: Way, line: &mut SinkLine) -> io::Result<bool> {
    let end = (Outcome::WriteFailed(0), 1, 0);
    let is_so = is_line_served(rt, way, App::Hello, line, b"", end)?;
    let calls = line.stream().map(|pair| pair.writer.calls);
    Ok(is_so && calls == Some(1))
}

#[test]
fn a_writer_that_takes_nothing_has_failed(rt: HostRuntime) -> Result<(), Fail> {
    for way in WAYS {
        let mut line = line_to(&rt, GET, sink(&rt, 0)?);
        let is_so = takes_nothing(&rt, way, &mut line);
        assert!(rt; is_so?);
    }
    Ok(())
}

/// Whether this is taken, with this outcome, if this many calls return the fault first.
fn is_retried<H: Host>(
    rt: &H,
    way: Way,
    fault: ErrorKind,
    faults: u64,
    wanted: &[u8],
    outcome: Outcome,
) -> io::Result<bool> {
    let mut writer = sink(rt, 100)?;
    writer.fault = fault;
    writer.faults = faults;
    is_written(rt, way, GET, writer, wanted, (outcome, 1, 0))
}

#[test]
fn a_thousand_retries_and_no_more(rt: HostRuntime) -> Result<(), Fail> {
    let failed = Outcome::WriteFailed(0);
    for way in WAYS {
        for fault in [ErrorKind::WouldBlock, ErrorKind::Interrupted] {
            assert!(rt; is_retried(&rt, way, fault, 1_000, HELLO, Outcome::Finished)?);
            assert!(rt; is_retried(&rt, way, fault, 1_001, b"", failed)?);
        }
    }
    Ok(())
}

/// Whether this is taken, with this outcome, nine bytes at a time, if this many calls return a fault after each.
fn is_retried_again<H: Host>(
    rt: &H,
    way: Way,
    again: u64,
    wanted: &[u8],
    outcome: Outcome,
) -> io::Result<bool> {
    let mut writer = sink(rt, 9)?;
    writer.faults = 1_000;
    writer.again = again;
    is_written(rt, way, GET, writer, wanted, (outcome, 1, 0))
}

#[test]
fn each_byte_that_goes_out_ends_a_row_of_retries(rt: HostRuntime) -> Result<(), Fail> {
    let failed = Outcome::WriteFailed(9);
    for way in WAYS {
        assert!(rt; is_retried_again(&rt, way, 1_000, HELLO, Outcome::Finished)?);
        assert!(rt; is_retried_again(&rt, way, 1_001, NINE_BYTES, failed)?);
    }
    Ok(())
}
