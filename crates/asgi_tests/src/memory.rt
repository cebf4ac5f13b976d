//! Memory refused to a connection. `tests/memory.py` runs this with each allocation refused in turn; with ample memory
//! none is refused.
use asgi_conn::{Host, Outcome, Report};
use asgi_fakes::texts::{BAD_REQUEST, GET, GET_TAKING_TRAILERS, HELLO, HELLO_HEAD, SERVER_ERROR};
use asgi_fakes::{App, Memory, Pieces, Said, Way, line_of, serve_by, text_of};
use asgi_types::Limits;
use std::process::Abort;
use std::test::Fail;

const HEAD: &[u8] = b"HEAD /a%20b?c HTTP/1.1\r\nHost: a\r\nX: y\r\nX: z\r\n\r\n";

const LENGTH: &[u8] = b"POST / HTTP/1.1\r\nHost: a\r\nContent-Length: 3\r\n\r\nabc";

const NO_HOST: &[u8] = b"GET / HTTP/1.1\r\nX: y\r\n\r\n";

const PIPELINED: &[u8] =
    b"POST / HTTP/1.1\r\nHost: a\r\nExpect: 100-continue\r\nTransfer-Encoding: chunked\r\n\r\n2\r\nab\r\n0\r\n\r\nGET / HTTP/1.1\r\nHost: a\r\n\r\n";

const ECHOED: &[u8] =
    b"HTTP/1.1 100 Continue\r\n\r\nHTTP/1.1 200 OK\r\ncontent-type: application/octet-stream\r\ntransfer-encoding: chunked\r\n\r\n2\r\nab\r\n0\r\n\r\nHTTP/1.1 200 OK\r\ncontent-type: application/octet-stream\r\ntransfer-encoding: chunked\r\n\r\n0\r\n\r\n";

/// The content `x`, and two trailers.
const TRAILS: App = App::Sends(&[
    Said::Announce(200, &[("trailer", "x-sum, x-end")]),
    Said::Last("x"),
    Said::Trailers(&[("x-sum", "7")]),
    Said::LastTrailers(&[("x-end", "y")]),
]);

const TRAILED: &[u8] =
    b"HTTP/1.1 200 OK\r\ntrailer: x-sum, x-end\r\ntransfer-encoding: chunked\r\n\r\n1\r\nx\r\n0\r\nx-sum: 7\r\nx-end: y\r\n\r\n";

/// A row: the application, the input, what is written, and the outcome and the exchanges.
type Row = (App, &'static [u8], &'static [u8], Outcome, u64);

const ROWS: &[Row] = &[
    (App::Hello, GET, HELLO, Outcome::Finished, 1),
    (App::Hello, HEAD, HELLO_HEAD, Outcome::Finished, 1),
    (App::Hello, LENGTH, HELLO, Outcome::Finished, 1),
    (App::Hello, NO_HOST, BAD_REQUEST, Outcome::Refused(400), 0),
    (App::Echo, PIPELINED, ECHOED, Outcome::Finished, 2),
    (TRAILS, GET_TAKING_TRAILERS, TRAILED, Outcome::Finished, 1),
];

/// After a beginning of what is due, either nothing more, or the refusal of a request whose application had no memory.
fn is_cut_off(written: &[u8], wanted: &[u8], outcome: Outcome) -> bool {
    if outcome == Outcome::NoMemory {
        return wanted.starts_with(written);
    }
    if outcome != Outcome::Refused(500) {
        return false;
    }
    match written.strip_suffix(SERVER_ERROR) {
        Some(front) => wanted.starts_with(front),
        None => false,
    }
}

fn is_end(report: &Report, row: &Row) -> bool {
    report.exchanges == row.4 && report.faults == 0
}

/// Serves a connection that comes in two pieces, and compares with its response. False if memory was refused.
fn is_served<H: Abort + Host>(rt: &H, row: &Row) -> bool {
    let Ok(mut line) = line_of(rt, Pieces::new(row.1, 9, 4_096)) else {
        return false;
    };
    is_line_served(rt, &mut line, row)
}

fn is_line_served<H: Abort + Host>(rt: &H, line: &mut Memory<Pieces>, row: &Row) -> bool {
    let Ok((report, _)) = serve_by(rt, Way::Inline, &Limits::usual(), row.0, line) else {
        return false;
    };
    let written = text_of(line);
    let is_whole = report.outcome == row.3;
    let holds = if is_whole {
        is_end(&report, row) && written == row.2
    } else {
        is_cut_off(written, row.2, report.outcome)
    };
    assert!(rt; holds);
    is_whole
}

/// Only one allocation is refused, so of two connections one is served.
#[test]
fn memory_for_a_connection(rt: HostRuntime) -> Result<(), Fail> {
    for (place, row) in ROWS.iter().enumerate() {
        let served = is_served(&rt, row) || is_served(&rt, row);
        assert!(rt; served, "row {place}");
    }
    Ok(())
}
