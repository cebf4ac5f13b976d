//! Memory refused to a connection whose tasks have a thread of their own, in either thread, and for the thread itself.
//! `tests/memory.py` runs this with each allocation refused in turn; with ample memory none is refused.
use crate::serving::{End, is_repeated, serve_pieces};
use asgi_apps::{AppTask, Application, Echo, Hello};
use asgi_conn::{Host, Outcome};
use asgi_fakes::texts::{ECHO_HEAD, GET, GET_TAKING_TRAILERS, HELLO, PLAIN_HEAD, SERVER_ERROR};
use asgi_fakes::{Memory, Pieces, Said, Sends, line_of, text_of};
use asgi_types::Limits;
use std::io;

const POST: &[u8] = b"POST / HTTP/1.1\r\nHost: a\r\nContent-Length: 2\r\n\r\nab";

const BODY: &[u8] = b"2\r\nab\r\n0\r\n\r\n";

/// The input, and the two parts of what is written.
type Row = (&'static [u8], &'static [u8], &'static [u8]);

const GREETED: Row = (GET, HELLO, b"");

const ECHOED: Row = (POST, ECHO_HEAD, BODY);

/// The content `x`, and two trailers.
const TRAILS: Sends = Sends(&[
    Said::Announce(200, &[]),
    Said::Last("x"),
    Said::Trailers(&[("x-sum", "7")]),
    Said::LastTrailers(&[("x-end", "y")]),
]);

const TRAILED: Row = (
    GET_TAKING_TRAILERS,
    PLAIN_HEAD,
    b"1\r\nx\r\n0\r\nx-sum: 7\r\nx-end: y\r\n\r\n",
);

/// What came of a connection.
#[derive(Clone, Copy, PartialEq, Eq)]
enum Came {
    /// The connection was served as the row has it.
    Whole,
    /// Memory or a thread was refused, and nothing was done that is not due.
    CutOff,
    Otherwise,
}

/// Whether the bytes are a beginning of the row's.
fn is_beginning(bytes: &[u8], row: &Row) -> bool {
    match bytes.strip_prefix(row.1) {
        Some(rest) => row.2.starts_with(rest),
        None => row.1.starts_with(bytes),
    }
}

/// Whether the bytes are what a connection may have that ends like this for want of memory.
fn is_cut_off(bytes: &[u8], outcome: Outcome, row: &Row) -> bool {
    match outcome {
        Outcome::NoMemory => is_beginning(bytes, row),
        Outcome::NoThread => bytes.is_empty(),
        Outcome::Refused(500) => match bytes.strip_suffix(SERVER_ERROR) {
            Some(front) => is_beginning(front, row),
            None => false,
        },
        _ => false,
    }
}

fn how_it_came(end: End, bytes: &[u8], row: &Row) -> Came {
    if end == (Outcome::Finished, 1, 0, 0) {
        let is_whole = match bytes.strip_prefix(row.1) {
            Some(rest) => is_repeated(rest, row.2, 1),
            None => false,
        };
        return if is_whole {
            Came::Whole
        } else {
            Came::Otherwise
        };
    }
    if is_cut_off(bytes, end.0, row) {
        return Came::CutOff;
    }
    Came::Otherwise
}

fn came_over<H: Host, T: AppTask + Send + 'static, A: Application<Task = T>>(
    rt: &H,
    app: &A,
    line: &mut Memory<Pieces>,
    row: &Row,
) -> io::Result<Came> {
    let end = serve_pieces(rt, &Limits::usual(), app, line, true)?;
    Ok(how_it_came(end, text_of(line), row))
}

/// Serves the row by this application.
fn serve_row<H: Host, T: AppTask + Send + 'static, A: Application<Task = T>>(
    rt: &H,
    app: &A,
    row: &Row,
) -> io::Result<Came> {
    let mut line = line_of(rt, Pieces::new(row.0, 9, 4_096))?;
    came_over(rt, app, &mut line, row)
}

/// What came of a connection that may not even have begun.
fn what_came(served: io::Result<Came>) -> Came {
    match served {
        Ok(came) => came,
        Err(_) => Came::CutOff,
    }
}

/// Whether it is served as the row has it, once more if memory was refused.
fn is_whole<H: Host, T: AppTask + Send + 'static, A: Application<Task = T>>(
    rt: &H,
    app: &A,
    row: &Row,
) -> bool {
    let mut last = what_came(serve_row(rt, app, row));
    if last == Came::CutOff {
        last = what_came(serve_row(rt, app, row));
    }
    last == Came::Whole
}

/// Only one allocation is refused, so of two connections one is served.
#[test]
fn memory_for_a_greeting_beside_a_thread(rt: HostRuntime) {
    assert!(rt; is_whole(&rt, &Hello, &GREETED));
}

#[test]
fn memory_for_an_echo_beside_a_thread(rt: HostRuntime) {
    assert!(rt; is_whole(&rt, &Echo, &ECHOED));
}

#[test]
fn memory_for_trailers_beside_a_thread(rt: HostRuntime) {
    assert!(rt; is_whole(&rt, &TRAILS, &TRAILED));
}
