//! Memory refused to a session. `tests/memory.py` runs this with each allocation refused in turn; with ample memory none is
//! refused.
use crate::rows::{BOTH, Parts, after, joined};
use crate::scripts::{Given, Out, is_front, is_handed, script_of};
use crate::serving::{App, serve_pieces, serve_script};
use crate::texts::{ACCEPTED, FORBIDDEN, HANDSHAKE, HELLO, HELLO_BACK, OFFERING, SERVER_ERROR};
use asgi_conn::{Host, Outcome};
use asgi_fakes::{End, Memory, Pieces, Way, line_of, text_of};
use asgi_types::Limits;
use asgi_ws::Script;
use std::io;

/// What came of a session.
#[derive(Clone, Copy, PartialEq, Eq)]
enum Came {
    /// The session was served as the row has it.
    Whole,
    /// Memory was refused, and nothing was done that is not due.
    CutOff,
    Otherwise,
}

impl Came {
    fn whole_if(is_so: bool) -> Came {
        if is_so { Came::Whole } else { Came::Otherwise }
    }

    fn cut_off_if(is_so: bool) -> Came {
        if is_so { Came::CutOff } else { Came::Otherwise }
    }
}

/// What came of a session that may not even have begun.
fn what_came(session: io::Result<Came>) -> Came {
    match session {
        Ok(came) => came,
        Err(_) => Came::CutOff,
    }
}

/// Whether the bytes are a beginning of these parts.
fn is_beginning(bytes: &[u8], parts: Parts) -> bool {
    let mut rest = bytes;
    for part in parts {
        match rest.strip_prefix(*part) {
            Some(after) => rest = after,
            None => return part.starts_with(rest),
        }
    }
    rest.is_empty()
}

/// A beginning of what is due and nothing more; or the refusal of a request whose application had no memory; or
/// nothing, if a line in memory had none for the text, or a thread was refused.
fn is_cut_off(written: &[u8], wanted: Parts, outcome: Outcome) -> bool {
    match outcome {
        Outcome::NoMemory => is_beginning(written, wanted),
        Outcome::NoThread => written.is_empty(),
        Outcome::Refused(500) => written == SERVER_ERROR,
        Outcome::WriteFailed(0) => written.is_empty(),
        _ => false,
    }
}

/// The application, the input, what is written, and the outcome.
type Row = (App, Parts, Parts, Outcome);

const ROWS: &[Row] = &[
    (
        App::WsEcho,
        &[HANDSHAKE, HELLO],
        &[ACCEPTED, HELLO_BACK],
        Outcome::InputBroke,
    ),
    (App::Hello, &[OFFERING], &[FORBIDDEN], Outcome::Finished),
];

// The outcomes are compared as parts of pairs: a proof of `!=` alone goes through the variants of both.
fn wired_came(row: &Row, written: &[u8], end: End) -> Came {
    let (outcome, exchanges, faults) = end;
    if (outcome, 0) != (row.3, 0) {
        return Came::cut_off_if(is_cut_off(written, row.2, outcome));
    }
    Came::whole_if((exchanges, faults) == (1, 0) && after(written, row.2) == Some(b""))
}

fn serve_over<H: Host>(rt: &H, way: Way, row: &Row, line: &mut Memory<Pieces>) -> io::Result<Came> {
    let end = serve_pieces(rt, way, row.0, line)?;
    Ok(wired_came(row, text_of(line), end))
}

/// Serves a session over a stream, whose input comes in two pieces.
fn serve_wired<H: Host>(rt: &H, way: Way, row: &Row) -> io::Result<Came> {
    let input = joined(rt.alloc(), b"", row.1)?;
    let mut line = line_of(rt, Pieces::new(&input, 9, 4_096))?;
    serve_over(rt, way, row, &mut line)
}

/// Whether it is served as the row has it, once more if memory was refused.
fn is_whole<H: Host>(rt: &H, way: Way, row: &Row) -> bool {
    let mut last = what_came(serve_wired(rt, way, row));
    if last == Came::CutOff {
        last = what_came(serve_wired(rt, way, row));
    }
    last == Came::Whole
}

/// Only one allocation is refused, in whichever thread, so of two sessions one is served.
#[test]
fn memory_for_a_session_over_a_stream(rt: HostRuntime) {
    for way in BOTH {
        for (place, row) in ROWS.iter().enumerate() {
            assert!(rt; is_whole(&rt, *way, row), "row {place}");
        }
    }
}

const ECHO: &[Out] = &[Out::Text("Hello")];

fn scripted_came(line: &Script, end: End) -> Came {
    let (outcome, exchanges, faults) = end;
    if outcome != Outcome::InputBroke {
        let is_text = is_cut_off(line.text(), &[ACCEPTED], outcome);
        return Came::cut_off_if(is_text && is_front(line, ECHO));
    }
    let is_so = line.text() == ACCEPTED && is_handed(line, ECHO);
    Came::whole_if(is_so && (exchanges, faults) == (1, 0))
}

fn serve_over_script<H: Host>(rt: &H, line: &mut Script) -> io::Result<Came> {
    let (end, _) = serve_script(rt, Way::Inline, &Limits::usual(), App::WsEcho, line)?;
    Ok(scripted_came(line, end))
}

/// The same over a line in memory.
fn serve_in_memory<H: Host>(rt: &H) -> io::Result<Came> {
    let mut line = script_of(rt.alloc(), &[HANDSHAKE], &[Given::Text("Hello")])?;
    serve_over_script(rt, &mut line)
}

fn is_script_whole<H: Host>(rt: &H) -> bool {
    let mut last = what_came(serve_in_memory(rt));
    if last == Came::CutOff {
        last = what_came(serve_in_memory(rt));
    }
    last == Came::Whole
}

#[test]
fn memory_for_a_session_in_memory(rt: HostRuntime) {
    assert!(rt; is_script_whole(&rt));
}
