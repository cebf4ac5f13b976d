//! Rows over a stream, and how they are compared, in pieces and cut in two at each place.
use crate::apps::Heard;
use crate::serving::{App, serve_pieces};
use crate::texts::{ACCEPTED, HANDSHAKE};
use asgi_conn::{Host, Outcome};
use asgi_fakes::{End, Memory, Pieces, Way, line_of, text_of};
use std::alloc::{AllocError, Global};
use std::io::{self, ErrorKind};
use std::process::Abort;
use std::test::Fail;

pub type Parts = &'static [&'static [u8]];

/// The expected output.
#[derive(Clone, Copy)]
pub enum Written<'a> {
    /// Exactly these parts.
    Just(&'a [&'a [u8]]),
    /// The first parts, then what the message layer writes by itself, and then the last part.
    Around(&'a [&'a [u8]], &'a [u8]),
}

/// The application, the input, the expected output, and the outcome, the exchanges and the faults.
pub type Row = (App, Parts, Written<'static>, End);

/// What is read after the handshake, what is received, the expected output, and the outcome.
pub type Session = (Parts, &'static [Heard], Written<'static>, Outcome);

pub fn joined(alloc: Global, front: &[u8], parts: &[&[u8]]) -> Result<Vec<u8>, AllocError> {
    let mut bytes = Vec::from_slice(alloc, front)?;
    for part in parts {
        bytes.extend_from_slice(part)?;
    }
    Ok(bytes)
}

/// What is after the parts, if the bytes begin with them.
pub fn after<'a>(bytes: &'a [u8], parts: &[&[u8]]) -> Option<&'a [u8]> {
    let mut rest = bytes;
    for part in parts {
        rest = rest.strip_prefix(*part)?;
    }
    Some(rest)
}

pub fn is_written(bytes: &[u8], written: Written<'_>) -> bool {
    match written {
        Written::Just(parts) => after(bytes, parts) == Some(b""),
        Written::Around(parts, last) => match after(bytes, parts) {
            Some(rest) => rest.ends_with(last),
            None => false,
        },
    }
}

/// In one thread alone.
const ONE: &[Way] = &[Way::Inline];

/// In either way.
pub const BOTH: &[Way] = &[Way::Inline, Way::Beside];

/// Serves the input in these pieces, in each of these ways, and compares.
pub fn is_served<H: Host>(
    rt: &H,
    ways: &[Way],
    app: App,
    pieces: Pieces,
    written: Written<'_>,
    end: End,
) -> io::Result<bool> {
    for way in ways {
        if !is_served_so(rt, *way, app, pieces, written, end)? {
            return Ok(false);
        }
    }
    Ok(true)
}

fn is_served_so<H: Host>(
    rt: &H,
    way: Way,
    app: App,
    pieces: Pieces,
    written: Written<'_>,
    end: End,
) -> io::Result<bool> {
    let mut line = line_of(rt, pieces)?;
    is_line_served(rt, way, app, &mut line, written, end)
}

fn is_line_served<H: Host>(
    rt: &H,
    way: Way,
    app: App,
    line: &mut Memory<Pieces>,
    written: Written<'_>,
    end: End,
) -> io::Result<bool> {
    let ended = serve_pieces(rt, way, app, line)?;
    let is_so = ended == end && is_written(text_of(line), written);
    Ok(is_so || way == Way::Beside && is_crossed(ended, text_of(line), written, end))
}

/// Whether the end of the session was read before the last message was sent, which is then refused: if the task has a
/// thread of its own, either may be first.
fn is_crossed(ended: End, bytes: &[u8], written: Written<'_>, end: End) -> bool {
    let Written::Around(parts, _) = written else {
        return false;
    };
    let is_lost = (ended.0, ended.1) == (Outcome::WriteFailed(0), end.1);
    is_lost && parts.first() == Some(&ACCEPTED) && bytes.starts_with(ACCEPTED)
}

/// How many bytes come in a read, and the fault that comes before each, if any.
const SIZES: &[(usize, Option<ErrorKind>)] = &[
    (4_096, None),
    (1, None),
    (7, None),
    (4_096, Some(ErrorKind::WouldBlock)),
    (1, Some(ErrorKind::WouldBlock)),
    (7, Some(ErrorKind::WouldBlock)),
];

/// The first piece size with which the row fails: whole, byte by byte and in pieces of seven, with and without a read
/// that would block before each.
fn fails_at<H: Host>(
    rt: &H,
    ways: &[Way],
    app: App,
    input: &[u8],
    written: Written<'_>,
    end: End,
) -> io::Result<Option<usize>> {
    for (size, before) in SIZES {
        let pieces = pieces_of(input, *size, *size, *before);
        if !is_served(rt, ways, app, pieces, written, end)? {
            return Ok(Some(*size));
        }
    }
    Ok(None)
}

fn pieces_of<'a>(
    input: &'a [u8],
    first: usize,
    later: usize,
    before: Option<ErrorKind>,
) -> Pieces<'a> {
    let mut pieces = Pieces::new(input, first, later);
    pieces.before = before;
    pieces
}

fn row_fails_at<H: Host>(rt: &H, ways: &[Way], row: &Row) -> io::Result<Option<usize>> {
    let input = joined(rt.alloc(), b"", row.1)?;
    fails_at(rt, ways, row.0, &input, row.2, row.3)
}

fn check_so<H: Abort + Host>(rt: &H, ways: &[Way], rows: &[Row]) -> Result<(), Fail> {
    for (place, row) in rows.iter().enumerate() {
        let failed = row_fails_at(rt, ways, row)?;
        assert!(rt;
            failed.is_none(),
            "row {place}, pieces of {}",
            failed.unwrap_or(0)
        );
    }
    Ok(())
}

/// Each row, in pieces.
pub fn check<H: Abort + Host>(rt: &H, rows: &[Row]) -> Result<(), Fail> {
    check_so(rt, BOTH, rows)
}

/// What else may come of a row if the task has a thread of its own, since what it sends may cross with what is read:
/// the output, and the outcome.
pub type Crossed = &'static [(Written<'static>, Outcome)];

/// Whether the row is served in two threads as it is, or in one of the crossed ways.
fn is_crossing<H: Host>(rt: &H, row: &Row, crossed: Crossed, pieces: Pieces) -> io::Result<bool> {
    let mut line = line_of(rt, pieces)?;
    is_line_crossing(rt, row, crossed, &mut line)
}

fn is_line_crossing<H: Host>(
    rt: &H,
    row: &Row,
    crossed: Crossed,
    line: &mut Memory<Pieces>,
) -> io::Result<bool> {
    let ended = serve_pieces(rt, Way::Beside, row.0, line)?;
    let written = text_of(line);
    let is_so = ended == row.3 && is_written(written, row.2);
    Ok(is_so || ended.1 == 1 && is_among(written, ended.0, crossed))
}

// The outcomes are compared as parts of pairs: a proof of `==` alone goes through the variants of both.
fn is_among(bytes: &[u8], outcome: Outcome, crossed: Crossed) -> bool {
    for (written, ended) in crossed {
        if (outcome, true) == (*ended, is_written(bytes, *written)) {
            return true;
        }
    }
    false
}

fn crossing_fails_at<H: Host>(
    rt: &H,
    row: &Row,
    crossed: Crossed,
    input: &[u8],
) -> io::Result<Option<usize>> {
    for (size, before) in SIZES {
        let pieces = pieces_of(input, *size, *size, *before);
        if !is_crossing(rt, row, crossed, pieces)? {
            return Ok(Some(*size));
        }
    }
    Ok(None)
}

fn crossing_row_fails_at<H: Host>(
    rt: &H,
    row: &Row,
    crossed: Crossed,
) -> io::Result<Option<usize>> {
    let input = joined(rt.alloc(), b"", row.1)?;
    crossing_fails_at(rt, row, crossed, &input)
}

/// Each row, in pieces: in one thread exactly as it is, and in two as it is or in one of the crossed ways.
pub fn check_crossing<H: Abort + Host>(
    rt: &H,
    rows: &[Row],
    crossed: &[Crossed],
) -> Result<(), Fail> {
    check_so(rt, ONE, rows)?;
    for (place, (row, crossed)) in rows.iter().zip(crossed).enumerate() {
        let failed = crossing_row_fails_at(rt, row, crossed)?;
        assert!(rt;
            failed.is_none(),
            "row {place}, pieces of {}",
            failed.unwrap_or(0)
        );
    }
    Ok(())
}

fn session_fails_at<H: Host>(rt: &H, app: App, row: &Session) -> io::Result<Option<usize>> {
    let input = joined(rt.alloc(), HANDSHAKE, row.0)?;
    fails_at(rt, BOTH, app, &input, row.2, (row.3, 1, 0))
}

/// The first piece size with which the session fails, by an application that receives exactly its events, and by `WsEcho`.
fn fails_by_either<H: Host>(rt: &H, row: &Session) -> io::Result<(Option<usize>, Option<usize>)> {
    let heard = session_fails_at(rt, App::Listens(row.1), row)?;
    Ok((heard, session_fails_at(rt, App::WsEcho, row)?))
}

/// Each session, in pieces, by an application that receives exactly these events, and by `WsEcho`.
pub fn check_sessions<H: Abort + Host>(rt: &H, rows: &[Session]) -> Result<(), Fail> {
    for (place, row) in rows.iter().enumerate() {
        let (heard, echoed) = fails_by_either(rt, row)?;
        assert!(rt;
            heard.is_none() && echoed.is_none(),
            "row {place}, pieces of {}, by WsEcho {}",
            heard.unwrap_or(0),
            echoed.unwrap_or(0)
        );
    }
    Ok(())
}

/// The first place at which the input, cut in two there, is served in another way.
fn wrong_cut<H: Host>(
    rt: &H,
    row: &Row,
    input: &[u8],
    before: Option<ErrorKind>,
) -> io::Result<Option<usize>> {
    for cut in 1..input.len() {
        let two = pieces_of(input, cut, 4_096, before);
        if !is_served(rt, BOTH, row.0, two, row.2, row.3)? {
            return Ok(Some(cut));
        }
    }
    Ok(None)
}

fn wrong_cut_of<H: Host>(
    rt: &H,
    row: &Row,
    before: Option<ErrorKind>,
) -> io::Result<Option<usize>> {
    let input = joined(rt.alloc(), b"", row.1)?;
    wrong_cut(rt, row, &input, before)
}

/// Each row, cut in two at each place, with this fault before each read, if any.
pub fn check_halves<H: Abort + Host>(
    rt: &H,
    rows: &[Row],
    before: Option<ErrorKind>,
) -> Result<(), Fail> {
    for (place, row) in rows.iter().enumerate() {
        let cut = wrong_cut_of(rt, row, before)?;
        assert!(rt; cut.is_none(), "row {place}, cut at {}", cut.unwrap_or(0));
    }
    Ok(())
}
