//! Rows of hostile inputs, and how they are compared.
use asgi_conn::{Host, Outcome};
use asgi_fakes::texts::{BAD_REQUEST, NOT_IMPLEMENTED};
use asgi_fakes::{App, Pieces, is_served};
use asgi_types::Limits;
use std::alloc::{AllocError, Global};
use std::io;
use std::test::Fail;

pub type Parts = &'static [&'static [u8]];

/// All that is written, how the connection ends, and its exchanges.
pub type Answer = (Parts, Outcome, u64);

/// A name, what is read, and the answer.
pub type Row = (&'static str, Parts, Answer);

/// The request that is to be smuggled in: 31 bytes, in hexadecimal 1f.
pub const EVIL: &[u8] = b"GET /evil HTTP/1.1\r\nHost: a\r\n\r\n";

/// What `Targets` answers to a request for `/`, and to the one above.
pub const ROOT: &[u8] =
    b"HTTP/1.1 200 OK\r\ntransfer-encoding: chunked\r\n\r\n8\r\n[/][/][]\r\n0\r\n\r\n";

pub const EVIL_ANSWER: &[u8] =
    b"HTTP/1.1 200 OK\r\ntransfer-encoding: chunked\r\n\r\n10\r\n[/evil][/evil][]\r\n0\r\n\r\n";

/// No request is heard.
pub const BAD: Answer = (&[BAD_REQUEST], Outcome::Refused(400), 0);

pub const UNKNOWN: Answer = (&[NOT_IMPLEMENTED], Outcome::Refused(501), 0);

/// One request is heard, and nothing after it.
pub const ONE: Answer = (&[ROOT], Outcome::Finished, 1);

/// One request is heard, and what follows it is refused.
pub const ONE_AND_BAD: Answer = (&[ROOT, BAD_REQUEST], Outcome::Refused(400), 1);

/// Both requests are heard: the second is one of its own for whoever reads the standard.
pub const TWO: Answer = (&[ROOT, EVIL_ANSWER], Outcome::Finished, 2);

/// The input ends within a head.
pub const OPEN: Answer = (&[], Outcome::InputBroke, 0);

pub fn joined(alloc: Global, parts: &[&[u8]]) -> Result<Vec<u8>, AllocError> {
    let mut bytes = Vec::new(alloc);
    for part in parts {
        bytes.extend_from_slice(part)?;
    }
    Ok(bytes)
}

/// Whether the input, in pieces of this size, gets the answer, with both runners.
fn is_answered<H: Host>(rt: &H, app: App, row: &Row, piece: usize) -> io::Result<bool> {
    let (_, input, (wanted, outcome, exchanges)) = *row;
    let input = joined(rt.alloc(), input)?;
    let wanted = joined(rt.alloc(), wanted)?;
    let pieces = Pieces::new(&input, piece, piece);
    let end = (outcome, exchanges, 0);
    is_served(rt, &Limits::usual(), app, pieces, &wanted, end)
}

/// Whether it does so whole and byte by byte.
fn holds<H: Host>(rt: &H, app: App, row: &Row) -> io::Result<bool> {
    Ok(is_answered(rt, app, row, 4_096)? && is_answered(rt, app, row, 1)?)
}

/// Each row, by this application.
pub fn check<H: Host>(rt: &H, app: App, rows: &[Row]) -> Result<(), Fail> {
    for row in rows {
        if !holds(rt, app, row)? {
            return Err(Fail::from(row.0));
        }
    }
    Ok(())
}
